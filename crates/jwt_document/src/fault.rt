//! The causes to refuse the document of a service.

ghost use Rattle.std.specs.Prelude.{◌≡◌, ◌≢◌, IfOk};
ghost use Rattle.jwt_document.specs.declared.fault.ServiceFault.TheVariants.{OutOfMemory};
ghost use Rattle.jwt_document.specs.Views.{found};

use crate::closed::Found;
use crate::place::Place;
use crate::rows::{Cause, Within};
use crate::words::{line_of, nearest_to, place_of};
use jwt_access::AccessFault;
use jwt_jwk::JwkFault;
use jwt_keys::KeysFault;
use jwt_policy::PolicyFault;
use std::alloc::{AllocError, AllocFailed, Global};
use std::marker::Model;

/// A member that is refused, or is missing.
#[derive(Drop)]
pub struct FaultAt {
    cause: Cause,
    within: Within,
    name: String,
    element: Option<usize>,
}

impl Model for FaultAt {
    ghost use Rattle.std.specs.Prelude.{string_bytes};
    ghost use Rattle.jwt_document.specs.Tables.{Fault};

    ghost Value = { Fault };

    ghost view = { λ f. record {
      cause = f.cause;
      within = f.within;
      name = string_bytes f.name;
      element = f.element;
    } };
}

impl FaultAt {
    /// This fault. Refused where an allocation was.
    fn new(alloc: Global, fault: Found<'_>) -> Result<FaultAt, AllocError>
        ensures { IfOk result (λ f. f ≡ found fault.entry) }
    {
        let name = String::from_str(alloc, fault.name)?;
        Ok(FaultAt {
            cause: fault.cause,
            within: fault.within,
            name,
            element: fault.element,
        })
    }

    /// The cause.
    pub fn cause(&self) -> Cause
        ensures { result ≡ self.now.cause }
    {
        self.cause
    }

    /// The object in which the member stands, or is missing.
    pub fn within(&self) -> Within
        ensures { result ≡ self.now.within }
    {
        self.within
    }

    /// The name of the member, with JSON escapes undone.
    pub fn name(&self) -> &str
        ensures { result.now ≡ self.now.name }
    {
        self.name.as_str()
    }

    /// Which of its elements it is, counted from 0, where it is about one of a list.
    pub fn element(&self) -> Option<usize>
        ensures { result ≡ self.now.element }
    {
        self.element
    }
}

/// The name of a rule.
#[derive(Drop)]
pub struct RuleName {
    text: String,
}

impl Model for RuleName {
    ghost use Rattle.std.specs.Prelude.{ℕ, List, string_bytes};

    ghost Value = { List ℕ };

    ghost view = { λ n. string_bytes n.text };
}

impl RuleName {
    /// This name. Refused where an allocation was.
    pub(crate) fn new(alloc: Global, text: &str) -> Result<RuleName, AllocError>
        ensures { IfOk result (λ n. n ≡ text.now) }
    {
        let text = String::from_str(alloc, text)?;
        Ok(RuleName { text })
    }

    /// The name, with JSON escapes undone.
    pub fn text(&self) -> &str
        ensures { result.now ≡ self.now }
    {
        self.text.as_str()
    }
}

/// Why the document of a service is refused.
#[derive(Drop)]
pub enum ServiceFault {
    /// An allocation of memory was refused.
    OutOfMemory,
    /// There are more than 4,194,304 octets.
    TooLong,
    /// The octets are no JSON text in UTF-8, or its value is no object.
    Json,
    /// A name stands twice in one object, at any depth.
    NameTwice,
    /// A member is refused, or is missing.
    Member(FaultAt),
    /// The entry of this number is no object.
    EntryKind(usize),
    /// A member of the entry of this number is refused, or is missing.
    Entry(usize, FaultAt),
    /// The policy of the entry of this number is refused.
    Policy(usize, PolicyFault),
    /// Not exactly one of `set`, `pem`, `secret`, `file`, `url` and `discover` stands in the keys of the entry of this number.
    Together(usize),
    /// The key set of the entry of this number is refused.
    Keys(usize, KeysFault),
    /// No key of the entry of this number can be used by an algorithm of its policy.
    NoUsableKey(usize),
    /// The secret of the entry of this number is shorter than HMAC by an algorithm of its policy asks for.
    ShortSecret(usize),
    /// The keys of the entry of this number aren't at a URL of `https`, or of `http` where that is allowed.
    Url(usize),
    /// The policy of the entry of this number names no issuer, and there are several entries, or its keys are at a URL; or they are found by metadata,
    /// and it doesn't name one alone.
    Issuer(usize),
    /// The policy of the entry of this number names an issuer that an earlier one names.
    IssuerTwice(usize),
    /// The policy of the entry of this number allows HMAC, and its keys are public.
    NotPublic(usize),
    /// The rule of this name is refused.
    Rule(RuleName, AccessFault),
    /// No keys can be had of the text in PEM of the entry of this number.
    Pem(usize, JwkFault),
}

impl ServiceFault {
    /// The fault in one line, which says where it is and what is wrong: `issuers[1].keys: unknown member "urll", did you mean "url"?`. It has no control character, and of
    /// the document no more than names of members.
    ///
    /// # Errors
    /// Where an allocation was refused, here and below.
    pub fn line(&self, alloc: Global) -> Result<String, AllocError> {
        line_of(alloc, self)
    }

    /// The name of a member that is near to an unknown one: one edit leads to it, or else two.
    pub fn nearest(&self, alloc: Global) -> Result<Option<&'static str>, AllocError> {
        nearest_to(alloc, self)
    }

    /// Where in the document what the fault is about stands, or would stand; none where that isn't known, as of a name that stands twice.
    pub fn place(&self, alloc: Global, document: &[u8]) -> Result<Option<Place>, AllocError> {
        place_of(alloc, self, document)
    }

    /// A member of an entry is refused.
    pub(crate) fn entry(alloc: Global, number: usize, fault: Found<'_>) -> ServiceFault
        ensures { result ≢ ServiceFault.OutOfMemory → result ≡ ServiceFault.Entry number (found fault.entry) }
    {
        match FaultAt::new(alloc, fault) {
            Ok(fault) => ServiceFault::Entry(number, fault),
            Err(_) => ServiceFault::OutOfMemory,
        }
    }

    /// A member is refused.
    pub(crate) fn member(alloc: Global, fault: Found<'_>) -> ServiceFault
        ensures { result ≢ ServiceFault.OutOfMemory → result ≡ ServiceFault.Member (found fault.entry) }
    {
        match FaultAt::new(alloc, fault) {
            Ok(fault) => ServiceFault::Member(fault),
            Err(_) => ServiceFault::OutOfMemory,
        }
    }
}

impl<T: Drop> From<AllocFailed<T>> for ServiceFault {
    ghost from_gives = { λ _ e. e ≡ OutOfMemory };

    fn from(_error: AllocFailed<T>) -> ServiceFault {
        ServiceFault::OutOfMemory
    }
}

impl From<AllocError> for ServiceFault {
    ghost from_gives = { λ _ e. e ≡ OutOfMemory };

    fn from(_error: AllocError) -> ServiceFault {
        ServiceFault::OutOfMemory
    }
}
