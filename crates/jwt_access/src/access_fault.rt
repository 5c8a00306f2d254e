//! The causes to refuse the document of an access rule.

ghost use Rattle.std.specs.Prelude.{◌≡◌, ◌≢◌, IfOk};
ghost use Rattle.jwt_access.specs.declared.access_fault.AccessFault.TheVariants.{OutOfMemory};

use std::alloc::{AllocError, AllocFailed, Global};
use std::marker::Model;
use thiserror::Error;

/// The name of a member of a rule's document, or of a claim that it asks for.
#[derive(Debug, Drop)]
pub struct RuleMember {
    text: String,
}

impl Model for RuleMember {
    ghost use Rattle.std.specs.Prelude.{ℕ, List, string_bytes};

    ghost Value = { List ℕ };

    ghost view = { λ n. string_bytes n.text };
}

impl RuleMember {
    /// This name. Refused where an allocation was.
    fn new(alloc: Global, text: &str) -> Result<RuleMember, AllocError>
        ensures { IfOk result (λ n. n ≡ text.now) }
    {
        let text = String::from_str(alloc, text)?;
        Ok(RuleMember { text })
    }

    /// The name, with JSON escapes undone.
    pub fn text(&self) -> &str
        ensures { result.now ≡ self.now }
    {
        self.text.as_str()
    }
}

/// Why the document of an access rule is refused.
#[derive(Debug, Drop, Error)]
pub enum AccessFault {
    /// An allocation of memory was refused.
    #[error("out of memory")]
    OutOfMemory,
    /// There are more than 65,536 octets.
    #[error("too long")]
    TooLong,
    /// The octets are no JSON text in UTF-8, or its value is no object.
    #[error("not a JSON object")]
    Json,
    /// A name stands twice in one object, at any depth.
    #[error("a name stands twice")]
    NameTwice,
    /// The member isn't one of an access rule, or is of another kind.
    #[error("the member {:?} is unknown, or of another kind", .0.text())]
    Member(RuleMember),
    /// The member's value is out of its range: a scope is no scope token (RFC 6749, section 3.3), or the name of the claim that
    /// carries scopes begins with `/` and is no JSON Pointer (RFC 6901).
    #[error("the member {:?} is out of its range", .0.text())]
    Range(RuleMember),
    /// What `claims` or `only` says of this claim is no list of texts, truth values and whole numbers of 64 signed bits; or what `ages`
    /// or `ascii` says of it is no such number.
    #[error("what is asked of the claim {:?} is of another kind", .0.text())]
    Claim(RuleMember),
    /// What `claims` or `only` says of this claim is the empty list; or what `ages` or `ascii` says of it is not from 0 to 4,294,967,295; or the
    /// claim's name begins with `/` and is no JSON Pointer (RFC 6901).
    #[error("what is asked of the claim {:?} is out of its range", .0.text())]
    ClaimRange(RuleMember),
}

impl AccessFault {
    ghost use Rattle.jwt_access.specs.FaultNames.{access_fault_name};

    /// The name of the fault, that of its variant, without the member, as the program `jwt` prints it.
    pub fn name(&self) -> &'static str
        ensures { result.now ≡ access_fault_name self.now }
    {
        match self {
            AccessFault::OutOfMemory => "OutOfMemory",
            AccessFault::TooLong => "TooLong",
            AccessFault::Json => "Json",
            AccessFault::NameTwice => "NameTwice",
            AccessFault::Member(_) => "Member",
            AccessFault::Range(_) => "Range",
            AccessFault::Claim(_) => "Claim",
            AccessFault::ClaimRange(_) => "ClaimRange",
        }
    }

    /// The member is unknown, or of another kind.
    pub(crate) fn member(alloc: Global, name: &str) -> AccessFault
        ensures { result ≢ AccessFault.OutOfMemory → result ≡ AccessFault.Member name.now }
    {
        match RuleMember::new(alloc, name) {
            Ok(name) => AccessFault::Member(name),
            Err(_) => AccessFault::OutOfMemory,
        }
    }

    /// The member is out of its range.
    pub(crate) fn range(alloc: Global, name: &str) -> AccessFault
        ensures { result ≢ AccessFault.OutOfMemory → result ≡ AccessFault.Range name.now }
    {
        match RuleMember::new(alloc, name) {
            Ok(name) => AccessFault::Range(name),
            Err(_) => AccessFault::OutOfMemory,
        }
    }

    /// What is asked of the claim is of another kind.
    pub(crate) fn claim(alloc: Global, name: &str) -> AccessFault
        ensures { result ≢ AccessFault.OutOfMemory → result ≡ AccessFault.Claim name.now }
    {
        match RuleMember::new(alloc, name) {
            Ok(name) => AccessFault::Claim(name),
            Err(_) => AccessFault::OutOfMemory,
        }
    }

    /// What is asked of the claim is out of its range.
    pub(crate) fn claim_range(alloc: Global, name: &str) -> AccessFault
        ensures { result ≢ AccessFault.OutOfMemory → result ≡ AccessFault.ClaimRange name.now }
    {
        match RuleMember::new(alloc, name) {
            Ok(name) => AccessFault::ClaimRange(name),
            Err(_) => AccessFault::OutOfMemory,
        }
    }
}

impl From<AllocError> for AccessFault {
    ghost from_gives = { λ _ e. e ≡ OutOfMemory };

    fn from(_error: AllocError) -> AccessFault {
        AccessFault::OutOfMemory
    }
}

impl<T: Drop> From<AllocFailed<T>> for AccessFault {
    ghost from_gives = { λ _ e. e ≡ OutOfMemory };

    fn from(_error: AllocFailed<T>) -> AccessFault {
        AccessFault::OutOfMemory
    }
}
