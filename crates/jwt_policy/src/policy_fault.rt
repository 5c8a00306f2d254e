//! The causes to refuse a policy document.

ghost use Rattle.std.specs.Prelude.{◌≡◌, ◌≢◌, IfOk};
ghost use Rattle.jwt_policy.specs.declared.policy_fault.PolicyFault.TheVariants.{OutOfMemory};

use std::alloc::{AllocError, AllocFailed, Global};
use std::marker::Model;
use thiserror::Error;

/// The name of a member.
#[derive(Debug, Drop)]
pub struct MemberName {
    text: String,
}

impl Model for MemberName {
    ghost use Rattle.std.specs.Prelude.{ℕ, List, string_bytes};

    ghost Value = { List ℕ };

    ghost view = { λ n. string_bytes n.text };
}

impl MemberName {
    /// This name. Refused where an allocation was.
    fn new(alloc: Global, text: &str) -> Result<MemberName, AllocError>
        ensures { IfOk result (λ n. n ≡ text.now) }
    {
        let text = String::from_str(alloc, text)?;
        Ok(MemberName { text })
    }

    /// The name, with JSON escapes undone.
    pub fn text(&self) -> &str
        ensures { result.now ≡ self.now }
    {
        self.text.as_str()
    }
}

/// Why a policy document is refused.
#[derive(Debug, Drop, Error)]
pub enum PolicyFault {
    /// An allocation of memory was refused.
    #[error("out of memory")]
    OutOfMemory,
    /// The octets are no JSON text in UTF-8, or its value is no object.
    #[error("not a JSON object")]
    Json,
    /// A name stands twice in one object, at any depth.
    #[error("a name stands twice")]
    NameTwice,
    /// The member isn't one of a policy, or is of another kind.
    #[error("the member {:?} is unknown, or of another kind", .0.text())]
    Member(MemberName),
    /// The member's value is out of its range.
    #[error("the member {:?} is out of its range", .0.text())]
    Range(MemberName),
    /// The list `algs` is absent or empty.
    #[error("no algorithm is allowed")]
    NoAlgorithm,
    /// There are more than 65,536 octets.
    #[error("too long")]
    TooLong,
}

impl PolicyFault {
    ghost use Rattle.jwt_policy.specs.FaultNames.{policy_fault_name};

    /// The name of the fault, that of its variant, without the member, as the program `jwt` prints it.
    pub fn name(&self) -> &'static str
        ensures { result.now ≡ policy_fault_name self.now }
    {
        match self {
            PolicyFault::OutOfMemory => "OutOfMemory",
            PolicyFault::Json => "Json",
            PolicyFault::NameTwice => "NameTwice",
            PolicyFault::Member(_) => "Member",
            PolicyFault::Range(_) => "Range",
            PolicyFault::NoAlgorithm => "NoAlgorithm",
            PolicyFault::TooLong => "TooLong",
        }
    }

    /// The member is unknown, or of another kind.
    pub(crate) fn member(alloc: Global, name: &str) -> PolicyFault
        ensures { result ≢ PolicyFault.OutOfMemory → result ≡ PolicyFault.Member name.now }
    {
        match MemberName::new(alloc, name) {
            Ok(name) => PolicyFault::Member(name),
            Err(_) => PolicyFault::OutOfMemory,
        }
    }

    /// The member is out of its range.
    pub(crate) fn range(alloc: Global, name: &str) -> PolicyFault
        ensures { result ≢ PolicyFault.OutOfMemory → result ≡ PolicyFault.Range name.now }
    {
        match MemberName::new(alloc, name) {
            Ok(name) => PolicyFault::Range(name),
            Err(_) => PolicyFault::OutOfMemory,
        }
    }
}

impl From<AllocError> for PolicyFault {
    ghost from_gives = { λ _ e. e ≡ OutOfMemory };

    fn from(_error: AllocError) -> PolicyFault {
        PolicyFault::OutOfMemory
    }
}

impl<T: Drop> From<AllocFailed<T>> for PolicyFault {
    ghost from_gives = { λ _ e. e ≡ OutOfMemory };

    fn from(_error: AllocFailed<T>) -> PolicyFault {
        PolicyFault::OutOfMemory
    }
}
