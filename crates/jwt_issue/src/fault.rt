//! The causes to add no claim, and to issue nothing.
ghost use Rattle.std.specs.Prelude.{◌≡◌};
ghost use Rattle.jwt_issue.specs.declared.fault.IssueFault.TheVariants.{OutOfMemory};

use std::alloc::{AllocError, AllocFailed};
use thiserror::Error;

/// Why a claim wasn't added. The builder is as before.
#[derive(Clone, Copy, Debug, PartialEq, Eq, Error)]
pub enum BuildFault {
    /// An allocation of memory was refused.
    #[error("out of memory")]
    OutOfMemory,

    /// A claim of this name is there already.
    #[error("a claim of this name is there already")]
    NameTwice,
}

impl BuildFault {
    ghost use Rattle.jwt_issue.specs.FaultNames.{build_fault_name};

    /// The name of the fault, that of its variant.
    pub fn name(self) -> &'static str
        ensures { result.now ≡ build_fault_name self }
    {
        match self {
            BuildFault::OutOfMemory => "OutOfMemory",
            BuildFault::NameTwice => "NameTwice",
        }
    }
}

/// Why nothing was issued. The first that holds is answered, in the order `NoKey`, `TooManySignatures`, pair by pair
/// `AlgNotHmac` and `KeyUnfit`, `TooLong`, `Spent`. Pairs of an algorithm and a key are numbered from 0.
#[derive(Clone, Copy, Debug, PartialEq, Eq, Error)]
pub enum IssueFault {
    /// An allocation of memory was refused. It may stand in place of any other answer.
    #[error("out of memory")]
    OutOfMemory,

    /// There is no pair.
    #[error("there is no key")]
    NoKey,

    /// There are more than 32 pairs.
    #[error("there are too many keys")]
    TooManySignatures,

    /// The algorithm of this pair isn't HMAC with SHA-2 (RFC 7518, section 3.2).
    #[error("the algorithm of signature {0} is not HMAC")]
    AlgNotHmac(u32),

    /// The key of this pair is no secret, or has fewer octets than the digest of the algorithm (RFC 7518, section 3.2), or
    /// another `alg` (RFC 7517, section 4.4), or its `use` or `key_ops` don't permit signing (sections 4.2 and 4.3).
    #[error("the key of signature {0} does not suit its algorithm")]
    KeyUnfit(u32),

    /// The token would have more than 1,048,576 octets.
    #[error("the token would be too long")]
    TooLong,

    /// The HMAC of this pair costs more than the budget has left after those before it.
    #[error("signature {0} would exceed the budget")]
    Spent(u32),
}

impl IssueFault {
    ghost use Rattle.jwt_issue.specs.FaultNames.{issue_fault_name};

    /// The name of the fault, that of its variant, without its place, as the program `jwt` prints it.
    pub fn name(self) -> &'static str
        ensures { result.now ≡ issue_fault_name self }
    {
        match self {
            IssueFault::OutOfMemory => "OutOfMemory",
            IssueFault::NoKey => "NoKey",
            IssueFault::TooManySignatures => "TooManySignatures",
            IssueFault::AlgNotHmac(_) => "AlgNotHmac",
            IssueFault::KeyUnfit(_) => "KeyUnfit",
            IssueFault::TooLong => "TooLong",
            IssueFault::Spent(_) => "Spent",
        }
    }
}

impl From<AllocError> for IssueFault {
    ghost from_gives = { λ _ e. e ≡ OutOfMemory };

    fn from(_e: AllocError) -> IssueFault {
        IssueFault::OutOfMemory
    }
}

impl<T: Drop> From<AllocFailed<T>> for IssueFault {
    ghost from_gives = { λ _ e. e ≡ OutOfMemory };

    fn from(_e: AllocFailed<T>) -> IssueFault {
        IssueFault::OutOfMemory
    }
}
