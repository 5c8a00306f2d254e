//! The report on a token.

ghost use Rattle.std.specs.Prelude.{◌≡◌};

use jwt_jws::FormFault;
use jwt_policy::{ClaimFault, Claims, SigFault};
use thiserror::Error;

/// The try of one key on one signature, which was paid.
#[derive(Clone, Copy, Debug, PartialEq, Eq)]
pub struct Try {
    /// The signature's number in the token, from 0.
    pub signature: u32,
    /// The key's number in the key set, from 0.
    pub key: u32,
    /// The octets that were fed to HMAC for it; 0 where a verifier was asked.
    pub cost: u64,
}

/// What became of a signature.
#[derive(Clone, Copy, Debug, PartialEq, Eq)]
pub enum SigState {
    /// No key was tried on it, for this reason.
    Barred(SigFault),
    /// No key is eligible.
    NoKey,
    /// Each eligible key was tried, and none verified it.
    BadSignature,
    /// The key of this number verified it, the least that is eligible and does.
    Verified(u32),
    /// The run ended before it.
    NotReached,
    /// The run stopped at one of its pairs: a ceiling was reached, or a verifier lacked memory.
    Stopped,
}

/// Why an input isn't read as a token.
#[derive(Clone, Copy, Debug, PartialEq, Eq, Error)]
pub enum InputFault {
    /// The source failed.
    #[error("the source failed")]
    Read,
    /// It has more octets than the policy's `limit`.
    #[error("the token is too long")]
    TooLong,
}

impl InputFault {
    ghost use Rattle.jwt_verify.specs.FaultNames.{input_fault_name};

    /// The name of the fault, that of its variant, as the program `jwt` prints it.
    pub fn name(self) -> &'static str
        ensures { result.now ≡ input_fault_name self }
    {
        match self {
            InputFault::Read => "Read",
            InputFault::TooLong => "TooLong",
        }
    }
}

/// Why a token is refused. Where several causes hold, it is the first of `Text`, `Form`, then `CallsExceeded` or
/// `WorkExceeded`, then `Signature`, then `Claim`. The name in a claim fault is lent by the policy.
#[derive(Debug, Drop, Error)]
pub enum Fault<'p> {
    /// An allocation of memory was refused. It may stand in place of any other verdict.
    #[error("out of memory")]
    OutOfMemory,
    /// The source failed, or gave more octets than the policy's `limit`.
    #[error(transparent)]
    Text(InputFault),
    /// The octets are no signed token (RFC 7515, section 7).
    #[error(transparent)]
    Form(FormFault),
    /// The next pair, the numbers of a signature and of a key, each from 0, would have cost more than is left of the budget. It
    /// wasn't tried.
    #[error("trying signature {0} with key {1} would exceed the budget")]
    WorkExceeded(u32, u32),
    /// The signature of this number isn't verified. In mode `any` none is, and this is the first; in mode `all` it is the first
    /// that isn't.
    #[error("signature {0} is not verified: {1}")]
    Signature(u32, SigFault),
    /// The payload's claims are refused (RFC 7519, section 4).
    #[error(transparent)]
    Claim(ClaimFault<'p>),
    /// A handed-in verifier lacked memory.
    #[error("a verifier lacked memory")]
    VerifierMemory,
    /// The budget had counted as many calls as the policy's `max_calls` before the next pair, the numbers of a signature and of a
    /// key, each from 0. It wasn't tried.
    #[error("trying signature {0} with key {1} would exceed the ceiling on tries")]
    CallsExceeded(u32, u32),
}

impl<'p> Fault<'p> {
    ghost use Rattle.jwt_verify.specs.FaultNames.{fault_name};

    /// The name of the fault, without its place, as the program `jwt` prints it: that of its variant, or where it tells a cause
    /// (`Text`, `Form`, `Signature`, `Claim`), the name of the cause.
    pub fn name(&self) -> &'static str
        ensures { result.now ≡ fault_name self.now }
    {
        match self {
            Fault::OutOfMemory => "OutOfMemory",
            Fault::Text(fault) => fault.name(),
            Fault::Form(fault) => fault.name(),
            Fault::WorkExceeded(..) => "WorkExceeded",
            Fault::Signature(_, fault) => fault.name(),
            Fault::Claim(fault) => fault.name(),
            Fault::VerifierMemory => "VerifierMemory",
            Fault::CallsExceeded(..) => "CallsExceeded",
        }
    }
}

/// The verdict on a token.
#[derive(Debug, Drop)]
#[must_use]
pub enum Verdict<'p> {
    /// The token is accepted.
    Accepted {
        /// The number of the verified signature; in mode `all` that of the first.
        signature: u32,
        /// The number of the key that verified it.
        key: u32,
        /// The payload's claims.
        claims: Claims,
    },
    /// It is refused.
    Refused(Fault<'p>),
}

/// A verdict with its evidence.
#[derive(Debug, Drop)]
#[must_use]
pub struct Report<'p> {
    /// The verdict.
    pub verdict: Verdict<'p>,
    /// What became of each signature, in the token's order; empty where the octets are no signed token. After `OutOfMemory`
    /// nothing is said of it.
    pub states: Vec<SigState>,
    /// Each try that was paid, in the order in which they were made. It agrees with the budget after every verdict.
    pub tries: Vec<Try>,
}
