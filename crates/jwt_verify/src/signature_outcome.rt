//! The outcome of one signature, and of all signatures of a token.

ghost use Rattle.std.specs.Prelude.{◌≡◌};
ghost use Rattle.jwt_verify.specs.SignatureOutcome.{outcome_state, outcome_signing, is_verified};

use crate::report::SigState;
use jwt_policy::SigFault;

/// What becomes of a signature whose keys were gone through.
#[derive(Clone, Copy)]
pub(crate) enum SignatureOutcome {
    /// The key of this number verifies it.
    Verified(u32),
    /// No key was tried on it, for this reason.
    Barred(SigFault),
    /// No key is eligible.
    NoKey,
    /// Each eligible key was tried, and none verified it.
    BadSignature,
}

impl SignatureOutcome {
    /// Whether a key verifies it.
    pub(crate) fn is_verified(self) -> bool
        ensures { result ≡ is_verified self }
    {
        match self {
            SignatureOutcome::Verified(_) => true,
            _ => false,
        }
    }

    /// Its state in the report.
    pub(crate) fn state(self) -> SigState
        ensures { result ≡ outcome_state self }
    {
        match self {
            SignatureOutcome::Verified(key) => SigState::Verified(key),
            SignatureOutcome::Barred(fault) => SigState::Barred(fault),
            SignatureOutcome::NoKey => SigState::NoKey,
            SignatureOutcome::BadSignature => SigState::BadSignature,
        }
    }

    /// What the signatures come to where this one, of this number, decides.
    pub(crate) fn decides(self, number: u32) -> Signing
        ensures { result ≡ outcome_signing number self }
    {
        match self {
            SignatureOutcome::Verified(key) => Signing::VerifiedBy(number, key),
            SignatureOutcome::Barred(fault) => Signing::Unverified(number, fault),
            SignatureOutcome::NoKey => Signing::Unverified(number, SigFault::NoKey),
            SignatureOutcome::BadSignature => Signing::Unverified(number, SigFault::BadSignature),
        }
    }
}

/// What the signatures of a token come to.
#[derive(Clone, Copy)]
pub(crate) enum Signing {
    /// This signature is verified, by this key.
    VerifiedBy(u32, u32),
    /// This signature isn't, for this reason.
    Unverified(u32, SigFault),
}
