//! The causes to refuse claims.

ghost use Rattle.std.specs.Prelude.{◌≡◌};

use std::marker::Model;
use thiserror::Error;

/// A registered claim whose kind is looked at (RFC 7519, section 4.1).
#[derive(Clone, Copy, Debug, PartialEq, Eq)]
pub enum Claim {
    /// The issuer (section 4.1.1).
    Iss,
    /// The subject (section 4.1.2).
    Sub,
    /// The audience (section 4.1.3).
    Aud,
    /// The expiration time (section 4.1.4).
    Exp,
    /// The time before which the token isn't accepted (section 4.1.5).
    Nbf,
    /// The time of issue (section 4.1.6).
    Iat,
    /// The token's own id (section 4.1.7).
    Jti,
}

/// The name of a claim, lent by the policy that asks for it.
#[derive(Debug, Drop)]
pub struct ClaimName<'a> {
    text: &'a str,
}

impl<'a> Model for ClaimName<'a> {
    ghost use Rattle.std.specs.Prelude.{ℕ, List};

    ghost Value = { List ℕ };

    ghost view = { λ n. n.text.now };
}

impl<'a> ClaimName<'a> {
    /// This name.
    pub(crate) fn new(text: &'a str) -> ClaimName<'a>
        ensures { result ≡ text.entry.now }
    {
        ClaimName { text }
    }

    /// The name, with JSON escapes undone.
    pub fn text(&self) -> &'a str
        ensures { result.now ≡ self.now }
    {
        self.text
    }
}

/// Why claims are refused: by [`Claims::read`](crate::Claims::read) for the first four, in any case, else by
/// [`check`](crate::check) under a policy, at a moment, in the order of the variants.
#[derive(Debug, Drop, Error)]
pub enum ClaimFault<'a> {
    /// An allocation of memory was refused.
    #[error("out of memory")]
    OutOfMemory,
    /// The payload is no object text.
    #[error("the payload is no JSON object")]
    ClaimsShape,
    /// A registered claim has another kind (RFC 7519, section 4.1).
    #[error("the claim {:?} has another kind", .0.name())]
    ClaimKind(Claim),
    /// A date is a number, but no whole number within 64 signed bits.
    #[error("the claim {:?} is no whole number of 64 bits", .0.name())]
    ClaimDate(Claim),
    /// A name of the policy's `required` is absent, or `iat` where the policy has `max_age`.
    #[error("the claim {:?} is absent", .0.text())]
    ClaimMissing(ClaimName<'a>),
    /// The policy names issuers, and `iss` is absent or not among them (RFC 8725, section 3.8).
    #[error("the claim \"iss\" names no issuer that is allowed")]
    Issuer,
    /// `aud` is there, and none of its texts is among the policy's audiences (RFC 7519, section 4.1.3).
    #[error("the claim \"aud\" names no audience of the policy")]
    Audience,
    /// The moment is at or after `exp` and the leeway (RFC 7519, section 4.1.4).
    #[error("the token has expired by the claim \"exp\"")]
    Expired,
    /// The moment and the leeway are before `nbf` (RFC 7519, section 4.1.5).
    #[error("the token is not yet valid by the claim \"nbf\"")]
    NotYet,
    /// The policy has `max_age`, and `iat` is later than the moment and the leeway.
    #[error("the claim \"iat\" is later than now")]
    IssuedLater,
    /// The policy has `max_age`, and the moment is later than `iat`, that age and the leeway.
    #[error("the token is too old by the claim \"iat\"")]
    TooOld,
}

impl<'a> ClaimFault<'a> {
    ghost use Rattle.jwt_policy.specs.FaultNames.{claim_fault_name};

    /// The name of the fault, that of its variant, without the claim, as the program `jwt` prints it.
    pub fn name(&self) -> &'static str
        ensures { result.now ≡ claim_fault_name self.now }
    {
        match self {
            ClaimFault::OutOfMemory => "OutOfMemory",
            ClaimFault::ClaimsShape => "ClaimsShape",
            ClaimFault::ClaimKind(_) => "ClaimKind",
            ClaimFault::ClaimDate(_) => "ClaimDate",
            ClaimFault::ClaimMissing(_) => "ClaimMissing",
            ClaimFault::Issuer => "Issuer",
            ClaimFault::Audience => "Audience",
            ClaimFault::Expired => "Expired",
            ClaimFault::NotYet => "NotYet",
            ClaimFault::IssuedLater => "IssuedLater",
            ClaimFault::TooOld => "TooOld",
        }
    }
}

impl Claim {
    ghost use Rattle.jwt_policy.specs.ClaimKinds.{claim_name};

    /// The name, as it stands in the payload.
    pub fn name(self) -> &'static str
        ensures { result.now ≡ claim_name self }
    {
        match self {
            Claim::Iss => "iss",
            Claim::Sub => "sub",
            Claim::Aud => "aud",
            Claim::Exp => "exp",
            Claim::Nbf => "nbf",
            Claim::Iat => "iat",
            Claim::Jti => "jti",
        }
    }
}
