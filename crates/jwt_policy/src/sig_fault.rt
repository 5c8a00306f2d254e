//! The causes why a signature isn't verified.

ghost use Rattle.std.specs.Prelude.{◌≡◌};

use std::error::Error;
use std::fmt;

/// Why a signature isn't verified. All but the last two are bars, in the order in which [`bar`](crate::bar) looks for them:
/// no key is tried on a barred signature. The header is the union of the protected and the unprotected header.
#[derive(Clone, Copy, Debug, PartialEq, Eq)]
pub enum SigFault {
    /// The protected header has no `alg`, or it is no text (RFC 7515, section 4.1.1).
    AlgMissing,
    /// `alg` is `none` (RFC 8725, section 3.2).
    AlgNone,
    /// `alg` is no name that [`Alg`](jwt_mac::Alg) knows.
    AlgUnknown,
    /// `alg` isn't among the policy's `algs` (RFC 8725, section 3.1).
    AlgNotAllowed,
    /// `alg` isn't HMAC, and no handed-in verifier names it.
    NoVerifier,
    /// The header has `jku` or `x5u` (RFC 8725, section 3.10).
    KeyUrl,
    /// The header has `enc`: the token is encrypted (RFC 7516, section 4.1.2).
    EncHeader,
    /// The header has `b64` (RFC 7797, section 3).
    Unencoded,
    /// `crit` stands in the unprotected header, or it is no list, an empty one, or one that holds something that is no text, a
    /// name twice, a name of RFC 7515, section 4.1, or a name that the header lacks (RFC 7515, section 4.1.11).
    CritShape,
    /// A name in `crit` isn't among the policy's `understood`.
    CritUnknown,
    /// `typ` or `cty` of the protected header is no text (RFC 7515, sections 4.1.9 and 4.1.10).
    TypShape,
    /// The policy has `typ`, and that of the protected header is absent or another media type (RFC 8725, section 3.11).
    TypMismatch,
    /// `cty` of the protected header is the media type `application/jwt`: the payload is a token again (RFC 7519, section 5.2).
    Nested,
    /// The header's `kid` is no text (RFC 7515, section 4.1.4).
    KidShape,
    /// The policy has `need_kid`, and the header has no `kid`.
    KidMissing,
    /// Not a bar: no key is eligible.
    NoKey,
    /// Not a bar: keys are eligible, and none of them verified the signature.
    BadSignature,
}

impl SigFault {
    ghost use Rattle.jwt_policy.specs.FaultNames.{sig_fault_name};

    /// The name of the fault, that of its variant, as the program `jwt` prints it.
    pub fn name(self) -> &'static str
        ensures { result.now ≡ sig_fault_name self }
    {
        match self {
            SigFault::AlgMissing => "AlgMissing",
            SigFault::AlgNone => "AlgNone",
            SigFault::AlgUnknown => "AlgUnknown",
            SigFault::AlgNotAllowed => "AlgNotAllowed",
            SigFault::NoVerifier => "NoVerifier",
            SigFault::KeyUrl => "KeyUrl",
            SigFault::EncHeader => "EncHeader",
            SigFault::Unencoded => "Unencoded",
            SigFault::CritShape => "CritShape",
            SigFault::CritUnknown => "CritUnknown",
            SigFault::TypShape => "TypShape",
            SigFault::TypMismatch => "TypMismatch",
            SigFault::Nested => "Nested",
            SigFault::KidShape => "KidShape",
            SigFault::KidMissing => "KidMissing",
            SigFault::NoKey => "NoKey",
            SigFault::BadSignature => "BadSignature",
        }
    }
}

/// What a fault says, in words.
fn words(fault: SigFault) -> &'static str {
    match fault {
        SigFault::AlgMissing => "the protected header has no text \"alg\"",
        SigFault::AlgNone => "\"alg\" of the protected header is \"none\"",
        SigFault::AlgUnknown => "\"alg\" of the protected header is unknown",
        SigFault::AlgNotAllowed => "\"alg\" of the protected header is not allowed",
        SigFault::NoVerifier => "no verifier is there for \"alg\" of the protected header",
        SigFault::KeyUrl => "the header has \"jku\" or \"x5u\"",
        SigFault::EncHeader => "the header has \"enc\"",
        SigFault::Unencoded => "the header has \"b64\"",
        SigFault::CritShape => "\"crit\" has another shape, or stands in the unprotected header",
        SigFault::CritUnknown =>
            "\"crit\" of the protected header has a name that is not understood",
        SigFault::TypShape => "\"typ\" or \"cty\" of the protected header is no text",
        SigFault::TypMismatch => "\"typ\" of the protected header is not the one that is asked for",
        SigFault::Nested => "the payload is a token again",
        SigFault::KidShape => "\"kid\" of the header is no text",
        SigFault::KidMissing => "the header has no \"kid\"",
        SigFault::NoKey => "no key is eligible",
        SigFault::BadSignature => "no eligible key verified it",
    }
}

impl fmt::Display for SigFault {
    fn fmt<W: fmt::Write>(&self, f: &mut fmt::Formatter<W>) -> fmt::Result {
        f.write_str(words(*self))
    }
}

impl Error for SigFault {}
