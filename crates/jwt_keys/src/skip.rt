//! Entries that are no readable keys.

ghost use Rattle.std.specs.Prelude.{◌≡◌};

use std::error::Error;
use std::fmt;

/// Why an entry of a key set is no readable key: the first of these rows that holds. "Required" are `k` of `oct`; `n` and
/// `e` of `RSA`; `crv`, `x` and `y` of `EC` (RFC 7518, section 6); `crv` and `x` of `OKP` (RFC 8037, section 2).
///
/// 1. `NotObject`: the entry is no object.
/// 2. `MemberMissing`: `kty` is absent.
/// 3. `MemberKind`: `kty` is no text.
/// 4. `KtyUnknown`: `kty` is none of these four.
/// 5. `MemberMissing`: a required member is absent.
/// 6. `MemberKind`: a required member, or `kid`, `alg` or `use`, is no text, or `key_ops` is no list of texts.
/// 7. `CrvUnknown`: `crv` is no curve of its key type.
/// 8. `Base64`: a required member other than `crv` isn't base64url.
/// 9. `Length`: a required member other than `crv` spells another number of octets than its key may have.
#[derive(Clone, Copy, Debug, PartialEq, Eq)]
pub enum SkipReason {
    /// The entry is no JSON object.
    NotObject,
    /// `kty` or a required member is absent.
    MemberMissing,
    /// `kty`, or a required or optional member, has another kind.
    MemberKind,
    /// `kty` is none of `oct`, `RSA`, `EC` and `OKP`, compared by case.
    KtyUnknown,
    /// `crv` is none of `P-256`, `P-384` and `P-521` of an `EC` key, or of `Ed25519` and `Ed448` of an `OKP` key, compared by
    /// case.
    CrvUnknown,
    /// A required member isn't base64url without padding and with zero spare bits.
    Base64,
    /// A required member has another number of octets: 1 to 4,096 each for `k`, `n` and `e`; 32, 48 and 66 for the
    /// coordinates on `P-256`, `P-384` and `P-521`; 32 and 57 for the keys on `Ed25519` and `Ed448`.
    Length,
}

impl SkipReason {
    ghost use Rattle.jwt_keys.specs.FaultNames.{reason_name};

    /// The name of the reason, that of its variant, as the program `jwt` prints it.
    pub fn name(self) -> &'static str
        ensures { result.now ≡ reason_name self }
    {
        match self {
            SkipReason::NotObject => "NotObject",
            SkipReason::MemberMissing => "MemberMissing",
            SkipReason::MemberKind => "MemberKind",
            SkipReason::KtyUnknown => "KtyUnknown",
            SkipReason::CrvUnknown => "CrvUnknown",
            SkipReason::Base64 => "Base64",
            SkipReason::Length => "Length",
        }
    }
}

/// An entry that is no readable key.
#[derive(Clone, Copy, Debug, PartialEq, Eq)]
pub struct Skip {
    /// Its place in the list `keys`, from 0.
    pub place: u32,
    /// The first reason that holds.
    pub reason: SkipReason,
}

/// What a fault says, in words.
fn words(fault: SkipReason) -> &'static str {
    match fault {
        SkipReason::NotObject => "the entry is no object",
        SkipReason::MemberMissing => "a required member is absent",
        SkipReason::MemberKind => "a member has another kind",
        SkipReason::KtyUnknown => "the member \"kty\" is unknown",
        SkipReason::CrvUnknown => "the member \"crv\" is unknown",
        SkipReason::Base64 => "a member is not base64url",
        SkipReason::Length => "a member has another length",
    }
}

impl fmt::Display for SkipReason {
    fn fmt<W: fmt::Write>(&self, f: &mut fmt::Formatter<W>) -> fmt::Result {
        f.write_str(words(*self))
    }
}

impl Error for SkipReason {}
