//! The causes why octets are no signed token.
ghost use Rattle.std.specs.Prelude.{◌≡◌};
ghost use Rattle.jwt_jws.specs.declared.fault.FormFault.TheVariants.{OutOfMemory};

use std::alloc::{AllocError, AllocFailed};
use thiserror::Error;

/// The serialization of a signed token (RFC 7515, section 7).
#[derive(Clone, Copy, Debug, PartialEq, Eq)]
pub enum Form {
    /// Three texts joined by periods (section 7.1).
    Compact,

    /// A JSON object with a list of signatures (section 7.2.1).
    General,

    /// A JSON object with one signature at the top (section 7.2.2).
    Flattened,
}

/// Which text isn't base64url. Signatures are numbered from 0.
#[derive(Clone, Copy, Debug, PartialEq, Eq, Error)]
pub enum Place {
    /// The payload text.
    #[error("the payload text")]
    Payload,

    /// The protected text of this signature.
    #[error("the protected text of signature {0}")]
    Protected(u32),

    /// The signature text of this signature.
    #[error("the text of signature {0}")]
    Signature(u32),
}

/// Why octets are no signed token. The first cause that holds is answered, in the order of these variants, with two exceptions: in
/// JSON form `Json` and `NameTwice` come before `Encrypted`, and the causes of one signature come signature by signature, numbered
/// from 0.
#[derive(Clone, Copy, Debug, PartialEq, Eq, Error)]
pub enum FormFault {
    /// An allocation of memory was refused. It may stand in place of any other answer.
    #[error("out of memory")]
    OutOfMemory,

    /// There are no octets.
    #[error("the token is empty")]
    Empty,

    /// The token is encrypted (RFC 7516): five texts joined by periods, or an object with the member `ciphertext`.
    #[error("the token is encrypted")]
    Encrypted,

    /// In compact form another number of periods than two and four.
    #[error("the token is not three texts joined by periods")]
    Segments,

    /// The first octet that isn't white space is `{`, and the octets are no JSON text.
    #[error("the token is not JSON")]
    Json,

    /// A name is doubled in some object of the JSON form.
    #[error("a name stands twice in an object of the token")]
    NameTwice,

    /// A member of the JSON form is missing, of another kind, or not to be there.
    #[error("a member of the token is missing, of another kind, or not to be there")]
    Members,

    /// There are more signatures than allowed.
    #[error("the token has too many signatures")]
    TooManySignatures,

    /// A text isn't base64url.
    #[error("{0} is not base64url")]
    Base64(Place),

    /// The protected octets of this signature are no object text (RFC 7515, section 4).
    #[error("the protected header of signature {0} is no object")]
    Header(u32),

    /// The member `header` of this signature is no object.
    #[error("the unprotected header of signature {0} is no object")]
    UnprotectedKind(u32),

    /// A name is in both the protected and the unprotected header of this signature (RFC 7515, section 7.2.1).
    #[error("a name is in both headers of signature {0}")]
    NamesOverlap(u32),
}

impl FormFault {
    ghost use Rattle.jwt_jws.specs.FaultNames.{form_fault_name};

    /// The name of the fault, that of its variant, without its place, as the program `jwt` prints it.
    pub fn name(self) -> &'static str
        ensures { result.now ≡ form_fault_name self }
    {
        match self {
            FormFault::OutOfMemory => "OutOfMemory",
            FormFault::Empty => "Empty",
            FormFault::Encrypted => "Encrypted",
            FormFault::Segments => "Segments",
            FormFault::Json => "Json",
            FormFault::NameTwice => "NameTwice",
            FormFault::Members => "Members",
            FormFault::TooManySignatures => "TooManySignatures",
            FormFault::Base64(_) => "Base64",
            FormFault::Header(_) => "Header",
            FormFault::UnprotectedKind(_) => "UnprotectedKind",
            FormFault::NamesOverlap(_) => "NamesOverlap",
        }
    }
}

impl From<AllocError> for FormFault {
    ghost from_gives = { λ _ e. e ≡ OutOfMemory };

    fn from(_e: AllocError) -> FormFault {
        FormFault::OutOfMemory
    }
}

impl<T: Drop> From<AllocFailed<T>> for FormFault {
    ghost from_gives = { λ _ e. e ≡ OutOfMemory };

    fn from(_e: AllocFailed<T>) -> FormFault {
        FormFault::OutOfMemory
    }
}
