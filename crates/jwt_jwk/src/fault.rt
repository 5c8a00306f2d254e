//! The causes to make no JWK.

ghost use Rattle.std.specs.Prelude.{◌≡◌, option_map};
ghost use Rattle.jwt_jwk.specs.FaultNames.{jwk_fault_name, key_name, pem_name, remedy};

use crate::der::Refusal;
use crate::text_blocks::PemFault;

/// Why there is no JWK.
#[derive(Clone, Copy, Debug, PartialEq, Eq)]
pub enum JwkFault {
    /// The text is no block, or no single one where one is wanted.
    Pem(PemFault),
    /// The octets are no public key.
    Key(Refusal),
    /// The file has more than 1,024 keys.
    TooManyKeys,
    /// An allocation was refused.
    OutOfMemory,
}

/// The name of a reason why a text is no block.
fn pem_name(fault: PemFault) -> &'static str
    ensures { result.now ≡ pem_name fault }
{
    match fault {
        PemFault::PrivateKey => "PrivateKey",
        PemFault::Certificate => "Certificate",
        PemFault::OpenSsh => "OpenSsh",
        PemFault::Line => "Line",
        PemFault::Trailing => "Trailing",
        PemFault::Base64 => "Base64",
        PemFault::OutOfMemory => "OutOfMemory",
    }
}

/// The name of a reason why octets are no public key.
fn key_name(refusal: Refusal) -> &'static str
    ensures { result.now ≡ key_name refusal }
{
    match refusal {
        Refusal::Element => "Element",
        Refusal::Trailing => "Trailing",
        Refusal::Bits => "Bits",
        Refusal::Algorithm => "Algorithm",
        Refusal::RsaPss => "RsaPss",
        Refusal::ExplicitCurve => "ExplicitCurve",
        Refusal::Number => "Number",
        Refusal::Point => "Point",
        Refusal::Compressed => "Compressed",
        Refusal::OffCurve => "OffCurve",
        Refusal::KeySize => "KeySize",
    }
}

impl JwkFault {
    /// Its name, as the command prints it.
    pub fn name(self) -> &'static str
        ensures { result.now ≡ jwk_fault_name self }
    {
        match self {
            JwkFault::Pem(fault) => pem_name(fault),
            JwkFault::Key(refusal) => key_name(refusal),
            JwkFault::TooManyKeys => "TooManyKeys",
            JwkFault::OutOfMemory => "OutOfMemory",
        }
    }

    /// The command that makes a public key of such a text, where there is one.
    pub fn remedy(self) -> Option<&'static str>
        ensures { option_map (λ t. t.now) result ≡ remedy self }
    {
        match self {
            JwkFault::Pem(PemFault::PrivateKey) => Some("openssl pkey -pubout"),
            JwkFault::Pem(PemFault::Certificate) => Some("openssl x509 -pubkey -noout"),
            JwkFault::Pem(PemFault::OpenSsh) => Some("ssh-keygen -e -m PKCS8 -f FILE"),
            JwkFault::Key(Refusal::Compressed) => {
                Some("openssl ec -pubin -conv_form uncompressed")
            }
            JwkFault::Key(Refusal::ExplicitCurve) => {
                Some("openssl ec -pubin -param_enc named_curve")
            }
            _ => None,
        }
    }
}
