//! Public keys.

ghost use Rattle.std.specs.Prelude.{◌≡◌, IfOk, IsOkAnd};
ghost use Rattle.jwt_mac.specs.Verifying.{KeyOctets, key_octets};
ghost use Rattle.jwt_jwk.specs.der.Der.{IsPublicKey, IsRsaText, spki};
ghost use Rattle.jwt_jwk.specs.der.Reading.{AgreesWith, decoded_key, fitting, read_key, read, read_rsa};

use crate::der::element::parts_of;
use crate::der::fit::fitting;
use crate::der::kind::{Kind, kind_of};
use crate::der::point::{ec_of, okp_of};
use crate::der::refusal::Refusal;
use crate::der::rsa::rsa_of;
use jwt_mac::KeyView;

/// The key of this kind.
#[tactic(auto, unfolding(crate::specs::der::Reading::read_key))]
fn key_of(kind: Kind, octets: &[u8]) -> Result<KeyView<'_>, Refusal>
    ensures { AgreesWith key_octets result (read_key kind octets.now) }
{
    match kind {
        Kind::Rsa => {
            let (n, e) = rsa_of(octets)?;
            Ok(KeyView::Rsa { n, e })
        }
        Kind::Ec(curve) => {
            let (x, y) = ec_of(curve, octets)?;
            Ok(KeyView::Ec { curve, x, y })
        }
        Kind::Okp(curve) => {
            let x = okp_of(curve, octets)?;
            Ok(KeyView::Okp { curve, x })
        }
    }
}

/// The key of which octets are the encoding, or the first fault.
#[tactic(auto, unfolding(crate::specs::der::Reading::decoded_key))]
fn encoded(octets: &[u8]) -> Result<KeyView<'_>, Refusal>
    ensures { AgreesWith key_octets result (decoded_key octets.now) }
{
    let (algorithm, key) = parts_of(octets)?;
    let kind = kind_of(algorithm)?;
    key_of(kind, key)
}

/// The same, if the key may verify something.
#[tactic(auto, unfolding(crate::specs::der::Reading::read))]
fn read(octets: &[u8]) -> Result<KeyView<'_>, Refusal>
    ensures { AgreesWith key_octets result (read octets.now) }
{
    let key = encoded(octets)?;
    fitting(key)
}

/// The RSA key of which octets are the RSAPublicKey, if it may verify something.
#[tactic(auto, unfolding(crate::specs::der::Reading::read_rsa))]
fn read_rsa(octets: &[u8]) -> Result<KeyView<'_>, Refusal>
    ensures { AgreesWith key_octets result (read_rsa octets.now) }
{
    let (n, e) = rsa_of(octets)?;
    fitting(KeyView::Rsa { n, e })
}

/// The public key whose SubjectPublicKeyInfo (RFC 5280, section 4.1.2.7) these octets are, in DER, lent: an RSA key (RFC 3279), an
/// uncompressed point of P-256, P-384 or P-521 (RFC 5480), a key of Ed25519 or Ed448 (RFC 8410).
///
/// # Errors
/// The first fault from left to right, then whether such a key may verify something. A key of Ed448 is taken by its size: no verifier of this
/// repository takes its signatures, and another one may.
pub fn read_public_key(octets: &[u8]) -> Result<KeyView<'_>, Refusal>
    // What is read is a key, and the octets are its encoding.
    ensures found { IfOk result (λ v. IsPublicKey (key_octets v) × (octets.now ≡ spki (key_octets v))) }
    // What is the encoding of a key is read, as that key.
    ensures only { (key : KeyOctets) → IsPublicKey key → octets.now ≡ spki key
        → IsOkAnd result (λ v. key_octets v ≡ key) }
    // Which fault it is.
    ensures exact { AgreesWith key_octets result (read octets.now) }
{
    read(octets)
}

/// The RSA key whose RSAPublicKey (RFC 8017, appendix A.1.1) these octets are, in DER, lent.
///
/// # Errors
/// The first fault from left to right, then whether such a key may verify something.
pub fn read_rsa_public_key(octets: &[u8]) -> Result<KeyView<'_>, Refusal>
    // What is read is a key, and the octets are its encoding.
    ensures found { IfOk result (λ v. IsPublicKey (key_octets v) × IsRsaText (key_octets v) octets.now) }
    // What is the encoding of a key is read, as that key.
    ensures only { (key : KeyOctets) → IsPublicKey key → IsRsaText key octets.now
        → IsOkAnd result (λ v. key_octets v ≡ key) }
    // Which fault it is.
    ensures exact { AgreesWith key_octets result (read_rsa octets.now) }
{
    read_rsa(octets)
}
