//! The JWK of a public key in DER.

ghost use Rattle.std.specs.Prelude.{◌≡◌, IfErr, IfOk, IsOkUnless};
ghost use Rattle.jwt_mac.specs.Verifying.{KeyOctets};
ghost use Rattle.jwt_jwk.specs.der.Der.{IsPublicKey};
ghost use Rattle.jwt_jwk.specs.Jwk.{optional_text};
ghost use Rattle.jwt_jwk.specs.Converted.{IsEncoding, IsJwkOf, IsSetOfOne, kid_of};
ghost use Rattle.jwt_jwk.specs.Faults.{of_both};
ghost use Rattle.jwt_jwk.specs.Refusals.{IsDerFault};
ghost use Rattle.jwt_jwk.specs.declared.text_blocks.label.Label.{Label as AnyLabel};

use crate::fault::JwkFault;
use crate::kid::Kid;
use crate::pem::jwk_of_block;
use crate::set::set_of_jwk;
use crate::text_blocks::Label;
use std::alloc::Global;

/// Why octets are no key in either encoding: want of memory, else why they aren't in the first.
fn of_both(first: JwkFault, second: JwkFault) -> JwkFault
    ensures { result ≡ of_both first second }
{
    match second {
        JwkFault::OutOfMemory => JwkFault::OutOfMemory,
        _ => first,
    }
}

/// The JWK of the public key whose SubjectPublicKeyInfo, or RSAPublicKey, these octets are, in DER, with this `kid`, and this `alg`
/// where it is given.
///
/// # Errors
/// Why the octets are no SubjectPublicKeyInfo, and `OutOfMemory`.
pub fn jwk_of_der(
    alloc: Global,
    octets: &[u8],
    kid: Kid<'_>,
    alg: Option<&str>,
) -> Result<Vec<u8>, JwkFault>
    // What is printed is the JWK of the key whose encoding the octets are, and read as exactly that.
    ensures ok { IfOk result (λ v. IsJwkOf octets.now (kid_of kid.entry) (optional_text alg.entry) v.items) }
    // The encoding of a key is refused for want of memory alone.
    ensures only { (label : AnyLabel) (key : KeyOctets) → IsPublicKey key → IsEncoding label key octets.now
        → IsOkUnless result JwkFault.OutOfMemory }
    // Which fault it is.
    ensures exact { IfErr result (IsDerFault octets.now) }
{
    match jwk_of_block(alloc, Label::PublicKey, octets, kid, alg) {
        Ok(jwk) => Ok(jwk),
        Err(first) => match jwk_of_block(alloc, Label::RsaPublicKey, octets, kid, alg) {
            Ok(jwk) => Ok(jwk),
            Err(second) => Err(of_both(first, second)),
        },
    }
}

/// The key set of the public key whose SubjectPublicKeyInfo, or RSAPublicKey, these octets are, in DER, on one line, with this `kid`, and
/// this `alg` where it is given (RFC 7517, section 5).
///
/// # Errors
/// Those of [`jwk_of_der`].
pub fn jwk_set_of_der(
    alloc: Global,
    octets: &[u8],
    kid: Kid<'_>,
    alg: Option<&str>,
) -> Result<Vec<u8>, JwkFault>
    // What is printed is the key set of the key whose encoding the octets are, and read as exactly that.
    ensures ok { IfOk result (λ v. IsSetOfOne octets.now (kid_of kid.entry) (optional_text alg.entry) v.items) }
    // The encoding of a key is refused for want of memory alone.
    ensures only { (label : AnyLabel) (key : KeyOctets) → IsPublicKey key → IsEncoding label key octets.now
        → IsOkUnless result JwkFault.OutOfMemory }
    // Which fault it is.
    ensures exact { IfErr result (IsDerFault octets.now) }
{
    match jwk_of_der(alloc, octets, kid, alg) {
        Ok(jwk) => match set_of_jwk(alloc, &jwk) {
            Ok(set) => Ok(set),
            Err(_) => Err(JwkFault::OutOfMemory),
        },
        Err(fault) => Err(fault),
    }
}
