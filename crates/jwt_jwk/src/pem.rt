//! The JWK of a public key in PEM.

ghost use Rattle.std.specs.Prelude.{◌≡◌, IfErr, IfOk, IsOkAnd, IsOkUnless};
ghost use Rattle.jwt_mac.specs.Verifying.{KeyOctets, key_octets};
ghost use Rattle.jwt_jwk.specs.der.Der.{IsPublicKey};
ghost use Rattle.jwt_jwk.specs.der.Reading.{AgreesWith};
ghost use Rattle.jwt_jwk.specs.Jwk.{optional_text};
ghost use Rattle.jwt_jwk.specs.Faults.{pem_fault};
ghost use Rattle.jwt_jwk.specs.Refusals.{IsKeyFault, IsPemFault, reading_of};
ghost use Rattle.jwt_jwk.specs.Converted.{IsEncoding, IsJwkOfBlock, IsPemOf, IsJwkOfPem, kid_of};

use crate::der::{Refusal, read_public_key, read_rsa_public_key};
use crate::fault::JwkFault;
use crate::kid::Kid;
use crate::text_blocks::{Label, PemFault, only_block};
use crate::written::write;
use jwt_mac::KeyView;
use std::alloc::Global;

/// The key whose encoding octets are, by the kind that this label announces.
fn key_in(label: Label, octets: &[u8]) -> Result<KeyView<'_>, Refusal>
    ensures found { IfOk result (λ v. IsPublicKey (key_octets v) × IsEncoding label (key_octets v) octets.now) }
    ensures only { (key : KeyOctets) → IsPublicKey key → IsEncoding label key octets.now → IsOkAnd result (λ v. key_octets v ≡ key) }
    ensures exact { AgreesWith key_octets result (reading_of label octets.now) }
{
    match label {
        Label::PublicKey => read_public_key(octets),
        Label::RsaPublicKey => read_rsa_public_key(octets),
    }
}

/// What is said of a text that is no block.
pub(crate) fn pem_fault(fault: PemFault) -> JwkFault
    ensures { result ≡ pem_fault fault }
{
    match fault {
        PemFault::PrivateKey => JwkFault::Pem(PemFault::PrivateKey),
        PemFault::Certificate => JwkFault::Pem(PemFault::Certificate),
        PemFault::OpenSsh => JwkFault::Pem(PemFault::OpenSsh),
        PemFault::Line => JwkFault::Pem(PemFault::Line),
        PemFault::Trailing => JwkFault::Pem(PemFault::Trailing),
        PemFault::Base64 => JwkFault::Pem(PemFault::Base64),
        PemFault::OutOfMemory => JwkFault::OutOfMemory,
    }
}

/// The JWK of the key whose encoding octets are, by the kind that a label announces.
pub(crate) fn jwk_of_block(
    alloc: Global,
    label: Label,
    octets: &[u8],
    kid: Kid<'_>,
    alg: Option<&str>,
) -> Result<Vec<u8>, JwkFault>
    ensures ok { IfOk result (λ v. IsJwkOfBlock label octets.now (kid_of kid.entry) (optional_text alg.entry) v.items) }
    ensures only { (key : KeyOctets) → IsPublicKey key → IsEncoding label key octets.now
        → IsOkUnless result JwkFault.OutOfMemory }
    ensures exact { IfErr result (IsKeyFault label octets.now) }
{
    match key_in(label, octets) {
        Ok(key) => match write(alloc, key, kid, alg) {
            Ok(jwk) => Ok(jwk),
            Err(_) => Err(JwkFault::OutOfMemory),
        },
        Err(refusal) => Err(JwkFault::Key(refusal)),
    }
}

/// The JWK of the one public key that a PEM file has, with this `kid`, and this `alg` where it is given.
///
/// # Errors
/// Why the text is no single block, why its octets are no public key, and `OutOfMemory`.
pub fn jwk_of_pem(
    alloc: Global,
    text: &[u8],
    kid: Kid<'_>,
    alg: Option<&str>,
) -> Result<Vec<u8>, JwkFault>
    // What is printed is the JWK of the key that the file has, and read as exactly that.
    ensures ok { IfOk result (λ v. IsJwkOfPem text.now (kid_of kid.entry) (optional_text alg.entry) v.items) }
    // A PEM file of one public key is refused for want of memory alone.
    ensures only { (key : KeyOctets) → IsPemOf key text.now → IsOkUnless result JwkFault.OutOfMemory }
    // Which fault it is.
    ensures exact { IfErr result (IsPemFault text.now) }
{
    match only_block(alloc, text) {
        Ok((label, octets)) => jwk_of_block(alloc, label, &octets, kid, alg),
        Err(fault) => Err(pem_fault(fault)),
    }
}
