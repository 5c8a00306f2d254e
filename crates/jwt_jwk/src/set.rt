//! The key set of a file with public keys in PEM.

ghost use Rattle.std.specs.Prelude.{◌≡◌, ◌≤◌, ◌∷◌, ◌++◌, ℕ, List, [], Option, length, IfErr, IfOk, OnOk, IsOkUnless};
ghost use Rattle.serde_json.specs.Written.{comma_if};
ghost use Rattle.jwt_mac.specs.Verifying.{KeyOctets, key_octets};
ghost use Rattle.jwt_jwk.specs.Jwk.{HasSizes, ReadsAsKey, jwk_text, optional_text};
ghost use Rattle.jwt_jwk.specs.Sets.{IsJwkSet, set_text};
ghost use Rattle.jwt_jwk.specs.Converted.{Adds, IsFileOf, IsSetOf, kid_of};
ghost use Rattle.jwt_jwk.specs.Refusals.{IsFault, IsSetFault};

use crate::fault::JwkFault;
use crate::kid::Kid;
use crate::pem::{jwk_of_block, pem_fault};
use crate::text_blocks::{PemFault, first_block, trim};
use crate::writing::write_jwk;
use jwt_mac::KeyView;
use jwt_text::TextFault;
use jwt_text::laws::{object_texts, quoted_texts};
use std::alloc::{AllocError, Global};

/// Appends a JWK, after a comma where it isn't the first.
fn push_jwk(set: &mut Vec<u8>, later: bool, jwk: &[u8]) -> Result<(), AllocError>
    ensures { OnOk result (set.new.items ≡ set.old.items ++ (comma_if later ++ jwk.now)) }
{
    if later {
        set.push(b',')?;
    }
    set.extend_from_slice(jwk)
}

/// Appends the JWKs of the keys of a file, of so many at most.
fn add_jwks(
    alloc: Global,
    text: &[u8],
    kid: Kid<'_>,
    alg: Option<&str>,
    later: bool,
    left: u32,
    set: &mut Vec<u8>,
) -> Result<(), JwkFault>
    ensures ok { OnOk result (Adds later (kid_of kid.entry) (optional_text alg.entry) left text.now set.old.items set.new.items) }
    ensures only { (keys : List KeyOctets) → IsFileOf keys text.now → length keys ≤ left
        → IsOkUnless result JwkFault.OutOfMemory }
    ensures exact { IfErr result (IsFault left text.now) }
{
    if trim(text).is_empty() {
        return Ok(());
    }
    if left == 0 {
        return Err(JwkFault::TooManyKeys);
    }
    let block = match first_block(alloc, text) {
        Ok(block) => block,
        Err(fault) => return Err(pem_fault(fault)),
    };
    match jwk_of_block(alloc, block.label, &block.octets, kid, alg) {
        Ok(jwk) => match push_jwk(set, later, &jwk) {
            Ok(()) => add_jwks(alloc, block.rest, kid, alg, true, left - 1, set),
            Err(_) => Err(JwkFault::OutOfMemory),
        },
        Err(fault) => Err(fault),
    }
}

/// The key set of the public keys that a PEM file has, one or more, in their order, on one line: each with this `kid`, and this `alg`
/// where it is given (RFC 7517, section 5).
///
/// # Errors
/// Why the text isn't made of blocks, or has none (`Line`), why the octets of the first bad one are no public key, `TooManyKeys` with
/// more than 1,024, and `OutOfMemory`.
pub fn jwk_set_of_pem(
    alloc: Global,
    text: &[u8],
    kid: Kid<'_>,
    alg: Option<&str>,
) -> Result<Vec<u8>, JwkFault>
    // What is printed is the key set of the keys that the file has, 1 to 1,024, in their order, and read as exactly that.
    ensures ok { IfOk result (λ v. IsSetOf text.now (kid_of kid.entry) (optional_text alg.entry) v.items) }
    // A PEM file of at most 1,024 public keys is refused for want of memory alone.
    ensures only { (key : KeyOctets) (keys : List KeyOctets) → IsFileOf (key ∷ keys) text.now → length keys ≤ 1023
        → IsOkUnless result JwkFault.OutOfMemory }
    // Which fault it is.
    ensures exact { IfErr result (IsSetFault text.now) }
{
    quoted_texts();
    object_texts();
    if trim(text).is_empty() {
        return Err(JwkFault::Pem(PemFault::Line));
    }
    let Ok(mut set) = b"{\"keys\":[".to_vec(alloc) else {
        return Err(JwkFault::OutOfMemory);
    };
    match add_jwks(alloc, text, kid, alg, false, 1024, &mut set) {
        Ok(()) => match set.extend_from_slice(b"]}") {
            Ok(()) => Ok(set),
            Err(_) => Err(JwkFault::OutOfMemory),
        },
        Err(fault) => Err(fault),
    }
}

/// The text of a key set around that of one JWK.
fn around(alloc: Global, jwk: &[u8]) -> Result<Vec<u8>, AllocError>
    ensures { IfOk result (λ v. v.items ≡ set_text jwk.now) }
{
    let mut set = b"{\"keys\":[".to_vec(alloc)?;
    set.extend_from_slice(jwk)?;
    set.extend_from_slice(b"]}")?;
    Ok(set)
}

/// The key set of a key's JWK.
pub(crate) fn set_of_jwk(alloc: Global, jwk: &[u8]) -> Result<Vec<u8>, AllocError>
    ensures { (kid : KeyOctets → Option (List ℕ)) (alg : Option (List ℕ)) (key : KeyOctets) → jwk.now ≡ jwk_text (kid key) alg key
        → ReadsAsKey (kid key) alg key jwk.now → IfOk result (λ v. IsJwkSet kid alg (key ∷ []) v.items) }
{
    quoted_texts();
    object_texts();
    around(alloc, jwk)
}

/// The key set of one key, on one line, with these `kid` and `alg` where they are given (RFC 7517, section 5).
///
/// # Errors
/// `OutOfMemory` alone.
pub fn write_jwk_set(
    alloc: Global,
    key: KeyView<'_>,
    kid: Option<&str>,
    alg: Option<&str>,
) -> Result<Vec<u8>, TextFault>
    requires { HasSizes (key_octets key) }
    // What is printed is the key set of this key, and read as exactly that.
    ensures ok { IfOk result (λ v. IsJwkSet (λ _. optional_text kid.entry) (optional_text alg.entry) (key_octets key.entry ∷ []) v.items) }
    ensures err { IsOkUnless result TextFault.OutOfMemory }
{
    let jwk = write_jwk(alloc, key, kid, alg)?;
    match set_of_jwk(alloc, &jwk) {
        Ok(set) => Ok(set),
        Err(_) => Err(TextFault::OutOfMemory),
    }
}
