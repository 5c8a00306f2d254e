//! Thumbprints (RFC 7638).

ghost use Rattle.std.specs.Prelude.{◌≡◌, length, string_bytes, IfOk};
ghost use Rattle.jwt_mac.specs.Algorithm.{sha256_of};
ghost use Rattle.jwt_keys.specs.Thumbprints.{member_text, oct_text, rsa_text, ec_text, okp_text, thumbprint_text, thumbprint_of};

use crate::kind::KeyKind;
use jwt_mac::sha256;
use jwt_text::{ObjectRef, encode_text};
use std::alloc::{AllocError, Global};

/// The text of a member as it is spelled in the key.
fn member_text<'a>(members: &ObjectRef<'a>, name: &str) -> &'a str
    ensures { result.now ≡ member_text name.now members.now }
{
    members.text(name).unwrap_or("")
}

/// The object of the required members of an RSA key (RFC 7638, section 3.2).
fn rsa_text(alloc: Global, e: &str, n: &str) -> Result<String, AllocError>
    ensures { IfOk result (λ s. string_bytes s ≡ rsa_text e.now n.now) }
{
    ["{\"e\":\"", e, "\",\"kty\":\"RSA\",\"n\":\"", n, "\"}"].concat(alloc)
}

/// The object of the required members of an EC key (RFC 7638, section 3.2).
fn ec_text(alloc: Global, crv: &str, x: &str, y: &str) -> Result<String, AllocError>
    ensures { IfOk result (λ s. string_bytes s ≡ ec_text crv.now x.now y.now) }
{
    [
        "{\"crv\":\"",
        crv,
        "\",\"kty\":\"EC\",\"x\":\"",
        x,
        "\",\"y\":\"",
        y,
        "\"}",
    ]
    .concat(alloc)
}

/// The object of the required members of an OKP key (RFC 8037, section 2).
fn okp_text(alloc: Global, crv: &str, x: &str) -> Result<String, AllocError>
    ensures { IfOk result (λ s. string_bytes s ≡ okp_text crv.now x.now) }
{
    ["{\"crv\":\"", crv, "\",\"kty\":\"OKP\",\"x\":\"", x, "\"}"].concat(alloc)
}

/// The SHA-256 digest of the object of the required members of a secret, which isn't copied (RFC 7638, section 3.2).
fn oct_digest(k: &str) -> [u8; 32]
    ensures { result ≡ sha256_of (oct_text k.now) }
{
    sha256([b"{\"k\":\"", k.as_bytes(), b"\",\"kty\":\"oct\"}"])
}

/// The SHA-256 digest of the object of the required members of a key of this kind.
#[tactic(auto, unfolding(crate::specs::Thumbprints::thumbprint_text))]
fn digest(alloc: Global, kind: KeyKind, members: &ObjectRef<'_>) -> Result<[u8; 32], AllocError>
    ensures { IfOk result (λ d. d ≡ sha256_of (thumbprint_text kind members.now)) }
{
    let text = match kind {
        KeyKind::Oct => return Ok(oct_digest(member_text(members, "k"))),
        KeyKind::Rsa => rsa_text(alloc, member_text(members, "e"), member_text(members, "n"))?,
        KeyKind::Ec(_) => ec_text(
            alloc,
            member_text(members, "crv"),
            member_text(members, "x"),
            member_text(members, "y"),
        )?,
        KeyKind::Okp(_) => okp_text(
            alloc,
            member_text(members, "crv"),
            member_text(members, "x"),
        )?,
    };
    Ok(sha256([text.as_bytes(), b"", b""]))
}

/// The base64url text of the SHA-256 digest of the object of the required members, 43 characters (RFC 7638, section 3).
#[tactic(auto, unfolding(crate::specs::Thumbprints::thumbprint_of), using(crate::proofs::Spellings::length_spelling))]
pub(crate) fn thumbprint(
    alloc: Global,
    kind: KeyKind,
    members: &ObjectRef<'_>,
) -> Result<String, AllocError>
    ensures text { IfOk result (λ s. string_bytes s ≡ thumbprint_of kind members.now) }
    ensures sized { IfOk result (λ s. length (string_bytes s) ≡ 43) }
{
    let digest = digest(alloc, kind, members)?;
    match encode_text(alloc, &digest) {
        Ok(text) => Ok(text),
        Err(_) => Err(AllocError),
    }
}
