//! The key set of a PEM file, or why there is none.
use jwt_jwk::{Kid, jwk_set_of_pem};
use jwt_keys::{KeySet, KeysFault};
use jwt_mac::{EcCurve, EdCurve, KeyView};
use std::alloc::{AllocError, Global};
use std::test::Fail;

/// RFC 8410, section 10.1.
const ED25519: &str =
    "-----BEGIN PUBLIC KEY-----\nMCowBQYDK2VwAyEAGb9ECWmEzf6FQbrBZ9w7lshQhqowtrbLDFw4rXAxZuE=\n-----END PUBLIC KEY-----\n";

/// A key of P-256 by OpenSSL.
const P256: &str =
    "-----BEGIN PUBLIC KEY-----\nMFkwEwYHKoZIzj0CAQYIKoZIzj0DAQcDQgAEE8mgl1gxMFk5BqRiHqjm8cD7jn4B\n5kPcJ1SH2vAi8XhU/cBHJkz1kjn6Avd4y6JCaW0g7OWqF7AJWNvPMTsm7Q==\n-----END PUBLIC KEY-----\n";

/// A file with so many keys: of P-256 and of Ed25519 in turn.
fn file_of(alloc: Global, keys: u32) -> Result<Vec<u8>, AllocError> {
    let mut file = Vec::new(alloc);
    for number in 0..keys {
        let pem = if number % 2 == 0 { P256 } else { ED25519 };
        file.extend_from_slice(pem.as_bytes())?;
    }
    Ok(file)
}

/// Whether a key that was read is the one of this number in such a file, with this `kid` and `ES256`.
fn is_of(read: &KeySet, number: u32, kid: &str) -> bool {
    let Some(key) = read.key(number) else {
        return false;
    };
    let right = match key.view() {
        KeyView::Ec { curve, .. } => number % 2 == 0 && curve == EcCurve::P256,
        KeyView::Okp { curve, .. } => number % 2 == 1 && curve == EdCurve::Ed25519,
        _ => false,
    };
    right && key.place() == number && key.kid() == Some(kid) && key.alg_text() == Some("ES256")
}

/// The greatest key set that is made is read as the keys of the file, in their order, whatever their name has.
#[test]
fn the_greatest_set_is_read_as_its_keys(rt: HostRuntime) -> Result<(), Fail> {
    let kid = "a\"b\\\n\u{1f511}:{}";
    let file = file_of(rt.alloc(), 1024)?;
    let set = jwk_set_of_pem(rt.alloc(), &file, Kid::Name(kid), Some("ES256"))?;
    let read = KeySet::read(rt.alloc(), &set)?;
    assert!(rt; read.len() == 1024 && read.skipped().is_empty());
    for number in 0..1024 {
        assert!(rt; is_of(&read, number, kid), "{number}");
    }
    Ok(())
}

/// A name so long that the key set has more than 4,194,304 octets makes a set that isn't read.
#[test]
fn a_set_of_too_many_octets_is_not_read(rt: HostRuntime) -> Result<(), Fail> {
    let file = file_of(rt.alloc(), 1024)?;
    let mut kid = String::new(rt.alloc());
    for _ in 0..4096 {
        kid.push('k')?;
    }
    let set = jwk_set_of_pem(rt.alloc(), &file, Kid::Name(kid.as_str()), None)?;
    assert!(rt; matches!(KeySet::read(rt.alloc(), &set), Err(KeysFault::TooLong)));
    Ok(())
}
