//! ES256, ES384 and ES512 (RFC 7518, section 3.4), octets in and a verdict out.

ghost use Rattle.std.specs.Prelude.{◌≡◌};
ghost use Rattle.jwt_mac.specs.Hmac.{all_octets};
ghost use Rattle.ecdsa.specs.jws.Verifying.{es256, es384, es512};

use crate::{verifies_p256, verifies_p384, verifies_p521};
use jwt_mac::{sha256, sha384, sha512};

/// Whether it is the ES256 signature of the message that the three parts make, joined, by the public key (x, y).
pub fn verifies_es256(x: &[u8], y: &[u8], parts: [&[u8]; 3], signature: &[u8]) -> bool
    ensures { result ≡ es256 x.now y.now (all_octets parts.entry) signature.now }
{
    let digest = sha256(parts);
    verifies_p256(&digest, x, y, signature)
}

/// Whether it is the ES384 signature of the message that the three parts make, joined, by the public key (x, y).
pub fn verifies_es384(x: &[u8], y: &[u8], parts: [&[u8]; 3], signature: &[u8]) -> bool
    ensures { result ≡ es384 x.now y.now (all_octets parts.entry) signature.now }
{
    let digest = sha384(parts);
    verifies_p384(&digest, x, y, signature)
}

/// Whether it is the ES512 signature of the message that the three parts make, joined, by the public key (x, y).
pub fn verifies_es512(x: &[u8], y: &[u8], parts: [&[u8]; 3], signature: &[u8]) -> bool
    ensures { result ≡ es512 x.now y.now (all_octets parts.entry) signature.now }
{
    let digest = sha512(parts);
    verifies_p521(&digest, x, y, signature)
}
