//! ES256, ES384 and ES512 with prepared keys.

ghost use Rattle.std.specs.Prelude.{◌≡◌};
ghost use Rattle.jwt_mac.specs.Hmac.{all_octets};
ghost use Rattle.ecdsa.specs.jws.Verifying.{es256, es384, es512};

use crate::{PreparedKeys, verifies_p256_by, verifies_p384_by, verifies_p521_by};
use jwt_mac::{sha256, sha384, sha512};

/// `verifies_es256` with prepared keys of P-256.
pub fn verifies_es256_by(
    keys: &PreparedKeys<4>,
    x: &[u8],
    y: &[u8],
    parts: [&[u8]; 3],
    signature: &[u8],
) -> bool
    ensures { result ≡ es256 x.now y.now (all_octets parts.entry) signature.now }
{
    let digest = sha256(parts);
    verifies_p256_by(keys, &digest, x, y, signature)
}

/// `verifies_es384` with prepared keys of P-384.
pub fn verifies_es384_by(
    keys: &PreparedKeys<6>,
    x: &[u8],
    y: &[u8],
    parts: [&[u8]; 3],
    signature: &[u8],
) -> bool
    ensures { result ≡ es384 x.now y.now (all_octets parts.entry) signature.now }
{
    let digest = sha384(parts);
    verifies_p384_by(keys, &digest, x, y, signature)
}

/// `verifies_es512` with prepared keys of P-521.
pub fn verifies_es512_by(
    keys: &PreparedKeys<9>,
    x: &[u8],
    y: &[u8],
    parts: [&[u8]; 3],
    signature: &[u8],
) -> bool
    ensures { result ≡ es512 x.now y.now (all_octets parts.entry) signature.now }
{
    let digest = sha512(parts);
    verifies_p521_by(keys, &digest, x, y, signature)
}
