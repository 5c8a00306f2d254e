//! Signatures over a message: RS256, RS384 and RS512 (RFC 7518, section 3.3), PS256, PS384 and PS512 (section 3.5).

ghost use Rattle.std.specs.Prelude.{◌≡◌, ◌||◌};
ghost use Rattle.jwt_mac.specs.Hmac.{all_octets};
ghost use Rattle.jwt_mac.specs.Verifying.{RsaKey};
ghost use Rattle.jwt_rsa.specs.Meanings.{accepts_rs, accepts_ps};

use crate::public_key::KeyOctets;
use crate::{pkcs1, pss};
use jwt_mac::{Alg, Kind};

/// Whether it is the signature of the joined parts by RS256, RS384 or RS512.
pub fn is_accepted_rs(alg: Alg, key: KeyOctets, parts: [&[u8]; 3], signature: &[u8]) -> bool
    ensures { result
        ≡ accepts_rs alg (RsaKey key.entry.n.now key.entry.e.now) (all_octets parts.entry)
        signature.now }
{
    match alg.kind() {
        Kind::Pkcs1(hash) => pkcs1::accepts(hash, key, parts, signature),
        _ => false,
    }
}

/// Whether it is the signature of the joined parts by PS256, PS384 or PS512.
pub fn is_accepted_ps(alg: Alg, key: KeyOctets, parts: [&[u8]; 3], signature: &[u8]) -> bool
    ensures { result
        ≡ accepts_ps alg (RsaKey key.entry.n.now key.entry.e.now) (all_octets parts.entry)
        signature.now }
{
    match alg.kind() {
        Kind::Pss(hash) => pss::accepts(hash, key, parts, signature),
        _ => false,
    }
}

/// Whether it is the signature of the message that the three parts make, joined, by this algorithm and the public key (n, e), whose octets are
/// big-endian numbers. By an algorithm that isn't one of the six none is. It takes no memory.
pub fn verifies(alg: Alg, n: &[u8], e: &[u8], parts: [&[u8]; 3], signature: &[u8]) -> bool
    ensures { result
        ≡ (accepts_rs alg (RsaKey n.now e.now) (all_octets parts.entry) signature.now
        || accepts_ps alg (RsaKey n.now e.now) (all_octets parts.entry) signature.now) }
{
    let key = KeyOctets {
        n,
        e,
        prepared: &[],
    };
    is_accepted_rs(alg, key, parts, signature) || is_accepted_ps(alg, key, parts, signature)
}
