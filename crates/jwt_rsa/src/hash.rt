//! The hash functions of RSA signatures.

ghost use Rattle.std.specs.Prelude.{◌≡◌, length};
ghost use Rattle.jwt_mac.specs.Hmac.{all_octets};
ghost use Rattle.jwt_mac.specs.Algorithm.{hashed, octets_of};
ghost use Rattle.jwt_rsa.specs.Hashing.{digest_info};

use crate::digest::HashDigest;
use jwt_mac::{Hash, sha256, sha384, sha512};

// The DER encoding of DigestInfo up to the digest (RFC 8017, section 9.2, note 1), for each.
const INFO_256: [u8; 19] = [
    0x30, 0x31, 0x30, 0x0d, 0x06, 0x09, 0x60, 0x86, 0x48, 0x01, 0x65, 0x03, 0x04, 0x02, 0x01, 0x05,
    0x00, 0x04, 0x20,
];

const INFO_384: [u8; 19] = [
    0x30, 0x41, 0x30, 0x0d, 0x06, 0x09, 0x60, 0x86, 0x48, 0x01, 0x65, 0x03, 0x04, 0x02, 0x02, 0x05,
    0x00, 0x04, 0x30,
];

const INFO_512: [u8; 19] = [
    0x30, 0x51, 0x30, 0x0d, 0x06, 0x09, 0x60, 0x86, 0x48, 0x01, 0x65, 0x03, 0x04, 0x02, 0x03, 0x05,
    0x00, 0x04, 0x40,
];

/// The digest of the octets that the parts make, joined.
pub fn digest(hash: Hash, parts: [&[u8]; 3]) -> HashDigest
    ensures is { result ≡ hashed hash (all_octets parts.entry) }
    ensures size { length result ≡ octets_of hash }
{
    match hash {
        Hash::Sha256 => HashDigest::of(&sha256(parts)),
        Hash::Sha384 => HashDigest::of(&sha384(parts)),
        Hash::Sha512 => HashDigest::of(&sha512(parts)),
    }
}

/// The DER encoding of DigestInfo up to the digest.
pub fn info(hash: Hash) -> &'static [u8]
    ensures { result.now ≡ digest_info hash }
{
    match hash {
        Hash::Sha256 => &INFO_256,
        Hash::Sha384 => &INFO_384,
        Hash::Sha512 => &INFO_512,
    }
}
