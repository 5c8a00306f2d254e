//! EMSA-PKCS1-v1_5 (RFC 8017, section 9.2).

ghost use Rattle.std.specs.Prelude.{◌≡◌, ◌≢◌, ◌+◌, ◌↔◌, ◌++◌, ℕ, List, length, IsTrue, MatchOption};
ghost use Rattle.jwt_mac.specs.Hmac.{all_octets};
ghost use Rattle.jwt_rsa.specs.Pkcs1.{framed, encoded_message, pkcs1_accepts};

use crate::hash::{digest, info};
use crate::powers::MOST_OCTETS;
use crate::public_key::{KeyOctets, PublicKey};
use jwt_mac::Hash;

/// What stands before an end, if octets end so.
pub fn before<'a>(octets: &'a [u8], end: &[u8]) -> Option<&'a [u8]>
    ensures { MatchOption result ((front : List ℕ) → octets.now ≢ front ++ end.now)
        (λ front. octets.now ≡ front.now ++ end.now) }
{
    octets.strip_suffix(end)
}

/// What stands behind a start, if octets start so.
fn behind<'a>(octets: &'a [u8], start: &[u8]) -> Option<&'a [u8]>
    ensures { MatchOption result ((rest : List ℕ) → octets.now ≢ start.now ++ rest)
        (λ rest. octets.now ≡ start.now ++ rest.now) }
{
    octets.strip_prefix(start)
}

/// The padding of an encoded message, if it has the frame, the DER encoding and the digest.
fn padding_of<'a>(em: &'a [u8], info: &[u8], digest: &[u8]) -> Option<&'a [u8]>
    ensures { MatchOption result ((p : List ℕ) → em.now ≢ framed p info.now digest.now)
        (λ p. em.now ≡ framed p.now info.now digest.now) }
{
    let Some(first) = before(em, digest) else {
        return None;
    };
    let Some(second) = before(first, info) else {
        return None;
    };
    let Some(third) = before(second, &[0]) else {
        return None;
    };
    behind(third, &[0, 1])
}

/// Whether octets are the encoding of a digest, of their length.
fn is_encoded(em: &[u8], info: &[u8], digest: &[u8]) -> bool
    ensures { IsTrue result ↔ (em.now ≡ encoded_message info.now digest.now (length em.now)) }
{
    match padding_of(em, info, digest) {
        Some(padding) => padding.iter().all(|octet| *octet == 0xff),
        None => false,
    }
}

/// RSASSA-PKCS1-V1_5-VERIFY (RFC 8017, section 8.2.2), of the octets that the parts make, joined.
#[tactic(auto, unfolding(crate::specs::Pkcs1::pkcs1_accepts))]
pub fn accepts(hash: Hash, key: KeyOctets, parts: [&[u8]; 3], signature: &[u8]) -> bool
    ensures { result ≡ pkcs1_accepts hash key.entry.n.now key.entry.e.now (all_octets parts.entry) signature.now }
{
    let Some(key) = PublicKey::of(key.n, key.e, key.prepared) else {
        return false;
    };
    let mut room = [0u8; MOST_OCTETS];
    let em = &mut room[..key.size()];
    if !key.recover(em, signature) {
        return false;
    }
    is_encoded(em, info(hash), digest(hash, parts).octets())
}
