//! HMAC (RFC 2104) with SHA-2, fed piece by piece and paid from a budget.

ghost use Rattle.std.specs.Prelude.{◌≡◌, ◌≤◌, ◌<◌, ◌^◌, ◌+◌, ◌++◌, length, take, replicate, ◌-◌, IsTrue, SomeIff, IfOk, OnOk, OnErr};
ghost use Rattle.jwt_mac.specs.Hmac.{block_key, masked, hmac_of, all_octets};
ghost use Rattle.jwt_mac.specs.Algorithm.{is_hmac_alg, digest_size, tag_of, cost_of, sha256_of, sha384_of, sha512_of};

use crate::algorithm::{Alg, Hash, Kind, cost};
use crate::budget::Budget;
use crate::hash::HashFunction;
use crate::tag::Tag;
use sha2::{Digest, Sha256, Sha384, Sha512};

/// The cost of an HMAC exceeds what is left of the budget.
#[derive(Clone, Copy, Debug, PartialEq, Eq)]
pub struct Spent;

// The octets of the largest block, that of SHA-384 and SHA-512.
const MOST_BLOCK: usize = 128;

// What each octet of ipad and of opad is (RFC 2104, section 2).
const INNER_MASK: u8 = 0x36;

const OUTER_MASK: u8 = 0x5c;

/// The hash of one piece.
fn hash_piece<H: HashFunction>(piece: &[u8]) -> Tag
    ensures digest { result ≡ H.hash piece.now }
    ensures short { length result ≤ 64 }
{
    let mut hasher = H::start();
    hasher.feed(piece);
    hasher.finish()
}

/// The octets, followed by zero octets.
fn zero_padded(octets: &[u8]) -> [u8; MOST_BLOCK]
    requires { length octets.now ≤ MOST_BLOCK }
    ensures { result ≡ octets.now ++ replicate (MOST_BLOCK - length octets.now) 0 }
{
    let mut room = [0u8; MOST_BLOCK];
    room[..octets.len()].copy_from_slice(octets);
    room
}

/// The key as a block, hashed first where it is longer than one: the first `block` octets of the result.
#[tactic(auto, using(crate::proofs::Octets::block_of_padded))]
fn key_block<H: HashFunction>(block: usize, key: &[u8]) -> [u8; MOST_BLOCK]
    requires least { 64 ≤ block }
    requires most { block ≤ MOST_BLOCK }
    ensures { take block result ≡ block_key H.hash block key.now }
{
    if key.len() > block {
        let short = hash_piece::<H>(key);
        zero_padded(short.octets())
    } else {
        zero_padded(key)
    }
}

/// Each octet, xor the mask.
fn mask_octets(octets: &[u8; MOST_BLOCK], mask: u8) -> [u8; MOST_BLOCK]
    ensures { result ≡ masked mask octets.now }
{
    let mut out = [0u8; MOST_BLOCK];
    'octets: for i in 0..MOST_BLOCK {
        out[i] = octets[i] ^ mask;
    }
    out
}

/// HMAC over a hash function with blocks of so many octets. The inner and the outer hasher run over the
/// pieces as they stand.
fn mac_with<H: HashFunction>(block: usize, key: &[u8], parts: [&[u8]; 3]) -> Tag
    requires least { 64 ≤ block }
    requires most { block ≤ MOST_BLOCK }
    ensures tag { result ≡ hmac_of H.hash block key.now (all_octets parts.entry) }
    ensures size { length result ≡ H.size }
{
    let padded = key_block::<H>(block, key);
    let inner_pad = mask_octets(&padded, INNER_MASK);
    let mut inner = H::start();
    inner.feed(&inner_pad[..block]);
    inner.feed(parts[0]);
    inner.feed(parts[1]);
    inner.feed(parts[2]);
    let inner_tag = inner.finish();
    let outer_pad = mask_octets(&padded, OUTER_MASK);
    let mut outer = H::start();
    outer.feed(&outer_pad[..block]);
    outer.feed(inner_tag.octets());
    outer.finish()
}

/// The tag of the parts' message, whatever it costs.
#[tactic(auto, unfolding(crate::specs::Algorithm::tag_of, crate::specs::Algorithm::sha256_of, crate::specs::Algorithm::sha384_of, crate::specs::Algorithm::sha512_of,))]
fn tag_with(alg: Alg, key: &[u8], parts: [&[u8]; 3]) -> Tag
    requires { IsTrue (is_hmac_alg alg) }
    ensures tag { result ≡ tag_of alg key.now (all_octets parts.entry) }
    ensures size { length result ≡ digest_size alg }
{
    match alg.kind() {
        Kind::Hmac(Hash::Sha256) => mac_with::<Sha256>(64, key, parts),
        Kind::Hmac(Hash::Sha384) => mac_with::<Sha384>(128, key, parts),
        // SHA-512, by the condition.
        _ => mac_with::<Sha512>(128, key, parts),
    }
}

/// How many octets the parts have, if a `u64` holds their number.
fn total_len(parts: [&[u8]; 3]) -> Option<u64>
    ensures { SomeIff result (length (all_octets parts.entry) < 2 ^ 64)
        (length (all_octets parts.entry)) }
{
    (parts[0].len() as u64)
        .checked_add(parts[1].len() as u64)?
        .checked_add(parts[2].len() as u64)
}

/// The tag of the message that the three parts make, joined, paid from the budget (RFC 7518,
/// section 3.2; RFC 2104, section 2). No part is copied, and nothing is allocated.
///
/// The conditions: the algorithm is HMAC, and the budget has fewer than `u32::MAX` calls. A key of any
/// length is taken, also one shorter than RFC 7518 allows.
///
/// Spent comes exactly where the cost exceeds what is left, so also where no `u64` holds it, and then
/// the budget is as before. Else the octets rise by exactly the cost, and the calls by one.
pub fn hmac<B: Budget>(
    budget: &mut B,
    alg: Alg,
    key: &[u8],
    parts: [&[u8]; 3],
) -> Result<Tag, Spent>
    requires hmac { IsTrue (is_hmac_alg alg) }
    requires room { B.calls budget.old + 1 < 2 ^ 32 }

    ensures tag { IfOk result (λ tag. tag ≡ tag_of alg key.now (all_octets parts.entry)) }
    ensures size { IfOk result (λ tag. length tag ≡ digest_size alg) }

    // What the budget counts.
    ensures paid { OnOk result
        (B.octets budget.new ≡ B.octets budget.old + cost_of alg key.now (all_octets parts.entry)) }
    ensures called { OnOk result (B.calls budget.new ≡ B.calls budget.old + 1) }
    ensures ceiling { B.ceiling budget.new ≡ B.ceiling budget.old }

    // Spent comes exactly where the cost is too much, and changes nothing.
    ensures afforded { OnOk result
        (B.octets budget.old + cost_of alg key.now (all_octets parts.entry) ≤ B.ceiling
        budget.old) }
    ensures spent { OnErr result
        (B.ceiling budget.old < B.octets budget.old + cost_of alg key.now
        (all_octets parts.entry)) }
    ensures unchanged { OnErr result (budget.new ≡ budget.old) }
{
    let message_len = total_len(parts).ok_or(Spent)?;
    let price = cost(alg, key.len() as u64, message_len).ok_or(Spent)?;
    if budget.left() < price {
        return Err(Spent);
    }
    budget.feed(price);
    budget.call();
    Ok(tag_with(alg, key, parts))
}

/// The SHA-256 digest (FIPS 180-4, section 6.2) of the octets that the three parts make, joined. It
/// serves thumbprints (RFC 7638, section 3) and signatures by RSA (RFC 7518, sections 3.3 and 3.5), is
/// no HMAC work, and is paid from no budget.
#[tactic(auto, unfolding(crate::specs::Algorithm::sha256_of))]
pub fn sha256(parts: [&[u8]; 3]) -> [u8; 32]
    ensures { result ≡ sha256_of (all_octets parts.entry) }
{
    let mut hasher = Sha256::new();
    hasher.update(parts[0]);
    hasher.update(parts[1]);
    hasher.update(parts[2]);
    hasher.finalize()
}

/// The SHA-384 digest (FIPS 180-4, section 6.5) of the octets that the three parts make, joined. It
/// serves signatures by RSA (RFC 7518, sections 3.3 and 3.5), is no HMAC work, and is paid from no
/// budget.
#[tactic(auto, unfolding(crate::specs::Algorithm::sha384_of))]
pub fn sha384(parts: [&[u8]; 3]) -> [u8; 48]
    ensures { result ≡ sha384_of (all_octets parts.entry) }
{
    let mut hasher = Sha384::new();
    hasher.update(parts[0]);
    hasher.update(parts[1]);
    hasher.update(parts[2]);
    hasher.finalize()
}

/// The SHA-512 digest (FIPS 180-4, section 6.4) of the octets that the three parts make, joined. It
/// serves signatures by RSA (RFC 7518, sections 3.3 and 3.5), is no HMAC work, and is paid from no
/// budget.
#[tactic(auto, unfolding(crate::specs::Algorithm::sha512_of))]
pub fn sha512(parts: [&[u8]; 3]) -> [u8; 64]
    ensures { result ≡ sha512_of (all_octets parts.entry) }
{
    let mut hasher = Sha512::new();
    hasher.update(parts[0]);
    hasher.update(parts[1]);
    hasher.update(parts[2]);
    hasher.finalize()
}

/// The SHA-512 digest (FIPS 180-4, section 6.4) of two pieces and the three parts behind them, joined.
/// It serves signatures by Ed25519 (RFC 8032, section 5.1.7, step 2), is no HMAC work, and is paid from
/// no budget.
#[tactic(auto, unfolding(crate::specs::Algorithm::sha512_of))]
pub fn sha512_behind(first: &[u8], second: &[u8], parts: [&[u8]; 3]) -> [u8; 64]
    ensures { result ≡ sha512_of (first.now ++ second.now ++ all_octets parts.entry) }
{
    let mut hasher = Sha512::new();
    hasher.update(first);
    hasher.update(second);
    hasher.update(parts[0]);
    hasher.update(parts[1]);
    hasher.update(parts[2]);
    hasher.finalize()
}
