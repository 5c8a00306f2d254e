//! RSASSA-PSS (RFC 8017, sections 8.1.2, 9.1.2 and B.2.1).

ghost use Rattle.std.specs.Prelude.{◌≡◌, ℕ, ◌+◌, ◌-◌, ◌*◌, ◌^◌, ◌<◌, ◌≤◌, ◌++◌, ◌∷◌, [], length, replicate, ◌↔◌, IsTrue};
ghost use Rattle.jwt_mac.specs.Hmac.{all_octets};
ghost use Rattle.jwt_mac.specs.Algorithm.{octets_of};
ghost use Rattle.jwt_rsa.specs.Pss.{mgf1, xored, without_top, pss_verified, pss_represents, pss_accepts};
ghost use Rattle.jwt_rsa.specs.powers.Octets.{i2osp};

use crate::hash::digest;
use crate::pkcs1::before;
use crate::powers::{MOST_OCTETS, Modulus};
use crate::public_key::{KeyOctets, PublicKey};
use jwt_mac::Hash;

/// Xors octets with a digest's first.
fn xor_with(octets: &mut [u8], mask: &[u8])
    requires { length octets.old ≤ length mask.now }
    ensures { octets.new ≡ xored octets.old mask.now }
{
    'octets: for i in 0..octets.len() {
        octets[i] ^= mask[i];
    }
}

/// Xors octets with MGF1's.
fn unmask(hash: Hash, seed: &[u8], octets: &mut [u8])
    requires { length octets.old ≤ 1024 }
    ensures { octets.new ≡ xored octets.old (mgf1 hash seed.now (length octets.old)) }
{
    let size = hash.octets();
    let mut start = 0;
    'counters: for counter in 0..octets.len().div_ceil(size) {
        let end = octets.len().min(start + size);
        let digest = digest(hash, [seed, &[0, 0, 0, counter as u8], &[]]);
        xor_with(&mut octets[start..end], digest.octets());
        start = end;
    }
}

/// Whether octets are zeros and a one.
fn is_padding(octets: &[u8]) -> bool
    ensures { IsTrue result ↔ (octets.now ≡ replicate (length octets.now - 1) 0 ++ 1 ∷ []) }
{
    match before(octets, &[1]) {
        Some(pad) => pad.iter().all(|octet| *octet == 0),
        None => false,
    }
}

/// Sets the leftmost bits to zero.
fn clear_top(octets: &mut [u8], unused: usize)
    requires some { 0 < length octets.old }
    requires bits { unused < 8 }
    ensures { octets.new ≡ without_top unused octets.old }
{
    octets[0] = (u32::from(octets[0]) % (1 << (8 - unused))) as u8;
}

/// EMSA-PSS-VERIFY, with room for DB.
#[tactic(auto, unfolding(crate::specs::Pss::pss_verified))]
fn is_verified(hash: Hash, m_hash: &[u8], em: &[u8], unused: usize, db: &mut [u8]) -> bool
    requires least { 2 * octets_of hash + 2 ≤ length em.now }
    requires most { length em.now ≤ 1024 }
    requires bits { unused < 8 }
    requires room { length db.old + octets_of hash + 1 ≡ length em.now }
    ensures { result ≡ pss_verified hash m_hash.now em.now unused }
{
    let size = hash.octets();
    let db_len = db.len();
    if em[em.len() - 1] != 0xbc || u32::from(em[0]) >= 1 << (8 - unused) {
        return false;
    }
    let h = &em[db_len..db_len + size];
    db.copy_from_slice(&em[..db_len]);
    unmask(hash, h, db);
    clear_top(db, unused);
    let salt = db_len - size;
    if !is_padding(&db[..salt]) {
        return false;
    }
    digest(hash, [&[0; 8], m_hash, &db[salt..]]).octets() == h
}

/// What follows RSAVP1 (RFC 8017, section 8.1.2, steps 2c and 3), of a number in as many octets as the
/// modulus.
#[tactic(auto, unfolding(crate::specs::Pss::pss_represents))]
fn represents(hash: Hash, n: &Modulus, m_hash: &[u8], em: &[u8]) -> bool
    requires { length em.now ≡ length n.now }
    ensures { (m : ℕ) → m < 256 ^ length n.now → em.now ≡ i2osp m (length n.now)
        → result ≡ pss_represents hash n.now m_hash.now m }
{
    let k = n.size();
    let em_bits = n.bits() - 1;
    let em_len = em_bits.div_ceil(8);
    let unused = 8 * em_len - em_bits;
    let mut room = [0u8; MOST_OCTETS];
    let db_len = em_len - hash.octets() - 1;
    if em_len == k {
        is_verified(hash, m_hash, em, unused, &mut room[..db_len])
    } else if em[0] != 0 {
        false
    } else {
        is_verified(hash, m_hash, &em[1..], unused, &mut room[..db_len])
    }
}

/// RSASSA-PSS-VERIFY (RFC 8017, section 8.1.2), of the octets that the parts make, joined.
#[tactic(auto, unfolding(crate::specs::Pss::pss_accepts))]
pub fn accepts(hash: Hash, key: KeyOctets, parts: [&[u8]; 3], signature: &[u8]) -> bool
    ensures { result ≡ pss_accepts hash key.entry.n.now key.entry.e.now (all_octets parts.entry) signature.now }
{
    let Some(key) = PublicKey::of(key.n, key.e, key.prepared) else {
        return false;
    };
    let mut room = [0u8; MOST_OCTETS];
    let em = &mut room[..key.size()];
    if !key.recover(em, signature) {
        return false;
    }
    represents(hash, &key.n, digest(hash, parts).octets(), em)
}
