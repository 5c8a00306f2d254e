//! Signatures by Ed25519 (RFC 8032, section 5.1.7).

ghost use Rattle.std.specs.Prelude.{◌≡◌, IfSome, length};
ghost use Rattle.jwt_mac.specs.Hmac.{all_octets};
ghost use Rattle.jwt_ed25519.specs.Elements.{coordinates, summed};
ghost use Rattle.jwt_ed25519.specs.Limbs.{number};
ghost use Rattle.jwt_ed25519.specs.Points.{base_x, base_y, point, negated, multiple};
ghost use Rattle.jwt_ed25519.specs.Windows.{AreWindows};
ghost use Rattle.jwt_ed25519.specs.Verifying.{challenge, equation_holds, is_key, is_signature};

use crate::decoding::decode;
use crate::encoding::is_encoding;
use crate::held::{PreparedKey, PreparedKeys};
use crate::limbs::{Limbs, from_octets, is_less};
use crate::multiples::{multiple, or_neutral, sum};
use crate::point::EdwardsPoint;
use crate::prepared::{AtHand, base_windows, key_at_hand, prepared};
use crate::scalar::{from_digest, order};
use crate::windows::{Windows, window_multiple};
use jwt_mac::sha512_behind;

/// The digest of R, the key and the message, modulo L.
#[tactic(auto, unfolding(crate::specs::Verifying::challenge))]
fn challenge(r: &[u8], key: &[u8], parts: [&[u8]; 3]) -> Limbs
    ensures { number result ≡ challenge r.now key.now (all_octets parts.entry) }
{
    from_digest(&sha512_behind(r, key, parts))
}

/// The multiple of a point: by its windows, where they are at hand.
fn multiple_at_hand(
    windows: Option<&Windows>,
    p: EdwardsPoint,
    scalar: Limbs,
) -> Option<EdwardsPoint>
    ensures { IfSome windows.entry (λ w. AreWindows 1024 (coordinates p) w.now.table.items) → summed result ≡ multiple (number scalar) (coordinates p) }
{
    match windows {
        None => multiple(p, scalar),
        Some(windows) => window_multiple(windows, scalar),
    }
}

/// Whether R is the encoding of [S]B - [k]A.
#[tactic(auto, unfolding(crate::specs::Verifying::equation_holds))]
fn holds(base: Option<&Windows>, key: &AtHand<'_>, r: &[u8], s: Limbs, k: Limbs) -> bool
    requires { length r.now ≡ 32 }
    ensures { IfSome base.entry (λ w. AreWindows 1024 (point base_x base_y) w.now.table.items) → IfSome key.now.windows (λ w. AreWindows 1024 (negated (coordinates key.now.a)) w.now.table.items) → result ≡ equation_holds (coordinates key.now.a) r.now (number s) (number k) }
{
    let first = multiple_at_hand(base, EdwardsPoint::base(), s);
    let second = multiple_at_hand(key.windows, key.a.negated(), k);
    is_encoding(or_neutral(sum(first, second)), r)
}

/// Whether octets are a key that verifies anything here: they decode to a point (RFC 8032, section 5.1.3) that isn't of small order.
pub fn is_key(octets: &[u8]) -> bool
    ensures { result ≡ is_key octets.now }
{
    match decode(octets) {
        Some(a) => !a.is_small(),
        None => false,
    }
}

/// Whether it is the signature of the joined parts by the public key whose octets these are, with what is at hand: windows of the
/// base point, and prepared keys.
fn verifies_with(
    base: Option<&Windows>,
    keys: &[PreparedKey],
    key: &[u8],
    parts: [&[u8]; 3],
    signature: &[u8],
) -> bool
    requires { IfSome base (λ w. AreWindows 1024 (point base_x base_y) w.now.table.items) }
    ensures { result ≡ is_signature key.now (all_octets parts.entry) signature.now }
{
    if signature.len() != 64 {
        return false;
    }
    let r = &signature[..32];
    let s = from_octets(&signature[32..]);
    if !is_less(s, order()) {
        return false;
    }
    let Some(held) = key_at_hand(keys, key) else {
        return false;
    };
    !held.a.is_small() && holds(base, &held, r, s, challenge(r, key, parts))
}

/// Whether it is the signature of the message that the three parts make, joined, by the public key whose octets these are (RFC
/// 8032, section 5.1.7), and the key isn't of small order. Key and signature may have any length; no part is copied.
pub fn verifies(key: &[u8], parts: [&[u8]; 3], signature: &[u8]) -> bool
    ensures { result ≡ is_signature key.now (all_octets parts.entry) signature.now }
{
    verifies_with(None, &[], key, parts, signature)
}

/// [`verifies`] with prepared keys.
pub fn verifies_by(keys: &PreparedKeys, key: &[u8], parts: [&[u8]; 3], signature: &[u8]) -> bool
    ensures { result ≡ is_signature key.now (all_octets parts.entry) signature.now }
{
    verifies_with(base_windows(keys), prepared(keys), key, parts, signature)
}
