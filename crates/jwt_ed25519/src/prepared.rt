//! Keys that are prepared once, to verify many signatures.

ghost use Rattle.std.specs.Prelude.{◌≡◌, ◌+◌, true, cond, Some, IfOk, IfErr, IfSome};
ghost use Rattle.std.specs.Option.{option_map};
ghost use Rattle.jwt_ed25519.specs.Decoding.{decoded};
ghost use Rattle.jwt_ed25519.specs.Held.{held_number};
ghost use Rattle.jwt_ed25519.specs.Elements.{coordinates};
ghost use Rattle.jwt_ed25519.specs.Points.{base_x, base_y, point, negated};
ghost use Rattle.jwt_ed25519.specs.Windows.{AreWindows};

use crate::decoding::decode;
use crate::held::{PreparedBase, PreparedKey, PreparedKeys};
use crate::point::EdwardsPoint;
use crate::windows::{Windows, make_windows};
use std::alloc::{AllocError, Global};

/// The point that a key's octets encode, and the windows of its negative, where they were made.
#[derive(Clone, Copy)]
pub struct AtHand<'a> {
    pub a: EdwardsPoint,
    pub windows: Option<&'a Windows>,
}

/// The octets, copied.
fn copied(alloc: Global, octets: &[u8]) -> Result<Vec<u8>, AllocError>
    ensures { IfOk result (λ copy. copy.items ≡ octets.now) }
{
    let mut copy = Vec::new(alloc);
    copy.extend_from_slice(octets)?;
    Ok(copy)
}

/// The base point with its windows.
fn prepare_base(alloc: Global) -> Result<PreparedBase, AllocError> {
    let windows = make_windows(alloc, EdwardsPoint::base())?;
    Ok(PreparedBase { windows })
}

/// A key with its windows; None where its octets encode no point.
fn prepare_key(alloc: Global, octets: &[u8]) -> Result<Option<PreparedKey>, AllocError> {
    let Some(a) = decode(octets) else {
        return Ok(None);
    };
    let windows = make_windows(alloc, a.negated())?;
    let copy = copied(alloc, octets)?;
    Ok(Some(PreparedKey {
        octets: copy,
        a,
        windows,
    }))
}

/// Whether a prepared key has these octets, one by one to their ends.
fn is_of(key: &PreparedKey, octets: &[u8]) -> bool
    ensures { result ≡ true → key.now.octets.items ≡ octets.now }
{
    key.octets.as_slice() == octets
}

/// The prepared key of these octets, if there is one.
fn found<'a>(keys: &'a [PreparedKey], octets: &[u8]) -> Option<AtHand<'a>>
    ensures encoded { IfSome result (λ k. decoded octets.now ≡ Some (coordinates k.a)) }
    ensures are { IfSome result (λ k. IfSome k.windows (λ w. AreWindows 1024 (negated (coordinates k.a)) w.now.table.items)) }
{
    'keys: for key in keys {
        if is_of(key, octets) {
            return Some(AtHand {
                a: key.a,
                windows: Some(&key.windows),
            });
        }
    }
    None
}

/// What is at hand of a key: what was prepared, else the point that its octets encode.
pub fn key_at_hand<'a>(keys: &'a [PreparedKey], octets: &[u8]) -> Option<AtHand<'a>>
    ensures encoded { option_map (λ k. coordinates k.a) result ≡ decoded octets.now }
    ensures are { IfSome result (λ k. IfSome k.windows (λ w. AreWindows 1024 (negated (coordinates k.a)) w.now.table.items)) }
{
    if let Some(key) = found(keys, octets) {
        return Some(key);
    }
    let Some(a) = decode(octets) else {
        return None;
    };
    Some(AtHand { a, windows: None })
}

/// The windows of the base point, if they were made.
pub fn base_windows(keys: &PreparedKeys) -> Option<&Windows>
    ensures { IfSome result (λ w. AreWindows 1024 (point base_x base_y) w.now.table.items) }
{
    match &keys.base {
        None => None,
        Some(base) => Some(&base.windows),
    }
}

/// The prepared keys.
pub fn prepared(keys: &PreparedKeys) -> &[PreparedKey] {
    keys.keys.as_slice()
}

/// Prepares a key beside the others, and before the first one the base point. False where it encodes no point, or is prepared
/// already. Where memory is refused, the keys prepared before it stay as they are.
pub fn prepare(alloc: Global, keys: &mut PreparedKeys, octets: &[u8]) -> Result<bool, AllocError>
    ensures counted { IfOk result (λ added. held_number keys.new ≡ held_number keys.old + cond added 1 0) }
    ensures same { IfErr result (λ _. held_number keys.new ≡ held_number keys.old) }
{
    if found(keys.keys.as_slice(), octets).is_some() {
        return Ok(false);
    }
    let Some(key) = prepare_key(alloc, octets)? else {
        return Ok(false);
    };
    if keys.base.is_none() {
        let base = prepare_base(alloc)?;
        keys.base = Some(base);
    }
    keys.keys.push(key)?;
    Ok(true)
}
