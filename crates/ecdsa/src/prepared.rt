//! Keys that are prepared once, to verify many signatures.

ghost use Rattle.std.specs.Prelude.{◌≡◌, ◌*◌, ◌^◌, ◌≤◌, ◌&&◌, ◌++◌, not, true, length, map, option_map, is_some, IfSome, IfOk, IfErr};
ghost use Rattle.std.specs.Int.Digits.{number_from_digits};
ghost use Rattle.ecdsa.specs.Curve.{Point.Affine};
ghost use Rattle.ecdsa.specs.Curves.{P256, P384, P521, curve_over};
ghost use Rattle.ecdsa.specs.Domains.{domain};
ghost use Rattle.ecdsa.specs.Doubles.{IsTable};
ghost use Rattle.ecdsa.specs.Ecdsa.{ecdsa, is_public_key};
ghost use Rattle.ecdsa.specs.Held.{held, held_key, has_coordinates, is_held, with_key};
ghost use Rattle.ecdsa.specs.Field.{size};
ghost use Rattle.ecdsa.specs.Windows.{AreBelow, AreWindows};

use crate::asserted::{Asserted, verifies};
use crate::constants::{p256, p384, p521};
use crate::curve::Curve;
use crate::held::{PreparedBase, PreparedKey, PreparedKeys};
use crate::laws::{p256_table, p384_table, p521_table};
use crate::octets::from_octets;
use crate::p256_doubles::{P256_X, P256_Y};
use crate::p384_doubles::{P384_X, P384_Y};
use crate::p521_doubles::{P521_X, P521_Y};
use crate::signatures::{Tables, affine, is_key};
use crate::tables::Doubles;
use crate::windows::{Windows, make_windows};
use std::alloc::{AllocError, Global};

/// The octets, copied.
fn copied(alloc: Global, octets: &[u8]) -> Result<Vec<u8>, AllocError>
    ensures { IfOk result (λ copy. copy.items ≡ octets.now) }
{
    let mut copy = Vec::new(alloc);
    copy.extend_from_slice(octets)?;
    Ok(copy)
}

/// The base point with its windows; None where one of them isn't finite.
fn prepare_base<const N: usize, const KIND: usize>(
    alloc: Global,
    curve: &Curve<N, KIND>,
) -> Result<Option<PreparedBase<N>>, AllocError>
    requires { domain curve.now ≡ curve_over N }
{
    let gx = curve.gx_form();
    let gy = curve.gy_form();
    let base = affine(&curve.field, gx, gy);
    let Some(windows) = make_windows(alloc, curve, base)? else {
        return Ok(None);
    };
    Ok(Some(PreparedBase { windows }))
}

/// The key (x, y) with its windows; None where it is no key.
#[tactic(auto, unfolding(crate::specs::Ecdsa::is_public_key))]
fn prepare_key<const N: usize, const KIND: usize>(
    alloc: Global,
    curve: &Curve<N, KIND>,
    octets: usize,
    x: &[u8],
    y: &[u8],
) -> Result<Option<PreparedKey<N>>, AllocError>
    requires known { domain curve.now ≡ curve_over N }
    requires octets { octets ≤ 8 * N }
    ensures made { IfOk result (λ made. is_some made ≡ is_public_key (domain curve.now) octets x.now y.now) }
    ensures x { IfOk result (λ made. IfSome made (λ key. key.x.items ≡ x.now)) }
    ensures y { IfOk result (λ made. IfSome made (λ key. key.y.items ≡ y.now)) }
{
    if x.len() != octets {
        return Ok(None);
    }
    if y.len() != octets {
        return Ok(None);
    }
    let key_x = from_octets(x);
    let key_y = from_octets(y);
    if !is_key(curve, key_x, key_y) {
        return Ok(None);
    }
    let f = &curve.field;
    let x_form = f.form(key_x);
    let y_form = f.form(key_y);
    let key = affine(f, x_form, y_form);
    let windows = make_windows(alloc, curve, key)?;
    let x_copy = copied(alloc, x)?;
    let y_copy = copied(alloc, y)?;
    Ok(Some(PreparedKey {
        x: x_copy,
        y: y_copy,
        windows,
    }))
}

/// Whether a prepared key has these coordinates, octet by octet to their ends.
fn is_of<const N: usize>(key: &PreparedKey<N>, x: &[u8], y: &[u8]) -> bool
    ensures value { result ≡ has_coordinates x.now y.now (held_key key.now) }
    ensures x { result ≡ true → key.now.x.items ≡ x.now }
    ensures y { result ≡ true → key.now.y.items ≡ y.now }
{
    key.x.as_slice() == x && key.y.as_slice() == y
}

/// Whether the key with these coordinates is prepared.
fn is_held<const N: usize>(keys: &[PreparedKey<N>], x: &[u8], y: &[u8]) -> bool
    ensures { result ≡ is_held x.now y.now (map held_key keys.now) }
{
    'keys: for key in keys {
        if is_of(key, x, y) {
            return true;
        }
    }
    false
}

/// The windows of the key with these coordinates, if it is prepared.
fn windows_of<'a, const N: usize, const KIND: usize>(
    curve: &Curve<N, KIND>,
    keys: &'a [PreparedKey<N>],
    x: &[u8],
    y: &[u8],
) -> Option<&'a Windows<N>>
    requires { domain curve.now ≡ curve_over N }
    ensures below { IfSome result (λ t. AreBelow (domain curve.now) t.now.xs.items t.now.ys.items) }
    ensures are { ∥ IfSome result (λ t. AreWindows N (domain curve.now) (Affine (number_from_digits 256 x.now) (number_from_digits 256 y.now)) t.now.xs.items t.now.ys.items) ∥₁ }
{
    'keys: for key in keys {
        if is_of(key, x, y) {
            return windows_in(key);
        }
    }
    None
}

/// The windows of a key, if they were made.
fn windows_in<const N: usize>(key: &PreparedKey<N>) -> Option<&Windows<N>>
    ensures { option_map (λ t. t.now) result ≡ key.now.windows }
{
    match &key.windows {
        Some(windows) => Some(windows),
        None => None,
    }
}

/// The windows of the base point, if they were made.
fn windows_of_base<'a, const N: usize, const KIND: usize>(
    curve: &Curve<N, KIND>,
    base: &'a Option<PreparedBase<N>>,
) -> Option<&'a Windows<N>>
    requires { domain curve.now ≡ curve_over N }
    ensures below { IfSome result (λ t. AreBelow (domain curve.now) t.now.xs.items t.now.ys.items) }
    ensures are { ∥ IfSome result (λ t. AreWindows N (domain curve.now) (Affine (domain curve.now).gx (domain curve.now).gy) t.now.xs.items t.now.ys.items) ∥₁ }
{
    match base {
        None => None,
        Some(base) => Some(&base.windows),
    }
}

/// The octets of a key's coordinates.
#[derive(Clone, Copy)]
struct Coordinates<'a> {
    x: &'a [u8],
    y: &'a [u8],
}

/// Prepares a key beside the others, and before the first one the base point. False where it is no key, or is prepared already.
fn prepare<const N: usize, const KIND: usize>(
    alloc: Global,
    curve: &Curve<N, KIND>,
    keys: &mut PreparedKeys<N>,
    octets: usize,
    at: Coordinates<'_>,
) -> Result<bool, AllocError>
    requires known { domain curve.now ≡ curve_over N }
    requires octets { octets ≤ 8 * N }
    ensures added { IfOk result (λ added. added ≡ (is_public_key (domain curve.now) octets at.entry.x.now at.entry.y.now && not (is_held at.entry.x.now at.entry.y.now (held keys.old)))) }
    ensures kept { IfOk result (λ added. held keys.new ≡ held keys.old ++ with_key added at.entry.x.now at.entry.y.now) }
    ensures same { IfErr result (λ _. held keys.new ≡ held keys.old) }
{
    if is_held(keys.keys.as_slice(), at.x, at.y) {
        return Ok(false);
    }
    let Some(key) = prepare_key(alloc, curve, octets, at.x, at.y)? else {
        return Ok(false);
    };
    if keys.base.is_none() {
        keys.base = prepare_base(alloc, curve)?;
    }
    keys.keys.push(key)?;
    Ok(true)
}

/// Whether it is the signature of the digest by the public key, each number in so many octets.
fn verifies_by<const N: usize, const KIND: usize>(
    curve: &Curve<N, KIND>,
    doubles: Doubles<'_, N>,
    keys: &PreparedKeys<N>,
    octets: usize,
    asserted: &Asserted<'_>,
) -> bool
    requires known { domain curve.now ≡ curve_over N }
    requires table { IsTable curve.now.field (domain curve.now) doubles.xs.now doubles.ys.now }
    requires octets { octets ≤ 8 * N }
    requires digest { length asserted.now.digest.now ≤ 8 * N }
    requires large { 256 ^ length asserted.now.digest.now ≤ 2 * size curve.now.order }
    ensures { result ≡ ecdsa (domain curve.now) octets asserted.now.digest.now asserted.now.x.now asserted.now.y.now asserted.now.signature.now }
{
    let base = windows_of_base(curve, &keys.base);
    let key = windows_of(curve, keys.keys.as_slice(), asserted.x, asserted.y);
    let tables = Tables { doubles, base, key };
    verifies(curve, &tables, octets, asserted)
}

/// Prepares the key (x, y) of P-256, in 32 octets each, beside the others. False where it is no key, or is prepared already. Where
/// memory is refused, the keys prepared before it stay as they are.
pub fn prepare_p256(
    alloc: Global,
    keys: &mut PreparedKeys<4>,
    x: &[u8],
    y: &[u8],
) -> Result<bool, AllocError>
    ensures added { IfOk result (λ added. added ≡ (is_public_key P256 32 x.now y.now && not (is_held x.now y.now (held keys.old)))) }
    ensures kept { IfOk result (λ added. held keys.new ≡ held keys.old ++ with_key added x.now y.now) }
    ensures same { IfErr result (λ _. held keys.new ≡ held keys.old) }
{
    prepare(alloc, &p256(), keys, 32, Coordinates { x, y })
}

/// Whether a signature of 64 octets, R and S, is that of a digest of 32 octets by the public key (x, y) of P-256: as
/// `verifies_p256`, and faster where the key is among the prepared ones.
pub fn verifies_p256_by(
    keys: &PreparedKeys<4>,
    digest: &[u8],
    x: &[u8],
    y: &[u8],
    signature: &[u8],
) -> bool
    requires { length digest.now ≡ 32 }
    ensures { result ≡ ecdsa P256 32 digest.now x.now y.now signature.now }
{
    let curve = p256();
    p256_table(&curve);
    let doubles = Doubles {
        xs: &P256_X,
        ys: &P256_Y,
    };
    let asserted = Asserted {
        digest,
        x,
        y,
        signature,
    };
    verifies_by(&curve, doubles, keys, 32, &asserted)
}

/// Prepares the key (x, y) of P-384, in 48 octets each, beside the others. False where it is no key, or is prepared already. Where
/// memory is refused, the keys prepared before it stay as they are.
pub fn prepare_p384(
    alloc: Global,
    keys: &mut PreparedKeys<6>,
    x: &[u8],
    y: &[u8],
) -> Result<bool, AllocError>
    ensures added { IfOk result (λ added. added ≡ (is_public_key P384 48 x.now y.now && not (is_held x.now y.now (held keys.old)))) }
    ensures kept { IfOk result (λ added. held keys.new ≡ held keys.old ++ with_key added x.now y.now) }
    ensures same { IfErr result (λ _. held keys.new ≡ held keys.old) }
{
    prepare(alloc, &p384(), keys, 48, Coordinates { x, y })
}

/// Whether a signature of 96 octets, R and S, is that of a digest of 48 octets by the public key (x, y) of P-384: as
/// `verifies_p384`, and faster where the key is among the prepared ones.
pub fn verifies_p384_by(
    keys: &PreparedKeys<6>,
    digest: &[u8],
    x: &[u8],
    y: &[u8],
    signature: &[u8],
) -> bool
    requires { length digest.now ≡ 48 }
    ensures { result ≡ ecdsa P384 48 digest.now x.now y.now signature.now }
{
    let curve = p384();
    p384_table(&curve);
    let doubles = Doubles {
        xs: &P384_X,
        ys: &P384_Y,
    };
    let asserted = Asserted {
        digest,
        x,
        y,
        signature,
    };
    verifies_by(&curve, doubles, keys, 48, &asserted)
}

/// Prepares the key (x, y) of P-521, in 66 octets each, beside the others. False where it is no key, or is prepared already. Where
/// memory is refused, the keys prepared before it stay as they are.
pub fn prepare_p521(
    alloc: Global,
    keys: &mut PreparedKeys<9>,
    x: &[u8],
    y: &[u8],
) -> Result<bool, AllocError>
    ensures added { IfOk result (λ added. added ≡ (is_public_key P521 66 x.now y.now && not (is_held x.now y.now (held keys.old)))) }
    ensures kept { IfOk result (λ added. held keys.new ≡ held keys.old ++ with_key added x.now y.now) }
    ensures same { IfErr result (λ _. held keys.new ≡ held keys.old) }
{
    prepare(alloc, &p521(), keys, 66, Coordinates { x, y })
}

/// Whether a signature of 132 octets, R and S, is that of a digest of 64 octets by the public key (x, y) of P-521: as
/// `verifies_p521`, and faster where the key is among the prepared ones.
pub fn verifies_p521_by(
    keys: &PreparedKeys<9>,
    digest: &[u8],
    x: &[u8],
    y: &[u8],
    signature: &[u8],
) -> bool
    requires { length digest.now ≡ 64 }
    ensures { result ≡ ecdsa P521 66 digest.now x.now y.now signature.now }
{
    let curve = p521();
    p521_table(&curve);
    let doubles = Doubles {
        xs: &P521_X,
        ys: &P521_Y,
    };
    let asserted = Asserted {
        digest,
        x,
        y,
        signature,
    };
    verifies_by(&curve, doubles, keys, 66, &asserted)
}
