//! Signatures by ECDSA over a curve (SEC 1, section 4.1.4).

ghost use Rattle.std.specs.Prelude.{◌≡◌, ◌+◌, ◌*◌, ◌%◌, ◌<◌, ◌==◌, ◌&&◌, nat_lt, true, Option, Some, IfSome};
ghost use Rattle.ecdsa.specs.Inverse.{inverse as the_inverse};
ghost use Rattle.numbers.specs.Limbs.{number};
ghost use Rattle.ecdsa.specs.Curve.{Point as CurvePoint, Point.Affine, multiple, has_x, holds_by, is_key, holds};
ghost use Rattle.ecdsa.specs.Domains.{domain};
ghost use Rattle.ecdsa.specs.Doubles.{IsTable};
ghost use Rattle.ecdsa.specs.Field.{size, value, Below};
ghost use Rattle.ecdsa.specs.Stands.{IsBelow, AreFor, Stands};
ghost use Rattle.ecdsa.specs.Windows.{AreBelow, AreWindows};

use crate::curve::Curve;
use crate::field::Field;
use crate::limbs::{is_less, is_same, reduce, small};
use crate::multiples::multiple;
use crate::point::Point;
use crate::sums::add;
use crate::tables::{Doubles, base_multiple};
use crate::windows::{Windows, window_multiple};

/// The finite point at forms x and y.
pub fn affine<const N: usize, const KIND: usize>(
    f: &Field<N, KIND>,
    x: [u64; N],
    y: [u64; N],
) -> Point<N>
    requires x { Below f.now x }
    requires y { Below f.now y }
    ensures below { IsBelow f.now result }
    ensures one { value f.now result.z ≡ 1 }
    ensures stands { AreFor (size f.now) (value f.now result.x) (value f.now result.y) (value f.now result.z) (Some (Affine (value f.now x.entry) (value f.now y.entry))) }
{
    let z = f.one();
    Point { x, y, z }
}

/// Whether y^2 = x^3 + a x + b.
fn is_on_curve<const N: usize, const KIND: usize>(
    curve: &Curve<N, KIND>,
    x: [u64; N],
    y: [u64; N],
) -> bool
    requires x { Below curve.now.field x }
    requires y { Below curve.now.field y }
    ensures { result ≡ ((value curve.now.field y.entry * value curve.now.field y.entry) % size curve.now.field == (value curve.now.field x.entry * value curve.now.field x.entry * value curve.now.field x.entry + (domain curve.now).a * value curve.now.field x.entry + (domain curve.now).b) % size curve.now.field) }
{
    let f = &curve.field;
    let square = f.times(x, x);
    let cube = f.times(square, x);
    let twice = f.plus(x, x);
    let thrice = f.plus(twice, x);
    let rest = f.minus(cube, thrice);
    let b = curve.b_form();
    let right = f.plus(rest, b);
    let left = f.times(y, y);
    f.is(left, right)
}

/// Whether x and y are a key.
pub fn is_key<const N: usize, const KIND: usize>(
    curve: &Curve<N, KIND>,
    x: [u64; N],
    y: [u64; N],
) -> bool
    ensures is { result ≡ is_key (domain curve.now) (number x.entry) (number y.entry) }
    ensures x { result ≡ true → number x.entry < size curve.now.field }
    ensures y { result ≡ true → number y.entry < size curve.now.field }
{
    let f = &curve.field;
    if !is_less(x, f.n) {
        return false;
    }
    if !is_less(y, f.n) {
        return false;
    }
    let x_form = f.form(x);
    let y_form = f.form(y);
    is_on_curve(curve, x_form, y_form)
}

/// Whether it is above 0 and below n.
fn is_scalar<const N: usize>(a: [u64; N], n: [u64; N]) -> bool
    requires { 0 < N }
    ensures { result ≡ (nat_lt 0 (number a.entry) && nat_lt (number a.entry) (number n.entry)) }
{
    if is_same(a, small(0)) {
        return false;
    }
    is_less(a, n)
}

/// x of a finite point, of whose Z the inverse is i.
fn affine_x<const N: usize, const KIND: usize>(
    f: &Field<N, KIND>,
    x: [u64; N],
    i: [u64; N],
) -> [u64; N]
    requires x { Below f.now x }
    requires i { Below f.now i }
    ensures { number result ≡ (value f.now x.entry * (value f.now i.entry * value f.now i.entry)) % size f.now }
{
    let square = f.times(i, i);
    let product = f.times(x, square);
    f.plain(product)
}

/// Whether x of a finite point is r modulo n.
fn finite_has_x<const N: usize, const KIND: usize>(
    curve: &Curve<N, KIND>,
    p: Point<N>,
    r: [u64; N],
) -> bool
    requires { IsBelow curve.now.field p }
    ensures { (R : Option CurvePoint) → AreFor (size curve.now.field) (value curve.now.field p.entry.x) (value curve.now.field p.entry.y) (value curve.now.field p.entry.z) R → result ≡ has_x (domain curve.now) (number r.entry) R }
{
    let p_x = p.x;
    let p_z = p.z;
    match curve.field.inverse(p_z) {
        None => false,
        Some(i) => {
            let x = affine_x(&curve.field, p_x, i);
            let rest = reduce(x, false, curve.order.n);
            is_same(rest, r)
        }
    }
}

/// Whether x of a point is r modulo n.
fn has_x<const N: usize, const KIND: usize>(
    curve: &Curve<N, KIND>,
    p: Option<Point<N>>,
    r: [u64; N],
) -> bool
    requires { IfSome p (λ q. IsBelow curve.now.field q) }
    ensures { (R : Option CurvePoint) → Stands curve.now.field p.entry R → result ≡ has_x (domain curve.now) (number r.entry) R }
{
    match p {
        None => false,
        Some(p) => finite_has_x(curve, p, r),
    }
}

/// A key and a signature, in numbers: the key's coordinates, the hash, r and s.
#[derive(Clone, Copy)]
pub struct Claimed<const N: usize> {
    pub x: [u64; N],
    pub y: [u64; N],
    pub e: [u64; N],
    pub r: [u64; N],
    pub s: [u64; N],
}

/// What is at hand to multiply by: the doubles of the base point, and windows of it and of the key, where they were prepared.
#[derive(Clone, Copy)]
pub struct Tables<'a, const N: usize> {
    pub doubles: Doubles<'a, N>,
    pub base: Option<&'a Windows<N>>,
    pub key: Option<&'a Windows<N>>,
}

/// The multiple of the base point: by its windows, else by its doubles.
fn multiple_of_base<const N: usize, const KIND: usize>(
    curve: &Curve<N, KIND>,
    tables: &Tables<'_, N>,
    u: [u64; N],
) -> Option<Point<N>>
    requires table { IsTable curve.now.field (domain curve.now) tables.now.doubles.xs.now tables.now.doubles.ys.now }
    requires base { IfSome tables.now.base (λ t. AreBelow (domain curve.now) t.now.xs.items t.now.ys.items) }
    ensures below { IfSome result (λ q. IsBelow curve.now.field q) }
    ensures stands { IfSome tables.now.base (λ t. AreWindows N (domain curve.now) (Affine (domain curve.now).gx (domain curve.now).gy) t.now.xs.items t.now.ys.items) → Stands curve.now.field result (multiple (domain curve.now) curve.now.digits (number u.entry) (Affine (domain curve.now).gx (domain curve.now).gy)) }
{
    match tables.base {
        None => base_multiple(curve, tables.doubles, u),
        Some(windows) => window_multiple(curve, windows, u),
    }
}

/// The multiple of the key: by its windows, else by its own doubles.
fn multiple_of_key<const N: usize, const KIND: usize>(
    curve: &Curve<N, KIND>,
    tables: &Tables<'_, N>,
    u: [u64; N],
    key: Point<N>,
) -> Option<Point<N>>
    requires windows { IfSome tables.now.key (λ t. AreBelow (domain curve.now) t.now.xs.items t.now.ys.items) }
    requires key { IsBelow curve.now.field key }
    ensures below { IfSome result (λ q. IsBelow curve.now.field q) }
    ensures stands { (P : CurvePoint) → IfSome tables.now.key (λ t. AreWindows N (domain curve.now) P t.now.xs.items t.now.ys.items) → AreFor (size curve.now.field) (value curve.now.field key.entry.x) (value curve.now.field key.entry.y) (value curve.now.field key.entry.z) (Some P) → Stands curve.now.field result (multiple (domain curve.now) curve.now.digits (number u.entry) P) }
{
    match tables.key {
        None => multiple(curve, u, key),
        Some(windows) => window_multiple(curve, windows, u),
    }
}

/// Whether x of [e w]G + [r w]Q is r modulo n, with this e in place of the hash.
fn holds_at<const N: usize, const KIND: usize>(
    curve: &Curve<N, KIND>,
    tables: &Tables<'_, N>,
    claimed: &Claimed<N>,
    e: [u64; N],
    w: [u64; N],
) -> bool
    requires table { IsTable curve.now.field (domain curve.now) tables.now.doubles.xs.now tables.now.doubles.ys.now }
    requires base { IfSome tables.now.base (λ t. AreBelow (domain curve.now) t.now.xs.items t.now.ys.items) }
    requires key { IfSome tables.now.key (λ t. AreBelow (domain curve.now) t.now.xs.items t.now.ys.items) }
    requires x { number claimed.now.x < size curve.now.field }
    requires y { number claimed.now.y < size curve.now.field }
    requires e { number e < size curve.now.order }
    requires r { number claimed.now.r < size curve.now.order }
    ensures { IfSome tables.now.base (λ t. AreWindows N (domain curve.now) (Affine (domain curve.now).gx (domain curve.now).gy) t.now.xs.items t.now.ys.items) → IfSome tables.now.key (λ t. AreWindows N (domain curve.now) (Affine (number claimed.now.x) (number claimed.now.y)) t.now.xs.items t.now.ys.items) → result ≡ holds_by (domain curve.now) (number claimed.now.x) (number claimed.now.y) (number e.entry) (number claimed.now.r) (Some (value curve.now.order w.entry)) }
{
    let f = &curve.field;
    let x_form = f.form(claimed.x);
    let y_form = f.form(claimed.y);
    let key = affine(f, x_form, y_form);
    let u = curve.order.scaled(e, w);
    let v = curve.order.scaled(claimed.r, w);
    let first = multiple_of_base(curve, tables, u);
    let second = multiple_of_key(curve, tables, v, key);
    let sum = add(curve, first, second);
    has_x(curve, sum, claimed.r)
}

/// The same with the hash and the inverse of s, if there is one.
fn holds_with<const N: usize, const KIND: usize>(
    curve: &Curve<N, KIND>,
    tables: &Tables<'_, N>,
    claimed: &Claimed<N>,
) -> bool
    requires table { IsTable curve.now.field (domain curve.now) tables.now.doubles.xs.now tables.now.doubles.ys.now }
    requires base { IfSome tables.now.base (λ t. AreBelow (domain curve.now) t.now.xs.items t.now.ys.items) }
    requires key { IfSome tables.now.key (λ t. AreBelow (domain curve.now) t.now.xs.items t.now.ys.items) }
    requires x { number claimed.now.x < size curve.now.field }
    requires y { number claimed.now.y < size curve.now.field }
    requires e { number claimed.now.e < 2 * size curve.now.order }
    requires r { number claimed.now.r < size curve.now.order }
    requires s { number claimed.now.s < size curve.now.order }
    ensures { IfSome tables.now.base (λ t. AreWindows N (domain curve.now) (Affine (domain curve.now).gx (domain curve.now).gy) t.now.xs.items t.now.ys.items) → IfSome tables.now.key (λ t. AreWindows N (domain curve.now) (Affine (number claimed.now.x) (number claimed.now.y)) t.now.xs.items t.now.ys.items) → result ≡ holds_by (domain curve.now) (number claimed.now.x) (number claimed.now.y) (number claimed.now.e) (number claimed.now.r) (the_inverse (size curve.now.order) (number claimed.now.s)) }
{
    let form = curve.order.form(claimed.s);
    match curve.order.inverse(form) {
        None => false,
        Some(w) => {
            let rest = reduce(claimed.e, false, curve.order.n);
            holds_at(curve, tables, claimed, rest, w)
        }
    }
}

/// Whether r and s are a signature of the hash by the key.
pub fn holds<const N: usize, const KIND: usize>(
    curve: &Curve<N, KIND>,
    tables: &Tables<'_, N>,
    claimed: &Claimed<N>,
) -> bool
    requires table { IsTable curve.now.field (domain curve.now) tables.now.doubles.xs.now tables.now.doubles.ys.now }
    requires base { IfSome tables.now.base (λ t. AreBelow (domain curve.now) t.now.xs.items t.now.ys.items) }
    requires key { IfSome tables.now.key (λ t. AreBelow (domain curve.now) t.now.xs.items t.now.ys.items) }
    requires e { number claimed.now.e < 2 * size curve.now.order }
    ensures { IfSome tables.now.base (λ t. AreWindows N (domain curve.now) (Affine (domain curve.now).gx (domain curve.now).gy) t.now.xs.items t.now.ys.items) → IfSome tables.now.key (λ t. AreWindows N (domain curve.now) (Affine (number claimed.now.x) (number claimed.now.y)) t.now.xs.items t.now.ys.items) → result ≡ holds (domain curve.now) (number claimed.now.x) (number claimed.now.y) (number claimed.now.e) (number claimed.now.r) (number claimed.now.s) }
{
    if !is_scalar(claimed.r, curve.order.n) {
        return false;
    }
    if !is_scalar(claimed.s, curve.order.n) {
        return false;
    }
    if !is_key(curve, claimed.x, claimed.y) {
        return false;
    }
    holds_with(curve, tables, claimed)
}
