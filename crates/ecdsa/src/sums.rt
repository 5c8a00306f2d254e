//! Sums of points, by the rules of SEC 1, section 2.2.1.

ghost use Rattle.std.specs.Prelude.{◌≡◌, true, false, Option, IfSome};
ghost use Rattle.ecdsa.specs.Curve.{Point as CurvePoint, sum_of};
ghost use Rattle.ecdsa.specs.Domains.{domain, Meet};
ghost use Rattle.ecdsa.specs.Field.{size, value, Below};
ghost use Rattle.ecdsa.specs.Residues.{HasInverse, NoInverse};
ghost use Rattle.ecdsa.specs.Stands.{IsBelow, AreFor, Stands};

use crate::curve::Curve;
use crate::field::Field;
use crate::formulas::{chord, tangent};
use crate::point::Point;

/// Whether a number has no inverse.
pub fn lacks_inverse<const N: usize, const KIND: usize>(f: &Field<N, KIND>, z: [u64; N]) -> bool
    ensures lacks { result ≡ true → NoInverse (size f.now) (value f.now z.entry) }
    ensures has { result ≡ false → HasInverse (size f.now) (value f.now z.entry) }
{
    f.inverse(z).is_none()
}

/// Whether y is 0, and z has an inverse.
fn is_turning<const N: usize, const KIND: usize>(
    f: &Field<N, KIND>,
    y: [u64; N],
    z: [u64; N],
) -> bool
    requires { Below f.now y }
    ensures zero { result ≡ true → value f.now y.entry ≡ 0 }
    ensures has { result ≡ true → HasInverse (size f.now) (value f.now z.entry) }
    ensures lacks { result ≡ false → value f.now y.entry ≡ 0 → NoInverse (size f.now) (value f.now z.entry) }
{
    if !f.is_zero(y) {
        return false;
    }
    let lacks = lacks_inverse(f, z);
    !lacks
}

/// The double of a finite point; None is infinity.
pub fn double_finite<const N: usize, const KIND: usize>(
    curve: &Curve<N, KIND>,
    p: Point<N>,
) -> Option<Point<N>>
    requires { IsBelow curve.now.field p }
    ensures below { IfSome result (λ q. IsBelow curve.now.field q) }
    ensures stands { (R : Option CurvePoint) → AreFor (size curve.now.field) (value curve.now.field p.entry.x) (value curve.now.field p.entry.y) (value curve.now.field p.entry.z) R → Stands curve.now.field result (sum_of (domain curve.now) R R) }
{
    let f = &curve.field;
    let x = p.x;
    let y = p.y;
    let z = p.z;
    if is_turning(f, y, z) {
        return None;
    }
    Some(tangent(f, Point { x, y, z }))
}

/// The sum of two points over one z: p, and that of x and y over the z of p.
pub fn add_over<const N: usize, const KIND: usize>(
    curve: &Curve<N, KIND>,
    p: Point<N>,
    x: [u64; N],
    y: [u64; N],
) -> Option<Point<N>>
    requires p { IsBelow curve.now.field p }
    requires x { Below curve.now.field x }
    requires y { Below curve.now.field y }
    ensures below { IfSome result (λ q. IsBelow curve.now.field q) }
    ensures stands { (left right : Option CurvePoint) → Meet (domain curve.now) (value curve.now.field p.entry.x) (value curve.now.field p.entry.y) (value curve.now.field x.entry) (value curve.now.field y.entry) (value curve.now.field p.entry.z) left right → Stands curve.now.field result (sum_of (domain curve.now) left right) }
{
    let f = &curve.field;
    let u = p.x;
    let s = p.y;
    let z = p.z;
    let h = f.minus(x, u);
    let r = f.minus(y, s);
    if !f.is_zero(h) {
        return Some(chord(f, Point { x: u, y: s, z }, h, r));
    }
    if lacks_inverse(f, z) {
        return Some(Point { x: z, y: z, z });
    }
    if f.is_zero(r) {
        return double_finite(curve, Point { x: u, y: s, z });
    }
    let sum = f.plus(s, y);
    if f.is_zero(sum) {
        return None;
    }
    Some(Point { x: h, y: h, z: h })
}

/// The double.
pub fn double<const N: usize, const KIND: usize>(
    curve: &Curve<N, KIND>,
    p: Option<Point<N>>,
) -> Option<Point<N>>
    requires { IfSome p (λ q. IsBelow curve.now.field q) }
    ensures below { IfSome result (λ q. IsBelow curve.now.field q) }
    ensures stands { (R : Option CurvePoint) → Stands curve.now.field p.entry R → Stands curve.now.field result (sum_of (domain curve.now) R R) }
{
    match p {
        None => None,
        Some(p) => double_finite(curve, p),
    }
}

/// The sum of two finite points that have z = 1.
pub fn add_pair<const N: usize, const KIND: usize>(
    curve: &Curve<N, KIND>,
    p: Point<N>,
    q: Point<N>,
) -> Option<Point<N>>
    requires p { IsBelow curve.now.field p }
    requires q { IsBelow curve.now.field q }
    requires one { value curve.now.field p.z ≡ 1 }
    requires one_too { value curve.now.field q.z ≡ 1 }
    ensures below { IfSome result (λ q. IsBelow curve.now.field q) }
    ensures stands { (left right : Option CurvePoint) → AreFor (size curve.now.field) (value curve.now.field p.entry.x) (value curve.now.field p.entry.y) (value curve.now.field p.entry.z) left → AreFor (size curve.now.field) (value curve.now.field q.entry.x) (value curve.now.field q.entry.y) (value curve.now.field q.entry.z) right → Stands curve.now.field result (sum_of (domain curve.now) left right) }
{
    add_over(curve, p, q.x, q.y)
}

/// The sum of two finite points, of which the second has z = 1.
fn add_two_affine<const N: usize, const KIND: usize>(
    curve: &Curve<N, KIND>,
    p: Point<N>,
    q: Point<N>,
) -> Option<Point<N>>
    requires p { IsBelow curve.now.field p }
    requires q { IsBelow curve.now.field q }
    requires one { value curve.now.field q.z ≡ 1 }
    ensures below { IfSome result (λ q. IsBelow curve.now.field q) }
    ensures stands { (left right : Option CurvePoint) → AreFor (size curve.now.field) (value curve.now.field p.entry.x) (value curve.now.field p.entry.y) (value curve.now.field p.entry.z) left → AreFor (size curve.now.field) (value curve.now.field q.entry.x) (value curve.now.field q.entry.y) (value curve.now.field q.entry.z) right → Stands curve.now.field result (sum_of (domain curve.now) left right) }
{
    let f = &curve.field;
    let zz = f.square(p.z);
    let zzz = f.times(zz, p.z);
    let u2 = f.times(q.x, zz);
    let s2 = f.times(q.y, zzz);
    add_over(curve, p, u2, s2)
}

/// The sum with a finite point that has z = 1.
pub fn add_affine<const N: usize, const KIND: usize>(
    curve: &Curve<N, KIND>,
    p: Option<Point<N>>,
    q: Point<N>,
) -> Option<Point<N>>
    requires p { IfSome p (λ q. IsBelow curve.now.field q) }
    requires q { IsBelow curve.now.field q }
    requires one { value curve.now.field q.z ≡ 1 }
    ensures below { IfSome result (λ q. IsBelow curve.now.field q) }
    ensures stands { (left right : Option CurvePoint) → Stands curve.now.field p.entry left → AreFor (size curve.now.field) (value curve.now.field q.entry.x) (value curve.now.field q.entry.y) (value curve.now.field q.entry.z) right → Stands curve.now.field result (sum_of (domain curve.now) left right) }
{
    match p {
        None => Some(q),
        Some(p) => add_two_affine(curve, p, q),
    }
}

/// The sum of two finite points.
fn add_two<const N: usize, const KIND: usize>(
    curve: &Curve<N, KIND>,
    p: Point<N>,
    q: Point<N>,
) -> Option<Point<N>>
    requires p { IsBelow curve.now.field p }
    requires q { IsBelow curve.now.field q }
    ensures below { IfSome result (λ q. IsBelow curve.now.field q) }
    ensures stands { (left right : Option CurvePoint) → AreFor (size curve.now.field) (value curve.now.field p.entry.x) (value curve.now.field p.entry.y) (value curve.now.field p.entry.z) left → AreFor (size curve.now.field) (value curve.now.field q.entry.x) (value curve.now.field q.entry.y) (value curve.now.field q.entry.z) right → Stands curve.now.field result (sum_of (domain curve.now) left right) }
{
    let f = &curve.field;
    let zz1 = f.square(p.z);
    let zzz1 = f.times(zz1, p.z);
    let zz2 = f.square(q.z);
    let zzz2 = f.times(zz2, q.z);
    let u1 = f.times(p.x, zz2);
    let s1 = f.times(p.y, zzz2);
    let u2 = f.times(q.x, zz1);
    let s2 = f.times(q.y, zzz1);
    let z = f.times(p.z, q.z);
    add_over(curve, Point { x: u1, y: s1, z }, u2, s2)
}

/// The sum with a finite point.
fn add_finite<const N: usize, const KIND: usize>(
    curve: &Curve<N, KIND>,
    p: Point<N>,
    q: Option<Point<N>>,
) -> Option<Point<N>>
    requires p { IsBelow curve.now.field p }
    requires q { IfSome q (λ q. IsBelow curve.now.field q) }
    ensures below { IfSome result (λ q. IsBelow curve.now.field q) }
    ensures stands { (left right : Option CurvePoint) → AreFor (size curve.now.field) (value curve.now.field p.entry.x) (value curve.now.field p.entry.y) (value curve.now.field p.entry.z) left → Stands curve.now.field q.entry right → Stands curve.now.field result (sum_of (domain curve.now) left right) }
{
    match q {
        None => Some(p),
        Some(q) => add_two(curve, p, q),
    }
}

/// The sum.
pub fn add<const N: usize, const KIND: usize>(
    curve: &Curve<N, KIND>,
    p: Option<Point<N>>,
    q: Option<Point<N>>,
) -> Option<Point<N>>
    requires p { IfSome p (λ q. IsBelow curve.now.field q) }
    requires q { IfSome q (λ q. IsBelow curve.now.field q) }
    ensures below { IfSome result (λ q. IsBelow curve.now.field q) }
    ensures stands { (left right : Option CurvePoint) → Stands curve.now.field p.entry left → Stands curve.now.field q.entry right → Stands curve.now.field result (sum_of (domain curve.now) left right) }
{
    match p {
        None => q,
        Some(p) => add_finite(curve, p, q),
    }
}
