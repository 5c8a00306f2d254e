//! Multiples of a point, by the scalar's hexadecimal digits from the lowest.

ghost use Rattle.std.specs.Prelude.{◌≡◌, ℕ, ◌+◌, ◌*◌, ◌<◌, Option, Some, IfSome, if◌then◌else◌};
ghost use Rattle.numbers.specs.Limbs.{number};
ghost use Rattle.ecdsa.specs.Curve.{Point as CurvePoint, sum_of, doubled, digit_multiple, multiple};
ghost use Rattle.ecdsa.specs.Domains.{domain};
ghost use Rattle.ecdsa.specs.Field.{size, value};
ghost use Rattle.ecdsa.specs.Stands.{IsBelow, AreFor, Stands};

use crate::curve::Curve;
use crate::limbs::halve;
use crate::point::Point;
use crate::sums::{add, double};

/// A number by 16, and the digit that is left.
#[derive(Clone, Copy)]
pub struct Digits<const N: usize> {
    pub rest: [u64; N],
    pub lowest: usize,
}

/// A hexadecimal digit of a scalar, and its place, from the lowest.
#[derive(Clone, Copy)]
pub struct Digit {
    pub place: usize,
    pub value: usize,
}

/// The lowest hexadecimal digit, and the number of the others.
pub fn lowest_digit<const N: usize>(a: [u64; N]) -> Digits<N>
    requires { 0 < N }
    ensures split { number a.entry ≡ 16 * number result.rest + result.lowest }
    ensures below { result.lowest < 16 }
{
    let (half, one) = halve(a);
    let (quarter, two) = halve(half);
    let (eighth, four) = halve(quarter);
    let (rest, eight) = halve(eighth);
    let low = one as usize + 2 * (two as usize);
    let high = 4 * (four as usize) + 8 * (eight as usize);
    Digits {
        rest,
        lowest: low + high,
    }
}

/// The sum with a point where the bit is set.
fn sum_where<const N: usize, const KIND: usize>(
    curve: &Curve<N, KIND>,
    set: bool,
    p: Option<Point<N>>,
    q: &Option<Point<N>>,
) -> Option<Point<N>>
    requires p { IfSome p (λ q. IsBelow curve.now.field q) }
    requires q { IfSome q.now (λ q. IsBelow curve.now.field q) }
    ensures below { IfSome result (λ q. IsBelow curve.now.field q) }
    ensures stands { (left right : Option CurvePoint) → Stands curve.now.field p.entry left → Stands curve.now.field q.now right → Stands curve.now.field result (if set then sum_of (domain curve.now) left right else left) }
{
    if set {
        return add(curve, p, *q);
    }
    p
}

/// What a digit adds to a multiple, and the point doubled four times more, for the next digit.
#[derive(Clone, Copy)]
struct Summed<const N: usize> {
    sum: Option<Point<N>>,
    next: Option<Point<N>>,
}

/// The digit's multiple of a point: the sum of its doubles whose bit is set, from the lowest.
fn step<const N: usize, const KIND: usize>(
    curve: &Curve<N, KIND>,
    p: Option<Point<N>>,
    digit: usize,
) -> Summed<N>
    requires p { IfSome p (λ q. IsBelow curve.now.field q) }
    ensures sum_below { IfSome result.sum (λ q. IsBelow curve.now.field q) }
    ensures next_below { IfSome result.next (λ q. IsBelow curve.now.field q) }
    ensures sum { (P : CurvePoint) (times : ℕ) → Stands curve.now.field p.entry (doubled (domain curve.now) times P) → Stands curve.now.field result.sum (digit_multiple (domain curve.now) times 4 digit P) }
    ensures next { (P : CurvePoint) (times : ℕ) → Stands curve.now.field p.entry (doubled (domain curve.now) times P) → Stands curve.now.field result.next (doubled (domain curve.now) (times + 4) P) }
{
    let mut sum = None;
    let mut next = p;
    let mut rest = digit;
    'bits: for _bit in 0..4usize {
        sum = sum_where(curve, rest % 2 == 1, sum, &next);
        next = double(curve, next);
        rest = rest / 2;
    }
    Summed { sum, next }
}

/// The multiple of a finite point.
pub fn multiple<const N: usize, const KIND: usize>(
    curve: &Curve<N, KIND>,
    u: [u64; N],
    p: Point<N>,
) -> Option<Point<N>>
    requires p { IsBelow curve.now.field p }
    ensures below { IfSome result (λ q. IsBelow curve.now.field q) }
    ensures stands { (P : CurvePoint) → AreFor (size curve.now.field) (value curve.now.field p.entry.x) (value curve.now.field p.entry.y) (value curve.now.field p.entry.z) (Some P) → Stands curve.now.field result (multiple (domain curve.now) curve.now.digits (number u.entry) P) }
{
    let mut sum = None;
    let mut rest = u;
    let mut point = Some(p);
    let digits = curve.digits;
    'digits: for _place in 0..digits {
        let split = lowest_digit(rest);
        let here = step(curve, point, split.lowest);
        sum = add(curve, sum, here.sum);
        point = here.next;
        rest = split.rest;
    }
    sum
}
