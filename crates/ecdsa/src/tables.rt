//! Multiples of the base point by a table of its doubles.

ghost use Rattle.std.specs.Prelude.{◌≡◌, ◌+◌, ◌*◌, ◌<◌, Option, IfSome, if◌then◌else◌};
ghost use Rattle.numbers.specs.Limbs.{number};
ghost use Rattle.ecdsa.specs.Curve.{Point as CurvePoint, Point.Affine, sum_of, doubled, digit_multiple, multiple};
ghost use Rattle.ecdsa.specs.Domains.{domain};
ghost use Rattle.ecdsa.specs.Doubles.{IsTable};
ghost use Rattle.ecdsa.specs.Field.{size, value, Below};
ghost use Rattle.ecdsa.specs.Stands.{IsBelow, AreFor, Stands};

use crate::curve::Curve;
use crate::multiples::{Digit, lowest_digit};
use crate::point::Point;
use crate::sums::{add, add_affine, add_pair};
use numbers::{highest_bit, highest_power};

/// The sum with a finite point where the bit is set.
fn next<const N: usize, const KIND: usize>(
    curve: &Curve<N, KIND>,
    p: Option<Point<N>>,
    set: bool,
    q: Point<N>,
) -> Option<Point<N>>
    requires p { IfSome p (λ q. IsBelow curve.now.field q) }
    requires q { IsBelow curve.now.field q }
    requires one { value curve.now.field q.z ≡ 1 }
    ensures below { IfSome result (λ q. IsBelow curve.now.field q) }
    ensures stands { (left right : Option CurvePoint) → Stands curve.now.field p.entry left → AreFor (size curve.now.field) (value curve.now.field q.entry.x) (value curve.now.field q.entry.y) (value curve.now.field q.entry.z) right → Stands curve.now.field result (if set then sum_of (domain curve.now) left right else left) }
{
    if set {
        return add_affine(curve, p, q);
    }
    p
}

/// The table of the doubles of a curve's base point: the coordinates of each.
#[derive(Clone, Copy)]
pub struct Doubles<'a, const N: usize> {
    pub xs: &'a [[u64; N]],
    pub ys: &'a [[u64; N]],
}

/// The base point doubled so often, of the table.
fn double_at<const N: usize, const KIND: usize>(
    curve: &Curve<N, KIND>,
    doubles: Doubles<'_, N>,
    i: usize,
    one: [u64; N],
) -> Point<N>
    requires table { IsTable curve.now.field (domain curve.now) doubles.xs.now doubles.ys.now }
    requires i { i < 4 * curve.now.digits }
    requires below { Below curve.now.field one }
    requires one { value curve.now.field one ≡ 1 }
    ensures below { IsBelow curve.now.field result }
    ensures one { value curve.now.field result.z ≡ 1 }
    ensures stands { AreFor (size curve.now.field) (value curve.now.field result.x) (value curve.now.field result.y) (value curve.now.field result.z) (doubled (domain curve.now) i (Affine (domain curve.now).gx (domain curve.now).gy)) }
{
    let xs = doubles.xs;
    let ys = doubles.ys;
    let x = xs[i];
    let y = ys[i];
    Point { x, y, z: one }
}

/// The sum of the doubles of the two lowest bits of a digit that are set: both have z = 1.
fn lower_half<const N: usize, const KIND: usize>(
    curve: &Curve<N, KIND>,
    doubles: Doubles<'_, N>,
    digit: Digit,
    one: [u64; N],
) -> Option<Point<N>>
    requires table { IsTable curve.now.field (domain curve.now) doubles.xs.now doubles.ys.now }
    requires place { digit.place < curve.now.digits }
    requires below { Below curve.now.field one }
    requires one { value curve.now.field one ≡ 1 }
    ensures below { IfSome result (λ q. IsBelow curve.now.field q) }
    ensures stands { Stands curve.now.field result (digit_multiple (domain curve.now) (4 * digit.place) 2 digit.value (Affine (domain curve.now).gx (domain curve.now).gy)) }
{
    let first = double_at(curve, doubles, 4 * digit.place, one);
    let second = double_at(curve, doubles, 4 * digit.place + 1, one);
    if digit.value % 2 == 0 {
        return next(curve, None, (digit.value / 2) % 2 == 1, second);
    }
    if (digit.value / 2) % 2 == 0 {
        return Some(first);
    }
    add_pair(curve, first, second)
}

/// What a digit of the scalar adds to the multiple of the base point: the sum of the doubles whose bit is set, from the lowest.
fn step<const N: usize, const KIND: usize>(
    curve: &Curve<N, KIND>,
    doubles: Doubles<'_, N>,
    digit: Digit,
    one: [u64; N],
) -> Option<Point<N>>
    requires table { IsTable curve.now.field (domain curve.now) doubles.xs.now doubles.ys.now }
    requires place { digit.place < curve.now.digits }
    requires below { Below curve.now.field one }
    requires one { value curve.now.field one ≡ 1 }
    ensures below { IfSome result (λ q. IsBelow curve.now.field q) }
    ensures stands { Stands curve.now.field result (digit_multiple (domain curve.now) (4 * digit.place) 4 digit.value (Affine (domain curve.now).gx (domain curve.now).gy)) }
{
    let mut sum = lower_half(curve, doubles, digit, one);
    let mut rest = digit.value / 4;
    'bits: for bit in 2..4usize {
        let double = double_at(curve, doubles, 4 * digit.place + bit, one);
        sum = next(curve, sum, rest % 2 == 1, double);
        rest = rest / 2;
    }
    sum
}

/// The sum with what a digit adds, which is one of the doubles where one bit is set.
fn next_digit<const N: usize, const KIND: usize>(
    curve: &Curve<N, KIND>,
    doubles: Doubles<'_, N>,
    sum: Option<Point<N>>,
    digit: Digit,
    one: [u64; N],
) -> Option<Point<N>>
    requires table { IsTable curve.now.field (domain curve.now) doubles.xs.now doubles.ys.now }
    requires sum { IfSome sum (λ q. IsBelow curve.now.field q) }
    requires place { digit.place < curve.now.digits }
    requires digit { digit.value < 16 }
    requires below { Below curve.now.field one }
    requires one { value curve.now.field one ≡ 1 }
    ensures below { IfSome result (λ q. IsBelow curve.now.field q) }
    ensures stands { (R : Option CurvePoint) → Stands curve.now.field sum.entry R → Stands curve.now.field result (sum_of (domain curve.now) R (digit_multiple (domain curve.now) (4 * digit.place) 4 digit.value (Affine (domain curve.now).gx (domain curve.now).gy))) }
{
    if digit.value == highest_power(digit.value) {
        let bit = highest_bit(digit.value);
        let double = double_at(curve, doubles, 4 * digit.place + bit, one);
        return add_affine(curve, sum, double);
    }
    let here = step(curve, doubles, digit, one);
    add(curve, sum, here)
}

/// The multiple of the base point.
pub fn base_multiple<const N: usize, const KIND: usize>(
    curve: &Curve<N, KIND>,
    doubles: Doubles<'_, N>,
    u: [u64; N],
) -> Option<Point<N>>
    requires table { IsTable curve.now.field (domain curve.now) doubles.xs.now doubles.ys.now }
    ensures below { IfSome result (λ q. IsBelow curve.now.field q) }
    ensures stands { Stands curve.now.field result (multiple (domain curve.now) curve.now.digits (number u.entry) (Affine (domain curve.now).gx (domain curve.now).gy)) }
{
    let mut sum = None;
    let mut rest = u;
    let digits = curve.digits;
    let one = curve.field.one();
    'digits: for place in 0..digits {
        let split = lowest_digit(rest);
        let digit = Digit {
            place,
            value: split.lowest,
        };
        sum = next_digit(curve, doubles, sum, digit, one);
        rest = split.rest;
    }
    sum
}
