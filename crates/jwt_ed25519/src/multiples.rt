//! Multiples of a point, by the scalar's hexadecimal digits from the lowest.

ghost use Rattle.std.specs.Prelude.{◌≡◌, ℕ, ◌+◌, ◌*◌, ◌<◌, Some, if◌then◌else◌};
ghost use Rattle.jwt_ed25519.specs.Elements.{coordinates, summed};
ghost use Rattle.jwt_ed25519.specs.Limbs.{number};
ghost use Rattle.jwt_ed25519.specs.Points.{Coordinates, sum_of, or_neutral, doubled, digit_multiple, multiple};

use crate::limbs::{Limbs, halve};
use crate::point::EdwardsPoint;

/// A number by 16, and the digit that is left.
#[derive(Clone, Copy)]
pub struct Digits {
    pub rest: Limbs,
    pub lowest: usize,
}

/// The lowest hexadecimal digit, and the number of the others.
pub fn lowest_digit(n: Limbs) -> Digits
    ensures split { number n ≡ 16 * number result.rest + result.lowest }
    ensures below { result.lowest < 16 }
{
    let (half, one) = halve(n);
    let (quarter, two) = halve(half);
    let (eighth, four) = halve(quarter);
    let (rest, eight) = halve(eighth);
    let low = one as usize + 2 * (two as usize);
    let high = 4 * (four as usize) + 8 * (eight as usize);
    Digits {
        rest,
        lowest: low + high,
    }
}

/// The sum of two points, of each of which there may be none.
pub fn sum(p: Option<EdwardsPoint>, q: Option<EdwardsPoint>) -> Option<EdwardsPoint>
    ensures { summed result ≡ sum_of (summed p) (summed q) }
{
    let Some(left) = p else {
        return q;
    };
    match q {
        None => Some(left),
        Some(right) => Some(left.add(right)),
    }
}

/// The point, or the neutral one where there is none.
pub fn or_neutral(p: Option<EdwardsPoint>) -> EdwardsPoint
    ensures { coordinates result ≡ or_neutral (summed p) }
{
    match p {
        None => EdwardsPoint::neutral(),
        Some(point) => point,
    }
}

/// The sum with a point where the bit is set.
fn sum_where(set: bool, p: Option<EdwardsPoint>, q: EdwardsPoint) -> Option<EdwardsPoint>
    ensures { summed result ≡ (if set then sum_of (summed p) (Some (coordinates q)) else summed p) }
{
    if set {
        return sum(p, Some(q));
    }
    p
}

/// What a digit adds to a multiple, and the point doubled four times more, for the next digit.
#[derive(Clone, Copy)]
struct Summed {
    sum: Option<EdwardsPoint>,
    next: EdwardsPoint,
}

/// The digit's multiple of a point: the sum of its doubles whose bit is set, from the lowest.
fn step(p: EdwardsPoint, digit: usize) -> Summed
    ensures sum { (P : Coordinates) (times : ℕ) → coordinates p ≡ doubled times P → summed result.sum ≡ digit_multiple times 4 digit P }
    ensures next { (P : Coordinates) (times : ℕ) → coordinates p ≡ doubled times P → coordinates result.next ≡ doubled (times + 4) P }
{
    let mut sum = None;
    let mut next = p;
    let mut rest = digit;
    'bits: for _bit in 0..4usize {
        sum = sum_where(rest % 2 == 1, sum, next);
        next = next.double();
        rest = rest / 2;
    }
    Summed { sum, next }
}

/// The multiple of a point.
pub fn multiple(p: EdwardsPoint, scalar: Limbs) -> Option<EdwardsPoint>
    ensures { summed result ≡ multiple (number scalar) (coordinates p) }
{
    let mut total = None;
    let mut rest = scalar;
    let mut point = p;
    'digits: for _place in 0..64usize {
        let split = lowest_digit(rest);
        let here = step(point, split.lowest);
        total = sum(total, here.sum);
        point = here.next;
        rest = split.rest;
    }
    total
}
