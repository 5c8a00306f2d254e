//! Multiples of a point by a table of its windows: what each value of each hexadecimal digit adds to the multiple.

ghost use Rattle.std.specs.Prelude.{◌≡◌, ◌+◌, ◌*◌, ◌/◌, ◌%◌, ◌<◌, ◌^◌, length, get_or, None, IfOk};
ghost use Rattle.numbers.specs.Digits.{doublings};
ghost use Rattle.jwt_ed25519.specs.Elements.{coordinates, summed};
ghost use Rattle.jwt_ed25519.specs.Limbs.{number};
ghost use Rattle.jwt_ed25519.specs.Points.{Coordinates, doubled, digit_multiple, multiple};
ghost use Rattle.jwt_ed25519.specs.Windows.{AreWindows};

use crate::limbs::Limbs;
use crate::multiples::{lowest_digit, sum};
use crate::point::EdwardsPoint;
use numbers::highest_power;
use std::alloc::{AllocError, Global};

/// The table of a point: sixteen windows for each of 64 digits; those of a digit 0 are none.
#[derive(Drop)]
pub struct Windows {
    pub table: Vec<Option<EdwardsPoint>>,
    pub ghost long: { length table.items ≡ 1024 },
}

/// What stands at a place.
fn at(table: &[Option<EdwardsPoint>], k: usize) -> Option<EdwardsPoint>
    requires { k < length table.now }
    ensures { result ≡ get_or table.now k None }
{
    table[k]
}

/// The window of a place by those before it: the sum of that of the digit without its highest bit and the double of that bit.
fn window_from(
    table: &[Option<EdwardsPoint>],
    k: usize,
    double: EdwardsPoint,
) -> Option<EdwardsPoint>
    requires { length table.now ≡ k }
    ensures { (P : Coordinates) → AreWindows k P table.now → coordinates double ≡ doubled (doublings k) P → summed result ≡ digit_multiple (4 * (k / 16)) 4 (k % 16) P }
{
    let digit = k % 16;
    if digit == 0 {
        return None;
    }
    let power = highest_power(digit);
    let before = at(table, k - power);
    sum(before, Some(double))
}

/// The double for the next place: doubled once more behind the last window that has its bit as the highest.
fn next_double(k: usize, p: EdwardsPoint) -> EdwardsPoint
    requires { k < 2 ^ 32 }
    ensures { (P : Coordinates) → coordinates p ≡ doubled (doublings k) P → coordinates result ≡ doubled (doublings (k + 1)) P }
{
    let digit = k % 16;
    if digit + 1 == 2 * highest_power(digit) {
        return p.double();
    }
    p
}

/// The table of a point.
pub fn make_windows(alloc: Global, p: EdwardsPoint) -> Result<Windows, AllocError>
    ensures { IfOk result (λ windows. AreWindows 1024 (coordinates p) windows.table.items) }
{
    let mut table = Vec::new(alloc);
    let mut double = p;
    'rows: for k in 0..1024usize {
        let window = window_from(table.as_slice(), k, double);
        table.push(window)?;
        double = next_double(k, double);
    }
    Ok(Windows { table })
}

/// The multiple of a point by its table.
pub fn window_multiple(windows: &Windows, scalar: Limbs) -> Option<EdwardsPoint>
    ensures { (P : Coordinates) → AreWindows 1024 P windows.now.table.items → summed result ≡ multiple (number scalar) P }
{
    let mut total = None;
    let mut rest = scalar;
    'digits: for place in 0..64usize {
        let split = lowest_digit(rest);
        let here = at(windows.table.as_slice(), 16 * place + split.lowest);
        total = sum(total, here);
        rest = split.rest;
    }
    total
}
