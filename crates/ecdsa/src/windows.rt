//! Multiples of a point by a table of its windows: what each value of each hexadecimal digit adds to the multiple.

ghost use Rattle.std.specs.Prelude.{◌≡◌, ◌≢◌, ◌+◌, ◌*◌, ◌/◌, ◌%◌, ◌^◌, ◌<◌, ℕ, [], get_or, Option, Some, None, IfSome, IfOk, length};
ghost use Rattle.numbers.specs.Digits.{doublings};
ghost use Rattle.numbers.specs.Limbs.{number};
ghost use Rattle.ecdsa.specs.Curve.{Point as CurvePoint, sum_of, doubled, digit_multiple, multiple};
ghost use Rattle.ecdsa.specs.Domains.{domain};
ghost use Rattle.ecdsa.specs.Field.{size, value, Below};
ghost use Rattle.ecdsa.specs.Stands.{IsBelow, AreFor, Stands};
ghost use Rattle.ecdsa.specs.Windows.{AreBelow, AreWindows, AreRows, AreRough, IsChained};

use crate::curve::Curve;
use crate::field::Field;
use crate::multiples::{Digit, lowest_digit};
use crate::point::Point;
use crate::sums::{add, add_affine, double};
use numbers::highest_power;
use std::alloc::{AllocError, Global};

/// The table of a point: the coordinates of its windows, sixteen places for each digit, of which that of 0 isn't used.
#[derive(Drop)]
pub struct Windows<const N: usize> {
    pub xs: Vec<[u64; N]>,
    pub ys: Vec<[u64; N]>,
}

/// What stands at a place.
fn at<const N: usize>(xs: &[[u64; N]], k: usize) -> [u64; N]
    requires { k < length xs.now }
    ensures { result ≡ get_or xs.now k [] }
{
    xs[k]
}

/// The coordinates of a finite point with z = 1, by the inverse i of its z.
fn settled<const N: usize, const KIND: usize>(
    f: &Field<N, KIND>,
    x: [u64; N],
    y: [u64; N],
    i: [u64; N],
) -> ([u64; N], [u64; N])
    requires x { Below f.now x }
    requires y { Below f.now y }
    requires i { Below f.now i }
    ensures x { Below f.now result.0 }
    ensures y { Below f.now result.1 }
    ensures stands { (Z : ℕ) (R : Option CurvePoint) → (Z * value f.now i.entry) % size f.now ≡ 1 → AreFor (size f.now) (value f.now x.entry) (value f.now y.entry) Z R → AreFor (size f.now) (value f.now result.0) (value f.now result.1) 1 R }
{
    let ii = f.times(i, i);
    let iii = f.times(ii, i);
    let settled_x = f.times(x, ii);
    let settled_y = f.times(y, iii);
    (settled_x, settled_y)
}

/// The windows so far, as they are summed, before z is 1: the coordinates of each.
#[derive(Clone, Copy)]
struct Rows<'a, const N: usize> {
    xs: &'a [[u64; N]],
    ys: &'a [[u64; N]],
    zs: &'a [[u64; N]],
}

/// The window of a place by those before it: the sum of that of the digit without its highest bit and the double of that bit. At a
/// digit 0 it is any point.
fn window_from<const N: usize, const KIND: usize>(
    curve: &Curve<N, KIND>,
    rows: Rows<'_, N>,
    k: usize,
    double: &Option<Point<N>>,
    one: [u64; N],
) -> Option<Point<N>>
    requires rows { AreRows curve.now.field k rows.xs.now rows.ys.now rows.zs.now }
    requires double { IfSome double.now (λ q. IsBelow curve.now.field q) }
    requires one { Below curve.now.field one }
    ensures below { IfSome result (λ q. IsBelow curve.now.field q) }
    ensures stands { (P : CurvePoint) → AreRough curve.now.field (domain curve.now) P k rows.entry.xs.now rows.entry.ys.now rows.entry.zs.now → Stands curve.now.field double.now (doubled (domain curve.now) (doublings k) P) → k % 16 ≢ 0 → Stands curve.now.field result (digit_multiple (domain curve.now) (4 * (k / 16)) 4 (k % 16) P) }
{
    let digit = k % 16;
    if digit == 0 {
        return Some(Point {
            x: one,
            y: one,
            z: one,
        });
    }
    let power = highest_power(digit);
    if digit == power {
        return *double;
    }
    let before = k - power;
    let x = at(rows.xs, before);
    let y = at(rows.ys, before);
    let z = at(rows.zs, before);
    add(curve, Some(Point { x, y, z }), *double)
}

/// The double for the next place: doubled once more behind the last window that has its bit as the highest.
fn next_double<const N: usize, const KIND: usize>(
    curve: &Curve<N, KIND>,
    k: usize,
    p: Option<Point<N>>,
) -> Option<Point<N>>
    requires p { IfSome p (λ q. IsBelow curve.now.field q) }
    requires k { k < 2 ^ 32 }
    ensures below { IfSome result (λ q. IsBelow curve.now.field q) }
    ensures stands { (P : CurvePoint) → Stands curve.now.field p.entry (doubled (domain curve.now) (doublings k) P) → Stands curve.now.field result (doubled (domain curve.now) (doublings (k + 1)) P) }
{
    let digit = k % 16;
    if digit + 1 == 2 * highest_power(digit) {
        return double(curve, p);
    }
    p
}

/// The windows as they are summed, before z is 1, and before each the product of the z of those before it.
#[derive(Drop)]
struct Rough<const N: usize> {
    xs: Vec<[u64; N]>,
    ys: Vec<[u64; N]>,
    zs: Vec<[u64; N]>,
    products: Vec<[u64; N]>,
}

/// So many windows of a finite point as they are summed; None where one of them isn't finite.
fn rough_windows<const N: usize, const KIND: usize>(
    alloc: Global,
    curve: &Curve<N, KIND>,
    p: Point<N>,
    count: usize,
) -> Result<Option<Rough<N>>, AllocError>
    requires p { IsBelow curve.now.field p }
    requires count { count < 2 ^ 32 }
    ensures rows { IfOk result (λ made. IfSome made (λ rough. AreRows curve.now.field count rough.xs.items rough.ys.items rough.zs.items)) }
    ensures chained { IfOk result (λ made. IfSome made (λ rough. IsChained curve.now.field count rough.zs.items rough.products.items)) }
    ensures windows { (P : CurvePoint) → AreFor (size curve.now.field) (value curve.now.field p.entry.x) (value curve.now.field p.entry.y) (value curve.now.field p.entry.z) (Some P) → IfOk result (λ made. IfSome made (λ rough. AreRough curve.now.field (domain curve.now) P count rough.xs.items rough.ys.items rough.zs.items)) }
{
    let f = &curve.field;
    let one = f.one();
    let mut xs = Vec::with_capacity(alloc, count)?;
    let mut ys = Vec::with_capacity(alloc, count)?;
    let mut zs = Vec::with_capacity(alloc, count)?;
    let mut products = Vec::with_capacity(alloc, count + 1)?;
    let mut product = f.one();
    products.push(product)?;
    let mut double = Some(p);
    'rows: for k in 0..count {
        let rows = Rows {
            xs: xs.as_slice(),
            ys: ys.as_slice(),
            zs: zs.as_slice(),
        };
        let Some(window) = window_from(curve, rows, k, &double, one) else {
            return Ok(None);
        };
        let x = window.x;
        let y = window.y;
        let z = window.z;
        xs.push(x)?;
        ys.push(y)?;
        zs.push(z)?;
        product = f.times(product, z);
        products.push(product)?;
        double = next_double(curve, k, double);
    }
    Ok(Some(Rough {
        xs,
        ys,
        zs,
        products,
    }))
}

/// The table of a finite point; None where one of its windows isn't finite. One inverse serves for all: that of the product of each
/// z.
pub fn make_windows<const N: usize, const KIND: usize>(
    alloc: Global,
    curve: &Curve<N, KIND>,
    p: Point<N>,
) -> Result<Option<Windows<N>>, AllocError>
    requires p { IsBelow curve.now.field p }
    ensures below { IfOk result (λ made. IfSome made (λ table. AreBelow (domain curve.now) table.xs.items table.ys.items)) }
    ensures windows { (P : CurvePoint) → AreFor (size curve.now.field) (value curve.now.field p.entry.x) (value curve.now.field p.entry.y) (value curve.now.field p.entry.z) (Some P) → IfOk result (λ made. IfSome made (λ table. AreWindows N (domain curve.now) P table.xs.items table.ys.items)) }
{
    let f = &curve.field;
    let count = 16 * curve.digits;
    let Some(rough) = rough_windows(alloc, curve, p, count)? else {
        return Ok(None);
    };
    let whole = at(rough.products.as_slice(), count);
    let Some(first) = f.inverse(whole) else {
        return Ok(None);
    };
    let mut inverse = first;
    let mut xs = Vec::with_capacity(alloc, count)?;
    let mut ys = Vec::with_capacity(alloc, count)?;
    'rows: for r in 0..count {
        let k = count - 1 - r;
        let z = at(rough.zs.as_slice(), k);
        let before = at(rough.products.as_slice(), k);
        let i = f.times(inverse, before);
        inverse = f.times(inverse, z);
        let (x, y) = settled(f, at(rough.xs.as_slice(), k), at(rough.ys.as_slice(), k), i);
        xs.push(x)?;
        ys.push(y)?;
    }
    xs.reverse();
    ys.reverse();
    Ok(Some(Windows { xs, ys }))
}

/// The window of the table at a place.
fn window_at<const N: usize, const KIND: usize>(
    curve: &Curve<N, KIND>,
    windows: &Windows<N>,
    k: usize,
    one: [u64; N],
) -> Point<N>
    requires rows { AreBelow (domain curve.now) windows.now.xs.items windows.now.ys.items }
    requires k { k < 16 * curve.now.digits }
    requires below { Below curve.now.field one }
    requires one { value curve.now.field one ≡ 1 }
    ensures below { IsBelow curve.now.field result }
    ensures one { value curve.now.field result.z ≡ 1 }
    ensures stands { (P : CurvePoint) → AreWindows N (domain curve.now) P windows.now.xs.items windows.now.ys.items → k % 16 ≢ 0 → AreFor (size curve.now.field) (value curve.now.field result.x) (value curve.now.field result.y) (value curve.now.field result.z) (digit_multiple (domain curve.now) (4 * (k / 16)) 4 (k % 16) P) }
{
    let x = at(windows.xs.as_slice(), k);
    let y = at(windows.ys.as_slice(), k);
    Point { x, y, z: one }
}

/// The sum with what a digit adds to the multiple, of the table.
fn next<const N: usize, const KIND: usize>(
    curve: &Curve<N, KIND>,
    windows: &Windows<N>,
    sum: Option<Point<N>>,
    digit: Digit,
    one: [u64; N],
) -> Option<Point<N>>
    requires rows { AreBelow (domain curve.now) windows.now.xs.items windows.now.ys.items }
    requires place { digit.place < curve.now.digits }
    requires digit { digit.value < 16 }
    requires sum { IfSome sum (λ q. IsBelow curve.now.field q) }
    requires below { Below curve.now.field one }
    requires one { value curve.now.field one ≡ 1 }
    ensures below { IfSome result (λ q. IsBelow curve.now.field q) }
    ensures stands { (P : CurvePoint) (R : Option CurvePoint) → AreWindows N (domain curve.now) P windows.now.xs.items windows.now.ys.items → Stands curve.now.field sum.entry R → Stands curve.now.field result (sum_of (domain curve.now) R (digit_multiple (domain curve.now) (4 * digit.place) 4 digit.value P)) }
{
    if digit.value == 0 {
        return sum;
    }
    let window = window_at(curve, windows, 16 * digit.place + digit.value, one);
    add_affine(curve, sum, window)
}

/// The multiple of a point by its table.
pub fn window_multiple<const N: usize, const KIND: usize>(
    curve: &Curve<N, KIND>,
    windows: &Windows<N>,
    u: [u64; N],
) -> Option<Point<N>>
    requires rows { AreBelow (domain curve.now) windows.now.xs.items windows.now.ys.items }
    ensures below { IfSome result (λ q. IsBelow curve.now.field q) }
    ensures stands { (P : CurvePoint) → AreWindows N (domain curve.now) P windows.now.xs.items windows.now.ys.items → Stands curve.now.field result (multiple (domain curve.now) curve.now.digits (number u.entry) P) }
{
    let mut sum = None;
    let mut rest = u;
    let digits = curve.digits;
    let one = curve.field.one();
    'digits: for place in 0..digits {
        let split = lowest_digit(rest);
        let digit = Digit {
            place,
            value: split.lowest,
        };
        sum = next(curve, windows, sum, digit, one);
        rest = split.rest;
    }
    sum
}
