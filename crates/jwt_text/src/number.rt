//! The number that a text writes.
ghost use Rattle.std.specs.Prelude.{◌≡◌, ◌==◌, ◌<◌, length, slice_index, IsTrue, true, false, option_map};
ghost use Rattle.serde_json.specs.Read.{number_of, number_from, float_of};
ghost use Rattle.jwt_text.specs.Kinds.{num_of, node_of};

use crate::node::Node;
use fast_float::Numeral;

/// A number: a whole one within 64 bits, or the nearest float.
#[derive(Clone, Copy, Drop)]
pub(crate) enum Number {
    Unsigned(u64),
    Negative(i64),
    Float(f64),
}

/// The node of a number.
#[inline(always)]
pub(crate) fn node_of(number: Number) -> Node
    ensures { result ≡ node_of number }
{
    match number {
        Number::Unsigned(n) => Node::Unsigned(n),
        Number::Negative(n) => Node::Negative(n),
        Number::Float(x) => Node::Float(x),
    }
}

/// The number that a JSON number writes; `None` where it rounds to infinity.
#[inline(always)]
pub(crate) fn parse_number(text: &str) -> Option<Number>
    ensures { option_map num_of result ≡ number_of text.now }
{
    let octets = text.as_bytes();
    if has_minus(octets) {
        below_zero(&Numeral::scan(&octets[1..]))
    } else {
        above_zero(&Numeral::scan(octets))
    }
}

/// The number without a minus sign; `None` where it is too great for a float.
#[inline(always)]
fn above_zero(numeral: &Numeral<'_>) -> Option<Number>
    ensures { option_map num_of result ≡ number_from false numeral.now }
{
    match numeral.to_u64() {
        Some(n) => Some(Number::Unsigned(n)),
        None => nearest(false, numeral),
    }
}

/// The number behind a minus sign; `None` where it is too great for a float.
#[inline(always)]
fn below_zero(numeral: &Numeral<'_>) -> Option<Number>
    ensures { option_map num_of result ≡ number_from true numeral.now }
{
    if let Some(n) = numeral.to_i64(true) {
        if n < 0 {
            return Some(Number::Negative(n));
        }
    }
    nearest(true, numeral)
}

/// The nearest float, `None` where that isn't finite.
#[inline(always)]
fn nearest(negative: bool, numeral: &Numeral<'_>) -> Option<Number>
    ensures { option_map num_of result ≡ float_of negative numeral.now }
{
    let float = numeral.to_float::<f64>(negative);
    if float.is_finite() {
        Some(Number::Float(float))
    } else {
        None
    }
}

/// Whether the first octet is a minus sign.
#[inline(always)]
fn has_minus(octets: &[u8]) -> bool
    ensures value { result ≡ (slice_index octets.now 0 == 45) }
    ensures len { IsTrue result → 0 < length octets.now }
{
    !octets.is_empty() && octets[0] == b'-'
}
