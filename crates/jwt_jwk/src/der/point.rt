//! Points (RFC 5480, section 2.2; RFC 8410, section 4).

ghost use Rattle.std.specs.Prelude.{◌≡◌};
ghost use Rattle.jwt_jwk.specs.der.Der.{coordinate_size, point_size};
ghost use Rattle.jwt_jwk.specs.der.Reading.{AgreesWith, ec_of, okp_of, point_fault};

use crate::der::refusal::Refusal;
use jwt_mac::{EcCurve, EdCurve};

/// The octets of a coordinate.
fn coordinate_size(curve: EcCurve) -> usize
    ensures { result ≡ coordinate_size curve }
{
    match curve {
        EcCurve::P256 => 32,
        EcCurve::P384 => 48,
        EcCurve::P521 => 66,
    }
}

/// The octets of a key.
fn point_size(curve: EdCurve) -> usize
    ensures { result ≡ point_size curve }
{
    match curve {
        EdCurve::Ed25519 => 32,
        EdCurve::Ed448 => 57,
    }
}

/// Why a point that begins so is refused.
fn point_fault(first: u8) -> Refusal
    ensures { result ≡ point_fault first }
{
    if first == 2 || first == 3 {
        Refusal::Compressed
    } else {
        Refusal::Point
    }
}

/// The coordinates of an uncompressed point.
#[tactic(auto, unfolding(crate::specs::der::Reading::ec_of))]
pub fn ec_of(curve: EcCurve, octets: &[u8]) -> Result<(&[u8], &[u8]), Refusal>
    ensures { AgreesWith (λ x. (x.0.now, x.1.now)) result (ec_of curve octets.now) }
{
    match octets {
        [] => Err(Refusal::Point),
        [first, rest @ ..] => {
            let size = coordinate_size(curve);
            if *first == 4 && rest.len() == 2 * size {
                Ok(rest.split_at(size))
            } else {
                Err(point_fault(*first))
            }
        }
    }
}

/// The octets of a key, if they are of its size.
#[tactic(auto, unfolding(crate::specs::der::Reading::okp_of))]
pub fn okp_of(curve: EdCurve, octets: &[u8]) -> Result<&[u8], Refusal>
    ensures { AgreesWith (λ x. x.now) result (okp_of curve octets.now) }
{
    if octets.len() == point_size(curve) {
        Ok(octets)
    } else {
        Err(Refusal::Point)
    }
}
