//! RSA keys (RFC 8017, appendix A.1.1).

ghost use Rattle.jwt_jwk.specs.der.Reading.{AgreesWith, within_size, behind_zero, der_number, rsa_of};

use crate::der::element::{element_at, whole_of};
use crate::der::refusal::Refusal;

/// The most octets of a number.
const MAX_OCTETS: usize = 4096;

/// These octets, if there are few enough.
fn within(octets: &[u8]) -> Result<&[u8], Refusal>
    ensures { AgreesWith (λ x. x.now) result (within_size octets.now) }
{
    if octets.len() > MAX_OCTETS {
        return Err(Refusal::Number);
    }
    Ok(octets)
}

/// The octets of a number that stands behind a zero octet.
fn behind_zero(octets: &[u8]) -> Result<&[u8], Refusal>
    ensures { AgreesWith (λ x. x.now) result (behind_zero octets.now) }
{
    match octets {
        [] => Err(Refusal::Number),
        [first, ..] => {
            if *first < 128 {
                return Err(Refusal::Number);
            }
            within(octets)
        }
    }
}

/// The octets of a number above 0, of its two's complement in the shortest form.
#[tactic(auto, unfolding(crate::specs::der::Reading::der_number))]
fn number_of(octets: &[u8]) -> Result<&[u8], Refusal>
    ensures { AgreesWith (λ x. x.now) result (der_number octets.now) }
{
    match octets {
        [] => Err(Refusal::Number),
        [first, rest @ ..] => {
            if *first == 0 {
                behind_zero(rest)
            } else if *first < 128 {
                within(octets)
            } else {
                Err(Refusal::Number)
            }
        }
    }
}

/// Modulus and exponent.
#[tactic(auto, unfolding(crate::specs::der::Reading::rsa_of))]
pub fn rsa_of(octets: &[u8]) -> Result<(&[u8], &[u8]), Refusal>
    ensures { AgreesWith (λ x. (x.0.now, x.1.now)) result (rsa_of octets.now) }
{
    let both = whole_of(48, octets)?;
    let (n, rest) = element_at(2, both)?;
    let e = whole_of(2, rest)?;
    let modulus = number_of(n)?;
    let exponent = number_of(e)?;
    Ok((modulus, exponent))
}
