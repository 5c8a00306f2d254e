//! Elements of DER (ITU-T X.690, section 8.1).

ghost use Rattle.jwt_jwk.specs.der.Reading.{AgreesWith, length_at, one_more, two_more, split_of, element_at, only_element, bits_of, algorithm_and_key};

use crate::der::refusal::Refusal;

/// A length of one more octet, and what follows.
fn one_more(octets: &[u8]) -> Result<(usize, &[u8]), Refusal>
    ensures { AgreesWith (λ x. (x.0, x.1.now)) result (one_more octets.now) }
{
    match octets {
        [] => Err(Refusal::Element),
        [a, rest @ ..] => {
            if *a < 128 {
                return Err(Refusal::Element);
            }
            Ok((*a as usize, rest))
        }
    }
}

/// A length of two more octets, and what follows.
fn two_more(octets: &[u8]) -> Result<(usize, &[u8]), Refusal>
    ensures { AgreesWith (λ x. (x.0, x.1.now)) result (two_more octets.now) }
{
    match octets {
        [] => Err(Refusal::Element),
        [_] => Err(Refusal::Element),
        [a, b, rest @ ..] => {
            if *a == 0 {
                return Err(Refusal::Element);
            }
            Ok((256 * *a as usize + *b as usize, rest))
        }
    }
}

/// A length in its shortest form, and what follows.
#[tactic(auto, unfolding(crate::specs::der::Reading::length_at))]
fn length_at(octets: &[u8]) -> Result<(usize, &[u8]), Refusal>
    ensures { AgreesWith (λ x. (x.0, x.1.now)) result (length_at octets.now) }
{
    match octets {
        [] => Err(Refusal::Element),
        [first, rest @ ..] => {
            if *first < 128 {
                Ok((*first as usize, rest))
            } else if *first == 129 {
                one_more(rest)
            } else if *first == 130 {
                two_more(rest)
            } else {
                Err(Refusal::Element)
            }
        }
    }
}

/// So many octets, and the rest.
fn split_of(n: usize, octets: &[u8]) -> Result<(&[u8], &[u8]), Refusal>
    ensures { AgreesWith (λ x. (x.0.now, x.1.now)) result (split_of n octets.now) }
{
    if octets.len() < n {
        return Err(Refusal::Element);
    }
    Ok(octets.split_at(n))
}

/// The contents of an element with this tag, and what follows.
#[tactic(auto, unfolding(crate::specs::der::Reading::element_at))]
pub fn element_at(tag: u8, octets: &[u8]) -> Result<(&[u8], &[u8]), Refusal>
    ensures { AgreesWith (λ x. (x.0.now, x.1.now)) result (element_at tag octets.now) }
{
    match octets {
        [] => Err(Refusal::Element),
        [first, rest @ ..] => {
            if *first != tag {
                return Err(Refusal::Element);
            }
            let (n, rest) = length_at(rest)?;
            split_of(n, rest)
        }
    }
}

/// The contents of an element with this tag that nothing follows.
#[tactic(auto, unfolding(crate::specs::der::Reading::only_element))]
pub fn whole_of(tag: u8, octets: &[u8]) -> Result<&[u8], Refusal>
    ensures { AgreesWith (λ x. x.now) result (only_element tag octets.now) }
{
    let (contents, rest) = element_at(tag, octets)?;
    if !rest.is_empty() {
        return Err(Refusal::Trailing);
    }
    Ok(contents)
}

/// The octets of a bit string without unused bits.
#[tactic(auto, unfolding(crate::specs::der::Reading::bits_of))]
fn bits_of(contents: &[u8]) -> Result<&[u8], Refusal>
    ensures { AgreesWith (λ x. x.now) result (bits_of contents.now) }
{
    match contents {
        [] => Err(Refusal::Bits),
        [unused, octets @ ..] => {
            if *unused != 0 {
                return Err(Refusal::Bits);
            }
            Ok(octets)
        }
    }
}

/// The algorithm and the octets of the key.
#[tactic(auto, unfolding(crate::specs::der::Reading::algorithm_and_key))]
pub fn parts_of(octets: &[u8]) -> Result<(&[u8], &[u8]), Refusal>
    ensures { AgreesWith (λ x. (x.0.now, x.1.now)) result (algorithm_and_key octets.now) }
{
    let info = whole_of(48, octets)?;
    let (algorithm, rest) = element_at(48, info)?;
    let bits = whole_of(3, rest)?;
    let key = bits_of(bits)?;
    Ok((algorithm, key))
}
