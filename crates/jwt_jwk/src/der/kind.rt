//! The kinds of keys, by their algorithms.

ghost use Rattle.std.specs.Prelude.{◌≡◌, ◌==◌};
ghost use Rattle.std.specs.List.{starts_with};
ghost use Rattle.std.specs.Str.{bytes_eq};
ghost use Rattle.jwt_jwk.specs.der.Reading.{AgreesWith, algorithm_fault, kind_of};

use crate::der::refusal::Refusal;
use jwt_mac::{EcCurve, EdCurve};

/// A kind of key.
#[derive(Clone, Copy, Debug, PartialEq, Eq)]
pub enum Kind {
    Rsa,
    Ec(EcCurve),
    Okp(EdCurve),
}

/// Whether two are the same.
fn is(octets: &[u8], others: &[u8]) -> bool
    ensures { result ≡ bytes_eq octets.now others.now }
{
    octets == others
}

/// Whether octets begin so.
fn begins(octets: &[u8], start: &[u8]) -> bool
    ensures { result ≡ starts_with (λ a b. a == b) octets.now start.now }
{
    octets.starts_with(start)
}

/// Why an algorithm is none that a key may have.
#[tactic(auto, unfolding(crate::specs::der::Der::length_octets))]
fn algorithm_fault(algorithm: &[u8]) -> Refusal
    ensures { result ≡ algorithm_fault algorithm.now }
{
    if begins(algorithm, b"\x06\x09\x2a\x86\x48\x86\xf7\x0d\x01\x01\x0a") {
        Refusal::RsaPss
    } else if begins(algorithm, b"\x06\x07\x2a\x86\x48\xce\x3d\x02\x01\x30") {
        Refusal::ExplicitCurve
    } else {
        Refusal::Algorithm
    }
}

/// The kind of this algorithm, of which the frame is taken off.
#[tactic(auto, unfolding(crate::specs::der::Reading::kind_of, crate::specs::der::Der::length_octets))]
pub fn kind_of(algorithm: &[u8]) -> Result<Kind, Refusal>
    ensures { AgreesWith (λ k. k) result (kind_of algorithm.now) }
{
    if is(
        algorithm,
        b"\x06\x09\x2a\x86\x48\x86\xf7\x0d\x01\x01\x01\x05\x00",
    ) {
        Ok(Kind::Rsa)
    } else if is(
        algorithm,
        b"\x06\x07\x2a\x86\x48\xce\x3d\x02\x01\x06\x08\x2a\x86\x48\xce\x3d\x03\x01\x07",
    ) {
        Ok(Kind::Ec(EcCurve::P256))
    } else if is(
        algorithm,
        b"\x06\x07\x2a\x86\x48\xce\x3d\x02\x01\x06\x05\x2b\x81\x04\x00\x22",
    ) {
        Ok(Kind::Ec(EcCurve::P384))
    } else if is(
        algorithm,
        b"\x06\x07\x2a\x86\x48\xce\x3d\x02\x01\x06\x05\x2b\x81\x04\x00\x23",
    ) {
        Ok(Kind::Ec(EcCurve::P521))
    } else if is(algorithm, b"\x06\x03\x2b\x65\x70") {
        Ok(Kind::Okp(EdCurve::Ed25519))
    } else if is(algorithm, b"\x06\x03\x2b\x65\x71") {
        Ok(Kind::Okp(EdCurve::Ed448))
    } else {
        Err(algorithm_fault(algorithm))
    }
}
