//! A verifier for ECDSA signatures.

ghost use Rattle.std.specs.Prelude.{◌≡◌, false};
ghost use Rattle.jwt_mac.specs.Verifying.{AnswersBy, key_octets, message_octets, signing_input};
ghost use Rattle.ecdsa.specs.jws.Meanings.{names_ecdsa, accepts_ecdsa};

use crate::jws::verifying::{verifies_es256, verifies_es384, verifies_es512};
use jwt_mac::{Alg, Answer, EcCurve, KeyView, Kind, Message, Verifier};

/// Whether it is ES256, ES384 or ES512.
pub(crate) fn is_ecdsa(alg: Alg) -> bool
    ensures { result ≡ names_ecdsa alg }
{
    matches!(alg.kind(), Kind::Ecdsa(_))
}

/// Whether a signature is accepted.
fn is_accepted(alg: Alg, key: &KeyView, message: Message, signature: &[u8]) -> bool
    ensures { result
        ≡ accepts_ecdsa alg (key_octets key.now) (signing_input (message_octets message.entry))
        signature.now }
{
    let KeyView::Ec { curve, x, y } = key else {
        return false;
    };
    match (alg.kind(), *curve) {
        (Kind::Ecdsa(EcCurve::P256), EcCurve::P256) => verifies_es256(
            x,
            y,
            message.parts(),
            signature,
        ),
        (Kind::Ecdsa(EcCurve::P384), EcCurve::P384) => verifies_es384(
            x,
            y,
            message.parts(),
            signature,
        ),
        (Kind::Ecdsa(EcCurve::P521), EcCurve::P521) => verifies_es512(
            x,
            y,
            message.parts(),
            signature,
        ),
        _ => false,
    }
}

/// What is said of a signature.
pub(crate) fn answer(accepted: bool) -> Answer
    ensures { AnswersBy accepted false result }
{
    if accepted {
        Answer::Valid
    } else {
        Answer::Invalid
    }
}

/// A verifier for ES256, ES384 and ES512 (RFC 7518, section 3.4; SEC 1, section 4.1.4; FIPS 186-5, section 6.4.2).
///
/// It answers Valid exactly where the key is of the algorithm's curve, its coordinates have the size of the field and are on the
/// curve, the signature has twice that size, and the equations hold. It never answers NoMemory.
#[derive(Clone, Copy, Debug)]
pub struct Ecdsa;

impl Verifier for Ecdsa {
    ghost use Rattle.ecdsa.specs.jws.Meanings.{ecdsa_meaning};

    ghost meaning = { λ _. ecdsa_meaning };

    fn names(&self, alg: Alg) -> bool {
        is_ecdsa(alg)
    }

    fn verify(&self, alg: Alg, key: &KeyView, message: Message, signature: &[u8]) -> Answer {
        answer(is_accepted(alg, key, message, signature))
    }
}
