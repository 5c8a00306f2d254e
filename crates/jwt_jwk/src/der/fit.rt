//! The keys that may verify something.

ghost use Rattle.std.specs.Prelude.{◌≡◌, ◌%◌, ◌==◌, ◌&&◌};
ghost use Rattle.jwt_mac.specs.Verifying.{OkpKey, key_octets};
ghost use Rattle.jwt_rsa.specs.PublicKey.{is_key};
ghost use Rattle.jwt_jwk.specs.der.Der.{is_fit, is_on_curve};
ghost use Rattle.jwt_jwk.specs.der.Reading.{AgreesWith, fitting, why_unfit};
ghost use Rattle.jwt_rsa.specs.powers.Octets.{os2ip};

use crate::der::refusal::Refusal;
use ecdsa::{is_p256_key, is_p384_key, is_p521_key};
use jwt_ed25519::is_key;
use jwt_mac::{EcCurve, EdCurve, KeyView};
use jwt_rsa::powers::{Modulus, number};

/// Whether an RSA key has the sizes that the verifiers take.
fn is_rsa_fit(n: &[u8], e: &[u8]) -> bool
    ensures { result ≡ is_key (os2ip n.now) (os2ip e.now) }
{
    if Modulus::of(n).is_none() {
        return false;
    }
    match number(e) {
        Some(e) => e >= 3 && e % 2 == 1,
        None => false,
    }
}

/// Whether a point is on its curve.
fn is_on_curve(curve: EcCurve, x: &[u8], y: &[u8]) -> bool
    ensures { result ≡ is_on_curve curve x.now y.now }
{
    match curve {
        EcCurve::P256 => is_p256_key(x, y),
        EcCurve::P384 => is_p384_key(x, y),
        EcCurve::P521 => is_p521_key(x, y),
    }
}

/// Whether a key of Ed25519 decodes, and isn't of small order. Of Ed448 nothing is asked.
fn is_okp_fit(curve: EdCurve, x: &[u8]) -> bool
    ensures { result ≡ is_fit (OkpKey curve x.now) }
{
    match curve {
        EdCurve::Ed25519 => is_key(x),
        EdCurve::Ed448 => true,
    }
}

/// Whether such a key may verify something.
fn is_fit(key: &KeyView<'_>) -> bool
    ensures { result ≡ is_fit (key_octets key.now) }
{
    match key {
        KeyView::Oct { .. } => false,
        KeyView::Rsa { n, e } => is_rsa_fit(n, e),
        KeyView::Ec { curve, x, y } => is_on_curve(*curve, x, y),
        KeyView::Okp { curve, x } => is_okp_fit(*curve, x),
    }
}

/// Why such a key verifies nothing.
fn unfit(key: &KeyView<'_>) -> Refusal
    ensures { result ≡ why_unfit (key_octets key.now) }
{
    match key {
        KeyView::Ec { .. } | KeyView::Okp { .. } => Refusal::OffCurve,
        KeyView::Oct { .. } | KeyView::Rsa { .. } => Refusal::KeySize,
    }
}

/// The key, if it may verify something.
#[tactic(auto, unfolding(crate::specs::der::Reading::fitting))]
pub fn fitting(key: KeyView<'_>) -> Result<KeyView<'_>, Refusal>
    ensures { AgreesWith key_octets result (fitting (key_octets key.entry)) }
{
    if is_fit(&key) {
        Ok(key)
    } else {
        Err(unfit(&key))
    }
}
