//! Public keys that the built-in verifiers never accept a signature by.

ghost use Rattle.std.specs.Prelude.{◌≡◌};
ghost use Rattle.jwt_mac.specs.Verifying.{EcKey, OkpKey, key_octets};
ghost use Rattle.jwt_advice.specs.RefusedKeys.{is_refused_ec, is_refused_key, is_refused_okp};

use crate::rsa_keys::is_refused_rsa;
use ecdsa::{is_p256_key, is_p384_key, is_p521_key};
use jwt_ed25519::is_key;
use jwt_mac::{EcCurve, EdCurve, KeyView};

/// Whether such coordinates are no point of the curve.
fn is_off_curve(curve: EcCurve, x: &[u8], y: &[u8]) -> bool
    ensures { result ≡ is_refused_ec (EcKey curve x.now y.now) }
{
    match curve {
        EcCurve::P256 => !is_p256_key(x, y),
        EcCurve::P384 => !is_p384_key(x, y),
        EcCurve::P521 => !is_p521_key(x, y),
    }
}

/// Whether there is no verifier for such a key, or it is no point of its curve, or of small order.
fn is_no_okp(curve: EdCurve, x: &[u8]) -> bool
    ensures { result ≡ is_refused_okp (OkpKey curve x.now) }
{
    match curve {
        EdCurve::Ed25519 => !is_key(x),
        EdCurve::Ed448 => true,
    }
}

/// Whether it is an EC key that is no point of its curve (SEC 1, section 3.2.2.1): by it the built-in verifiers accept no signature. It takes no
/// memory.
pub fn is_refused_ec(key: KeyView<'_>) -> bool
    ensures { result ≡ is_refused_ec (key_octets key.entry) }
{
    match key {
        KeyView::Ec { curve, x, y } => is_off_curve(curve, x, y),
        KeyView::Oct { .. } | KeyView::Rsa { .. } | KeyView::Okp { .. } => false,
    }
}

/// Whether it is a key of Ed448, for which there is no built-in verifier, or one of Ed25519 that doesn't decode or is of small order (RFC 8032,
/// section 5.1.3): by it the built-in verifiers accept no signature. It takes no memory.
pub fn is_refused_okp(key: KeyView<'_>) -> bool
    ensures { result ≡ is_refused_okp (key_octets key.entry) }
{
    match key {
        KeyView::Okp { curve, x } => is_no_okp(curve, x),
        KeyView::Oct { .. } | KeyView::Rsa { .. } | KeyView::Ec { .. } => false,
    }
}

/// Whether it is a public key by which the built-in verifiers accept no signature.
pub(crate) fn is_refused_key(key: KeyView<'_>) -> bool
    ensures { result ≡ is_refused_key (key_octets key.entry) }
{
    is_refused_rsa(key) || is_refused_ec(key) || is_refused_okp(key)
}
