//! Laws of the curves: each function does nothing, and its contract holds.

ghost use Rattle.std.specs.Prelude.{◌≡◌, true};
ghost use Rattle.ecdsa.specs.Curve.{is_key};
ghost use Rattle.ecdsa.specs.Curves.{P256, P384, P521};
ghost use Rattle.ecdsa.specs.Domains.{domain};
ghost use Rattle.ecdsa.specs.Doubles.{IsTable};

use crate::curve::Curve;
use crate::p256_doubles::{P256_X, P256_Y};
use crate::p384_doubles::{P384_X, P384_Y};
use crate::p521_doubles::{P521_X, P521_Y};

/// The base points are on their curves.
pub fn base_points()
    ensures p256 { is_key P256 P256.gx P256.gy ≡ true }
    ensures p384 { is_key P384 P384.gx P384.gy ≡ true }
    ensures p521 { is_key P521 P521.gx P521.gy ≡ true }
{}

/// The table of P-256 has the doubles of its base point.
pub(crate) fn p256_table<const KIND: usize>(curve: &Curve<4, KIND>)
    requires { domain curve.now ≡ P256 }
    ensures { IsTable curve.now.field (domain curve.now) P256_X P256_Y }
{}

/// The table of P-384 has the doubles of its base point.
pub(crate) fn p384_table<const KIND: usize>(curve: &Curve<6, KIND>)
    requires { domain curve.now ≡ P384 }
    ensures { IsTable curve.now.field (domain curve.now) P384_X P384_Y }
{}

/// The table of P-521 has the doubles of its base point.
pub(crate) fn p521_table<const KIND: usize>(curve: &Curve<9, KIND>)
    requires { domain curve.now ≡ P521 }
    ensures { IsTable curve.now.field (domain curve.now) P521_X P521_Y }
{}
