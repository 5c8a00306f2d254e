//! The prepared keys of a curve.

ghost use Rattle.std.specs.Prelude.{IfSome};
ghost use Rattle.std.specs.Option.{ForSome};
ghost use Rattle.std.specs.Int.Digits.{number_from_digits};
ghost use Rattle.ecdsa.specs.Curve.{Point.Affine};
ghost use Rattle.ecdsa.specs.Curves.{curve_over};
ghost use Rattle.ecdsa.specs.Windows.{AreBelow, AreWindows};

use crate::windows::Windows;
use std::alloc::Global;

/// The windows of the base point of the curve over so many limbs.
#[derive(Drop)]
pub(crate) struct PreparedBase<const N: usize> {
    pub(crate) windows: Windows<N>,
    ghost below: { AreBelow (curve_over N) windows.xs.items windows.ys.items },
    ghost are: { ∥ AreWindows N (curve_over N) (Affine (curve_over N).gx (curve_over N).gy) windows.xs.items windows.ys.items ∥₁ },
}

/// A key of the curve over so many limbs: the octets of its coordinates, and its windows; none where one of them isn't finite.
#[derive(Drop)]
pub(crate) struct PreparedKey<const N: usize> {
    pub(crate) x: Vec<u8>,
    pub(crate) y: Vec<u8>,
    pub(crate) windows: Option<Windows<N>>,
    ghost below: { ForSome windows (λ t. AreBelow (curve_over N) t.xs.items t.ys.items) },
    ghost are: { ∥ IfSome windows (λ t. AreWindows N (curve_over N) (Affine (number_from_digits 256 x.items) (number_from_digits 256 y.items)) t.xs.items t.ys.items) ∥₁ },
}

/// Prepared keys of one curve: of P-256 over 4 limbs of 64 bits, of P-384 over 6, of P-521 over 9. Beside the first key stand the
/// windows of the base point, once for all.
///
/// A key takes 64 KiB on P-256, 144 KiB on P-384 and 295 KiB on P-521, and the base point as much.
#[derive(Drop)]
pub struct PreparedKeys<const N: usize> {
    pub(crate) base: Option<PreparedBase<N>>,
    pub(crate) keys: Vec<PreparedKey<N>>,
}

impl<const N: usize> PreparedKeys<N> {
    ghost use Rattle.std.specs.Prelude.{◌≡◌, []};
    ghost use Rattle.ecdsa.specs.Held.{held};

    /// None yet. It takes no memory.
    pub fn new(alloc: Global) -> PreparedKeys<N>
        ensures { held result ≡ [] }
    {
        PreparedKeys {
            base: None,
            keys: Vec::new(alloc),
        }
    }
}
