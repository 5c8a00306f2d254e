//! A curve y^2 = x^3 - 3x + b over a field, with a base point and its order.

ghost use Rattle.numbers.specs.Limbs.{number};
ghost use Rattle.std.specs.Prelude.{◌≡◌, ◌<◌, ◌≤◌, ◌*◌};

use crate::field::{ANY_MODULUS, Field};

/// The field, the field of the order, in Montgomery's form b and the base point, and how many hexadecimal digits hold the order.
#[derive(Clone, Copy)]
pub struct Curve<const N: usize, const KIND: usize> {
    pub field: Field<N, KIND>,
    pub order: Field<N, ANY_MODULUS>,
    pub b: [u64; N],
    pub gx: [u64; N],
    pub gy: [u64; N],
    pub digits: usize,
    pub ghost b_below: { number b < number field.n },
    pub ghost gx_below: { number gx < number field.n },
    pub ghost gy_below: { number gy < number field.n },
    pub ghost few_digits: { digits ≤ 16 * N },
    pub ghost near: { number field.n < 2 * number order.n },
}

impl<const N: usize, const KIND: usize> Curve<N, KIND> {
    ghost use Rattle.ecdsa.specs.Field.{Below};

    /// b, in the field's form.
    pub fn b_form(&self) -> [u64; N]
        ensures is { result ≡ self.now.b }
        ensures below { Below self.now.field result }
    {
        self.b
    }

    /// x of the base point, in the field's form.
    pub fn gx_form(&self) -> [u64; N]
        ensures is { result ≡ self.now.gx }
        ensures below { Below self.now.field result }
    {
        self.gx
    }

    /// y of the base point, in the field's form.
    pub fn gy_form(&self) -> [u64; N]
        ensures is { result ≡ self.now.gy }
        ensures below { Below self.now.field result }
    {
        self.gy
    }
}
