//! A key, a digest and a signature in octets, over any of the curves (RFC 7518, section 3.4).

ghost use Rattle.std.specs.Prelude.{◌≡◌, ◌*◌, ◌^◌, ◌<◌, ◌≤◌, length, IfSome};
ghost use Rattle.std.specs.Int.Digits.{number_from_digits};
ghost use Rattle.ecdsa.specs.Curve.{Point.Affine};
ghost use Rattle.ecdsa.specs.Domains.{domain};
ghost use Rattle.ecdsa.specs.Doubles.{IsTable};
ghost use Rattle.ecdsa.specs.Ecdsa.{ecdsa};
ghost use Rattle.ecdsa.specs.Field.{size};
ghost use Rattle.ecdsa.specs.Windows.{AreBelow, AreWindows};

use crate::curve::Curve;
use crate::octets::from_octets;
use crate::signatures::{Claimed, Tables, holds};

/// A digest, the coordinates of a public key, and a signature, in octets.
#[derive(Clone, Copy)]
pub struct Asserted<'a> {
    pub digest: &'a [u8],
    pub x: &'a [u8],
    pub y: &'a [u8],
    pub signature: &'a [u8],
}

/// Whether it is the signature of the digest by the public key, each number in so many octets.
pub fn verifies<const N: usize, const KIND: usize>(
    curve: &Curve<N, KIND>,
    tables: &Tables<'_, N>,
    octets: usize,
    asserted: &Asserted<'_>,
) -> bool
    requires table { IsTable curve.now.field (domain curve.now) tables.now.doubles.xs.now tables.now.doubles.ys.now }
    requires base { IfSome tables.now.base (λ t. AreBelow (domain curve.now) t.now.xs.items t.now.ys.items) }
    requires key { IfSome tables.now.key (λ t. AreBelow (domain curve.now) t.now.xs.items t.now.ys.items) }
    requires some { 0 < N }
    requires few { N ≤ 16 }
    requires octets { octets ≤ 8 * N }
    requires digest { length asserted.now.digest.now ≤ 8 * N }
    requires large { 256 ^ length asserted.now.digest.now ≤ 2 * size curve.now.order }
    ensures { IfSome tables.now.base (λ t. AreWindows N (domain curve.now) (Affine (domain curve.now).gx (domain curve.now).gy) t.now.xs.items t.now.ys.items) → IfSome tables.now.key (λ t. AreWindows N (domain curve.now) (Affine (number_from_digits 256 asserted.now.x.now) (number_from_digits 256 asserted.now.y.now)) t.now.xs.items t.now.ys.items) → result ≡ ecdsa (domain curve.now) octets asserted.now.digest.now asserted.now.x.now asserted.now.y.now asserted.now.signature.now }
{
    let Asserted {
        digest,
        x,
        y,
        signature,
    } = *asserted;
    if x.len() != octets {
        return false;
    }
    if y.len() != octets {
        return false;
    }
    if signature.len() != octets + octets {
        return false;
    }
    let e = from_octets(digest);
    let key_x = from_octets(x);
    let key_y = from_octets(y);
    let r = from_octets(&signature[..octets]);
    let s = from_octets(&signature[octets..]);
    let claimed = Claimed {
        x: key_x,
        y: key_y,
        e,
        r,
        s,
    };
    holds(curve, tables, &claimed)
}
