//! The formulas of a chord and of a tangent where a = -3.

ghost use Rattle.ecdsa.specs.Field.{size, value, Below};
ghost use Rattle.ecdsa.specs.Stands.{IsBelow, IsChord, IsTangent};

use crate::field::Field;
use crate::point::Point;

/// The third point of a chord from p, of h = (x2 - x1) z^2, r = (y2 - y1) z^3 for the z of p.
pub fn chord<const N: usize, const KIND: usize>(
    f: &Field<N, KIND>,
    p: Point<N>,
    h: [u64; N],
    r: [u64; N],
) -> Point<N>
    requires p { IsBelow f.now p }
    requires h { Below f.now h }
    requires r { Below f.now r }
    ensures below { IsBelow f.now result }
    ensures chord { IsChord (size f.now) (value f.now p.entry.x) (value f.now p.entry.y) (value f.now h.entry) (value f.now r.entry) (value f.now p.entry.z) (value f.now result.x) (value f.now result.y) (value f.now result.z) }
{
    let hh = f.square(h);
    let hhh = f.times(hh, h);
    let v = f.times(p.x, hh);
    let vv = f.plus(v, v);
    let taken = f.plus(hhh, vv);
    let rr = f.square(r);
    let x = f.minus(rr, taken);
    let rest = f.minus(v, x);
    let across = f.times(r, rest);
    let down = f.times(p.y, hhh);
    let y = f.minus(across, down);
    let third = f.times(p.z, h);
    Point { x, y, z: third }
}

/// The double of a point.
pub fn tangent<const N: usize, const KIND: usize>(f: &Field<N, KIND>, p: Point<N>) -> Point<N>
    requires { IsBelow f.now p }
    ensures below { IsBelow f.now result }
    ensures tangent { IsTangent (size f.now) (value f.now p.entry.x) (value f.now p.entry.y) (value f.now p.entry.z) (value f.now result.x) (value f.now result.y) (value f.now result.z) }
{
    let p_x = p.x;
    let p_y = p.y;
    let p_z = p.z;
    let delta = f.square(p_z);
    let gamma = f.square(p_y);
    let beta = f.times(p_x, gamma);
    let less = f.minus(p_x, delta);
    let more = f.plus(p_x, delta);
    let span = f.times(less, more);
    let span2 = f.plus(span, span);
    let alpha = f.plus(span2, span);
    let beta2 = f.plus(beta, beta);
    let beta4 = f.plus(beta2, beta2);
    let beta8 = f.plus(beta4, beta4);
    let square = f.square(alpha);
    let x = f.minus(square, beta8);
    let gamma2 = f.plus(gamma, gamma);
    let gamma4 = f.square(gamma2);
    let gamma8 = f.plus(gamma4, gamma4);
    let rest = f.minus(beta4, x);
    let across = f.times(alpha, rest);
    let y = f.minus(across, gamma8);
    let yz = f.times(p_y, p_z);
    let z = f.plus(yz, yz);
    Point { x, y, z }
}
