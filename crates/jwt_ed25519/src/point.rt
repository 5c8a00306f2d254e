//! Points of Ed25519, in extended homogeneous coordinates (RFC 8032, section 5.1.4).

ghost use Rattle.std.specs.Prelude.{◌≡◌};
ghost use Rattle.jwt_ed25519.specs.Elements.{element};
ghost use Rattle.jwt_ed25519.specs.Points.{base_x, base_y, d, point, neutral, add, double, negated};
ghost use Rattle.jwt_ed25519.specs.Field.{times};
ghost use Rattle.jwt_ed25519.specs.Verifying.{is_small};

use crate::field::Residue;
use crate::limbs::Limbs;

// A point: x = X/Z, y = Y/Z, x * y = T/Z.
#[derive(Clone, Copy, Debug)]
pub struct EdwardsPoint {
    pub x: Residue,
    pub y: Residue,
    pub z: Residue,
    pub t: Residue,
}

/// d of the curve's equation.
pub fn curve_d() -> Residue
    ensures { element result ≡ d }
{
    Residue {
        limbs: Limbs {
            l0: 0x75eb_4dca_1359_78a3,
            l1: 0x0070_0a4d_4141_d8ab,
            l2: 0x8cc7_4079_7779_e898,
            l3: 0x5203_6cee_2b6f_fe73,
        },
    }
}

/// Twice d.
fn twice_d() -> Residue
    ensures { element result ≡ times 2 d }
{
    Residue {
        limbs: Limbs {
            l0: 0xebd6_9b94_26b2_f159,
            l1: 0x00e0_149a_8283_b156,
            l2: 0x198e_80f2_eef3_d130,
            l3: 0x2406_d9dc_56df_fce7,
        },
    }
}

/// The base point's x.
fn base_x_element() -> Residue
    ensures { element result ≡ base_x }
{
    Residue {
        limbs: Limbs {
            l0: 0xc956_2d60_8f25_d51a,
            l1: 0x692c_c760_9525_a7b2,
            l2: 0xc0a4_e231_fdd6_dc5c,
            l3: 0x2169_36d3_cd6e_53fe,
        },
    }
}

/// The base point's y.
fn base_y_element() -> Residue
    ensures { element result ≡ base_y }
{
    Residue {
        limbs: Limbs {
            l0: 0x6666_6666_6666_6658,
            l1: 0x6666_6666_6666_6666,
            l2: 0x6666_6666_6666_6666,
            l3: 0x6666_6666_6666_6666,
        },
    }
}

impl EdwardsPoint {
    ghost use Rattle.jwt_ed25519.specs.Elements.{coordinates};

    /// The point of an x and a y.
    pub fn of(x: Residue, y: Residue) -> EdwardsPoint
        ensures { coordinates result ≡ point (element x) (element y) }
    {
        EdwardsPoint {
            x,
            y,
            z: Residue::small(1),
            t: x.times(y),
        }
    }

    /// The base point.
    pub fn base() -> EdwardsPoint
        ensures { coordinates result ≡ point base_x base_y }
    {
        EdwardsPoint::of(base_x_element(), base_y_element())
    }

    /// The neutral point.
    pub fn neutral() -> EdwardsPoint
        ensures { coordinates result ≡ neutral }
    {
        EdwardsPoint {
            x: Residue::small(0),
            y: Residue::small(1),
            z: Residue::small(1),
            t: Residue::small(0),
        }
    }

    /// The sum of two points.
    pub fn add(self, other: EdwardsPoint) -> EdwardsPoint
        ensures { coordinates result ≡ add (coordinates self) (coordinates other) }
    {
        let a = self.y.minus(self.x).times(other.y.minus(other.x));
        let b = self.y.plus(self.x).times(other.y.plus(other.x));
        let c = self.t.times(twice_d()).times(other.t);
        let d = self.z.times(other.z).twice();
        let e = b.minus(a);
        let f = d.minus(c);
        let g = d.plus(c);
        let h = b.plus(a);
        EdwardsPoint {
            x: e.times(f),
            y: g.times(h),
            z: f.times(g),
            t: e.times(h),
        }
    }

    /// The double of a point.
    pub fn double(self) -> EdwardsPoint
        ensures { coordinates result ≡ double (coordinates self) }
    {
        let a = self.x.square();
        let b = self.y.square();
        let c = self.z.square().twice();
        let h = a.plus(b);
        let e = h.minus(self.x.plus(self.y).square());
        let g = a.minus(b);
        let f = c.plus(g);
        EdwardsPoint {
            x: e.times(f),
            y: g.times(h),
            z: f.times(g),
            t: e.times(h),
        }
    }

    /// The point with -x in place of x.
    pub fn negated(self) -> EdwardsPoint
        ensures { coordinates result ≡ negated (coordinates self) }
    {
        EdwardsPoint {
            x: Residue::small(0).minus(self.x),
            y: self.y,
            z: self.z,
            t: Residue::small(0).minus(self.t),
        }
    }

    /// Whether eight times the point is the neutral point.
    pub fn is_small(self) -> bool
        ensures { result ≡ is_small (coordinates self) }
    {
        let eight_times = self.double().double().double();
        eight_times.x.is(Residue::small(0)) && eight_times.y.is(eight_times.z)
    }
}
