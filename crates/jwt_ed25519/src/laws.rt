//! Laws of the definitions: the function does nothing, and its contract holds.
ghost use Rattle.std.specs.Prelude.{◌≡◌, ◌+◌, ◌*◌, ◌^◌, ◌%◌};
ghost use Rattle.jwt_ed25519.specs.Field.{p};
ghost use Rattle.jwt_ed25519.specs.Points.{base_x, base_y, d};

/// The numbers of RFC 8032, section 5.1, are those that its table describes: d is -121665/121666; y of B is 4/5, its x is even, and
/// B is on the curve, -x^2 + y^2 = 1 + d x^2 y^2.
pub fn constants()
    ensures d { (121666 * d + 121665) % p ≡ 0 }
    ensures y { (5 * base_y) % p ≡ 4 }
    ensures even { base_x % 2 ≡ 0 }
    ensures on_curve { (base_y ^ 2) % p ≡ (1 + base_x ^ 2 + d * base_x ^ 2 * base_y ^ 2) % p }
{}
