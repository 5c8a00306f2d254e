//! Public keys as octets (RFC 7518, section 6.2.1).

ghost use Rattle.std.specs.Prelude.{◌≡◌, ◌*◌, ◌≤◌};
ghost use Rattle.ecdsa.specs.Curves.{P256, P384, P521};
ghost use Rattle.ecdsa.specs.Domains.{domain};
ghost use Rattle.ecdsa.specs.Ecdsa.{is_public_key};

use crate::constants::{p256, p384, p521};
use crate::curve::Curve;
use crate::octets::from_octets;
use crate::signatures::is_key;

/// Whether (x, y) is a public key, each coordinate in so many octets.
#[tactic(auto, unfolding(crate::specs::Ecdsa::is_public_key))]
fn is_public_key<const N: usize, const KIND: usize>(
    curve: &Curve<N, KIND>,
    octets: usize,
    x: &[u8],
    y: &[u8],
) -> bool
    requires { octets ≤ 8 * N }
    ensures { result ≡ is_public_key (domain curve.now) octets x.now y.now }
{
    if x.len() != octets {
        return false;
    }
    if y.len() != octets {
        return false;
    }
    is_key(curve, from_octets(x), from_octets(y))
}

/// Whether (x, y), in 32 octets each, is a point of P-256 (SEC 1, section 3.2.2.1). Coordinates of another length are none.
pub fn is_p256_key(x: &[u8], y: &[u8]) -> bool
    ensures { result ≡ is_public_key P256 32 x.now y.now }
{
    is_public_key(&p256(), 32, x, y)
}

/// Whether (x, y), in 48 octets each, is a point of P-384 (SEC 1, section 3.2.2.1). Coordinates of another length are none.
pub fn is_p384_key(x: &[u8], y: &[u8]) -> bool
    ensures { result ≡ is_public_key P384 48 x.now y.now }
{
    is_public_key(&p384(), 48, x, y)
}

/// Whether (x, y), in 66 octets each, is a point of P-521 (SEC 1, section 3.2.2.1). Coordinates of another length are none.
pub fn is_p521_key(x: &[u8], y: &[u8]) -> bool
    ensures { result ≡ is_public_key P521 66 x.now y.now }
{
    is_public_key(&p521(), 66, x, y)
}
