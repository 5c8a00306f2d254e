//! Signatures by ECDSA as octets (RFC 7518, section 3.4).

ghost use Rattle.std.specs.Prelude.{◌≡◌, length};
ghost use Rattle.ecdsa.specs.Curves.{P256, P384, P521};
ghost use Rattle.ecdsa.specs.Ecdsa.{ecdsa};

use crate::asserted::{Asserted, verifies};
use crate::constants::{p256, p384, p521};
use crate::laws::{p256_table, p384_table, p521_table};
use crate::p256_doubles::{P256_X, P256_Y};
use crate::p384_doubles::{P384_X, P384_Y};
use crate::p521_doubles::{P521_X, P521_Y};
use crate::signatures::Tables;
use crate::tables::Doubles;

/// Whether a signature of 64 octets, R and S, is that of a digest of 32 octets by the public key (x, y) of P-256, in 32 octets each
/// (RFC 7518, section 3.4). One of another length, or a key that isn't on the curve, has no signature.
pub fn verifies_p256(digest: &[u8], x: &[u8], y: &[u8], signature: &[u8]) -> bool
    requires { length digest.now ≡ 32 }
    ensures { result ≡ ecdsa P256 32 digest.now x.now y.now signature.now }
{
    let curve = p256();
    p256_table(&curve);
    let doubles = Doubles {
        xs: &P256_X,
        ys: &P256_Y,
    };
    let tables = Tables {
        doubles,
        base: None,
        key: None,
    };
    let asserted = Asserted {
        digest,
        x,
        y,
        signature,
    };
    verifies(&curve, &tables, 32, &asserted)
}

/// Whether a signature of 96 octets, R and S, is that of a digest of 48 octets by the public key (x, y) of P-384, in 48 octets each
/// (RFC 7518, section 3.4). One of another length, or a key that isn't on the curve, has no signature.
pub fn verifies_p384(digest: &[u8], x: &[u8], y: &[u8], signature: &[u8]) -> bool
    requires { length digest.now ≡ 48 }
    ensures { result ≡ ecdsa P384 48 digest.now x.now y.now signature.now }
{
    let curve = p384();
    p384_table(&curve);
    let doubles = Doubles {
        xs: &P384_X,
        ys: &P384_Y,
    };
    let tables = Tables {
        doubles,
        base: None,
        key: None,
    };
    let asserted = Asserted {
        digest,
        x,
        y,
        signature,
    };
    verifies(&curve, &tables, 48, &asserted)
}

/// Whether a signature of 132 octets, R and S, is that of a digest of 64 octets by the public key (x, y) of P-521, in 66 octets each
/// (RFC 7518, section 3.4). One of another length, or a key that isn't on the curve, has no signature.
pub fn verifies_p521(digest: &[u8], x: &[u8], y: &[u8], signature: &[u8]) -> bool
    requires { length digest.now ≡ 64 }
    ensures { result ≡ ecdsa P521 66 digest.now x.now y.now signature.now }
{
    let curve = p521();
    p521_table(&curve);
    let doubles = Doubles {
        xs: &P521_X,
        ys: &P521_Y,
    };
    let tables = Tables {
        doubles,
        base: None,
        key: None,
    };
    let asserted = Asserted {
        digest,
        x,
        y,
        signature,
    };
    verifies(&curve, &tables, 66, &asserted)
}
