//! The octets of a key, owned.

use crate::key_view::{EcCurve, EdCurve};

/// The octets of a key's members, decoded from base64url, each in a container of the owner's choice.
#[derive(Drop)]
pub enum OwnedKey<T> {
    /// A shared secret (RFC 7518, section 6.4).
    Oct {
        /// The secret's octets.
        k: T,
    },
    /// A public RSA key (RFC 7518, section 6.3.1), its numbers most significant octet first.
    Rsa {
        /// The modulus.
        n: T,
        /// The exponent.
        e: T,
    },
    /// A public key on an elliptic curve (RFC 7518, section 6.2.1), its coordinates most significant
    /// octet first.
    Ec {
        /// The curve.
        curve: EcCurve,
        /// The first coordinate.
        x: T,
        /// The second coordinate.
        y: T,
    },
    /// A public key for EdDSA (RFC 8037, section 2).
    Okp {
        /// The curve.
        curve: EdCurve,
        /// The public key.
        x: T,
    },
}
