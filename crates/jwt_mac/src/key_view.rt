//! The octets of a key that a signature is checked by, lent, and the curves.

/// A curve of an EC key (RFC 7518, section 6.2.1.1).
#[derive(Clone, Copy, Debug, PartialEq, Eq)]
pub enum EcCurve {
    /// P-256.
    P256,
    /// P-384.
    P384,
    /// P-521.
    P521,
}

/// A curve of an OKP key for signatures (RFC 8037, section 2).
#[derive(Clone, Copy, Debug, PartialEq, Eq)]
pub enum EdCurve {
    /// Ed25519.
    Ed25519,
    /// Ed448.
    Ed448,
}

/// The octets of a key's members, decoded from base64url, lent by the key.
#[derive(Clone, Copy)]
pub enum KeyView<'a> {
    /// A shared secret (RFC 7518, section 6.4).
    Oct {
        /// The secret's octets.
        k: &'a [u8],
    },
    /// A public RSA key (RFC 7518, section 6.3.1), its numbers most significant octet first.
    Rsa {
        /// The modulus.
        n: &'a [u8],
        /// The exponent.
        e: &'a [u8],
    },
    /// A public key on an elliptic curve (RFC 7518, section 6.2.1), its coordinates most significant
    /// octet first.
    Ec {
        /// The curve.
        curve: EcCurve,
        /// The first coordinate.
        x: &'a [u8],
        /// The second coordinate.
        y: &'a [u8],
    },
    /// A public key for EdDSA (RFC 8037, section 2).
    Okp {
        /// The curve.
        curve: EdCurve,
        /// The public key.
        x: &'a [u8],
    },
}
