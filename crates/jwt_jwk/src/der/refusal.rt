//! The causes why octets are no public key.

/// The first fault from left to right.
#[derive(Clone, Copy, Debug, PartialEq, Eq)]
pub enum Refusal {
    /// Another element than one has to stand here, its length isn't in the shortest form, or it passes the end.
    Element,
    /// Octets stand behind an element that has to be the last.
    Trailing,
    /// The bit string of the key has unused bits.
    Bits,
    /// The algorithm, with its parameters, is none that a key may have here.
    Algorithm,
    /// The algorithm is that of RSA keys for PSS alone.
    RsaPss,
    /// The curve is written out by its parameters.
    ExplicitCurve,
    /// A number of an RSA key is negative or 0, isn't in the shortest form, or has more than 4,096 octets.
    Number,
    /// The key isn't an uncompressed point of its curve's size, or not of the size of its algorithm.
    Point,
    /// The point is compressed.
    Compressed,
    /// The point isn't on its curve, or, of Ed25519, its octets are no point or one of small order.
    OffCurve,
    /// No verifier takes an RSA key of this size: its modulus is odd and of 2,048 to 8,192 bits, its exponent odd, at least 3 and of
    /// at most eight octets.
    KeySize,
}
