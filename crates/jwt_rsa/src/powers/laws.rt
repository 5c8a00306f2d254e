//! Laws of the definitions: each function does nothing, and its contract holds of all numbers.

ghost use Rattle.jwt_rsa.specs.powers.Octets.{ReadsBack};

/// OS2IP undoes I2OSP, as far as the octets reach: the number that they write is what was written, modulo 256 to their number (RFC
/// 8017, section 4).
pub fn written_is_read()
    ensures { ReadsBack }
{}
