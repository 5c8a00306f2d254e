//! Laws of the definitions: each function does nothing, and its contract is the law.

ghost use Rattle.jwt_jwk.specs.der.Integers.{NumbersAreWritten};

/// The contents of an INTEGER are the two's complement of the number that the octets write, in the shortest form (ITU-T X.690,
/// section 8.3).
pub fn numbers_are_written()
    ensures { NumbersAreWritten }
{}
