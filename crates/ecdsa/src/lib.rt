//! ECDSA on the curves P-256, P-384 and P-521 of NIST SP 800-186, by SEC 1 version 2, section 4.1.4, and FIPS 186-5, section 6.4.2.
//!
//! ```rust
//! use crate::verifies_p256;
//!
//! // The digest by SHA-256, the two coordinates of the key, and the signature, R before S.
//! verifies_p256(&digest, x, y, signature)
//! ```
//!
//! The definition is the standard's own sum of points in affine coordinates (`specs/Curve.antt`); the code works in Jacobian
//! coordinates over limbs in Montgomery's form, with a table of the doubles of each base point, and one of the windows of a key that
//! is prepared (`PreparedKeys`). All of it serves to verify, which has no secret: the time that a call takes tells its arguments.
//! Preparing a key allocates, and nothing else here.
#![tactic(auto)]

pub use held::PreparedKeys;
pub use keys::{is_p256_key, is_p384_key, is_p521_key};
pub use prepared::{
    prepare_p256, prepare_p384, prepare_p521, verifies_p256_by, verifies_p384_by, verifies_p521_by,
};
pub use verifying::{verifies_p256, verifies_p384, verifies_p521};

mod asserted;
mod constants;
mod curve;
mod euclid;
mod field;
mod formulas;
mod held;
pub mod jws;
mod keys;
pub mod laws;
mod limbs;
mod multiples;
mod octets;
mod p256_doubles;
mod p256_prime;
mod p384_doubles;
mod p521_doubles;
mod p521_prime;
mod point;
mod prepared;
mod signatures;
mod sums;
mod tables;
pub mod verifying;
mod windows;
