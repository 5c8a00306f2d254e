//! Powers modulo the number of an RSA key: numbers as octets (RFC 8017, section 4) and as limbs of 64 bits, and
//! multiplication by the method of Montgomery.
//!
//! ```rust
//! use jwt_rsa::powers::{MOST_OCTETS, Modulus, number};
//!
//! let (Some(n), Some(e)) = (Modulus::of(n_octets), number(e_octets)) else {
//!     return false;
//! };
//! let mut room = [0; MOST_OCTETS];
//! let message = &mut room[..n.size()];
//! signature.len() == n.size() && n.power(message, signature, e)
//! ```
//!
//! All of it serves to verify, which has no secret: the time that a call takes tells its arguments. Nothing here allocates.

pub use modulus::{MOST_OCTETS, Modulus};
pub use octets::number;
pub use prepared::PreparedModulus;

pub mod laws;
mod limbs;
pub mod modulus;
mod montgomery;
pub mod octets;
mod power;
mod prepared;
mod shift;
mod wide;
