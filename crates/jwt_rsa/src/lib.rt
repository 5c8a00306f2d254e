//! Verifiers of RSA signatures: RS256, RS384 and RS512 (RFC 7518, section 3.3), PS256, PS384 and PS512 (section 3.5), by the
//! equations of RFC 8017.
//!
//! ```rust
//! use jwt_mac::{CountDown, Verifier};
//! use crate::Rsa;
//! use jwt_text::Reader;
//! use jwt_verify::validate;
//!
//! let mut verifiers: Vec<Box<dyn Verifier>> = Vec::new(alloc);
//! verifiers.push(Box::new(alloc, Rsa)?)?;
//! let mut budget = CountDown::new(policy.work());
//! let report = validate(alloc, &mut Reader::new(input), &keys, &policy, now, &verifiers, &mut budget);
//! ```
//!
//! Keys are taken whose modulus is odd and has 2,048 to 8,192 bits, and whose exponent is odd, at least 3 and of at most eight
//! octets; with any other, no signature is valid. Nothing here allocates, so no verifier answers NoMemory. Verifying has no
//! secret: nothing is promised of time.
#![tactic(auto)]

pub use verifier::{Pkcs1, PreparedRsa, Pss, Rsa};
pub use verifying::verifies;

mod digest;
mod hash;
mod pkcs1;
pub mod powers;
mod pss;
mod public_key;
pub mod verifier;
mod verifying;
