//! A verifier of ECDSA signatures: ES256, ES384 and ES512 (RFC 7518, section 3.4), by SEC 1 version 2, section 4.1.4.
//!
//! ```rust
//! use ecdsa::jws::Ecdsa;
//! use jwt_mac::{CountDown, Verifier};
//! use jwt_text::Reader;
//! use jwt_verify::validate;
//!
//! let mut verifiers: Vec<Box<dyn Verifier>> = Vec::new(alloc);
//! verifiers.push(Box::new(alloc, Ecdsa)?)?;
//! let mut budget = CountDown::new(policy.work());
//! let report = validate(alloc, &mut Reader::new(input), &keys, &policy, now, &verifiers, &mut budget);
//! ```
//!
//! A key is taken only with the algorithm of its curve, with coordinates below the prime, and where it is on the curve. The
//! signature (r, n - s) is valid where (r, s) is, as the standards have it. Verifying allocates nothing, so the verifier never
//! answers NoMemory. It has no secret: nothing is promised of time.
//!
//! A service that verifies many tokens by few keys prepares these once, and pushes this verifier in place of `Ecdsa`; its answers are
//! the same:
//!
//! ```rust
//! let mut verifier = PreparedEcdsa::new(alloc, 16);
//! for key in keys.iter() {
//!     verifier.prepare(alloc, &key.view());
//! }
//! verifiers.push(Box::new(alloc, verifier)?)?;
//! ```

pub use prepared::PreparedEcdsa;
pub use verifier::Ecdsa;
pub use verifying::{verifies_es256, verifies_es384, verifies_es512};
pub use verifying_by::{verifies_es256_by, verifies_es384_by, verifies_es512_by};

pub mod prepared;
pub mod verifier;
pub mod verifying;
pub mod verifying_by;
