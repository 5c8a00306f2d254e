//! A verifier of Ed25519 signatures: EdDSA (RFC 8037, section 3.1) with that curve, by the formulas of RFC 8032, section 5.1.
//!
//! ```rust
//! use jwt_ed25519::Ed25519;
//! use jwt_mac::{CountDown, Verifier};
//! use jwt_text::Reader;
//! use jwt_verify::validate;
//!
//! let mut verifiers: Vec<Box<dyn Verifier>> = Vec::new(alloc);
//! verifiers.push(Box::new(alloc, Ed25519)?)?;
//! let mut budget = CountDown::new(policy.work());
//! let report = validate(alloc, &mut Reader::new(input), &keys, &policy, now, &verifiers, &mut budget);
//! ```
//!
//! Keys of small order are refused, and those whose octets aren't canonical. A key of Ed448 is answered Invalid. Verifying
//! allocates nothing, so the verifier never answers NoMemory. It has no secret: nothing is promised of time.
//!
//! A service that verifies many tokens by few keys prepares these once, and pushes this verifier in place of `Ed25519`; its answers
//! are the same:
//!
//! ```rust
//! let mut verifier = PreparedEd25519::new(alloc, 16);
//! for key in keys.iter() {
//!     verifier.prepare(alloc, &key.view());
//! }
//! verifiers.push(Box::new(alloc, verifier)?)?;
//! ```
#![tactic(auto)]

pub use held::PreparedKeys;
pub use prepared::prepare;
pub use verifier::{Ed25519, PreparedEd25519};
pub use verifying::{is_key, verifies, verifies_by};

mod decoding;
mod encoding;
mod field;
mod held;
pub mod laws;
mod limbs;
mod multiples;
mod point;
mod prepared;
mod scalar;
pub mod verifier;
pub mod verifying;
mod windows;
