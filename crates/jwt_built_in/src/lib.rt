//! The verifier of signatures by public keys: RSA, ECDSA and Ed25519, with some keys prepared or none.
//!
//! ```rust
//! use jwt_built_in::{BuiltIn, PREPARED_KEYS};
//!
//! let mut verifiers: Vec<Box<dyn Verifier>> = Vec::new(alloc);
//! verifiers.push(Box::new(alloc, BuiltIn::prepared(alloc, &keys, PREPARED_KEYS))?)?;
//! ```
#![tactic(auto)]

pub use built_in::{BuiltIn, PREPARED_KEYS};

mod built_in;
mod prepared;
