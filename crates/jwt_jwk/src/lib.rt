//! The JWK of a key (RFC 7517, section 4), and public keys in PEM and DER as JWKs and key sets.
//!
//! ```rust
//! use jwt_jwk::{Kid, jwk_set_of_pem};
//!
//! // The key set of the public keys of a file, each with its thumbprint as `kid`.
//! let set = jwk_set_of_pem(alloc, &file, Kid::Thumbprint, Some("RS256"))?;
//! ```
//!
//! `jwt_keys` reads the key set as exactly the keys that stand in the file, in their order.
#![tactic(auto)]

pub mod der;
mod fault;
mod kid;
mod pem;
mod public_key;
mod set;
pub mod text_blocks;
mod writing;
mod written;

pub use fault::JwkFault;
pub use kid::Kid;
pub use pem::jwk_of_pem;
pub use public_key::{jwk_of_der, jwk_set_of_der};
pub use set::{jwk_set_of_pem, write_jwk_set};
pub use writing::{thumbprint, write_jwk};
