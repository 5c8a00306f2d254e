//! What one call knows of the claims of a token, and whether they have it: the `nonce` that was sent with a login, the subject and the
//! session of a user, the access token that an identity token was given out with.
//!
//! ```rust
//! use jwt_access::expected::{Expected, Wanted, first_unmet};
//!
//! let expected = [
//!     Expected { claim: "nonce", wanted: Wanted::Text(nonce) },
//!     Expected { claim: "at_hash", wanted: Wanted::HalfHash(access_token) },
//! ];
//! let may = first_unmet(&expected, &claims, alg).is_none();
//! ```
//!
//! The claims are those of a token that was accepted, and `alg` is the algorithm of its signature that verified. Nothing here takes memory.

mod claim;
mod expected;
mod half_hash;
pub mod laws;
mod token;

pub use expected::{Expected, Unmet, Wanted, first_unmet};
