//! The token of a request, by the schemes Bearer (RFC 6750) and DPoP (RFC 9449, section 7), and what is answered to it.
//!
//! Nothing here allocates.
#![tactic(auto)]

mod challenge;
mod credentials;
mod kind;
pub mod laws;
pub mod renewal;
mod replies;
mod scheme;
pub mod urls;

pub use challenge::{Challenge, Texts, is_quotable};
pub use credentials::{Credentials, credentials_of};
pub use replies::{Outcome, Reply, credentials_in, reply_to};
pub use scheme::{Scheme, Schemes};
