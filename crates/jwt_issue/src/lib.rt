//! Issuing of signed JSON Web Tokens (RFC 7519), by HMAC with SHA-2 (RFC 7518, section 3.2), in compact, general JSON and
//! flattened JSON form (RFC 7515, section 7).
//!
//! [`Builder`] gathers claims by name, and [`ClaimSet::from_octets`] takes claims as they stand; both refuse what
//! `jwt_policy::Claims::read` refuses. [`issue_compact`], [`issue_flat`] and [`issue_json`] sign them, and [`issue_by`] signs them with the
//! keys of a set.
//!
//! ```rust
//! use jwt_issue::{Builder, issue_compact};
//! use jwt_mac::{Alg, CountDown};
//!
//! let mut builder = Builder::new(alloc);
//! builder.text("sub", "alice")?;
//! builder.whole("exp", 1_300_819_380)?;
//! let claims = builder.finish()?;
//! let mut budget = CountDown::new(1_000);
//! let token = issue_compact(alloc, &mut budget, Alg::HS256, key, Some("JWT"), &claims)?;
//! ```
//!
//! Every token, cost and refusal is that of `specs/Issued.antt`; `specs/Paying.antt` says what a call takes from its budget.
#![tactic(auto)]

mod builder;
mod claim_set;
mod fault;
mod fitness;
mod general;
mod header;
pub mod laws;
mod options;
mod signer;
mod single;
mod size;
mod writing;

pub use builder::Builder;
pub use claim_set::ClaimSet;
pub use fault::{BuildFault, IssueFault};
pub use general::issue_json;
pub use options::{IssueOptions, issue_by};
pub use single::{issue_compact, issue_flat};
