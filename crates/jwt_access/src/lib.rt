//! The demands of a service on the claims of an accepted token beyond who it is from: scopes and roles (RFC 6749, section 3.3;
//! RFC 9068, section 2.2.3).
//!
//! [`AccessRule::read`] reads the document of a rule, and [`AccessRule::denial`] answers which demand of it the claims don't meet.
//! [`has_scope`] asks for one scope.
//!
//! ```rust
//! use crate::{AccessRule, Moment, has_scope};
//!
//! let rule = AccessRule::read(alloc, b"{\"scopes\":[\"read\"],\"claims\":{\"/realm_access/roles\":[\"editor\",\"admin\"]}}")?;
//! let may = rule.denial(&claims, Moment::under(&policy, now)).is_none();
//! let may_write = has_scope(&claims, "write");
//! ```
//!
//! The claims are those of a token that was accepted: nothing here looks at a signature, an issuer or a date. What takes no
//! [`Global`](std::alloc::Global) takes no memory.
#![tactic(auto)]

mod access_fault;
mod claim_rule;
mod denial;
mod document;
pub mod expected;
mod further;
mod further_kinds;
pub mod laws;
mod member_kinds;
mod moment;
mod place;
mod pointer;
mod rule;
mod scopes;
mod spot;

pub use access_fault::{AccessFault, RuleMember};
pub use denial::{Denial, DeniedName};
pub use moment::Moment;
pub use rule::AccessRule;
pub use scopes::has_scope;
