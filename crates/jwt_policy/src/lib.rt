//! The demands of a policy on signatures, keys and claims (RFC 8725).
//!
//! [`Policy::read`] reads the policy's document. Under it [`bar`] answers why a signature is refused before any key is
//! tried, [`eligible`] which keys may be tried on it, and [`check`] why the claims of a payload are refused at a moment;
//! [`Claims::read`] reads those claims (RFC 7519, section 4).
//!
//! ```rust
//! use jwt_policy::{Claims, Policy, check};
//!
//! let policy = Policy::read(alloc, b"{\"algs\":[\"HS256\"],\"audiences\":[\"api\"],\"required\":[\"exp\"],\"leeway\":60}")?;
//! let claims = Claims::read(alloc, b"{\"aud\":\"api\",\"exp\":1300819380}")?;
//! let holds = check(&policy, &claims, 1_300_819_379).is_none();
//! ```
//!
//! Nothing here verifies a signature. What takes no [`Global`](std::alloc::Global) takes no memory.
#![tactic(auto)]

mod algorithm;
mod bars;
mod checks;
mod claim_fault;
mod claims;
mod crit;
mod document;
mod eligibility;
mod header;
mod in_service;
pub mod laws;
mod media;
mod member_kinds;
mod mode;
mod policy;
mod policy_fault;
mod sig_fault;
mod texts;

pub use algorithm::{can_verify, known_alg};
pub use bars::{alg_or_bar, bar};
pub use checks::check;
pub use claim_fault::{Claim, ClaimFault, ClaimName};
pub use claims::{Audience, Claims};
pub use eligibility::{eligible, fits, is_for};
pub use mode::Mode;
pub use policy::Policy;
pub use policy_fault::{MemberName, PolicyFault};
pub use sig_fault::SigFault;
pub use texts::is_among;
