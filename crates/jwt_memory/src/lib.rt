//! A memory of accepted tokens that changes no verdict.
//!
//! A [`Memory`] keeps tokens that [`judge`] accepted, each with what it was accepted by: the signature, the key, the claims, the payload, the
//! states, the tries. When the same octets come again, nothing is hashed and no verifier is asked: the claims are held against the policy at the new
//! moment. The verdict is the one that [`jwt_verify::judge`] gives, by the same clauses.
//!
//! A memory is of one policy, one key set and one list of verifiers: `AreKept` of `specs/Kept.antt` says of each token that it holds
//! that at every moment the report on it is what its claims come to then. [`Memory::judge_under`] hands out the payload too.
#![tactic(auto)]

mod handing;
mod judging;
pub mod laws;
mod memory;
mod outcome;
mod under;
mod unread;

pub use judging::judge;
pub use memory::{Basis, Memory, MemoryEntry};
pub use outcome::{Handed, Outcome};
pub use unread::untried;
