//! JSON Web Key sets (RFC 7517) and the thumbprints of their keys (RFC 7638).
//!
//! [`KeySet::read`] reads a document whose object has the list `keys`. An entry that is no readable key is
//! skipped and listed with its reason; it never refuses the set. The readable keys are numbered from 0 in the order
//! of their entries, and [`KeySet::with_kid`] finds them by `kid` or by thumbprint.
#![tactic(auto)]

mod entry;
mod fault;
mod index;
mod key;
mod kind;
pub mod laws;
mod material;
mod set;
mod shape;
mod skip;
mod thumbprint;

pub use fault::KeysFault;
pub use key::Key;
pub use set::KeySet;
pub use skip::{Skip, SkipReason};
