//! The state behind the handle of a policy for proofs of possession.

use jwt_possession::{Possession, ProofPolicy};

/// A policy for proofs, and what the last proof showed, where it was accepted.
#[derive(Drop)]
pub struct PossessionState {
    pub(crate) policy: ProofPolicy,
    pub(crate) last: Option<Possession>,
}
