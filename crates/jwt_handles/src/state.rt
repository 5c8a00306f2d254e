//! The state of a validator.

use crate::grounds::Grounds;
use jwt_access::Moment;
use jwt_memory::Basis;
use jwt_policy::Claims;
use jwt_text::Scratch;
use jwt_verify::{SigState, Try};
use std::sync::Arc;

/// What a report has beside its numbers.
#[derive(Drop)]
pub enum Evidence {
    /// It is the state's own, with the claims and the payload of an acceptance.
    Own {
        states: Vec<SigState>,
        tries: Vec<Try>,
        claims: Option<Claims>,
        payload: Option<Vec<u8>>,
    },
    /// A memory shares it. The claims and the payload count where the token is accepted.
    Shared {
        basis: Arc<Basis>,
        accepted: bool,
    },
}

/// What is kept of the last judging.
#[derive(Drop)]
pub struct Last {
    pub(crate) evidence: Evidence,
    pub(crate) missing: Vec<u8>,
    /// Whether it came out of a memory: then nothing was tried in it.
    pub(crate) remembered: bool,
    /// The moment of the verdict, and the policy's leeway.
    pub(crate) moment: Moment,
}

/// What a validator holds: documents, which those beside it hold too, with a memory of tokens that were accepted; what is kept of the last
/// judging; and scratch memory for reading, whose contents affect nothing. The scratch is large, and so in a box of its own: a state is moved over
/// the stack.
#[derive(Drop)]
pub struct State {
    pub(crate) grounds: Grounds,
    pub(crate) last: Last,
    pub(crate) scratch: Box<Scratch>,
}
