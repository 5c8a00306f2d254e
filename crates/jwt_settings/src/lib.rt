//! What the words of the command `jwt` settle and its output obeys: how an answer is printed, the moment of a verdict, and what a claim has
//! to be. It stands below both, so that neither waits for the other.
#![tactic(auto)]

mod expectation;
mod moment;
mod printing;

pub use expectation::Expectation;
pub use moment::{LAST_MOMENT, Moment};
pub use printing::Printing;
