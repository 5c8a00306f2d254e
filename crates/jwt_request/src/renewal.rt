//! When keys by URL are fetched, and until when they are used.
//!
//! Nothing here opens a socket, reads a clock or takes a lock: whoever holds a [`Renewal`] tells it the moment, and what came of a fetch, and does
//! what it answers.
//!
//! Nothing here allocates.

mod answer;
mod asker;
pub mod laws;
mod renewal;
mod times;
mod waiters;

pub use answer::{Answer, Fetch};
pub use asker::Asker;
pub use renewal::Renewal;
pub use times::Times;
pub use waiters::Waiters;
