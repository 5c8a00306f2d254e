//! The keys of several issuers: which of them is fetched next, and what becomes of what came.
//!
//! Nothing here opens a socket or a file, reads a clock or takes a lock: whoever holds [`Sources`] tells them the moment and what came, and fetches what
//! they answer. The keys are of any type, as the caller has prepared them.
//!
//! ```rust
//! sources.tell(now);
//! let answer = sources.ask(at, Asker::Token, now);
//! while let Some(job) = sources.next(now) {
//!     let came = fetch(sources.url(job.source), job.within);
//!     let keys = prepare(sources.asked(job.source), &came);
//!     sources.came(alloc, job.ticket, came.status, &came.location, &came.content, keys, now)?;
//! }
//! judge(token, sources.keys(at));
//! ```
#![tactic(auto)]

mod follow;
mod kid;
pub mod laws;
mod place;
mod source;
mod sources;
mod step;
mod why;

pub use place::{Issuer, Place};
pub use source::{Came, Source};
pub use sources::{Job, Outcome, Sources};
pub use step::{Failure, Follows, Keys, Step, Target};
pub use why::Why;
