//! One question a request: whether it is let through, and by which claims, or the first cause why not.
//!
//! [`decide`] says whether all holds of a request but that its proof and its token are new, and what has to be taken for that: it is handed no memory, so it
//! can't use anything up. A memory or a store is asked then, for the proof first, and [`Passed::settle`] is told what it answered, and hands out the claims.
//! [`admit`] is both, over memories of the library's own.
//!
//! ```rust
//! match admit(alloc, &service, &verifiers, &mut books, &call) {
//!     Admission::Admitted(claims) => serve(claims),
//!     other => answer(other.reply(&service)),
//! }
//! ```
#![tactic(auto)]

mod accepting;
mod admission;
mod admitting;
mod asking;
mod books;
mod call;
mod entries;
mod expecting;
mod issuers;
mod judging;
pub mod laws;
mod path;
mod proving;
mod recalling;
mod reply;
mod rule;
mod service;
mod shown;
mod unshown;

pub use admission::{Admission, Passed, Refusal};
pub use admitting::{
    RecalledAdmission, RecalledDecision, admit, admit_by_memory, decide, decide_by_memory,
};
pub use asking::AskingFault;
pub use books::Books;
pub use call::Call;
pub use proving::ProvingFault;
pub use service::{Certificates, Issuer, NamedRule, Proofs, Service};
pub use shown::{Shown, shown_in};
