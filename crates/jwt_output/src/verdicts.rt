//! The output of the command `jwt` for what is judged: lines and JSON of a verdict, with or without an access rule and what is expected of a claim, and of what a policy means, or a service document.
mod demands;
mod denied;
pub mod laws;
mod meant;
mod members;
mod service;
mod verdict;

pub use demands::Demands;
pub use meant::{explained_note, printed_policy};
pub use service::printed_service;
pub use verdict::printed_report;
