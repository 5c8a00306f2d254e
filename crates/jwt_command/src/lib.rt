//! The command `jwt`, over any source and sink: its words, one input, one answer.
//!
//! [`run_read`](run::run_read) is the whole of it; the program gives it the process's words, which it has read by [`read_words`], standard
//! input and standard output, its clock, the verifiers for public keys, and the documents of the files that the words name, which
//! [`read_document`](documents::read_document) reads. [`run`](run::run) reads the words first, and has none of the others at hand. What a
//! run came to is [`Ran`](subject::Ran): the status, and the document that was refused.
//! [`line`](input::line::line) takes one line of an input, and nothing behind it.
//!
//! `jwt_words` reads the words, `jwt_output` writes the output; the answers are made here.
#![tactic(auto)]

mod access;
mod clock;
pub mod documents;
pub mod input;
mod issue;
mod jwk;
mod keys;
mod mac;
mod policy;
mod private;
pub mod run;
mod service;
mod show;
pub mod subject;
mod telling;
mod verify;
pub mod verify_lines;
mod version;

pub use jwt_settings::Moment;
pub use jwt_words::{Command, Files, Reads, WordsFault, read_words};
pub use version::VERSION;
