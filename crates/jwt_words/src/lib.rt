//! The words of the command `jwt`: what they ask for, which files they name, and what is said of wrong ones.
//!
//! [`read_words`] reads them by `clap`; [`Command::reads`] is what the command that they ask for reads, and [`unread`] the first of the files
//! that it names that wasn't read.
#![tactic(auto)]

mod app;
mod chosen;
mod command;
mod expectation;
mod in_hand;
mod jwk;
mod nearest;
mod options;
mod policy;
mod pretty;
mod words;
mod wrong;

pub use command::{Command, Files, LinesOrder, Reads};
pub use in_hand::{Held, unread};
pub use jwk::{JwkOrder, KidChoice, SecretOrder};
pub use policy::PolicyOrder;
pub use pretty::PrettyOrder;
pub use words::{WordsFault, read_words};
