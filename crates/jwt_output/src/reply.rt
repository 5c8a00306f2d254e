//! The answer of a command: its whole output and its status.
ghost use Rattle.std.specs.Prelude.{◌≡◌, ◌∷◌, [], IfOk};
ghost use Rattle.jwt_output.specs.Printed.{line};

use crate::reasons::Cause;
use std::alloc::{AllocError, Global};

/// The text that a command prints, whole before any of it goes out, and its status.
#[derive(Debug, Drop)]
pub struct Reply {
    pub text: Vec<u8>,
    pub status: u8,

    /// What it refuses or denies something for, so that whoever has more to say of that needn't read the text.
    pub cause: Cause,
}

impl Reply {
    ghost use Rattle.jwt_output.specs.Views.{reply_view};

    /// A text.
    pub fn of(text: Vec<u8>, status: u8) -> Reply
        ensures { reply_view result ≡ record { text = text.items; status = status } }
    {
        Reply {
            text,
            status,
            cause: Cause::None,
        }
    }

    /// A line with this text.
    pub fn line(alloc: Global, text: &str, status: u8) -> Result<Reply, AllocError>
        ensures { IfOk result (λ r. reply_view r ≡ line (text.now ∷ []) status) }
    {
        let text = format!(in alloc; "{text}\n")?.into_bytes();
        Ok(Reply::of(text, status))
    }
}
