//! The way of an answer to standard output.
ghost use Rattle.std.specs.Prelude.{IfErr, IfOk};
ghost use Rattle.jwt_output.specs.Printed.{Prints, out_of_memory};
ghost use Rattle.jwt_output.specs.Views.{reply_view};

use crate::reply::Reply;
use jwt_text::{Sink, write_out};
use std::alloc::AllocError;

/// Sends a whole answer.
pub fn send<W: Sink>(w: &mut W, text: &[u8], status: u8) -> u8
    ensures { Prints (record { text = text.now; status = status })
        (W.contents w.old) (W.contents w.new) (W.failed w.new) result }
{
    match write_out(w, text) {
        Ok(()) => status,
        Err(_) => 3,
    }
}

/// Sends an answer, where memory was there.
pub fn give<W: Sink>(w: &mut W, reply: Result<Reply, AllocError>) -> u8
    ensures ok { IfOk reply
        (λ a. Prints (reply_view a) (W.contents w.old) (W.contents w.new) (W.failed w.new) result) }
    ensures err { IfErr reply
        (λ _. Prints out_of_memory (W.contents w.old) (W.contents w.new) (W.failed w.new) result) }
{
    match reply {
        Ok(reply) => send(w, reply.text.as_slice(), reply.status),
        Err(_) => lack_memory(w),
    }
}

/// Prints that an allocation was refused, and answers the status 4, or 3 where a write fails.
pub fn lack_memory<W: Sink>(w: &mut W) -> u8
    ensures { Prints out_of_memory (W.contents w.old) (W.contents w.new) (W.failed w.new) result }
{
    send(w, b"failed OutOfMemory\n", 4)
}
