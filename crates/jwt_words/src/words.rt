//! The words of the command, read by `clap`.
ghost use Rattle.std.specs.Prelude.{◌≡◌, IfOk, IfErr, None, Some, map};
ghost use Rattle.jwt_words.specs.Words.{HasRange, asks_version, clap_command, command_of};
ghost use Rattle.jwt_words.specs.Examples.{Examples};
ghost use Rattle.jwt_settings.specs.Seen.{seconds_of};
ghost use Rattle.jwt_words.specs.Seen.{IsWrong, command_view};

use crate::app::command;
use crate::chosen::chosen;
use crate::command::Command;
use crate::wrong::unknown_name;
use clap::error::ErrorKind;
use jwt_settings::Moment;
use std::alloc::{AllocError, Global};

/// Why the words ask for nothing.
#[derive(Debug, Drop)]
pub enum WordsFault {
    OutOfMemory,
    /// The words are wrong, and this is what the user reads of it.
    Wrong(String),
}

impl From<AllocError> for WordsFault {
    ghost use Rattle.jwt_words.specs.declared.words.WordsFault.TheVariants.{OutOfMemory};

    ghost from_gives = { λ _ f. f ≡ OutOfMemory };

    fn from(_error: AllocError) -> WordsFault {
        WordsFault::OutOfMemory
    }
}

/// Whether `--version` stands alone behind the name of the program.
fn asks_version(words: &[&str]) -> bool
    ensures { result ≡ asks_version (map (λ w. w.now) words.now) }
{
    match words {
        [_, word] => *word == "--version",
        _ => false,
    }
}

/// What the words ask for at the moment that a clock says, or without a clock.
pub fn read_words<'a>(
    alloc: Global,
    words: &'a [&'a str],
    clock: Option<Moment>,
) -> Result<Command<'a>, WordsFault>
    ensures limits { IfOk result (λ q. HasRange (command_view q)) }
    ensures ok { IfOk result
        (λ q. command_of (seconds_of clock) (map (λ w. w.now) words.now) ≡ Some (command_view q)) }
    ensures err { IfErr result (λ f. IsWrong f
        → command_of (seconds_of clock) (map (λ w. w.now) words.now) ≡ None) }
{
    if asks_version(words) {
        Ok(Command::Version)
    } else {
        read_by_clap(alloc, words, clock)
    }
}

/// What the words ask for by `clap`.
fn read_by_clap<'a>(
    alloc: Global,
    words: &'a [&'a str],
    clock: Option<Moment>,
) -> Result<Command<'a>, WordsFault>
    ensures limits { IfOk result (λ q. HasRange (command_view q)) }
    ensures ok { IfOk result
        (λ q. clap_command (seconds_of clock) (map (λ w. w.now) words.now) ≡ Some (command_view q)) }
    ensures err { IfErr result (λ f. IsWrong f
        → clap_command (seconds_of clock) (map (λ w. w.now) words.now) ≡ None) }
{
    match command(alloc, clock.is_some())?.try_get_matches_from(words) {
        Ok(matches) => match chosen(&matches, clock) {
            Some(command) => Ok(command),
            None => Err(WordsFault::Wrong(unknown_name(alloc, &matches)?)),
        },
        Err(error) => match error.kind() {
            ErrorKind::OutOfMemory => Err(WordsFault::OutOfMemory),
            _ => Err(WordsFault::Wrong(format!(in alloc; "{error}")?)),
        },
    }
}

/// What some words ask for, by the definitions alone.
pub fn some_words()
    ensures { Examples }
{}
