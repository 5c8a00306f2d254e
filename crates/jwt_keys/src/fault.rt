//! The causes to refuse a key set, and to skip an entry.

ghost use Rattle.std.specs.Prelude.{◌≡◌};
ghost use Rattle.jwt_keys.specs.declared.fault.EntryFault.TheVariants.{OutOfMemory};

use crate::skip::SkipReason;
use std::alloc::{AllocError, AllocFailed};
use std::error::Error;
use std::fmt;

/// Why a key set is refused.
#[derive(Clone, Copy, Debug, PartialEq, Eq)]
pub enum KeysFault {
    /// An allocation was refused.
    OutOfMemory,
    /// The octets are no JSON text in UTF-8.
    Json,
    /// The text is no object, or the object has no list `keys`.
    NotKeySet,
    /// A name stands twice in one object, at any depth.
    NameTwice,
    /// The list `keys` has more than 1,024 entries, readable or not.
    TooManyKeys,
    /// There are more than 4,194,304 octets.
    TooLong,
}

impl KeysFault {
    ghost use Rattle.jwt_keys.specs.FaultNames.{keys_fault_name};

    /// The name of the fault, that of its variant, as the program `jwt` prints it.
    pub fn name(self) -> &'static str
        ensures { result.now ≡ keys_fault_name self }
    {
        match self {
            KeysFault::OutOfMemory => "OutOfMemory",
            KeysFault::Json => "Json",
            KeysFault::NotKeySet => "NotKeySet",
            KeysFault::NameTwice => "NameTwice",
            KeysFault::TooManyKeys => "TooManyKeys",
            KeysFault::TooLong => "TooLong",
        }
    }
}

/// Why an entry that is an object gives no key.
#[derive(Clone, Copy, Debug, PartialEq, Eq)]
pub(crate) enum EntryFault {
    OutOfMemory,
    Skipped(SkipReason),
}

impl From<AllocError> for EntryFault {
    ghost from_gives = { λ _ e. e ≡ OutOfMemory };

    fn from(_error: AllocError) -> EntryFault {
        EntryFault::OutOfMemory
    }
}

impl<T: Drop> From<AllocFailed<T>> for EntryFault {
    ghost from_gives = { λ _ e. e ≡ OutOfMemory };

    fn from(_error: AllocFailed<T>) -> EntryFault {
        EntryFault::OutOfMemory
    }
}

/// What a fault says, in words.
fn words(fault: KeysFault) -> &'static str {
    match fault {
        KeysFault::OutOfMemory => "out of memory",
        KeysFault::Json => "not JSON",
        KeysFault::NotKeySet => "not a key set",
        KeysFault::NameTwice => "a name stands twice",
        KeysFault::TooManyKeys => "too many keys",
        KeysFault::TooLong => "too long",
    }
}

impl fmt::Display for KeysFault {
    fn fmt<W: fmt::Write>(&self, f: &mut fmt::Formatter<W>) -> fmt::Result {
        f.write_str(words(*self))
    }
}

impl Error for KeysFault {}
