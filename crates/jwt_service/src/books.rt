//! What was taken.

ghost use Rattle.std.specs.Prelude.{◌≡◌, ◌↔◌, IsTrue};
ghost use Rattle.jwt_possession.specs.declared.once.once.Taken.TheVariants.{New};
ghost use Rattle.jwt_service.specs.Taking.{IsEntryTaken};

use crate::call::Call;
use jwt_possession::once::{Entry, Once, Taken};

/// The proofs and the tokens that were taken.
#[derive(Drop)]
pub struct Books {
    /// The proofs.
    pub proofs: Once,
    /// The tokens, where they count once.
    pub tokens: Once,
}

/// Whether the answer is that it is new.
pub(crate) fn is_new(answer: Taken) -> bool
    ensures { IsTrue result ↔ (answer ≡ New) }
{
    match answer {
        Taken::New => true,
        _ => false,
    }
}

/// Takes what is held by this entry, where there is one.
pub(crate) fn take(entry: Option<Entry>, memory: &mut Once, call: &Call<'_>) -> Taken
    ensures { IsEntryTaken entry call.now memory.old result memory.new }
{
    match entry {
        Some(entry) => memory.take_entry(entry, call.moment),
        None => Taken::New,
    }
}
