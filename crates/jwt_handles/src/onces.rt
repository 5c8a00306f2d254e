//! Memories of tokens that count once: opening one, and taking the token that was accepted last.

ghost use Rattle.jwt_handles.specs.declared.status.TheConstants.{FOW_NOT_OPEN, FOW_OK, FOW_REFUSED, FOW_OUT_OF_MEMORY};
ghost use Rattle.std.specs.Prelude.{◌≡◌, ◌≢◌, ◌↔◌, IfSome, None, option_map};
ghost use Rattle.jwt_handles.specs.Taking.{HoldsNone, SaysTaken, TakesClaims, TakesLast, share_for};
ghost use Rattle.std.specs.NonZero.{non_zero_usize_get};

use crate::handle::{Handle, take};
use crate::once_handle::{OnceHandle, take_once};
use crate::once_state::OnceState;
use crate::status::{FOW_ABSENT, FOW_NOT_OPEN, FOW_OK, FOW_OUT_OF_MEMORY, FOW_REFUSED};
use jwt_policy::{Claims, Policy};
use jwt_possession::once::{Lack, Once, Taken, issued_of};
use std::alloc::Global;
use std::num::NonZeroUsize;

/// The status and the number of an answer, by whether what was asked about may have been accepted before the memory was opened.
pub(crate) fn numbers_of(answer: Result<Taken, Lack>, before: bool) -> (u32, u32)
    ensures { SaysTaken before answer result.0 result.1 }
{
    match answer {
        Ok(Taken::New) => (FOW_OK, 1),
        Ok(Taken::Seen) => (FOW_REFUSED, 2),
        Ok(Taken::Late) => (FOW_REFUSED, if before { 9 } else { 3 }),
        Ok(Taken::OwnFull) => (FOW_REFUSED, 8),
        Ok(Taken::Full) => (FOW_REFUSED, 4),
        Err(Lack::NoId) => (FOW_REFUSED, 5),
        Err(Lack::NoEnd) => (FOW_REFUSED, 6),
        Err(Lack::Ahead) => (FOW_REFUSED, 7),
        Ok(Taken::OutOfMemory) => (FOW_OUT_OF_MEMORY, 0),
    }
}

/// Takes the token of these claims, where there are any.
fn take_claims(once: &mut Once, policy: &Policy, claims: Option<&Claims>, now: i64) -> (u32, u32)
    ensures { TakesClaims policy.now (option_map (λ c. c.now) claims.entry) now once.old result.0 result.1 once.new }
{
    match claims {
        Some(claims) => {
            let before = issued_of(policy, claims) < once.opened();
            numbers_of(once.take_accepted(policy, claims, now), before)
        }
        None => (FOW_ABSENT, 0),
    }
}

/// How many one owner may have: where nothing is said, a sixteenth of the room.
fn share_for(tokens: NonZeroUsize, share: usize) -> NonZeroUsize
    ensures { non_zero_usize_get result ≡ share_for (non_zero_usize_get tokens) share }
{
    match NonZeroUsize::new(share) {
        Some(share) => share,
        None => match NonZeroUsize::new(tokens.get() / 16) {
            Some(sixteenth) => sixteenth,
            None => NonZeroUsize::MIN,
        },
    }
}

/// Makes an empty memory for at most so many tokens, of each owner's at most `share`, or a sixteenth where that is 0, opened at this moment: what may have been
/// accepted before it is Late. `FOW_OK`: it is held from now on; `FOW_REFUSED`: it would be for none; `FOW_OUT_OF_MEMORY`: memory was refused. On any other
/// status the handle holds what it held.
pub fn once_open(
    once: &mut OnceHandle,
    alloc: Global,
    tokens: usize,
    share: usize,
    opened: u64,
) -> u32
    ensures opened { result ≡ FOW_OK → HoldsNone tokens share opened once.new.state }
    ensures refused { (result ≡ FOW_REFUSED) ↔ (tokens ≡ 0) }
    ensures statuses { result ≢ FOW_OK → result ≢ FOW_REFUSED → result ≡ FOW_OUT_OF_MEMORY }
    ensures same { result ≢ FOW_OK → once.new.state ≡ once.old.state }
{
    let Some(tokens) = NonZeroUsize::new(tokens) else {
        return FOW_REFUSED;
    };
    let state = OnceState {
        once: Once::new(alloc, tokens, opened, share_for(tokens, share)),
    };
    match Box::new(alloc, state) {
        Ok(state) => {
            *once = OnceHandle::of(state);
            FOW_OK
        }
        Err(_) => FOW_OUT_OF_MEMORY,
    }
}

/// Takes the token that the validator accepted last, unless it was taken before. `now` is that verdict's moment. `FOW_OK`: it is new, and taken
/// from now on; `FOW_REFUSED`: it isn't, or can't be held, for the reason of the number; `FOW_OUT_OF_MEMORY`: memory was refused;
/// `FOW_NOT_OPEN`: the validator or the memory's handle holds nothing; `FOW_ABSENT`: the last verdict was no acceptance.
pub fn once_take(
    once: &mut OnceHandle,
    alloc: Global,
    validator: &mut Handle,
    now: i64,
    taken: &mut u32,
) -> u32
    ensures same { validator.new.state ≡ validator.old.state }
    ensures none { validator.old.state ≡ None → (result ≡ FOW_NOT_OPEN) × (once.new.state ≡ once.old.state) }
    ensures no_memory { once.old.state ≡ None → (result ≡ FOW_NOT_OPEN) × (once.new.state ≡ None) }
    ensures taken { IfSome validator.old.state (λ d. IfSome once.old.state (λ o.
        TakesLast d now o result taken.new once.new.state)) }
{
    *taken = 0;
    let Some(state) = take(validator, alloc) else {
        return FOW_NOT_OPEN;
    };
    let Some(mut held) = take_once(once, alloc) else {
        *validator = Handle::of(state);
        return FOW_NOT_OPEN;
    };
    let policy = &state.grounds.documents().policy;
    let (status, number) = take_claims(&mut held.once, policy, state.last.claims(), now);
    *taken = number;
    *once = OnceHandle::of(held);
    *validator = Handle::of(state);
    status
}

/// Frees what is held, if anything is.
pub fn once_close(once: &mut OnceHandle, alloc: Global)
    ensures closed { once.new.state ≡ None }
{
    *once = OnceHandle::empty(alloc);
}
