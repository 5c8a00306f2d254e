//! Nonces by time, and whether the proof that was accepted last has one.

ghost use Rattle.jwt_handles.specs.declared.status.TheConstants.{FOW_NOT_OPEN, FOW_OK, FOW_REFUSED};
ghost use Rattle.std.specs.Prelude.{◌≡◌, ◌≢◌, IfSome, None, option_map};
ghost use Rattle.jwt_possession.specs.Nonces.{MakesNonces, making, nonce_of};
ghost use Rattle.jwt_handles.specs.Nonces.{SaysFresh, SaysNonce};
ghost use Rattle.jwt_handles.specs.Written.{Puts};

use crate::possession_handle::{PossessionHandle, take_possession};
use crate::status::{FOW_ABSENT, FOW_NOT_EXPECTED, FOW_NOT_OPEN, FOW_OK, FOW_REFUSED};
use crate::writing::put;
use jwt_possession::{Nonces, Possession};
use std::alloc::Global;

/// Writes the nonce of the period in which `now` falls at the front of `out`. `FOW_OK`; `FOW_REFUSED`: the secret has fewer than 32 octets, or the period
/// is 0; `FOW_TOO_SHORT`: `out` is too short.
pub fn nonce(secret: &[u8], period: u32, now: i64, out: &mut [u8], written: &mut usize) -> u32
    ensures nonce { MakesNonces (record { secret = secret.now; period = period })
        → Puts (nonce_of (record { secret = secret.now; period = period }) now) result written.new out.old out.new }
    ensures refused { ¬ MakesNonces (record { secret = secret.now; period = period }) → result ≡ FOW_REFUSED }
    ensures unwritten { result ≢ FOW_OK → (out.new ≡ out.old) × (written.new ≡ written.old) }
{
    match Nonces::of(secret, period) {
        Some(nonces) => put(&nonces.at(now), out, written),
        None => FOW_REFUSED,
    }
}

/// Whether the proof that is kept has a nonce of now. `FOW_OK`; `FOW_NOT_EXPECTED`: it has another, or none; `FOW_ABSENT`: there is no proof.
fn say_nonce(nonces: &Nonces<'_>, kept: Option<&Possession>, now: i64) -> u32
    ensures { SaysNonce (making nonces.now) now (option_map (λ p. p.now) kept.entry) result }
{
    match kept {
        Some(possession) => if nonces.accepts(possession.claims(), now) {
            FOW_OK
        } else {
            FOW_NOT_EXPECTED
        },
        None => FOW_ABSENT,
    }
}

/// The same by this secret and this period. `FOW_REFUSED`: they make no nonces.
fn say_fresh(secret: &[u8], period: u32, kept: Option<&Possession>, now: i64) -> u32
    ensures { SaysFresh (record { secret = secret.now; period = period }) now
        (option_map (λ p. p.now) kept.entry) result }
{
    match Nonces::of(secret, period) {
        Some(nonces) => say_nonce(&nonces, kept, now),
        None => FOW_REFUSED,
    }
}

/// Whether the nonce of the proof that was accepted last is that of the period in which `now` falls, or of the one before. `FOW_OK`: it is;
/// `FOW_NOT_EXPECTED`: the proof has another, or none; `FOW_REFUSED`: the secret has fewer than 32 octets, or the period is 0; `FOW_NOT_OPEN`: nothing is
/// held; `FOW_ABSENT`: no proof is kept.
pub fn possession_fresh(
    possession: &mut PossessionHandle,
    alloc: Global,
    secret: &[u8],
    period: u32,
    now: i64,
) -> u32
    ensures same { possession.new.state ≡ possession.old.state }
    ensures none { possession.old.state ≡ None → result ≡ FOW_NOT_OPEN }
    ensures fresh { IfSome possession.old.state (λ p. SaysFresh
        (record { secret = secret.now; period = period }) now p.last result) }
{
    let Some(state) = take_possession(possession, alloc) else {
        return FOW_NOT_OPEN;
    };
    let status = say_fresh(secret, period, state.last.as_ref(), now);
    *possession = PossessionHandle::of(state);
    status
}
