//! Judging a token, and what is kept of its report.

ghost use Rattle.jwt_handles.specs.declared.status.TheConstants.{FOW_ABSENT, FOW_NOT_OPEN, FOW_OK, FOW_OUT_OF_MEMORY, FOW_REFUSED};
ghost use Rattle.std.specs.Prelude.{◌≡◌, ◌≢◌, ◌≤◌, IfSome, None, slice_get, IsUtf8, false};
ghost use Rattle.jwt_handles.specs.Documents.{documents};
ghost use Rattle.jwt_handles.specs.Reports.{IsAlike, report_numbers};
ghost use Rattle.jwt_handles.specs.Evidence.{states_kept, tries_kept, claims_kept, payload_kept, IsMomentBy};
ghost use Rattle.jwt_handles.specs.Faults.{bare};
ghost use Rattle.jwt_handles.specs.Keeping.{RemembersProved};
ghost use Rattle.jwt_handles.specs.Payloads.{KeepsPayloadBy};
ghost use Rattle.jwt_handles.specs.Remembering.{Remembers};
ghost use Rattle.jwt_handles.specs.Written.{PutsHeld, PutsName, IsState, IsTry, PutsSome, PutsNumber, claim_text_at, number_at};
ghost use Rattle.jwt_handles.specs.Proving.{IsProvedBy};

use crate::handle::{Handle, take};
use crate::proving::judge_state;
use crate::remembering::remember_state;
use crate::report::{FowReport, FowState, FowTry};
use crate::status::{FOW_ABSENT, FOW_NOT_OPEN, FOW_OK};
use crate::writing::{number_at, put, put_claim};
use std::alloc::Global;

/// Judges a token at a moment, in seconds since 1970-01-01T00:00:00Z, by the proved verifiers of RSA, ECDSA and Ed25519, and answers the
/// verdict, which the report has too.
pub fn judge(
    validator: &mut Handle,
    alloc: Global,
    token: &[u8],
    now: i64,
    report: &mut FowReport,
) -> u32
    ensures verdict { result ≡ report.new.verdict }
    ensures none { validator.old.state ≡ None → report_numbers report.new ≡ bare FOW_NOT_OPEN }
    ensures open { validator.old.state ≢ None → result ≤ FOW_OUT_OF_MEMORY }
    ensures alike { IsAlike validator.old.state validator.new.state }

    // What is accepted or refused is judged by validate's contract, and what is kept of it is its report.
    ensures judged { IfSome validator.old.state (λ d. result ≤ FOW_REFUSED
        → IsProvedBy d now token.now report.new validator.new.state) }
    ensures unused { result ≢ 2 }

    // So is the moment, against which an access rule holds dates.
    ensures moment { IfSome validator.old.state (λ d. IsMomentBy (documents d).policy now validator.new.state) }

    // Claims are kept of an acceptance alone, and so are the octets of the payload, which are those of the token.
    ensures claims { IfSome validator.new.state (λ e. result ≢ FOW_OK → claims_kept e.last ≡ None) }
    ensures payload { IfSome validator.old.state (λ d. KeepsPayloadBy (documents d).policy token.now result validator.new.state) }

    // It remembers nothing new but this token, where it is accepted.
    ensures remembers { IfSome validator.old.state (λ d. RemembersProved d token.now report.new validator.new.state) }
{
    let Some(mut state) = take(validator, alloc) else {
        *report = FowReport::bare(FOW_NOT_OPEN);
        return FOW_NOT_OPEN;
    };
    let said = judge_state(alloc, &mut state, token, now);
    *report = said;
    *validator = Handle::of(state);
    said.verdict
}

/// Remembers from now on at most so many tokens of at most so many octets each that [`judge`] accepts; none where `tokens` is 0. What was remembered is forgotten. `FOW_OK`; `FOW_OUT_OF_MEMORY`: memory was refused, and what was
/// remembered stays; `FOW_NOT_OPEN`: nothing is held.
pub fn remember(validator: &mut Handle, alloc: Global, tokens: usize, octets: usize) -> u32
    ensures none { validator.old.state ≡ None → (result ≡ FOW_NOT_OPEN) × (validator.new.state ≡ None) }
    ensures remembers { IfSome validator.old.state (λ d. result ≡ FOW_OK
        → Remembers tokens octets d validator.new.state) }
    ensures refused { validator.old.state ≢ None → result ≢ FOW_OK → result ≡ FOW_OUT_OF_MEMORY }
    ensures same { result ≢ FOW_OK → validator.new.state ≡ validator.old.state }
{
    let Some(mut state) = take(validator, alloc) else {
        return FOW_NOT_OPEN;
    };
    let status = remember_state(alloc, &mut state, tokens, octets);
    *validator = Handle::of(state);
    status
}

/// Whether the last verdict came out of a memory: then nothing was tried for it, and nothing paid.
pub fn remembered(validator: &mut Handle, alloc: Global) -> bool
    ensures same { validator.new.state ≡ validator.old.state }
    ensures none { validator.old.state ≡ None → result ≡ false }
    ensures remembered { IfSome validator.old.state (λ d. result ≡ d.last.remembered) }
{
    let Some(state) = take(validator, alloc) else {
        return false;
    };
    let remembered = state.last.remembered;
    *validator = Handle::of(state);
    remembered
}

/// What became of a signature of the token that was judged last. `FOW_OK`; `FOW_ABSENT`: the report has no such signature;
/// `FOW_NOT_OPEN`: nothing is held.
pub fn state_of(
    validator: &mut Handle,
    alloc: Global,
    signature: u32,
    written: &mut FowState,
) -> u32
    ensures same { validator.new.state ≡ validator.old.state }
    ensures none { validator.old.state ≡ None → result ≡ FOW_NOT_OPEN }
    ensures state { IfSome validator.old.state (λ d.
        IsState (slice_get (states_kept d.last) signature) result written.new) }
    ensures unwritten { result ≢ FOW_OK → written.new ≡ written.old }
{
    let Some(state) = take(validator, alloc) else {
        return FOW_NOT_OPEN;
    };
    let status = match state.last.states().get(signature as usize) {
        Some(found) => {
            *written = FowState::of(*found);
            FOW_OK
        }
        None => FOW_ABSENT,
    };
    *validator = Handle::of(state);
    status
}

/// A try of the last judging, from 0. `FOW_OK`; `FOW_ABSENT`: the report has no such try; `FOW_NOT_OPEN`: nothing
/// is held.
pub fn try_of(validator: &mut Handle, alloc: Global, n: u64, tried: &mut FowTry) -> u32
    ensures same { validator.new.state ≡ validator.old.state }
    ensures none { validator.old.state ≡ None → result ≡ FOW_NOT_OPEN }
    ensures tried { IfSome validator.old.state (λ d.
        IsTry (slice_get (tries_kept d.last) n) result tried.new) }
    ensures unwritten { result ≢ FOW_OK → tried.new ≡ tried.old }
{
    let Some(state) = take(validator, alloc) else {
        return FOW_NOT_OPEN;
    };
    let status = match state.last.tries().get(n as usize) {
        Some(found) => {
            *tried = FowTry::of(*found);
            FOW_OK
        }
        None => FOW_ABSENT,
    };
    *validator = Handle::of(state);
    status
}

/// Writes the name of the claim that the last judging found missing. `FOW_OK`; `FOW_NOT_OPEN`: nothing is held; `FOW_TOO_SHORT`:
/// `out` is too short; `FOW_ABSENT`: it found none missing, or one whose name is empty.
pub fn refused_claim(
    validator: &mut Handle,
    alloc: Global,
    out: &mut [u8],
    written: &mut usize,
) -> u32
    ensures same { validator.new.state ≡ validator.old.state }
    ensures none { validator.old.state ≡ None → result ≡ FOW_NOT_OPEN }
    ensures name { IfSome validator.old.state (λ d. PutsName
        d.last.missing.items result written.new out.old out.new) }
    ensures unwritten { result ≢ FOW_OK → (out.new ≡ out.old) × (written.new ≡ written.old) }
{
    let Some(state) = take(validator, alloc) else {
        return FOW_NOT_OPEN;
    };
    let status = if state.last.missing.is_empty() {
        FOW_ABSENT
    } else {
        put(&state.last.missing, out, written)
    };
    *validator = Handle::of(state);
    status
}

/// Writes the octets of the payload of the token that was accepted last. `FOW_OK`; `FOW_NOT_OPEN`: nothing is held; `FOW_TOO_SHORT`: `out` is
/// too short; `FOW_ABSENT`: the last verdict was no acceptance.
pub fn accepted_payload(
    validator: &mut Handle,
    alloc: Global,
    out: &mut [u8],
    written: &mut usize,
) -> u32
    ensures same { validator.new.state ≡ validator.old.state }
    ensures none { validator.old.state ≡ None → result ≡ FOW_NOT_OPEN }
    ensures payload { IfSome validator.old.state (λ d. PutsHeld
        (payload_kept d.last) result written.new out.old out.new) }
    ensures unwritten { result ≢ FOW_OK → (out.new ≡ out.old) × (written.new ≡ written.old) }
{
    let Some(state) = take(validator, alloc) else {
        return FOW_NOT_OPEN;
    };
    let status = match state.last.payload() {
        Some(payload) => put(payload, out, written),
        None => FOW_ABSENT,
    };
    *validator = Handle::of(state);
    status
}

/// Writes the compact JSON text of a claim, a text or a list of texts, of the token that was accepted last. `FOW_OK`;
/// `FOW_OUT_OF_MEMORY`: memory was refused; `FOW_NOT_OPEN`: nothing is held; `FOW_TOO_SHORT`: `out` is too short; `FOW_ABSENT`: there
/// is no such claim, or the last verdict was no acceptance.
pub fn claim(
    validator: &mut Handle,
    alloc: Global,
    name: &[u8],
    out: &mut [u8],
    written: &mut usize,
) -> u32
    ensures same { validator.new.state ≡ validator.old.state }
    ensures none { validator.old.state ≡ None → result ≡ FOW_NOT_OPEN }
    ensures claim { IfSome validator.old.state (λ d. IsUtf8 name.now
        → PutsSome (claim_text_at (claims_kept d.last) name.now) result written.new out.old out.new) }
    ensures other { IfSome validator.old.state (λ d. ¬ IsUtf8 name.now → result ≡ FOW_ABSENT) }
    ensures unwritten { result ≢ FOW_OK → (out.new ≡ out.old) × (written.new ≡ written.old) }
{
    let Some(state) = take(validator, alloc) else {
        return FOW_NOT_OPEN;
    };
    let status = put_claim(alloc, state.last.claims(), name, out, written);
    *validator = Handle::of(state);
    status
}

/// A claim of the token that was accepted last, where it is a whole number of 64 signed bits. `FOW_OK`; `FOW_NOT_OPEN`: nothing is
/// held; `FOW_ABSENT`: there is no such claim, or the last verdict was no acceptance.
pub fn number(validator: &mut Handle, alloc: Global, name: &[u8], number: &mut i64) -> u32
    ensures same { validator.new.state ≡ validator.old.state }
    ensures none { validator.old.state ≡ None → result ≡ FOW_NOT_OPEN }
    ensures claim { IfSome validator.old.state (λ d. IsUtf8 name.now
        → PutsNumber (number_at (claims_kept d.last) name.now) result number.new) }
    ensures other { IfSome validator.old.state (λ d. ¬ IsUtf8 name.now → result ≡ FOW_ABSENT) }
    ensures unwritten { result ≢ FOW_OK → number.new ≡ number.old }
{
    let Some(state) = take(validator, alloc) else {
        return FOW_NOT_OPEN;
    };
    let status = match number_at(state.last.claims(), name) {
        Some(found) => {
            *number = found;
            FOW_OK
        }
        None => FOW_ABSENT,
    };
    *validator = Handle::of(state);
    status
}
