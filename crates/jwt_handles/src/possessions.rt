//! Proofs of possession: opening a policy for them, judging one, and taking the one that was accepted last.

ghost use Rattle.jwt_handles.specs.declared.status.TheConstants.{FOW_NOT_OPEN, FOW_OK, FOW_OUT_OF_MEMORY};
ghost use Rattle.std.specs.Prelude.{◌≡◌, ◌≢◌, [], IfSome, None, option_map};
ghost use Rattle.jwt_verify.specs.Verdict.{token_of};
ghost use Rattle.jwt_possession.specs.AlgNames.{algs_text};
ghost use Rattle.jwt_possession.specs.Possessions.{proved};
ghost use Rattle.jwt_handles.specs.Documents.{documents};
ghost use Rattle.jwt_handles.specs.Possessing.{HoldsOn, HoldsPolicy, IsPolicyRefused, SaysBeside, SaysFor, TakesKept, TakesProof, claims_of_last, kept_in};
ghost use Rattle.jwt_handles.specs.Written.{Puts, PutsHeld};

use crate::handle::Handle;
use crate::once_handle::{OnceHandle, take_once};
use crate::onces::numbers_of;
use crate::possessing::{Sent, policy_of};
use crate::possession_handle::{PossessionHandle, take_possession};
use crate::status::{FOW_ABSENT, FOW_NOT_OPEN, FOW_OK, FOW_TOO_SHORT};
use crate::writing::put;
use jwt_possession::once::Once;
use jwt_possession::{Possession, ProofPolicy};
use std::alloc::Global;

/// Reads a policy for proofs. `FOW_OK`: it is held from now on; `FOW_REFUSED`: it is refused, for the fault; `FOW_OUT_OF_MEMORY`: memory was
/// refused. On any other status the handle holds what it held.
pub fn possession_open(
    possession: &mut PossessionHandle,
    alloc: Global,
    policy: &[u8],
    fault: &mut u32,
) -> u32
    ensures opened { result ≡ FOW_OK → HoldsPolicy policy.now possession.new.state }
    ensures refused { result ≢ FOW_OK → IsPolicyRefused policy.now result fault.new }
    ensures same { result ≢ FOW_OK → possession.new.state ≡ possession.old.state }
{
    *fault = 0;
    match policy_of(alloc, policy) {
        Ok(state) => {
            *possession = PossessionHandle::of(state);
            FOW_OK
        }
        Err(why) => {
            *fault = why.fault;
            why.status
        }
    }
}

/// Judges a proof to a request, by the proved verifiers, and keeps what it shows. `method`, `uri` and `nonce` are the request's, and an empty
/// nonce is none. `token` is the access token that came with it, which the validator has accepted last; an empty one is none, and then the
/// validator isn't looked at. `FOW_OK`: it is a proof to this request at this moment; `FOW_REFUSED`: it isn't, for the fault;
/// `FOW_OUT_OF_MEMORY`: memory was refused; `FOW_NOT_OPEN`: nothing is held, or the validator that is asked holds nothing; `FOW_ABSENT`: the
/// last verdict was no acceptance, or of another token. On any status but `FOW_OK` no proof is kept.
pub fn possession_judge(
    possession: &mut PossessionHandle,
    alloc: Global,
    validator: &mut Handle,
    sent: Sent<'_>,
    fault: &mut u32,
) -> u32
    ensures same { validator.new.state ≡ validator.old.state }
    ensures none { possession.old.state ≡ None → (result ≡ FOW_NOT_OPEN) × (possession.new.state ≡ None) }
    ensures held { IfSome possession.old.state (λ p. HoldsOn p possession.new.state) }
    ensures unproved { result ≢ FOW_OK → kept_in possession.new.state ≡ None }
    ensures alone { IfSome possession.old.state (λ p. sent.entry.request.token.now ≡ [] → SaysFor p.policy sent.entry.now
        (record {
          method = sent.entry.request.method.now;
          uri = sent.entry.request.uri.now;
          nonce = sent.entry.request.nonce.now;
          token = sent.entry.request.token.now;
        })
        None sent.entry.proof.now result fault.new (kept_in possession.new.state)) }
    ensures no_validator { sent.entry.request.token.now ≢ [] → validator.old.state ≡ None → result ≡ FOW_NOT_OPEN }
    ensures beside { IfSome possession.old.state (λ p. IfSome validator.old.state (λ d.
        sent.entry.request.token.now ≢ [] → result ≢ FOW_OUT_OF_MEMORY → SaysBeside
        (claims_of_last (token_of (documents d).policy sent.entry.request.token.now) d.last) p.policy sent.entry.now
        (record {
          method = sent.entry.request.method.now;
          uri = sent.entry.request.uri.now;
          nonce = sent.entry.request.nonce.now;
          token = sent.entry.request.token.now;
        })
        sent.entry.proof.now result fault.new (kept_in possession.new.state))) }
{
    *fault = 0;
    let Some(mut held) = take_possession(possession, alloc) else {
        return FOW_NOT_OPEN;
    };
    let Sent {
        proof,
        request,
        now,
    } = sent;
    let (status, number) = held.judge(alloc, validator, proof, request, now);
    *fault = number;
    *possession = PossessionHandle::of(held);
    status
}

/// Takes the proof that is kept, where there is one.
fn take_kept(once: &mut Once, kept: Option<&Possession>, now: i64) -> (u32, u32)
    ensures { TakesProof (option_map (λ p. p.now) kept.entry) now once.old result.0 result.1 once.new }
{
    match kept {
        Some(possession) => {
            let before = possession.times().issued < once.opened();
            numbers_of(Ok(possession.take(once, now)), before)
        }
        None => (FOW_ABSENT, 0),
    }
}

/// Takes the proof that was accepted last, unless it was taken before. `now` is the moment of that verdict. `FOW_OK`: it is new, and taken from
/// now on; `FOW_REFUSED`: it isn't, or can't be held, for the reason of the number; `FOW_OUT_OF_MEMORY`: memory was refused; `FOW_NOT_OPEN`:
/// one of the handles holds nothing; `FOW_ABSENT`: no proof is kept.
pub fn possession_take(
    possession: &mut PossessionHandle,
    alloc: Global,
    once: &mut OnceHandle,
    now: i64,
    taken: &mut u32,
) -> u32
    ensures same { possession.new.state ≡ possession.old.state }
    ensures none { possession.old.state ≡ None → (result ≡ FOW_NOT_OPEN) × (once.new.state ≡ once.old.state) }
    ensures no_memory { once.old.state ≡ None → (result ≡ FOW_NOT_OPEN) × (once.new.state ≡ None) }
    ensures taken { IfSome possession.old.state (λ p. IfSome once.old.state (λ o.
        TakesKept p.last now o result taken.new once.new.state)) }
{
    *taken = 0;
    let Some(state) = take_possession(possession, alloc) else {
        return FOW_NOT_OPEN;
    };
    let Some(mut held) = take_once(once, alloc) else {
        *possession = PossessionHandle::of(state);
        return FOW_NOT_OPEN;
    };
    let (status, number) = take_kept(&mut held.once, state.last.as_ref(), now);
    *taken = number;
    *once = OnceHandle::of(held);
    *possession = PossessionHandle::of(state);
    status
}

/// Puts the thumbprint of the key of a proof at the front of `out`. `FOW_OK`; `FOW_TOO_SHORT`: it is too short; `FOW_ABSENT`: there is no
/// proof.
fn put_thumbprint(kept: Option<&Possession>, out: &mut [u8], written: &mut usize) -> u32
    ensures written { PutsHeld (option_map (λ p. (proved p.now).thumbprint) kept.entry) result written.new out.old out.new }
    ensures unwritten { result ≢ FOW_OK → (out.new ≡ out.old) × (written.new ≡ written.old) }
{
    match kept {
        Some(possession) => put(possession.thumbprint().as_bytes(), out, written),
        None => FOW_ABSENT,
    }
}

/// Writes the thumbprint of the key of the proof that was accepted last at the front of `out` (RFC 7638). `FOW_OK`; `FOW_TOO_SHORT`: `out` is
/// too short; `FOW_NOT_OPEN`: nothing is held; `FOW_ABSENT`: no proof is kept.
pub fn possession_thumbprint(
    possession: &mut PossessionHandle,
    alloc: Global,
    out: &mut [u8],
    written: &mut usize,
) -> u32
    ensures same { possession.new.state ≡ possession.old.state }
    ensures none { possession.old.state ≡ None → result ≡ FOW_NOT_OPEN }
    ensures thumbprint { IfSome possession.old.state (λ p. PutsHeld
        (option_map (λ it. (proved it).thumbprint) p.last) result written.new out.old out.new) }
    ensures unwritten { result ≢ FOW_OK → (out.new ≡ out.old) × (written.new ≡ written.old) }
{
    let Some(state) = take_possession(possession, alloc) else {
        return FOW_NOT_OPEN;
    };
    let status = put_thumbprint(state.last.as_ref(), out, written);
    *possession = PossessionHandle::of(state);
    status
}

/// Puts the names of the algorithms of a policy for proofs at the front of `out`, with a space between two. `FOW_OK`; `FOW_TOO_SHORT`: it is too short.
fn put_algs(policy: &ProofPolicy, out: &mut [u8], written: &mut usize) -> u32
    ensures written { Puts (algs_text policy.now.run.algs) result written.new out.old out.new }
    ensures unwritten { result ≢ FOW_OK → (out.new ≡ out.old) × (written.new ≡ written.old) }
{
    match policy.write_algs(out) {
        Some(size) => {
            *written = size;
            FOW_OK
        }
        None => FOW_TOO_SHORT,
    }
}

/// Writes the names of the algorithms of the policy at the front of `out`, with a space between two (RFC 9449, section 7.1). `FOW_OK`; `FOW_TOO_SHORT`: `out`
/// is too short; `FOW_NOT_OPEN`: nothing is held.
pub fn possession_algs(
    possession: &mut PossessionHandle,
    alloc: Global,
    out: &mut [u8],
    written: &mut usize,
) -> u32
    ensures same { possession.new.state ≡ possession.old.state }
    ensures none { possession.old.state ≡ None → result ≡ FOW_NOT_OPEN }
    ensures algs { IfSome possession.old.state (λ p. Puts (algs_text p.policy.run.algs) result written.new out.old out.new) }
    ensures unwritten { result ≢ FOW_OK → (out.new ≡ out.old) × (written.new ≡ written.old) }
{
    let Some(state) = take_possession(possession, alloc) else {
        return FOW_NOT_OPEN;
    };
    let status = put_algs(&state.policy, out, written);
    *possession = PossessionHandle::of(state);
    status
}

/// Frees what is held, if anything is.
pub fn possession_close(possession: &mut PossessionHandle, alloc: Global)
    ensures closed { possession.new.state ≡ None }
{
    *possession = PossessionHandle::empty(alloc);
}
