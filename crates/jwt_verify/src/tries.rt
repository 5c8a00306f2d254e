//! The pairs of signature and key that are tried, and their cost.

ghost use Rattle.std.specs.Prelude.{◌≡◌, ◌<◌, ◌≤◌, ◌+◌, ◌-◌, ◌^◌, replicate, OnOk, ◌++◌, [], List, length, OnErr, IfOk, MatchResult};
ghost use Rattle.jwt_verify.specs.Table.{work, is_within, paid, IsWholeRun};
ghost use Rattle.jwt_verify.specs.Walk.{HasComeTo, IsCounted, IsRowEnd, IsEnd, stopped_at, goes_on, IsRecorded};
ghost use Rattle.jwt_verify.specs.Paying.{IsFront};
ghost use Rattle.jwt_verify.specs.TermsTable.{terms_table};
ghost use Rattle.jwt_verify.specs.Pairs.{IsFor, IsThere, IsTried, IsSigned};

use crate::live_signature::{LiveSignature, Numbered};
use crate::next_key::next_eligible;
use crate::pair::{Pair, try_pair};
use crate::report::{SigState, Try};
use crate::signature_outcome::{SignatureOutcome, Signing};
use crate::terms::Terms;
use jwt_jws::Signed;
use jwt_mac::{Answer, Budget};
use jwt_policy::{Mode, SigFault};
use std::alloc::AllocError;

/// How a run ended.
#[derive(Clone, Copy)]
pub(crate) enum End {
    /// Each try was made.
    Done,
    /// The cost of this pair, signature and key, exceeds what is left of the budget.
    WorkExceeded(u32, u32),
    /// There were as many calls as the policy allows before this pair.
    CallsExceeded(u32, u32),
    /// The verifier that was asked for this pair lacked memory.
    VerifierMemory(u32, u32),
}

/// How a run ended and, where each try was made, what the signatures come to.
#[derive(Clone, Copy)]
pub(crate) struct RunOutcome {
    pub(crate) end: End,
    pub(crate) signing: Signing,
}

/// How the tries of one signature ended.
#[derive(Clone, Copy)]
enum RowEnd {
    /// Its keys are gone through.
    Through(SignatureOutcome),
    /// The run ends there.
    Stop(End),
}

/// What the try of one pair came to.
#[derive(Clone, Copy)]
enum Tried {
    /// The key verifies the signature.
    Verified,
    /// It doesn't.
    Failed,
    /// The run ends there.
    Stop(End),
}

/// Whether one more call is within the ceiling on calls.
fn allows_call<B: Budget>(budget: &B, max_calls: Option<u32>) -> bool
    ensures { result ≡ is_within max_calls (B.calls budget.now + 1) }
{
    match max_calls {
        None => true,
        Some(most) => budget.calls() < most,
    }
}

/// Tries a pair, where no ceiling stops the run before it: gets room for the try, pays it, and lists it with the cost that the
/// budget counted. Where a ceiling stops it, or room is refused, nothing is paid and nothing is listed.
fn pay<B: Budget>(
    pair: &Pair<'_, '_, '_>,
    max_calls: Option<u32>,
    budget: &mut B,
    tries: &mut Vec<Try>,
) -> Result<Tried, AllocError>
    requires way { IsFor pair.now.alg pair.now.way }
    requires room { length tries.old.items + 1 < 2 ^ 32 }
    requires counted { IsCounted (B.octets budget.old) (B.calls budget.old) (B.ceiling budget.old)
        max_calls tries.old.items }
    ensures ceiling { B.ceiling budget.new ≡ B.ceiling budget.old }
    ensures counted { IsCounted (B.octets budget.new) (B.calls budget.new) (B.ceiling budget.old)
        max_calls tries.new.items }
    ensures err { OnErr result (tries.new.items ≡ tries.old.items) }
    ensures tried { IfOk result
        (IsTried meaning (B.ceiling budget.old) max_calls tries.old.items pair.now
        tries.new.items) }
{
    if !allows_call(budget, max_calls) {
        return Ok(Tried::Stop(End::CallsExceeded(pair.signature, pair.key)));
    }
    tries.reserve(1)?;
    let before = budget.octets();
    let Ok(answer) = try_pair(pair, budget) else {
        return Ok(Tried::Stop(End::WorkExceeded(pair.signature, pair.key)));
    };
    tries.push(Try {
        signature: pair.signature,
        key: pair.key,
        cost: budget.octets() - before,
    })?;
    match answer {
        Answer::Valid => Ok(Tried::Verified),
        Answer::Invalid => Ok(Tried::Failed),
        Answer::NoMemory => Ok(Tried::Stop(End::VerifierMemory(pair.signature, pair.key))),
    }
}

/// The tries of one signature: where nothing bars it, its eligible keys in ascending order, until one verifies it or the run stops.
fn try_signature<'v, B: Budget>(
    terms: &Terms<'_, '_, 'v>,
    numbered: &Numbered<'_, '_>,
    budget: &mut B,
    tries: &mut Vec<Try>,
) -> Result<RowEnd, AllocError>
    requires there { IsThere numbered.now }
    requires at { HasComeTo (terms_table meaning terms.now numbered.now.signed.now)
        numbered.now.number 0 tries.old.items }
    requires counted { IsCounted (B.octets budget.old) (B.calls budget.old) (B.ceiling budget.old)
        terms.now.policy.now.max_calls tries.old.items }
    ensures ceiling { B.ceiling budget.new ≡ B.ceiling budget.old }
    ensures counted { IsCounted (B.octets budget.new) (B.calls budget.new) (B.ceiling budget.old)
        terms.now.policy.now.max_calls tries.new.items }
    ensures end { let t = terms_table meaning terms.now numbered.now.signed.now in
        MatchResult result
        (IsRowEnd t numbered.now.number
        (B.ceiling budget.old) terms.now.policy.now.max_calls tries.new.items)
        (λ _. IsFront t tries.new.items) }
{
    let live = match LiveSignature::of(terms, numbered) {
        Ok(live) => live,
        Err(fault) => return Ok(RowEnd::Through(SignatureOutcome::Barred(fault))),
    };
    let mut outcome = SignatureOutcome::NoKey;
    let mut from = 0;
    'keys: while let Some(pair) = next_eligible(terms, &live, from) {
        match pay(&pair, terms.policy.max_calls(), budget, tries)? {
            Tried::Verified => return Ok(RowEnd::Through(SignatureOutcome::Verified(pair.key))),
            Tried::Failed => outcome = SignatureOutcome::BadSignature,
            Tried::Stop(end) => return Ok(RowEnd::Stop(end)),
        }
        from = pair.key + 1;
    }
    Ok(RowEnd::Through(outcome))
}

/// Whether the run goes on after a signature that was found verified or not.
fn runs_on(mode: Mode, verified: bool) -> bool
    ensures { result ≡ goes_on mode verified }
{
    match mode {
        Mode::Any => !verified,
        Mode::All => verified,
    }
}

/// The tries of the signatures in order, as far as the mode goes on (RFC 7515, section 5.2), and the states of those that were
/// reached. The signature that ends the run decides what they come to, or the first one where the run goes through all.
fn walk<B: Budget>(
    terms: &Terms<'_, '_, '_>,
    signed: &Signed<'_>,
    budget: &mut B,
    tries: &mut Vec<Try>,
    states: &mut Vec<SigState>,
) -> Result<RunOutcome, AllocError>
    requires no_tries { tries.old.items ≡ [] }
    requires no_states { states.old.items ≡ [] }
    requires no_octets { B.octets budget.old ≡ 0 }
    requires no_calls { B.calls budget.old ≡ 0 }
    ensures ceiling { B.ceiling budget.new ≡ B.ceiling budget.old }
    ensures counted { IsCounted (B.octets budget.new) (B.calls budget.new) (B.ceiling budget.old)
        terms.now.policy.now.max_calls tries.new.items }
    ensures end { let t = terms_table meaning terms.now signed.now in
        MatchResult result
        (λ o. IsEnd t (B.ceiling budget.old) terms.now.policy.now.max_calls tries.new.items o.end)
        (λ _. IsFront t tries.new.items) }
    ensures states { let t = terms_table meaning terms.now signed.now in
        IfOk result (λ o. IsRecorded t (stopped_at t o.end) states.new.items) }
    ensures signing { IfOk result
        (λ o. IsSigned (terms_table meaning terms.now signed.now) o.signing o.end) }
{
    let mut signing = Signing::Unverified(0, SigFault::NoKey);
    let mut number = 0;
    'signatures: while let Some(signature) = signed.signature(number) {
        let numbered = Numbered {
            signed,
            number,
            signature,
        };
        let outcome = match try_signature(terms, &numbered, budget, tries)? {
            RowEnd::Through(outcome) => outcome,
            RowEnd::Stop(end) => {
                states.push(SigState::Stopped)?;
                return Ok(RunOutcome { end, signing });
            }
        };
        states.push(outcome.state())?;
        if !runs_on(terms.policy.mode(), outcome.is_verified()) {
            return Ok(RunOutcome {
                end: End::Done,
                signing: outcome.decides(number),
            });
        }
        if number == 0 {
            signing = outcome.decides(0);
        }
        number += 1;
    }
    Ok(RunOutcome {
        end: End::Done,
        signing,
    })
}

/// The signatures that are left were not reached.
fn fill(states: &mut Vec<SigState>, count: u32) -> Result<(), AllocError>
    requires { length states.old.items ≤ count }
    ensures { OnOk result
        (states.new.items
        ≡ states.old.items ++ replicate (count - length states.old.items) SigState.NotReached) }
{
    for _ in states.len()..count as usize {
        states.push(SigState::NotReached)?;
    }
    Ok(())
}

/// Tries the pairs of a token and a list of keys, within the budget's ceiling and the policy's `max_calls`.
pub(crate) fn run<B: Budget>(
    terms: &Terms<'_, '_, '_>,
    signed: &Signed<'_>,
    budget: &mut B,
    tries: &mut Vec<Try>,
    states: &mut Vec<SigState>,
) -> Result<RunOutcome, AllocError>
    requires no_tries { tries.old.items ≡ [] }
    requires no_states { states.old.items ≡ [] }
    requires no_octets { B.octets budget.old ≡ 0 }
    requires no_calls { B.calls budget.old ≡ 0 }

    // The budget agrees with the list, also where memory was refused.
    ensures ceiling { B.ceiling budget.new ≡ B.ceiling budget.old }
    ensures octets { B.octets budget.new ≡ work tries.new.items }
    ensures calls { B.calls budget.new ≡ length tries.new.items }
    ensures front { (more : List Try) × (paid (terms_table meaning terms.now signed.now)
        (B.ceiling budget.old) terms.now.policy.now.max_calls ≡ tries.new.items ++ more) }

    ensures run { IfOk result (λ o. IsWholeRun (terms_table meaning terms.now signed.now)
        (B.ceiling budget.old) terms.now.policy.now.max_calls tries.new.items states.new.items
        o.end) }
    ensures signing { IfOk result
        (λ o. IsSigned (terms_table meaning terms.now signed.now) o.signing o.end) }
{
    let outcome = walk(terms, signed, budget, tries, states)?;
    fill(states, signed.count())?;
    Ok(outcome)
}
