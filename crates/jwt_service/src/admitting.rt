//! The one question.

ghost use Rattle.std.specs.Prelude.{List, map};
ghost use Rattle.jwt_mac.specs.Verifying.{Meaning};
ghost use Rattle.jwt_memory.specs.Entries.{HasRoomOf};
ghost use Rattle.jwt_service.specs.Asking.{IsRuleOf};
ghost use Rattle.jwt_service.specs.Admission.{IsAcceptedAs, IsDecided, IsAdmission};
ghost use Rattle.jwt_service.specs.Recalled.{IsMemoryOf, IsRecalled};

use crate::accepting::{AcceptedToken, RecalledToken, accepted, accepted_by_memory};
use crate::admission::{Admission, Passed, Refusal};
use crate::asking::asked;
use crate::books::{Books, is_new, take};
use crate::call::Call;
use crate::entries::{proof_entry, token_entry};
use crate::expecting::unmet;
use crate::proving::held;
use crate::rule::denial;
use crate::service::{NamedRule, Service};
use crate::unshown::unshown;
use jwt_mac::Verifier;
use jwt_memory::Memory;
use std::alloc::Global;

/// Whether all holds of a request whose token is accepted by this, but that its proof and its token are new.
fn decided<'s>(
    alloc: Global,
    service: &Service<'s>,
    verifiers: &[Box<dyn Verifier>],
    rule: Option<NamedRule<'s>>,
    accepted: Result<AcceptedToken<'s, '_>, Refusal<'s>>,
    call: &Call<'_>,
) -> Result<Passed<'s>, Refusal<'s>>
    requires rule { IsRuleOf service.now call.now rule }
    requires accepted { IsAcceptedAs service.now (map meaning verifiers.now) call.now accepted }
    ensures { IsDecided service.now (map meaning verifiers.now) call.now result }
{
    let AcceptedToken {
        scheme,
        token,
        issuer,
        claims,
        alg,
    } = match accepted {
        Ok(accepted) => accepted,
        Err(refusal) => return Err(refusal),
    };
    match denial(rule, &issuer, &claims, call) {
        None => {}
        Some(denial) => return Err(Refusal::Denied(scheme, denial)),
    }
    match unmet(call, &claims, alg) {
        None => {}
        Some(unmet) => return Err(Refusal::Unexpected(scheme, unmet)),
    }
    let possession = match held(alloc, service, verifiers, scheme, token, &claims, call) {
        Ok(possession) => possession,
        Err(fault) => return Err(Refusal::Unproved(fault)),
    };
    match unshown(alloc, service, call, &claims, &possession) {
        Ok(None) => {}
        Ok(Some(fault)) => return Err(Refusal::Unshown(scheme, fault)),
        Err(_) => return Err(Refusal::OutOfMemory),
    }
    let entry = match token_entry(service, &issuer, &claims, call) {
        Ok(entry) => entry,
        Err(lack) => return Err(Refusal::Lacking(scheme, lack)),
    };
    Ok(Passed {
        issuer,
        scheme,
        proof: proof_entry(&possession),
        token: entry,
        claims,
    })
}

/// Whether all holds of the request but that its proof and its token are new, and what is to be taken for that; else the first cause why not. Nothing is taken.
pub fn decide<'s>(
    alloc: Global,
    service: &Service<'s>,
    verifiers: &[Box<dyn Verifier>],
    call: &Call<'_>,
) -> Result<Passed<'s>, Refusal<'s>>
    ensures { IsDecided service.now (map meaning verifiers.now) call.now result }
{
    let rule = match asked(service, call) {
        Ok(rule) => rule,
        Err(fault) => return Err(Refusal::Misasked(fault)),
    };
    let accepted = accepted(alloc, service, verifiers, call);
    decided(alloc, service, verifiers, rule, accepted, call)
}

/// What [`decide_by_memory`] answers.
#[derive(Drop)]
#[must_use]
pub struct RecalledDecision<'s> {
    /// The answer of [`decide`].
    pub decision: Result<Passed<'s>, Refusal<'s>>,
    /// Whether the verdict on the token was remembered: no signature of it was verified.
    pub remembered: bool,
}

/// The answer of [`decide`], with a memory of the tokens that the service's own issuer accepts. Of a token that it holds no signature is verified: its claims are held
/// against the policy at the moment of the call, as those of any other. A token that is accepted is held from now on, where it may be and memory is there. Tokens of
/// other issuers are judged anew each time.
///
/// The condition: the memory is of this service's own policy and keys, and of these verifiers, as one is that was new when it was first handed in with them. New keys begin
/// a new memory.
pub fn decide_by_memory<'s>(
    alloc: Global,
    service: &Service<'s>,
    verifiers: &[Box<dyn Verifier>],
    memory: &mut Memory,
    call: &Call<'_>,
) -> RecalledDecision<'s>
    requires kept { IsMemoryOf service.now (map meaning verifiers.now) memory.old }
    ensures decided { IsDecided service.now (map meaning verifiers.now) call.now result.decision }
    ensures recalled { IsRecalled service.now call.now memory.old result.remembered }
    ensures kept { IsMemoryOf service.now (map meaning verifiers.now) memory.new }
    ensures room { HasRoomOf memory.new memory.old }
{
    let rule = match asked(service, call) {
        Ok(rule) => rule,
        Err(fault) => return RecalledDecision {
            decision: Err(Refusal::Misasked(fault)),
            remembered: false,
        },
    };
    let RecalledToken {
        accepted,
        remembered,
    } = accepted_by_memory(alloc, service, verifiers, memory, call);
    RecalledDecision {
        decision: decided(alloc, service, verifiers, rule, accepted, call),
        remembered,
    }
}

/// What is answered where this was decided of the request: its proof is taken, and its token, where it counts once, last.
fn admission<'s>(
    decision: Result<Passed<'s>, Refusal<'s>>,
    books: &mut Books,
    call: &Call<'_>,
) -> Admission<'s>
    ensures { (service : Service) (verifiers : List Meaning) → IsDecided service verifiers call.now decision.entry
        → IsAdmission service verifiers call.now books.old result books.new }
{
    let passed = match decision {
        Ok(passed) => passed,
        Err(refusal) => return Admission::Refused(refusal),
    };
    let proof = take(passed.proof, &mut books.proofs, call);
    if !is_new(proof) {
        return Admission::ProofNotNew(Some(proof));
    }
    let token = take(passed.token, &mut books.tokens, call);
    if !is_new(token) {
        return Admission::TokenNotNew(passed.scheme, Some(token));
    }
    Admission::Admitted(passed.claims)
}

/// Whether the request is let through, and by which claims; else the first cause why not. Where it is decided that it isn't, nothing is taken; its proof is
/// taken behind that, and its token, where it counts once, last.
pub fn admit<'s>(
    alloc: Global,
    service: &Service<'s>,
    verifiers: &[Box<dyn Verifier>],
    books: &mut Books,
    call: &Call<'_>,
) -> Admission<'s>
    ensures { IsAdmission service.now (map meaning verifiers.now) call.now books.old result books.new }
{
    let decision = decide(alloc, service, verifiers, call);
    admission(decision, books, call)
}

/// What [`admit_by_memory`] answers.
#[derive(Drop)]
#[must_use]
pub struct RecalledAdmission<'s> {
    /// The answer of [`admit`].
    pub admission: Admission<'s>,
    /// Whether the verdict on the token was remembered: no signature of it was verified.
    pub remembered: bool,
}

/// The answer of [`admit`], with a memory as [`decide_by_memory`] has it.
pub fn admit_by_memory<'s>(
    alloc: Global,
    service: &Service<'s>,
    verifiers: &[Box<dyn Verifier>],
    memory: &mut Memory,
    books: &mut Books,
    call: &Call<'_>,
) -> RecalledAdmission<'s>
    requires kept { IsMemoryOf service.now (map meaning verifiers.now) memory.old }
    ensures admission { IsAdmission service.now (map meaning verifiers.now) call.now books.old result.admission books.new }
    ensures recalled { IsRecalled service.now call.now memory.old result.remembered }
    ensures kept { IsMemoryOf service.now (map meaning verifiers.now) memory.new }
    ensures room { HasRoomOf memory.new memory.old }
{
    let RecalledDecision {
        decision,
        remembered,
    } = decide_by_memory(alloc, service, verifiers, memory, call);
    RecalledAdmission {
        admission: admission(decision, books, call),
        remembered,
    }
}
