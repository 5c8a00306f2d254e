//! The verdict on a token that may be remembered.

ghost use Rattle.std.specs.Prelude.{◌≡◌, ◌≢◌, ℕ, Some, Ok, map, IfOk, IfErr};
ghost use Rattle.serde_json.specs.Data.{Members};
ghost use Rattle.jwt_mac.specs.declared.algorithm.Alg.{Alg};
ghost use Rattle.jwt_jws.specs.Views.{token};
ghost use Rattle.jwt_policy.specs.ClaimKinds.{claims_of};
ghost use Rattle.jwt_verify.specs.Asks.{IsToken};
ghost use Rattle.jwt_verify.specs.declared.report.Fault.TheVariants.{OutOfMemory};
ghost use Rattle.jwt_verify.specs.declared.report.Verdict.TheVariants.{Accepted, Refused};
ghost use Rattle.jwt_memory.specs.Entries.{HasRoomOf};
ghost use Rattle.jwt_memory.specs.Kept.{AreKept};
ghost use Rattle.jwt_memory.specs.Outcomes.{report_in, is_remembered, IsFound};
ghost use Rattle.jwt_service.specs.Judged.{alg_at, TellsOf, IsVerifiedIn, IsJudgedAs};

use crate::call::Call;
use crate::judging::{Verified, alg_at};
use crate::service::Issuer;
use jwt_jws::Signed;
use jwt_mac::Verifier;
use jwt_memory::{Handed, Memory, Outcome};
use jwt_policy::laws::payload_claims;
use jwt_policy::{ClaimFault, Claims};
use jwt_text::Scratch;
use jwt_verify::laws::tells_tokens;
use jwt_verify::{Fault, Report, Terms, Verdict};
use std::alloc::{AllocError, Global};

/// A verdict, and whether it was remembered: no signature was verified for it.
#[derive(Drop)]
pub(crate) struct RecalledVerdict<'s> {
    pub(crate) verdict: Result<Verified, Fault<'s>>,
    pub(crate) remembered: bool,
}

/// The terms of a verdict by an issuer's policy and keys, at the moment of a call.
fn terms_of<'s, 'v>(
    issuer: &Issuer<'s>,
    verifiers: &'v [Box<dyn Verifier>],
    call: &Call<'_>,
) -> Terms<'s, 's, 'v>
    ensures meanings { map meaning result.verifiers.now ≡ map meaning verifiers.now }
    ensures policy { result.policy.now ≡ issuer.now.policy.now }
    ensures keys { result.keys.now ≡ issuer.now.keys.now }
    ensures moment { result.moment ≡ call.now.moment }
{
    Terms {
        keys: issuer.keys,
        policy: issuer.policy,
        moment: call.moment,
        verifiers,
    }
}

/// Whether the outcome was remembered.
fn is_remembered(outcome: &Outcome<'_>) -> bool
    ensures { result ≡ is_remembered outcome.now }
{
    match outcome {
        Outcome::Judged(_) | Outcome::Accepted(_) => false,
        Outcome::Remembered(..) => true,
    }
}

/// The signature by which this verdict accepts a token, or why it is refused.
fn signature_of<'s>(verdict: Verdict<'s>) -> Result<u32, Fault<'s>>
    ensures accepted { IfOk result (λ signature. (key : ℕ) × (claims : Members) × (verdict.entry ≡ Accepted signature key claims)) }
    ensures refused { IfErr result (λ fault. verdict.entry ≡ Refused fault) }
{
    match verdict {
        Verdict::Accepted {
            signature,
            key: _,
            claims: _claims,
        } => Ok(signature),
        Verdict::Refused(fault) => Err(fault),
    }
}

/// The signature by which the token is accepted, or why it is refused.
fn signature_in<'s>(outcome: Outcome<'s>) -> Result<u32, Fault<'s>>
    ensures accepted { IfOk result (λ signature. (key : ℕ) × (claims : Members) × ((report_in outcome.entry).verdict ≡ Accepted signature key claims)) }
    ensures refused { IfErr result (λ fault. (report_in outcome.entry).verdict ≡ Refused fault) }
{
    match outcome {
        Outcome::Judged(report) => {
            let Report {
                verdict,
                states: _,
                tries: _,
            } = report;
            signature_of(verdict)
        }
        Outcome::Accepted(basis) => Ok(basis.signature),
        Outcome::Remembered(basis, fault) => match fault {
            None => Ok(basis.signature),
            Some(fault) => Err(Fault::Claim(fault)),
        },
    }
}

/// The claims of a token that is accepted by this signature, and the algorithm that its header names.
fn verified_by(alloc: Global, signed: &Signed<'_>, signature: u32) -> Result<Verified, AllocError>
    requires alg { (alg : Alg) × (alg_at (token signed.now) signature ≡ Some alg) }
    requires claims { (claims : Members) × (claims_of (token signed.now).payload ≡ Ok claims) }
    ensures alg { IfOk result (λ it. alg_at (token signed.now) signature ≡ Some it.alg) }
    ensures claims { IfOk result (λ it. claims_of (token signed.now).payload ≡ Ok it.claims) }
{
    let alg = match alg_at(signed, signature) {
        Some(alg) => alg,
        None => unreachable!(),
    };
    match Claims::read(alloc, signed.payload()) {
        Ok(claims) => Ok(Verified { claims, alg }),
        Err(fault) => match fault {
            ClaimFault::OutOfMemory => Err(AllocError),
            _ => unreachable!(),
        },
    }
}

/// The claims of the token that was read, and its algorithm, where the outcome accepts it; else why it doesn't.
fn verified_in<'s>(
    alloc: Global,
    outcome: Outcome<'s>,
    signed: &Signed<'_>,
) -> Result<Verified, Fault<'s>>
    requires { TellsOf (report_in outcome).verdict (token signed.now) }
    ensures accepted { IfOk result (IsVerifiedIn (report_in outcome.entry).verdict (token signed.now)) }
    ensures refused { IfErr result (λ fault. fault ≢ OutOfMemory → (report_in outcome.entry).verdict ≡ Refused fault) }
{
    let signature = match signature_in(outcome) {
        Ok(signature) => signature,
        Err(fault) => return Err(fault),
    };
    match verified_by(alloc, signed, signature) {
        Ok(verified) => Ok(verified),
        Err(_) => Err(Fault::OutOfMemory),
    }
}

/// What the issuer's policy accepts of a token that it has read, by the issuer's keys; else why it doesn't. Where the memory holds the token's octets, no signature
/// is verified: its claims are held against the policy at the moment of the call.
pub(crate) fn recalled<'s>(
    alloc: Global,
    issuer: &Issuer<'s>,
    verifiers: &[Box<dyn Verifier>],
    memory: &mut Memory,
    octets: &[u8],
    signed: &Signed<'_>,
    call: &Call<'_>,
) -> RecalledVerdict<'s>
    requires read { IsToken issuer.now.policy.now octets.now (token signed.now) }
    requires kept { AreKept issuer.now.policy.now issuer.now.keys.now (map meaning verifiers.now) memory.old }
    ensures judged { IsJudgedAs issuer.now (map meaning verifiers.now) call.now octets.now result.verdict }
    ensures found { IsFound result.remembered memory.old octets.now issuer.now.policy.now.run.work }
    ensures kept { AreKept issuer.now.policy.now issuer.now.keys.now (map meaning verifiers.now) memory.new }
    ensures room { HasRoomOf memory.new memory.old }
{
    tells_tokens();
    payload_claims();
    let terms = terms_of(issuer, verifiers, call);
    let mut budget = issuer.policy.budget();
    let mut scratch = Scratch::new(alloc);
    let Handed {
        outcome,
        payload: _,
    } = memory.judge_under(alloc, octets, &terms, &mut budget, &mut scratch);
    let remembered = is_remembered(&outcome);
    RecalledVerdict {
        verdict: verified_in(alloc, outcome, signed),
        remembered,
    }
}
