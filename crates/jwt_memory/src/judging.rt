//! Judges a token, by a memory or anew.

ghost use Rattle.std.specs.Prelude.{◌≡◌, IfSome, false, map};
ghost use Rattle.jwt_jws.specs.Forms.{opens_object};
ghost use Rattle.jwt_verify.specs.Reports.{IsCharged, IsJudged};
ghost use Rattle.jwt_verify.specs.TermsTable.{terms_meant};
ghost use Rattle.jwt_memory.specs.Entries.{HasRoomOf};
ghost use Rattle.jwt_memory.specs.Kept.{AreKept};
ghost use Rattle.jwt_memory.specs.Outcomes.{report_in, paid_in, is_remembered, shared_payload, IsFound, KeepsOnly};
ghost use Rattle.jwt_memory.specs.Payloads.{HandsOut, IsAcceptance, IsCompactPayload};

use crate::handing::PaidReport;
use crate::laws::{accepted_ever, compact_payloads};
use crate::memory::Memory;
use crate::outcome::{Handed, Outcome};
use jwt_jws::{compact_texts, opens_object};
use jwt_mac::{Budget, Verifier};
use jwt_policy::check;
use jwt_text::decode;
use jwt_text::laws::octets_are_spelled;
use jwt_verify::{Terms, Verdict};
use std::alloc::Global;

/// The payload of a token in compact form that is accepted; `None` of any other, and where memory was refused.
fn compact_payload(alloc: Global, verdict: &Verdict<'_>, octets: &[u8]) -> Option<Vec<u8>>
    ensures accepted { IfSome result (λ _. IsAcceptance verdict.now) }
    ensures closed { IfSome result (λ _. opens_object octets.now ≡ false) }
    ensures payload { IfSome result (λ v. IsCompactPayload octets.now v.items) }
{
    let Verdict::Accepted { .. } = verdict else {
        return None;
    };
    if opens_object(octets) {
        return None;
    }
    octets_are_spelled();
    let texts = compact_texts(octets)?;
    decode(alloc, texts.payload).ok()
}

/// The verdict on octets in hand, as [`jwt_verify::judge`] gives it. Where the memory holds the same octets, and they were accepted under
/// this budget's ceiling, nothing is tried: the claims are held against the policy at the moment of these terms, in seconds since
/// 1970-01-01T00:00:00Z, and the report is the one that `judge` would give. What was paid in this call is then nothing.
///
/// The conditions: the budget is new, and the memory is of the policy, the keys and the verifiers of these terms.
///
/// # Refused
/// As [`jwt_verify::judge`] refuses. An acceptance is kept where the token is in compact form, isn't too long for the memory, and memory
/// is there; where none is, nothing is kept and the verdict is the same. A refused token is never kept.
#[tactic(auto, unfolding(jwt_verify::specs::Table::work))]
pub fn judge<'p, B: Budget>(
    memory: &mut Memory,
    alloc: Global,
    octets: &[u8],
    terms: &Terms<'_, 'p, '_>,
    budget: &mut B,
) -> Outcome<'p>
    requires no_octets { B.octets budget.old ≡ 0 }
    requires no_calls { B.calls budget.old ≡ 0 }
    requires kept { AreKept terms.now.policy.now terms.now.keys.now
        (map (λ b. meaning (b.vtable, b.value)) terms.now.verifiers.now) memory.old }

    // The report is the one on the octets: the verdict is theirs, unless memory was refused.
    ensures judged { IsJudged (terms_meant (λ b. meaning (b.vtable, b.value)) terms.now)
        octets.now (B.ceiling budget.old) (report_in result) }

    // It is remembered only where the memory held these octets, accepted under this ceiling.
    ensures found { IsFound (is_remembered result) memory.old octets.now (B.ceiling budget.old) }

    // The budget counts just what was paid in this call. No pair is tried twice, and each is eligible; the octets are within the bound, the
    // calls within the policy's ceiling.
    ensures charged { IsCharged (terms_meant (λ b. meaning (b.vtable, b.value)) terms.now)
        octets.now (paid_in result) (B.octets budget.new) (B.calls budget.new) }
    ensures ceiling { B.ceiling budget.new ≡ B.ceiling budget.old }

    // The memory is still of that policy, those keys and those verifiers.
    ensures kept { AreKept terms.now.policy.now terms.now.keys.now
        (map (λ b. meaning (b.vtable, b.value)) terms.now.verifiers.now) memory.new }
    ensures room { HasRoomOf memory.new memory.old }

    // It keeps nothing new but this token, where it is accepted now.
    ensures held { KeepsOnly octets.now (B.ceiling budget.old) (report_in result) memory.old memory.new }

    // The payload that an outcome has is that of the token, which is accepted.
    ensures payload { HandsOut terms.now.policy.now octets.now (report_in result).verdict (shared_payload result) }
{
    accepted_ever();
    compact_payloads();
    let ceiling = budget.left();
    match memory.recall(octets, ceiling) {
        Some(basis) => {
            let fault = check(terms.policy, &basis.claims, terms.moment);
            Outcome::Remembered(basis, fault)
        }
        None => {
            let report = jwt_verify::judge(
                alloc,
                octets,
                terms.keys,
                terms.policy,
                terms.moment,
                terms.verifiers,
                budget,
            );
            let payload = compact_payload(alloc, &report.verdict, octets);
            let paid = PaidReport {
                report,
                payload,
                cost: budget.octets(),
            };
            let handed = memory.kept(alloc, octets, ceiling, paid);
            let Handed {
                outcome,
                payload: _,
            } = handed;
            outcome
        }
    }
}
