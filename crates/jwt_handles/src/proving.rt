//! A token judged by the proved verifiers.

ghost use Rattle.jwt_handles.specs.declared.status.TheConstants.{FOW_OK, FOW_OUT_OF_MEMORY, FOW_REFUSED};
ghost use Rattle.std.specs.Prelude.{◌≡◌, ◌≢◌, ◌≤◌, map};
ghost use Rattle.jwt_verify.specs.Reports.{IsReport, terms};
ghost use Rattle.jwt_verify.specs.Table.{work};
ghost use Rattle.jwt_memory.specs.Outcomes.{report_in, paid_in, is_remembered, payload_in};
ghost use Rattle.jwt_memory.specs.Payloads.{HandsOut};
ghost use Rattle.jwt_access.specs.Moments.{moment_under};
ghost use Rattle.jwt_handles.specs.Documents.{documents};
ghost use Rattle.jwt_handles.specs.Evidence.{claims_kept, payload_kept};
ghost use Rattle.jwt_handles.specs.Keeping.{AddsHanded, AddsOnly};
ghost use Rattle.jwt_handles.specs.Payloads.{KeepsPayload};
ghost use Rattle.jwt_handles.specs.ProvedKept.{AreProvedKept, HasSameRoom, lent_documents, proved_meanings};
ghost use Rattle.jwt_handles.specs.Proving.{IsProved};
ghost use Rattle.jwt_handles.specs.Remembering.{IsHeldIn};

use crate::grounds::{Documents, SharedGrounds};
use crate::judging::{Judging, bare, judging_of};
use crate::report::FowReport;
use crate::state::State;
use crate::status::FOW_OUT_OF_MEMORY;
use jwt_access::Moment;
use jwt_mac::{Budget, Verifier};
use jwt_memory::laws::read_payloads;
use jwt_memory::{Handed, Memory};
use jwt_text::Scratch;
use jwt_verify::{Terms, judge_under};
use std::alloc::Global;

/// What is handed out, with the octets that were paid for it.
#[derive(Drop)]
struct PaidHanded<'p> {
    handed: Handed<'p>,
    cost: u64,
}

/// What is handed out under terms whose verifiers mean what the proved ones do, over a memory where there is one, under a new budget of
/// the policy's `work`.
#[tactic(auto, unfolding(jwt_verify::specs::Table::work))]
fn outcome_under<'p>(
    alloc: Global,
    memory: &mut Option<Memory>,
    octets: &[u8],
    under: &Terms<'_, 'p, '_>,
    scratch: &mut Scratch,
) -> PaidHanded<'p>
    requires meanings { map (λ b. meaning (b.vtable, b.value)) under.now.verifiers.now ≡ proved_meanings }
    requires kept { AreProvedKept (lent_documents under.now) memory.old }
    ensures report { IsReport
        (terms under.now.policy.now under.now.keys.now under.now.moment proved_meanings)
        octets.now under.now.policy.now.run.work (report_in result.handed.outcome) }
    ensures payload { HandsOut under.now.policy.now octets.now
        (report_in result.handed.outcome).verdict (payload_in result.handed) }
    ensures held { IsHeldIn (is_remembered result.handed.outcome) memory.old
        octets.now under.now.policy.now.run.work }
    ensures paid { result.cost ≡ work (paid_in result.handed.outcome) }
    ensures kept { AreProvedKept (lent_documents under.now) memory.new }
    ensures room { HasSameRoom memory.new memory.old }
    ensures adds { AddsHanded under.now.policy.now.run.work octets.now result.handed memory.old memory.new }
{
    read_payloads();
    let mut budget = under.policy.budget();
    match memory {
        Some(memory) => {
            let handed = memory.judge_under(alloc, octets, under, &mut budget, scratch);
            PaidHanded {
                handed,
                cost: budget.octets(),
            }
        }
        None => {
            let judged = judge_under(alloc, octets, under, &mut budget, scratch);
            PaidHanded {
                handed: Handed::of(alloc, judged),
                cost: budget.octets(),
            }
        }
    }
}

/// The judging under such terms.
fn judging_under(
    alloc: Global,
    memory: &mut Option<Memory>,
    octets: &[u8],
    under: &Terms<'_, '_, '_>,
    scratch: &mut Scratch,
) -> Judging
    requires meanings { map (λ b. meaning (b.vtable, b.value)) under.now.verifiers.now ≡ proved_meanings }
    requires kept { AreProvedKept (lent_documents under.now) memory.old }
    ensures judged { result.said.verdict ≤ FOW_REFUSED
        → IsProved (lent_documents under.now, memory.old) under.now.moment octets.now
        result.said result.last }
    ensures unused { result.said.verdict ≢ 2 }
    ensures claims { result.said.verdict ≢ FOW_OK → claims_kept result.last ≡ None }
    ensures payload { KeepsPayload under.now.policy.now octets.now
        result.said.verdict (payload_kept result.last) }
    ensures kept { AreProvedKept (lent_documents under.now) memory.new }
    ensures room { HasSameRoom memory.new memory.old }
    ensures open { result.said.verdict ≤ FOW_OUT_OF_MEMORY }
    ensures adds { AddsOnly under.now.policy.now.run.work octets.now result.said result.last memory.old memory.new }
{
    let PaidHanded { handed, cost } = outcome_under(alloc, memory, octets, under, scratch);
    match judging_of(alloc, handed, cost) {
        Ok(judging) => judging,
        Err(_) => bare(alloc, FOW_OUT_OF_MEMORY),
    }
}

impl Documents {
    /// The terms of a verdict by verifiers that mean what the proved ones do.
    fn proved_terms<'d, 'v>(
        &'d self,
        now: i64,
        verifiers: &'v [Box<dyn Verifier>],
    ) -> Terms<'d, 'd, 'v>
        requires meanings { map meaning verifiers.now ≡ proved_meanings }
        ensures meant { map meaning result.verifiers.now ≡ proved_meanings }
        ensures documents { lent_documents result ≡ self.now }
        ensures moment { result.moment ≡ now }
    {
        Terms {
            keys: &self.keys,
            policy: &self.policy,
            moment: now,
            verifiers,
        }
    }
}

impl SharedGrounds {
    /// The judging of a token by the documents and the verifiers of RSA, ECDSA and Ed25519, over a memory where there is one.
    pub(crate) fn judging_by_proof(
        &self,
        alloc: Global,
        memory: &mut Option<Memory>,
        octets: &[u8],
        now: i64,
        scratch: &mut Scratch,
    ) -> Judging
        requires kept { AreProvedKept self.now.documents memory.old }
        ensures judged { result.said.verdict ≤ FOW_REFUSED
            → IsProved (self.now.documents, memory.old) now octets.now result.said result.last }
        ensures unused { result.said.verdict ≢ 2 }
        ensures claims { result.said.verdict ≢ FOW_OK → claims_kept result.last ≡ None }
        ensures payload { KeepsPayload self.now.documents.policy octets.now
            result.said.verdict (payload_kept result.last) }
        ensures kept { AreProvedKept self.now.documents memory.new }
        ensures room { HasSameRoom memory.new memory.old }
        ensures open { result.said.verdict ≤ FOW_OUT_OF_MEMORY }
        ensures adds { AddsOnly self.now.documents.policy.run.work octets.now result.said result.last memory.old memory.new }
    {
        let Ok(verifier) = Box::new(alloc, self.verifiers.share()) else {
            return bare(alloc, FOW_OUT_OF_MEMORY);
        };
        let verifiers: [Box<dyn Verifier>; 1] = [verifier];
        let terms = self.documents.proved_terms(now, &verifiers);
        judging_under(alloc, memory, octets, &terms, scratch)
    }
}

/// Judges a token, and keeps the report.
pub(crate) fn judge_state(alloc: Global, state: &mut State, octets: &[u8], now: i64) -> FowReport
    ensures judged { result.verdict ≤ FOW_REFUSED
        → IsProved state.old.grounds now octets.now result state.new.last }
    ensures unused { result.verdict ≢ 2 }
    ensures claims { result.verdict ≢ FOW_OK → claims_kept state.new.last ≡ None }
    ensures payload { KeepsPayload (documents state.old).policy octets.now
        result.verdict (payload_kept state.new.last) }
    ensures moment { state.new.last.moment ≡ moment_under (documents state.old).policy now }
    ensures documents { documents state.new ≡ documents state.old }
    ensures room { HasSameRoom state.new.grounds.1 state.old.grounds.1 }
    ensures open { result.verdict ≤ FOW_OUT_OF_MEMORY }
    ensures adds { AddsOnly (documents state.old).policy.run.work octets.now result state.new.last
        state.old.grounds.1 state.new.grounds.1 }
{
    let Judging { said, mut last } = state.grounds.judge(alloc, octets, now, &mut *state.scratch);
    last.moment = Moment::under(&state.grounds.documents().policy, now);
    state.last = last;
    said
}
