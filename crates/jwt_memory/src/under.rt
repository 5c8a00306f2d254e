//! Judges a token by a memory or anew, and hands out its payload.

ghost use Rattle.std.specs.Prelude.{◌≡◌, map};
ghost use Rattle.jwt_verify.specs.Reports.{IsCharged, IsJudged};
ghost use Rattle.jwt_verify.specs.TermsTable.{terms_meant};
ghost use Rattle.jwt_memory.specs.Entries.{HasRoomOf};
ghost use Rattle.jwt_memory.specs.Kept.{AreKept};
ghost use Rattle.jwt_memory.specs.Outcomes.{report_in, paid_in, is_remembered, payload_in, IsFound, KeepsHanded};
ghost use Rattle.jwt_memory.specs.Payloads.{HandsOut};

use crate::handing::PaidReport;
use crate::laws::{accepted_ever, compact_payloads, read_payloads};
use crate::memory::Memory;
use crate::outcome::{Handed, Outcome, payload_of};
use jwt_mac::{Budget, Verifier};
use jwt_policy::check;
use jwt_text::Scratch;
use jwt_verify::{JudgedToken, Terms};
use std::alloc::Global;

impl Memory {
    /// The outcome as [`judge`](crate::judge) gives it, with the payload of the token where it is accepted: a caller who wants its octets
    /// needn't read it again. Where memory for the payload was refused, nothing is kept, and there is none; of a remembered token it needs no
    /// memory. A caller with many tokens keeps the scratch from one to the next: it is what reading needs beside its result, and nothing depends on
    /// what it holds.
    ///
    /// The conditions: the budget is new, and the memory is of the policy, the keys and the verifiers of these terms.
    ///
    /// # Refused
    /// As [`judge`](crate::judge) refuses.
    #[tactic(auto, unfolding(jwt_verify::specs::Table::work))]
    pub fn judge_under<'p, B: Budget>(
        &mut self,
        alloc: Global,
        octets: &[u8],
        terms: &Terms<'_, 'p, '_>,
        budget: &mut B,
        scratch: &mut Scratch,
    ) -> Handed<'p>
        requires no_octets { B.octets budget.old ≡ 0 }
        requires no_calls { B.calls budget.old ≡ 0 }
        requires kept { AreKept terms.now.policy.now terms.now.keys.now
            (map (λ b. meaning (b.vtable, b.value)) terms.now.verifiers.now) self.old }

        // The report is the one of `judge`.
        ensures judged { IsJudged (terms_meant (λ b. meaning (b.vtable, b.value)) terms.now)
            octets.now (B.ceiling budget.old) (report_in result.outcome) }

        // What is handed out is the payload of the token, which is accepted.
        ensures payload { HandsOut terms.now.policy.now octets.now (report_in result.outcome).verdict (payload_in result) }

        // It is remembered only where the memory held these octets, accepted under this ceiling.
        ensures found { IsFound (is_remembered result.outcome) self.old octets.now (B.ceiling budget.old) }

        // The budget counts just what was paid in this call.
        ensures charged { IsCharged (terms_meant (λ b. meaning (b.vtable, b.value)) terms.now)
            octets.now (paid_in result.outcome) (B.octets budget.new) (B.calls budget.new) }
        ensures ceiling { B.ceiling budget.new ≡ B.ceiling budget.old }

        // The memory is still of that policy, those keys and those verifiers. It keeps nothing new but this token, where it is accepted now, with
        // the payload that is handed out.
        ensures kept { AreKept terms.now.policy.now terms.now.keys.now
            (map (λ b. meaning (b.vtable, b.value)) terms.now.verifiers.now) self.new }
        ensures held { KeepsHanded octets.now (B.ceiling budget.old) result self.old self.new }
        ensures room { HasRoomOf self.new self.old }
    {
        accepted_ever();
        compact_payloads();
        read_payloads();
        let ceiling = budget.left();
        match self.recall(octets, ceiling) {
            Some(basis) => {
                let fault = check(terms.policy, &basis.claims, terms.moment);
                Handed {
                    outcome: Outcome::Remembered(basis, fault),
                    payload: None,
                }
            }
            None => {
                let judged = jwt_verify::judge_under(alloc, octets, terms, budget, scratch);
                let payload = payload_of(alloc, &judged);
                let JudgedToken { report, token: _ } = judged;
                let paid = PaidReport {
                    report,
                    payload,
                    cost: budget.octets(),
                };
                self.kept(alloc, octets, ceiling, paid)
            }
        }
    }
}
