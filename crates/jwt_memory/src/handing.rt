//! What a memory keeps of a judging.

ghost use Rattle.std.specs.Prelude.{◌≡◌, ◌⊎◌, IfSome, Some, false, option_map};
ghost use Rattle.std.specs.Arc.{arc_value};
ghost use Rattle.jwt_jws.specs.Forms.{opens_object};
ghost use Rattle.jwt_verify.specs.Table.{work};
ghost use Rattle.jwt_memory.specs.Entries.{Holds, HasRoomOf};
ghost use Rattle.jwt_memory.specs.Outcomes.{report_in, paid_in, report_of, acceptance_of, is_remembered, payload_in, KeepsHanded};
ghost use Rattle.jwt_memory.specs.Payloads.{IsAcceptance, IsCompactPayload};

use crate::memory::{Basis, Memory};
use crate::outcome::{Handed, Outcome};
use jwt_verify::{Report, Verdict};
use std::alloc::Global;
use std::sync::Arc;

/// A report on a token in hand, with what was paid for it.
#[derive(Drop)]
pub(crate) struct PaidReport<'p> {
    /// The report.
    pub(crate) report: Report<'p>,
    /// The payload of the token, where the report is an acceptance and memory was there.
    pub(crate) payload: Option<Vec<u8>>,
    /// The octets that the report's tries cost.
    pub(crate) cost: u64,
}

impl Memory {
    /// The outcome that an acceptance is. The memory keeps it, where it may and memory is there.
    fn accepted<'p>(
        &mut self,
        alloc: Global,
        octets: &[u8],
        ceiling: u64,
        basis: Basis,
    ) -> Handed<'p>
        requires payload { opens_object octets.now ≡ false → IsCompactPayload octets.now basis.payload.items }
        ensures report { report_in result.outcome ≡ report_of (acceptance_of basis) basis }
        ensures paid { paid_in result.outcome ≡ basis.tries.items }
        ensures anew { is_remembered result.outcome ≡ false }
        ensures payload { payload_in result ≡ Some basis.payload.items }
        ensures held { (entry : _) → Holds self.new entry → Holds self.old entry
            ⊎ ((entry.octets.items ≡ octets.now) × (entry.ceiling ≡ ceiling)
            × (arc_value entry.basis ≡ basis)) }
        ensures room { HasRoomOf self.new self.old }
    {
        match Arc::new(alloc, basis) {
            Ok(basis) => {
                self.keep(alloc, octets, ceiling, &basis);
                Handed {
                    outcome: Outcome::Accepted(basis),
                    payload: None,
                }
            }
            Err(refused) => refused.value.into_handed(),
        }
    }

    /// What a report on the octets hands out, with the payload where it is an acceptance. The memory keeps an acceptance with its payload,
    /// where it may and memory is there.
    pub(crate) fn kept<'p>(
        &mut self,
        alloc: Global,
        octets: &[u8],
        ceiling: u64,
        paid: PaidReport<'p>,
    ) -> Handed<'p>
        requires cost { paid.cost ≡ work paid.report.tries.items }
        requires accepted { IfSome paid.payload (λ _. IsAcceptance paid.report.verdict) }
        requires payload { IfSome paid.payload (λ v. opens_object octets.now ≡ false → IsCompactPayload octets.now v.items) }
        ensures report { report_in result.outcome ≡ paid.entry.report }
        ensures paid { paid_in result.outcome ≡ paid.entry.report.tries.items }
        ensures anew { is_remembered result.outcome ≡ false }
        ensures payload { payload_in result ≡ option_map (λ v. v.items) paid.entry.payload }
        ensures held { KeepsHanded octets.now ceiling result self.old self.new }
        ensures room { HasRoomOf self.new self.old }
    {
        let PaidReport {
            report,
            payload,
            cost,
        } = paid;
        let Some(payload) = payload else {
            return Handed {
                outcome: Outcome::Judged(report),
                payload: None,
            };
        };
        let Report {
            verdict,
            states,
            tries,
        } = report;
        match verdict {
            Verdict::Accepted {
                signature,
                key,
                claims,
            } => {
                let basis = Basis {
                    signature,
                    key,
                    claims,
                    payload,
                    states,
                    tries,
                    cost,
                };
                self.accepted(alloc, octets, ceiling, basis)
            }
            Verdict::Refused(fault) => Handed {
                outcome: Outcome::Judged(Report {
                    verdict: Verdict::Refused(fault),
                    states,
                    tries,
                }),
                payload: None,
            },
        }
    }
}
