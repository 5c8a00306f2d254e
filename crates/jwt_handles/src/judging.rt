//! A judging, with what is kept of it.

ghost use Rattle.std.specs.Prelude.{◌≡◌, ◌≢◌, ◌↔◌, ◌⊎◌, None, true, false, IfOk, IfErr, IsTrue, length, option_map};
ghost use Rattle.std.specs.Arc.{arc_value};
ghost use Rattle.jwt_verify.specs.Table.{work};
ghost use Rattle.jwt_verify.specs.Verdict.{checked};
ghost use Rattle.jwt_memory.specs.Outcomes.{report_in, report_of, paid_in, is_remembered, payload_in, payload_unless};
ghost use Rattle.jwt_memory.specs.Payloads.{IsAcceptance};
ghost use Rattle.jwt_handles.specs.declared.state.Evidence.TheVariants.{Shared};
ghost use Rattle.jwt_handles.specs.Evidence.{claims_kept, payload_kept, none_yet};
ghost use Rattle.jwt_handles.specs.Faults.{missing_in, missing_name, bare};
ghost use Rattle.jwt_handles.specs.Reports.{Says, claims_in, report_numbers};

use crate::last::no_moment;
use crate::report::FowReport;
use crate::state::{Evidence, Last};
use jwt_memory::{Basis, Handed, Outcome};
use jwt_policy::{ClaimFault, Claims};
use jwt_verify::{Fault, Report, Verdict};
use std::alloc::{AllocError, Global};
use std::sync::Arc;

/// A judging, with what is to be kept of it.
#[derive(Drop)]
pub(crate) struct Judging {
    pub(crate) said: FowReport,
    pub(crate) last: Last,
}

/// The name of the claim that is missing, where that is the fault.
fn missing_name(alloc: Global, fault: &ClaimFault<'_>) -> Result<Vec<u8>, AllocError>
    ensures { IfOk result (λ v. v.items ≡ missing_name fault.now) }
{
    match fault {
        ClaimFault::ClaimMissing(name) => name.text().as_bytes().to_vec(alloc),
        _ => Ok(Vec::new(alloc)),
    }
}

/// The name of the claim that a verdict finds missing.
fn missing(alloc: Global, verdict: &Verdict<'_>) -> Result<Vec<u8>, AllocError>
    ensures name { IfOk result (λ v. v.items ≡ missing_in verdict.now) }
    ensures fails { IfErr result (λ _. claims_in verdict.now ≡ None) }
{
    match verdict {
        Verdict::Refused(Fault::Claim(fault)) => missing_name(alloc, fault),
        _ => Ok(Vec::new(alloc)),
    }
}

/// A verdict that names nothing more. Nothing is kept of it.
pub(crate) fn bare(alloc: Global, verdict: u32) -> Judging
    ensures numbers { report_numbers result.said ≡ bare verdict }
    ensures claims { claims_kept result.last ≡ None }
    ensures payload { payload_kept result.last ≡ None }
    ensures anew { result.last.remembered ≡ false }
{
    Judging {
        said: FowReport::bare(verdict),
        last: Last::new(alloc),
    }
}

/// The claims of an acceptance.
fn claims_in(verdict: Verdict<'_>) -> Option<Claims>
    ensures { result ≡ claims_in verdict.entry }
{
    match verdict {
        Verdict::Accepted { claims, .. } => Some(claims),
        Verdict::Refused(_) => None,
    }
}

/// The judging that this report is, with the payload of an acceptance. Its tries cost so many octets.
fn kept(report: Report<'_>, payload: Option<Vec<u8>>, cost: u64, missing: Vec<u8>) -> Judging
    requires missing { missing.items ≡ missing_in report.verdict }
    requires cost { cost ≡ work report.tries.items }
    ensures says { Says report.entry result.said result.last }
    ensures payload { payload_kept result.last ≡ option_map (λ v. v.items) payload }
    ensures anew { result.last.remembered ≡ false }
{
    let mut said = FowReport::of(&report.verdict);
    said.tries = report.tries.len() as u64;
    said.work = cost;
    let Report {
        verdict,
        states,
        tries,
    } = report;
    Judging {
        said,
        last: Last {
            evidence: Evidence::Own {
                states,
                tries,
                claims: claims_in(verdict),
                payload,
            },
            missing,
            remembered: false,
            moment: no_moment(),
        },
    }
}

/// The judging whose evidence a memory shares, with its numbers, those of the tries aside.
fn shared(
    numbers: FowReport,
    basis: Arc<Basis>,
    accepted: bool,
    missing: Vec<u8>,
    remembered: bool,
) -> Judging
    ensures numbers { report_numbers result.said ≡ report_numbers numbers }
    ensures tries { result.said.tries ≡ length (arc_value basis).tries.items }
    ensures work { result.said.work ≡ work (arc_value basis).tries.items }
    ensures last { result.last ≡ record {
      evidence = Shared basis accepted;
      missing = missing;
      remembered = remembered;
      moment = none_yet;
    } }
{
    let mut said = numbers;
    said.tries = basis.tries.len() as u64;
    said.work = basis.cost;
    Judging {
        said,
        last: Last {
            evidence: Evidence::Shared { basis, accepted },
            missing,
            remembered,
            moment: no_moment(),
        },
    }
}

/// The judging of a token that is remembered, by what its claims come to.
fn recalled(
    alloc: Global,
    basis: Arc<Basis>,
    fault: Option<ClaimFault<'_>>,
) -> Result<Judging, AllocError>
    ensures says { IfOk result (λ j. Says (report_of (checked (arc_value basis).signature
        (arc_value basis).key (arc_value basis).claims fault.entry) (arc_value basis))
        j.said j.last) }
    ensures remembered { IfOk result (λ j. j.last.remembered ≡ true) }
    ensures payload { IfOk result (λ j. payload_kept j.last ≡ payload_unless fault.entry (arc_value basis).payload.items) }
    ensures fails { IfErr result (λ _. claims_in (checked (arc_value basis).signature
        (arc_value basis).key (arc_value basis).claims fault.entry) ≡ None) }
{
    match fault {
        None => {
            let numbers = FowReport::accepted(basis.signature, basis.key);
            Ok(shared(numbers, basis, true, Vec::new(alloc), true))
        }
        Some(fault) => {
            let missing = missing_name(alloc, &fault)?;
            Ok(shared(FowReport::of_claims(&fault), basis, false, missing, true))
        }
    }
}

/// Whether a report is an acceptance.
fn is_accepted(report: &Report<'_>) -> bool
    ensures { IsTrue result ↔ IsAcceptance report.now.verdict }
{
    match &report.verdict {
        Verdict::Accepted { .. } => true,
        Verdict::Refused(_) => false,
    }
}

/// The judging that a new report is, with the payload of an acceptance. So many octets were paid for it.
///
/// # Errors
/// Where memory was refused, also for the payload of an acceptance.
fn judged(
    alloc: Global,
    report: Report<'_>,
    payload: Option<Vec<u8>>,
    paid: u64,
) -> Result<Judging, AllocError>
    requires { paid ≡ work report.tries.items }
    ensures says { IfOk result (λ j. Says report.entry j.said j.last) }
    ensures anew { IfOk result (λ j. j.last.remembered ≡ false) }
    ensures payload { IfOk result (λ j. payload_kept j.last ≡ option_map (λ v. v.items) payload) }
    ensures whole { IfOk result (λ _. IsAcceptance report.entry.verdict → payload ≢ None) }
    ensures fails { IfErr result (λ _. (claims_in report.entry.verdict ≡ None) ⊎ (payload ≡ None)) }
{
    if payload.is_none() && is_accepted(&report) {
        return Err(AllocError);
    }
    let missing = missing(alloc, &report.verdict)?;
    Ok(kept(report, payload, paid, missing))
}

/// The judging that an outcome is, with the payload that it hands out. So many octets were paid for it.
///
/// # Errors
/// Where memory was refused, also for the payload of an acceptance.
pub(crate) fn judging_of(
    alloc: Global,
    handed: Handed<'_>,
    paid: u64,
) -> Result<Judging, AllocError>
    requires { paid ≡ work (paid_in handed.outcome) }
    ensures says { IfOk result (λ j. Says (report_in handed.entry.outcome) j.said j.last) }
    ensures remembered { IfOk result (λ j. j.last.remembered ≡ is_remembered handed.entry.outcome) }
    ensures payload { IfOk result (λ j. payload_kept j.last ≡ payload_in handed.entry) }
    ensures whole { IfOk result (λ j. IsAcceptance (report_in handed.entry.outcome).verdict → payload_in handed.entry ≢ None) }
    ensures fails { IfErr result (λ _. (claims_in (report_in handed.entry.outcome).verdict ≡ None)
        ⊎ (payload_in handed.entry ≡ None)) }
{
    let Handed { outcome, payload } = handed;
    match outcome {
        Outcome::Judged(report) => judged(alloc, report, payload, paid),
        Outcome::Accepted(basis) => {
            let numbers = FowReport::accepted(basis.signature, basis.key);
            Ok(shared(numbers, basis, true, Vec::new(alloc), false))
        }
        Outcome::Remembered(basis, fault) => recalled(alloc, basis, fault),
    }
}
