//! The fields of a verdict.
ghost use Rattle.std.specs.Prelude.{◌≡◌, ◌≢◌, ◌++◌, IfOk, OnOk};
ghost use Rattle.jwt_verify.specs.Reports.{FoundMemory};
ghost use Rattle.jwt_verify.specs.declared.report.InputFault.TheVariants.{Read};
ghost use Rattle.jwt_verify.specs.declared.report.Fault.TheVariants.{Text};
ghost use Rattle.jwt_verify.specs.declared.report.Verdict.TheVariants.{Refused};
ghost use Rattle.jwt_output.specs.fields.Verdicts.{accepted_fields, acceptance, answer, claim_fields, evidence, form_fields, lacked_name, pair_fields, part_fields, place_fields, refusal, refused_fields, spot_fields, status_of};
ghost use Rattle.jwt_output.specs.Views.{reply_view};

use crate::Reply;
use crate::fields::field::{FieldName, FieldValue};
use crate::fields::list::Fields;
use crate::refusals::printed_read_fault;
use jwt_access::Denial;
use jwt_jws::{FormFault, Place};
use jwt_policy::ClaimFault;
use jwt_settings::Printing;
use jwt_verify::{Fault, InputFault, Report, Verdict};
use std::alloc::{AllocError, Global};

/// A part of a signature.
fn put_part(out: &mut Fields<'_>, part: &'static str, i: u32) -> Result<(), AllocError>
    ensures { OnOk result (out.new ≡ out.old ++ part_fields part.now i) }
{
    out.word(FieldName::Part, part)?;
    out.count(FieldName::Signature, i as u64)
}

/// Where a text is no base64url.
fn put_spot(out: &mut Fields<'_>, spot: Place) -> Result<(), AllocError>
    ensures { OnOk result (out.new ≡ out.old ++ spot_fields spot) }
{
    match spot {
        Place::Payload => out.word(FieldName::Part, "payload"),
        Place::Protected(i) => put_part(out, "protected", i),
        Place::Signature(i) => put_part(out, "signature", i),
    }
}

/// What a fault of the form names.
pub(crate) fn put_form(out: &mut Fields<'_>, fault: FormFault) -> Result<(), AllocError>
    ensures { OnOk result (out.new ≡ out.old ++ form_fields fault) }
{
    match fault {
        FormFault::Base64(spot) => put_spot(out, spot),
        FormFault::Header(i) | FormFault::UnprotectedKind(i) | FormFault::NamesOverlap(i) => {
            out.count(FieldName::Signature, i as u64)
        }
        _ => Ok(()),
    }
}

/// The claim that a fault names.
pub(crate) fn put_claim<'a>(out: &mut Fields<'a>, fault: &ClaimFault<'a>) -> Result<(), AllocError>
    ensures { OnOk result (out.new ≡ out.old ++ claim_fields fault.now) }
{
    match fault {
        ClaimFault::ClaimKind(claim) | ClaimFault::ClaimDate(claim) => {
            out.put(FieldName::Claim, FieldValue::Text(claim.name()))
        }
        ClaimFault::ClaimMissing(claim) => {
            out.put(FieldName::Claim, FieldValue::Text(claim.text()))
        }
        _ => Ok(()),
    }
}

/// A signature and its key.
fn put_pair(out: &mut Fields<'_>, i: u32, j: u32) -> Result<(), AllocError>
    ensures { OnOk result (out.new ≡ out.old ++ pair_fields i j) }
{
    out.count(FieldName::Signature, i as u64)?;
    out.count(FieldName::Key, j as u64)
}

/// What a fault names.
fn put_place<'a>(out: &mut Fields<'a>, fault: &Fault<'a>) -> Result<(), AllocError>
    ensures { OnOk result (out.new ≡ out.old ++ place_fields fault.now) }
{
    match fault {
        Fault::Form(fault) => put_form(out, *fault),
        Fault::Claim(fault) => put_claim(out, fault),
        Fault::Signature(i, _) => out.count(FieldName::Signature, *i as u64),
        Fault::WorkExceeded(i, j) | Fault::CallsExceeded(i, j) => put_pair(out, *i, *j),
        _ => Ok(()),
    }
}

/// A refusal.
fn put_refused<'a>(out: &mut Fields<'a>, fault: &Fault<'a>) -> Result<(), AllocError>
    ensures { OnOk result (out.new ≡ out.old ++ refused_fields fault.now) }
{
    out.word(FieldName::Verdict, "refused")?;
    out.word(FieldName::Fault, fault.name())?;
    put_place(out, fault)
}

/// What stands in a claims set that lacks something.
fn lacked_name(denial: &Denial<'_>) -> FieldName
    ensures { result ≡ lacked_name denial.now }
{
    match denial {
        Denial::ScopeMissing(_) => FieldName::Scope,
        _ => FieldName::Claim,
    }
}

/// An acceptance, with what the claims lack, if anything.
fn put_accepted<'a>(
    out: &mut Fields<'a>,
    lacks: &Option<Denial<'a>>,
    i: u32,
    j: u32,
    payload: &'a [u8],
) -> Result<(), AllocError>
    ensures { OnOk result (out.new ≡ out.old ++ accepted_fields lacks.now i j payload.now) }
{
    match lacks {
        None => {
            out.word(FieldName::Verdict, "accepted")?;
            put_pair(out, i, j)?;
            out.put(FieldName::Claims, FieldValue::Json(payload))
        }
        Some(denial) => {
            out.word(FieldName::Verdict, "denied")?;
            out.word(FieldName::Denial, denial.name())?;
            out.put(lacked_name(denial), FieldValue::Text(denial.denied()))?;
            put_pair(out, i, j)
        }
    }
}

/// What became of each signature, the tries, and what they cost.
fn put_evidence<'a>(
    out: &mut Fields<'a>,
    report: &'a Report<'_>,
    work: u64,
) -> Result<(), AllocError>
    ensures { OnOk result (out.new
        ≡ out.old ++ evidence report.now.states.items report.now.tries.items work) }
{
    out.put(
        FieldName::Signatures,
        FieldValue::States(report.states.as_slice()),
    )?;
    out.put(FieldName::Tries, FieldValue::Tries(report.tries.as_slice()))?;
    out.count(FieldName::Work, work)
}

/// The status of an acceptance: 0, or 1 where its claims lack something.
fn status_of(lacks: &Option<Denial<'_>>) -> u8
    ensures { result ≡ status_of lacks.now }
{
    match lacks {
        Some(_) => 1,
        None => 0,
    }
}

/// The answer to a refused token. Where memory was refused there is none.
fn refusal<'a>(
    alloc: Global,
    printing: Printing,
    fault: &Fault<'a>,
    report: &'a Report<'_>,
    work: u64,
) -> Result<Reply, AllocError>
    ensures answer { IfOk result (λ a. reply_view a ≡ refusal printing fault.now
        (evidence report.now.states.items report.now.tries.items work)) }
    ensures memory { IfOk result (λ a. FoundMemory (Refused fault.now)) }
    ensures failed { IfOk result (λ a. a.status ≡ 3 → fault.now ≡ Text Read) }
{
    match fault {
        Fault::OutOfMemory | Fault::VerifierMemory => Err(AllocError),
        Fault::Text(InputFault::Read) => printed_read_fault(alloc, printing),
        Fault::Text(InputFault::TooLong)
        | Fault::Form(_)
        | Fault::WorkExceeded(..)
        | Fault::CallsExceeded(..)
        | Fault::Signature(..)
        | Fault::Claim(_) => {
            let mut out = Fields::none(alloc);
            put_refused(&mut out, fault)?;
            put_evidence(&mut out, report, work)?;
            out.printed(alloc, printing, 1)
        }
    }
}

/// The answer to an accepted token, with what its claims lack, if anything.
fn acceptance<'a>(
    alloc: Global,
    printing: Printing,
    lacks: &Option<Denial<'a>>,
    pair: (u32, u32),
    payload: &'a [u8],
    report: &'a Report<'_>,
    work: u64,
) -> Result<Reply, AllocError>
    ensures answer { IfOk result (λ a. reply_view a ≡ acceptance printing lacks.now pair.0 pair.1 payload.now
        (evidence report.now.states.items report.now.tries.items work)) }
    ensures done { IfOk result (λ a. a.status ≢ 3) }
{
    let mut out = Fields::none(alloc);
    put_accepted(&mut out, lacks, pair.0, pair.1, payload)?;
    put_evidence(&mut out, report, work)?;
    out.printed(alloc, printing, status_of(lacks))
}

/// The answer to a token, with what the claims of an accepted one lack, if anything. Where memory was refused there is none.
pub fn report_answer<'a>(
    alloc: Global,
    printing: Printing,
    report: &'a Report<'a>,
    lacks: &Option<Denial<'a>>,
    payload: &'a [u8],
    work: u64,
) -> Result<Reply, AllocError>
    ensures answer { IfOk result (λ a. reply_view a ≡ answer printing lacks.now report.now.verdict payload.now
        (evidence report.now.states.items report.now.tries.items work)) }
    ensures memory { IfOk result (λ a. FoundMemory report.now.verdict) }
    ensures failed { IfOk result (λ a. a.status ≡ 3 → report.now.verdict ≡ Refused (Text Read)) }
{
    match &report.verdict {
        Verdict::Accepted { signature, key, .. } => {
            acceptance(
                alloc,
                printing,
                lacks,
                (*signature, *key),
                payload,
                report,
                work,
            )
        }
        Verdict::Refused(fault) => refusal(alloc, printing, fault, report, work),
    }
}
