//! The answer to a token, in lines and in JSON.
ghost use Rattle.std.specs.Prelude.{◌≡◌, IfOk};
ghost use Rattle.jwt_verify.specs.Reports.{FoundMemory};
ghost use Rattle.jwt_verify.specs.declared.report.InputFault.TheVariants.{Read};
ghost use Rattle.jwt_verify.specs.declared.report.Fault.TheVariants.{Text};
ghost use Rattle.jwt_verify.specs.declared.report.Verdict.TheVariants.{Refused};
ghost use Rattle.jwt_output.specs.fields.Verdicts.{lacks_of};
ghost use Rattle.jwt_output.specs.verdicts.Verdicts.{verdict_answer};
ghost use Rattle.jwt_output.specs.Views.{reply_view};
ghost use Rattle.jwt_output.specs.verdicts.Views.{demands_view};

use crate::Reply;
use crate::fields::report_answer;
use crate::verdicts::demands::Demands;
use crate::verdicts::denied::lacking;
use jwt_access::Denial;
use jwt_settings::Printing;
use jwt_verify::{Report, Verdict};
use std::alloc::{AllocError, Global};

/// What the claims of an accepted token lack.
fn lacks_of<'a>(demands: &Demands<'a>, verdict: &Verdict<'_>) -> Option<Denial<'a>>
    ensures { result ≡ lacks_of (demands_view demands.now) demands.now.moment verdict.now }
{
    match verdict {
        Verdict::Accepted { claims, .. } => lacking(demands, claims),
        Verdict::Refused(_) => None,
    }
}

/// The answer for a report, where the claims of an accepted token are held against these demands at the moment of the verdict. In JSON it has
/// the payload of the token where it is accepted and its claims lack nothing. Where memory was refused there is none.
pub fn printed_report<'a>(
    alloc: Global,
    printing: Printing,
    report: &'a Report<'a>,
    demands: &Demands<'a>,
    payload: &'a [u8],
    work: u64,
) -> Result<Reply, AllocError>
    ensures line { IfOk result (λ a. reply_view a
        ≡ verdict_answer printing (demands_view demands.now) demands.now.moment report.now.verdict
        payload.now report.now.states.items report.now.tries.items work) }
    ensures memory { IfOk result (λ a. FoundMemory report.now.verdict) }
    ensures failed { IfOk result (λ a. a.status ≡ 3 → report.now.verdict ≡ Refused (Text Read)) }
{
    let lacks = lacks_of(demands, &report.verdict);
    report_answer(alloc, printing, report, &lacks, payload, work)
}
