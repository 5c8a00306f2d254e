//! Laws of the definitions: each function does nothing, and its contract holds of every verdict and all demands.
ghost use Rattle.std.specs.Prelude.{◌≡◌, ◌↔◌, ℕ, List};
ghost use Rattle.jwt_access.specs.declared.moment.Moment.{Moment as At};
ghost use Rattle.jwt_verify.specs.declared.report.SigState.{SigState as State};
ghost use Rattle.jwt_verify.specs.declared.report.Try.{Try as Tried};
ghost use Rattle.jwt_verify.specs.declared.report.Verdict.{Verdict as Judged};
ghost use Rattle.jwt_output.specs.verdicts.Denied.{Demands, IsPassed};
ghost use Rattle.jwt_output.specs.verdicts.Verdicts.{verdict_answer};
ghost use Rattle.jwt_settings.specs.declared.printing.Printing.{Printing as Way};

use jwt_access::laws::{denials_are_said, paths_are_spelled};

/// The answer to a token has the status 0 exactly where the token is accepted and its claims meet the access rule and are what is
/// expected, where these are asked: in lines and in JSON.
pub fn accepted_are_granted()
    ensures { (printing : Way) (demands : Demands) (at : At) (verdict : Judged) (payload : List ℕ)
        (states : List State) (tries : List Tried) (work : ℕ)
        → ((verdict_answer printing demands at verdict payload states tries work).status ≡ 0)
        ↔ IsPassed demands at verdict }
{
    denials_are_said();
    paths_are_spelled();
}
