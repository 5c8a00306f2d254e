//! What the claims of an accepted token lack.
ghost use Rattle.std.specs.Prelude.{◌≡◌, option_map};
ghost use Rattle.jwt_output.specs.verdicts.Denied.{expected_lacking, lacking, rule_lacking};
ghost use Rattle.jwt_output.specs.verdicts.Views.{demands_view};
ghost use Rattle.jwt_settings.specs.Seen.{expectation_view};

use crate::verdicts::demands::Demands;
use jwt_access::expected::{Expected, Unmet, Wanted, first_unmet};
use jwt_access::laws::{denials_are_said, paths_are_spelled};
use jwt_access::{AccessRule, Denial, DeniedName, Moment};
use jwt_mac::Alg;
use jwt_policy::Claims;
use jwt_settings::Expectation;

/// The first demand of the rule that these claims don't meet at this moment, where a rule is asked.
fn rule_lacking<'a>(
    rule: Option<&'a AccessRule>,
    moment: Moment,
    claims: &Claims,
) -> Option<Denial<'a>>
    ensures { result ≡ rule_lacking (option_map (λ r. r.now) rule.entry) moment claims.now }
{
    denials_are_said();
    match rule {
        Some(rule) => rule.denial(claims, moment),
        None => None,
    }
}

/// What these claims lack of what is expected of one of them. A text is the same by every algorithm.
fn text_lacking<'a>(expected: Expectation<'a>, claims: &Claims) -> Option<Denial<'a>>
    ensures { result
        ≡ expected_lacking (Some (expectation_view expected.entry)) claims.now }
{
    paths_are_spelled();
    let Expectation { claim, text } = expected;
    let wanted = [Expected {
        claim,
        wanted: Wanted::Text(text),
    }];
    match first_unmet(&wanted, claims, Alg::HS256) {
        None => None,
        Some(Unmet::Absent(_)) => Some(Denial::ClaimMissing(DeniedName::new(claim))),
        Some(Unmet::Other(_)) => Some(Denial::ClaimNotAllowed(DeniedName::new(claim))),
    }
}

/// The same, where something is expected.
fn expected_lacking<'a>(expected: Option<Expectation<'a>>, claims: &Claims) -> Option<Denial<'a>>
    ensures { result
        ≡ expected_lacking (option_map expectation_view expected.entry) claims.now }
{
    match expected {
        Some(expected) => text_lacking(expected, claims),
        None => None,
    }
}

/// What these claims lack: the first demand of the rule that they don't meet, or else what is expected of one of them.
pub(crate) fn lacking<'a>(demands: &Demands<'a>, claims: &Claims) -> Option<Denial<'a>>
    ensures { result ≡ lacking (demands_view demands.now) demands.now.moment claims.now }
{
    match rule_lacking(demands.rule, demands.moment, claims) {
        Some(denial) => Some(denial),
        None => expected_lacking(demands.expected, claims),
    }
}
