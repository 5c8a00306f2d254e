//! What the program itself has to ask by.

ghost use Rattle.std.specs.Prelude.{◌≡◌, find};
ghost use Rattle.std.specs.Str.{bytes_eq};
ghost use Rattle.jwt_service.specs.Asking.{expects, IsRuleAs, HasUnasked, IsAskedAs};

use crate::call::Call;
use crate::service::{NamedRule, Service};

/// Why nothing is answered by what the program asks: a mistake of the program, and none of the request.
#[derive(Clone, Copy)]
pub enum AskingFault<'s> {
    /// The moment stands before the service's first.
    NoMoment,
    /// The call names a rule that the service hasn't, or it names none, and the service has rules.
    NoRule,
    /// Each call has to expect something of the claim of this name, and this one doesn't.
    Unasked(&'s str),
}

/// The first rule of this name.
#[tactic(auto, using(std::proofs::lemmas::List::at_drop_more, std::proofs::lemmas::List::at_drop_all))]
fn named<'s>(rules: &[NamedRule<'s>], name: &str) -> Option<NamedRule<'s>>
    ensures { result ≡ find (λ rule. bytes_eq rule.name.now name.now) rules.now }
{
    for rule in rules {
        if rule.name == name {
            return Some(*rule);
        }
    }
    None
}

/// The rule by which the call is measured.
fn rule_of<'s>(
    service: &Service<'s>,
    call: &Call<'_>,
) -> Result<Option<NamedRule<'s>>, AskingFault<'s>>
    ensures { IsRuleAs service.now call.now result }
{
    match call.rule {
        Some(name) => match named(service.rules, name) {
            Some(rule) => Ok(Some(rule)),
            None => Err(AskingFault::NoRule),
        },
        None => {
            if service.rules.is_empty() {
                Ok(None)
            } else {
                Err(AskingFault::NoRule)
            }
        }
    }
}

/// Whether the call expects something of the claim of this name.
#[tactic(auto, using(std::proofs::lemmas::List::at_drop_more, std::proofs::lemmas::List::at_drop_all))]
fn expects(call: &Call<'_>, name: &str) -> bool
    ensures { result ≡ expects call.now name.now }
{
    for expected in call.expected {
        if expected.claim == name {
            return true;
        }
    }
    false
}

/// The first claim of which each call has to expect something, and this one doesn't.
fn unasked<'s>(service: &Service<'s>, call: &Call<'_>) -> Option<&'s str>
    ensures { HasUnasked service.now call.now result }
{
    let names = service.expects;
    for place in 0..names.len() {
        let name = names[place];
        let expected = expects(call, name);
        if !expected {
            return Some(name);
        }
    }
    None
}

/// The rule by which the call is measured, where the program asks as it has to.
pub(crate) fn asked<'s>(
    service: &Service<'s>,
    call: &Call<'_>,
) -> Result<Option<NamedRule<'s>>, AskingFault<'s>>
    ensures { IsAskedAs service.now call.now result }
{
    if call.moment < service.earliest {
        return Err(AskingFault::NoMoment);
    }
    let rule = match rule_of(service, call) {
        Ok(rule) => rule,
        Err(fault) => return Err(fault),
    };
    match unasked(service, call) {
        None => Ok(rule),
        Some(name) => Err(AskingFault::Unasked(name)),
    }
}
