//! Access rules that are held, and what they say of the claims of the last acceptance.

ghost use Rattle.jwt_handles.specs.declared.status.TheConstants.{FOW_OK};
ghost use Rattle.std.specs.Prelude.{◌≡◌, ◌≢◌, IfOk, IfErr, Ok, option_map, slice_get};
ghost use Rattle.jwt_access.specs.Document.{rule_of};
ghost use Rattle.jwt_handles.specs.Access.{access_number, denial_number, IsRuleRefused, IsHeldAgainst, PutsDenied, refused_in};
ghost use Rattle.jwt_handles.specs.Written.{PutsHeld, PutsSome};

use crate::rule_state::RuleState;
use crate::status::{FOW_ABSENT, FOW_DENIED, FOW_OK, FOW_OUT_OF_MEMORY, FOW_REFUSED, NotHeld};
use crate::writing::put;
use jwt_access::{AccessFault, AccessRule, Denial, Moment};
use jwt_policy::Claims;
use std::alloc::Global;

/// The number of a rule's fault; 0 for want of memory.
fn access_number(fault: &AccessFault) -> u32
    ensures { result ≡ access_number fault.now }
{
    match fault {
        AccessFault::OutOfMemory => 0,
        AccessFault::Json => 901,
        AccessFault::NameTwice => 902,
        AccessFault::Member(_) => 903,
        AccessFault::Range(_) => 904,
        AccessFault::Claim(_) => 905,
        AccessFault::ClaimRange(_) => 906,
        AccessFault::TooLong => 907,
    }
}

/// The number of a denial.
fn denial_number(denial: &Denial<'_>) -> u32
    ensures { result ≡ denial_number denial.now }
{
    match denial {
        Denial::ScopeMissing(_) => 1001,
        Denial::ClaimMissing(_) => 1002,
        Denial::ClaimNotAllowed(_) => 1003,
        Denial::ClaimPresent(_) => 1004,
        Denial::ClaimHasOther(_) => 1005,
        Denial::ClaimNotObject(_) => 1006,
        Denial::ClaimNotDate(_) => 1007,
        Denial::ClaimLater(_) => 1008,
        Denial::ClaimTooOld(_) => 1009,
        Denial::ClaimNotAscii(_) => 1010,
    }
}

/// The rule of a document, or the status and the number of the fault for which it is refused.
pub(crate) fn rule_of(alloc: Global, document: &[u8]) -> Result<Box<RuleState>, NotHeld>
    ensures read { IfOk result (λ b. rule_of document.now ≡ Ok b.value.rule) }
    ensures refused { IfErr result (λ e. IsRuleRefused document.now e.status e.fault) }
{
    let rule = match AccessRule::read(alloc, document) {
        Ok(rule) => rule,
        Err(AccessFault::OutOfMemory) => return Err(NotHeld {
            status: FOW_OUT_OF_MEMORY,
            fault: 0,
        }),
        Err(fault) => return Err(NotHeld {
            status: FOW_REFUSED,
            fault: access_number(&fault),
        }),
    };
    match Box::new(alloc, RuleState { rule }) {
        Ok(state) => Ok(state),
        Err(_) => Err(NotHeld {
            status: FOW_OUT_OF_MEMORY,
            fault: 0,
        }),
    }
}

/// Puts the name of the member, or of the claim, for which a rule is refused at the front of `out`. `FOW_OK`; `FOW_OUT_OF_MEMORY`: memory
/// was refused; `FOW_TOO_SHORT`: `out` is too short; `FOW_ABSENT`: the rule isn't refused for one.
pub(crate) fn put_refused(alloc: Global, rule: &[u8], out: &mut [u8], written: &mut usize) -> u32
    ensures written { PutsSome (refused_in (rule_of rule.now)) result written.new out.old out.new }
    ensures unwritten { result ≢ FOW_OK → (out.new ≡ out.old) × (written.new ≡ written.old) }
{
    match AccessRule::read(alloc, rule) {
        Err(AccessFault::OutOfMemory) => FOW_OUT_OF_MEMORY,
        Err(
            AccessFault::Member(name)
            | AccessFault::Range(name)
            | AccessFault::Claim(name)
            | AccessFault::ClaimRange(name),
        ) => put(name.text().as_bytes(), out, written),
        _ => FOW_ABSENT,
    }
}

/// Puts a scope that the rule asks for at the front of `out`. `FOW_OK`; `FOW_TOO_SHORT`: `out` is too short;
/// `FOW_ABSENT`: there is no such scope.
pub(crate) fn put_scope(rule: &AccessRule, number: u32, out: &mut [u8], written: &mut usize) -> u32
    ensures written { PutsHeld (slice_get rule.now.scopes number) result written.new out.old out.new }
    ensures unwritten { result ≢ FOW_OK → (out.new ≡ out.old) × (written.new ≡ written.old) }
{
    match rule.scopes().get(number as usize) {
        Some(scope) => put(scope.as_bytes(), out, written),
        None => FOW_ABSENT,
    }
}

/// Holds the rule against claims at a moment. `FOW_OK`: they meet it; `FOW_DENIED`: they don't, and the number is that of the denial;
/// `FOW_ABSENT`: there are none.
pub(crate) fn hold(rule: &AccessRule, claims: Option<&Claims>, moment: Moment) -> (u32, u32)
    ensures { IsHeldAgainst rule.now moment (option_map (λ c. c.now) claims.entry) result.0 result.1 }
{
    match claims {
        Some(claims) => match rule.denial(claims, moment) {
            Some(denial) => (FOW_DENIED, denial_number(&denial)),
            None => (FOW_OK, 0),
        },
        None => (FOW_ABSENT, 0),
    }
}

/// Puts the scope or the claim that the claims lack at the front of `out`. `FOW_OK`; `FOW_TOO_SHORT`: `out` is too short; `FOW_ABSENT`:
/// they meet the rule, or there are none.
pub(crate) fn put_denied(
    rule: &AccessRule,
    claims: Option<&Claims>,
    moment: Moment,
    out: &mut [u8],
    written: &mut usize,
) -> u32
    ensures written { PutsDenied rule.now moment (option_map (λ c. c.now) claims.entry) result written.new out.old out.new }
    ensures unwritten { result ≢ FOW_OK → (out.new ≡ out.old) × (written.new ≡ written.old) }
{
    match claims {
        Some(claims) => match rule.denial(claims, moment) {
            Some(denial) => put(denial.denied().as_bytes(), out, written),
            None => FOW_ABSENT,
        },
        None => FOW_ABSENT,
    }
}
