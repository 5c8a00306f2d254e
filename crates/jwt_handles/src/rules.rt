//! Access rules: reading one, and holding it against claims.

ghost use Rattle.jwt_handles.specs.declared.status.TheConstants.{FOW_NOT_OPEN, FOW_OK};
ghost use Rattle.std.specs.Prelude.{◌≡◌, ◌≢◌, IfSome, None, slice_get};
ghost use Rattle.jwt_handles.specs.Evidence.{claims_kept};
ghost use Rattle.jwt_handles.specs.Written.{PutsSome, PutsHeld};
ghost use Rattle.jwt_access.specs.Document.{rule_of};
ghost use Rattle.jwt_handles.specs.Access.{HoldsRule, IsRuleRefused, IsHeldAgainst, PutsDenied, refused_in};

use crate::access::{hold, put_denied, put_refused, put_scope, rule_of};
use crate::handle::{Handle, take};
use crate::rule_handle::{RuleHandle, take_rule};
use crate::status::{FOW_NOT_OPEN, FOW_OK};
use std::alloc::Global;

/// Reads an access rule. `FOW_OK`: it is held from now on; `FOW_REFUSED`: it is refused, for the fault; `FOW_OUT_OF_MEMORY`: memory
/// was refused. On any other status the handle holds what it held.
pub fn access_open(access: &mut RuleHandle, alloc: Global, rule: &[u8], fault: &mut u32) -> u32
    ensures opened { result ≡ FOW_OK → HoldsRule rule.now access.new.state }
    ensures refused { result ≢ FOW_OK → IsRuleRefused rule.now result fault.new }
    ensures same { result ≢ FOW_OK → access.new.state ≡ access.old.state }
{
    *fault = 0;
    match rule_of(alloc, rule) {
        Ok(state) => {
            *access = RuleHandle::of(state);
            FOW_OK
        }
        Err(why) => {
            *fault = why.fault;
            why.status
        }
    }
}

/// Writes the name of the member, or of the claim, for which a rule is refused at the front of `out`. `FOW_OK`; `FOW_OUT_OF_MEMORY`:
/// memory was refused; `FOW_TOO_SHORT`: `out` is too short; `FOW_ABSENT`: the rule isn't refused for one.
pub fn access_refused(alloc: Global, rule: &[u8], out: &mut [u8], written: &mut usize) -> u32
    ensures name { PutsSome (refused_in (rule_of rule.now)) result written.new out.old out.new }
    ensures unwritten { result ≢ FOW_OK → (out.new ≡ out.old) × (written.new ≡ written.old) }
{
    put_refused(alloc, rule, out, written)
}

/// Frees what is held, if anything is.
pub fn access_close(access: &mut RuleHandle, alloc: Global)
    ensures closed { access.new.state ≡ None }
{
    *access = RuleHandle::empty(alloc);
}

/// Writes a scope that the rule asks for, from 0 in the order of its document, at the front of `out`. `FOW_OK`; `FOW_NOT_OPEN`: nothing is
/// held; `FOW_TOO_SHORT`: `out` is too short; `FOW_ABSENT`: there is no such scope.
pub fn access_scope(
    access: &mut RuleHandle,
    alloc: Global,
    number: u32,
    out: &mut [u8],
    written: &mut usize,
) -> u32
    ensures same { access.new.state ≡ access.old.state }
    ensures none { access.old.state ≡ None → result ≡ FOW_NOT_OPEN }
    ensures scope { IfSome access.old.state (λ a. PutsHeld
        (slice_get a.rule.scopes number) result written.new out.old out.new) }
    ensures unwritten { result ≢ FOW_OK → (out.new ≡ out.old) × (written.new ≡ written.old) }
{
    let Some(state) = take_rule(access, alloc) else {
        return FOW_NOT_OPEN;
    };
    let status = put_scope(&state.rule, number, out, written);
    *access = RuleHandle::of(state);
    status
}

/// Holds a rule against the claims of the token that was accepted last, at the moment of its verdict. `FOW_OK`: they meet it; `FOW_DENIED`: they don't, for the denial of
/// the number; `FOW_NOT_OPEN`: the validator or the rule's handle holds nothing; `FOW_ABSENT`: the last verdict was no acceptance.
pub fn denied(
    validator: &mut Handle,
    alloc: Global,
    access: &mut RuleHandle,
    denial: &mut u32,
) -> u32
    ensures same { validator.new.state ≡ validator.old.state }
    ensures same_rule { access.new.state ≡ access.old.state }
    ensures none { validator.old.state ≡ None → result ≡ FOW_NOT_OPEN }
    ensures no_rule { access.old.state ≡ None → result ≡ FOW_NOT_OPEN }
    ensures denied { IfSome validator.old.state (λ d. IfSome access.old.state (λ a.
        IsHeldAgainst a.rule d.last.moment (claims_kept d.last) result denial.new)) }
{
    *denial = 0;
    let Some(state) = take(validator, alloc) else {
        return FOW_NOT_OPEN;
    };
    let Some(held) = take_rule(access, alloc) else {
        *validator = Handle::of(state);
        return FOW_NOT_OPEN;
    };
    let (status, number) = hold(&held.rule, state.last.claims(), state.last.moment);
    *denial = number;
    *access = RuleHandle::of(held);
    *validator = Handle::of(state);
    status
}

/// Writes the scope or the name of the claim for which a rule denies the claims of the token that was accepted last at the front of `out`.
/// `FOW_OK`; `FOW_NOT_OPEN`: the validator or the rule's handle holds nothing; `FOW_TOO_SHORT`: `out` is too short; `FOW_ABSENT`: the
/// claims meet the rule, or the last verdict was no acceptance.
pub fn denied_name(
    validator: &mut Handle,
    alloc: Global,
    access: &mut RuleHandle,
    out: &mut [u8],
    written: &mut usize,
) -> u32
    ensures same { validator.new.state ≡ validator.old.state }
    ensures same_rule { access.new.state ≡ access.old.state }
    ensures none { validator.old.state ≡ None → result ≡ FOW_NOT_OPEN }
    ensures no_rule { access.old.state ≡ None → result ≡ FOW_NOT_OPEN }
    ensures name { IfSome validator.old.state (λ d. IfSome access.old.state (λ a.
        PutsDenied a.rule d.last.moment (claims_kept d.last) result written.new out.old out.new)) }
    ensures unwritten { result ≢ FOW_OK → (out.new ≡ out.old) × (written.new ≡ written.old) }
{
    let Some(state) = take(validator, alloc) else {
        return FOW_NOT_OPEN;
    };
    let Some(held) = take_rule(access, alloc) else {
        *validator = Handle::of(state);
        return FOW_NOT_OPEN;
    };
    let status = put_denied(
        &held.rule,
        state.last.claims(),
        state.last.moment,
        out,
        written,
    );
    *access = RuleHandle::of(held);
    *validator = Handle::of(state);
    status
}
