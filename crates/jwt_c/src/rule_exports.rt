//! The functions on access rules that C calls.

ghost use Rattle.jwt_handles.specs.declared.status.TheConstants.{FOW_NOT_OPEN, FOW_OK};
ghost use Rattle.std.specs.Prelude.{◌≡◌, ◌≢◌, IfSome, None, slice_get};
ghost use Rattle.jwt_handles.specs.Evidence.{claims_kept};
ghost use Rattle.jwt_handles.specs.Written.{PutsSome, PutsHeld};
ghost use Rattle.jwt_access.specs.Document.{rule_of};
ghost use Rattle.jwt_handles.specs.Access.{HoldsRule, IsRuleRefused, IsHeldAgainst, PutsDenied, refused_in};

use jwt_handles::handle::Handle;
use jwt_handles::rule_handle::RuleHandle;
use jwt_handles::rules;
use std::alloc::Global;

/// [`rules::access_open`] by its name in C.
#[unsafe(no_mangle)]
pub extern "C" fn fow_access_open(
    access: &mut RuleHandle,
    alloc: Global,
    rule: &[u8],
    fault: &mut u32,
) -> u32
    ensures opened { result ≡ FOW_OK → HoldsRule rule.now access.new.state }
    ensures refused { result ≢ FOW_OK → IsRuleRefused rule.now result fault.new }
    ensures same { result ≢ FOW_OK → access.new.state ≡ access.old.state }
{
    rules::access_open(access, alloc, rule, fault)
}

/// [`rules::access_refused`] by its name in C.
#[unsafe(no_mangle)]
pub extern "C" fn fow_access_refused(
    alloc: Global,
    rule: &[u8],
    out: &mut [u8],
    written: &mut usize,
) -> u32
    ensures name { PutsSome (refused_in (rule_of rule.now)) result written.new out.old out.new }
    ensures unwritten { result ≢ FOW_OK → (out.new ≡ out.old) × (written.new ≡ written.old) }
{
    rules::access_refused(alloc, rule, out, written)
}

/// [`rules::access_close`] by its name in C.
#[unsafe(no_mangle)]
pub extern "C" fn fow_access_close(access: &mut RuleHandle, alloc: Global)
    ensures closed { access.new.state ≡ None }
{
    rules::access_close(access, alloc);
}

/// [`rules::access_scope`] by its name in C.
#[unsafe(no_mangle)]
pub extern "C" fn fow_access_scope(
    access: &mut RuleHandle,
    alloc: Global,
    number: u32,
    out: &mut [u8],
    written: &mut usize,
) -> u32
    ensures same { access.new.state ≡ access.old.state }
    ensures none { access.old.state ≡ None → result ≡ FOW_NOT_OPEN }
    ensures scope { IfSome access.old.state (λ a. PutsHeld
        (slice_get a.rule.scopes number) result written.new out.old out.new) }
    ensures unwritten { result ≢ FOW_OK → (out.new ≡ out.old) × (written.new ≡ written.old) }
{
    rules::access_scope(access, alloc, number, out, written)
}

/// [`rules::denied`] by its name in C.
#[unsafe(no_mangle)]
pub extern "C" fn fow_denied(
    validator: &mut Handle,
    alloc: Global,
    access: &mut RuleHandle,
    denial: &mut u32,
) -> u32
    ensures same { validator.new.state ≡ validator.old.state }
    ensures same_rule { access.new.state ≡ access.old.state }
    ensures none { validator.old.state ≡ None → result ≡ FOW_NOT_OPEN }
    ensures no_rule { access.old.state ≡ None → result ≡ FOW_NOT_OPEN }
    ensures denied { IfSome validator.old.state (λ d. IfSome access.old.state (λ a.
        IsHeldAgainst a.rule d.last.moment (claims_kept d.last) result denial.new)) }
{
    rules::denied(validator, alloc, access, denial)
}

/// [`rules::denied_name`] by its name in C.
#[unsafe(no_mangle)]
pub extern "C" fn fow_denied_name(
    validator: &mut Handle,
    alloc: Global,
    access: &mut RuleHandle,
    out: &mut [u8],
    written: &mut usize,
) -> u32
    ensures same { validator.new.state ≡ validator.old.state }
    ensures same_rule { access.new.state ≡ access.old.state }
    ensures none { validator.old.state ≡ None → result ≡ FOW_NOT_OPEN }
    ensures no_rule { access.old.state ≡ None → result ≡ FOW_NOT_OPEN }
    ensures name { IfSome validator.old.state (λ d. IfSome access.old.state (λ a.
        PutsDenied a.rule d.last.moment (claims_kept d.last) result written.new out.old out.new)) }
    ensures unwritten { result ≢ FOW_OK → (out.new ≡ out.old) × (written.new ≡ written.old) }
{
    rules::denied_name(validator, alloc, access, out, written)
}
