//! Whether each way in which the token that was accepted last is bound was shown.

ghost use Rattle.jwt_handles.specs.declared.status.TheConstants.{FOW_NOT_OPEN};
ghost use Rattle.std.specs.Prelude.{◌≡◌, ◌≤◌, IfSome, None, option_map};
ghost use Rattle.jwt_possession.specs.Possessions.{proved};
ghost use Rattle.jwt_handles.specs.Bound.{SaysBinding, SaysBound, SaysShown, SaysWays, binding_number, bit, certificate_of};
ghost use Rattle.jwt_handles.specs.Evidence.{claims_kept};
ghost use Rattle.jwt_handles.specs.Possessing.{kept_in};

use crate::handle::{Handle, take};
use crate::possession_handle::{PossessionHandle, take_possession};
use crate::status::{FOW_ABSENT, FOW_NOT_OPEN, FOW_OK, FOW_OUT_OF_MEMORY, FOW_REFUSED};
use jwt_policy::Claims;
use jwt_possession::{Binding, BindingFault, Possession, Shown, first_unshown};
use std::alloc::Global;

/// This bit, where it is set.
fn bit(is: bool, number: u32) -> u32
    ensures is { result ≡ bit is number }
    ensures most { result ≤ number }
{
    if is { number } else { 0 }
}

/// How the token of these claims is bound, where this is said of it.
fn ways_of(claims: Option<&Claims>, status: u32) -> u32
    ensures { SaysWays (option_map (λ c. c.now) claims.entry) status result }
{
    match claims {
        Some(claims) if status == FOW_OK => {
            let binding = Binding::of(claims);
            bit(binding.key.is_some(), 1) + bit(binding.certificate.is_some(), 2)
        }
        _ => 0,
    }
}

/// The number of a fault of binding.
fn binding_number(fault: BindingFault) -> u32
    ensures { result ≡ binding_number fault }
{
    match fault {
        BindingFault::Unknown => 1401,
        BindingFault::OtherKey => 1402,
        BindingFault::OtherCertificate => 1403,
    }
}

/// The status and the number of an answer.
fn binding_numbers(fault: Option<BindingFault>) -> (u32, u32)
    ensures { SaysBinding fault result.0 result.1 }
{
    match fault {
        Some(fault) => (FOW_REFUSED, binding_number(fault)),
        None => (FOW_OK, 0),
    }
}

/// Whether this was shown of the token of these claims, where there are any.
fn shown_of(alloc: Global, claims: Option<&Claims>, shown: &Shown<'_>) -> (u32, u32)
    ensures { SaysShown (option_map (λ c. c.now) claims.entry) shown.now result.0 result.1 }
{
    match claims {
        Some(claims) => match first_unshown(alloc, claims, shown) {
            Ok(fault) => binding_numbers(fault),
            Err(_) => (FOW_OUT_OF_MEMORY, 0),
        },
        None => (FOW_ABSENT, 0),
    }
}

/// The certificate of these octets: none where there are none.
fn certificate_of(der: &[u8]) -> Option<&[u8]>
    ensures { option_map (λ c. c.now) result ≡ certificate_of der.now }
{
    if der.is_empty() { None } else { Some(der) }
}

/// The thumbprint of the key of the proof that is kept.
fn key_of(kept: Option<&Possession>) -> Option<&str>
    ensures { option_map (λ k. k.now) result ≡ option_map (λ p. (proved p.now).thumbprint) kept.entry }
{
    match kept {
        Some(possession) => Some(possession.thumbprint()),
        None => None,
    }
}

/// The same by the proof that is kept and this certificate.
fn shown_by(
    alloc: Global,
    claims: Option<&Claims>,
    kept: Option<&Possession>,
    der: &[u8],
) -> (u32, u32)
    ensures { SaysBound (option_map (λ c. c.now) claims.entry) (option_map (λ p. p.now) kept.entry) der.now result.0 result.1 }
{
    let shown = Shown {
        key: key_of(kept),
        certificate: certificate_of(der),
    };
    shown_of(alloc, claims, &shown)
}

/// Whether each way in which the token that was accepted last is bound was shown: its key by the proof that `possession` keeps, its certificate by the octets of its
/// DER; no octets are none (RFC 7800, section 3.1; RFC 9449, section 6; RFC 8705, section 3). `FOW_OK`: it is bound in no way, or in known ones, each of which was
/// shown; `ways` is the sum of 1, where it is bound to a key, and 2, where it is bound to a certificate, and 0 on any other status; `FOW_REFUSED`: it isn't, for the fault; `FOW_OUT_OF_MEMORY`: memory was refused; `FOW_NOT_OPEN`: the validator holds nothing; `FOW_ABSENT`: the last
/// verdict was no acceptance.
pub fn shown(
    validator: &mut Handle,
    alloc: Global,
    possession: &mut PossessionHandle,
    der: &[u8],
    ways: &mut u32,
    fault: &mut u32,
) -> u32
    ensures same { validator.new.state ≡ validator.old.state }
    ensures same_proof { possession.new.state ≡ possession.old.state }
    ensures none { validator.old.state ≡ None → (result ≡ FOW_NOT_OPEN) × (ways.new ≡ 0) × (fault.new ≡ 0) }
    ensures shown { IfSome validator.old.state (λ d. SaysBound (claims_kept d.last) (kept_in possession.old.state) der.now result fault.new) }
    ensures ways { IfSome validator.old.state (λ d. SaysWays (claims_kept d.last) result ways.new) }
{
    *fault = 0;
    *ways = 0;
    let Some(state) = take(validator, alloc) else {
        return FOW_NOT_OPEN;
    };
    let held = take_possession(possession, alloc);
    let (status, number) = match held {
        Some(held) => {
            let said = shown_by(alloc, state.last.claims(), held.last.as_ref(), der);
            *possession = PossessionHandle::of(held);
            said
        }
        None => shown_by(alloc, state.last.claims(), None, der),
    };
    *fault = number;
    *ways = ways_of(state.last.claims(), status);
    *validator = Handle::of(state);
    status
}
