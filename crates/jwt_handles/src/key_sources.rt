//! What callers need for keys by URL, and for several issuers.

ghost use Rattle.jwt_handles.specs.declared.status.TheConstants.{FOW_ABSENT, FOW_NOT_OPEN, FOW_OK};
ghost use Rattle.std.specs.Prelude.{◌≡◌, ◌≢◌, IfSome, None, IsUtf8, false};
ghost use Rattle.jwt_keys.specs.KeySets.{key_set};
ghost use Rattle.jwt_verify.specs.Verdict.{token_of};
ghost use Rattle.jwt_handles.specs.Documents.{documents};
ghost use Rattle.jwt_handles.specs.Written.{PutsSome, PutsHeld};
ghost use Rattle.jwt_text.specs.ObjectText.{object_of};
ghost use Rattle.jwt_handles.specs.Issuers.{PutsIssuer, are_public, sole, text_in};

use crate::handle::{Handle, take};
use crate::issuers::{are_public, put_issuer, put_sole_issuer, put_text};
use crate::status::{FOW_NOT_OPEN, FOW_OK};
use std::alloc::Global;

/// Whether no algorithm of the policy is HMAC, and no key of the set a shared secret. False where nothing is held.
pub fn documents_are_public(validator: &mut Handle, alloc: Global) -> bool
    ensures same { validator.new.state ≡ validator.old.state }
    ensures none { validator.old.state ≡ None → result ≡ false }
    ensures public { IfSome validator.old.state (λ d. result
        ≡ are_public (documents d).policy (key_set (documents d).keys).keys) }
{
    let Some(state) = take(validator, alloc) else {
        return false;
    };
    let public = are_public(&state);
    *validator = Handle::of(state);
    public
}

/// The greatest number of octets of a token that the policy takes. `FOW_OK`; `FOW_NOT_OPEN`: nothing is held.
pub fn token_limit(validator: &mut Handle, alloc: Global, limit: &mut u32) -> u32
    ensures same { validator.new.state ≡ validator.old.state }
    ensures none { validator.old.state ≡ None → result ≡ FOW_NOT_OPEN }
    ensures limit { IfSome validator.old.state (λ d. (result ≡ FOW_OK)
        × (limit.new ≡ (documents d).policy.run.limit)) }
{
    let Some(state) = take(validator, alloc) else {
        return FOW_NOT_OPEN;
    };
    *limit = state.grounds.documents().policy.limit();
    *validator = Handle::of(state);
    FOW_OK
}

/// Writes the issuer that the policy allows at the front of `out`, where it is one alone. `FOW_OK`; `FOW_NOT_OPEN`: nothing is held;
/// `FOW_TOO_SHORT`: `out` is too short; `FOW_ABSENT`: the policy allows any, or several.
pub fn sole_issuer(
    validator: &mut Handle,
    alloc: Global,
    out: &mut [u8],
    written: &mut usize,
) -> u32
    ensures same { validator.new.state ≡ validator.old.state }
    ensures none { validator.old.state ≡ None → result ≡ FOW_NOT_OPEN }
    ensures issuer { IfSome validator.old.state (λ d. PutsHeld
        (sole (documents d).policy.claims.issuers) result written.new out.old out.new) }
    ensures unwritten { result ≢ FOW_OK → (out.new ≡ out.old) × (written.new ≡ written.old) }
{
    let Some(state) = take(validator, alloc) else {
        return FOW_NOT_OPEN;
    };
    let status = put_sole_issuer(&state, out, written);
    *validator = Handle::of(state);
    status
}

/// Writes the issuer that a token names at the front of `out`. `FOW_OK`; `FOW_OUT_OF_MEMORY`: memory was refused; `FOW_NOT_OPEN`: nothing is
/// held; `FOW_TOO_SHORT`: `out` is too short; `FOW_ABSENT`: the octets are no token; `FOW_UNNAMED`: its payload is no object text, or has no text
/// `iss`.
pub fn unverified_issuer(
    validator: &mut Handle,
    alloc: Global,
    token: &[u8],
    out: &mut [u8],
    written: &mut usize,
) -> u32
    ensures same { validator.new.state ≡ validator.old.state }
    ensures none { validator.old.state ≡ None → result ≡ FOW_NOT_OPEN }
    ensures issuer { IfSome validator.old.state (λ d. PutsIssuer
        (token_of (documents d).policy token.now) result written.new out.old out.new) }
    ensures unwritten { result ≢ FOW_OK → (out.new ≡ out.old) × (written.new ≡ written.old) }
{
    let Some(state) = take(validator, alloc) else {
        return FOW_NOT_OPEN;
    };
    let status = put_issuer(alloc, &state, token, out, written);
    *validator = Handle::of(state);
    status
}

/// Writes the text of this name in an object text at the front of `out`. `FOW_OK`; `FOW_OUT_OF_MEMORY`: memory was refused; `FOW_TOO_SHORT`:
/// `out` is too short; `FOW_ABSENT`: the octets are no object text, or it has no text of this name.
pub fn text_member(
    alloc: Global,
    document: &[u8],
    name: &[u8],
    out: &mut [u8],
    written: &mut usize,
) -> u32
    ensures text { IsUtf8 name.now
        → PutsSome (text_in name.now (object_of document.now)) result written.new out.old out.new }
    ensures other { ¬ IsUtf8 name.now → result ≡ FOW_ABSENT }
    ensures unwritten { result ≢ FOW_OK → (out.new ≡ out.old) × (written.new ≡ written.old) }
{
    put_text(alloc, document, name, out, written)
}
