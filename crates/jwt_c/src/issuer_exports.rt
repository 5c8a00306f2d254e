//! The functions that C calls for keys by URL, and for several issuers.

ghost use Rattle.jwt_handles.specs.declared.status.TheConstants.{FOW_ABSENT, FOW_NOT_OPEN, FOW_OK};
ghost use Rattle.std.specs.Prelude.{◌≡◌, ◌≢◌, IfSome, None, IsUtf8, false};
ghost use Rattle.jwt_keys.specs.KeySets.{key_set};
ghost use Rattle.jwt_verify.specs.Verdict.{token_of};
ghost use Rattle.jwt_handles.specs.Documents.{documents};
ghost use Rattle.jwt_handles.specs.Written.{PutsSome, PutsHeld};
ghost use Rattle.jwt_text.specs.ObjectText.{object_of};
ghost use Rattle.jwt_handles.specs.Issuers.{PutsIssuer, are_public, sole, text_in};

use jwt_handles::handle::Handle;
use jwt_handles::key_sources;
use std::alloc::Global;

/// [`key_sources::documents_are_public`] by its name in C.
#[unsafe(no_mangle)]
pub extern "C" fn fow_documents_are_public(validator: &mut Handle, alloc: Global) -> bool
    ensures same { validator.new.state ≡ validator.old.state }
    ensures none { validator.old.state ≡ None → result ≡ false }
    ensures public { IfSome validator.old.state (λ d. result
        ≡ are_public (documents d).policy (key_set (documents d).keys).keys) }
{
    key_sources::documents_are_public(validator, alloc)
}

/// [`key_sources::token_limit`] by its name in C.
#[unsafe(no_mangle)]
pub extern "C" fn fow_token_limit(validator: &mut Handle, alloc: Global, limit: &mut u32) -> u32
    ensures same { validator.new.state ≡ validator.old.state }
    ensures none { validator.old.state ≡ None → result ≡ FOW_NOT_OPEN }
    ensures limit { IfSome validator.old.state (λ d. (result ≡ FOW_OK)
        × (limit.new ≡ (documents d).policy.run.limit)) }
{
    key_sources::token_limit(validator, alloc, limit)
}

/// [`key_sources::sole_issuer`] by its name in C.
#[unsafe(no_mangle)]
pub extern "C" fn fow_sole_issuer(
    validator: &mut Handle,
    alloc: Global,
    out: &mut [u8],
    written: &mut usize,
) -> u32
    ensures same { validator.new.state ≡ validator.old.state }
    ensures none { validator.old.state ≡ None → result ≡ FOW_NOT_OPEN }
    ensures issuer { IfSome validator.old.state (λ d. PutsHeld
        (sole (documents d).policy.claims.issuers) result written.new out.old out.new) }
    ensures unwritten { result ≢ FOW_OK → (out.new ≡ out.old) × (written.new ≡ written.old) }
{
    key_sources::sole_issuer(validator, alloc, out, written)
}

/// [`key_sources::unverified_issuer`] by its name in C.
#[unsafe(no_mangle)]
pub extern "C" fn fow_unverified_issuer(
    validator: &mut Handle,
    alloc: Global,
    token: &[u8],
    out: &mut [u8],
    written: &mut usize,
) -> u32
    ensures same { validator.new.state ≡ validator.old.state }
    ensures none { validator.old.state ≡ None → result ≡ FOW_NOT_OPEN }
    ensures issuer { IfSome validator.old.state (λ d. PutsIssuer
        (token_of (documents d).policy token.now) result written.new out.old out.new) }
    ensures unwritten { result ≢ FOW_OK → (out.new ≡ out.old) × (written.new ≡ written.old) }
{
    key_sources::unverified_issuer(validator, alloc, token, out, written)
}

/// [`key_sources::text_member`] by its name in C.
#[unsafe(no_mangle)]
pub extern "C" fn fow_text_member(
    alloc: Global,
    document: &[u8],
    name: &[u8],
    out: &mut [u8],
    written: &mut usize,
) -> u32
    ensures text { IsUtf8 name.now
        → PutsSome (text_in name.now (object_of document.now)) result written.new out.old out.new }
    ensures other { ¬ IsUtf8 name.now → result ≡ FOW_ABSENT }
    ensures unwritten { result ≢ FOW_OK → (out.new ≡ out.old) × (written.new ≡ written.old) }
{
    key_sources::text_member(alloc, document, name, out, written)
}
