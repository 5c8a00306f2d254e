//! The documents of a validator as public ones, and the issuer that a token names.

ghost use Rattle.jwt_handles.specs.declared.status.TheConstants.{FOW_ABSENT, FOW_OK};
ghost use Rattle.std.specs.Prelude.{◌≡◌, ◌≢◌, IsUtf8, false, option_map, slice_get};
ghost use Rattle.std.specs.List.{list_any};
ghost use Rattle.std.specs.Option.{option_map_or};
ghost use Rattle.jwt_mac.specs.Algorithm.{is_hmac_alg};
ghost use Rattle.jwt_mac.specs.Verifying.{key_octets};
ghost use Rattle.jwt_text.specs.ObjectText.{object_of};
ghost use Rattle.jwt_keys.specs.KeySets.{key_set};
ghost use Rattle.jwt_verify.specs.Verdict.{token_of};
ghost use Rattle.jwt_handles.specs.Documents.{documents};
ghost use Rattle.jwt_handles.specs.Issuers.{PutsIssuer, PutsNamed, are_public, is_secret, is_secret_key, named_issuer, sole, text_in};
ghost use Rattle.jwt_handles.specs.Written.{PutsHeld, PutsSome};

use crate::reading::read_token;
use crate::state::State;
use crate::status::{FOW_ABSENT, FOW_OUT_OF_MEMORY, FOW_UNNAMED};
use crate::writing::put;
use jwt_keys::KeySet;
use jwt_mac::{Alg, KeyView};
use jwt_policy::Policy;
use jwt_text::{TextFault, object};
use std::alloc::Global;
use std::str::from_utf8;

/// Whether one of the algorithms is HMAC.
#[tactic(auto, using(std::proofs::lemmas::List::at_drop_more, std::proofs::lemmas::List::at_drop_all))]
fn some_is_hmac(algs: &[Alg]) -> bool
    ensures { result ≡ list_any is_hmac_alg algs.now }
{
    for alg in algs {
        if alg.is_hmac() {
            return true;
        }
    }
    false
}

/// Whether a key is a shared secret.
fn is_secret(key: &KeyView) -> bool
    ensures { result ≡ is_secret (key_octets key.now) }
{
    match key {
        KeyView::Oct { .. } => true,
        _ => false,
    }
}

/// Whether the key of this number is a shared secret; false where there is none.
fn is_secret_at(keys: &KeySet, number: u32) -> bool
    ensures { result ≡ option_map_or is_secret_key (slice_get (key_set keys.now).keys number) false }
{
    match keys.key(number) {
        Some(key) => is_secret(&key.view()),
        None => false,
    }
}

/// Whether one of the keys is a shared secret.
#[tactic(auto, using(std::proofs::lemmas::List::drop_all))]
fn some_is_secret(keys: &KeySet) -> bool
    ensures { result ≡ list_any is_secret_key (key_set keys.now).keys }
{
    for number in 0..keys.len() {
        if is_secret_at(keys, number) {
            return true;
        }
    }
    false
}

/// Whether no algorithm of the policy is HMAC, and no key a shared secret. It takes no memory.
pub(crate) fn are_public(state: &State) -> bool
    ensures { result
        ≡ are_public (documents state.now).policy (key_set (documents state.now).keys).keys }
{
    let documents = state.grounds.documents();
    !some_is_hmac(documents.policy.algs()) && !some_is_secret(&documents.keys)
}

/// The issuer that the policy allows, where it is one alone.
fn sole_issuer(policy: &Policy) -> Option<&str>
    ensures { option_map (λ s. s.now) result ≡ sole policy.now.claims.issuers }
{
    let issuers = policy.issuers();
    if issuers.len() == 1 {
        Some(issuers[0].as_str())
    } else {
        None
    }
}

/// Puts the issuer that the policy allows at the front of `out`, where it is one alone. `FOW_OK`; `FOW_TOO_SHORT`: `out` is too short;
/// `FOW_ABSENT`: it isn't one alone.
pub(crate) fn put_sole_issuer(state: &State, out: &mut [u8], written: &mut usize) -> u32
    ensures written { PutsHeld (sole (documents state.now).policy.claims.issuers)
        result written.new out.old out.new }
    ensures unwritten { result ≢ FOW_OK → (out.new ≡ out.old) × (written.new ≡ written.old) }
{
    match sole_issuer(&state.grounds.documents().policy) {
        Some(issuer) => put(issuer.as_bytes(), out, written),
        None => FOW_ABSENT,
    }
}

/// Puts the issuer that a payload names at the front of `out`. `FOW_OK`; `FOW_OUT_OF_MEMORY`: memory was refused;
/// `FOW_TOO_SHORT`: `out` is too short; `FOW_UNNAMED`: it names none.
fn put_named(alloc: Global, payload: &[u8], out: &mut [u8], written: &mut usize) -> u32
    ensures written { PutsNamed (named_issuer payload.now) result written.new out.old out.new }
    ensures unwritten { result ≢ FOW_OK → (out.new ≡ out.old) × (written.new ≡ written.old) }
{
    match object(alloc, payload) {
        Ok(claims) => match claims.text("iss") {
            Some(issuer) => put(issuer.as_bytes(), out, written),
            None => FOW_UNNAMED,
        },
        Err(TextFault::OutOfMemory) => FOW_OUT_OF_MEMORY,
        Err(_) => FOW_UNNAMED,
    }
}

/// Puts the issuer that a token names at the front of `out`. `FOW_OK`; `FOW_OUT_OF_MEMORY`: memory was refused; `FOW_TOO_SHORT`: `out` is too
/// short; `FOW_ABSENT`: the octets are no token; `FOW_UNNAMED`: it names none.
pub(crate) fn put_issuer(
    alloc: Global,
    state: &State,
    token: &[u8],
    out: &mut [u8],
    written: &mut usize,
) -> u32
    ensures written { PutsIssuer (token_of (documents state.now).policy token.now)
        result written.new out.old out.new }
    ensures unwritten { result ≢ FOW_OK → (out.new ≡ out.old) × (written.new ≡ written.old) }
{
    match read_token(alloc, token, &state.grounds.documents().policy) {
        Ok(Some(signed)) => put_named(alloc, signed.payload(), out, written),
        Ok(None) => FOW_ABSENT,
        Err(_) => FOW_OUT_OF_MEMORY,
    }
}

/// Puts the text of this name in an object text at the front of `out`. `FOW_OK`; `FOW_OUT_OF_MEMORY`: memory was refused; `FOW_TOO_SHORT`:
/// `out` is too short; `FOW_ABSENT`: the octets are no object text, or it has no text of this name.
pub(crate) fn put_text(
    alloc: Global,
    document: &[u8],
    name: &[u8],
    out: &mut [u8],
    written: &mut usize,
) -> u32
    ensures text { IsUtf8 name.now
        → PutsSome (text_in name.now (object_of document.now)) result written.new out.old out.new }
    ensures other { ¬ IsUtf8 name.now → result ≡ FOW_ABSENT }
    ensures unwritten { result ≢ FOW_OK → (out.new ≡ out.old) × (written.new ≡ written.old) }
{
    let Ok(name) = from_utf8(name) else {
        return FOW_ABSENT;
    };
    match object(alloc, document) {
        Ok(members) => match members.text(name) {
            Some(text) => put(text.as_bytes(), out, written),
            None => FOW_ABSENT,
        },
        Err(TextFault::OutOfMemory) => FOW_OUT_OF_MEMORY,
        Err(_) => FOW_ABSENT,
    }
}
