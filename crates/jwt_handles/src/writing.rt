//! Octets that are written for the caller.

ghost use Rattle.jwt_handles.specs.declared.status.TheConstants.{FOW_ABSENT, FOW_OK};
ghost use Rattle.std.specs.Prelude.{◌≡◌, ◌≢◌, IsUtf8, None, option_map};
ghost use Rattle.jwt_text.specs.Base64url.{octets_of};
ghost use Rattle.jwt_verify.specs.Verdict.{token_of};
ghost use Rattle.jwt_handles.specs.Documents.{documents};
ghost use Rattle.jwt_handles.specs.Written.{Puts, PutsPayload, PutsSome, claim_text_at, header_octets_at, number_at};

use crate::reading::read_token;
use crate::state::State;
use crate::status::{FOW_ABSENT, FOW_OK, FOW_OUT_OF_MEMORY, FOW_TOO_SHORT};
use jwt_policy::Claims;
use jwt_text::{TextFault, decode};
use std::alloc::Global;
use std::str::from_utf8;

/// Puts octets at the front of `out`. `FOW_OK`; `FOW_TOO_SHORT`: it is too short.
pub(crate) fn put(octets: &[u8], out: &mut [u8], written: &mut usize) -> u32
    ensures written { Puts octets.now result written.new out.old out.new }
    ensures unwritten { result ≢ FOW_OK → (out.new ≡ out.old) × (written.new ≡ written.old) }
{
    if octets.len() > out.len() {
        return FOW_TOO_SHORT;
    }
    out[..octets.len()].copy_from_slice(octets);
    *written = octets.len();
    FOW_OK
}

/// Puts the payload of a token at the front of `out`. `FOW_OK`; `FOW_OUT_OF_MEMORY`: memory was refused; `FOW_TOO_SHORT`: `out` is
/// too short; `FOW_ABSENT`: the octets are no token.
pub(crate) fn payload_of(
    alloc: Global,
    state: &State,
    token: &[u8],
    out: &mut [u8],
    written: &mut usize,
) -> u32
    ensures written { PutsPayload (token_of (documents state.now).policy token.now)
        result written.new out.old out.new }
    ensures unwritten { result ≢ FOW_OK → (out.new ≡ out.old) × (written.new ≡ written.old) }
{
    match read_token(alloc, token, &state.grounds.documents().policy) {
        Ok(Some(signed)) => put(signed.payload(), out, written),
        Ok(None) => FOW_ABSENT,
        Err(_) => FOW_OUT_OF_MEMORY,
    }
}

impl State {
    /// Puts the octets of a signature's protected header at the front of `out`. `FOW_OK`; `FOW_OUT_OF_MEMORY`: memory was refused;
    /// `FOW_TOO_SHORT`: `out` is too short; `FOW_ABSENT`: the octets are no token, or it has no such signature.
    pub(crate) fn put_header(
        &self,
        alloc: Global,
        token: &[u8],
        signature: u32,
        out: &mut [u8],
        written: &mut usize,
    ) -> u32
        ensures written { PutsSome (header_octets_at (token_of (documents self.now).policy token.now) signature)
            result written.new out.old out.new }
        ensures unwritten { result ≢ FOW_OK → (out.new ≡ out.old) × (written.new ≡ written.old) }
    {
        match read_token(alloc, token, &self.grounds.documents().policy) {
            Ok(Some(signed)) => match signed.signature(signature) {
                Some(signature) => put_decoded(alloc, signature.protected_text(), out, written),
                None => FOW_ABSENT,
            },
            Ok(None) => FOW_ABSENT,
            Err(_) => FOW_OUT_OF_MEMORY,
        }
    }
}

/// Puts the octets that a base64url text spells at the front of `out`. `FOW_OK`; `FOW_OUT_OF_MEMORY`: memory was refused; `FOW_TOO_SHORT`:
/// `out` is too short; `FOW_ABSENT`: it spells none.
fn put_decoded(alloc: Global, text: &[u8], out: &mut [u8], written: &mut usize) -> u32
    ensures written { PutsSome (octets_of text.now) result written.new out.old out.new }
    ensures unwritten { result ≢ FOW_OK → (out.new ≡ out.old) × (written.new ≡ written.old) }
{
    match decode(alloc, text) {
        Ok(octets) => put(&octets, out, written),
        Err(TextFault::OutOfMemory) => FOW_OUT_OF_MEMORY,
        Err(_) => FOW_ABSENT,
    }
}

/// Puts the compact JSON text of a claim at the front of `out`. `FOW_OK`; `FOW_OUT_OF_MEMORY`: memory was refused;
/// `FOW_TOO_SHORT`: `out` is too short; `FOW_ABSENT`: there is none.
pub(crate) fn put_claim(
    alloc: Global,
    claims: Option<&Claims>,
    name: &[u8],
    out: &mut [u8],
    written: &mut usize,
) -> u32
    ensures claim { IsUtf8 name.now
        → PutsSome (claim_text_at (option_map (λ c. c.now) claims.entry) name.now) result written.new out.old out.new }
    ensures other { ¬ IsUtf8 name.now → result ≡ FOW_ABSENT }
    ensures unwritten { result ≢ FOW_OK → (out.new ≡ out.old) × (written.new ≡ written.old) }
{
    let Ok(name) = from_utf8(name) else {
        return FOW_ABSENT;
    };
    let Some(claims) = claims else {
        return FOW_ABSENT;
    };
    match claims.object().compact(alloc, name) {
        Ok(Some(text)) => put(&text, out, written),
        Ok(None) => FOW_ABSENT,
        Err(_) => FOW_OUT_OF_MEMORY,
    }
}

/// A claim that is a whole number of 64 signed bits.
pub(crate) fn number_at(claims: Option<&Claims>, name: &[u8]) -> Option<i64>
    ensures claim { IsUtf8 name.now → result ≡ number_at (option_map (λ c. c.now) claims.entry) name.now }
    ensures other { ¬ IsUtf8 name.now → result ≡ None }
{
    let Ok(name) = from_utf8(name) else {
        return None;
    };
    match claims {
        Some(claims) => claims.object().whole(name),
        None => None,
    }
}
