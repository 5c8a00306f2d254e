//! Octets of a token that isn't judged, and tokens that are issued.

ghost use Rattle.jwt_handles.specs.declared.status.TheConstants.{FOW_ABSENT, FOW_NOT_OPEN, FOW_OK, FOW_REFUSED};
ghost use Rattle.std.specs.Prelude.{◌≡◌, ◌≢◌, IfSome, None, IsUtf8};
ghost use Rattle.jwt_keys.specs.KeySets.{key_set};
ghost use Rattle.jwt_verify.specs.Verdict.{token_of};
ghost use Rattle.jwt_handles.specs.Documents.{documents};
ghost use Rattle.jwt_handles.specs.Written.{PutsPayload, PutsSome, header_octets_at};
ghost use Rattle.jwt_handles.specs.Issuing.{hmac_at, form_at, typ_of, PutsIssued};
ghost use Rattle.jwt_issue.specs.ClaimSets.{claim_set_of};

use crate::handle::{Handle, take};
use crate::issuing::NumberedIssuing;
use crate::report::FowReport;
use crate::status::{FOW_ABSENT, FOW_NOT_OPEN};
use crate::writing::payload_of;
use std::alloc::Global;
use std::str::from_utf8;

/// Writes the payload of a token at the front of `out`. `FOW_OK`; `FOW_OUT_OF_MEMORY`: memory was refused; `FOW_NOT_OPEN`: nothing
/// is held; `FOW_TOO_SHORT`: `out` is too short; `FOW_ABSENT`: the octets are no token.
pub fn payload(
    validator: &mut Handle,
    alloc: Global,
    token: &[u8],
    out: &mut [u8],
    written: &mut usize,
) -> u32
    ensures same { validator.new.state ≡ validator.old.state }
    ensures none { validator.old.state ≡ None → result ≡ FOW_NOT_OPEN }
    ensures payload { IfSome validator.old.state (λ d. PutsPayload
        (token_of (documents d).policy token.now) result written.new out.old out.new) }
    ensures unwritten { result ≢ FOW_OK → (out.new ≡ out.old) × (written.new ≡ written.old) }
{
    let Some(state) = take(validator, alloc) else {
        return FOW_NOT_OPEN;
    };
    let status = payload_of(alloc, &state, token, out, written);
    *validator = Handle::of(state);
    status
}

/// A signature as C names it: a token, and the place of the signature in it.
#[derive(Clone, Copy)]
pub struct SignatureOf<'a> {
    pub token: &'a [u8],
    pub signature: u32,
}

/// Writes the octets of a signature's protected header at the front of `out`. `FOW_OK`; `FOW_OUT_OF_MEMORY`: memory was refused;
/// `FOW_NOT_OPEN`: nothing is held; `FOW_TOO_SHORT`: `out` is too short; `FOW_ABSENT`: the octets are no token, or it has no such
/// signature.
pub fn unverified_header(
    validator: &mut Handle,
    alloc: Global,
    of: SignatureOf<'_>,
    out: &mut [u8],
    written: &mut usize,
) -> u32
    ensures same { validator.new.state ≡ validator.old.state }
    ensures none { validator.old.state ≡ None → result ≡ FOW_NOT_OPEN }
    ensures header { IfSome validator.old.state (λ d. PutsSome
        (header_octets_at (token_of (documents d).policy of.entry.token.now) of.entry.signature) result written.new out.old out.new) }
    ensures unwritten { result ≢ FOW_OK → (out.new ≡ out.old) × (written.new ≡ written.old) }
{
    let Some(state) = take(validator, alloc) else {
        return FOW_NOT_OPEN;
    };
    let status = state.put_header(alloc, of.token, of.signature, out, written);
    *validator = Handle::of(state);
    status
}

/// Issues a token of some claims, in the form and by the HMAC algorithm of these numbers, with this `typ` where it has octets, and writes
/// it at the front of `out`. `FOW_OK`; `FOW_REFUSED`: it is refused, as the report says; `FOW_OUT_OF_MEMORY`: memory was refused;
/// `FOW_NOT_OPEN`: nothing is held; `FOW_TOO_SHORT`: `out` is too short; `FOW_ABSENT`: there is no such algorithm or form, or `typ` isn't
/// in UTF-8.
pub fn issue(
    validator: &mut Handle,
    alloc: Global,
    alg: u32,
    form: u32,
    key: u32,
    typ: &[u8],
    claims: &[u8],
    out: &mut [u8],
    written: &mut usize,
    report: &mut FowReport,
) -> u32
    ensures same { validator.new.state ≡ validator.old.state }
    ensures none { validator.old.state ≡ None → result ≡ FOW_NOT_OPEN }
    ensures alg { IfSome validator.old.state (λ d. hmac_at alg ≡ None → result ≡ FOW_ABSENT) }
    ensures form { IfSome validator.old.state (λ d. form_at form ≡ None → result ≡ FOW_ABSENT) }
    ensures typ { IfSome validator.old.state (λ d. ¬ IsUtf8 typ.now → result ≡ FOW_ABSENT) }
    ensures token { IfSome validator.old.state (λ d. IfSome (hmac_at alg) (λ a.
        IfSome (form_at form) (λ f. IsUtf8 typ.now
        → PutsIssued (record { alg = a; typ = typ_of typ.now; form = f; key = key })
        (key_set (documents d).keys).keys (claim_set_of claims.now)
        result report.new written.new out.old out.new))) }
    ensures unwritten { result ≢ FOW_OK → (out.new ≡ out.old) × (written.new ≡ written.old) }
    ensures unsaid { result ≢ FOW_REFUSED → report.new ≡ report.old }
{
    let Some(state) = take(validator, alloc) else {
        return FOW_NOT_OPEN;
    };
    let status = match from_utf8(typ) {
        Ok(typ) => {
            let issuing = NumberedIssuing {
                alg,
                form,
                key,
                typ,
                keys: &state.grounds.documents().keys,
            };
            issuing.put(alloc, claims, out, written, report)
        }
        Err(_) => FOW_ABSENT,
    };
    *validator = Handle::of(state);
    status
}
