//! The functions that C calls.

ghost use Rattle.jwt_handles.specs.declared.status.TheConstants.{FOW_ABSENT, FOW_NOT_OPEN, FOW_OK, FOW_OUT_OF_MEMORY, FOW_REFUSED};
ghost use Rattle.std.specs.Prelude.{◌≡◌, ◌≢◌, ◌≤◌, IfSome, None, slice_get, IsUtf8, false};
ghost use Rattle.jwt_keys.specs.KeySets.{key_set};
ghost use Rattle.jwt_policy.specs.Document.{policy_of};
ghost use Rattle.jwt_verify.specs.Verdict.{token_of};
ghost use Rattle.jwt_handles.specs.Documents.{documents};
ghost use Rattle.jwt_handles.specs.Reports.{IsBeside, IsOpened, IsRefused, IsAlike, report_numbers};
ghost use Rattle.jwt_handles.specs.Evidence.{states_kept, tries_kept, claims_kept, payload_kept, IsMomentBy};
ghost use Rattle.jwt_handles.specs.Faults.{bare};
ghost use Rattle.jwt_handles.specs.Keeping.{RemembersProved};
ghost use Rattle.jwt_handles.specs.Payloads.{KeepsPayloadBy};
ghost use Rattle.jwt_handles.specs.Remembering.{Remembers};
ghost use Rattle.jwt_handles.specs.Written.{PutsHeld, PutsPayload, PutsName, IsState, IsTry, PutsSome, PutsNumber, claim_text_at, header_octets_at, number_at, refused_member};
ghost use Rattle.jwt_handles.specs.Proving.{IsProvedBy};
ghost use Rattle.jwt_handles.specs.Issuing.{hmac_at, form_at, typ_of, PutsIssued};
ghost use Rattle.jwt_issue.specs.ClaimSets.{claim_set_of};

use jwt_handles::handle::Handle;
use jwt_handles::opening::{self, DocumentTexts};
use jwt_handles::report::{FowReport, FowState, FowTry};
use jwt_handles::tokens::{self, SignatureOf};
use jwt_handles::verdicts;
use std::alloc::Global;

/// [`opening::open`] by its name in C.
#[unsafe(no_mangle)]
pub extern "C" fn fow_open(
    validator: &mut Handle,
    alloc: Global,
    policy: &[u8],
    keys: &[u8],
    fault: &mut u32,
) -> u32
    ensures opened { result ≡ FOW_OK → IsOpened policy.now keys.now validator.new.state }
    ensures refused { result ≢ FOW_OK → IsRefused policy.now keys.now result fault.new }
    ensures same { result ≢ FOW_OK → validator.new.state ≡ validator.old.state }
{
    opening::open(validator, alloc, policy, keys, fault)
}

/// [`opening::open_prepared`] by its name in C.
#[unsafe(no_mangle)]
pub extern "C" fn fow_open_prepared(
    validator: &mut Handle,
    alloc: Global,
    policy: &[u8],
    keys: &[u8],
    most: usize,
    fault: &mut u32,
) -> u32
    ensures opened { result ≡ FOW_OK → IsOpened policy.now keys.now validator.new.state }
    ensures refused { result ≢ FOW_OK → IsRefused policy.now keys.now result fault.new }
    ensures same { result ≢ FOW_OK → validator.new.state ≡ validator.old.state }
{
    opening::open_prepared(
        validator,
        alloc,
        DocumentTexts { policy, keys },
        most,
        fault,
    )
}

/// [`opening::open_beside`] by its name in C.
#[unsafe(no_mangle)]
pub extern "C" fn fow_open_beside(
    validator: &mut Handle,
    alloc: Global,
    another: &mut Handle,
) -> u32
    ensures another { another.new.state ≡ another.old.state }
    ensures none { another.old.state ≡ None → result ≡ FOW_NOT_OPEN }
    ensures opened { result ≡ FOW_OK → IsBeside another.old.state validator.new.state }
    ensures refused { another.old.state ≢ None → result ≢ FOW_OK → result ≡ FOW_OUT_OF_MEMORY }
    ensures same { result ≢ FOW_OK → validator.new.state ≡ validator.old.state }
{
    opening::open_beside(validator, alloc, another)
}

/// [`opening::refused_member`] by its name in C.
#[unsafe(no_mangle)]
pub extern "C" fn fow_refused_member(
    alloc: Global,
    policy: &[u8],
    out: &mut [u8],
    written: &mut usize,
) -> u32
    ensures name { PutsSome (refused_member (policy_of policy.now)) result written.new out.old out.new }
    ensures unwritten { result ≢ FOW_OK → (out.new ≡ out.old) × (written.new ≡ written.old) }
{
    opening::refused_member(alloc, policy, out, written)
}

/// [`opening::close`] by its name in C.
#[unsafe(no_mangle)]
pub extern "C" fn fow_close(validator: &mut Handle, alloc: Global)
    ensures closed { validator.new.state ≡ None }
{
    opening::close(validator, alloc);
}

/// [`verdicts::judge`] by its name in C.
#[unsafe(no_mangle)]
pub extern "C" fn fow_judge(
    validator: &mut Handle,
    alloc: Global,
    token: &[u8],
    now: i64,
    report: &mut FowReport,
) -> u32
    ensures verdict { result ≡ report.new.verdict }
    ensures none { validator.old.state ≡ None → report_numbers report.new ≡ bare FOW_NOT_OPEN }
    ensures open { validator.old.state ≢ None → result ≤ FOW_OUT_OF_MEMORY }
    ensures alike { IsAlike validator.old.state validator.new.state }

    // What is accepted or refused is judged by validate's contract, and what is kept of it is its report.
    ensures judged { IfSome validator.old.state (λ d. result ≤ FOW_REFUSED
        → IsProvedBy d now token.now report.new validator.new.state) }
    ensures unused { result ≢ 2 }

    // So is the moment, against which an access rule holds dates.
    ensures moment { IfSome validator.old.state (λ d. IsMomentBy (documents d).policy now validator.new.state) }

    // Claims are kept of an acceptance alone, and so are the octets of the payload, which are those of the token.
    ensures claims { IfSome validator.new.state (λ e. result ≢ FOW_OK → claims_kept e.last ≡ None) }
    ensures payload { IfSome validator.old.state (λ d. KeepsPayloadBy (documents d).policy token.now result validator.new.state) }

    // It remembers nothing new but this token, where it is accepted.
    ensures remembers { IfSome validator.old.state (λ d. RemembersProved d token.now report.new validator.new.state) }
{
    verdicts::judge(validator, alloc, token, now, report)
}

/// [`verdicts::state_of`] by its name in C.
#[unsafe(no_mangle)]
pub extern "C" fn fow_state_of(
    validator: &mut Handle,
    alloc: Global,
    signature: u32,
    written: &mut FowState,
) -> u32
    ensures same { validator.new.state ≡ validator.old.state }
    ensures none { validator.old.state ≡ None → result ≡ FOW_NOT_OPEN }
    ensures state { IfSome validator.old.state (λ d.
        IsState (slice_get (states_kept d.last) signature) result written.new) }
    ensures unwritten { result ≢ FOW_OK → written.new ≡ written.old }
{
    verdicts::state_of(validator, alloc, signature, written)
}

/// [`verdicts::try_of`] by its name in C.
#[unsafe(no_mangle)]
pub extern "C" fn fow_try_of(
    validator: &mut Handle,
    alloc: Global,
    n: u64,
    tried: &mut FowTry,
) -> u32
    ensures same { validator.new.state ≡ validator.old.state }
    ensures none { validator.old.state ≡ None → result ≡ FOW_NOT_OPEN }
    ensures tried { IfSome validator.old.state (λ d.
        IsTry (slice_get (tries_kept d.last) n) result tried.new) }
    ensures unwritten { result ≢ FOW_OK → tried.new ≡ tried.old }
{
    verdicts::try_of(validator, alloc, n, tried)
}

/// [`verdicts::remember`] by its name in C.
#[unsafe(no_mangle)]
pub extern "C" fn fow_remember(
    validator: &mut Handle,
    alloc: Global,
    tokens: usize,
    octets: usize,
) -> u32
    ensures none { validator.old.state ≡ None → (result ≡ FOW_NOT_OPEN) × (validator.new.state ≡ None) }
    ensures remembers { IfSome validator.old.state (λ d. result ≡ FOW_OK
        → Remembers tokens octets d validator.new.state) }
    ensures refused { validator.old.state ≢ None → result ≢ FOW_OK → result ≡ FOW_OUT_OF_MEMORY }
    ensures same { result ≢ FOW_OK → validator.new.state ≡ validator.old.state }
{
    verdicts::remember(validator, alloc, tokens, octets)
}

/// [`verdicts::remembered`] by its name in C.
#[unsafe(no_mangle)]
pub extern "C" fn fow_remembered(validator: &mut Handle, alloc: Global) -> bool
    ensures same { validator.new.state ≡ validator.old.state }
    ensures none { validator.old.state ≡ None → result ≡ false }
    ensures remembered { IfSome validator.old.state (λ d. result ≡ d.last.remembered) }
{
    verdicts::remembered(validator, alloc)
}

/// [`verdicts::accepted_payload`] by its name in C.
#[unsafe(no_mangle)]
pub extern "C" fn fow_accepted_payload(
    validator: &mut Handle,
    alloc: Global,
    out: &mut [u8],
    written: &mut usize,
) -> u32
    ensures same { validator.new.state ≡ validator.old.state }
    ensures none { validator.old.state ≡ None → result ≡ FOW_NOT_OPEN }
    ensures payload { IfSome validator.old.state (λ d. PutsHeld
        (payload_kept d.last) result written.new out.old out.new) }
    ensures unwritten { result ≢ FOW_OK → (out.new ≡ out.old) × (written.new ≡ written.old) }
{
    verdicts::accepted_payload(validator, alloc, out, written)
}

/// [`tokens::payload`] by its name in C.
#[unsafe(no_mangle)]
pub extern "C" fn fow_payload(
    validator: &mut Handle,
    alloc: Global,
    token: &[u8],
    out: &mut [u8],
    written: &mut usize,
) -> u32
    ensures same { validator.new.state ≡ validator.old.state }
    ensures none { validator.old.state ≡ None → result ≡ FOW_NOT_OPEN }
    ensures payload { IfSome validator.old.state (λ d. PutsPayload
        (token_of (documents d).policy token.now) result written.new out.old out.new) }
    ensures unwritten { result ≢ FOW_OK → (out.new ≡ out.old) × (written.new ≡ written.old) }
{
    tokens::payload(validator, alloc, token, out, written)
}

/// [`tokens::unverified_header`] by its name in C.
#[unsafe(no_mangle)]
pub extern "C" fn fow_unverified_header(
    validator: &mut Handle,
    alloc: Global,
    token: &[u8],
    signature: u32,
    out: &mut [u8],
    written: &mut usize,
) -> u32
    ensures same { validator.new.state ≡ validator.old.state }
    ensures none { validator.old.state ≡ None → result ≡ FOW_NOT_OPEN }
    ensures header { IfSome validator.old.state (λ d. PutsSome
        (header_octets_at (token_of (documents d).policy token.now) signature) result written.new out.old out.new) }
    ensures unwritten { result ≢ FOW_OK → (out.new ≡ out.old) × (written.new ≡ written.old) }
{
    tokens::unverified_header(
        validator,
        alloc,
        SignatureOf { token, signature },
        out,
        written,
    )
}

/// [`verdicts::refused_claim`] by its name in C.
#[unsafe(no_mangle)]
pub extern "C" fn fow_refused_claim(
    validator: &mut Handle,
    alloc: Global,
    out: &mut [u8],
    written: &mut usize,
) -> u32
    ensures same { validator.new.state ≡ validator.old.state }
    ensures none { validator.old.state ≡ None → result ≡ FOW_NOT_OPEN }
    ensures name { IfSome validator.old.state (λ d. PutsName
        d.last.missing.items result written.new out.old out.new) }
    ensures unwritten { result ≢ FOW_OK → (out.new ≡ out.old) × (written.new ≡ written.old) }
{
    verdicts::refused_claim(validator, alloc, out, written)
}

/// [`tokens::issue`] by its name in C.
#[unsafe(no_mangle)]
pub extern "C" fn fow_issue(
    validator: &mut Handle,
    alloc: Global,
    alg: u32,
    form: u32,
    key: u32,
    typ: &[u8],
    claims: &[u8],
    out: &mut [u8],
    written: &mut usize,
    report: &mut FowReport,
) -> u32
    ensures same { validator.new.state ≡ validator.old.state }
    ensures none { validator.old.state ≡ None → result ≡ FOW_NOT_OPEN }
    ensures alg { IfSome validator.old.state (λ d. hmac_at alg ≡ None → result ≡ FOW_ABSENT) }
    ensures form { IfSome validator.old.state (λ d. form_at form ≡ None → result ≡ FOW_ABSENT) }
    ensures typ { IfSome validator.old.state (λ d. ¬ IsUtf8 typ.now → result ≡ FOW_ABSENT) }
    ensures token { IfSome validator.old.state (λ d. IfSome (hmac_at alg) (λ a.
        IfSome (form_at form) (λ f. IsUtf8 typ.now
        → PutsIssued (record { alg = a; typ = typ_of typ.now; form = f; key = key })
        (key_set (documents d).keys).keys (claim_set_of claims.now)
        result report.new written.new out.old out.new))) }
    ensures unwritten { result ≢ FOW_OK → (out.new ≡ out.old) × (written.new ≡ written.old) }
    ensures unsaid { result ≢ FOW_REFUSED → report.new ≡ report.old }
{
    tokens::issue(
        validator, alloc, alg, form, key, typ, claims, out, written, report,
    )
}

/// [`verdicts::claim`] by its name in C.
#[unsafe(no_mangle)]
pub extern "C" fn fow_claim(
    validator: &mut Handle,
    alloc: Global,
    name: &[u8],
    out: &mut [u8],
    written: &mut usize,
) -> u32
    ensures same { validator.new.state ≡ validator.old.state }
    ensures none { validator.old.state ≡ None → result ≡ FOW_NOT_OPEN }
    ensures claim { IfSome validator.old.state (λ d. IsUtf8 name.now
        → PutsSome (claim_text_at (claims_kept d.last) name.now) result written.new out.old out.new) }
    ensures other { IfSome validator.old.state (λ d. ¬ IsUtf8 name.now → result ≡ FOW_ABSENT) }
    ensures unwritten { result ≢ FOW_OK → (out.new ≡ out.old) × (written.new ≡ written.old) }
{
    verdicts::claim(validator, alloc, name, out, written)
}

/// [`verdicts::number`] by its name in C.
#[unsafe(no_mangle)]
pub extern "C" fn fow_number(
    validator: &mut Handle,
    alloc: Global,
    name: &[u8],
    number: &mut i64,
) -> u32
    ensures same { validator.new.state ≡ validator.old.state }
    ensures none { validator.old.state ≡ None → result ≡ FOW_NOT_OPEN }
    ensures claim { IfSome validator.old.state (λ d. IsUtf8 name.now
        → PutsNumber (number_at (claims_kept d.last) name.now) result number.new) }
    ensures other { IfSome validator.old.state (λ d. ¬ IsUtf8 name.now → result ≡ FOW_ABSENT) }
    ensures unwritten { result ≢ FOW_OK → number.new ≡ number.old }
{
    verdicts::number(validator, alloc, name, number)
}
