//! The functions on proofs of possession that C calls.

ghost use Rattle.jwt_handles.specs.declared.status.TheConstants.{FOW_NOT_OPEN, FOW_OK, FOW_OUT_OF_MEMORY, FOW_REFUSED};
ghost use Rattle.std.specs.Prelude.{◌≡◌, ◌≢◌, [], IfSome, None, option_map};
ghost use Rattle.jwt_verify.specs.Verdict.{token_of};
ghost use Rattle.jwt_possession.specs.AlgNames.{algs_text};
ghost use Rattle.jwt_possession.specs.Nonces.{MakesNonces, nonce_of};
ghost use Rattle.jwt_possession.specs.Possessions.{proved};
ghost use Rattle.jwt_handles.specs.Bound.{SaysBound, SaysWays};
ghost use Rattle.jwt_handles.specs.Documents.{documents};
ghost use Rattle.jwt_handles.specs.Entries.{TellsProof};
ghost use Rattle.jwt_handles.specs.Evidence.{claims_kept};
ghost use Rattle.jwt_handles.specs.Nonces.{SaysFresh};
ghost use Rattle.jwt_handles.specs.Possessing.{HoldsOn, HoldsPolicy, IsPolicyRefused, SaysBeside, SaysFor, TakesKept, claims_of_last, kept_in};
ghost use Rattle.jwt_handles.specs.Written.{Puts, PutsHeld};

use jwt_handles::entries::FowEntry;
use jwt_handles::handle::Handle;
use jwt_handles::once_handle::OnceHandle;
use jwt_handles::possessing::{Asked, Sent};
use jwt_handles::possession_handle::PossessionHandle;
use jwt_handles::{bound, entries, nonces, possessions};
use std::alloc::Global;

/// [`possessions::possession_open`] by its name in C.
#[unsafe(no_mangle)]
pub extern "C" fn fow_possession_open(
    possession: &mut PossessionHandle,
    alloc: Global,
    policy: &[u8],
    fault: &mut u32,
) -> u32
    ensures opened { result ≡ FOW_OK → HoldsPolicy policy.now possession.new.state }
    ensures refused { result ≢ FOW_OK → IsPolicyRefused policy.now result fault.new }
    ensures same { result ≢ FOW_OK → possession.new.state ≡ possession.old.state }
{
    possessions::possession_open(possession, alloc, policy, fault)
}

/// [`possessions::possession_judge`] by its name in C.
#[unsafe(no_mangle)]
pub extern "C" fn fow_possession_judge(
    possession: &mut PossessionHandle,
    alloc: Global,
    validator: &mut Handle,
    proof: &[u8],
    method: &[u8],
    uri: &[u8],
    nonce: &[u8],
    token: &[u8],
    now: i64,
    fault: &mut u32,
) -> u32
    ensures same { validator.new.state ≡ validator.old.state }
    ensures none { possession.old.state ≡ None → (result ≡ FOW_NOT_OPEN) × (possession.new.state ≡ None) }
    ensures held { IfSome possession.old.state (λ p. HoldsOn p possession.new.state) }
    ensures unproved { result ≢ FOW_OK → kept_in possession.new.state ≡ None }
    ensures alone { IfSome possession.old.state (λ p. token.now ≡ [] → SaysFor p.policy now
        (record { method = method.now; uri = uri.now; nonce = nonce.now; token = token.now })
        None proof.now result fault.new (kept_in possession.new.state)) }
    ensures no_validator { token.now ≢ [] → validator.old.state ≡ None → result ≡ FOW_NOT_OPEN }
    ensures beside { IfSome possession.old.state (λ p. IfSome validator.old.state (λ d.
        token.now ≢ [] → result ≢ FOW_OUT_OF_MEMORY → SaysBeside
        (claims_of_last (token_of (documents d).policy token.now) d.last) p.policy now
        (record { method = method.now; uri = uri.now; nonce = nonce.now; token = token.now })
        proof.now result fault.new (kept_in possession.new.state))) }
{
    let request = Asked {
        method,
        uri,
        nonce,
        token,
    };
    let sent = Sent {
        proof,
        request,
        now,
    };
    possessions::possession_judge(possession, alloc, validator, sent, fault)
}

/// [`possessions::possession_take`] by its name in C.
#[unsafe(no_mangle)]
pub extern "C" fn fow_possession_take(
    possession: &mut PossessionHandle,
    alloc: Global,
    once: &mut OnceHandle,
    now: i64,
    taken: &mut u32,
) -> u32
    ensures same { possession.new.state ≡ possession.old.state }
    ensures none { possession.old.state ≡ None → (result ≡ FOW_NOT_OPEN) × (once.new.state ≡ once.old.state) }
    ensures no_memory { once.old.state ≡ None → (result ≡ FOW_NOT_OPEN) × (once.new.state ≡ None) }
    ensures taken { IfSome possession.old.state (λ p. IfSome once.old.state (λ o.
        TakesKept p.last now o result taken.new once.new.state)) }
{
    possessions::possession_take(possession, alloc, once, now, taken)
}

/// [`possessions::possession_thumbprint`] by its name in C.
#[unsafe(no_mangle)]
pub extern "C" fn fow_possession_thumbprint(
    possession: &mut PossessionHandle,
    alloc: Global,
    out: &mut [u8],
    written: &mut usize,
) -> u32
    ensures same { possession.new.state ≡ possession.old.state }
    ensures none { possession.old.state ≡ None → result ≡ FOW_NOT_OPEN }
    ensures thumbprint { IfSome possession.old.state (λ p. PutsHeld
        (option_map (λ it. (proved it).thumbprint) p.last) result written.new out.old out.new) }
    ensures unwritten { result ≢ FOW_OK → (out.new ≡ out.old) × (written.new ≡ written.old) }
{
    possessions::possession_thumbprint(possession, alloc, out, written)
}

/// [`entries::possession_entry`] by its name in C.
#[unsafe(no_mangle)]
pub extern "C" fn fow_possession_entry(
    possession: &mut PossessionHandle,
    alloc: Global,
    out: &mut FowEntry,
) -> u32
    ensures same { possession.new.state ≡ possession.old.state }
    ensures none { possession.old.state ≡ None → result ≡ FOW_NOT_OPEN }
    ensures entry { IfSome possession.old.state (λ p. TellsProof p.last result out.new) }
    ensures unwritten { result ≢ FOW_OK → out.new ≡ out.old }
{
    entries::possession_entry(possession, alloc, out)
}

/// [`possessions::possession_algs`] by its name in C.
#[unsafe(no_mangle)]
pub extern "C" fn fow_possession_algs(
    possession: &mut PossessionHandle,
    alloc: Global,
    out: &mut [u8],
    written: &mut usize,
) -> u32
    ensures same { possession.new.state ≡ possession.old.state }
    ensures none { possession.old.state ≡ None → result ≡ FOW_NOT_OPEN }
    ensures algs { IfSome possession.old.state (λ p. Puts (algs_text p.policy.run.algs) result written.new out.old out.new) }
    ensures unwritten { result ≢ FOW_OK → (out.new ≡ out.old) × (written.new ≡ written.old) }
{
    possessions::possession_algs(possession, alloc, out, written)
}

/// [`nonces::nonce`] by its name in C.
#[unsafe(no_mangle)]
pub extern "C" fn fow_nonce(
    secret: &[u8],
    period: u32,
    now: i64,
    out: &mut [u8],
    written: &mut usize,
) -> u32
    ensures nonce { MakesNonces (record { secret = secret.now; period = period })
        → Puts (nonce_of (record { secret = secret.now; period = period }) now) result written.new out.old out.new }
    ensures refused { ¬ MakesNonces (record { secret = secret.now; period = period }) → result ≡ FOW_REFUSED }
    ensures unwritten { result ≢ FOW_OK → (out.new ≡ out.old) × (written.new ≡ written.old) }
{
    nonces::nonce(secret, period, now, out, written)
}

/// [`nonces::possession_fresh`] by its name in C.
#[unsafe(no_mangle)]
pub extern "C" fn fow_possession_fresh(
    possession: &mut PossessionHandle,
    alloc: Global,
    secret: &[u8],
    period: u32,
    now: i64,
) -> u32
    ensures same { possession.new.state ≡ possession.old.state }
    ensures none { possession.old.state ≡ None → result ≡ FOW_NOT_OPEN }
    ensures fresh { IfSome possession.old.state (λ p. SaysFresh
        (record { secret = secret.now; period = period }) now p.last result) }
{
    nonces::possession_fresh(possession, alloc, secret, period, now)
}

/// [`possessions::possession_close`] by its name in C.
#[unsafe(no_mangle)]
pub extern "C" fn fow_possession_close(possession: &mut PossessionHandle, alloc: Global)
    ensures closed { possession.new.state ≡ None }
{
    possessions::possession_close(possession, alloc);
}

/// [`bound::shown`] by its name in C.
#[unsafe(no_mangle)]
pub extern "C" fn fow_shown(
    validator: &mut Handle,
    alloc: Global,
    possession: &mut PossessionHandle,
    der: &[u8],
    ways: &mut u32,
    fault: &mut u32,
) -> u32
    ensures same { validator.new.state ≡ validator.old.state }
    ensures same_proof { possession.new.state ≡ possession.old.state }
    ensures none { validator.old.state ≡ None → (result ≡ FOW_NOT_OPEN) × (ways.new ≡ 0) × (fault.new ≡ 0) }
    ensures shown { IfSome validator.old.state (λ d. SaysBound (claims_kept d.last) (kept_in possession.old.state) der.now result fault.new) }
    ensures ways { IfSome validator.old.state (λ d. SaysWays (claims_kept d.last) result ways.new) }
{
    bound::shown(validator, alloc, possession, der, ways, fault)
}
