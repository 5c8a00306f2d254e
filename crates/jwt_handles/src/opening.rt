//! Holding documents, and letting them go.

ghost use Rattle.jwt_handles.specs.declared.status.TheConstants.{FOW_NOT_OPEN, FOW_OK, FOW_OUT_OF_MEMORY};
ghost use Rattle.std.specs.Prelude.{◌≡◌, ◌≢◌, None, IfOk, IfErr};
ghost use Rattle.std.specs.Arc.{arc_value};
ghost use Rattle.jwt_policy.specs.Document.{policy_of};
ghost use Rattle.jwt_handles.specs.Reports.{IsBeside, IsFresh, IsOpened, IsRead, IsRefused};
ghost use Rattle.jwt_handles.specs.Written.{PutsSome, refused_member};

use crate::faults::{keys_number, policy_number};
use crate::grounds::{Documents, Grounds, SharedGrounds};
use crate::handle::{Handle, take};
use crate::state::{Last, State};
use crate::status::{FOW_ABSENT, FOW_NOT_OPEN, FOW_OK, FOW_OUT_OF_MEMORY, FOW_REFUSED, NotHeld};
use crate::writing::put;
use jwt_built_in::{BuiltIn, PREPARED_KEYS};
use jwt_keys::{KeySet, KeysFault};
use jwt_policy::{Policy, PolicyFault};
use jwt_text::Scratch;
use std::alloc::{AllocError, Global};
use std::sync::Arc;

/// The documents of a policy, with a ceiling of 64 tries where it names none and allows an algorithm with public keys, and of a key set; or the status and the number of the fault for which one of them is refused.
fn documents_of(alloc: Global, policy: &[u8], keys: &[u8]) -> Result<Documents, NotHeld>
    ensures read { IfOk result (λ it. IsRead policy.now keys.now it) }
    ensures refused { IfErr result (λ e. IsRefused policy.now keys.now e.status e.fault) }
{
    let policy = match Policy::read(alloc, policy) {
        Ok(policy) => policy.with_ceiling(),
        Err(PolicyFault::OutOfMemory) => return Err(NotHeld {
            status: FOW_OUT_OF_MEMORY,
            fault: 0,
        }),
        Err(fault) => return Err(NotHeld {
            status: FOW_REFUSED,
            fault: policy_number(&fault),
        }),
    };
    let keys = match KeySet::read(alloc, keys) {
        Ok(keys) => keys,
        Err(KeysFault::OutOfMemory) => return Err(NotHeld {
            status: FOW_OUT_OF_MEMORY,
            fault: 0,
        }),
        Err(fault) => return Err(NotHeld {
            status: FOW_REFUSED,
            fault: keys_number(fault),
        }),
    };
    Ok(Documents { policy, keys })
}

/// These documents, to be shared, with the proved verifiers, which have at most so many of the keys prepared.
fn shared_of(
    alloc: Global,
    policy: &[u8],
    keys: &[u8],
    most: usize,
) -> Result<Arc<SharedGrounds>, NotHeld>
    ensures read { IfOk result (λ shared. IsRead policy.now keys.now (arc_value shared).documents) }
    ensures refused { IfErr result (λ e. IsRefused policy.now keys.now e.status e.fault) }
{
    let documents = documents_of(alloc, policy, keys)?;
    let verifiers = BuiltIn::prepared(alloc, &documents.keys, most);
    let shared = SharedGrounds {
        documents,
        verifiers,
    };
    match Arc::new(alloc, shared) {
        Ok(shared) => Ok(shared),
        Err(_) => Err(NotHeld {
            status: FOW_OUT_OF_MEMORY,
            fault: 0,
        }),
    }
}

/// A handle on these documents. `Err`: memory was refused.
fn handle_on(alloc: Global, shared: Arc<SharedGrounds>) -> Result<Handle, AllocError>
    ensures { IfOk result (λ h. IsFresh (arc_value shared).documents h.state) }
{
    let Ok(scratch) = Box::new(alloc, Scratch::new(alloc)) else {
        return Err(AllocError);
    };
    let state = State {
        grounds: Grounds::new(shared),
        last: Last::new(alloc),
        scratch,
    };
    match Box::new(alloc, state) {
        Ok(state) => Ok(Handle::of(state)),
        Err(_) => Err(AllocError),
    }
}

/// The octets of a policy and of a key set.
#[derive(Clone, Copy)]
pub struct DocumentTexts<'a> {
    pub policy: &'a [u8],
    pub keys: &'a [u8],
}

/// [`open_prepared`] with 16 keys.
pub fn open(
    validator: &mut Handle,
    alloc: Global,
    policy: &[u8],
    keys: &[u8],
    fault: &mut u32,
) -> u32
    ensures opened { result ≡ FOW_OK → IsOpened policy.now keys.now validator.new.state }
    ensures refused { result ≢ FOW_OK → IsRefused policy.now keys.now result fault.new }
    ensures same { result ≢ FOW_OK → validator.new.state ≡ validator.old.state }
{
    open_prepared(
        validator,
        alloc,
        DocumentTexts { policy, keys },
        PREPARED_KEYS,
        fault,
    )
}

/// Reads a policy and a key set, and prepares the first keys that can be, at most so many, for the proved verifiers: those of ECDSA and
/// Ed25519. `FOW_OK`: they are held from now on; `FOW_REFUSED`: one of them is refused, for the fault; `FOW_OUT_OF_MEMORY`: memory was
/// refused, for what isn't prepared; a key for whose preparing it is refused stays unprepared. On any other status the handle holds what
/// it held.
pub fn open_prepared(
    validator: &mut Handle,
    alloc: Global,
    texts: DocumentTexts<'_>,
    most: usize,
    fault: &mut u32,
) -> u32
    ensures opened { result ≡ FOW_OK → IsOpened texts.entry.policy.now texts.entry.keys.now validator.new.state }
    ensures refused { result ≢ FOW_OK → IsRefused texts.entry.policy.now texts.entry.keys.now result fault.new }
    ensures same { result ≢ FOW_OK → validator.new.state ≡ validator.old.state }
{
    *fault = 0;
    match shared_of(alloc, texts.policy, texts.keys, most) {
        Ok(shared) => match handle_on(alloc, shared) {
            Ok(handle) => {
                *validator = handle;
                FOW_OK
            }
            Err(_) => FOW_OUT_OF_MEMORY,
        },
        Err(why) => {
            *fault = why.fault;
            why.status
        }
    }
}

/// Opens a validator beside another one: on the documents that this holds, which aren't read again. `FOW_OK`: they are held by both from
/// now on; `FOW_OUT_OF_MEMORY`: memory was refused; `FOW_NOT_OPEN`: the other holds nothing. On any other status the handle holds what it
/// held.
pub fn open_beside(validator: &mut Handle, alloc: Global, another: &mut Handle) -> u32
    ensures another { another.new.state ≡ another.old.state }
    ensures none { another.old.state ≡ None → result ≡ FOW_NOT_OPEN }
    ensures opened { result ≡ FOW_OK → IsBeside another.old.state validator.new.state }
    ensures refused { another.old.state ≢ None → result ≢ FOW_OK → result ≡ FOW_OUT_OF_MEMORY }
    ensures same { result ≢ FOW_OK → validator.new.state ≡ validator.old.state }
{
    let Some(state) = take(another, alloc) else {
        return FOW_NOT_OPEN;
    };
    let shared = state.grounds.share();
    *another = Handle::of(state);
    let Some(shared) = shared else {
        return FOW_OUT_OF_MEMORY;
    };
    match handle_on(alloc, shared) {
        Ok(beside) => {
            *validator = beside;
            FOW_OK
        }
        Err(_) => FOW_OUT_OF_MEMORY,
    }
}

/// Writes the name of the member for which a policy is refused at the front of `out`. `FOW_OK`; `FOW_OUT_OF_MEMORY`: memory was refused;
/// `FOW_TOO_SHORT`: `out` is too short; `FOW_ABSENT`: the policy isn't refused for a member.
pub fn refused_member(alloc: Global, policy: &[u8], out: &mut [u8], written: &mut usize) -> u32
    ensures name { PutsSome (refused_member (policy_of policy.now)) result written.new out.old out.new }
    ensures unwritten { result ≢ FOW_OK → (out.new ≡ out.old) × (written.new ≡ written.old) }
{
    match Policy::read(alloc, policy) {
        Err(PolicyFault::OutOfMemory) => FOW_OUT_OF_MEMORY,
        Err(PolicyFault::Member(name) | PolicyFault::Range(name)) => {
            put(name.text().as_bytes(), out, written)
        }
        _ => FOW_ABSENT,
    }
}

/// Frees what is held, if anything is.
pub fn close(validator: &mut Handle, alloc: Global)
    ensures closed { validator.new.state ≡ None }
{
    *validator = Handle::empty(alloc);
}
