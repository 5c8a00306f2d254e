//! The functions on memories of tokens that count once that C calls.

ghost use Rattle.jwt_handles.specs.declared.status.TheConstants.{FOW_NOT_OPEN, FOW_OK, FOW_REFUSED, FOW_OUT_OF_MEMORY};
ghost use Rattle.std.specs.Prelude.{◌≡◌, ◌≢◌, ◌↔◌, IfSome, None};
ghost use Rattle.jwt_handles.specs.Taking.{HoldsNone, TakesLast};
ghost use Rattle.jwt_handles.specs.Entries.{TellsLast};

use jwt_handles::entries::FowEntry;
use jwt_handles::handle::Handle;
use jwt_handles::once_handle::OnceHandle;
use jwt_handles::{entries, onces};
use std::alloc::Global;

/// [`onces::once_open`] by its name in C.
#[unsafe(no_mangle)]
pub extern "C" fn fow_once_open(
    once: &mut OnceHandle,
    alloc: Global,
    tokens: usize,
    share: usize,
    opened: u64,
) -> u32
    ensures opened { result ≡ FOW_OK → HoldsNone tokens share opened once.new.state }
    ensures refused { (result ≡ FOW_REFUSED) ↔ (tokens ≡ 0) }
    ensures statuses { result ≢ FOW_OK → result ≢ FOW_REFUSED → result ≡ FOW_OUT_OF_MEMORY }
    ensures same { result ≢ FOW_OK → once.new.state ≡ once.old.state }
{
    onces::once_open(once, alloc, tokens, share, opened)
}

/// [`onces::once_take`] by its name in C.
#[unsafe(no_mangle)]
pub extern "C" fn fow_once_take(
    once: &mut OnceHandle,
    alloc: Global,
    validator: &mut Handle,
    now: i64,
    taken: &mut u32,
) -> u32
    ensures same { validator.new.state ≡ validator.old.state }
    ensures none { validator.old.state ≡ None → (result ≡ FOW_NOT_OPEN) × (once.new.state ≡ once.old.state) }
    ensures no_memory { once.old.state ≡ None → (result ≡ FOW_NOT_OPEN) × (once.new.state ≡ None) }
    ensures taken { IfSome validator.old.state (λ d. IfSome once.old.state (λ o.
        TakesLast d now o result taken.new once.new.state)) }
{
    onces::once_take(once, alloc, validator, now, taken)
}

/// [`entries::once_entry`] by its name in C.
#[unsafe(no_mangle)]
pub extern "C" fn fow_once_entry(
    validator: &mut Handle,
    alloc: Global,
    now: i64,
    out: &mut FowEntry,
    lacks: &mut u32,
) -> u32
    ensures same { validator.new.state ≡ validator.old.state }
    ensures none { validator.old.state ≡ None → result ≡ FOW_NOT_OPEN }
    ensures entry { IfSome validator.old.state (λ d. TellsLast d now result out.new lacks.new) }
    ensures unwritten { result ≢ FOW_OK → out.new ≡ out.old }
{
    entries::once_entry(validator, alloc, now, out, lacks)
}

/// [`onces::once_close`] by its name in C.
#[unsafe(no_mangle)]
pub extern "C" fn fow_once_close(once: &mut OnceHandle, alloc: Global)
    ensures closed { once.new.state ≡ None }
{
    onces::once_close(once, alloc);
}
