//! Memories of tokens.

ghost use Rattle.jwt_handles.specs.declared.status.TheConstants.{FOW_OK, FOW_OUT_OF_MEMORY};
ghost use Rattle.std.specs.Prelude.{◌≡◌, ◌≢◌, IfOk};
ghost use Rattle.jwt_handles.specs.Remembering.{IsMemoryFor, IsRemembering};

use crate::state::State;
use crate::status::{FOW_OK, FOW_OUT_OF_MEMORY};
use jwt_memory::Memory;
use std::alloc::{AllocError, Global};
use std::num::NonZeroUsize;

/// An empty memory for so many tokens of so many octets each; none for no tokens.
fn memory_for(alloc: Global, tokens: usize, octets: usize) -> Result<Option<Memory>, AllocError>
    ensures { IfOk result (λ m. IsMemoryFor tokens octets m) }
{
    match NonZeroUsize::new(tokens) {
        Some(tokens) => Ok(Some(Memory::new(alloc, tokens, octets)?)),
        None => Ok(None),
    }
}

/// Remembers from now on so many tokens of so many octets. `FOW_OK`; `FOW_OUT_OF_MEMORY`: memory was refused,
/// and nothing has changed.
pub(crate) fn remember_state(alloc: Global, state: &mut State, tokens: usize, octets: usize) -> u32
    ensures remembers { result ≡ FOW_OK → IsRemembering tokens octets state.old state.new }
    ensures refused { result ≢ FOW_OK → result ≡ FOW_OUT_OF_MEMORY }
    ensures same { result ≢ FOW_OK → state.new ≡ state.old }
{
    let Ok(memory) = memory_for(alloc, tokens, octets) else {
        return FOW_OUT_OF_MEMORY;
    };
    state.grounds.remember(memory);
    FOW_OK
}
