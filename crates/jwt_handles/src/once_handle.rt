//! The handle of a memory of tokens that count once: as that of a validator, over a state of its own.
ghost use Rattle.std.specs.Prelude.{◌≡◌, Option, Some, None, MatchOption};
ghost use Rattle.std.specs.Coded.{coded_option};
ghost use Rattle.jwt_handles.specs.declared.once_state.OnceState.{OnceState};
ghost use Rattle.jwt_handles.specs.contracts.once_state.OnceState.{the_row};
ghost use Rattle.jwt_handles.specs.Handles.{handle_owns};

use crate::handle::needs_send;
use crate::once_state::OnceState;
use crate::raw_box::RawBox;
use std::alloc::Global;
use std::marker::Model;
use std::mem::replace;
use std::ptr::null_mut;

/// A handle.
#[repr(C)]
pub struct OnceHandle {
    at: *mut u8,
    held: bool,
    alloc: Global,
    pub ghost state: { Option OnceState } by { coded_option the_row.coded },
}

impl Model for OnceHandle {
    ghost also_owns = { λ h. handle_owns the_row h.alloc h.held h.at h.state };
}

impl OnceHandle {
    /// An empty one.
    pub fn empty(alloc: Global) -> OnceHandle
        ensures { result.state ≡ None }
    {
        OnceHandle {
            at: null_mut(),
            held: false,
            alloc,
        }
    }

    /// One that holds the state.
    pub fn of_raw_box(state: RawBox<OnceState, Global>) -> OnceHandle
        ensures { result.state ≡ Some state.value }
    {
        let RawBox { at, alloc } = state;
        OnceHandle {
            at: at as *mut u8,
            held: true,
            alloc,
        }
    }

    /// The state, where one is held.
    pub fn into_raw_box(self) -> Option<RawBox<OnceState, Global>>
        ensures { MatchOption result (self.state ≡ None) (λ b. self.state ≡ Some b.value) }
    {
        let OnceHandle { at, held, alloc } = self;
        if held {
            Some(RawBox {
                at: at as *mut OnceState,
                alloc,
            })
        } else {
            None
        }
    }

    /// One that holds the box.
    pub fn of(state: Box<OnceState>) -> OnceHandle
        ensures { result.state ≡ Some state.value }
    {
        OnceHandle::of_raw_box(RawBox::of(state))
    }

    /// The box.
    pub fn open(self) -> Option<Box<OnceState>>
        ensures { MatchOption result (self.state ≡ None) (λ b. self.state ≡ Some b.value) }
    {
        match self.into_raw_box() {
            Some(state) => Some(state.into_box()),
            None => None,
        }
    }
}

/// Takes the state out, where one is held, and leaves none.
pub fn take_once(once: &mut OnceHandle, alloc: Global) -> Option<Box<OnceState>>
    ensures held { MatchOption result (once.old.state ≡ None)
        (λ b. once.old.state ≡ Some b.value) }
    ensures left { once.new.state ≡ None }
{
    replace(once, OnceHandle::empty(alloc)).open()
}

impl Drop for OnceHandle {
    fn drop(self) {
        drop(self.open());
    }
}

unsafe impl Send for OnceHandle {}

/// A handle may go to another thread: this is proved only where it may.
pub fn once_may_go_to_another_thread(handle: &OnceHandle) {
    needs_send(handle);
}
