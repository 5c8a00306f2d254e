//! The handle of a validator. Those of other states are as this one, each a struct of its own, since no exported function takes a struct with a
//! type parameter. All own alike, and are proved alike.
ghost use Rattle.std.specs.Prelude.{◌≡◌, Option, Some, None, MatchOption};
ghost use Rattle.std.specs.Coded.{coded_option};
ghost use Rattle.jwt_handles.specs.declared.state.State.{State};
ghost use Rattle.jwt_handles.specs.contracts.state.State.{the_row};
ghost use Rattle.jwt_handles.specs.Handles.{handle_owns};

use crate::raw_box::RawBox;
use crate::state::State;
use std::alloc::Global;
use std::marker::Model;
use std::mem::replace;
use std::ptr::null_mut;

/// A handle.
#[repr(C)]
pub struct Handle {
    at: *mut u8,
    held: bool,
    alloc: Global,
    pub ghost state: { Option State } by { coded_option the_row.coded },
}

impl Model for Handle {
    ghost also_owns = { λ h. handle_owns the_row h.alloc h.held h.at h.state };
}

impl Handle {
    /// An empty one.
    pub fn empty(alloc: Global) -> Handle
        ensures { result.state ≡ None }
    {
        Handle {
            at: null_mut(),
            held: false,
            alloc,
        }
    }

    /// One that holds the state.
    pub fn of_raw_box(state: RawBox<State, Global>) -> Handle
        ensures { result.state ≡ Some state.value }
    {
        let RawBox { at, alloc } = state;
        Handle {
            at: at as *mut u8,
            held: true,
            alloc,
        }
    }

    /// The state, where one is held.
    pub fn into_raw_box(self) -> Option<RawBox<State, Global>>
        ensures { MatchOption result (self.state ≡ None) (λ b. self.state ≡ Some b.value) }
    {
        let Handle { at, held, alloc } = self;
        if held {
            Some(RawBox {
                at: at as *mut State,
                alloc,
            })
        } else {
            None
        }
    }

    /// One that holds the box.
    pub fn of(state: Box<State>) -> Handle
        ensures { result.state ≡ Some state.value }
    {
        Handle::of_raw_box(RawBox::of(state))
    }

    /// The box.
    pub fn open(self) -> Option<Box<State>>
        ensures { MatchOption result (self.state ≡ None) (λ b. self.state ≡ Some b.value) }
    {
        match self.into_raw_box() {
            Some(state) => Some(state.into_box()),
            None => None,
        }
    }
}

/// Takes the state out, where one is held, and leaves none.
pub fn take(validator: &mut Handle, alloc: Global) -> Option<Box<State>>
    ensures held { MatchOption result (validator.old.state ≡ None)
        (λ b. validator.old.state ≡ Some b.value) }
    ensures left { validator.new.state ≡ None }
{
    replace(validator, Handle::empty(alloc)).open()
}

impl Drop for Handle {
    fn drop(self) {
        drop(self.open());
    }
}

unsafe impl Send for Handle {}

/// Compiles where the type may be sent to another thread.
pub(crate) fn needs_send<T: Send>(_value: &T) {}

/// A handle may go to another thread: this is proved only where it may.
pub fn may_go_to_another_thread(handle: &Handle) {
    needs_send(handle);
}
