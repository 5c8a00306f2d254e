//! The handle of a policy for proofs of possession: as that of a validator, over a state of its own.
ghost use Rattle.std.specs.Prelude.{◌≡◌, Option, Some, None, MatchOption};
ghost use Rattle.std.specs.Coded.{coded_option};
ghost use Rattle.jwt_handles.specs.declared.possession_state.PossessionState.{PossessionState};
ghost use Rattle.jwt_handles.specs.contracts.possession_state.PossessionState.{the_row};
ghost use Rattle.jwt_handles.specs.Handles.{handle_owns};

use crate::handle::needs_send;
use crate::possession_state::PossessionState;
use crate::raw_box::RawBox;
use std::alloc::Global;
use std::marker::Model;
use std::mem::replace;
use std::ptr::null_mut;

/// A handle.
#[repr(C)]
pub struct PossessionHandle {
    at: *mut u8,
    held: bool,
    alloc: Global,
    pub ghost state: { Option PossessionState } by { coded_option the_row.coded },
}

impl Model for PossessionHandle {
    ghost also_owns = { λ h. handle_owns the_row h.alloc h.held h.at h.state };
}

impl PossessionHandle {
    /// An empty one.
    pub fn empty(alloc: Global) -> PossessionHandle
        ensures { result.state ≡ None }
    {
        PossessionHandle {
            at: null_mut(),
            held: false,
            alloc,
        }
    }

    /// One that holds the state.
    pub fn of_raw_box(state: RawBox<PossessionState, Global>) -> PossessionHandle
        ensures { result.state ≡ Some state.value }
    {
        let RawBox { at, alloc } = state;
        PossessionHandle {
            at: at as *mut u8,
            held: true,
            alloc,
        }
    }

    /// The state, where one is held.
    pub fn into_raw_box(self) -> Option<RawBox<PossessionState, Global>>
        ensures { MatchOption result (self.state ≡ None) (λ b. self.state ≡ Some b.value) }
    {
        let PossessionHandle { at, held, alloc } = self;
        if held {
            Some(RawBox {
                at: at as *mut PossessionState,
                alloc,
            })
        } else {
            None
        }
    }

    /// One that holds the box.
    pub fn of(state: Box<PossessionState>) -> PossessionHandle
        ensures { result.state ≡ Some state.value }
    {
        PossessionHandle::of_raw_box(RawBox::of(state))
    }

    /// The box.
    pub fn open(self) -> Option<Box<PossessionState>>
        ensures { MatchOption result (self.state ≡ None) (λ b. self.state ≡ Some b.value) }
    {
        match self.into_raw_box() {
            Some(state) => Some(state.into_box()),
            None => None,
        }
    }
}

/// Takes the state out, where one is held, and leaves none.
pub fn take_possession(
    possession: &mut PossessionHandle,
    alloc: Global,
) -> Option<Box<PossessionState>>
    ensures held { MatchOption result (possession.old.state ≡ None)
        (λ b. possession.old.state ≡ Some b.value) }
    ensures left { possession.new.state ≡ None }
{
    replace(possession, PossessionHandle::empty(alloc)).open()
}

impl Drop for PossessionHandle {
    fn drop(self) {
        drop(self.open());
    }
}

unsafe impl Send for PossessionHandle {}

/// A handle may go to another thread: this is proved only where it may.
pub fn possession_may_go_to_another_thread(handle: &PossessionHandle) {
    needs_send(handle);
}
