//! The handle of an access rule: as that of a validator, over a state of its own.
ghost use Rattle.std.specs.Prelude.{◌≡◌, Option, Some, None, MatchOption};
ghost use Rattle.std.specs.Coded.{coded_option};
ghost use Rattle.jwt_handles.specs.declared.rule_state.RuleState.{RuleState};
ghost use Rattle.jwt_handles.specs.contracts.rule_state.RuleState.{the_row};
ghost use Rattle.jwt_handles.specs.Handles.{handle_owns};

use crate::handle::needs_send;
use crate::raw_box::RawBox;
use crate::rule_state::RuleState;
use std::alloc::Global;
use std::marker::Model;
use std::mem::replace;
use std::ptr::null_mut;

/// A handle.
#[repr(C)]
pub struct RuleHandle {
    at: *mut u8,
    held: bool,
    alloc: Global,
    pub ghost state: { Option RuleState } by { coded_option the_row.coded },
}

impl Model for RuleHandle {
    ghost also_owns = { λ h. handle_owns the_row h.alloc h.held h.at h.state };
}

impl RuleHandle {
    /// An empty one.
    pub fn empty(alloc: Global) -> RuleHandle
        ensures { result.state ≡ None }
    {
        RuleHandle {
            at: null_mut(),
            held: false,
            alloc,
        }
    }

    /// One that holds the state.
    pub fn of_raw_box(state: RawBox<RuleState, Global>) -> RuleHandle
        ensures { result.state ≡ Some state.value }
    {
        let RawBox { at, alloc } = state;
        RuleHandle {
            at: at as *mut u8,
            held: true,
            alloc,
        }
    }

    /// The state, where one is held.
    pub fn into_raw_box(self) -> Option<RawBox<RuleState, Global>>
        ensures { MatchOption result (self.state ≡ None) (λ b. self.state ≡ Some b.value) }
    {
        let RuleHandle { at, held, alloc } = self;
        if held {
            Some(RawBox {
                at: at as *mut RuleState,
                alloc,
            })
        } else {
            None
        }
    }

    /// One that holds the box.
    pub fn of(state: Box<RuleState>) -> RuleHandle
        ensures { result.state ≡ Some state.value }
    {
        RuleHandle::of_raw_box(RawBox::of(state))
    }

    /// The box.
    pub fn open(self) -> Option<Box<RuleState>>
        ensures { MatchOption result (self.state ≡ None) (λ b. self.state ≡ Some b.value) }
    {
        match self.into_raw_box() {
            Some(state) => Some(state.into_box()),
            None => None,
        }
    }
}

/// Takes the state out, where one is held, and leaves none.
pub fn take_rule(access: &mut RuleHandle, alloc: Global) -> Option<Box<RuleState>>
    ensures held { MatchOption result (access.old.state ≡ None)
        (λ b. access.old.state ≡ Some b.value) }
    ensures left { access.new.state ≡ None }
{
    replace(access, RuleHandle::empty(alloc)).open()
}

impl Drop for RuleHandle {
    fn drop(self) {
        drop(self.open());
    }
}

unsafe impl Send for RuleHandle {}

/// A handle may go to another thread: this is proved only where it may.
pub fn rule_may_go_to_another_thread(handle: &RuleHandle) {
    needs_send(handle);
}
