//! What tests call in place of an assertion of their own, which costs more to prove where it stands in a test.
use std::process::Abort;

/// Stops where something doesn't hold.
pub(crate) fn holds(rt: &impl Abort, it: bool) {
    assert!(rt; it);
}
