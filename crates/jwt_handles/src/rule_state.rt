//! The state behind the handle of an access rule.

use jwt_access::AccessRule;

/// An access rule that was read.
#[derive(Drop)]
pub struct RuleState {
    pub(crate) rule: AccessRule,
}
