//! What the claims of an accepted token are held against.

use jwt_access::{AccessRule, Moment};
use jwt_settings::Expectation;

/// What the claims of an accepted token are held against, in this order.
#[derive(Clone, Copy)]
pub struct Demands<'a> {
    /// The access rule, where one is asked.
    pub rule: Option<&'a AccessRule>,
    /// What one claim has to be, where that is asked.
    pub expected: Option<Expectation<'a>>,
    /// The moment of the verdict, with the policy's leeway.
    pub moment: Moment,
}
