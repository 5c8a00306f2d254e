//! The terms of a verdict.

use jwt_keys::KeySet;
use jwt_mac::Verifier;
use jwt_policy::Policy;

/// All that a verdict rests on beside the token and the budget, lent. The moment is in seconds since 1970-01-01T00:00:00Z.
#[derive(Clone, Copy)]
pub struct Terms<'k, 'p, 'v> {
    /// The keys that may have made a signature.
    pub keys: &'k KeySet,
    /// What is asked of a token and its claims.
    pub policy: &'p Policy,
    /// The moment at which the claims are held against the policy.
    pub moment: i64,
    /// The verifiers of signatures that aren't by HMAC. The first that names an algorithm is the one that is asked.
    pub verifiers: &'v [Box<dyn Verifier>],
}
