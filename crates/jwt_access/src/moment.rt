//! The moment at which dates are looked at.

use jwt_policy::Policy;

/// The moment at which dates are looked at, in seconds since 1970-01-01T00:00:00Z, and the seconds of leeway for them.
#[derive(Debug, Clone, Copy)]
pub struct Moment {
    /// Seconds since 1970-01-01T00:00:00Z.
    pub now: i64,
    /// How many seconds a date may be off.
    pub leeway: u32,
}

impl Moment {
    ghost use Rattle.std.specs.Prelude.{◌≡◌};
    ghost use Rattle.jwt_access.specs.Moments.{moment_under};

    /// This moment, in seconds since 1970-01-01T00:00:00Z, with the policy's leeway: those by which it was that the token was accepted.
    pub fn under(policy: &Policy, now: i64) -> Moment
        ensures { result ≡ moment_under policy.now now }
    {
        Moment {
            now,
            leeway: policy.leeway(),
        }
    }
}
