//! The moment of a verdict.
ghost use Rattle.std.specs.Prelude.{◌≡◌, ◌≤◌};
ghost use Rattle.jwt_settings.specs.Moments.{last_moment, moment_at};

/// The last moment, in seconds since 1970-01-01T00:00:00Z.
pub const LAST_MOMENT: u64 = 9_223_372_036_854_775_807;

/// A moment, in whole seconds since 1970-01-01T00:00:00Z, at most 9,223,372,036,854,775,807.
#[derive(Clone, Copy)]
pub struct Moment {
    pub seconds: u64,
    ghost in_range: { seconds ≤ last_moment },
}

impl Moment {
    ghost use Rattle.jwt_settings.specs.Seen.{seconds_of};

    /// The moment of so many seconds; none behind the last.
    pub fn new(seconds: u64) -> Option<Moment>
        ensures { seconds_of result ≡ moment_at seconds }
    {
        if seconds <= LAST_MOMENT {
            Some(Moment { seconds })
        } else {
            None
        }
    }
}
