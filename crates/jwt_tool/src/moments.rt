//! The system's clock.
use jwt_command::Moment;
use jwt_command::verify_lines::Clock;
use std::time::{SystemTime, UNIX_EPOCH};

/// The moment that the system's clock says, in seconds since 1970-01-01T00:00:00Z; none where it can't be read, or is set before
/// that or later than a command can name.
pub fn moment(rt: &HostRuntime) -> Option<Moment> {
    let since = SystemTime::now(rt).ok()?.duration_since(UNIX_EPOCH).ok()?;
    Moment::new(since.as_secs())
}

/// The system's clock.
#[derive(Drop)]
pub struct System<'a> {
    pub rt: &'a HostRuntime,
}

impl Clock for System<'_> {
    // What the system says can't be stated.
    ghost says = { λ _ _ _. Unit {0} };

    fn moment(&mut self, _number: u64, _line: &[u8]) -> Option<Moment> {
        moment(self.rt)
    }
}
