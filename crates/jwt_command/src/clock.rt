//! The moments of the answers of `verify --lines`.
ghost use Rattle.std.specs.Prelude.{◌≡◌, ℕ, List, IfNone, IfSome, None};
ghost use Rattle.jwt_settings.specs.Seen.{seconds_of};
ghost use Rattle.jwt_command.specs.Lines.{IsMoment};

use jwt_settings::Moment;

/// Moments of lines, in seconds since 1970-01-01T00:00:00Z.
pub trait Clock {
    /// What it says: of the line with a number, from 0, and these octets, the moment at which it came.
    ghost says: { ℕ → List ℕ → ℕ → Type 0 };

    /// The moment of the line with this number, from 0, and these octets; of a line that is longer than the limit, those up to one
    /// past it. None where the clock can't be read.
    fn moment(&mut self, number: u64, line: &[u8]) -> Option<Moment>
        ensures { IfSome result (λ m. says number line.now m.seconds) };
}

/// No clock: it says no moment of any line.
#[derive(Clone, Copy, Debug)]
pub struct NoClock;

impl Clock for NoClock {
    ghost says = { λ _ _ _. ⊥ };

    fn moment(&mut self, _number: u64, _line: &[u8]) -> Option<Moment> {
        None
    }
}

/// The moment of an answer: the one that `--now` names, else the clock's for that line.
pub(crate) fn moment<C: Clock>(
    now: Option<Moment>,
    clock: &mut C,
    number: u64,
    line: &[u8],
) -> Option<Moment>
    ensures moment { IfSome result
        (λ m. IsMoment (C.says number line.now) (seconds_of now) m.seconds) }
    ensures none { IfNone result (seconds_of now ≡ None) }
{
    match now {
        Some(now) => Some(now),
        None => clock.moment(number, line),
    }
}
