//! Taking line after line of an input, which is pulled in pieces.
ghost use Rattle.std.specs.Prelude.{◌≡◌, ◌≤◌, ◌<◌, ◌++◌, [], Some, true, false, length, take, drop, ◌+◌, IfNone, IfOk, MatchOption};
ghost use Rattle.std.specs.Io.KnownBytes.{IsAtEnd, Keeps, prepend_known};
ghost use Rattle.jwt_command.specs.TakenLines.{after_line, first_line, has_line_feed};

use jwt_text::Source;
use memchr::memchr;
use std::alloc::{AllocError, Global};
use std::marker::Model;

// How many octets are pulled at a time, at most.
const PIECE: usize = 65_536;

/// Octets that were pulled from a source and aren't taken yet. Contracts see them.
#[derive(Drop)]
pub(crate) struct Ahead {
    octets: Vec<u8>,
    start: usize,
    end: usize,
}

impl Model for Ahead {
    ghost use Rattle.std.specs.Prelude.{ℕ, List, ◌≤◌, ◌<◌, ◌-◌, length, take, drop};

    ghost Value = { List ℕ };

    ghost view = { λ s. take (s.end - s.start) (drop s.start s.octets.items) };

    ghost invariant = { λ s. (s.start ≤ s.end) × (s.end ≤ length s.octets.items)
        × (0 < length s.octets.items) };
}

/// The place of the first line feed.
fn first_line_feed(octets: &[u8]) -> Option<usize>
    ensures { MatchOption result
        ((has_line_feed octets.now ≡ false) × (first_line octets.now ≡ octets.now) × (after_line octets.now ≡ []))
        (λ i. (has_line_feed octets.now ≡ true) × (i < length octets.now)
        × (first_line octets.now ≡ take i octets.now)
        × (after_line octets.now ≡ drop (i + 1) octets.now)) }
{
    memchr(b'\n', octets)
}

/// Puts octets at the end of a line, of which up to `most` are held.
fn hold(line: &mut Vec<u8>, most: usize, octets: &[u8]) -> Result<(), AllocError>
    requires { length line.old.items ≤ most }
    ensures { IfOk result (λ _. line.new.items ≡ take most (line.old.items ++ octets.now)) }
{
    let room = most - line.len();
    if octets.len() <= room {
        line.extend_from_slice(octets)
    } else {
        line.extend_from_slice(&octets[..room])
    }
}

impl Ahead {
    /// None are pulled yet.
    pub(crate) fn new(alloc: Global) -> Result<Ahead, AllocError>
        ensures { IfOk result (λ a. a ≡ []) }
    {
        let octets = vec![in alloc; 0u8; PIECE]?;
        Ok(Ahead {
            octets,
            start: 0,
            end: 0,
        })
    }

    /// Pulls octets where none are left. `Some(true)`: there are some; `Some(false)`: the source is at its end; `None`: it has failed.
    pub(crate) fn fill<R: Source>(&mut self, r: &mut R) -> Option<bool>
        ensures kept { Keeps (prepend_known self.old (R.remaining r.old))
            (prepend_known self.new (R.remaining r.new)) }
        ensures more { result ≡ Some true → 0 < length self.new }
        ensures end { result ≡ Some false → IsAtEnd (prepend_known self.new (R.remaining r.new)) }
        ensures none { IfNone result (R.failed r.new ≡ true) }
    {
        if self.start < self.end {
            return Some(true);
        }
        match r.pull(self.octets.as_mut_slice()) {
            None => None,
            Some(0) => Some(false),
            Some(count) => {
                self.start = 0;
                self.end = count;
                Some(true)
            }
        }
    }

    /// The octets that were pulled and aren't taken yet.
    fn octets(&self) -> &[u8]
        ensures { result.now ≡ self.now }
    {
        &self.octets[self.start..self.end]
    }

    /// Whether a line feed is among the octets that were pulled and aren't taken yet.
    pub(crate) fn holds_line_feed(&self) -> bool
        ensures { result ≡ has_line_feed self.now }
    {
        first_line_feed(self.octets()).is_some()
    }

    /// Takes the octets before the first line feed that was pulled, and that line feed; or all that were pulled, where there is
    /// none. They are put at the end of a line, of which up to `most` octets are held. Whether there was a line feed.
    ///
    /// # Errors
    /// Where an allocation was refused.
    pub(crate) fn take_part(&mut self, line: &mut Vec<u8>, most: usize) -> Result<bool, AllocError>
        requires { length line.old.items ≤ most }
        ensures line { IfOk result
            (λ _. line.new.items ≡ take most (line.old.items ++ first_line self.old)) }
        ensures rest { IfOk result (λ _. self.new ≡ after_line self.old) }
        ensures feed { IfOk result (λ found. found ≡ has_line_feed self.old) }
    {
        let octets = self.octets();
        match first_line_feed(octets) {
            Some(i) => {
                hold(line, most, &octets[..i])?;
                self.start += i + 1;
                Ok(true)
            }
            None => {
                hold(line, most, octets)?;
                self.start = self.end;
                Ok(false)
            }
        }
    }
}
