//! Sources and sinks that drip, never end or fail.
ghost use Rattle.std.specs.Prelude.{None, Some, false};

use jwt_text::{Sink, Source};
use std::alloc::Global;
use std::io::Read;

/// A source of one octet a pull, which fails at the pull after `left` more and counts the pulls.
#[derive(Drop)]
pub struct Drip<'a> {
    pub rest: &'a [u8],
    pub left: usize,
    pub pulls: usize,
    pub failed: bool,
}

impl<'a> Drip<'a> {
    /// A source of these octets, which fails at the pull after `left` more.
    pub fn new(rest: &'a [u8], left: usize) -> Drip<'a> {
        Drip {
            rest,
            left,
            pulls: 0,
            failed: false,
        }
    }
}

impl Source for Drip<'_> {
    ghost remaining = { λ s. Some s.rest.now };

    ghost failed = { λ s. s.failed };

    fn pull(&mut self, buf: &mut [u8]) -> Option<usize> {
        self.pulls = self.pulls.saturating_add(1);
        if self.failed || self.left == 0 {
            self.failed = true;
            return None;
        }
        if buf.is_empty() {
            return Some(0);
        }
        match self.rest.read(&mut buf[..1]) {
            Ok(n) => {
                self.left -= 1;
                Some(n)
            }
            Err(_) => {
                self.failed = true;
                None
            }
        }
    }

    fn failed(&self) -> bool {
        self.failed
    }
}

/// A source that never ends and fills each buffer, and whose octets aren't known. It counts the pulls and the octets.
#[derive(Drop)]
pub struct Endless {
    pub pulls: usize,
    pub given: usize,
}

impl Endless {
    /// A source that nothing was pulled from yet.
    pub fn new() -> Endless {
        Endless { pulls: 0, given: 0 }
    }
}

impl Source for Endless {
    ghost remaining = { λ _. None };

    ghost failed = { λ _. false };

    fn pull(&mut self, buf: &mut [u8]) -> Option<usize> {
        self.pulls = self.pulls.saturating_add(1);
        self.given = self.given.saturating_add(buf.len());
        for octet in buf.iter_mut() {
            *octet = b'A';
        }
        Some(buf.len())
    }

    fn failed(&self) -> bool {
        false
    }
}

/// A sink of one octet a put, which fails at the put after `left` more, and holds what went out.
#[derive(Drop)]
pub struct Narrow {
    pub held: Vec<u8>,
    pub left: usize,
    pub failed: bool,
}

impl Narrow {
    /// A sink that holds nothing yet, and fails at the put after `left` more.
    pub fn new(alloc: Global, left: usize) -> Narrow {
        Narrow {
            held: Vec::new(alloc),
            left,
            failed: false,
        }
    }
}

impl Sink for Narrow {
    ghost contents = { λ _. None };

    ghost failed = { λ s. s.failed };

    fn put(&mut self, piece: &[u8]) -> Option<usize> {
        if self.failed || self.left == 0 || self.held.extend_from_slice(&piece[..1]).is_err() {
            self.failed = true;
            return None;
        }
        self.left -= 1;
        Some(1)
    }

    fn failed(&self) -> bool {
        self.failed
    }
}
