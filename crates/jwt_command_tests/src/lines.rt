//! The command `verify --lines`.
use crate::examples::{ACCEPTED, MOMENT};
use crate::runs::{Printed, RunInputs, assert_ran, ended, ran_with, status_with};
use jwt_command::Moment;
use jwt_command::documents::Held;
use jwt_command::verify_lines::{Clock, NoClock};
use jwt_support::cases::KEYS_A;
use jwt_support::examples::{HS256, TOKEN_A, filled};
use jwt_support::streams::{Drip, Narrow};
use jwt_text::{Reader, Sink, Source, Writer};
use std::alloc::Global;
use std::test::Fail;

/// The words of `verify --lines`, by the clock, and at the last second of the token.
const LINES: &[&str] = &["jwt", "verify", "--lines", "--policy=p", "--keys=k"];

const LINES_NOW: &[&str] = &[
    "jwt",
    "verify",
    "--lines",
    "--policy=p",
    "--keys=k",
    "--now",
    MOMENT,
];

const EMPTY: &str = "refused Empty tries=0 work=0";

const SEGMENTS: &str = "refused Segments tries=0 work=0";

/// A clock that is a second later at each look. It can be read once for each of these lines, in order.
#[derive(Drop)]
struct Ticks<'a> {
    next: u32,
    number: u32,
    lines: &'a [&'a str],
}

impl Clock for Ticks<'_> {
    ghost says = { λ _ _ _. Unit {0} };

    fn moment(&mut self, number: u64, line: &[u8]) -> Option<Moment> {
        let at = self.number;
        let wanted = self.lines.get(at as usize)?;
        if line != wanted.as_bytes() || number != at as u64 {
            return None;
        }
        self.number = at.saturating_add(1);
        let now = self.next;
        self.next = now.saturating_add(1);
        Moment::new(now as u64)
    }
}

/// A run on these lines with documents in hand. The clock begins at the last second of the token.
fn ran_lines(alloc: Global, words: &[&str], lines: &[&str]) -> Result<Printed, Fail> {
    let input = lines.join(alloc, "\n")?;
    let keys = filled(alloc, KEYS_A)?;
    let held = Held {
        policy: Some(HS256.as_bytes()),
        keys: Some(keys.as_bytes()),
        ..Held::none()
    };
    let mut moments = Ticks {
        next: 1_300_819_379,
        number: 0,
        lines: &[TOKEN_A, "", "none", TOKEN_A],
    };
    let mut r = Reader::new(input.as_bytes());
    let at_hand = RunInputs {
        verifiers: &[],
        clock: Some(0),
        moments: &mut moments,
        held,
    };
    ran_with(alloc, words, at_hand, &mut r)
}

/// Each line has its answer, by the moment that is named or by the clock's at that line.
#[test]
fn each_line_is_answered(rt: HostRuntime) -> Result<(), Fail> {
    let alloc = rt.alloc();
    let input = [TOKEN_A, "", "none", TOKEN_A];
    let found = ran_lines(alloc, LINES_NOW, &input)?;
    assert_ran(
        &rt,
        alloc,
        &found,
        &[ACCEPTED, EMPTY, SEGMENTS, ACCEPTED],
        0,
    )?;
    let found = ran_lines(alloc, LINES, &input)?;
    let expired = "refused Expired tries=1 work=295";
    assert_ran(&rt, alloc, &found, &[ACCEPTED, EMPTY, SEGMENTS, expired], 0)
}

/// The status of `verify --lines` at the last second of the token, with documents in hand.
fn status_of_lines<R: Source, W: Sink>(alloc: Global, r: &mut R, w: &mut W) -> Result<u8, Fail> {
    let keys = filled(alloc, KEYS_A)?;
    let held = Held {
        policy: Some(HS256.as_bytes()),
        keys: Some(keys.as_bytes()),
        ..Held::none()
    };
    let at_hand = RunInputs {
        verifiers: &[],
        clock: Some(0),
        moments: &mut NoClock,
        held,
    };
    Ok(status_with(alloc, LINES_NOW, at_hand, r, w))
}

/// What is printed, and the status, where reads fail after so many octets.
fn ran_dripped(alloc: Global, input: &str, left: usize) -> Result<Printed, Fail> {
    let mut out: Vec<u8> = Vec::new(alloc);
    let mut source = Drip::new(input.as_bytes(), left);
    let status = status_of_lines(alloc, &mut source, &mut Writer::new(&mut out))?;
    let out = String::from_utf8(out).ok().ok_or("no text")?;
    Ok(Printed { out, status })
}

/// The answers are the same however the lines come. Where a stream fails, those to the lines before it are out.
#[test]
fn lines_are_answered_up_to_where_a_stream_fails(rt: HostRuntime) -> Result<(), Fail> {
    let alloc = rt.alloc();
    let input = ended(alloc, &[TOKEN_A, "", TOKEN_A])?;
    let found = ran_dripped(alloc, &input, 1000)?;
    assert_ran(&rt, alloc, &found, &[ACCEPTED, EMPTY, ACCEPTED], 0)?;
    let found = ran_dripped(alloc, &input, TOKEN_A.len() + 10)?;
    assert_ran(&rt, alloc, &found, &[ACCEPTED, EMPTY, "failed Read"], 3)?;
    let lines = ended(alloc, &[ACCEPTED, EMPTY, ACCEPTED])?;
    for left in 0..lines.len() {
        let mut sink = Narrow::new(alloc, left);
        let status = status_of_lines(alloc, &mut Reader::new(input.as_bytes()), &mut sink)?;
        assert_eq!(rt; status, 3);
        assert_eq!(rt; sink.held.as_slice(), &lines.as_bytes()[..left]);
    }
    Ok(())
}
