//! Streams that fail, and what is left unread.
use crate::runs::{assert_ran, ended, ran_on, row_of, status_of};
use jwt_command::input::line::{LineFault, line};
use jwt_command::run::lack_memory;
use jwt_support::examples::filled;
use jwt_support::streams::{Drip, Narrow};
use jwt_text::{GREATEST_LIMIT, Reader, Writer};
use std::alloc::Global;
use std::process::Abort;
use std::test::Fail;

/// Runs of each command, where a read fails, and the line that each prints. Names in angle brackets are those of [`filled`].
static READING: [&str; 5] = [
    "jwt mac --k <KEY_A> --limit 179|<TOKEN_A>|failed Read",
    "jwt show --limit 179|<TOKEN_A>|failed Read",
    r#"jwt verify --now 1300819379|{"algs":["HS256"]}<LF>{"keys":[{"kty":"oct","k":"<KEY_A>"}]}<LF><TOKEN_A>|failed Read"#,
    r#"jwt keys|{"keys":[]}|failed Read"#,
    r#"jwt issue --alg HS256|{"keys":[]}<LF>{}|failed Read"#,
];

/// Runs in JSON, where a read fails.
static READING_IN_JSON: [&str; 3] = [
    r#"jwt show --json|<TOKEN_A>|{"verdict":"failed","fault":"Read"}"#,
    r#"jwt keys --json|{"keys":[]}|{"verdict":"failed","fault":"Read"}"#,
    r#"jwt verify --json --now 1300819379|{"algs":["HS256"]}<LF>{"keys":[{"kty":"oct","k":"<KEY_A>"}]}<LF><TOKEN_A>|{"verdict":"failed","fault":"Read"}"#,
];

/// Asserts that a run prints its line, and takes all that it can, wherever a read fails.
fn assert_reading(rt: &impl Abort, alloc: Global, row: &str) -> Result<(), Fail> {
    let text = filled(alloc, row)?;
    let row = row_of(alloc, &text)?;
    let input = row.input;
    for left in 0..=input.len() {
        let mut source = Drip::new(input.as_bytes(), left);
        let found = ran_on(alloc, &row.words, &mut source)?;
        assert_ran(rt, alloc, &found, &[row.wanted], 3)?;
        assert_eq!(rt; source.rest.len(), input.len() - left);
    }
    Ok(())
}

/// Standard input that fails, in lines.
#[test]
fn a_read_that_fails_ends_with_status_3(rt: HostRuntime) -> Result<(), Fail> {
    for row in &READING {
        assert_reading(&rt, rt.alloc(), row)?;
    }
    Ok(())
}

/// Standard input that fails, in JSON.
#[test]
fn a_read_that_fails_is_told_in_json(rt: HostRuntime) -> Result<(), Fail> {
    for row in &READING_IN_JSON {
        assert_reading(&rt, rt.alloc(), row)?;
    }
    Ok(())
}

/// Runs, and the line that each prints.
static WRITING: [&str; 4] = [
    r#"jwt show --json|e30..|{"unverified":{"form":"compact","payload":null,"signatures":[{"protected":{},"octets":0}],"claims_refused":{"fault":"ClaimsShape"}}}"#,
    "jwt mac --k <KEY_A>|<TOKEN_A>|<LINE_A>",
    r#"jwt verify --now 1300819379|{"algs":["HS256"]}<LF>{"keys":[{"kty":"oct","k":"<KEY_A>"}]}<LF><TOKEN_A>|accepted sig=0 key=0 tries=1 work=295"#,
    r#"jwt keys --json|{"keys":[{}]}|{"keys":[],"skipped":[{"place":0,"reason":"MemberMissing"}]}"#,
];

/// Asserts that of the run's line just what could be written went out, wherever a write fails.
fn assert_writing(rt: &impl Abort, alloc: Global, row: &str) -> Result<(), Fail> {
    let text = filled(alloc, row)?;
    let row = row_of(alloc, &text)?;
    let line = ended(alloc, &[row.wanted])?;
    for left in 0..line.len() {
        let mut sink = Narrow::new(alloc, left);
        let mut source = Reader::new(row.input.as_bytes());
        let status = status_of(alloc, &row.words, &mut source, &mut sink);
        assert_eq!(rt; status, 3);
        assert_eq!(rt; sink.held.as_slice(), &line.as_bytes()[..left]);
    }
    Ok(())
}

/// Standard output that fails at each of its octets.
#[test]
fn a_write_that_fails_ends_with_status_3(rt: HostRuntime) -> Result<(), Fail> {
    for row in &WRITING {
        assert_writing(&rt, rt.alloc(), row)?;
    }
    Ok(())
}

/// A source, the limit of a line, the line that is taken, and how many octets are unread behind it.
static LINES: [(&[u8], u32, &[u8], usize); 4] = [
    (b"ab\nc", 2, b"ab", 1),
    (b"ab", 2, b"ab", 0),
    (b"\n\n", 1, b"", 1),
    (b"", 1, b"", 0),
];

/// The line of a source, or why there is none.
fn taken(alloc: Global, source: &mut Drip<'_>, limit: u32) -> Result<Vec<u8>, LineFault> {
    if limit == 0 || limit > GREATEST_LIMIT {
        return Err(LineFault::TooLong);
    }
    line(alloc, source, limit)
}

/// How much of the input is taken for one line.
#[test]
fn a_line_is_taken_up_to_its_end_or_one_octet_past_its_limit(rt: HostRuntime) -> Result<(), Fail> {
    let alloc = rt.alloc();
    for (rest, limit, want, unread) in &LINES {
        let mut source = Drip::new(rest, 10);
        let found = taken(alloc, &mut source, *limit).ok().ok_or("a line")?;
        assert_eq!(rt; found.as_slice(), *want, "with {limit}");
        assert_eq!(rt; source.rest.len(), *unread, "with {limit}");
    }
    for (left, fault, unread) in [(10, LineFault::TooLong, 2), (1, LineFault::Read, 3)] {
        let mut source = Drip::new(b"ab\nc", left);
        let found = taken(alloc, &mut source, 1).err();
        assert_eq!(rt; found, Some(fault));
        assert_eq!(rt; source.rest.len(), unread);
    }
    Ok(())
}

/// Runs, the line that each prints, and how many octets are unread behind a line that is refused.
static UNREAD: [(&str, usize); 3] = [
    (
        r#"jwt verify --now 0|{"algs":[]}<LF>{}<LF>abc|refused Policy NoAlgorithm"#,
        6,
    ),
    (
        r#"jwt verify --now 0|{"algs":["HS256"]}<LF>{}<LF>abc|refused Keys NotKeySet"#,
        3,
    ),
    ("jwt issue --alg HS256|{}<LF>{}|refused Keys NotKeySet", 2),
];

/// Nothing behind a line that is too long is taken in.
#[test]
fn what_follows_a_refused_line_is_unread(rt: HostRuntime) -> Result<(), Fail> {
    let alloc = rt.alloc();
    for (row, unread) in &UNREAD {
        let text = filled(alloc, row)?;
        let row = row_of(alloc, &text)?;
        let mut source = Drip::new(row.input.as_bytes(), 1000);
        let found = ran_on(alloc, &row.words, &mut source)?;
        assert_ran(&rt, alloc, &found, &[row.wanted], 1)?;
        assert_eq!(rt; source.rest.len(), *unread);
    }
    Ok(())
}

/// The line and the status of refused memory.
#[test]
fn want_of_memory_has_a_line_and_a_status(rt: HostRuntime) -> Result<(), Fail> {
    let mut out: Vec<u8> = Vec::new(rt.alloc());
    let status = lack_memory(&mut Writer::new(&mut out));
    assert_eq!(rt; out.as_slice(), b"failed OutOfMemory\n".as_slice());
    assert_eq!(rt; status, 4);
    Ok(())
}
