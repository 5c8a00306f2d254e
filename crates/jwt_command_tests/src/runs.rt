//! Runs of the command over sources and sinks in memory, and tables of them. No function here has a clause, so that a test which
//! calls one doesn't carry the contract of the command through its own proof.
use jwt_command::documents::Held;
use jwt_command::run::{AtHand, run, run_read};
use jwt_command::subject::{Ran, Subject};
use jwt_command::verify_lines::{Clock, NoClock};
use jwt_command::{Moment, read_words};
use jwt_mac::Verifier;
use jwt_support::examples::filled;
use jwt_text::{Reader, Sink, Source, Writer};
use std::alloc::{AllocError, Global};
use std::process::Abort;
use std::test::Fail;

/// What a run printed, and its status.
#[derive(Drop)]
pub(crate) struct Printed {
    pub(crate) out: String,
    pub(crate) status: u8,
}

/// A row of a table of runs, which has a bar between two parts: the words, with a space between two, the input, and what is wanted.
#[derive(Drop)]
pub(crate) struct RunRow<'r> {
    pub(crate) words: Vec<&'r str>,
    pub(crate) input: &'r str,
    pub(crate) wanted: &'r str,
}

/// The row of this text, whose names in angle brackets are filled in.
pub(crate) fn row_of(alloc: Global, text: &str) -> Result<RunRow<'_>, Fail> {
    let (words, behind) = text.split_once('|').ok_or("no input")?;
    let (input, wanted) = behind.split_once('|').ok_or("nothing wanted")?;
    let words = words.split(' ').collect(alloc)?;
    Ok(RunRow {
        words,
        input,
        wanted,
    })
}

/// What a run has at hand.
#[derive(Drop)]
pub(crate) struct RunInputs<'a, C> {
    /// The verifiers for public keys.
    pub(crate) verifiers: &'a [Box<dyn Verifier>],
    /// The seconds that the clock says, if it can be read.
    pub(crate) clock: Option<u32>,
    /// The clock of lines.
    pub(crate) moments: &'a mut C,
    /// The documents that were read from files.
    pub(crate) held: Held<'a>,
}

/// The status of a run with nothing at hand.
pub(crate) fn status_of<R: Source, W: Sink>(
    alloc: Global,
    words: &[&str],
    r: &mut R,
    w: &mut W,
) -> u8 {
    run(alloc, words, r, w)
}

/// The status of a run with this at hand.
pub(crate) fn status_with<R: Source, W: Sink, C: Clock>(
    alloc: Global,
    words: &[&str],
    at_hand: RunInputs<'_, C>,
    r: &mut R,
    w: &mut W,
) -> u8 {
    let RunInputs {
        verifiers,
        clock,
        moments,
        held,
    } = at_hand;
    let clock = match clock {
        Some(moment) => Moment::new(moment as u64),
        None => None,
    };
    let words = read_words(alloc, words, clock);
    let at_hand = AtHand {
        built_in: verifiers,
        held,
    };
    run_read(alloc, words, &at_hand, moments, r, w).status
}

/// The document that a run refused.
#[derive(Drop)]
pub(crate) struct Refused {
    /// Which it is; the empty text where none was.
    pub(crate) kind: &'static str,
    /// What was read of it.
    pub(crate) octets: Vec<u8>,
}

/// The document that a run named.
fn refused_of(alloc: Global, ran: &Ran<'_>) -> Result<Refused, AllocError> {
    let (kind, octets) = match &ran.subject {
        Some(Subject::Policy(_, document)) => ("policy", document.octets()),
        Some(Subject::Keys(_, document)) => ("keys", document.octets()),
        Some(Subject::Access(_, document)) => ("access", document.octets()),
        Some(Subject::Service(_, document)) => ("service", document.octets()),
        Some(Subject::Token(_, document)) => ("token", document.octets()),
        None => ("", b"".as_slice()),
    };
    Ok(Refused {
        kind,
        octets: octets.to_vec(alloc)?,
    })
}

/// The document that a run on this input refuses, with documents in hand and nothing else.
pub(crate) fn refused_by(
    alloc: Global,
    words: &[&str],
    held: Held<'_>,
    input: &str,
) -> Result<Refused, AllocError> {
    let mut out: Vec<u8> = Vec::new(alloc);
    let mut w = Writer::new(&mut out);
    let mut r = Reader::new(input.as_bytes());
    let words = read_words(alloc, words, None);
    let at_hand = AtHand {
        built_in: &[],
        held,
    };
    let ran = run_read(alloc, words, &at_hand, &mut NoClock, &mut r, &mut w);
    refused_of(alloc, &ran)
}

/// The text that was written, with the status.
fn text_of(out: Vec<u8>, status: u8) -> Result<Printed, Fail> {
    let out = String::from_utf8(out).ok().ok_or("no text")?;
    Ok(Printed { out, status })
}

/// A run on a source, with nothing at hand.
pub(crate) fn ran_on<R: Source>(alloc: Global, words: &[&str], r: &mut R) -> Result<Printed, Fail> {
    let mut out: Vec<u8> = Vec::new(alloc);
    let status = status_of(alloc, words, r, &mut Writer::new(&mut out));
    text_of(out, status)
}

/// A run on this input, with nothing at hand.
pub(crate) fn ran(alloc: Global, words: &[&str], input: &str) -> Result<Printed, Fail> {
    ran_on(alloc, words, &mut Reader::new(input.as_bytes()))
}

/// A run on a source, with this at hand.
pub(crate) fn ran_with<R: Source, C: Clock>(
    alloc: Global,
    words: &[&str],
    at_hand: RunInputs<'_, C>,
    r: &mut R,
) -> Result<Printed, Fail> {
    let mut out: Vec<u8> = Vec::new(alloc);
    let mut w = Writer::new(&mut out);
    let status = status_with(alloc, words, at_hand, r, &mut w);
    text_of(out, status)
}

/// A run on a source, with documents in hand and nothing else.
pub(crate) fn ran_holding<R: Source>(
    alloc: Global,
    words: &[&str],
    held: Held<'_>,
    r: &mut R,
) -> Result<Printed, Fail> {
    let at_hand = RunInputs {
        verifiers: &[],
        clock: None,
        moments: &mut NoClock,
        held,
    };
    ran_with(alloc, words, at_hand, r)
}

/// These lines with a line feed between two, and the names in angle brackets filled in.
pub(crate) fn joined(alloc: Global, lines: &[&str]) -> Result<String, AllocError> {
    let all = lines.join(alloc, "\n")?;
    filled(alloc, &all)
}

/// These lines with a line feed behind each.
pub(crate) fn ended(alloc: Global, lines: &[&str]) -> Result<String, AllocError> {
    let mut all = lines.join(alloc, "\n")?;
    if !lines.is_empty() {
        all.push_str("\n")?;
    }
    Ok(all)
}

/// Asserts that a run printed just these lines, and ended with this status.
pub(crate) fn assert_ran(
    rt: &impl Abort,
    alloc: Global,
    ran: &Printed,
    lines: &[&str],
    status: u8,
) -> Result<(), Fail> {
    let wanted = ended(alloc, lines)?;
    assert_eq!(rt; ran.out.as_str(), wanted.as_str());
    assert_eq!(rt; ran.status, status, "{wanted}");
    Ok(())
}

/// Asserts that each row's run prints just the lines that are wanted, and ends with the status behind them. Names in angle brackets are those of
/// [`filled`].
pub(crate) fn assert_rows(rt: &impl Abort, alloc: Global, rows: &[&str]) -> Result<(), Fail> {
    for row in rows {
        let text = filled(alloc, row)?;
        let row = row_of(alloc, &text)?;
        let (lines, status) = row.wanted.split_once('|').ok_or("no status")?;
        let status = status.parse::<u8>().ok().ok_or("no status")?;
        let found = ran(alloc, &row.words, row.input)?;
        assert_ran(rt, alloc, &found, &[lines], status)?;
    }
    Ok(())
}
