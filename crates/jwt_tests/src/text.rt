//! Octets in and out, base64url and object texts.
ghost use Rattle.std.specs.Prelude.{◌≡◌, ◌<◌, IfOk};

use crate::asserted::holds;
use jwt_support::examples::TOKEN_A;
use jwt_support::streams::{Drip, Endless, Narrow};
use jwt_support::texts::nested;
use jwt_text::{
    Intake, Object, ObjectOut, ObjectRef, Reader, Sink, Source, TextFault, Writer, Written, decode,
    encode, object, quoted, write_out,
};
use std::alloc::Global;
use std::io::{self, ErrorKind, Read, Write};
use std::process::Abort;
use std::test::Fail;

/// The call's answer, or that of the same call made again, where memory ran out in the first.
macro_rules! again {
    ($call:expr) => {
        match $call {
            Err(TextFault::OutOfMemory) => $call,
            answer => answer,
        }
    };
}

/// A stream whose first read or write is interrupted, and that works from then on.
#[derive(Drop)]
struct Faltering {
    works: bool,
}

impl Faltering {
    /// The first call fails as an interrupted one does, and each one after it goes through.
    fn turn(&mut self, len: usize) -> io::Result<usize>
        ensures { IfOk result (λ n. n ≡ len) }
    {
        if self.works {
            return Ok(len);
        }
        self.works = true;
        Err(io::Error::from(ErrorKind::Interrupted))
    }
}

impl Read for Faltering {
    fn read(&mut self, buf: &mut [u8]) -> io::Result<usize> {
        self.turn(buf.len())
    }
}

impl Write for Faltering {
    fn write(&mut self, buf: &[u8]) -> io::Result<usize> {
        self.turn(buf.len())
    }

    fn flush(&mut self) -> io::Result<()> {
        Ok(())
    }
}

/// Whether a pull is answered by a failure.
fn pull_fails(source: &mut Reader<Faltering>) -> bool {
    let mut room = [0u8; 4];
    source.pull(&mut room).is_none() && source.failed()
}

/// Whether a put is answered by a failure.
fn put_fails(sink: &mut Writer<Faltering>) -> bool {
    sink.put(b"abc").is_none() && sink.failed()
}

/// A call of the system that was interrupted counts as a failure.
#[test]
fn an_interrupted_call_is_a_failure_and_not_tried_again(rt: HostRuntime) {
    let mut source = Reader::new(Faltering { works: false });
    let mut sink = Writer::new(Faltering { works: false });
    holds(&rt, pull_fails(&mut source) && pull_fails(&mut source));
    holds(&rt, put_fails(&mut sink) && put_fails(&mut sink));
}

/// A limit, what an intake of it answers of six octets that are dripped, how many are unread then, and how many pulls there were.
static DRIPS: [(u32, Result<(), TextFault>, usize, usize); 3] = [
    (4, Err(TextFault::TooLong), 1, 5),
    (5, Err(TextFault::TooLong), 0, 6),
    (6, Ok(()), 0, 7),
];

/// What an intake answers of six octets that are dripped, how many are unread then, and how many pulls there were; `None` where the
/// limit is none of an intake.
fn dripped(alloc: Global, limit: u32) -> Option<(Result<(), TextFault>, usize, usize)> {
    if limit < 1 || 4_194_304 < limit {
        return None;
    }
    let mut source = Drip::new(b"abcdef", 100);
    let mut intake = Intake::new(alloc, limit);
    let answer = intake.read_from(&mut source);
    Some((answer, source.rest.len(), source.pulls))
}

/// From a source of one octet a pull, one octet past the limit is taken, and none after it.
#[test]
fn takes_one_octet_past_the_limit_in_as_many_pulls(rt: HostRuntime) {
    for &(limit, want, unread, pulls) in &DRIPS {
        assert!(rt;
            dripped(rt.alloc(), limit) == Some((want, unread, pulls)),
            "{limit}"
        );
    }
}

/// Whether a source that fails after so many pulls of an octet of the token leaves just these octets, and fails again.
fn holds_before_failure(alloc: Global, pulls: usize) -> bool {
    let mut source = Drip::new(TOKEN_A.as_bytes(), pulls);
    let mut intake = Intake::new(alloc, 179);
    intake.read_from(&mut source) == Err(TextFault::Read)
        && intake.octets().len() == pulls
        && intake.read_from(&mut source) == Err(TextFault::Read)
}

/// Whether the whole token is held.
fn holds_all(alloc: Global) -> bool {
    let mut source = Drip::new(TOKEN_A.as_bytes(), 180);
    let mut intake = Intake::new(alloc, 179);
    intake.read_from(&mut source) == Ok(()) && intake.octets() == TOKEN_A.as_bytes()
}

/// Where a source fails, what it gave before is held.
#[test]
fn holds_what_came_before_a_failure(rt: HostRuntime) {
    for pulls in 0..180 {
        assert!(rt; holds_before_failure(rt.alloc(), pulls), "after {pulls}");
    }
    holds(&rt, holds_all(rt.alloc()));
}

/// How many octets are held of a source that never ends, and how many pulls there were, where it is too long.
fn endless(alloc: Global) -> Option<(usize, usize)> {
    let mut source = Endless::new();
    let mut intake = Intake::new(alloc, 1_048_576);
    match intake.read_from(&mut source) {
        Err(TextFault::TooLong) => Some((intake.octets().len(), source.pulls)),
        _ => None,
    }
}

/// A source that never ends is left one octet past the limit.
#[test]
fn stops_an_endless_source_after_few_pulls(rt: HostRuntime) {
    holds(
        &rt,
        matches!(endless(rt.alloc()), Some((1_048_577, pulls)) if pulls < 20),
    );
}

/// Whether the token is fed up to one octet past its limit, and nothing then.
fn is_fed_to_the_limit(alloc: Global) -> bool {
    let mut intake = Intake::new(alloc, 178);
    !intake.is_too_long()
        && intake.feed(TOKEN_A.as_bytes()) == Ok(179)
        && intake.is_too_long()
        && intake.feed(TOKEN_A.as_bytes()) == Ok(0)
        && intake.octets() == TOKEN_A.as_bytes()
}

/// Fed piece by piece, no more than one octet past the limit is taken.
#[test]
fn feeds_up_to_one_octet_past_the_limit(rt: HostRuntime) {
    holds(&rt, is_fed_to_the_limit(rt.alloc()));
}

/// A token of 84 octets.
const SENT: &[u8; 84] =
    b"eyJhbGciOiJIUzI1NiIsInR5cCI6IkpXVCJ9.e30.LwimMJA3puF3ioGeS-tfczR3370GXBZMIL-bdpu4hOU";

/// Whether a sink that takes so many octets of the token fails, and says so.
fn sink_counts(alloc: Global, count: usize) -> bool {
    let mut sink = Narrow::new(alloc, count);
    write_out(&mut sink, SENT) == Err(Written { count }) && sink.failed()
}

/// Whether a writer with room for so many octets of the token says so, and holds these.
fn writer_counts(count: usize) -> bool
    requires { count < 84 }
{
    let mut room = [0u8; 84];
    let written = write_out(&mut Writer::new(&mut room[..count]), SENT);
    written == Err(Written { count }) && room[..count] == SENT[..count]
}

/// Where a sink fails, it is told how many octets went out before.
#[test]
fn counts_what_went_out_before_a_failure(rt: HostRuntime) {
    for count in 0..84 {
        assert!(rt; sink_counts(rt.alloc(), count), "a sink, {count}");
        assert!(rt; writer_counts(count), "a writer, {count}");
    }
}

/// Octets and their text (RFC 4648, section 10, without padding).
static SPELLINGS: [(&str, &str); 8] = [
    ("", ""),
    ("f", "Zg"),
    ("fo", "Zm8"),
    ("foo", "Zm9v"),
    ("foob", "Zm9vYg"),
    ("fooba", "Zm9vYmE"),
    ("foobar", "Zm9vYmFy"),
    ("\0", "AA"),
];

/// Asserts that the octets of each row have its text, and the text those octets.
fn assert_spellings(rt: &impl Abort, alloc: Global, rows: &[(&str, &str)]) -> Result<(), Fail> {
    for &(octets, text) in rows {
        let encoded = encode(alloc, octets.as_bytes())?;
        assert_eq!(rt; encoded.as_slice(), text.as_bytes());
        let decoded = decode(alloc, text.as_bytes())?;
        assert_eq!(rt; decoded.as_slice(), octets.as_bytes());
    }
    Ok(())
}

/// Each octets have one spelling in base64url, which reads back (RFC 7515, section 2).
#[test]
fn spells_octets_in_one_way(rt: HostRuntime) -> Result<(), Fail> {
    assert_spellings(&rt, rt.alloc(), &SPELLINGS)?;
    let encoded = encode(rt.alloc(), &[0xfb, 0xff])?;
    assert_eq!(rt; encoded.as_slice(), b"-_8".as_slice());
    Ok(())
}

/// Pieces of 9,000 octets, and how many an intake with a limit of 8,998 takes of each.
static FEEDS: [(usize, usize, usize); 4] = [
    (0, 1000, 1000),
    (1000, 5000, 4000),
    (5000, 9000, 3999),
    (0, 9000, 0),
];

/// Whether an intake takes what it has to of each piece, and holds what it took.
fn feeds_again(alloc: Global, all: &[u8; 9000]) -> bool {
    let mut fed = Intake::new(alloc, 8998);
    for &(start, end, count) in &FEEDS {
        let Some(piece) = all.get(start..end) else {
            return false;
        };
        if again!(fed.feed(piece)) != Ok(count) {
            return false;
        }
    }
    fed.octets() == &all[..8999]
}

/// A limit, after how many pulls a source of 9,000 octets fails, what an intake answers of it, and how many octets it holds then.
static READS: [(u32, usize, Result<(), TextFault>, usize); 3] = [
    (9000, 9001, Ok(()), 9000),
    (8998, 9001, Err(TextFault::TooLong), 8999),
    (9000, 8500, Err(TextFault::Read), 8500),
];

/// Whether an intake answers as the row says, holds so many octets, and left the others.
fn reads_on(
    alloc: Global,
    all: &[u8; 9000],
    row: &(u32, usize, Result<(), TextFault>, usize),
) -> bool {
    let &(limit, pulls, want, held) = row;
    if limit < 1 || 4_194_304 < limit {
        return false;
    }
    let mut source = Drip::new(all, pulls);
    let mut read = Intake::new(alloc, limit);
    let answer = again!(read.read_from(&mut source));
    answer == want && all.get(..held) == Some(read.octets()) && all.get(held..) == Some(source.rest)
}

/// `rt try --test --fail-alloc N` refuses the Nth allocation: what came stays held, and the same call made again takes what is
/// missing.
#[test]
fn a_refused_growth_loses_no_octets(rt: HostRuntime) -> Result<(), Fail> {
    let mut all = [0u8; 9000];
    for (place, octet) in all.iter_mut().enumerate() {
        *octet = (place % 251) as u8;
    }
    holds(&rt, feeds_again(rt.alloc(), &all));
    for row in &READS {
        let limit = row.0;
        assert!(rt; reads_on(rt.alloc(), &all, row), "with {limit}");
    }
    Ok(())
}

/// Where an allocation was refused, the fault is want of memory, and what stood there stands.
#[test]
fn a_refused_growth_changes_no_spelling(rt: HostRuntime) -> Result<(), Fail> {
    let alloc = rt.alloc();
    let text = again!(encode(alloc, b"fooba"))?;
    assert_eq!(rt; text.as_slice(), b"Zm9vYmE".as_slice());
    let octets = again!(decode(alloc, &text))?;
    assert_eq!(rt; octets.as_slice(), b"fooba".as_slice());
    assert_eq!(rt;
        again!(decode(alloc, b"Zm9vYmF")).err(),
        Some(TextFault::Base64)
    );
    Ok(())
}

// ---- object texts

/// The fault that reading the text ends with, `None` where it is read.
fn fault(alloc: Global, octets: &[u8]) -> Option<TextFault> {
    object(alloc, octets).err()
}

/// Asserts that each text is no object text for its fault, or is one.
fn assert_faults(rt: &impl Abort, alloc: Global, rows: &[(&str, Option<TextFault>)]) {
    for &(text, want) in rows {
        assert_eq!(rt; fault(alloc, text.as_bytes()), want, "at {text}");
    }
}

const TWICE: Option<TextFault> = Some(TextFault::NameTwice);

/// Texts, and why each is no object text, where it is none.
static NAMES: [(&str, Option<TextFault>); 10] = [
    ("{}", None),
    (" {\r\n\t\"a\" : [ {\"a\":1} , 2 ] } ", None),
    (r#"[{"a":1,"a":2}]"#, Some(TextFault::NotObject)),
    ("7", Some(TextFault::NotObject)),
    (r#"{"a\":":1}"#, None),
    (r#"{"a\\":1,"b:":":"}"#, None),
    (r#"{"a":1,"\u0061":2}"#, TWICE),
    (r#"{"a":1,"b":2,"a":1}"#, TWICE),
    (r#"{"b":[{"a":{"c":1},"a":2}]}"#, TWICE),
    (r#"{"a":{"x":1},"b":{"x":1}}"#, None),
];

/// A name that stands twice, at any depth, refuses the text (RFC 7519, section 4).
#[test]
fn an_object_text_has_each_name_once(rt: HostRuntime) -> Result<(), Fail> {
    let alloc = rt.alloc();
    assert_faults(&rt, alloc, &NAMES);
    let one = object(alloc, br#"{"a\":":1}"#)?;
    assert_eq!(rt; one.member_count(), 1);
    assert_eq!(rt; one.name(0), Some(r#"a":"#));
    assert_eq!(rt; one.name(1), None);
    Ok(())
}

/// What is no JSON.
static NO_JSON: [&str; 16] = [
    "",
    " ",
    "{",
    r#"{"a"}"#,
    r#"{"a":1,}"#,
    "{'a':1}",
    r#"{"a":1} x"#,
    r#"{"a":1}{}"#,
    "\u{feff}{\"a\":1}",
    r#"{"a":"\ud800"}"#,
    "{\"a\":\"\u{1}\"}",
    "{\"a\":\"\n\"}",
    r#"{"a":1e400}"#,
    r#"{"a":01}"#,
    r#"{"a":+1}"#,
    r#"{"a":NaN}"#,
];

/// What is no UTF-8: an octet that never stands in it, a letter in two octets, a surrogate.
static NO_UTF8: [&[u8]; 3] = [
    b"{\"a\":\"\xff\"}",
    b"{\"\xc0\xaf\":1}",
    b"{\"\xed\xa0\x80\":1}",
];

/// What isn't JSON by RFC 8259 is refused.
#[test]
fn what_is_no_json_is_refused(rt: HostRuntime) -> Result<(), Fail> {
    for text in &NO_JSON {
        let found = fault(rt.alloc(), text.as_bytes());
        assert_eq!(rt; found, Some(TextFault::Json), "at {text}");
    }
    for octets in &NO_UTF8 {
        let found = fault(rt.alloc(), octets);
        assert_eq!(rt; found, Some(TextFault::Json));
    }
    Ok(())
}

/// One level more is refused.
#[test]
fn a_text_nests_127_deep(rt: HostRuntime) -> Result<(), Fail> {
    let alloc = rt.alloc();
    for (depth, want) in [
        (126, None),
        (127, None),
        (128, Some(TextFault::Json)),
        (100000, Some(TextFault::Json)),
    ] {
        let text = nested(alloc, depth - 1)?;
        assert_eq!(rt; fault(alloc, text.as_bytes()), want, "at {depth}");
    }
    Ok(())
}

// Members of each kind.
const MEMBERS: &[u8] =
    br#"{"t":"a\u0062","f":true,"l":["x",{"y":1},2],"o":{"b":1},"aud":[ "a" ],"none":[],"n":null}"#;

/// Whether a copy of an object in the object reads as that one.
fn copy_is_read(copy: &Object, inner: ObjectRef<'_>, all: ObjectRef<'_>) -> bool {
    copy.member_count() == 1
        && copy.name(0) == Some("b")
        && copy.whole("b") == Some(1)
        && copy.lend().shares_name(&inner)
        && !inner.shares_name(&all)
}

/// Whether a copy of an object in an object has its members.
fn is_copied(alloc: Global, all: ObjectRef<'_>) -> bool {
    match all.object("o") {
        Some(inner) => match inner.to_object(alloc) {
            Ok(copy) => copy_is_read(&copy, inner, all),
            Err(_) => false,
        },
        None => false,
    }
}

/// A copy outlives the object that it was made of.
#[test]
fn an_object_in_an_object_is_copied(rt: HostRuntime) -> Result<(), Fail> {
    let all = object(rt.alloc(), MEMBERS)?;
    let copied = is_copied(rt.alloc(), all.lend());
    holds(&rt, copied);
    Ok(())
}

/// Members of [`MEMBERS`], and the compact text of each that has one.
static COMPACTS: [(&str, Option<&str>); 6] = [
    ("aud", Some(r#"["a"]"#)),
    ("t", Some(r#""ab""#)),
    ("none", Some("[]")),
    ("l", None),
    ("f", None),
    ("absent", None),
];

/// What is written compactly reads back as the same.
#[test]
fn texts_and_lists_of_texts_have_a_compact_text(rt: HostRuntime) -> Result<(), Fail> {
    let all = object(rt.alloc(), MEMBERS)?;
    for &(name, want) in &COMPACTS {
        let text = all.compact(rt.alloc(), name)?;
        assert_eq!(rt; text.as_deref(), want.map(str::as_bytes), "at {name}");
    }
    Ok(())
}

/// Texts, and how JSON writes them.
static QUOTES: [(&str, &str); 4] = [
    ("", r#""""#),
    (r#"a""#, r#""a\"""#),
    ("\\\u{8}\u{c}\n\r\t", r#""\\\b\f\n\r\t""#),
    (
        "\u{1}\u{1f}\u{7f}/\u{2028}",
        "\"\\u0001\\u001f\u{7f}/\u{2028}\"",
    ),
];

/// Quotes, backslashes and control characters are escaped (RFC 8259, section 7).
#[test]
fn texts_are_quoted_as_json_writes_them(rt: HostRuntime) -> Result<(), Fail> {
    for &(text, want) in &QUOTES {
        let octets = quoted(rt.alloc(), text)?;
        assert_eq!(rt; octets.as_slice(), want.as_bytes(), "at {want}");
    }
    Ok(())
}

/// Whether names that stand already are refused.
fn refuses_names(claims: &mut ObjectOut) -> bool {
    claims.text("sub", "b") == Err(TextFault::NameTwice)
        && claims.whole("sub", 1) == Err(TextFault::NameTwice)
        && claims.flag("b", false) == Err(TextFault::NameTwice)
        && claims.texts("aud", &[]) == Err(TextFault::NameTwice)
}

/// The text of four members, where names that stand already are refused.
fn written_once(alloc: Global) -> Result<Vec<u8>, TextFault> {
    let mut claims = ObjectOut::new(alloc);
    claims.text("sub", "a")?;
    claims.whole("exp", 5)?;
    claims.flag("b", true)?;
    claims.texts("aud", &["x", "y"])?;
    if refuses_names(&mut claims) {
        claims.finish()
    } else {
        Err(TextFault::Json)
    }
}

/// The text of these members.
const WRITTEN: &[u8] = br#"{"aud":["x","y"],"b":true,"exp":5,"sub":"a"}"#;

/// An object is written with its names in ascending order.
#[test]
fn an_object_is_written_by_its_names(rt: HostRuntime) -> Result<(), Fail> {
    let text = written_once(rt.alloc())?;
    holds(&rt, text.as_slice() == WRITTEN);
    Ok(())
}

/// The text that an object is written as.
fn written(alloc: Global) -> Result<Vec<u8>, TextFault> {
    let mut claims = ObjectOut::new(alloc);
    again!(claims.text("sub", "a"))?;
    again!(claims.whole("exp", 5))?;
    again!(claims.flag("b", true))?;
    again!(claims.texts("aud", &["x", "y"]))?;
    match again!(claims.texts("aud", &["x"])) {
        Err(TextFault::NameTwice) => claims.finish(),
        Err(fault) => Err(fault),
        Ok(()) => Err(TextFault::Json),
    }
}

/// Whether an object in this object is copied with its members.
fn copies_again(alloc: Global, all: ObjectRef<'_>) -> bool {
    match all.object("o") {
        Some(inner) => match again!(inner.to_object(alloc)) {
            Ok(copy) => {
                copy.text("d") == Some("y")
                    && matches!(copy.list("b"), Some(list) if list.len() == 2)
            }
            Err(_) => false,
        },
        None => false,
    }
}

/// Whether a list of texts in this object has its compact text.
fn compacts_again(alloc: Global, all: ObjectRef<'_>) -> bool {
    match again!(all.compact(alloc, "aud")) {
        Ok(Some(text)) => text.as_slice() == br#"["a"]"#.as_slice(),
        _ => false,
    }
}

/// Whether an object is read, copied, and a list of it written.
fn reads_again(alloc: Global) -> bool {
    let text = br#"{"o":{"b":["x",{"c":null}],"d":"y"},"aud":["a"]}"#;
    match again!(object(alloc, text)) {
        Ok(all) => copies_again(alloc, all.lend()) && compacts_again(alloc, all.lend()),
        Err(_) => false,
    }
}

/// The fault of a text that is no object text.
fn fault_again(alloc: Global, octets: &[u8]) -> Option<TextFault> {
    again!(object(alloc, octets)).err()
}

/// Whether a text is quoted.
fn quotes_again(alloc: Global) -> bool {
    match again!(quoted(alloc, r#"a""#)) {
        Ok(text) => text.as_slice() == br#""a\"""#.as_slice(),
        Err(_) => false,
    }
}

/// Whether members are written.
fn writes_again(alloc: Global) -> bool {
    match again!(written(alloc)) {
        Ok(text) => text.as_slice() == WRITTEN,
        Err(_) => false,
    }
}

/// `rt try --test --fail-alloc N` refuses the Nth allocation: every other answer, and the text that is written, stay the same.
#[test]
fn a_refused_growth_changes_no_later_answer(rt: HostRuntime) {
    let alloc = rt.alloc();
    holds(&rt, reads_again(alloc));
    holds(&rt, fault_again(alloc, br#"{"a":1,"a":1}"#) == TWICE);
    holds(
        &rt,
        fault_again(alloc, br#"["a"]"#) == Some(TextFault::NotObject),
    );
    holds(
        &rt,
        fault_again(alloc, br#"{"a":"#) == Some(TextFault::Json),
    );
    holds(&rt, quotes_again(alloc));
    holds(&rt, writes_again(alloc));
}
