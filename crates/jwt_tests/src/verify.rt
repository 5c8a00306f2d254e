//! `judge` and `validate`.
use crate::asserted::holds;
use crate::read::policy_of;
use jwt_keys::KeySet;
use jwt_mac::{Alg, Answer, CountDown, KeyView, Message, Verifier};
use jwt_policy::Policy;
use jwt_support::cases::{
    ACCEPTED, ASKED, BARRED_IN_MODE_ALL, BARRED_THEN_VERIFIED, CLAIM_MISSING, FOUR_KEYS, STEPS,
    THUMBPRINT, THUMBPRINT_AS_KID, TWO_KEYS, tables,
};
use jwt_support::examples::{HS256, NOW, TOKEN_A, filled, key_set};
use jwt_support::reports::{
    AMPLE, Case, Counts, Handover, difference, first_difference, judged, judged_case, said,
    said_with, validated_case,
};
use jwt_support::streams::{Drip, Endless};
use jwt_support::texts::repeated;
use jwt_text::Scratch;
use jwt_verify::{Terms, Verdict, judge_token, read_token};
use std::alloc::{AllocError, Global};
use std::cell::Cell;
use std::test::Fail;

/// Each case gets its verdict, its tries, its states and its work.
#[test]
fn each_case_gets_its_report(rt: HostRuntime) -> Result<(), Fail> {
    for cases in tables() {
        let found = first_difference(rt.alloc(), cases);
        assert_eq!(rt; found.as_deref(), Some(""));
    }
    Ok(())
}

/// Under each ceiling on work and calls the run stops where it is stated.
#[test]
fn each_ceiling_of_four_keys_gets_its_report(rt: HostRuntime) -> Result<(), Fail> {
    for &(first, last, gives) in &STEPS {
        for ceiling in first..=last {
            let case = Case {
                keys: FOUR_KEYS,
                ceiling,
                gives,
                ..ACCEPTED
            };
            let found = difference(rt.alloc(), &case);
            assert_eq!(rt; found.as_deref(), Some(""), "at {ceiling}");
        }
    }
    Ok(())
}

/// What a run counts for that says this where an allocation may be refused: 1 where one was, with the tries so far counted, and
/// 2 where it says otherwise.
fn weight(said: Option<&str>, want: &str) -> usize {
    match said {
        None => 1,
        Some(said) if said == want => 0,
        Some(said) if said.starts_with("OutOfMemory;") && !said.ends_with("uncounted") => 1,
        Some(_) => 2,
    }
}

/// What a run of `judge` and one of `validate` on the case count for.
fn two_runs(alloc: Global, case: &Case) -> usize {
    let judged = said(alloc, case, Handover::Whole, Counts::Up);
    let read = said(alloc, case, Handover::Read, Counts::Down);
    weight(judged.as_deref(), case.gives).saturating_add(weight(read.as_deref(), case.gives))
}

/// Cases in which a run allocates in its own way each.
static GROWING: [Case; 7] = [
    ACCEPTED,
    TWO_KEYS,
    BARRED_THEN_VERIFIED,
    BARRED_IN_MODE_ALL,
    CLAIM_MISSING,
    THUMBPRINT,
    THUMBPRINT_AS_KID,
];

/// `tests/refused-growths` refuses each allocation of this test in turn.
#[test]
fn a_refused_growth_changes_no_report(rt: HostRuntime) -> Result<(), Fail> {
    let mut refused = 0usize;
    for case in &GROWING {
        refused = two_runs(rt.alloc(), case).saturating_add(refused);
    }
    holds(&rt, refused <= 1);
    Ok(())
}

/// What `validate` says of a token that is dripped, what is unread then, and how many pulls there were.
#[derive(Drop)]
struct Dripped {
    said: String,
    unread: usize,
    pulls: usize,
}

/// The report on a token that comes octet by octet.
fn drip_in(
    alloc: Global,
    policy: &'static str,
    token: &[u8],
    left: usize,
) -> Result<Dripped, Fail> {
    let case = Case { policy, ..ACCEPTED };
    let mut source = Drip::new(token, left);
    let said = validated_case(alloc, &mut source, &case, &[], Counts::Up).ok_or("no report")?;
    Ok(Dripped {
        said,
        unread: source.rest.len(),
        pulls: source.pulls,
    })
}

/// Where a source fails, nothing is tried.
#[test]
fn a_source_that_fails_is_a_read_fault(rt: HostRuntime) -> Result<(), Fail> {
    let policy = r#"{"algs":["HS256"],"limit":179}"#;
    for left in 0..180 {
        let run = drip_in(rt.alloc(), policy, TOKEN_A.as_bytes(), left)?;
        assert_eq!(rt;
            run.said.as_str(),
            "Read; tries work 0 calls 0;",
            "at {left}"
        );
        assert_eq!(rt; run.unread, TOKEN_A.len().saturating_sub(left), "at {left}");
    }
    let run = drip_in(rt.alloc(), policy, TOKEN_A.as_bytes(), 180)?;
    assert_eq!(rt; run.said.as_str(), ACCEPTED.gives);
    assert_eq!(rt; run.pulls, 180);
    Ok(())
}

/// No octet after the one past the limit is taken.
#[test]
fn what_follows_one_octet_past_the_limit_is_unread(rt: HostRuntime) -> Result<(), Fail> {
    let more = repeated(rt.alloc(), "A", "", 1000)?;
    let token = format!(in rt.alloc(); "{TOKEN_A}{more}")?;
    let policy = r#"{"algs":["HS256"],"limit":178}"#;
    let run = drip_in(rt.alloc(), policy, token.as_bytes(), 2000)?;
    assert_eq!(rt; run.said.as_str(), "TooLong; tries work 0 calls 0;");
    assert_eq!(rt; (run.unread, run.pulls), (1000, 179));
    Ok(())
}

/// What is said of the first octets of the token, so many.
fn wanted_of(count: usize) -> &'static str {
    match count {
        0 => "Empty; tries work 0 calls 0;",
        1..=135 => "Segments; tries work 0 calls 0;",
        171 => "BadSignature 0; tries 0.0:295 work 295 calls 1; BadSignature",
        _ if count % 4 == 0 => "BadSignature 0; tries 0.0:295 work 295 calls 1; BadSignature",
        _ => "Base64(Signature(0)); tries work 0 calls 0;",
    }
}

/// No prefix of an accepted token is accepted.
#[test]
fn a_token_that_is_cut_is_not_accepted(rt: HostRuntime) -> Result<(), Fail> {
    for n in 0..TOKEN_A.len() {
        let token = &TOKEN_A.as_bytes()[..n];
        let said = judged_case(rt.alloc(), token, &ACCEPTED, &[], Counts::Up);
        assert_eq!(rt; said.as_deref(), Some(wanted_of(n)), "at {n}");
    }
    Ok(())
}

/// Whether this is said of no accepted token, and of at most one key tried.
fn is_refusal(said: Option<&str>) -> bool {
    match said {
        Some(said) => {
            !said.starts_with("accepted")
                && (said.contains("calls 0;") || said.contains("calls 1;"))
        }
        None => false,
    }
}

/// How many pairs are tried on the token where it is read first, and accepted then.
fn tries_of_read_token(alloc: Global) -> Result<Option<usize>, Fail> {
    let keys = key_set(alloc, r#"{"kty":"oct","k":"<KEY_A>"}"#)?;
    let policy = policy_of(alloc, HS256)?;
    let signed = read_token(alloc, TOKEN_A.as_bytes(), &policy)
        .ok()
        .ok_or("no token")?;
    let mut budget = CountDown::new(AMPLE);
    let mut scratch = Scratch::new(alloc);
    let report = judge_token(
        alloc,
        &signed,
        &keys,
        &policy,
        NOW,
        &[],
        &mut budget,
        &mut scratch,
    );
    match &report.verdict {
        Verdict::Accepted { .. } => Ok(Some(report.tries.len())),
        Verdict::Refused(_) => Ok(None),
    }
}

/// A token that was read is judged as its octets are.
#[test]
fn a_token_that_was_read_is_judged(rt: HostRuntime) -> Result<(), Fail> {
    assert_eq!(rt; tries_of_read_token(rt.alloc())?, Some(1));
    Ok(())
}

/// The terms of these documents at the tests' moment, with no verifier.
fn by_hmac<'k, 'p>(keys: &'k KeySet, policy: &'p Policy) -> Terms<'k, 'p, 'k> {
    Terms {
        keys,
        policy,
        moment: NOW,
        verifiers: &[],
    }
}

/// What is said of the token with one octet changed.
fn said_of_changed(
    alloc: Global,
    keys: &KeySet,
    policy: &Policy,
    place: usize,
    change: u8,
) -> Option<String> {
    let mut token = Vec::from_slice(alloc, TOKEN_A.as_bytes()).ok()?;
    let octet = token.get_mut(place)?;
    *octet ^= change;
    judged(alloc, &token, &by_hmac(keys, policy), AMPLE, Counts::Up)
}

/// The first change of the octet at this place with which the token isn't refused after at most one try, where there is one.
fn unrefused_at(alloc: Global, keys: &KeySet, policy: &Policy, place: usize) -> Option<u8> {
    for change in 1..=255u8 {
        let said = said_of_changed(alloc, keys, policy, place, change);
        if !is_refusal(said.as_deref()) {
            return Some(change);
        }
    }
    None
}

/// The first octet whose change leaves the token accepted, or costs more than one try, where there is one.
fn unrefused(alloc: Global) -> Result<Option<usize>, Fail> {
    let keys = key_set(alloc, r#"{"kty":"oct","k":"<KEY_A>"}"#)?;
    let policy = policy_of(alloc, HS256)?;
    for place in 0..TOKEN_A.len() {
        if unrefused_at(alloc, &keys, &policy, place).is_some() {
            return Ok(Some(place));
        }
    }
    Ok(None)
}

/// A token with one octet changed is never accepted, and at most one key is tried on it.
#[test]
fn a_token_with_one_octet_changed_is_not_accepted(rt: HostRuntime) -> Result<(), Fail> {
    assert_eq!(rt; unrefused(rt.alloc())?, None);
    Ok(())
}

/// A key set of 1,023 times the first key, and the last.
fn key_set_of(alloc: Global, first: &str, last: &str) -> Result<String, AllocError> {
    let list = repeated(alloc, first, ",", 1023)?;
    let document = format!(in alloc; r#"{{"keys":[{list},{last}]}}"#)?;
    filled(alloc, &document)
}

/// A JSON token of so many equal signatures without octets.
fn equal_signatures(alloc: Global, count: usize) -> Result<String, AllocError> {
    let element = r#"{"protected":"eyJhbGciOiJIUzI1NiJ9","signature":""}"#;
    let list = repeated(alloc, element, ",", count)?;
    format!(in alloc; r#"{{"payload":"e30","signatures":[{list}]}}"#)
}

/// What `judge` says of a token with the keys of this document, under this policy.
fn judged_with(
    alloc: Global,
    token: &[u8],
    document: &str,
    policy: &str,
    ceiling: u64,
) -> Option<String> {
    let keys = KeySet::read(alloc, document.as_bytes()).ok()?;
    let policy = Policy::read(alloc, policy.as_bytes()).ok()?;
    judged(
        alloc,
        token,
        &by_hmac(&keys, &policy),
        ceiling,
        Counts::Down,
    )
}

/// What `judge` says of such a token with 1,024 keys of 32 zero octets.
fn judged_all_pairs(alloc: Global, count: usize, ceiling: u64) -> Option<String> {
    let policy = r#"{"algs":["HS256"],"max_signatures":32,"limit":1048576}"#;
    let key = r#"{"kty":"oct","k":"<ZEROS>"}"#;
    let keys = key_set_of(alloc, key, key).ok()?;
    let token = equal_signatures(alloc, count).ok()?;
    judged_with(alloc, token.as_bytes(), &keys, policy, ceiling)
}

/// How many equal signatures, the ceiling, how the report begins, and what it has.
static PAIRS: [(usize, u64, &str, &str); 3] = [
    (
        32,
        6_029_312,
        "BadSignature 0; tries 0.0:184 0.1:184 ",
        " 31.1023:184 work 6029312 calls 32768; BadSignature ",
    ),
    (
        32,
        6_029_311,
        "WorkExceeded 31 1023; tries 0.0:184 0.1:184 ",
        " 31.1022:184 work 6029128 calls 32767; BadSignature ",
    ),
    (
        33,
        6_029_312,
        "TooManySignatures; tries ",
        " work 0 calls 0;",
    ),
];

/// 32 signatures and 1,024 keys: each pair is tried once.
#[test]
fn as_many_pairs_as_there_can_be(rt: HostRuntime) -> Result<(), Fail> {
    for &(count, ceiling, begins, budget) in &PAIRS {
        let said = judged_all_pairs(rt.alloc(), count, ceiling).ok_or("no report")?;
        assert!(rt;
            said.starts_with(begins) && said.contains(budget),
            "{begins}"
        );
        holds(&rt, !said.ends_with("uncounted"));
    }
    Ok(())
}

/// A key of the token's `kid` or of another, how the report begins, and how it ends.
static KIDS: [(&str, &str, &str); 2] = [
    (
        r#"{"kty":"oct","k":"<ZEROS>","kid":"x"}"#,
        "BadSignature 0; tries 0.0:198 0.1:198 ",
        " 0.1023:198 work 202752 calls 1024; BadSignature",
    ),
    (
        r#"{"kty":"oct","k":"<ZEROS>","kid":"y"}"#,
        "BadSignature 0; tries 0.1023:198 ",
        " work 198 calls 1; BadSignature",
    ),
];

/// What `judge` says of a token with 1,023 times this key, and one of its own `kid`.
fn judged_kids(alloc: Global, first: &str) -> Option<String> {
    let token = b"eyJhbGciOiJIUzI1NiIsImtpZCI6IngifQ.e30.";
    let keys = key_set_of(alloc, first, r#"{"kty":"oct","k":"<ZEROS>","kid":"x"}"#).ok()?;
    judged_with(alloc, token, &keys, HS256, AMPLE)
}

/// Where the signature has a `kid`, no key that doesn't answer to it is tried.
#[test]
fn keys_of_another_kid_are_not_tried(rt: HostRuntime) -> Result<(), Fail> {
    for &(first, begins, ends) in &KIDS {
        let said = judged_kids(rt.alloc(), first).ok_or("no report")?;
        assert!(rt;
            said.starts_with(begins) && said.ends_with(ends),
            "{begins}"
        );
    }
    Ok(())
}

/// A source that never ends is refused one octet past the limit.
#[test]
fn a_source_that_never_ends_is_too_long(rt: HostRuntime) -> Result<(), Fail> {
    let alloc = rt.alloc();
    let case = Case {
        policy: r#"{"algs":["HS256"],"limit":1048576}"#,
        ..ACCEPTED
    };
    let mut source = Endless::new();
    let said = validated_case(alloc, &mut source, &case, &[], Counts::Up).ok_or("no report")?;
    assert_eq!(rt; said.as_str(), "TooLong; tries work 0 calls 0;");
    assert_eq!(rt; source.given, 1_048_577);
    Ok(())
}

/// A verifier for RS256 that accepts nothing, and finds no memory after so many questions.
#[derive(Drop)]
struct CountingVerifier {
    asked: Cell<u32>,
}

impl Verifier for CountingVerifier {
    ghost use Rattle.std.specs.Prelude.{true, false};
    ghost use Rattle.jwt_support.specs.Verifiers.{test_meaning};
    ghost use Rattle.jwt_mac.specs.declared.algorithm.Alg.TheVariants.{RS256};

    ghost meaning = { λ _. test_meaning RS256 false true };

    fn names(&self, alg: Alg) -> bool {
        alg.text() == "RS256"
    }

    fn verify(&self, _alg: Alg, _key: &KeyView, _message: Message, _signature: &[u8]) -> Answer {
        let before = self.asked.get();
        if before >= 4 {
            return Answer::NoMemory;
        }
        self.asked.set(before + 1);
        Answer::Invalid
    }
}

/// A verifier is asked as often as calls are counted, and no more than `max_calls` times.
#[test]
fn a_verifier_is_asked_once_for_each_call(rt: HostRuntime) -> Result<(), Fail> {
    let alloc = rt.alloc();
    let asked = Cell::new(0);
    let mut all: Vec<Box<dyn Verifier>> = Vec::new(alloc);
    all.push(Box::new(alloc, CountingVerifier { asked })?)?;
    let case = Case {
        keys: r#"{"keys":[{"kty":"RSA","n":"AQAB","e":"AQAB"},{"kty":"RSA","n":"AQAB","e":"AQAB"}]}"#,
        ..ASKED
    };
    for gives in [
        "BadSignature 0; tries 0.0:0 0.1:0 work 0 calls 2; BadSignature",
        "BadSignature 0; tries 0.0:0 0.1:0 work 0 calls 2; BadSignature",
        "VerifierMemory; tries 0.0:0 work 0 calls 1; Stopped",
    ] {
        let said = said_with(alloc, &case, &all, Handover::Whole, Counts::Up).ok_or("no report")?;
        assert_eq!(rt; said.as_str(), gives);
    }
    Ok(())
}
