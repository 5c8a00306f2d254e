//! The command `verify`, on one token.
use crate::examples::{ACCEPTED, MOMENT, VERIFY};
use crate::runs::{Printed, RunInputs, assert_ran, joined, ran, ran_with};
use jwt_command::documents::Held;
use jwt_command::verify_lines::NoClock;
use jwt_mac::Verifier;
use jwt_rsa::Rsa;
use jwt_support::cases::{KEYS_A, tables};
use jwt_support::examples::{HS256, KEYS_A2, TOKEN_A, TOKEN_A2};
use jwt_support::reports::Case;
use jwt_text::Reader;
use std::alloc::Global;
use std::process::Abort;
use std::test::Fail;

/// Asserts that `verify` prints the line of the case, where it has one, with its status.
fn assert_case(rt: &impl Abort, alloc: Global, case: &Case) -> Result<(), Fail> {
    let Some(line) = case.line else {
        return Ok(());
    };
    let now = case.now;
    let moment = format!(in alloc; "{now}")?;
    let input = joined(alloc, &[case.policy, case.keys, case.token])?;
    let found = ran(alloc, &["jwt", "verify", "--now", &moment], &input)?;
    let status = if line.starts_with("accepted") { 0 } else { 1 };
    assert_ran(rt, alloc, &found, &[line], status)
}

/// Asserts the same of each of these cases.
fn assert_cases(rt: &impl Abort, alloc: Global, cases: &[Case]) -> Result<(), Fail> {
    for case in cases {
        assert_case(rt, alloc, case)?;
    }
    Ok(())
}

/// Each row of `jwt verify`.
#[test]
fn verify_prints_each_verdict(rt: HostRuntime) -> Result<(), Fail> {
    for cases in tables() {
        assert_cases(&rt, rt.alloc(), cases)?;
    }
    Ok(())
}

/// A run with a verifier of RSA signatures at hand, and by this clock.
fn ran_by(
    alloc: Global,
    words: &[&str],
    clock: Option<u32>,
    lines: &[&str],
) -> Result<Printed, Fail> {
    let input = joined(alloc, lines)?;
    let mut built_in: Vec<Box<dyn Verifier>> = Vec::new(alloc);
    built_in.push(Box::new(alloc, Rsa)?)?;
    let mut r = Reader::new(input.as_bytes());
    let at_hand = RunInputs {
        verifiers: &built_in,
        clock,
        moments: &mut NoClock,
        held: Held::none(),
    };
    ran_with(alloc, words, at_hand, &mut r)
}

/// The words of `verify` with public keys, without a moment, and with both a second later.
const ASKED: &[&str] = &["jwt", "verify", "--now", MOMENT, "--public-keys"];

const CLOCK: &[&str] = &["jwt", "verify"];

const ASKED_LATER: &[&str] = &["jwt", "verify", "--public-keys", "--now", "1300819380"];

const RS256: &str = r#"{"algs":["RS256"]}"#;

/// `--public-keys` without verifiers verifies no signature by a public key.
#[test]
fn public_keys_verify_nothing_where_none_are_at_hand(rt: HostRuntime) -> Result<(), Fail> {
    let input = joined(rt.alloc(), &[RS256, KEYS_A2, TOKEN_A2])?;
    let found = ran(rt.alloc(), ASKED, &input)?;
    let line = "refused NoVerifier sig=0 tries=0 work=0";
    assert_ran(&rt, rt.alloc(), &found, &[line], 1)
}

const EXPIRED: &str = "refused Expired tries=1 work=295";

/// Words, what the clock says, the line that is printed of the token, and the status.
static CLOCKS: [(&[&str], u32, &str, u8); 4] = [
    (CLOCK, 1_300_819_379, ACCEPTED, 0),
    (CLOCK, 1_300_819_380, EXPIRED, 1),
    (VERIFY, 1_300_819_380, ACCEPTED, 0),
    (ASKED_LATER, 1_300_819_379, EXPIRED, 1),
];

/// The clock counts only where no moment is given; without a clock one has to be.
#[test]
fn the_clock_stands_in_for_the_moment(rt: HostRuntime) -> Result<(), Fail> {
    let alloc = rt.alloc();
    let input = [HS256, KEYS_A, TOKEN_A];
    for (words, clock, line, status) in &CLOCKS {
        let found = ran_by(alloc, words, Some(*clock), &input)?;
        assert_ran(&rt, alloc, &found, &[line], *status)?;
    }
    let found = ran_by(alloc, CLOCK, None, &input)?;
    assert_eq!(rt; found.status, 2);
    let missing = "error: the following required arguments were not provided:\n  --now <N>\n";
    assert!(rt; found.out.starts_with(missing));
    Ok(())
}
