//! The option `--access` of `verify`: the claims of an accepted token under a rule.
use crate::examples::{ACCEPTED, MOMENT};
use crate::runs::{Printed, assert_ran, joined, ran_holding};
use jwt_command::documents::Held;
use jwt_support::cases::KEYS_A;
use jwt_support::examples::{HS256, TOKEN_A};
use jwt_text::Reader;
use std::alloc::Global;
use std::test::Fail;

/// The words of `verify` with a rule.
const ASKED: &[&str] = &["jwt", "verify", "--access", "a", "--now", MOMENT];

/// A rule in hand, where there is one.
fn holding(rule: Option<&str>) -> Held<'_> {
    match rule {
        Some(text) => Held {
            access: Some(text.as_bytes()),
            ..Held::none()
        },
        None => Held::none(),
    }
}

/// A run on these lines of the input, with a rule in hand.
fn ran_under(
    alloc: Global,
    words: &[&str],
    rule: Option<&str>,
    lines: &[&str],
) -> Result<Printed, Fail> {
    let input = joined(alloc, lines)?;
    ran_holding(
        alloc,
        words,
        holding(rule),
        &mut Reader::new(input.as_bytes()),
    )
}

/// A document of 65,537 octets is too long, and one of 65,536 isn't.
#[test]
fn a_rule_is_refused_where_it_is_too_long(rt: HostRuntime) -> Result<(), Fail> {
    let alloc = rt.alloc();
    let mut rule = String::from_str(alloc, "{}")?;
    for _ in 2..65_536 {
        rule.push(' ')?;
    }
    let lines = [HS256, KEYS_A, TOKEN_A];
    let found = ran_under(alloc, ASKED, Some(rule.as_str()), &lines)?;
    assert_ran(&rt, alloc, &found, &[ACCEPTED], 0)?;
    rule.push(' ')?;
    let found = ran_under(alloc, ASKED, Some(rule.as_str()), &lines)?;
    assert_ran(&rt, alloc, &found, &["refused Access TooLong"], 1)
}
