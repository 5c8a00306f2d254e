//! Tokens that come again.

use crate::read::policy_of;
use fowharimu::{Outcome, Remembering};
use jwt_mac::Budget;
use jwt_policy::{ClaimFault, Policy};
use jwt_support::examples::{HS256, NOW, filled, key_set};
use jwt_verify::{Fault, Verdict};
use std::alloc::Global;
use std::num::NonZeroUsize;
use std::test::Fail;

/// Tokens that come one after another, when, what is said of each, and the octets that are paid for it.
static STEPS: [(&str, i64, &str, u64); 10] = [
    // it has expired before it was ever accepted
    ("<TOKEN_A>", NOW + 1, "judged: expired", 295),
    ("<TOKEN_A>", NOW, "accepted", 295),
    ("<TOKEN_A>", NOW, "remembered", 0),
    // it expires while it is remembered, and the clock is set back
    ("<TOKEN_A>", NOW + 1, "remembered: expired", 0),
    ("<TOKEN_A>", NOW, "remembered", 0),
    // another payload under the same signature, and without its last octet
    (
        "<HEADER_A>.eyJpc3MiOiJqb2UifQ.<SIGNATURE_A>",
        NOW,
        "judged: bad signature",
        219,
    ),
    (
        "<HEADER_A>.<PAYLOAD_A>.dBjftJeZ4CVP-mB92K27uhbUJU1p1r_wW1gFWFOEjX",
        NOW,
        "judged: another fault",
        0,
    ),
    ("<TOKEN_A>", NOW, "remembered", 0),
    // in JSON form, which isn't kept
    (IN_JSON, NOW, "judged: accepted", 295),
    (IN_JSON, NOW, "judged: accepted", 295),
];

/// The same token in JSON form.
const IN_JSON: &str =
    r#"{"payload":"<PAYLOAD_A>","protected":"<HEADER_A>","signature":"<SIGNATURE_A>"}"#;

/// The word for a refusal.
fn word_for(fault: &Fault<'_>) -> &'static str {
    match fault {
        Fault::Signature(..) => "judged: bad signature",
        Fault::Claim(ClaimFault::Expired) => "judged: expired",
        _ => "judged: another fault",
    }
}

/// The word for what is said of a token.
fn word_of(outcome: &Outcome<'_>) -> &'static str {
    match outcome {
        Outcome::Accepted(_) => "accepted",
        Outcome::Remembered(_, None) => "remembered",
        Outcome::Remembered(_, Some(ClaimFault::Expired)) => "remembered: expired",
        Outcome::Remembered(_, Some(_)) => "remembered: refused",
        Outcome::Judged(report) => match &report.verdict {
            Verdict::Accepted { .. } => "judged: accepted",
            Verdict::Refused(fault) => word_for(fault),
        },
    }
}

/// Whether this is said of the token, and paid for it.
fn is_so(
    alloc: Global,
    policy: &Policy,
    remembering: &mut Remembering<'_>,
    step: &(&str, i64, &str, u64),
) -> Result<bool, Fail> {
    let &(token, now, says, paid) = step;
    let token = filled(alloc, token)?;
    let mut budget = policy.budget();
    let outcome = remembering.judge(alloc, token.as_bytes(), now, &mut budget);
    Ok(word_of(&outcome) == says && budget.octets() == paid)
}

/// The number of the first step that goes another way.
fn unmet(alloc: Global) -> Result<Option<usize>, Fail> {
    let policy = policy_of(alloc, HS256)?;
    let keys = key_set(alloc, r#"{"kty":"oct","k":"<KEY_A>"}"#)?;
    let tokens = NonZeroUsize::new(2).ok_or("no room")?;
    let mut remembering = Remembering::new(alloc, &policy, &keys, tokens, 8192)?;
    for (number, step) in STEPS.iter().enumerate() {
        if !is_so(alloc, &policy, &mut remembering, step)? {
            return Ok(Some(number));
        }
    }
    Ok(None)
}

/// A remembered token gets the verdict that its claims have at that moment, and no signature is tried.
#[test]
fn a_token_that_comes_again_is_judged_by_its_claims(rt: HostRuntime) -> Result<(), Fail> {
    assert_eq!(rt; unmet(rt.alloc())?, None);
    Ok(())
}
