//! The validator that is kept for many tokens.
use fowharimu::{KeySet, Policy, Reader, Report, Rsa, Validator, Verdict, Verifier};
use jwt_support::cases::KEYS_A;
use jwt_support::examples::{HS256, KEYS_A2, NOW, TOKEN_A, TOKEN_A2, filled};
use std::alloc::{AllocError, Global};
use std::test::Fail;

/// What is printed of a report: whether the token is accepted, or the fault's name and its words.
fn told(alloc: Global, report: &Report<'_>) -> Result<String, AllocError> {
    match &report.verdict {
        Verdict::Accepted { .. } => String::from_str(alloc, "accepted"),
        Verdict::Refused(fault) => {
            let name = fault.name();
            format!(in alloc; "{name}: {fault}")
        }
    }
}

/// What a validator with [`Rsa`] says of the token by either call, at this moment.
fn said(
    alloc: Global,
    policy: &str,
    keys: &str,
    token: &str,
    now: i64,
) -> Result<(String, String), Fail> {
    let policy = Policy::read(alloc, policy.as_bytes())?;
    let keys = KeySet::read(alloc, keys.as_bytes())?;
    let mut verifiers: Vec<Box<dyn Verifier>> = Vec::new(alloc);
    verifiers.push(Box::new(alloc, Rsa)?)?;
    let validator = Validator::new(policy, keys, verifiers);
    let mut source = Reader::new(token.as_bytes());
    let mut budget = validator.policy.budget();
    let read = validator.validate(alloc, &mut source, now, &mut budget);
    let mut budget = validator.policy.budget();
    let judged = validator.judge(alloc, token.as_bytes(), now, &mut budget);
    Ok((told(alloc, &read)?, told(alloc, &judged)?))
}

/// A policy of RS256 alone.
const RS256: &str = r#"{"algs":["RS256"],"issuers":["joe"],"required":["exp"]}"#;

/// A policy, a key set, a token, the moment, and what is said.
static CASES: [(&str, &str, &str, i64, &str); 8] = [
    (HS256, KEYS_A, TOKEN_A, NOW, "accepted"),
    (RS256, KEYS_A2, TOKEN_A2, NOW, "accepted"),
    (
        RS256,
        KEYS_A2,
        TOKEN_A2,
        NOW + 1,
        "Expired: the token has expired by the claim \"exp\"",
    ),
    (
        r#"{"algs":["HS256"],"required":["sub"]}"#,
        KEYS_A,
        TOKEN_A,
        NOW,
        "ClaimMissing: the claim \"sub\" is absent",
    ),
    (
        HS256,
        KEYS_A2,
        TOKEN_A,
        NOW,
        "NoKey: signature 0 is not verified: no key is eligible",
    ),
    (
        r#"{"algs":["HS256"],"work":294}"#,
        KEYS_A,
        TOKEN_A,
        NOW,
        "WorkExceeded: trying signature 0 with key 0 would exceed the budget",
    ),
    (
        HS256,
        KEYS_A,
        "e30.e30.-",
        NOW,
        "Base64: the text of signature 0 is not base64url",
    ),
    (
        r#"{"algs":["HS256"],"limit":5}"#,
        KEYS_A,
        TOKEN_A,
        NOW,
        "TooLong: the token is too long",
    ),
];

/// `validate` and `judge` say the same of each case.
#[test]
fn each_case_is_said_by_both_calls(rt: HostRuntime) -> Result<(), Fail> {
    let alloc = rt.alloc();
    for &(policy, keys, token, now, gives) in &CASES {
        let keys = filled(alloc, keys)?;
        let (read, judged) = said(alloc, policy, &keys, token, now)?;
        assert_eq!(rt; read.as_str(), gives);
        assert_eq!(rt; judged.as_str(), gives);
    }
    Ok(())
}
