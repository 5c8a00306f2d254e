//! The command `issue`.
use crate::examples::VERIFY;
use crate::runs::{Printed, assert_ran, assert_rows, joined, ran, ran_holding};
use jwt_command::documents::Held;
use jwt_support::cases::{KEYS_A, KEYS_Z, KEYS_ZA};
use jwt_support::examples::filled;
use jwt_text::Reader;
use std::alloc::Global;
use std::test::Fail;

const COMPACT: &[&str] = &["jwt", "issue", "--alg", "HS256", "--typ", "JWT"];

static REFUSALS: [&str; 5] = [
    "jwt issue --alg HS256 --typ JWT|{}<LF>{}|refused Keys NotKeySet|1",
    r#"jwt issue --alg HS256 --typ JWT|{"keys":[]}<LF>{}|refused NoKey|1"#,
    r#"jwt issue --alg HS256 --typ JWT|{"keys":[{"kty":"oct","k":"<ZEROS>"}]}<LF>{"exp":"x"}|refused ClaimKind claim="exp"|1"#,
    r#"jwt issue --alg RS256|{"keys":[{"kty":"oct","k":"<ZEROS>"}]}<LF>{}|refused AlgNotHmac sig=0|1"#,
    r#"jwt issue --alg none|{"keys":[{"kty":"oct","k":"<ZEROS>"}]}<LF>{}|error: invalid value 'none' for '--alg <A>'<LF>  [possible values: HS256, HS384, HS512]<LF><LF>For more information, try '--help'.|2"#,
];

/// What `issue` prints of words, a key set and claims.
fn issued(alloc: Global, words: &[&str], keys: &str, claims: &str) -> Result<Printed, Fail> {
    let input = joined(alloc, &[keys, claims])?;
    ran(alloc, words, &input)
}

/// Each row of `jwt issue`.
#[test]
fn issue_prints_the_token_or_the_first_refusal(rt: HostRuntime) -> Result<(), Fail> {
    let token = issued(rt.alloc(), COMPACT, KEYS_Z, "{}\n")?;
    assert_eq!(rt; token.status, 0);
    assert_eq!(rt; token.out.len(), 84);
    assert!(rt;
        token
            .out
            .starts_with("eyJhbGciOiJIUzI1NiIsInR5cCI6IkpXVCJ9.e30.")
    );
    assert_rows(&rt, rt.alloc(), &REFUSALS)
}

/// What `issue` prints with a key set in hand, or with one that can't be read.
fn issued_in_hand(alloc: Global, keys: Option<&[u8]>, claims: &str) -> Result<Printed, Fail> {
    let words = ["jwt", "issue", "--alg", "HS256", "--keys", "k"];
    let held = Held {
        keys,
        ..Held::none()
    };
    ran_holding(alloc, &words, held, &mut Reader::new(claims.as_bytes()))
}

/// A key set from a file is as good as one from standard input.
#[test]
fn issue_takes_a_key_set_in_hand(rt: HostRuntime) -> Result<(), Fail> {
    let alloc = rt.alloc();
    let keys = filled(alloc, KEYS_A)?;
    let claims = r#"{"sub":"ann"}"#;
    let token = issued(alloc, &["jwt", "issue", "--alg", "HS256"], KEYS_A, claims)?;
    let found = issued_in_hand(alloc, Some(keys.as_bytes()), claims)?;
    assert_eq!(rt; found.out.as_str(), token.out.as_str());
    assert_eq!(rt; found.status, 0);
    let found = issued_in_hand(alloc, Some(b"{}".as_slice()), claims)?;
    assert_ran(&rt, alloc, &found, &["refused Keys NotKeySet"], 1)?;
    let found = issued_in_hand(alloc, None, claims)?;
    assert_ran(&rt, alloc, &found, &[r#"failed Read file="k""#], 3)
}

/// A form, and the line that `verify` prints of a token that was issued in it.
static FORMS: [(&str, &str); 3] = [
    ("compact", "accepted sig=0 key=0 tries=1 work=199"),
    ("flattened", "accepted sig=0 key=0 tries=1 work=199"),
    ("json", "accepted sig=0 key=0 tries=3 work=597"),
];

/// A token of each form, issued and then verified.
#[test]
fn what_issue_prints_verify_accepts(rt: HostRuntime) -> Result<(), Fail> {
    let alloc = rt.alloc();
    for (form, line) in &FORMS {
        let words = ["jwt", "issue", "--alg", "HS256", "--form", form];
        let token = issued(alloc, &words, KEYS_ZA, r#"{"sub":"ann"}"#)?;
        assert_eq!(rt; token.status, 0);
        let policy = r#"{"algs":["HS256"],"mode":"all"}"#;
        let input = joined(alloc, &[policy, KEYS_ZA, token.out.as_str()])?;
        let found = ran(alloc, VERIFY, &input)?;
        assert_ran(&rt, alloc, &found, &[line], 0)?;
    }
    Ok(())
}
