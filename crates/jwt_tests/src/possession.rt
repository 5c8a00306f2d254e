//! Proofs of possession, and certificates.
use crate::asserted::holds;
use crate::read::claims_of;
use jwt_possession::laws::proofs_have_no_fault;
use jwt_possession::{Binding, Nonces, ProofPolicy, certificate_holds, normal_uri};
use std::alloc::Global;
use std::test::Fail;

/// The policy for proofs.
const POLICY: &str =
    r#"{"algs":["ES256","ES384","ES512","RS256","PS256","EdDSA"],"typ":"dpop+jwt","required":["jti","htm","htu","iat"],"max_age":60,"leeway":5}"#;

/// Documents, and what is answered where they are no policy for proofs.
static POLICIES: [(&str, &str); 8] = [
    (POLICY, "read"),
    (r#"{"algs":[]}"#, "NoAlgorithm"),
    (
        r#"{"algs":["ES256"],"required":["jti","htm","htu","iat"],"max_age":60}"#,
        "Typ",
    ),
    (
        r#"{"algs":["ES256"],"typ":"JWT","required":["jti","htm","htu","iat"],"max_age":60}"#,
        "Typ",
    ),
    (
        r#"{"algs":["ES256","HS256"],"typ":"dpop+jwt","required":["jti","htm","htu","iat"],"max_age":60}"#,
        "SharedSecret",
    ),
    (
        r#"{"algs":["ES256"],"typ":"dpop+jwt","required":["jti","htm","iat"],"max_age":60}"#,
        "Required",
    ),
    (
        r#"{"algs":["ES256"],"typ":"dpop+jwt","max_age":60}"#,
        "Required",
    ),
    (
        r#"{"algs":["ES256"],"typ":"dpop+jwt","required":["jti","htm","htu","iat"]}"#,
        "MaxAge",
    ),
];

/// A policy that isn't one for proofs is refused for the first that it lacks.
#[test]
fn a_policy_for_proofs_has_what_proofs_need(rt: HostRuntime) -> Result<(), Fail> {
    for &(document, wanted) in &POLICIES {
        let said = match ProofPolicy::read(rt.alloc(), document.as_bytes()) {
            Ok(_) => "read",
            Err(fault) => fault.name(),
        };
        assert_eq!(rt; said, wanted, "{document}");
    }
    Ok(())
}

/// The DER of no certificate, whose digest OpenSSL gives.
const DER: &[u8] = b"0\x03\x02\x01\x00";

/// A token is bound by a key, by a certificate, in another way, or not.
#[test]
fn a_token_is_bound_to_a_key_or_a_certificate(rt: HostRuntime) -> Result<(), Fail> {
    let alloc = rt.alloc();
    let free = claims_of(alloc, r#"{"jkt":"a"}"#)?;
    holds(&rt, !Binding::of(&free).is_bound);
    let other = claims_of(alloc, r#"{"cnf":{"kid":"a"}}"#)?;
    holds(&rt, Binding::of(&other).is_bound);
    holds(
        &rt,
        Binding::of(&other).key.is_none() && Binding::of(&other).certificate.is_none(),
    );
    let to_key = claims_of(alloc, r#"{"cnf":{"jkt":"a"}}"#)?;
    holds(&rt, Binding::of(&to_key).key == Some("a"));
    holds(&rt, !certificate_holds(alloc, &to_key, DER)?);
    let to_certificate = claims_of(
        alloc,
        r#"{"cnf":{"x5t#S256":"tWCDPW94evRhE7lqrU3VtdGuANzMac8wzJK-1lHFZhc"}}"#,
    )?;
    holds(
        &rt,
        Binding::of(&to_certificate).certificate
            == Some("tWCDPW94evRhE7lqrU3VtdGuANzMac8wzJK-1lHFZhc"),
    );
    holds(&rt, certificate_holds(alloc, &to_certificate, DER)?);
    holds(
        &rt,
        !certificate_holds(alloc, &to_certificate, b"0\x03\x02\x01\x01")?,
    );
    Ok(())
}

/// URIs, and their normal forms.
static FORMS: [(&str, Option<&str>); 9] = [
    ("HTTPS://Api.Example:443", Some("https://api.example/")),
    ("http://a:8080/%7e/%2f?a#b", Some("http://a:8080/~/%2F")),
    ("https://a/b/c/./../../g", Some("https://a/g")),
    ("https://a/mid/content=5/../6", Some("https://a/mid/6")),
    ("https://a/..", Some("https://a/")),
    ("https://a/b/.", Some("https://a/b/")),
    ("https://a//b/", Some("https://a//b/")),
    ("https://a/%", None),
    ("https://user@a/", None),
];

/// A URI has one form (RFC 3986, sections 5.2.4, 6.2.2 and 6.2.3).
#[test]
fn a_uri_has_one_form(rt: HostRuntime) -> Result<(), Fail> {
    for &(uri, wanted) in &FORMS {
        let form = normal_uri(rt.alloc(), uri)?;
        assert_eq!(rt;
            form.as_deref(),
            wanted.map(|text| text.as_bytes()),
            "{uri}"
        );
    }
    Ok(())
}

/// The secret of nonces: the octets 0 to 31.
const SECRET: &[u8] =
    b"\x00\x01\x02\x03\x04\x05\x06\x07\x08\t\n\x0b\x0c\r\x0e\x0f\x10\x11\x12\x13\x14\x15\x16\x17\x18\x19\x1a\x1b\x1c\x1d\x1e\x1f";

/// A secret that is longer than a block of the hash.
const LONG: &[u8] =
    b"01234567890123456789012345678901234567890123456789012345678901234567890123456789";

/// The nonce of the first period of 300 seconds.
const FIRST: &[u8] = b"nwzZuUCX_kkpkY0riUKzRDlXQmGjXcUBY_BsZ9TkiJk";

/// Secrets, periods, moments and nonces, which are from Python's hmac.
static NONCES: [(&[u8], u32, i64, &[u8]); 9] = [
    (SECRET, 300, 0, FIRST),
    (SECRET, 300, 299, FIRST),
    (SECRET, 300, -1, FIRST),
    (SECRET, 300, i64::MIN, FIRST),
    (
        SECRET,
        300,
        300,
        b"xDLgWcN47vf-LxGBpAUINvUeCFb9dJN76BeE-g76ehw",
    ),
    (
        SECRET,
        300,
        1_700_000_000,
        b"fdsa7SV0-mwnIO2JHyjPzqPl9f-EmyECOeNtXhUDeWk",
    ),
    (
        SECRET,
        1,
        i64::MAX,
        b"I60pAzZyU4s8N5IdW3x52VgJN8dgGKu8eKwa-6IKAY0",
    ),
    (
        SECRET,
        u32::MAX,
        i64::MAX,
        b"l6L_HiRaa0fIY78b3UqbSafsQKY91RP-96-nvN_ZUTY",
    ),
    (
        LONG,
        300,
        1_700_000_000,
        b"PCnl3lU87noV2xz8OEiB2EhQfTeqb9tGk6Od7Zl1nWI",
    ),
];

/// A period has the nonce that Python's hmac makes.
#[test]
fn a_period_has_a_nonce(rt: HostRuntime) -> Result<(), Fail> {
    for &(secret, period, now, wanted) in &NONCES {
        let Some(nonces) = Nonces::of(secret, period) else {
            return Err(Fail::from("no nonces"));
        };
        holds(&rt, nonces.at(now).as_slice() == wanted);
    }
    holds(&rt, Nonces::of(&SECRET[..31], 300).is_none());
    holds(&rt, Nonces::of(b"", 300).is_none());
    holds(&rt, Nonces::of(SECRET, 0).is_none());
    Ok(())
}

/// Moments, and whether the nonce of the period from 1699999800 on is taken then.
static MOMENTS: [(i64, bool); 8] = [
    (i64::MIN, false),
    (0, false),
    (1_699_999_799, false),
    (1_699_999_800, true),
    (1_700_000_099, true),
    (1_700_000_399, true),
    (1_700_000_400, false),
    (i64::MAX, false),
];

/// A nonce is good in its period and in the next.
#[test]
fn a_nonce_is_good_for_two_periods(rt: HostRuntime) -> Result<(), Fail> {
    let alloc = rt.alloc();
    let timely = claims_of(
        alloc,
        r#"{"nonce":"fdsa7SV0-mwnIO2JHyjPzqPl9f-EmyECOeNtXhUDeWk"}"#,
    )?;
    let first = claims_of(
        alloc,
        r#"{"nonce":"nwzZuUCX_kkpkY0riUKzRDlXQmGjXcUBY_BsZ9TkiJk"}"#,
    )?;
    let listed = claims_of(
        alloc,
        r#"{"nonce":["nwzZuUCX_kkpkY0riUKzRDlXQmGjXcUBY_BsZ9TkiJk"]}"#,
    )?;
    let none = claims_of(alloc, "{}")?;
    let Some(nonces) = Nonces::of(SECRET, 300) else {
        return Err(Fail::from("no nonces"));
    };
    for &(now, wanted) in &MOMENTS {
        assert_eq!(rt; nonces.accepts(&timely, now), wanted, "{now}");
    }
    holds(
        &rt,
        nonces.accepts(&first, -1) && nonces.accepts(&first, 599),
    );
    holds(
        &rt,
        !nonces.accepts(&first, 600) && !nonces.accepts(&listed, 0) && !nonces.accepts(&none, 0),
    );
    proofs_have_no_fault();
    Ok(())
}

/// The names of a policy's algorithms, in a room that is too small by one and in one that is larger.
#[test]
fn algorithms_are_named_with_spaces(rt: HostRuntime) -> Result<(), Fail> {
    let Ok(policy) = ProofPolicy::read(rt.alloc(), POLICY.as_bytes()) else {
        return Err(Fail::from("no policy"));
    };
    let mut room = [b'!'; 40];
    holds(&rt, policy.write_algs(&mut room[..34]) == None);
    holds(&rt, &room[..] == [b'!'; 40].as_slice());
    holds(&rt, policy.write_algs(&mut room) == Some(35));
    holds(
        &rt,
        &room[..] == b"ES256 ES384 ES512 RS256 PS256 EdDSA!!!!!".as_slice(),
    );
    Ok(())
}
