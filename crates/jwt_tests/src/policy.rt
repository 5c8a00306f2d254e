//! Policies, bars, eligible pairs and claims.
use crate::asserted::holds;
use crate::read::policy_of;
use jwt_jws::parse;
use jwt_keys::Key;
use jwt_mac::Verifier;
use jwt_policy::SigFault::{
    AlgNone, AlgNotAllowed, AlgUnknown, CritShape, Nested, NoVerifier, TypMismatch, Unencoded,
};
use jwt_policy::{
    ClaimFault, Claims, Policy, PolicyFault, SigFault, alg_or_bar, bar, check, eligible, fits,
    known_alg,
};
use jwt_support::examples::{HS256, key_set};
use jwt_support::texts::nested;
use jwt_support::verifiers::{SAME, TestVerifier};
use jwt_text::encode_text;
use std::alloc::Global;
use std::process::Abort;
use std::test::Fail;

/// A policy that says something about everything.
const FULL: &str =
    r#"{"version":2,"algs":["EdDSA","HS512"],"mode":"all","limit":1048576,"work":0,"max_signatures":32,"line_feed":true,"typ":"JWT","need_kid":true,"thumb_kid":true,"understood":["x"],"issuers":["ann","bob"],"audiences":["api"],"required":["sub"],"leeway":86400,"max_age":4294967295,"max_calls":32768}"#;

// ---- documents

/// A fault with the member that it names.
fn policy_fault(alloc: Global, fault: &PolicyFault) -> Result<String, Fail> {
    let text = match fault {
        PolicyFault::Member(name) | PolicyFault::Range(name) => {
            format!(in alloc; "{} {}", fault.name(), name.text())?
        }
        _ => String::from_str(alloc, fault.name())?,
    };
    Ok(text)
}

/// The fault of a document with the member that it names, or `read`.
fn refusal(alloc: Global, document: &[u8]) -> Result<String, Fail> {
    match &Policy::read(alloc, document) {
        Ok(_policy) => Ok(String::from_str(alloc, "read")?),
        Err(fault) => policy_fault(alloc, fault),
    }
}

/// Documents, and what is said of each: `read`, or the fault with the member that it names.
static DOCUMENTS: [(&str, &str); 13] = [
    ("[]", "Json"),
    (r#"{"zz":1,"zz":2}"#, "NameTwice"),
    ("{}", "NoAlgorithm"),
    (r#"{"algs":[]}"#, "NoAlgorithm"),
    (r#"{"algs":["HS256"],"exp":1}"#, "Member exp"),
    (r#"{"algs":["none"]}"#, "Range algs"),
    (r#"{"algs":["HS256"],"leeway":86401}"#, "Range leeway"),
    (r#"{"algs":["HS256"],"leeway":-1}"#, "Range leeway"),
    (r#"{"algs":["HS256"],"leeway":1.5}"#, "Member leeway"),
    (r#"{"version":3,"algs":["HS256"]}"#, "Range version"),
    (r#"{"algs":["HS256"],"max_calls":1}"#, "Member max_calls"),
    (
        r#"{"version":2,"algs":["HS256"],"max_calls":32769}"#,
        "Range max_calls",
    ),
    (FULL, "read"),
];

/// Asserts that each document is read, or refused as it says.
fn assert_documents(rt: &impl Abort, alloc: Global, rows: &[(&str, &str)]) -> Result<(), Fail> {
    for &(document, want) in rows {
        let found = refusal(alloc, document.as_bytes())?;
        assert_eq!(rt; found.as_str(), want, "at {document}");
    }
    Ok(())
}

/// Each document is a policy, or is refused for the first fault that holds.
#[test]
fn a_document_is_read_or_refused_for_its_first_fault(rt: HostRuntime) -> Result<(), Fail> {
    assert_documents(&rt, rt.alloc(), &DOCUMENTS)
}

/// One octet more is refused before anything is read.
#[test]
fn a_document_has_at_most_65536_octets(rt: HostRuntime) -> Result<(), Fail> {
    let alloc = rt.alloc();
    let mut document = Vec::from_slice(alloc, HS256.as_bytes())?;
    document.resize(65_536, b' ')?;
    assert_eq!(rt; refusal(alloc, &document)?.as_str(), "read");
    document.push(b' ')?;
    assert_eq!(rt; refusal(alloc, &document)?.as_str(), "TooLong");
    Ok(())
}

// ---- headers

/// A flattened token with these headers; the second is left out where it is empty.
fn flattened(alloc: Global, protected: &str, unprotected: &str) -> Result<String, Fail> {
    let text = encode_text(alloc, protected.as_bytes())?;
    let token = if unprotected.is_empty() {
        format!(in alloc; r#"{{"payload":"e30","protected":"{text}","signature":"AQAB"}}"#)?
    } else {
        format!(in alloc;
            r#"{{"payload":"e30","protected":"{text}","header":{unprotected},"signature":"AQAB"}}"#
        )?
    };
    Ok(token)
}

/// The bar of the first signature of a token, without verifiers.
fn bar_in(alloc: Global, policy: &Policy, token: &str) -> Result<Option<SigFault>, Fail> {
    let signed = parse(alloc, token.as_bytes(), 1).ok().ok_or("no token")?;
    let signature = signed.signature(0).ok_or("no signature")?;
    let verifiers: [Box<dyn Verifier>; 0] = [];
    let found = bar(policy, signature, &verifiers);
    let same = match alg_or_bar(policy, signature, &verifiers) {
        Ok(alg) => found.is_none() && known_alg(signature) == Some(alg),
        Err(fault) => found == Some(fault),
    };
    if !same {
        return Err("the bar by one call, and another or none by the other".into());
    }
    Ok(found)
}

/// The bar of a signature with this protected header.
fn bar_of(alloc: Global, policy: &str, protected: &str) -> Result<Option<SigFault>, Fail> {
    let policy = policy_of(alloc, policy)?;
    let token = flattened(alloc, protected, "")?;
    bar_in(alloc, &policy, &token)
}

/// A policy of RS256 alone.
const RS256: &str = r#"{"algs":["RS256"]}"#;

/// A policy that asks for a type.
const TYPED: &str = r#"{"algs":["HS256"],"typ":"at+jwt"}"#;

/// A policy, the protected header of a signature, and its bar.
static BARS: [(&str, &str, Option<SigFault>); 12] = [
    (HS256, r#"{"alg":"HS256"}"#, None),
    (HS256, r#"{"alg":"none"}"#, Some(AlgNone)),
    (HS256, r#"{"alg":"hs256"}"#, Some(AlgUnknown)),
    (HS256, r#"{"alg":"HS384"}"#, Some(AlgNotAllowed)),
    (RS256, r#"{"alg":"RS256"}"#, Some(NoVerifier)),
    (
        HS256,
        r#"{"alg":"HS256","crit":["b64"],"b64":false}"#,
        Some(Unencoded),
    ),
    (HS256, r#"{"alg":"HS256","crit":[]}"#, Some(CritShape)),
    (HS256, r#"{"alg":"HS256","crit":["x"]}"#, Some(CritShape)),
    (HS256, r#"{"alg":"HS256","crit":["alg"]}"#, Some(CritShape)),
    (TYPED, r#"{"alg":"HS256","typ":"JWT"}"#, Some(TypMismatch)),
    (TYPED, r#"{"alg":"HS256","typ":"application/AT+JWT"}"#, None),
    (HS256, r#"{"alg":"HS256","cty":"jwt"}"#, Some(Nested)),
];

/// Asserts that each signature has its bar.
fn assert_bars(
    rt: &impl Abort,
    alloc: Global,
    rows: &[(&str, &str, Option<SigFault>)],
) -> Result<(), Fail> {
    for &(policy, protected, want) in rows {
        let found = bar_of(alloc, policy, protected)?;
        assert_eq!(rt; found, want, "at {protected}");
    }
    Ok(())
}

/// A signature's bar is the first that holds; of a signature that none bars there is none.
#[test]
fn the_first_bar_is_answered(rt: HostRuntime) -> Result<(), Fail> {
    assert_bars(&rt, rt.alloc(), &BARS)
}

// ---- keys

/// The secret of 64 octets of RFC 7515, appendix A.1, without its closing brace.
const SECRET: &str = r#"{"kty":"oct","k":"<KEY_A>""#;

/// The key of RFC 7638, section 3.1, without its `kid` and its closing brace.
const RSA: &str = r#"{"kty":"RSA","n":"<RSA_N>","e":"AQAB","alg":"RS256""#;

/// Whether a key is eligible for the first signature of a token; what is eligible fits.
fn is_eligible_in(alloc: Global, policy: &Policy, token: &str, key: &Key) -> Result<bool, Fail> {
    let signed = parse(alloc, token.as_bytes(), 1).ok().ok_or("no token")?;
    let signature = signed.signature(0).ok_or("no signature")?;
    let same: Box<dyn Verifier> = Box::new(alloc, TestVerifier { kind: SAME })?;
    let found = eligible(policy, signature, key, &[same]);
    let fit = match known_alg(signature) {
        Some(alg) => fits(policy, signature, alg, key),
        None => false,
    };
    if found && !fit {
        return Err("eligible and unfit".into());
    }
    Ok(found)
}

/// Whether a key is eligible for a signature with these headers, with a verifier of RS256.
fn is_eligible(
    alloc: Global,
    policy: &str,
    protected: &str,
    unprotected: &str,
    key: &str,
) -> Result<bool, Fail> {
    let policy = policy_of(alloc, policy)?;
    let token = flattened(alloc, protected, unprotected)?;
    let keys = key_set(alloc, key)?;
    let key = keys.key(0).ok_or("no key")?;
    is_eligible_in(alloc, &policy, &token, key)
}

/// The header of a signature by HS256.
const BY_HS256: &str = r#"{"alg":"HS256"}"#;

/// The header of a signature by RS256.
const BY_RS256: &str = r#"{"alg":"RS256"}"#;

/// A policy of two algorithms.
const TWO: &str = r#"{"algs":["HS256","RS256"]}"#;

/// A policy that takes a thumbprint for a `kid`.
const BY_THUMBPRINT: &str = r#"{"algs":["RS256"],"thumb_kid":true}"#;

/// An unprotected header with the thumbprint of the public key.
const OF_RSA: &str = r#"{"kid":"NzbLsXh8uDCcd-6MNwXF4W_7noWXFZAfHkxZsRGC9Xs"}"#;

/// A secret of 19 octets, without its closing brace.
const SHORT: &str = r#"{"kty":"oct","k":"eW91ci0yNTYtYml0LXNlY3JldA""#;

/// A policy, the two headers of a signature, a key and more members of it, and whether the key is eligible.
static PAIRS: [(&str, &str, &str, &str, &str, bool); 10] = [
    (HS256, BY_HS256, "", SECRET, "", true),
    (HS256, BY_HS256, "", SHORT, "", false),
    (TWO, BY_RS256, "", RSA, "", true),
    (HS256, BY_HS256, "", SECRET, r#","alg":"HS384""#, false),
    (HS256, BY_HS256, "", SECRET, r#","use":"enc""#, false),
    (HS256, BY_HS256, "", SECRET, r#","key_ops":["sign"]"#, false),
    (HS256, BY_HS256, r#"{"kid":"x"}"#, SECRET, "", false),
    (HS256, BY_HS256, "", SECRET, r#","kid":"y""#, true),
    (TWO, BY_RS256, OF_RSA, RSA, "", false),
    (BY_THUMBPRINT, BY_RS256, OF_RSA, RSA, "", true),
];

/// Asserts that each key is eligible, or isn't.
fn assert_pairs(
    rt: &impl Abort,
    alloc: Global,
    rows: &[(&str, &str, &str, &str, &str, bool)],
) -> Result<(), Fail> {
    for &(policy, protected, unprotected, key, more, want) in rows {
        let key = format!(in alloc; "{key}{more}}}")?;
        let found = is_eligible(alloc, policy, protected, unprotected, key.as_str())?;
        assert_eq!(rt; found, want, "at {protected} {unprotected} {more}");
    }
    Ok(())
}

/// A key is eligible by kind and size, by its own members, and by `kid` where the signature has one.
#[test]
fn a_key_is_eligible_by_kind_members_and_kid(rt: HostRuntime) -> Result<(), Fail> {
    assert_pairs(&rt, rt.alloc(), &PAIRS)
}

// ---- claims

/// A fault with the claim that it names.
fn claim_fault(alloc: Global, fault: &ClaimFault<'_>) -> Result<String, Fail> {
    let text = match fault {
        ClaimFault::ClaimKind(claim) | ClaimFault::ClaimDate(claim) => {
            format!(in alloc; "{} {}", fault.name(), claim.name())?
        }
        ClaimFault::ClaimMissing(name) => format!(in alloc; "{} {}", fault.name(), name.text())?,
        _ => String::from_str(alloc, fault.name())?,
    };
    Ok(text)
}

/// What `check` says of claims, or `none`.
fn check_fault(alloc: Global, policy: &Policy, claims: &Claims, now: i64) -> Result<String, Fail> {
    match &check(policy, claims, now) {
        None => Ok(String::from_str(alloc, "none")?),
        Some(fault) => claim_fault(alloc, fault),
    }
}

/// The fault of claims with the claim that it names, or `none`.
fn fault_of(alloc: Global, policy: &Policy, payload: &str, now: i64) -> Result<String, Fail> {
    match &Claims::read(alloc, payload.as_bytes()) {
        Ok(claims) => check_fault(alloc, policy, claims, now),
        Err(fault) => claim_fault(alloc, fault),
    }
}

/// A policy with a leeway of one second.
const LENIENT: &str = r#"{"algs":["HS256"],"leeway":1}"#;

/// A policy with the greatest leeway.
const MOST: &str = r#"{"algs":["HS256"],"leeway":86400}"#;

/// A policy that asks for an age.
const AGED: &str = r#"{"algs":["HS256"],"max_age":10}"#;

/// A policy, claims, the moment, and what is said of the claims: `none`, or the fault with the claim that it names.
static CLAIMS: [(&str, &str, i64, &str); 18] = [
    (HS256, "{}", 0, "none"),
    (HS256, "[]", 0, "ClaimsShape"),
    (HS256, r#"{"a":1,"a":1}"#, 0, "ClaimsShape"),
    (HS256, r#"{"exp":"1"}"#, 0, "ClaimKind exp"),
    (HS256, r#"{"exp":1e3}"#, 0, "ClaimDate exp"),
    (HS256, r#"{"exp":9223372036854775808}"#, 0, "ClaimDate exp"),
    (HS256, r#"{"exp":100}"#, 99, "none"),
    (HS256, r#"{"exp":100}"#, 100, "Expired"),
    (LENIENT, r#"{"exp":100}"#, 100, "none"),
    (HS256, r#"{"nbf":100}"#, 99, "NotYet"),
    (LENIENT, r#"{"nbf":100}"#, 99, "none"),
    (AGED, r#"{"iat":100}"#, 99, "IssuedLater"),
    (AGED, r#"{"iat":100}"#, 110, "none"),
    (AGED, r#"{"iat":100}"#, 111, "TooOld"),
    (AGED, "{}", 0, "ClaimMissing iat"),
    (HS256, r#"{"aud":"a"}"#, 0, "Audience"),
    (MOST, r#"{"exp":9223372036854775807}"#, i64::MAX, "none"),
    (
        HS256,
        r#"{"exp":-9223372036854775808}"#,
        i64::MIN,
        "Expired",
    ),
];

/// Asserts that claims hold, or are refused as they say.
fn assert_claims(
    rt: &impl Abort,
    alloc: Global,
    rows: &[(&str, &str, i64, &str)],
) -> Result<(), Fail> {
    for &(policy, payload, now, want) in rows {
        let policy = policy_of(alloc, policy)?;
        let found = fault_of(alloc, &policy, payload, now)?;
        assert_eq!(rt; found.as_str(), want, "at {payload} {now}");
    }
    Ok(())
}

/// Claims hold under a policy at a moment, or are refused for the first fault that holds (RFC 7519, section 4.1).
#[test]
fn claims_hold_or_are_refused_for_their_first_fault(rt: HostRuntime) -> Result<(), Fail> {
    assert_claims(&rt, rt.alloc(), &CLAIMS)
}

/// What is said of claims that nest so deep.
fn nested_fault(alloc: Global, lists: usize) -> Result<String, Fail> {
    let policy = policy_of(alloc, HS256)?;
    let payload = nested(alloc, lists)?;
    fault_of(alloc, &policy, &payload, 0)
}

/// Claims nest as deep as any text that is read, and no deeper.
#[test]
fn claims_nest_127_deep(rt: HostRuntime) -> Result<(), Fail> {
    for (lists, want) in [(126, "none"), (127, "ClaimsShape")] {
        let found = nested_fault(rt.alloc(), lists)?;
        assert!(rt; found.as_str() == want, "{lists}");
    }
    Ok(())
}

/// Whether a policy is read, or memory was refused.
fn is_read_or_lacks(alloc: Global) -> bool {
    match &Policy::read(alloc, FULL.as_bytes()) {
        Ok(policy) => policy.max_calls() == Some(32_768),
        Err(fault) => matches!(fault, PolicyFault::OutOfMemory),
    }
}

/// Whether a policy is refused for its `algs`, or memory was refused.
fn is_refused_or_lacks(alloc: Global) -> bool {
    match &Policy::read(alloc, br#"{"algs":["none"]}"#) {
        Ok(_) => false,
        Err(PolicyFault::Range(name)) => name.text() == "algs",
        Err(fault) => matches!(fault, PolicyFault::OutOfMemory),
    }
}

/// Whether claims are read, or memory was refused.
fn are_read_or_lack(alloc: Global) -> bool {
    match &Claims::read(alloc, br#"{"aud":["a"],"exp":5}"#) {
        Ok(claims) => claims.exp() == Some(5),
        Err(fault) => matches!(fault, ClaimFault::OutOfMemory),
    }
}

/// Run with each allocation refused in turn.
#[test]
fn a_refused_growth_is_out_of_memory(rt: HostRuntime) {
    let alloc = rt.alloc();
    holds(&rt, is_read_or_lacks(alloc));
    holds(&rt, is_refused_or_lacks(alloc));
    holds(&rt, are_read_or_lack(alloc));
}
