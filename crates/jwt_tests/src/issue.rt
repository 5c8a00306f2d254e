//! Issuing.
ghost use Rattle.std.specs.Prelude.{◌≤◌};

use crate::asserted::holds;
use jwt_issue::{BuildFault, Builder, ClaimSet, IssueFault, issue_compact, issue_flat, issue_json};
use jwt_keys::{Key, KeySet};
use jwt_mac::{Alg, Budget, CountUp};
use jwt_policy::{Claim, ClaimFault};
use jwt_support::examples::key_set;
use std::alloc::{AllocError, Global};
use std::test::Fail;

/// 0: 32 zero octets. 1: the 64 octets of the key of RFC 7515, appendix A.1. 2: 19 octets. 3: that may only verify. 4: for HS512,
/// with a `kid` that JSON escapes. 5: with a `kid`. 6: a public key. 7: for HS384.
const KEYS: &str =
    r#"{"kty":"oct","k":"<ZEROS>"},{"kty":"oct","k":"<KEY_A>"},{"kty":"oct","k":"eW91ci0yNTYtYml0LXNlY3JldA"},{"kty":"oct","k":"<ZEROS>","key_ops":["verify"]},{"kty":"oct","k":"<KEY_A>","kid":"a\"b","alg":"HS512","use":"sig","key_ops":["verify","sign"]},{"kty":"oct","k":"<ZEROS>","kid":"z"},{"kty":"OKP","crv":"Ed25519","x":"<ED25519_X>"},{"kty":"oct","k":"<KEY_A>","alg":"HS384"}"#;

/// The compact token of the first key over `{}`, with the type `JWT`.
const COMPACT: &str =
    "eyJhbGciOiJIUzI1NiIsInR5cCI6IkpXVCJ9.e30.LwimMJA3puF3ioGeS-tfczR3370GXBZMIL-bdpu4hOU";

/// The compact token of the key with a `kid` that JSON escapes over `{ "sub" : "a" }`, with the type `JWT`.
const ESCAPED: &str =
    "eyJhbGciOiJIUzUxMiIsImtpZCI6ImFcImIiLCJ0eXAiOiJKV1QifQ.eyAic3ViIiA6ICJhIiB9.XeTBeEBBT8maZ2pHHI09kc9juhODThs-de7o_jbnRfDF9SFKAV3HDzvN-PbmEH2j65WS3qcmablkQoXSV8Bihg";

/// The flattened token of the first key over `{}`.
const FLAT: &str =
    r#"{"payload":"e30","protected":"eyJhbGciOiJIUzI1NiJ9","signature":"4E_Bsx-pJi3kOW9wVXN8CgbATwP09D9V5gxh9-9zSZ0"}"#;

/// The general token of the first key over `{}`.
const ONE: &str =
    r#"{"payload":"e30","signatures":[{"protected":"eyJhbGciOiJIUzI1NiJ9","signature":"4E_Bsx-pJi3kOW9wVXN8CgbATwP09D9V5gxh9-9zSZ0"}]}"#;

/// That of the first two keys.
const TWO: &str =
    r#"{"payload":"e30","signatures":[{"protected":"eyJhbGciOiJIUzI1NiJ9","signature":"4E_Bsx-pJi3kOW9wVXN8CgbATwP09D9V5gxh9-9zSZ0"},{"protected":"eyJhbGciOiJIUzI1NiJ9","signature":"kV_0TaAytE8UYEw3uFsmhDVFEgvnO6S_dA8UnWQoxmU"}]}"#;

/// That of two algorithms, the first key with a `kid`.
const MIXED: &str =
    r#"{"payload":"e30","signatures":[{"protected":"eyJhbGciOiJIUzI1NiIsImtpZCI6InoifQ","signature":"yR_En525gZO77tNpMQRqWnDdSF74ogUserW4rmcufrs"},{"protected":"eyJhbGciOiJIUzUxMiJ9","signature":"qsJLsAzJkTrPsL1a7aTk4GqhNiQPT7CmVzuoocL8HjbdEWkInaDqf_9ypJVrTXTIWz3G9wW4kF7wvUPJwSxYWg"}]}"#;

/// The claims of these members.
fn claims(alloc: Global, text: &str) -> Option<ClaimSet> {
    let octets = text.as_bytes().to_vec(alloc).ok()?;
    ClaimSet::from_octets(alloc, octets).ok()
}

/// What was issued, or why nothing was; the octets that were fed, and the calls.
#[derive(Drop)]
struct Issued {
    token: Result<Vec<u8>, IssueFault>,
    octets: u64,
    calls: u32,
}

/// How a token of one signature is issued.
#[derive(Clone, Copy)]
enum IssuedForm {
    Compact,
    Flat,
}

/// What a token is issued from.
#[derive(Clone, Copy)]
struct IssueOrder {
    form: IssuedForm,
    alg: Alg,
    /// The number of the key.
    key: u32,
    typ: Option<&'static str>,
    claims: &'static str,
    ceiling: u64,
}

/// That of [`COMPACT`].
const FIRST: IssueOrder = IssueOrder {
    form: IssuedForm::Compact,
    alg: Alg::HS256,
    key: 0,
    typ: Some("JWT"),
    claims: "{}",
    ceiling: 1_000,
};

/// What is issued from it.
fn issue_from(alloc: Global, order: IssueOrder) -> Option<Issued> {
    let keys = key_set(alloc, KEYS).ok()?;
    let key = keys.key(order.key)?;
    let claims = claims(alloc, order.claims)?;
    let mut budget = CountUp::new(order.ceiling);
    let token = match order.form {
        IssuedForm::Compact => issue_compact(
            alloc,
            &mut budget,
            order.alg,
            key,
            order.typ,
            &claims,
        ),
        IssuedForm::Flat => issue_flat(alloc, &mut budget, order.alg, key, order.typ, &claims),
    };
    Some(Issued {
        token,
        octets: budget.octets(),
        calls: budget.calls(),
    })
}

/// Whether this token was issued, at this cost and by one call.
fn is_issued(issued: &Issued, token: &str, cost: u64) -> bool {
    match &issued.token {
        Ok(found) => {
            found.as_slice() == token.as_bytes() && issued.octets == cost && issued.calls == 1
        }
        Err(_) => false,
    }
}

/// Whether nothing was issued for this fault, and so many octets and calls paid.
fn is_unissued(issued: &Issued, fault: IssueFault, octets: u64, calls: u32) -> bool {
    issued.token.as_ref().err() == Some(&fault) && issued.octets == octets && issued.calls == calls
}

/// Whether this token is issued from an order, at this cost and by one call.
fn issues(alloc: Global, order: IssueOrder, token: &str, cost: u64) -> bool {
    match issue_from(alloc, order) {
        Some(issued) => is_issued(&issued, token, cost),
        None => false,
    }
}

/// A token in compact form is the one that is stated, octet by octet.
#[test]
fn tokens_in_compact_form(rt: HostRuntime) {
    holds(&rt, issues(rt.alloc(), FIRST, COMPACT, 200));
    let order = IssueOrder {
        alg: Alg::HS512,
        key: 4,
        claims: r#"{ "sub" : "a" }"#,
        ..FIRST
    };
    holds(&rt, issues(rt.alloc(), order, ESCAPED, 395));
}

/// That of [`FLAT`].
const FLATTENED: IssueOrder = IssueOrder {
    form: IssuedForm::Flat,
    typ: None,
    ..FIRST
};

/// A token in flattened form is the one that is stated, octet by octet.
#[test]
fn tokens_in_flattened_form(rt: HostRuntime) {
    holds(&rt, issues(rt.alloc(), FLATTENED, FLAT, 184));
}

/// What may not sign: an algorithm, a key, and why.
static UNFIT: [(Alg, u32, IssueFault); 8] = [
    (Alg::RS256, 0, IssueFault::AlgNotHmac(0)),
    (Alg::EdDSA, 6, IssueFault::AlgNotHmac(0)),
    (Alg::HS256, 2, IssueFault::KeyUnfit(0)),
    (Alg::HS256, 3, IssueFault::KeyUnfit(0)),
    (Alg::HS256, 4, IssueFault::KeyUnfit(0)),
    (Alg::HS256, 6, IssueFault::KeyUnfit(0)),
    (Alg::HS384, 0, IssueFault::KeyUnfit(0)),
    (Alg::HS512, 7, IssueFault::KeyUnfit(0)),
];

/// Whether nothing is issued in this form for this fault, and nothing paid.
fn refuses(alloc: Global, form: IssuedForm, alg: Alg, key: u32, fault: IssueFault) -> bool {
    let order = IssueOrder {
        form,
        alg,
        key,
        typ: None,
        ceiling: 0,
        ..FIRST
    };
    match issue_from(alloc, order) {
        Some(issued) => is_unissued(&issued, fault, 0, 0),
        None => false,
    }
}

/// A key of another kind, size, use or algorithm signs nothing.
#[test]
fn keys_that_may_not_sign(rt: HostRuntime) {
    for &(alg, key, fault) in &UNFIT {
        assert!(rt;
            refuses(rt.alloc(), IssuedForm::Compact, alg, key, fault),
            "{alg:?} by {key}"
        );
        assert!(rt;
            refuses(rt.alloc(), IssuedForm::Flat, alg, key, fault),
            "{alg:?} by {key}"
        );
    }
}

/// These keys with their algorithms.
fn pairs_of<'k>(
    alloc: Global,
    keys: &'k KeySet,
    numbers: &[(Alg, u32)],
) -> Option<Vec<(Alg, &'k Key)>> {
    let mut pairs = Vec::new(alloc);
    for &(alg, number) in numbers {
        pairs.push((alg, keys.key(number)?)).ok()?;
    }
    Some(pairs)
}

/// The general token that these keys sign over `{}`, with a type or without.
fn issue_general(
    alloc: Global,
    numbers: &[(Alg, u32)],
    typ: Option<&str>,
    ceiling: u64,
) -> Option<Issued> {
    let keys = key_set(alloc, KEYS).ok()?;
    let pairs = pairs_of(alloc, &keys, numbers)?;
    let claims = claims(alloc, "{}")?;
    let mut budget = CountUp::new(ceiling);
    let token = issue_json(alloc, &mut budget, &pairs, typ, &claims);
    Some(Issued {
        token,
        octets: budget.octets(),
        calls: budget.calls(),
    })
}

/// Algorithms and keys, the token that they sign, and what it costs.
static GENERAL: [(&[(Alg, u32)], &str, u64); 3] = [
    (&[(Alg::HS256, 0)], ONE, 184),
    (&[(Alg::HS256, 0), (Alg::HS256, 1)], TWO, 368),
    (&[(Alg::HS256, 5), (Alg::HS512, 1)], MIXED, 542),
];

/// Whether these keys sign this token, at this cost.
fn issues_general(alloc: Global, numbers: &[(Alg, u32)], token: &str, cost: u64) -> bool {
    match issue_general(alloc, numbers, None, cost) {
        Some(issued) => match &issued.token {
            Ok(found) => found.as_slice() == token.as_bytes() && issued.octets == cost,
            Err(_) => false,
        },
        None => false,
    }
}

/// A token in general form has its signatures in the order of their keys.
#[test]
fn tokens_in_general_form(rt: HostRuntime) {
    for &(numbers, token, cost) in &GENERAL {
        assert!(rt; issues_general(rt.alloc(), numbers, token, cost), "{token}");
    }
}

/// Algorithms and keys, a ceiling, why nothing is issued, and the octets and calls that are paid.
static UNFIT_GENERAL: [(&[(Alg, u32)], u64, IssueFault, (u64, u32)); 4] = [
    (
        &[(Alg::HS256, 0), (Alg::HS256, 1)],
        367,
        IssueFault::Spent(1),
        (184, 1),
    ),
    (&[], 0, IssueFault::NoKey, (0, 0)),
    (
        &[(Alg::RS256, 0); 33],
        0,
        IssueFault::TooManySignatures,
        (0, 0),
    ),
    (
        &[(Alg::HS256, 0), (Alg::HS256, 2), (Alg::RS256, 0)],
        0,
        IssueFault::KeyUnfit(1),
        (0, 0),
    ),
];

/// Whether these keys sign nothing under a ceiling, for this fault, and this is paid.
fn refuses_general(
    alloc: Global,
    numbers: &[(Alg, u32)],
    ceiling: u64,
    fault: IssueFault,
    paid: (u64, u32),
) -> bool {
    match issue_general(alloc, numbers, None, ceiling) {
        Some(issued) => is_unissued(&issued, fault, paid.0, paid.1),
        None => false,
    }
}

/// A token is refused for the first pair of options and key that may not sign.
#[test]
fn pairs_that_may_not_sign(rt: HostRuntime) {
    for &(numbers, ceiling, fault, paid) in &UNFIT_GENERAL {
        assert!(rt;
            refuses_general(rt.alloc(), numbers, ceiling, fault, paid),
            "{fault:?}"
        );
    }
}

/// Claims of so many octets: an object and white space.
fn padded(alloc: Global, len: usize) -> Option<ClaimSet>
    requires { 2 ≤ len }
{
    let mut octets = Vec::with_capacity(alloc, len).ok()?;
    octets.extend_from_slice(b"{}").ok()?;
    octets.resize(len, b' ').ok()?;
    ClaimSet::from_octets(alloc, octets).ok()
}

/// The length of the compact token of the first key over claims of so many octets, or why there is none; and the octets that were
/// fed.
fn length_over(alloc: Global, len: usize) -> Option<(Result<usize, IssueFault>, u64)>
    requires { 2 ≤ len }
{
    let keys = key_set(alloc, KEYS).ok()?;
    let claims = padded(alloc, len)?;
    let mut budget = CountUp::new(2_000_000);
    let token = issue_compact(alloc, &mut budget, Alg::HS256, keys.key(0)?, None, &claims);
    Some((token.map(|octets| octets.len()), budget.octets()))
}

/// One octet more is refused.
#[test]
fn the_longest_token_has_1048576_octets(rt: HostRuntime) -> Result<(), Fail> {
    let (length, _) = length_over(rt.alloc(), 786_383).ok_or("no key")?;
    assert_eq!(rt; length, Ok(1_048_576));
    let found = length_over(rt.alloc(), 786_384).ok_or("no key")?;
    assert_eq!(rt; found, (Err(IssueFault::TooLong), 0));
    Ok(())
}

/// The text of claims that are gathered, where a name that stands already is refused.
fn gathered(alloc: Global) -> Result<ClaimSet, Fail> {
    let mut builder = Builder::new(alloc);
    builder.text("sub", "a")?;
    builder.whole("exp", 5)?;
    builder.flag("b", true)?;
    builder.audience(&["x", "y"])?;
    if builder.text("sub", "b") != Err(BuildFault::NameTwice) {
        return Err("a name twice".into());
    }
    Ok(builder.finish().ok().ok_or("no claims")?)
}

/// Claims of several documents are one object, in which no name stands twice.
#[test]
fn claims_are_gathered_by_name(rt: HostRuntime) -> Result<(), Fail> {
    let claims = gathered(rt.alloc())?;
    let text = r#"{"aud":["x","y"],"b":true,"exp":5,"sub":"a"}"#;
    holds(&rt, claims.octets() == text.as_bytes());
    Ok(())
}

/// Whether claims with a text for their end are refused for that.
fn refuses_text_for_date(alloc: Global) -> Result<bool, BuildFault> {
    let mut builder = Builder::new(alloc);
    builder.text("exp", "x")?;
    Ok(matches!(builder.finish(), Err(ClaimFault::ClaimKind(Claim::Exp))))
}

/// Whether a list is refused as no claims.
fn refuses_list(alloc: Global) -> Result<bool, AllocError> {
    let list = b"[]".to_vec(alloc)?;
    let read = ClaimSet::from_octets(alloc, list);
    Ok(matches!(read, Err(ClaimFault::ClaimsShape)))
}

/// A registered claim of another kind isn't issued.
#[test]
fn claims_of_another_kind_are_refused(rt: HostRuntime) -> Result<(), Fail> {
    holds(&rt, refuses_text_for_date(rt.alloc())?);
    holds(&rt, refuses_list(rt.alloc())?);
    Ok(())
}

/// The general token of the first key twice over `{}`, with the type `JWT`.
const TYPED: &str =
    r#"{"payload":"e30","signatures":[{"protected":"eyJhbGciOiJIUzI1NiIsInR5cCI6IkpXVCJ9","signature":"LwimMJA3puF3ioGeS-tfczR3370GXBZMIL-bdpu4hOU"},{"protected":"eyJhbGciOiJIUzI1NiIsInR5cCI6IkpXVCJ9","signature":"LwimMJA3puF3ioGeS-tfczR3370GXBZMIL-bdpu4hOU"}]}"#;

/// Whether it is this token at this cost, or an allocation was refused on the way.
fn is_or_lacks_memory(issued: Option<Issued>, token: &str, cost: u64) -> bool {
    let Some(issued) = issued else {
        return true;
    };
    match &issued.token {
        Ok(octets) => octets.as_slice() == token.as_bytes() && issued.octets == cost,
        Err(fault) => *fault == IssueFault::OutOfMemory,
    }
}

/// Run with each allocation refused in turn.
#[test]
fn a_refused_growth_is_out_of_memory(rt: HostRuntime) -> Result<(), Fail> {
    let alloc = rt.alloc();
    let compact = issue_from(alloc, FIRST);
    holds(&rt, is_or_lacks_memory(compact, COMPACT, 200));
    let flat = issue_from(alloc, FLATTENED);
    holds(&rt, is_or_lacks_memory(flat, FLAT, 184));
    let pairs = [(Alg::HS256, 0), (Alg::HS256, 0)];
    let general = issue_general(alloc, &pairs, Some("JWT"), 1_000);
    holds(&rt, is_or_lacks_memory(general, TYPED, 400));
    Ok(())
}
