//! The three forms of a signed token.
ghost use Rattle.std.specs.Prelude.{◌≤◌, ◌<◌};

use crate::asserted::holds;
use jwt_jws::{FormFault, Place, Signature, parse};
use jwt_support::examples::{TOKEN_A, filled};
use jwt_support::texts::{nested, repeated};
use jwt_text::encode;
use std::alloc::{AllocError, Global};
use std::process::Abort;
use std::test::Fail;

/// The fault of a token, where it has one.
fn fault_of(alloc: Global, octets: &[u8], most: u32) -> Option<FormFault>
    requires least { 0 < most }
    requires most { most ≤ 32 }
{
    match parse(alloc, octets, most) {
        Ok(_) => None,
        Err(fault) => Some(fault),
    }
}

/// Tokens, and the first cause why each is none. Names in angle brackets are those of [`filled`].
static CAUSES: [(&str, FormFault); 14] = [
    ("", FormFault::Empty),
    ("a.b", FormFault::Segments),
    ("a.b.c.d.e", FormFault::Encrypted),
    ("a.e3.c", FormFault::Base64(Place::Payload)),
    (".e30.", FormFault::Header(0)),
    ("e30.e30.AB", FormFault::Base64(Place::Signature(0))),
    ("{", FormFault::Json),
    (r#"{"ciphertext":7}"#, FormFault::Encrypted),
    (r#"{"signature":""}"#, FormFault::Members),
    (
        r#"{"payload":"e30","signature":"","signatures":[]}"#,
        FormFault::Members,
    ),
    (r#"{"payload":"e30","signatures":[]}"#, FormFault::Members),
    (
        r#"{"payload":"e30","header":7,"signature":""}"#,
        FormFault::UnprotectedKind(0),
    ),
    (
        r#"{"payload":"<PAYLOAD_A>","signatures":[{"protected":"<HEADER_A>","signature":"<SIGNATURE_A>","header":{"alg":"HS256"}}]}"#,
        FormFault::NamesOverlap(0),
    ),
    (
        r#"{"payload":"<PAYLOAD_A>","signatures":[{"protected":"<HEADER_A>","signature":"<SIGNATURE_A>","header":7}]}"#,
        FormFault::UnprotectedKind(0),
    ),
];

/// Asserts that each token is refused for its cause.
fn assert_causes(rt: &impl Abort, alloc: Global, rows: &[(&str, FormFault)]) -> Result<(), Fail> {
    for &(text, fault) in rows {
        let token = filled(alloc, text)?;
        assert_eq!(rt; fault_of(alloc, token.as_bytes(), 8), Some(fault), "{text}");
    }
    Ok(())
}

/// Octets that are no signed token are refused for the first cause that holds (RFC 7515, sections 5.2 and 7).
#[test]
fn names_the_first_cause(rt: HostRuntime) -> Result<(), Fail> {
    assert_causes(&rt, rt.alloc(), &CAUSES)
}

/// A general token of so many signatures, each with an empty header.
fn general(alloc: Global, count: usize) -> Result<String, AllocError> {
    let elements = repeated(alloc, r#"{"signature":""}"#, ",", count)?;
    format!(in alloc; r#"{{"payload":"e30","signatures":[{elements}]}}"#)
}

/// A token has at least one signature and at most as many as are allowed.
#[test]
fn counts_signatures(rt: HostRuntime) -> Result<(), Fail> {
    for (count, most, fault) in [
        (8, 8, None),
        (9, 8, Some(FormFault::TooManySignatures)),
        (32, 32, None),
        (33, 32, Some(FormFault::TooManySignatures)),
    ] {
        let token = general(rt.alloc(), count)?;
        assert_eq!(rt; fault_of(rt.alloc(), token.as_bytes(), most), fault);
    }
    Ok(())
}

/// A header nests as deep as any text that is read, and no deeper.
#[test]
fn reads_headers_nested_127_deep(rt: HostRuntime) -> Result<(), Fail> {
    for (lists, fault) in [(126, None), (127, Some(FormFault::Header(0)))] {
        let header = nested(rt.alloc(), lists)?;
        let mut token = encode(rt.alloc(), header.as_bytes())?;
        token.extend_from_slice(b".e30.")?;
        assert_eq!(rt; fault_of(rt.alloc(), token.as_slice(), 8), fault);
    }
    Ok(())
}

/// What a signature holds, as text: the octets of its protected text, the members of its protected header, its own octets, its `alg`
/// and its `kid`.
fn signature_text(alloc: Global, signature: &Signature<'_>) -> Result<String, AllocError> {
    let protected = signature.protected_text().len();
    let members = signature.protected().member_count();
    let octets = signature.octets().len();
    let alg = signature.alg_text().unwrap_or("no alg");
    let kid = signature.kid().unwrap_or("no kid");
    format!(in alloc; "; {protected} {members} {octets} {alg} {kid}")
}

/// What a token holds, as text: its form, its payload's text and how many octets that spells, and then each signature.
fn token_text(alloc: Global, octets: &[u8]) -> Result<String, Fail> {
    let signed = parse(alloc, octets, 8).ok().ok_or("a token")?;
    let form = signed.form();
    let len = signed.payload().len();
    let payload = String::from_utf8_lossy(alloc, signed.payload_text())?;
    let mut text = format!(in alloc; "{form:?} {payload} {len}")?;
    for signature in signed.iter() {
        text.push_str(&signature_text(alloc, signature)?)?;
    }
    Ok(text)
}

/// Tokens, and what each holds. Names in angle brackets are those of [`filled`].
static TOKENS: [(&str, &str); 5] = [
    ("<TOKEN_A>", "Compact <PAYLOAD_A> 70; 40 2 32 HS256 no kid"),
    ("e30..", "Compact  0; 3 0 0 no alg no kid"),
    (
        r#" {"payload":"e\u00330","signature":"AQAB","header":{"kid":"k"}} "#,
        "Flattened e30 2; 0 0 3 no alg k",
    ),
    (
        r#"{"payload":"e30","signature":""}"#,
        "Flattened e30 2; 0 0 0 no alg no kid",
    ),
    (
        r#"{"payload":"e30","signatures":[{"signature":"","header":{"kid":"a"}},{"signature":"","header":{"kid":"b"}},{"signature":""}]}"#,
        "General e30 2; 0 0 0 no alg a; 0 0 0 no alg b; 0 0 0 no alg no kid",
    ),
];

/// Compact, flattened and general form give the same payload and the same signatures.
#[test]
fn reads_each_form(rt: HostRuntime) -> Result<(), Fail> {
    for &(token, want) in &TOKENS {
        let token = filled(rt.alloc(), token)?;
        let want = filled(rt.alloc(), want)?;
        let found = token_text(rt.alloc(), token.as_bytes())?;
        assert!(rt; found == want, "{token}");
    }
    Ok(())
}

/// Whether a token has so many signatures, or memory is refused.
fn counts_or_lacks(alloc: Global, octets: &[u8], count: u32) -> bool {
    match parse(alloc, octets, 2) {
        Ok(signed) => signed.count() == count,
        Err(fault) => fault == FormFault::OutOfMemory,
    }
}

/// `tests/refused-growths` refuses each allocation of this test in turn.
#[test]
fn a_refused_growth_is_out_of_memory(rt: HostRuntime) {
    let general =
        br#"{"payload":"e30","signatures":[{"signature":"AQAB"},{"protected":"eyJhbGciOiJIUzI1NiJ9","header":{"kid":"k"},"signature":"AQAB"}]}"#;
    holds(&rt, counts_or_lacks(rt.alloc(), TOKEN_A.as_bytes(), 1));
    holds(&rt, counts_or_lacks(rt.alloc(), general, 2));
    assert!(rt;
        matches!(
            fault_of(rt.alloc(), br#"{"payload":"e30"}"#, 2),
            Some(FormFault::Members | FormFault::OutOfMemory)
        )
    );
}
