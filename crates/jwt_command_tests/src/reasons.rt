//! The reasons on standard error why a document is refused.
use jwt_access::AccessRule;
use jwt_jws::parse;
use jwt_keys::KeySet;
use jwt_output::reasons::{
    Cause, Reason, access_reason, around_token, claims_detail, keys_reason, policy_reason,
    token_reason, token_sentences,
};
use jwt_policy::Policy;
use jwt_settings::Moment;
use std::alloc::{AllocError, Global};
use std::process::Abort;
use std::test::Fail;

/// Documents, and why they are refused, with a bar between the two; an empty reason of one that isn't.
static POLICIES: [&str; 14] = [
    r#"{"algs":["HS256"]}|"#,
    "|line 1, column 1: no JSON text goes on so",
    "[]|it is no JSON object",
    "{\n  \"algs\": [\"HS256\"],\n  \"limit\": 07\n}|line 3, column 12: no JSON text goes on so",
    "{\"algs\":[\"HS256\"]}\n{}|line 2, column 1: no JSON text goes on so",
    "{\"algs\":[\"HS256\"],\n\"mode\":\"any\",\"mode\":\"any\"}|line 2, column 14: this name stands twice in its object",
    r#"{"algs":["HS256"],"leeway":86401}|"leeway" is a whole number from 0 to 86,400 seconds"#,
    r#"{"algs":["HS256"],"max_age":0}|"max_age" is a whole number from 1 to 4,294,967,295 seconds"#,
    // (a carriage return ends no line)
    "{\r\r\n\r7|line 2, column 2: no JSON text goes on so",
    r#"{"algs":["HS256"],"need_kid":1}|"need_kid" is true or false"#,
    r#"{"algs":[]}|"algs" is a list of names of algorithms, with at least one"#,
    r#"{"algs":["HS256"],"max_calls":1}|"max_calls" is a whole number from 0 to 32,768, in version 2 alone"#,
    r#"{"algs":["HS256"],"lim\u200eit":1}|"lim\u200eit" is no member of a policy"#,
    r#"{"algs":["HS256"],"mode":"some"}|"mode" is "any" or "all""#,
];

static KEY_SETS: [&str; 7] = [
    r#"{"keys":[]}|"#,
    r#"{"keys":7}|it is no object with a list "keys""#,
    "{\"keys\":[\n{\"kty\":\"oct\",\"k\":\"AA\" \"x\":1}]}|line 2, column 23: no JSON text goes on so",
    "{\"keys\":[{\"k\":\"AA\"},\n{\"a\":{\"k\":1},\"k\":\"AA\",\"k\":\"AA\"}]}|line 2, column 23: this name stands twice in its object",
    "{\"keys\":[\"\t\"]}|line 1, column 10: no JSON text goes on so",
    r#"{"keys":[}|line 1, column 10: no JSON text goes on so"#,
    "-----BEGIN PUBLIC KEY-----\n|it is PEM: jwt jwk --file FILE makes a key set of it",
];

/// Texts that are no JSON, and the column, in their one line, at which they can't be, or aren't read as, JSON.
static PLACES: [(&str, &str); 17] = [
    (r#"{"keys":[]},"#, "12: no JSON text goes on so"),
    (r#"{"keys":[]} {"#, "13: no JSON text goes on so"),
    (r#"{{"keys":[]}"#, "2: no JSON text goes on so"),
    ("{1", "2: no JSON text goes on so"),
    ("{\"keys\":[}\n", "10: no JSON text goes on so"),
    (r#"{"a" 1}"#, "6: no JSON text goes on so"),
    (r#"{"a","b"}"#, "5: no JSON text goes on so"),
    (r#"{"a":}"#, "6: no JSON text goes on so"),
    (r#"{"a":"b":1}"#, "9: no JSON text goes on so"),
    (r#"["a":1]"#, "5: no JSON text goes on so"),
    ("[1,]", "4: no JSON text goes on so"),
    ("[1 2]", "4: no JSON text goes on so"),
    (r#"{"a":1,}"#, "8: no JSON text goes on so"),
    (r#"{"a":[1}"#, "8: no JSON text goes on so"),
    (r#"{"a""#, "5: no JSON text goes on so"),
    (r#"{"a":1e400}"#, "6: no float of 64 bits has this number"),
    (r#"{"a":-1e400}"#, "6: no float of 64 bits has this number"),
];

/// Octets that aren't UTF-8, and the first place at which they aren't, or can't be JSON.
static OCTETS: [(&[u8], &str); 4] = [
    (b"{\"a\":1,\"\xff\":", "line 1, column 9: it isn't UTF-8"),
    (
        b"{\"a\" 1,\"\xff\":",
        "line 1, column 6: no JSON text goes on so",
    ),
    (b"{\"\xff\" 1", "line 1, column 3: it isn't UTF-8"),
    (b"\xff", "line 1, column 1: it isn't UTF-8"),
];

/// Answers, and the beginning of what is said of the token; an empty one where nothing is.
static ANSWERS: [(&str, &str, &str); 7] = [
    ("refused", "Expired", "the moment is at or after"),
    ("refused", "Base64", "a text is no base64url"),
    ("refused", "NoKey", "no key of the set"),
    ("denied", "ScopeMissing", "this scope isn't granted"),
    ("denied", "ClaimMissing", "this claim is absent"),
    (
        "refused",
        "ClaimMissing",
        "a claim that the policy asks for",
    ),
    ("accepted", "", ""),
];

/// Tokens, and the beginning of what is said of what stands around them; an empty one where nothing is.
static AROUND: [&str; 4] = [
    "e30.e30.|",
    "e30.e30.\n|it ends in a line feed",
    "Bearer e30.e30.|`Bearer ` stands in front",
    "|",
];

static RULES: [&str; 3] = [
    "{}|",
    r#"{"scope":["a"]}|"scope" is no member of an access rule, or is of another kind"#,
    r#"{"scopes":[],"scopes":[]}|line 1, column 14: this name stands twice in its object"#,
];

/// Tokens; of those that aren't in JSON form, and of those that are refused for what they hold, no reason is given.
static TOKENS: [&str; 5] = [
    "|",
    "e30.e30.|",
    "{\"payload\":\"e30\",\n\"signatures\":[}|line 2, column 15: no JSON text goes on so",
    r#"{"payload":"e30","payload":"e30","signature":""}|line 1, column 18: this name stands twice in its object"#,
    r#"{"payload":7,"signature":""}|"#,
];

/// Policies, and why they are refused, as a JSON object.
static POLICIES_IN_JSON: [&str; 3] = [
    r#"{"algs":["HS256"]}|"#,
    r#"{"algs":["HS256"],}|{"document":"policy","line":1,"column":19,"reason":"no JSON text goes on so"}"#,
    r#"{"algs":["HS256"],"need_kid":1}|{"document":"policy","reason":"\"need_kid\" is true or false"}"#,
];

/// Answers, tokens with such claims, and what these have to do with the fault at the moment 20.
static DETAILS: [(&str, &str, &str, &str); 8] = [
    (
        "refused",
        "Expired",
        "e30.eyJleHAiOjV9.",
        r#" Its `exp` was 15 seconds before the moment of the verdict."#,
    ),
    (
        "refused",
        "Audience",
        "e30.eyJhdWQiOiJh4oCuYiJ9.",
        r#" Its `aud` is "a\u202eb"."#,
    ),
    (
        "refused",
        "Audience",
        "e30.eyJhdWQiOlsiYSIsImIiLCJjIiwiZCIsImUiXX0.",
        r#" Its `aud` is ["a", "b", "c", "d", ..]."#,
    ),
    (
        "refused",
        "Audience",
        "e30.eyJhdWQiOltdfQ.",
        r#" Its `aud` is []."#,
    ),
    ("refused", "Expired", "e30.e30.", r#""#),
    ("refused", "NotYet", "e30.eyJleHAiOjV9.", r#""#),
    ("denied", "Expired", "e30.eyJleHAiOjV9.", r#""#),
    ("refused", "Expired", "e30.W10.", r#""#),
];

/// Why a policy is refused; none where it isn't.
fn of_policy(alloc: Global, octets: &[u8]) -> Result<Option<Reason>, AllocError> {
    match Policy::read(alloc, octets) {
        Ok(_) => Ok(None),
        Err(fault) => Ok(Some(policy_reason(alloc, &fault, octets)?)),
    }
}

/// Why a key set is refused; none where it isn't.
fn of_keys(alloc: Global, octets: &[u8]) -> Result<Option<Reason>, AllocError> {
    match KeySet::read(alloc, octets) {
        Ok(_) => Ok(None),
        Err(fault) => Ok(Some(keys_reason(alloc, fault, octets)?)),
    }
}

/// Why an access rule is refused; none where it isn't.
fn of_access(alloc: Global, octets: &[u8]) -> Result<Option<Reason>, AllocError> {
    match AccessRule::read(alloc, octets) {
        Ok(_) => Ok(None),
        Err(fault) => Ok(Some(access_reason(alloc, &fault, octets)?)),
    }
}

/// Why a document of this kind is refused, and an empty text where it isn't.
fn reason(alloc: Global, kind: &str, document: &str) -> Result<String, Fail> {
    let octets = document.as_bytes();
    let found = match kind {
        "policy" => of_policy(alloc, octets)?,
        "keys" => of_keys(alloc, octets)?,
        "token" => token_reason(alloc, parse(alloc, octets, 32).err(), octets)?,
        _ => of_access(alloc, octets)?,
    };
    match found {
        Some(reason) => Ok(reason.text(alloc)?),
        None => Ok(String::new(alloc)),
    }
}

/// The same as a JSON object; an empty text where there is no reason.
fn json(alloc: Global, document: &str) -> Result<String, Fail> {
    match of_policy(alloc, document.as_bytes())? {
        Some(reason) => Ok(reason.json(alloc, "policy")?),
        None => Ok(String::new(alloc)),
    }
}

/// Asserts the reason of each document of this kind.
fn assert_reasons(rt: &impl Abort, alloc: Global, kind: &str, rows: &[&str]) -> Result<(), Fail> {
    for row in rows {
        let (document, wanted) = row.split_once('|').ok_or("no bar")?;
        let found = reason(alloc, kind, document)?;
        assert_eq!(rt; found.as_str(), wanted, "at {document}");
    }
    Ok(())
}

/// A refused document is told with the place at which it can't be JSON or at which a name stands twice, or with the member.
#[test]
fn a_refused_document_has_its_reason(rt: HostRuntime) -> Result<(), Fail> {
    assert_reasons(&rt, rt.alloc(), "policy", &POLICIES)?;
    assert_reasons(&rt, rt.alloc(), "keys", &KEY_SETS)?;
    assert_reasons(&rt, rt.alloc(), "access", &RULES)?;
    assert_reasons(&rt, rt.alloc(), "token", &TOKENS)
}

/// The place is that of the first octet at which no JSON text goes on so, of a text or a number its begin, and what is nested too deeply or too
/// great for a float is told as that.
#[test]
fn a_place_is_the_first_that_is_no_json(rt: HostRuntime) -> Result<(), Fail> {
    for &(text, wanted) in &PLACES {
        let found = reason(rt.alloc(), "policy", text)?;
        let wanted = format!(in rt.alloc(); "line 1, column {wanted}")?;
        assert_eq!(rt; found.as_str(), wanted.as_str(), "at {text}");
    }
    for &(octets, wanted) in &OCTETS {
        let Some(found) = of_keys(rt.alloc(), octets)? else {
            return Err(Fail::new("it isn't refused"));
        };
        assert_eq!(rt; found.text(rt.alloc())?.as_str(), wanted);
    }
    Ok(())
}

/// A token that is refused or denied is told with what that means and what to do, and with what stands around it.
#[test]
fn a_refused_token_is_told_with_what_to_do(rt: HostRuntime) -> Result<(), Fail> {
    for &(verdict, fault, wanted) in &ANSWERS {
        let found = token_sentences(Cause::of(verdict, fault)).unwrap_or("");
        assert!(rt;
            found.starts_with(wanted) && found.is_empty() == wanted.is_empty(),
            "at {verdict} {fault}"
        );
    }
    for row in &AROUND {
        let (token, wanted) = row.split_once('|').ok_or("no bar")?;
        let found = around_token(token.as_bytes()).unwrap_or("");
        assert!(rt;
            found.starts_with(wanted) && found.is_empty() == wanted.is_empty(),
            "at {token}"
        );
    }
    Ok(())
}

/// As a JSON object a reason has the document, and its line and its column where it is about a place.
#[test]
fn a_reason_is_an_object_too(rt: HostRuntime) -> Result<(), Fail> {
    for row in &POLICIES_IN_JSON {
        let (document, wanted) = row.split_once('|').ok_or("no bar")?;
        let found = json(rt.alloc(), document)?;
        assert_eq!(rt; found.as_str(), wanted, "at {document}");
    }
    Ok(())
}

/// Of an expired token it is told by how much, and of one for another audience for whom it is.
#[test]
fn claims_tell_more_of_two_faults(rt: HostRuntime) -> Result<(), Fail> {
    let Some(now) = Moment::new(20) else {
        return Err(Fail::new("it is no moment"));
    };
    for &(verdict, fault, token, wanted) in &DETAILS {
        let found = claims_detail(rt.alloc(), Cause::of(verdict, fault), token.as_bytes(), now)?;
        let found = match &found {
            Some(text) => text.as_str(),
            None => "",
        };
        assert_eq!(rt; found, wanted, "at {verdict} {fault}");
    }
    Ok(())
}
