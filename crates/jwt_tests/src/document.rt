//! The document of a service.
use crate::asserted::holds;
use jwt_document::{Cause, Certificates, Document, FaultAt, ServiceFault, Source};
use jwt_keys::Key;
use jwt_mac::KeyView;
use std::alloc::Global;
use std::process::Abort;
use std::test::Fail;

/// Documents that are read, each behind the numbers of its issuers and of its rules.
const READ: &str = r#"0,0 {"issuers":[]}
1,0 {"issuers":[{"policy":{"version":2,"algs":["RS256"],"typ":"at+jwt","issuers":["https://id.example"],"audiences":["shop"],"required":["iss","sub","aud","exp"],"need_kid":true},"keys":{"file":"keys.json","refresh_after":30}}]}
1,0 {"issuers":[{"policy":{"algs":["RS256"],"issuers":["https://id.example"],"audiences":["shop"]},"keys":{"url":"https://id.example/keys"}}]}
3,0 {"issuers":[{"policy":{"algs":["RS256"],"issuers":["https://id.example"]},"keys":{"discover":true}},{"policy":{"algs":["RS256"],"issuers":["https://partner.example"]},"keys":{"url":"https://partner.example/jwks","max_age":7200}},{"policy":{"algs":["ES256"],"issuers":["https://old.example"]},"keys":{"set":{"keys":[{"kty":"EC","crv":"P-256","x":"5giCS5gZo8D8MISLn5buTJV3o2BqanitViNxRVk5q-A","y":"M1yUU4gZYfRk8SQEuGoX9HO9sig_7fp-q6qKN8-lSIo"}]}}}]}
1,0 {"issuers":[{"policy":{"algs":["HS256"],"issuers":["billing"],"required":["sub"]},"keys":{"secret":"uR9hC0wq3vE8kTzN5bYd2LmXs7JaPfG4"}}]}
0,0 {"issuers":[],"dpop":{"origins":["https://api.example","http://api.example:8080"],"only":true,"nonce":{"secret":"AAECAwQFBgcICQoLDA0ODxAREhMUFRYXGBkaGxwdHh8"}},"memory":{"proofs":100000}}
1,0 {"issuers":[{"policy":{"algs":["ES256"]},"keys":{"pem":"-----BEGIN PUBLIC KEY-----\nMFkwEwYHKoZIzj0CAQYIKoZIzj0DAQcDQgAE5giCS5gZo8D8MISLn5buTJV3o2Bq\nanitViNxRVk5q+AzXJRTiBlh9GTxJAS4ahf0c72yKD/t+n6rqoo3z6VIig==\n-----END PUBLIC KEY-----\n"}}],"certificates":"required"}
0,0 {"issuers":[],"once":true}
0,0 {"issuers":[],"remember":{"tokens":1000},"prepare":4,"earliest":0}
0,4 {"issuers":[],"rules":{"orders":{"scopes":["orders:read"]},"change orders":{"scopes":["orders:read","orders:write"]},"admin":{"claims":{"/realm_access/roles":["admin"]}},"signed in":{}},"describe":true}
0,1 {"issuers":[],"rules":{"default":{"only":{"aud":["shop"]},"ages":{"auth_time":3600}}},"expects":["nonce"]}
0,0 {"issuers":[],"issue":{"alg":"HS256","key":1,"set":{"keys":[{"kty":"EC","crv":"P-256","x":"5giCS5gZo8D8MISLn5buTJV3o2BqanitViNxRVk5q-A","y":"M1yUU4gZYfRk8SQEuGoX9HO9sig_7fp-q6qKN8-lSIo"},{"kty":"oct","use":"sig","k":"AAECAwQFBgcICQoLDA0ODxAREhMUFRYXGBkaGxwdHh8"}]}}}
0,0 {"issuers":[],"issue":{"secret":"kQ2vWc8rTn5xYb1LsZe7MdHf4JgUa9Po","alg":"HS256"},"onward":{"issuer":"gateway","audience":"inside","claims":["sub","scope","email"]},"realm":"shop"}
1,0 {"issuers":[{"policy":{"algs":["RS256"],"issuers":["a"]},"keys":{"url":"http://id.example/keys","http":true}}]}
1,0 {"issuers":[{"policy":{"algs":["HS256"]},"keys":{"file":"secret.json"}}]}"#;

/// Documents that are refused, each behind its first fault: the name, the member that it is about, and the number of the entry.
const REFUSED: &str = r#"Json {"issuers": [],}
Json []
NameTwice {"issuers":[],"once":true,"once":false}
Unknown:rule {"issuers":[],"rule":{}}
Kind:once {"issuers":[],"once":100000}
Missing:issuers {}
Kind:issuers {"issuers":{}}
Range:version {"issuers":[],"version":2}
Range:prepare {"issuers":[],"prepare":1025}
Range:earliest {"issuers":[],"earliest":-1}
Range:realm {"issuers":[],"realm":"a\"b"}
Kind:expects[1] {"issuers":[],"expects":["nonce",7]}
Range:expects[1] {"issuers":[],"expects":["nonce","",7]}
Range:certificates {"issuers":[],"certificates":"optional"}
Range:origins[0] {"issuers":[],"dpop":{"origins":["https://api.example/v1"]},"memory":{"proofs":1000}}
Range:algs[0] {"issuers":[],"dpop":{"origins":["https://api.example"],"algs":["HS256"]}}
Missing:secret {"issuers":[],"dpop":{"origins":["https://api.example"],"nonce":{"period":60}}}
Missing:proofs {"issuers":[],"dpop":{"origins":["https://api.example"]},"memory":{"tokens":1000}}
Missing:tokens {"issuers":[],"once":true,"memory":{}}
Missing:issue {"issuers":[],"onward":{"issuer":"a","audience":"b"}}
Range:claims[0] {"issuers":[],"onward":{"issuer":"a","audience":"b","claims":["exp"]},"issue":{"alg":"HS256"}}
Together:issue {"issuers":[],"issue":{"alg":"HS256"}}
Together:issue {"issuers":[],"issue":{"alg":"HS256","set":{"keys":[]},"secret":"kQ2vWc8rTn5xYb1LsZe7MdHf4JgUa9Po"}}
NoKey:key {"issuers":[],"issue":{"alg":"HS256","set":{"keys":[]}}}
NoKey:key {"issuers":[],"issue":{"alg":"HS256","set":{"key":[]}}}
NoKey:key {"issuers":[],"issue":{"alg":"HS256","key":1,"set":{"keys":[{"kty":"oct","k":"AAECAwQFBgcICQoLDA0ODxAREhMUFRYXGBkaGxwdHh8"}]}}}
NoKey:key {"issuers":[],"issue":{"alg":"HS384","set":{"keys":[{"kty":"oct","k":"AAECAwQFBgcICQoLDA0ODxAREhMUFRYXGBkaGxwdHh8"}]}}}
NoKey:key {"issuers":[],"issue":{"alg":"HS256","set":{"keys":[{"kty":"oct","key_ops":["verify"],"k":"AAECAwQFBgcICQoLDA0ODxAREhMUFRYXGBkaGxwdHh8"}]}}}
NoKey:key {"issuers":[],"issue":{"alg":"HS256","key":1,"secret":"kQ2vWc8rTn5xYb1LsZe7MdHf4JgUa9Po"}}
Short:secret {"issuers":[],"issue":{"alg":"HS384","secret":"kQ2vWc8rTn5xYb1LsZe7MdHf4JgUa9Po"}}
Short:secret {"issuers":[],"dpop":{"origins":["https://api.example"],"nonce":{"secret":"AAECAwQFBgcICQoLDA0ODxAREhMUFRYXGBkaGxwdHg"}}}
Range:secret {"issuers":[],"dpop":{"origins":["https://api.example"],"nonce":{"secret":"AAECAwQFBgcICQoLDA0ODxAREhMUFRYXGBkaGxwdHh8="}}}
Range: {"issuers":[],"rules":{"":{}}}
Kind:a {"issuers":[],"rules":{"a":[]}}
Rule:a {"issuers":[],"rules":{"a":{"scope":[]}}}
EntryKind@0 {"issuers":[7]}
Missing:keys@0 {"issuers":[{"policy":{"algs":["RS256"]}}]}
Policy@0 {"issuers":[{"policy":{"algs":["RS256"],"issuers":["a"],"audience":["shop"]},"keys":{"discover":true}}]}
Together@0 {"issuers":[{"policy":{"algs":["RS256"]},"keys":{}}]}
Range:discover@0 {"issuers":[{"policy":{"algs":["RS256"]},"keys":{"discover":false}}]}
Together@0 {"issuers":[{"policy":{"algs":["HS256"]},"keys":{"secret":"0123456789012345678901234567890123456789","max_age":60}}]}
NotPublic@0 {"issuers":[{"policy":{"algs":["RS256","HS256"],"issuers":["a"]},"keys":{"url":"https://id.example/keys"}}]}
NoUsableKey@0 {"issuers":[{"policy":{"algs":["RS256"]},"keys":{"set":{"keys":[{"kty":"oct","k":"AAECAwQFBgcICQoLDA0ODxAREhMUFRYXGBkaGxwdHh8"}]}}}]}
Keys@0 {"issuers":[{"policy":{"algs":["RS256"]},"keys":{"set":{"key":[]}}}]}
ShortSecret@0 {"issuers":[{"policy":{"algs":["HS256"]},"keys":{"secret":"secret"}}]}
Url@0 {"issuers":[{"policy":{"algs":["RS256"],"issuers":["a"]},"keys":{"url":"http://id.example/keys"}}]}
Issuer@0 {"issuers":[{"policy":{"algs":["RS256"]},"keys":{"url":"https://login.example/common/keys"}}]}
Issuer@1 {"issuers":[{"policy":{"algs":["RS256"],"issuers":["a"]},"keys":{"file":"a"}},{"policy":{"algs":["RS256"]},"keys":{"file":"b"}}]}
Pem@1 {"issuers":[{"policy":{"algs":["RS256"],"issuers":["a"]},"keys":{"file":"a"}},{"policy":{"algs":["ES256"],"issuers":["b"]},"keys":{"pem":"-----BEGIN PUBLIC KEY-----\n"}}]}
NoUsableKey@0 {"issuers":[{"policy":{"algs":["RS256"]},"keys":{"pem":"-----BEGIN PUBLIC KEY-----\nMFkwEwYHKoZIzj0CAQYIKoZIzj0DAQcDQgAE5giCS5gZo8D8MISLn5buTJV3o2Bq\nanitViNxRVk5q+AzXJRTiBlh9GTxJAS4ahf0c72yKD/t+n6rqoo3z6VIig==\n-----END PUBLIC KEY-----\n"}}]}
IssuerTwice@1 {"issuers":[{"policy":{"algs":["RS256"],"issuers":["a","b"]},"keys":{"file":"a"}},{"policy":{"algs":["RS256"],"issuers":["c","b"]},"keys":{"file":"b"}}]}"#;

/// A cause, and the member that it is about.
fn told_at(alloc: Global, at: &FaultAt) -> Result<String, Fail> {
    let cause = match at.cause() {
        Cause::Unknown => "Unknown",
        Cause::Missing => "Missing",
        Cause::Kind => "Kind",
        Cause::Range => "Range",
        Cause::Together => "Together",
        Cause::Short => "Short",
        Cause::NoKey => "NoKey",
    };
    match at.element() {
        Some(element) => Ok(format!(in alloc; "{cause}:{}[{element}]", at.name())?),
        None => Ok(format!(in alloc; "{cause}:{}", at.name())?),
    }
}

/// What was read, or the fault.
fn told(alloc: Global, document: &str) -> Result<String, Fail> {
    let (name, number) = match &Document::read(alloc, document.as_bytes()) {
        Ok(it) => return Ok(format!(in alloc; "{},{}", it.issuers().len(), it.rules().len())?),
        Err(ServiceFault::Member(at)) => return told_at(alloc, at),
        Err(ServiceFault::Entry(n, at)) => {
            return Ok(format!(in alloc; "{}@{n}", told_at(alloc, at)?)?);
        }
        Err(ServiceFault::Rule(name, _)) => {
            return Ok(format!(in alloc; "Rule:{}", name.text())?);
        }
        Err(ServiceFault::OutOfMemory) => return Ok(format!(in alloc; "OutOfMemory")?),
        Err(ServiceFault::TooLong) => return Ok(format!(in alloc; "TooLong")?),
        Err(ServiceFault::Json) => return Ok(format!(in alloc; "Json")?),
        Err(ServiceFault::NameTwice) => return Ok(format!(in alloc; "NameTwice")?),
        Err(ServiceFault::EntryKind(n)) => ("EntryKind", *n),
        Err(ServiceFault::Policy(n, _)) => ("Policy", *n),
        Err(ServiceFault::Together(n)) => ("Together", *n),
        Err(ServiceFault::Keys(n, _)) => ("Keys", *n),
        Err(ServiceFault::NoUsableKey(n)) => ("NoUsableKey", *n),
        Err(ServiceFault::ShortSecret(n)) => ("ShortSecret", *n),
        Err(ServiceFault::Url(n)) => ("Url", *n),
        Err(ServiceFault::Issuer(n)) => ("Issuer", *n),
        Err(ServiceFault::IssuerTwice(n)) => ("IssuerTwice", *n),
        Err(ServiceFault::NotPublic(n)) => ("NotPublic", *n),
        Err(ServiceFault::Pem(n, _)) => ("Pem", *n),
    };
    Ok(format!(in alloc; "{name}@{number}")?)
}

/// Stops where a document is answered otherwise than what stands before the space in its line says.
fn assert_lines(rt: &impl Abort, alloc: Global, table: &str) -> Result<(), Fail> {
    for line in table.lines() {
        let (wanted, document) = line.split_once(' ').ok_or("no space")?;
        let said = told(alloc, document)?;
        assert!(rt; said.as_str() == wanted, "{line}");
    }
    Ok(())
}

/// Each document is read, or refused for its first fault.
#[test]
fn documents_are_read_or_refused_for_their_first_fault(rt: HostRuntime) -> Result<(), Fail> {
    assert_lines(&rt, rt.alloc(), READ)?;
    assert_lines(&rt, rt.alloc(), REFUSED)?;
    Ok(())
}

/// Whether what the document doesn't write is what the strict reading says.
fn has_strict_defaults(alloc: Global) -> bool {
    let document =
        br#"{"issuers":[{"policy":{"algs":["RS256"],"issuers":["a"]},"keys":{"url":"https://a/k"}},{"policy":{"algs":["HS256"],"issuers":["b"],"max_signatures":3},"lasting":true,"keys":{"file":"b"}}]}"#;
    let Ok(document) = Document::read(alloc, document) else {
        return false;
    };
    let [first, second] = document.issuers() else {
        return false;
    };
    let (one, other) = (first.policy(), second.policy());
    document.earliest() == 1_577_836_800
        && first.source() == Source::Url
        && one.max_signatures() == 1
        && one.max_calls() == Some(64)
        && one.required().len() == 1
        && other.max_signatures() == 3
        && other.max_calls().is_none()
        && other.required().is_empty()
}

/// A document that says little asks for much.
#[test]
fn a_silent_document_is_strict(rt: HostRuntime) {
    holds(&rt, has_strict_defaults(rt.alloc()));
    holds(&rt, has_the_defaults_of_rows(rt.alloc()).unwrap_or(false));
}

/// A document with each object, that writes no more than it has to.
const SILENT: &str =
    r#"{"issuers":[{"policy":{"algs":["RS256"],"issuers":["a"]},"keys":{"discover":true}},{"policy":{"algs":["HS256"],"issuers":["b"]},"keys":{"file":"b"}}],"remember":{"tokens":7},"dpop":{"origins":["https://a"],"nonce":{"secret":"AAECAwQFBgcICQoLDA0ODxAREhMUFRYXGBkaGxwdHh8"}},"memory":{"proofs":9},"issue":{"secret":"kQ2vWc8rTn5xYb1LsZe7MdHf4JgUa9Po","alg":"HS256"},"onward":{"issuer":"a","audience":"b"}}"#;

/// Whether each default of a table is handed out.
fn has_the_defaults_of_rows(alloc: Global) -> Option<bool> {
    let document = Document::read(alloc, SILENT.as_bytes()).ok()?;
    let whole = document.whole(alloc).ok()?;
    let remember = document.remember()?;
    let dpop = document.dpop(alloc).ok()??;
    let nonce = dpop.nonce?;
    let memory = document.memory()?;
    let issue = document.issue()?;
    let onward = document.onward(alloc).ok()??;
    let fetched = document.keys_from(0)?;
    let file = document.keys_from(1)?;
    let of_all = whole.realm == "jwt" && !whole.describe && whole.earliest == 1_577_836_800;
    let more = whole.prepare == 16 && !whole.once && whole.expects.is_empty();
    let none = whole.certificates.is_none() && remember.tokens == 7 && remember.longest == 4_096;
    let proofs = !dpop.only && dpop.max_age == 60 && dpop.leeway == 5 && nonce.period == 60;
    let algs = dpop.algs.len() == 2 && dpop.algs[0] == "ES256" && dpop.algs[1] == "EdDSA";
    let once = memory.proofs == Some(9) && memory.tokens.is_none() && memory.share == 16;
    let earlier = !memory.earlier && issue.form == "compact" && issue.key == 0;
    let own = onward.lifetime == 60 && onward.claims.len() == 2 && onward.claims[0] == "sub";
    let by_url = fetched.refresh_after == 600 && fetched.max_age == Some(3_600) && !fetched.http;
    let times = fetched.cool_down == 30 && fetched.timeout == 5 && fetched.text.is_none();
    let of_file = file.refresh_after == 0 && file.max_age.is_none() && file.text == Some("b");
    Some(
        of_all
            && more
            && none
            && proofs
            && algs
            && once
            && earlier
            && own
            && by_url
            && times
            && of_file,
    )
}

/// What is written is handed out, and the keys in PEM.
fn has_what_is_written(alloc: Global) -> Option<bool> {
    let document = Document::read(
        alloc,
        br#"{"issuers":[{"policy":{"algs":["ES256"]},"keys":{"pem":"-----BEGIN PUBLIC KEY-----\nMFkwEwYHKoZIzj0CAQYIKoZIzj0DAQcDQgAE5giCS5gZo8D8MISLn5buTJV3o2Bq\nanitViNxRVk5q+AzXJRTiBlh9GTxJAS4ahf0c72yKD/t+n6rqoo3z6VIig==\n-----END PUBLIC KEY-----\n"}}],"certificates":"bound","expects":["nonce"],"once":true}"#,
    )
    .ok()?;
    let whole = document.whole(alloc).ok()?;
    let keys = document.keys(0)?;
    let nonce = whole.expects.len() == 1 && whole.expects[0] == "nonce";
    Some(
        whole.certificates == Some(Certificates::Bound)
            && nonce
            && whole.once
            && keys.len() == 1
            && document.keys(1).is_none()
            && document.dpop(alloc).ok()?.is_none(),
    )
}

/// Whether secrets are handed out as the sets of one key.
fn has_secrets(alloc: Global) -> Option<bool> {
    let document = Document::read(
        alloc,
        br#"{"issuers":[{"policy":{"algs":["HS256"]},"keys":{"secret":"uR9hC0wq3vE8kTzN5bYd2LmXs7JaPfG4"}}],"issue":{"secret":"kQ2vWc8rTn5xYb1LsZe7MdHf4JgUa9Po","alg":"HS256"}}"#,
    )
    .ok()?;
    let own = document.keys(0)?.key(0)?;
    let issuing = document.issue_keys()?.key(0)?;
    Some(
        secret(own) == Some(b"uR9hC0wq3vE8kTzN5bYd2LmXs7JaPfG4")
            && secret(issuing) == Some(b"kQ2vWc8rTn5xYb1LsZe7MdHf4JgUa9Po")
            && document.keys(0)?.len() == 1,
    )
}

/// The secret of a key.
fn secret(key: &Key) -> Option<&[u8]> {
    match key.view() {
        KeyView::Oct { k } => Some(k),
        _ => None,
    }
}

/// Documents that are refused, each behind a line of what is said of its fault and where.
const SAID: &str = r#"1:15 unknown member "rule", did you mean "rules"?
{"issuers":[],"rule":{}}
1:66 issuers[0].keys: unknown member "urll", did you mean "url"?
{"issuers":[{"policy":{"algs":["RS256"],"issuers":["a"]},"keys":{"urll":"https://a/k"}}]}
1:39 dpop.algs[1]: it has to be the name of an algorithm for public keys
{"issuers":[],"dpop":{"algs":["ES256","HS256"],"origins":["https://a"]}}
1:15 prepare: it has to be a whole number from 0 to 1024
{"issuers":[],"prepare":"16"}
1:1 the member "issuers" is missing
{}
1:14 issuers[0]: unknown member "policys", did you mean "policy"?
{"issuers":[{"policys":{},"keys":{}}]}
1:13 issuers[0]: the member "keys" is missing
{"issuers":[{"policy":{}}]}
1:79 issuers[1]: it has to be an object
{"issuers":[{"policy":{"algs":["RS256"],"issuers":["a"]},"keys":{"file":"a"}},7]}
1:56 dpop.nonce.secret: it has to be 32 octets or more, in base64url
{"issuers":[],"dpop":{"origins":["https://a"],"nonce":{"secret":"x"}}}
1:48 memory: the member "proofs" is missing
{"issuers":[],"dpop":{"origins":["https://a"]},"memory":{}}
1:66 issuers[0].keys.url: it has to be a URL of https, or of http where "http" is true
{"issuers":[{"policy":{"algs":["RS256"],"issuers":["a"]},"keys":{"url":"a"}}]}
1:24 issuers[0].policy.algs: it has an algorithm of HMAC beside keys that are public
{"issuers":[{"policy":{"algs":["HS256"],"issuers":["a"]},"keys":{"discover":true}}]}
1:24 rules.a: it has to be an object, behind a name of 1 to 256 octets
{"issuers":[],"rules":{"a":7}}
1:24 issue.key: no key of this number can sign by the algorithm
{"issuers":[],"issue":{"key":1,"alg":"HS256","secret":"kQ2vWc8rTn5xYb1LsZe7MdHf4JgUa9Po"}}
1:16 not a JSON object
{"issuers": [],}"#;

/// Stops where a fault is said otherwise.
fn assert_said(rt: &impl Abort, alloc: Global) -> Result<(), Fail> {
    let mut lines = SAID.lines();
    while let Some(said) = lines.next() {
        let document = lines.next().ok_or("no document")?;
        let Err(fault) = Document::read(alloc, document.as_bytes()) else {
            return Err(Fail::from("a document that is read"));
        };
        let line = fault.line(alloc)?;
        let place = fault.place(alloc, document.as_bytes())?.ok_or("no place")?;
        let told = format!(in alloc; "{}:{} {}", place.line, place.column, line.as_str())?;
        assert!(rt; told.as_str() == said, "{told}");
    }
    Ok(())
}

/// A document says what it says, and why it is refused.
#[test]
fn documents_and_faults_are_handed_out(rt: HostRuntime) -> Result<(), Fail> {
    holds(&rt, has_what_is_written(rt.alloc()).unwrap_or(false));
    holds(&rt, has_secrets(rt.alloc()).unwrap_or(false));
    assert_said(&rt, rt.alloc())
}
