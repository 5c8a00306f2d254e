//! What a service document asks, in lines or in JSON.
ghost use Rattle.std.specs.Prelude.{◌≡◌, IfOk, map};
ghost use Rattle.std.specs.List.{list_any};
ghost use Rattle.jwt_advice.specs.Findings.{findings_view};
ghost use Rattle.jwt_output.specs.verdicts.Meant.{is_advised, service_status};

use crate::Reply;
use crate::fields::{FieldName, FieldValue, Fields, Listing};
use crate::verdicts::meant::{put_facts, put_notes};
use crate::verdicts::members::{Members, put_members};
use jwt_advice::Findings;
use jwt_document::{Certificates, Document, Dpop, Entry, Keys, NamedRule, Nonce, Source};
use jwt_settings::Printing;
use std::alloc::{AllocError, Global};

// ---- an issuer

/// Where keys come from, and when. Neither keys nor a secret are printed.
fn put_keys(members: &mut Members<'_, '_>, keys: &Keys<'_>) -> Result<(), AllocError> {
    match keys.source {
        Source::Set => return members.hidden("set"),
        Source::Pem => return members.hidden("pem"),
        Source::Secret => return members.hidden("secret"),
        Source::File => members.text("file", keys.text)?,
        Source::Url => members.text("url", keys.text)?,
        Source::Discover => members.flag("discover", true)?,
    }
    members.number("refresh_after", Some(keys.refresh_after))?;
    members.number("max_age", keys.max_age)?;
    if keys.source == Source::File {
        return Ok(());
    }
    members.number("cool_down", Some(keys.cool_down))?;
    members.number("timeout", Some(keys.timeout))?;
    members.flag("http", keys.http)
}

/// The policy of an issuer, as it stands in its entry, and where its keys come from.
fn put_entry(
    alloc: Global,
    out: &mut Listing,
    document: &Document,
    number: usize,
    issuer: &Entry,
) -> Result<(), AllocError> {
    let Some(issuers) = document.members().list("issuers") else {
        return Ok(());
    };
    let Some(entry) = issuers.object(number) else {
        return Ok(());
    };
    if let Some(policy) = entry.object("policy") {
        let head = format!(in alloc; "/issuers/{number}/policy/")?;
        put_members(alloc, out, head.as_str(), &policy, issuer.policy())?;
    }
    if let (Some(said), Some(keys)) = (entry.object("keys"), document.keys_from(number)) {
        let head = format!(in alloc; "/issuers/{number}/keys/")?;
        let mut members = Members {
            alloc,
            head: head.as_str(),
            document: &said,
            out,
        };
        put_keys(&mut members, &keys)?;
    }
    Ok(())
}

/// An issuer: its members, and what is found of its keys, where the document has them.
fn put_issuer(
    alloc: Global,
    out: &mut Listing,
    document: &Document,
    number: usize,
    found: &Findings,
) -> Result<(), AllocError> {
    let Some(issuer) = document.issuers().get(number) else {
        return Ok(());
    };
    out.begin_item()?;
    out.begin_object("members")?;
    put_entry(alloc, out, document, number, issuer)?;
    out.end_object()?;
    if let Some(facts) = &found.facts {
        out.begin_lines(format!(in alloc; "issuer={number} ")?);
        put_facts(alloc, out, issuer.policy(), facts)?;
        out.begin_lines(String::new(alloc));
    }
    out.end_object()
}

/// The issuers.
fn put_issuers(
    alloc: Global,
    out: &mut Listing,
    document: &Document,
    found: &[Findings],
) -> Result<(), AllocError> {
    out.begin_list("issuers")?;
    for number in 0..found.len() {
        put_issuer(alloc, out, document, number, &found[number])?;
    }
    out.end_list()
}

/// The rules, by their names.
fn put_rules(alloc: Global, out: &mut Listing, rules: &[NamedRule]) -> Result<(), AllocError> {
    out.begin_list("rules")?;
    for rule in rules {
        let mut fields = Fields::none(alloc);
        fields.put(FieldName::Name, FieldValue::Text(rule.name()))?;
        out.row(alloc, "rule", &fields)?;
    }
    out.end_list()
}

// ---- the service's own members

/// How many tokens are remembered, where some are.
fn put_remember(members: &mut Members<'_, '_>, document: &Document) -> Result<(), AllocError> {
    match (members.document.object("remember"), document.remember()) {
        (Some(said), Some(remember)) => {
            let mut inner = members.within("/remember/", &said);
            inner.number("tokens", Some(remember.tokens))?;
            inner.number("longest", Some(remember.longest))
        }
        _ => members.text("remember", None),
    }
}

/// The nonces of proofs, where there are some. The secret isn't printed.
fn put_nonce(members: &mut Members<'_, '_>, nonce: Option<Nonce<'_>>) -> Result<(), AllocError> {
    match (members.document.object("nonce"), nonce) {
        (Some(said), Some(nonce)) => {
            let mut inner = members.within("/dpop/nonce/", &said);
            inner.hidden("secret")?;
            inner.number("period", Some(nonce.period))
        }
        _ => members.text("nonce", None),
    }
}

/// What is asked of proofs of possession.
fn put_proofs(members: &mut Members<'_, '_>, dpop: &Dpop<'_>) -> Result<(), AllocError> {
    members.texts("origins", dpop.origins.as_slice())?;
    members.flag("only", dpop.only)?;
    members.texts("algs", dpop.algs.as_slice())?;
    members.number("max_age", Some(dpop.max_age))?;
    members.number("leeway", Some(dpop.leeway))?;
    put_nonce(members, dpop.nonce)
}

/// The same, where they are taken.
fn put_dpop(members: &mut Members<'_, '_>, document: &Document) -> Result<(), AllocError> {
    match (
        members.document.object("dpop"),
        document.dpop(members.alloc)?,
    ) {
        (Some(said), Some(dpop)) => put_proofs(&mut members.within("/dpop/", &said), &dpop),
        _ => members.text("dpop", None),
    }
}

/// For which tokens the client's certificate is looked at.
fn certificates_name(certificates: Option<Certificates>) -> Option<&'static str> {
    match certificates? {
        Certificates::Bound => Some("bound"),
        Certificates::Required => Some("required"),
    }
}

/// The memory of what counts once, where this process has one.
fn put_memory(members: &mut Members<'_, '_>, document: &Document) -> Result<(), AllocError> {
    match (members.document.object("memory"), document.memory()) {
        (Some(said), Some(memory)) => {
            let mut inner = members.within("/memory/", &said);
            inner.number("proofs", memory.proofs)?;
            inner.number("tokens", memory.tokens)?;
            inner.number("share", Some(memory.share))?;
            inner.flag("earlier", memory.earlier)
        }
        _ => members.text("memory", None),
    }
}

/// How tokens are issued, where some are. Neither the keys nor the secret are printed.
fn put_issue(members: &mut Members<'_, '_>, document: &Document) -> Result<(), AllocError> {
    match (members.document.object("issue"), document.issue()) {
        (Some(said), Some(issue)) => {
            let mut inner = members.within("/issue/", &said);
            inner.hidden(if said.has("secret") { "secret" } else { "set" })?;
            inner.text("alg", Some(issue.alg))?;
            inner.text("typ", issue.typ)?;
            inner.text("form", Some(issue.form))?;
            inner.number("key", Some(issue.key))
        }
        _ => members.text("issue", None),
    }
}

/// The gateway's own token, where there is one.
fn put_onward(members: &mut Members<'_, '_>, document: &Document) -> Result<(), AllocError> {
    match (
        members.document.object("onward"),
        document.onward(members.alloc)?,
    ) {
        (Some(said), Some(onward)) => {
            let mut inner = members.within("/onward/", &said);
            inner.text("issuer", Some(onward.issuer))?;
            inner.text("audience", Some(onward.audience))?;
            inner.number("lifetime", Some(onward.lifetime))?;
            inner.texts("claims", onward.claims.as_slice())
        }
        _ => members.text("onward", None),
    }
}

/// The service's own members, in the order in which a document is read.
fn put_own(alloc: Global, out: &mut Listing, document: &Document) -> Result<(), AllocError> {
    let said = document.members();
    let whole = document.whole(alloc)?;
    let mut members = Members {
        alloc,
        head: "/",
        document: &said,
        out,
    };
    members.text("realm", Some(whole.realm))?;
    members.flag("describe", whole.describe)?;
    members.number("earliest", Some(whole.earliest))?;
    members.number("prepare", Some(whole.prepare))?;
    put_remember(&mut members, document)?;
    members.texts("expects", whole.expects.as_slice())?;
    members.flag("once", whole.once)?;
    put_dpop(&mut members, document)?;
    members.text("certificates", certificates_name(whole.certificates))?;
    put_memory(&mut members, document)?;
    put_issue(&mut members, document)?;
    put_onward(&mut members, document)
}

// ---- all

/// Whether something ought to be written otherwise.
fn is_advised(found: &Findings) -> bool
    ensures { result ≡ is_advised (findings_view found.now).notes }
{
    !found.notes.is_empty()
}

/// The same of one issuer at least.
fn any_advised(found: &[Findings]) -> bool
    ensures { result ≡ list_any (λ f. is_advised f.notes) (map findings_view found.now) }
{
    for one in found {
        if is_advised(one) {
            return true;
        }
    }
    false
}

/// The status: 1 where something ought to be written otherwise of an issuer.
fn service_status(found: &[Findings]) -> u8
    ensures { result ≡ service_status (map findings_view found.now) }
{
    if any_advised(found) { 1 } else { 0 }
}

/// What a service document asks, in JSON or in lines: issuer by issuer each member of its policy and of its keys, with its value in force and whether it
/// stands in the document, and what is found of keys that stand there; the rules by their names; the service's own members; and what ought to be written
/// otherwise of each issuer, with the status 1 where anything is. Found is something of each issuer, in the order of the document.
pub fn printed_service(
    alloc: Global,
    printing: Printing,
    document: &Document,
    found: &[Findings],
) -> Result<Reply, AllocError>
    ensures { IfOk result (λ a. a.status ≡ service_status (map findings_view found.now)) }
{
    let status = service_status(found);
    let mut out = Listing::new(alloc, printing)?;
    put_issuers(alloc, &mut out, document, found)?;
    put_rules(alloc, &mut out, document.rules())?;
    out.begin_object("members")?;
    put_own(alloc, &mut out, document)?;
    out.end_object()?;
    out.begin_list("advice")?;
    for number in 0..found.len() {
        put_notes(
            alloc,
            &mut out,
            Some(number),
            found[number].notes.as_slice(),
        )?;
    }
    out.end_list()?;
    Ok(Reply::of(out.text()?, status))
}
