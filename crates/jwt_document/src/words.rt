//! What is said of a fault in words. No clause says it: it is shown alone.

use crate::fault::{FaultAt, ServiceFault};
use crate::place::{Place, Step, json_place, place_at};
use crate::rows::{Cause, Form, Kind, Row, Within};
use crate::tables::{
    dpop_rows, entry_rows, issue_rows, keys_rows, memory_rows, nonce_rows, onward_rows,
    remembering_rows, the_service_rows,
};
use crate::values::row_named;
use jwt_policy::PolicyFault;
use std::alloc::{AllocError, Global};
use strsim::levenshtein;

// ---- rows

/// The rows of the object. `rules` has none.
fn rows_of(alloc: Global, within: Within) -> Result<Vec<Row>, AllocError> {
    match within {
        Within::Whole => the_service_rows().to_vec(alloc),
        Within::Rules => Ok(Vec::new(alloc)),
        Within::Remember => remembering_rows().to_vec(alloc),
        Within::Dpop => dpop_rows().to_vec(alloc),
        Within::Nonce => nonce_rows().to_vec(alloc),
        Within::Memory => memory_rows().to_vec(alloc),
        Within::Issue => issue_rows().to_vec(alloc),
        Within::Onward => onward_rows().to_vec(alloc),
        Within::Entry => entry_rows().to_vec(alloc),
        Within::Keys => keys_rows().to_vec(alloc),
    }
}

/// The first name of a row to which so many edits lead.
fn at_edits(
    alloc: Global,
    count: usize,
    name: &str,
    rows: &[Row],
) -> Result<Option<&'static str>, AllocError> {
    for row in rows {
        if levenshtein(alloc, name, row.name)? == count {
            return Ok(Some(row.name));
        }
    }
    Ok(None)
}

/// The name of a row to which one edit leads, else one to which two do.
fn nearest_in(alloc: Global, name: &str, rows: &[Row]) -> Result<Option<&'static str>, AllocError> {
    match at_edits(alloc, 1, name, rows)? {
        Some(word) => Ok(Some(word)),
        None => at_edits(alloc, 2, name, rows),
    }
}

/// The name that is near to an unknown one.
pub(crate) fn nearest_to(
    alloc: Global,
    fault: &ServiceFault,
) -> Result<Option<&'static str>, AllocError> {
    match fault {
        ServiceFault::Member(at) | ServiceFault::Entry(_, at) if at.cause() == Cause::Unknown => {
            nearest_in(alloc, at.name(), &rows_of(alloc, at.within())?)
        }
        _ => Ok(None),
    }
}

// ---- what a member has to be

fn form_words(form: Form) -> &'static str {
    match form {
        Form::Any => "a text",
        Form::Printable => "a text of printable ASCII without \" and \\",
        Form::Origin => "https://HOST or http://HOST, with a port or none and nothing behind it",
        Form::PublicAlg => "the name of an algorithm for public keys",
        Form::FreeClaim => "the name of a claim other than iss, aud, iat and exp",
    }
}

fn words_of(alloc: Global, words: &[&'static str]) -> Result<String, AllocError> {
    let mut text = String::from_str(alloc, "one of")?;
    for word in words {
        text.push_str(" ")?;
        text.push_str(word)?;
    }
    Ok(text)
}

/// What a member of this kind has to be, or one of its elements.
fn kind_words(alloc: Global, kind: Kind, is_element: bool) -> Result<String, AllocError> {
    match kind {
        Kind::Flag => String::from_str(alloc, "true or false"),
        Kind::Given => String::from_str(alloc, "true"),
        Kind::Whole(least, most) => format!(in alloc; "a whole number from {least} to {most}"),
        Kind::Text(form, least, most) => {
            let words = form_words(form);
            format!(in alloc; "{words}, of {least} to {most} octets")
        }
        Kind::Texts(form, _, _) if is_element => String::from_str(alloc, form_words(form)),
        Kind::Texts(_, least, most) => format!(in alloc; "a list of {least} to {most} texts"),
        Kind::Word(words) => words_of(alloc, words),
        Kind::Object => String::from_str(alloc, "an object"),
        Kind::List(most) => format!(in alloc; "a list of at most {most}"),
    }
}

/// What the member of a fault has to be. A rule, which has no row, is an object with a name.
fn has_to_be(alloc: Global, at: &FaultAt) -> Result<String, AllocError> {
    if at.within() == Within::Nonce && at.name() == "secret" {
        return String::from_str(alloc, "32 octets or more, in base64url");
    }
    match row_named(&rows_of(alloc, at.within())?, at.name()) {
        Some(row) => kind_words(alloc, row.kind, at.element().is_some()),
        None => String::from_str(alloc, "an object, behind a name of 1 to 256 octets"),
    }
}

// ---- what it is about

/// A member of an entry of `issuers`, or the entry.
#[derive(Clone, Copy)]
struct InEntry {
    number: usize,
    names: &'static [&'static str],
}

/// What a fault of an entry is about.
fn in_entry(fault: &ServiceFault) -> Option<InEntry> {
    let (number, names): (&usize, &'static [&'static str]) = match fault {
        ServiceFault::EntryKind(n) | ServiceFault::Entry(n, _) => (n, &[]),
        ServiceFault::Policy(n, _) => (n, &["policy"]),
        ServiceFault::Issuer(n) | ServiceFault::IssuerTwice(n) => (n, &["policy", "issuers"]),
        ServiceFault::NotPublic(n) => (n, &["policy", "algs"]),
        ServiceFault::Together(n) | ServiceFault::Keys(n, _) | ServiceFault::NoUsableKey(n) => {
            (n, &["keys"])
        }
        ServiceFault::ShortSecret(n) => (n, &["keys", "secret"]),
        ServiceFault::Url(n) => (n, &["keys", "url"]),
        ServiceFault::Pem(n, _) => (n, &["keys", "pem"]),
        _ => return None,
    };
    Some(InEntry {
        number: *number,
        names,
    })
}

// ---- where it is

/// One path behind another, either of which may be empty.
fn joined(alloc: Global, outer: &str, inner: &str) -> Result<String, AllocError> {
    if outer.is_empty() || inner.is_empty() {
        format!(in alloc; "{outer}{inner}")
    } else {
        format!(in alloc; "{outer}.{inner}")
    }
}

/// Names behind a path, as `issuers[0].keys`.
fn path_of(alloc: Global, outer: &str, names: &[&'static str]) -> Result<String, AllocError> {
    let mut path = String::from_str(alloc, outer)?;
    for name in names {
        path = joined(alloc, path.as_str(), name)?;
    }
    Ok(path)
}

/// The path of what a fault of an entry is about; empty for another fault.
fn entry_path(alloc: Global, fault: &ServiceFault) -> Result<String, AllocError> {
    match in_entry(fault) {
        Some(at) => {
            let entry = format!(in alloc; "issuers[{}]", at.number)?;
            path_of(alloc, entry.as_str(), at.names)
        }
        None => Ok(String::new(alloc)),
    }
}

/// The name of a member, where it isn't a plain word as JSON has it; with the number of its element where the fault is about one.
fn name_of(alloc: Global, at: &FaultAt) -> Result<String, AllocError> {
    let is_plain = at
        .name()
        .as_bytes()
        .iter()
        .all(|octet| octet.is_ascii_alphanumeric() || *octet == b'_');
    match (is_plain, at.element()) {
        (true, Some(number)) => format!(in alloc; "{}[{number}]", at.name()),
        (true, None) => String::from_str(alloc, at.name()),
        (false, _) => format!(in alloc; "{:?}", at.name()),
    }
}

/// What is wrong with the member of a fault, behind where it is.
fn at_line(
    alloc: Global,
    entry: &str,
    at: &FaultAt,
    nearest: Option<&'static str>,
) -> Result<String, AllocError> {
    let object = path_of(alloc, entry, at.within().path())?;
    let name = name_of(alloc, at)?;
    let member = joined(alloc, object.as_str(), name.as_str())?;
    let (object, member) = (object.as_str(), member.as_str());
    let colon = if object.is_empty() { "" } else { ": " };
    match (at.cause(), nearest) {
        (Cause::Unknown, Some(near)) => format!(in alloc;
            "{object}{colon}unknown member {:?}, did you mean {near:?}?",
            at.name()
        ),
        (Cause::Unknown, None) => format!(in alloc;
            "{object}{colon}unknown member {:?}",
            at.name()
        ),
        (Cause::Missing, _) => {
            format!(in alloc; "{object}{colon}the member {:?} is missing", at.name())
        }
        (Cause::Together, _) => format!(in alloc;
            "{member}: exactly one of set and secret has to be there"
        ),
        (Cause::Short, _) => format!(in alloc; "{member}: it has too few octets"),
        (Cause::NoKey, _) => {
            format!(in alloc; "{member}: no key of this number can sign by the algorithm")
        }
        (Cause::Kind | Cause::Range, _) => {
            let words = has_to_be(alloc, at)?;
            format!(in alloc; "{member}: it has to be {}", words.as_str())
        }
    }
}

/// What is wrong, where a fault says no more than its name.
fn plain_words(fault: &ServiceFault) -> &'static str {
    match fault {
        ServiceFault::OutOfMemory => "out of memory",
        ServiceFault::TooLong => "more than 4,194,304 octets",
        ServiceFault::Json => "not a JSON object",
        ServiceFault::NameTwice => "a name stands twice",
        ServiceFault::EntryKind(_) => "it has to be an object",
        ServiceFault::Together(_) => {
            "exactly one of set, pem, secret, file, url and discover has to be there, and beside it nothing that it doesn't have"
        }
        ServiceFault::NoUsableKey(_) => "no key can verify by an algorithm of the policy",
        ServiceFault::ShortSecret(_) => "it is shorter than an algorithm of the policy asks for",
        ServiceFault::Url(_) => "it has to be a URL of https, or of http where \"http\" is true",
        ServiceFault::Issuer(_) => {
            "it has to name an issuer, and one alone where its metadata are asked"
        }
        ServiceFault::IssuerTwice(_) => "it names an issuer that an earlier entry names",
        ServiceFault::NotPublic(_) => "it has an algorithm of HMAC beside keys that are public",
        _ => "",
    }
}

/// A fault in one line.
pub(crate) fn line_of(alloc: Global, fault: &ServiceFault) -> Result<String, AllocError> {
    let entry = entry_path(alloc, fault)?;
    let entry = entry.as_str();
    match fault {
        ServiceFault::Member(at) | ServiceFault::Entry(_, at) => {
            let nearest = nearest_to(alloc, fault)?;
            at_line(alloc, entry, at, nearest)
        }
        ServiceFault::Policy(_, why) => format!(in alloc; "{entry}: {why}"),
        ServiceFault::Keys(_, why) => format!(in alloc; "{entry}: {why}"),
        ServiceFault::Pem(_, why) => format!(in alloc; "{entry}: {}", why.name()),
        ServiceFault::Rule(name, why) => format!(in alloc; "rules[{:?}]: {why}", name.text()),
        _ if entry.is_empty() => String::from_str(alloc, plain_words(fault)),
        _ => format!(in alloc; "{entry}: {}", plain_words(fault)),
    }
}

// ---- where in the text

/// Adds steps to members, each in the object of the one before.
fn add_names(steps: &mut Vec<Step<'_>>, names: &[&'static str]) -> Result<(), AllocError> {
    for name in names {
        steps.push(Step::Name(name))?;
    }
    Ok(())
}

/// Adds the steps to the member of a fault.
fn add_steps<'a>(steps: &mut Vec<Step<'a>>, at: &'a FaultAt) -> Result<(), AllocError> {
    add_names(steps, at.within().path())?;
    steps.push(Step::Name(at.name()))?;
    if let Some(number) = at.element() {
        steps.push(Step::Number(number))?;
    }
    Ok(())
}

/// The steps to what a fault is about.
fn steps_of(alloc: Global, fault: &ServiceFault) -> Result<Vec<Step<'_>>, AllocError> {
    let mut steps = Vec::new(alloc);
    if let Some(at) = in_entry(fault) {
        steps.push(Step::Name("issuers"))?;
        steps.push(Step::Number(at.number))?;
        add_names(&mut steps, at.names)?;
    }
    match fault {
        ServiceFault::Member(at) | ServiceFault::Entry(_, at) => add_steps(&mut steps, at)?,
        ServiceFault::Policy(_, PolicyFault::Member(name) | PolicyFault::Range(name)) => {
            steps.push(Step::Name(name.text()))?;
        }
        ServiceFault::Rule(name, _) => {
            steps.push(Step::Name("rules"))?;
            steps.push(Step::Name(name.text()))?;
        }
        _ => {}
    }
    Ok(steps)
}

/// Where in the text what a fault is about stands, or would stand.
pub(crate) fn place_of(
    alloc: Global,
    fault: &ServiceFault,
    document: &[u8],
) -> Result<Option<Place>, AllocError> {
    match fault {
        ServiceFault::OutOfMemory | ServiceFault::TooLong | ServiceFault::NameTwice => Ok(None),
        ServiceFault::Json => Ok(json_place(alloc, document)),
        _ => {
            let steps = steps_of(alloc, fault)?;
            place_at(alloc, document, steps.as_slice())
        }
    }
}
