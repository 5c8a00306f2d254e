//! The reason why a document is refused.
use crate::reasons::members::member_words;
use crate::reasons::place::{Position, place_behind};
use crate::reasons::reason::Reason;
use crate::reasons::scan::{doubled_name, json_fault};
use crate::terminal::push_quoted;
use jwt_access::AccessFault;
use jwt_document::ServiceFault;
use jwt_jws::FormFault;
use jwt_keys::KeysFault;
use jwt_policy::PolicyFault;
use std::alloc::{AllocError, Global};

/// A reason that is about no place.
fn bare(alloc: Global, words: &str) -> Result<Reason, AllocError> {
    Ok(Reason {
        place: None,
        words: String::from_str(alloc, words)?,
    })
}

/// What is wrong behind so many octets.
fn at(
    alloc: Global,
    octets: &[u8],
    offset: Option<usize>,
    words: &str,
) -> Result<Reason, AllocError> {
    let Some(before) = octets.get(..offset.unwrap_or(usize::MAX)) else {
        return bare(alloc, words);
    };
    Ok(Reason {
        place: Some(place_behind(before)),
        words: String::from_str(alloc, words)?,
    })
}

/// Where a text can't be JSON, or that it is no object.
fn of_json(alloc: Global, octets: &[u8]) -> Result<Reason, AllocError> {
    match json_fault(alloc, octets)? {
        Some(fault) => at(alloc, octets, Some(fault.offset), fault.words),
        None => bare(alloc, "it is no JSON object"),
    }
}

/// Where a name stands twice.
fn of_doubled(alloc: Global, octets: &[u8]) -> Result<Reason, AllocError> {
    let offset = doubled_name(alloc, octets)?;
    at(
        alloc,
        octets,
        offset,
        "this name stands twice in its object",
    )
}

/// A member by its name, and what it is.
fn of_member(alloc: Global, name: &str) -> Result<Reason, AllocError> {
    let mut words = String::new(alloc);
    push_quoted(&mut words, name)?;
    match member_words(name) {
        Some(kind) => {
            words.push(' ')?;
            words.push_str(kind)?;
        }
        None => words.push_str(" is no member of a policy")?,
    }
    Ok(Reason { place: None, words })
}

/// Why a policy is refused for a fault: the place at which its text can't be JSON or at which a name stands twice, or its member with what
/// that has to be.
///
/// # Errors
/// `AllocError`, where an allocation was refused.
pub fn policy_reason(
    alloc: Global,
    fault: &PolicyFault,
    document: &[u8],
) -> Result<Reason, AllocError> {
    match fault {
        PolicyFault::OutOfMemory => Err(AllocError),
        PolicyFault::Json => of_json(alloc, document),
        PolicyFault::NameTwice => of_doubled(alloc, document),
        PolicyFault::Member(name) => of_member(alloc, name.text()),
        PolicyFault::Range(name) => of_member(alloc, name.text()),
        PolicyFault::NoAlgorithm => of_member(alloc, "algs"),
        PolicyFault::TooLong => bare(alloc, "it has more than 65,536 octets"),
    }
}

/// The same of a key set. No octet of it is in what is said.
///
/// # Errors
/// `AllocError`, where an allocation was refused.
pub fn keys_reason(alloc: Global, fault: KeysFault, document: &[u8]) -> Result<Reason, AllocError> {
    match fault {
        KeysFault::OutOfMemory => Err(AllocError),
        KeysFault::Json if document.starts_with(b"-----BEGIN") => bare(
            alloc,
            "it is PEM: jwt jwk --file FILE makes a key set of it",
        ),
        KeysFault::Json => of_json(alloc, document),
        KeysFault::NameTwice => of_doubled(alloc, document),
        KeysFault::NotKeySet => bare(alloc, "it is no object with a list \"keys\""),
        KeysFault::TooManyKeys => bare(alloc, "it has more than 1,024 entries"),
        KeysFault::TooLong => bare(alloc, "it has more than 4,194,304 octets"),
    }
}

/// The same of an access rule.
///
/// # Errors
/// `AllocError`, where an allocation was refused.
pub fn access_reason(
    alloc: Global,
    fault: &AccessFault,
    document: &[u8],
) -> Result<Reason, AllocError> {
    match fault {
        AccessFault::OutOfMemory => Err(AllocError),
        AccessFault::Json => of_json(alloc, document),
        AccessFault::NameTwice => of_doubled(alloc, document),
        AccessFault::TooLong => bare(alloc, "it has more than 65,536 octets"),
        fault => of_rule(alloc, fault),
    }
}

/// The words that follow the name of a member, or of a claim, for which an access rule is refused.
fn rule_words(fault: &AccessFault) -> Option<(&str, &str)> {
    match fault {
        AccessFault::Member(name) => {
            Some((
                name.text(),
                " is no member of an access rule, or is of another kind",
            ))
        }
        AccessFault::Range(name) => {
            Some((
                name.text(),
                " has a text that is no scope token, or no JSON Pointer",
            ))
        }
        AccessFault::Claim(name) => {
            Some((
                name.text(),
                " isn't asked for by a list of texts, whole numbers and truth values, or by a whole number",
            ))
        }
        AccessFault::ClaimRange(name) => {
            Some((
                name.text(),
                " begins with / and is no JSON Pointer, or allows no value, or no number from 0 to 4,294,967,295",
            ))
        }
        _ => None,
    }
}

/// A member of an access rule, or a claim that it asks for, by its name.
fn of_rule(alloc: Global, fault: &AccessFault) -> Result<Reason, AllocError> {
    let mut words = String::new(alloc);
    if let Some((name, rest)) = rule_words(fault) {
        push_quoted(&mut words, name)?;
        words.push_str(rest)?;
    }
    Ok(Reason { place: None, words })
}

/// The same of a service document, in the sentence of its fault, with the place of what that is about, where it is known.
///
/// # Errors
/// `AllocError`, where an allocation was refused.
pub fn service_reason(
    alloc: Global,
    fault: &ServiceFault,
    document: &[u8],
) -> Result<Reason, AllocError> {
    let place = match fault.place(alloc, document)? {
        Some(place) => Some(Position {
            line: place.line as u64,
            column: place.column as u64,
        }),
        None => None,
    };
    let words = fault.line(alloc)?;
    Ok(Reason { place, words })
}

/// Why octets in JSON form are no token: the place at which their text can't be JSON, or at which a name stands twice; none of any other
/// fault. No octet of them is in what is said.
///
/// # Errors
/// `AllocError`, where an allocation was refused.
pub fn token_reason(
    alloc: Global,
    fault: Option<FormFault>,
    octets: &[u8],
) -> Result<Option<Reason>, AllocError> {
    match fault {
        Some(FormFault::Json) => Ok(Some(of_json(alloc, octets)?)),
        Some(FormFault::NameTwice) => Ok(Some(of_doubled(alloc, octets)?)),
        _ => Ok(None),
    }
}
