//! The answer to a service document that is refused.
ghost use Rattle.std.specs.Prelude.{◌≡◌, ◌≢◌, IfOk};

use crate::fields::{FieldName, FieldValue, Fields};
use crate::refusals::{put_access_fault, put_member, put_near, put_policy_fault, with_document};
use crate::reply::Reply;
use jwt_document::{Cause, FaultAt, ServiceFault};
use jwt_settings::Printing;
use std::alloc::{AllocError, Global};

/// The name of a cause.
fn cause_name(cause: Cause) -> &'static str {
    match cause {
        Cause::Unknown => "Unknown",
        Cause::Missing => "Missing",
        Cause::Kind => "Kind",
        Cause::Range => "Range",
        Cause::Together => "Together",
        Cause::Short => "Short",
        Cause::NoKey => "NoKey",
    }
}

/// The name of a fault: of a policy, a key set, a rule or keys in PEM that of its own.
fn fault_name(fault: &ServiceFault) -> &'static str {
    match fault {
        ServiceFault::OutOfMemory => "OutOfMemory",
        ServiceFault::TooLong => "TooLong",
        ServiceFault::Json => "Json",
        ServiceFault::NameTwice => "NameTwice",
        ServiceFault::Member(at) | ServiceFault::Entry(_, at) => cause_name(at.cause()),
        ServiceFault::EntryKind(_) => "Kind",
        ServiceFault::Policy(_, why) => why.name(),
        ServiceFault::Together(_) => "Together",
        ServiceFault::Keys(_, why) => why.name(),
        ServiceFault::NoUsableKey(_) => "NoUsableKey",
        ServiceFault::ShortSecret(_) => "ShortSecret",
        ServiceFault::Url(_) => "Url",
        ServiceFault::Issuer(_) => "Issuer",
        ServiceFault::IssuerTwice(_) => "IssuerTwice",
        ServiceFault::NotPublic(_) => "NotPublic",
        ServiceFault::Rule(_, why) => why.name(),
        ServiceFault::Pem(_, why) => why.name(),
    }
}

/// Adds a step to a JSON Pointer (RFC 6901, section 3).
fn add_step(pointer: &mut String, name: &str) -> Result<(), AllocError> {
    pointer.push('/')?;
    for c in name.chars() {
        match c {
            '~' => pointer.push_str("~0")?,
            '/' => pointer.push_str("~1")?,
            _ => pointer.push(c)?,
        }
    }
    Ok(())
}

/// The JSON Pointer of an object behind so much of it.
fn behind(alloc: Global, outer: &str, names: &[&'static str]) -> Result<String, AllocError> {
    let mut pointer = String::from_str(alloc, outer)?;
    for name in names {
        add_step(&mut pointer, name)?;
    }
    Ok(pointer)
}

/// The JSON Pointer of an object in the entry of this number.
fn in_entry(alloc: Global, number: usize, names: &[&'static str]) -> Result<String, AllocError> {
    let entry = format!(in alloc; "/issuers/{number}")?;
    behind(alloc, entry.as_str(), names)
}

/// The JSON Pointer of the object that a fault is about; empty for the whole.
fn object_of(alloc: Global, fault: &ServiceFault) -> Result<String, AllocError> {
    match fault {
        ServiceFault::Member(at) => behind(alloc, "", at.within().path()),
        ServiceFault::Entry(number, at) => in_entry(alloc, *number, at.within().path()),
        ServiceFault::EntryKind(number) => in_entry(alloc, *number, &[]),
        ServiceFault::Policy(number, _)
        | ServiceFault::Issuer(number)
        | ServiceFault::IssuerTwice(number)
        | ServiceFault::NotPublic(number) => in_entry(alloc, *number, &["policy"]),
        ServiceFault::Together(number)
        | ServiceFault::Keys(number, _)
        | ServiceFault::NoUsableKey(number)
        | ServiceFault::ShortSecret(number)
        | ServiceFault::Url(number) => in_entry(alloc, *number, &["keys"]),
        ServiceFault::Pem(number, _) => in_entry(alloc, *number, &["keys", "pem"]),
        ServiceFault::Rule(name, _) => {
            let mut rule = String::from_str(alloc, "/rules")?;
            add_step(&mut rule, name.text())?;
            Ok(rule)
        }
        _ => Ok(String::new(alloc)),
    }
}

/// The member of a fault, the one that is near to its name, and the number of its element.
fn put_at<'a>(
    out: &mut Fields<'a>,
    at: &'a FaultAt,
    near: Option<&'a str>,
) -> Result<(), AllocError> {
    put_member(out, at.name())?;
    put_near(out, near)?;
    match at.element() {
        Some(number) => out.count(FieldName::Entry, number as u64),
        None => Ok(()),
    }
}

/// The member that a fault names.
fn put_named<'a>(
    alloc: Global,
    out: &mut Fields<'a>,
    fault: &'a ServiceFault,
) -> Result<(), AllocError> {
    match fault {
        ServiceFault::Member(at) | ServiceFault::Entry(_, at) => {
            put_at(out, at, fault.nearest(alloc)?)
        }
        ServiceFault::Policy(_, why) => put_policy_fault(alloc, out, why),
        ServiceFault::Rule(_, why) => put_access_fault(out, why),
        ServiceFault::ShortSecret(_) => put_member(out, "secret"),
        ServiceFault::Url(_) => put_member(out, "url"),
        ServiceFault::Issuer(_) | ServiceFault::IssuerTwice(_) => put_member(out, "issuers"),
        ServiceFault::NotPublic(_) => put_member(out, "algs"),
        _ => Ok(()),
    }
}

/// The answer to a fault.
fn answer(alloc: Global, printing: Printing, fault: &ServiceFault) -> Result<Reply, AllocError>
    ensures { IfOk result (λ a. a.status ≡ 1) }
{
    let object = object_of(alloc, fault)?;
    let mut out = with_document(alloc, "Service", "service", fault_name(fault))?;
    if !object.is_empty() {
        out.put(FieldName::At, FieldValue::Text(object.as_str()))?;
    }
    put_named(alloc, &mut out, fault)?;
    out.printed(alloc, printing, 1)
}

/// A service document is refused. Where memory was refused there is no answer.
pub fn printed_service_fault(
    alloc: Global,
    printing: Printing,
    fault: &ServiceFault,
) -> Result<Reply, AllocError>
    ensures status { IfOk result (λ a. a.status ≡ 1) }
    ensures memory { IfOk result (λ _. fault.now ≢ ServiceFault.OutOfMemory) }
{
    match fault {
        ServiceFault::OutOfMemory => Err(AllocError),
        _ => answer(alloc, printing, fault),
    }
}
