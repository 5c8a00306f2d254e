//! The answers of a command besides a verdict, each a list of fields, in JSON or in lines.
ghost use Rattle.std.specs.Prelude.{◌≡◌, ◌++◌, IfOk, OnOk, option_map};
ghost use Rattle.jwt_output.specs.Jwk.{jwk_refused, random_failed, remedy_fields};
ghost use Rattle.jwt_output.specs.Refused.{access_fields, claims_refused, document_fields, issue_fields, issue_refused, member_fields, near_fields, policy_fields, printed_access_fault, printed_file_fault, printed_keys_fault, printed_policy_fault, printed_read_fault, refused_named};
ghost use Rattle.jwt_output.specs.Views.{reply_view};
ghost use Rattle.jwt_output.specs.fields.Verdicts.{fault_fields};

use crate::fields::{FieldName, FieldValue, Fields, put_claim, put_form};
use crate::nearest::nearest_member;
use crate::reply::Reply;
use jwt_access::AccessFault;
use jwt_issue::IssueFault;
use jwt_jws::FormFault;
use jwt_keys::KeysFault;
use jwt_policy::{ClaimFault, PolicyFault};
use jwt_settings::Printing;
use std::alloc::{AllocError, Global};

/// A verdict, and the name of a fault.
fn with_fault<'a>(
    alloc: Global,
    verdict: &'static str,
    fault: &'static str,
) -> Result<Fields<'a>, AllocError>
    ensures { IfOk result (λ f. f ≡ fault_fields verdict.now fault.now) }
{
    let mut out = Fields::none(alloc);
    out.word(FieldName::Verdict, verdict)?;
    out.word(FieldName::Fault, fault)?;
    Ok(out)
}

/// A read failed.
pub fn printed_read_fault(alloc: Global, printing: Printing) -> Result<Reply, AllocError>
    ensures { IfOk result (λ a. reply_view a ≡ printed_read_fault printing) }
{
    with_fault(alloc, "failed", "Read")?.printed(alloc, printing, 3)
}

/// A file can't be read.
pub fn printed_file_fault(
    alloc: Global,
    printing: Printing,
    name: &str,
) -> Result<Reply, AllocError>
    ensures { IfOk result (λ a. reply_view a ≡ printed_file_fault printing name.now) }
{
    let mut out = with_fault(alloc, "failed", "Read")?;
    out.put(FieldName::File, FieldValue::Text(name))?;
    out.printed(alloc, printing, 3)
}

/// A document is refused, by its word in lines and in JSON, for a fault of this name.
pub(crate) fn with_document<'a>(
    alloc: Global,
    line: &'static str,
    json: &'static str,
    fault: &'static str,
) -> Result<Fields<'a>, AllocError>
    ensures { IfOk result (λ f. f ≡ document_fields line.now json.now fault.now) }
{
    let mut out = Fields::none(alloc);
    out.word(FieldName::Verdict, "refused")?;
    out.put(FieldName::Document, FieldValue::Words(line, json))?;
    out.word(FieldName::Fault, fault)?;
    Ok(out)
}

/// A key set is refused.
pub fn printed_keys_fault(
    alloc: Global,
    printing: Printing,
    fault: &KeysFault,
) -> Result<Reply, AllocError>
    ensures { IfOk result (λ a. reply_view a ≡ printed_keys_fault printing fault.now) }
{
    with_document(alloc, "Keys", "keys", fault.name())?.printed(alloc, printing, 1)
}

/// A member.
pub(crate) fn put_member<'a>(out: &mut Fields<'a>, name: &'a str) -> Result<(), AllocError>
    ensures { OnOk result (out.new ≡ out.old ++ member_fields name.now) }
{
    out.put(FieldName::Member, FieldValue::Text(name))
}

/// The member that is near to a name, where there is one.
pub(crate) fn put_near<'a>(out: &mut Fields<'a>, near: Option<&'a str>) -> Result<(), AllocError>
    ensures { OnOk result (out.new ≡ out.old ++ near_fields (option_map (λ t. t.now) near.entry)) }
{
    match near {
        Some(near) => out.put(FieldName::Nearest, FieldValue::Hint(near)),
        None => Ok(()),
    }
}

/// The member that a fault of the policy names.
pub(crate) fn put_policy_fault<'a>(
    alloc: Global,
    out: &mut Fields<'a>,
    fault: &'a PolicyFault,
) -> Result<(), AllocError>
    ensures { OnOk result (out.new ≡ out.old ++ policy_fields fault.now) }
{
    match fault {
        PolicyFault::Member(member) => {
            put_member(out, member.text())?;
            put_near(out, nearest_member(alloc, member.text())?)
        }
        PolicyFault::Range(member) => put_member(out, member.text()),
        _ => Ok(()),
    }
}

/// A policy is refused.
pub fn printed_policy_fault(
    alloc: Global,
    printing: Printing,
    fault: &PolicyFault,
) -> Result<Reply, AllocError>
    ensures { IfOk result (λ a. reply_view a ≡ printed_policy_fault printing fault.now) }
{
    let mut out = with_document(alloc, "Policy", "policy", fault.name())?;
    put_policy_fault(alloc, &mut out, fault)?;
    out.printed(alloc, printing, 1)
}

/// The member that a fault of an access rule names, or the claim that it asks for.
pub(crate) fn put_access_fault<'a>(
    out: &mut Fields<'a>,
    fault: &'a AccessFault,
) -> Result<(), AllocError>
    ensures { OnOk result (out.new ≡ out.old ++ access_fields fault.now) }
{
    match fault {
        AccessFault::Member(member)
        | AccessFault::Range(member)
        | AccessFault::Claim(member)
        | AccessFault::ClaimRange(member) => put_member(out, member.text()),
        _ => Ok(()),
    }
}

/// An access rule is refused.
pub fn printed_access_fault(
    alloc: Global,
    printing: Printing,
    fault: &AccessFault,
) -> Result<Reply, AllocError>
    ensures { IfOk result (λ a. reply_view a ≡ printed_access_fault printing fault.now) }
{
    let mut out = with_document(alloc, "Access", "access", fault.name())?;
    put_access_fault(&mut out, fault)?;
    out.printed(alloc, printing, 1)
}

/// The line of claims that are refused.
pub fn refused_claims(alloc: Global, fault: &ClaimFault<'_>) -> Result<Reply, AllocError>
    ensures { IfOk result (λ a. reply_view a ≡ claims_refused fault.now) }
{
    let mut out = with_fault(alloc, "refused", fault.name())?;
    put_claim(&mut out, fault)?;
    out.printed(alloc, Printing::Lines, 1)
}

/// The signature that a fault of `issue` names.
fn put_issue_fault(out: &mut Fields<'_>, fault: IssueFault) -> Result<(), AllocError>
    ensures { OnOk result (out.new ≡ out.old ++ issue_fields fault) }
{
    match fault {
        IssueFault::AlgNotHmac(i) | IssueFault::KeyUnfit(i) | IssueFault::Spent(i) => {
            out.count(FieldName::Signature, i as u64)
        }
        _ => Ok(()),
    }
}

/// The line of a token that isn't issued.
pub fn refused_issue(alloc: Global, fault: IssueFault) -> Result<Reply, AllocError>
    ensures { IfOk result (λ a. reply_view a ≡ issue_refused fault) }
{
    let mut out = with_fault(alloc, "refused", fault.name())?;
    put_issue_fault(&mut out, fault)?;
    out.printed(alloc, Printing::Lines, 1)
}

/// A remedy, where there is one.
fn put_remedy<'a>(out: &mut Fields<'a>, remedy: Option<&'a str>) -> Result<(), AllocError>
    ensures { OnOk result
        (out.new ≡ out.old ++ remedy_fields (option_map (λ t. t.now) remedy.entry)) }
{
    match remedy {
        Some(remedy) => out.put(FieldName::Remedy, FieldValue::Text(remedy)),
        None => Ok(()),
    }
}

/// What is no public key: the name of what is wrong, and the command that makes a public key of it, where there is one.
pub fn refused_jwk(
    alloc: Global,
    printing: Printing,
    name: &'static str,
    remedy: Option<&str>,
) -> Result<Reply, AllocError>
    ensures { IfOk result (λ a. reply_view a
        ≡ jwk_refused printing name.now (option_map (λ t. t.now) remedy.entry)) }
{
    let mut out = with_fault(alloc, "refused", name)?;
    put_remedy(&mut out, remedy)?;
    out.printed(alloc, printing, 1)
}

/// The system's random source gave fewer octets than were asked for.
pub fn random_failed(alloc: Global, printing: Printing) -> Result<Reply, AllocError>
    ensures { IfOk result (λ a. reply_view a ≡ random_failed printing) }
{
    with_fault(alloc, "failed", "Random")?.printed(alloc, printing, 3)
}

/// The octets are no signed token.
pub fn printed_form_fault(
    alloc: Global,
    printing: Printing,
    fault: FormFault,
) -> Result<Reply, AllocError>
    ensures { IfOk result (λ a. a.status ≡ 1) }
{
    let mut out = with_fault(alloc, "refused", fault.name())?;
    put_form(&mut out, fault)?;
    out.printed(alloc, printing, 1)
}

/// A refusal by its name.
pub fn refused_named(
    alloc: Global,
    printing: Printing,
    name: &'static str,
) -> Result<Reply, AllocError>
    ensures { IfOk result (λ a. reply_view a ≡ refused_named printing name.now) }
{
    with_fault(alloc, "refused", name)?.printed(alloc, printing, 1)
}
