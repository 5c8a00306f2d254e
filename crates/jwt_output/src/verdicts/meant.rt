//! The meaning of a policy, in lines or in JSON.
ghost use Rattle.std.specs.Prelude.{◌≡◌, IfOk};
ghost use Rattle.jwt_advice.specs.Findings.{findings_view};
ghost use Rattle.jwt_output.specs.verdicts.Meant.{status_of};

use crate::Reply;
use crate::fields::{FieldName, FieldValue, Fields, Listing};
use crate::reasons::advice_sentence;
use crate::verdicts::members::put_members;
use jwt_advice::{AlgKeys, Findings, KeyFacts, Note};
use jwt_policy::Policy;
use jwt_settings::Printing;
use jwt_text::ObjectRef;
use std::alloc::{AllocError, Global};

/// How many keys each algorithm has.
fn put_algs(alloc: Global, out: &mut Listing, algs: &[AlgKeys]) -> Result<(), AllocError> {
    out.begin_list("algorithms")?;
    for counted in algs {
        let mut fields = Fields::none(alloc);
        fields.word(FieldName::Served, counted.alg.text())?;
        fields.count(FieldName::Keys, u64::from(counted.keys))?;
        out.row(alloc, "alg", &fields)?;
    }
    out.end_list()
}

/// The keys that are never used.
fn put_unused(alloc: Global, out: &mut Listing, numbers: &[u32]) -> Result<(), AllocError> {
    out.begin_list("unused")?;
    for number in numbers {
        out.number(alloc, "unused key=", *number)?;
    }
    out.end_list()
}

/// What one token can cost, and the ceilings of the policy.
fn put_bounds(
    alloc: Global,
    out: &mut Listing,
    policy: &Policy,
    facts: &KeyFacts,
) -> Result<(), AllocError> {
    let mut cost = Fields::none(alloc);
    cost.count(FieldName::Work, facts.work)?;
    cost.count(FieldName::Calls, facts.calls)?;
    let mut ceilings = Fields::none(alloc);
    ceilings.count(FieldName::WorkCeiling, policy.work())?;
    match (policy.max_calls(), out.printing()) {
        (Some(calls), _) => ceilings.count(FieldName::CallsCeiling, u64::from(calls))?,
        (None, Printing::Lines) => ceilings.word(FieldName::CallsCeiling, "-")?,
        (None, Printing::Json) => {
            ceilings.put(FieldName::CallsCeiling, FieldValue::Json(b"null"))?;
        }
    }
    out.begin_object("bounds")?;
    out.members(alloc, "cost", &cost)?;
    out.members(alloc, "ceilings", &ceilings)?;
    out.end_object()
}

/// What the keys of a policy are for.
pub(crate) fn put_facts(
    alloc: Global,
    out: &mut Listing,
    policy: &Policy,
    facts: &KeyFacts,
) -> Result<(), AllocError> {
    put_algs(alloc, out, facts.algs.as_slice())?;
    put_unused(alloc, out, facts.unused.as_slice())?;
    put_bounds(alloc, out, policy, facts)
}

/// An advice by its name, and what it is about; of a service also the number of the issuer.
fn note_fields<'a>(
    alloc: Global,
    issuer: Option<usize>,
    note: Note,
) -> Result<(Fields<'a>, &'static str), AllocError> {
    let mut fields = Fields::none(alloc);
    let name = match note {
        Note::Whole(advice) | Note::OfKey(advice, _) => advice.name(),
        Note::PrivateEntry(_) => "PrivateMember",
    };
    fields.word(FieldName::Name, name)?;
    if let Some(number) = issuer {
        fields.count(FieldName::Issuer, number as u64)?;
    }
    match note {
        Note::Whole(_) => {}
        Note::OfKey(_, key) => fields.count(FieldName::Key, u64::from(key))?,
        Note::PrivateEntry(place) => fields.count(FieldName::Entry, place as u64)?,
    }
    Ok((fields, name))
}

/// An advice with what it says and what to write: a line behind `advice`, or a JSON object.
pub fn explained_note(
    alloc: Global,
    printing: Printing,
    issuer: Option<usize>,
    note: Note,
) -> Result<Reply, AllocError> {
    let (mut fields, name) = note_fields(alloc, issuer, note)?;
    fields.word(FieldName::Sentence, advice_sentence(name))?;
    fields.printed(alloc, printing, 0)
}

/// What ought to be written otherwise, of a service with the number of the issuer.
pub(crate) fn put_notes(
    alloc: Global,
    out: &mut Listing,
    issuer: Option<usize>,
    notes: &[Note],
) -> Result<(), AllocError> {
    for note in notes {
        let (fields, _) = note_fields(alloc, issuer, *note)?;
        out.row(alloc, "advice", &fields)?;
    }
    Ok(())
}

/// The status: 1 where something ought to be written otherwise.
fn status_of(notes: &[Note]) -> u8
    ensures { result ≡ status_of notes.now }
{
    if notes.is_empty() { 0 } else { 1 }
}

/// What a policy means, in JSON or in lines: each member, with its value and whether it stands in the document; what the keys are for
/// and what one token can cost, where a key set is at hand; and what ought to be written otherwise, with the status 1 where anything is.
pub fn printed_policy(
    alloc: Global,
    printing: Printing,
    document: &ObjectRef<'_>,
    policy: &Policy,
    found: &Findings,
) -> Result<Reply, AllocError>
    ensures { IfOk result (λ a. a.status ≡ status_of (findings_view found.now).notes) }
{
    let status = status_of(found.notes.as_slice());
    let mut out = Listing::new(alloc, printing)?;
    out.begin_object("members")?;
    put_members(alloc, &mut out, "", document, policy)?;
    out.end_object()?;
    if let Some(facts) = &found.facts {
        put_facts(alloc, &mut out, policy, facts)?;
    }
    out.begin_list("advice")?;
    put_notes(alloc, &mut out, None, found.notes.as_slice())?;
    out.end_list()?;
    Ok(Reply::of(out.text()?, status))
}
