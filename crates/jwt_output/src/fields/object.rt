//! The JSON object of a list of fields.
ghost use Rattle.std.specs.Prelude.{◌≡◌, ◌++◌, ◌∷◌, [], IfOk, OnOk, codes, map};
ghost use Rattle.json.specs.Json.{array};
ghost use Rattle.json.specs.Tree.{json_tokens};
ghost use Rattle.jwt_output.specs.fields.Fields.{field_view, fields_json, json_member};
ghost use Rattle.jwt_output.specs.Json.{items_in, json_value};
ghost use Rattle.jwt_output.specs.JsonTokens.{named_tokens};
ghost use Rattle.jwt_output.specs.verdicts.VerdictsJson.{state_json, state_members, try_json};

use crate::JsonOut;
use crate::fields::field::{Field, FieldValue};
use jwt_verify::{SigState, Try};
use std::alloc::{AllocError, Global};

/// Puts what became of a signature.
fn put_state_members(out: &mut JsonOut, state: SigState) -> Result<(), AllocError>
    ensures { OnOk result (out.new ≡ out.old ++ named_tokens (state_members state)) }
{
    match state {
        SigState::Barred(fault) => {
            out.text("state", "Barred")?;
            out.text("fault", fault.name())
        }
        SigState::Verified(key) => {
            out.text("state", "Verified")?;
            out.count("key", key as u64)
        }
        SigState::NoKey => out.text("state", "NoKey"),
        SigState::BadSignature => out.text("state", "BadSignature"),
        SigState::NotReached => out.text("state", "NotReached"),
        SigState::Stopped => out.text("state", "Stopped"),
    }
}

/// What became of a signature.
fn put_state(out: &mut JsonOut, state: SigState) -> Result<(), AllocError>
    ensures { OnOk result (out.new ≡ out.old ++ json_tokens (state_json state)) }
{
    out.begin_object()?;
    put_state_members(out, state)?;
    out.end_object()
}

/// What became of the signatures.
#[tactic(auto, using(std::proofs::lemmas::List::at_drop_more, std::proofs::lemmas::List::at_drop_all))]
fn put_states(out: &mut JsonOut, states: &[SigState]) -> Result<(), AllocError>
    ensures { OnOk result
        (out.new ≡ out.old ++ json_tokens (array (items_in (map state_json states.now)))) }
{
    out.begin_array()?;
    for state in states {
        put_state(out, *state)?;
    }
    out.end_list()
}

/// A try, with its cost.
fn put_try(out: &mut JsonOut, entry: Try) -> Result<(), AllocError>
    ensures { OnOk result (out.new ≡ out.old ++ json_tokens (try_json entry)) }
{
    out.begin_object()?;
    out.count("signature", entry.signature as u64)?;
    out.count("key", entry.key as u64)?;
    out.count("cost", entry.cost)?;
    out.end_object()
}

/// The tries.
#[tactic(auto, using(std::proofs::lemmas::List::at_drop_more, std::proofs::lemmas::List::at_drop_all))]
fn put_tries(out: &mut JsonOut, tries: &[Try]) -> Result<(), AllocError>
    ensures { OnOk result
        (out.new ≡ out.old ++ json_tokens (array (items_in (map try_json tries.now)))) }
{
    out.begin_array()?;
    for entry in tries {
        put_try(out, *entry)?;
    }
    out.end_list()
}

/// Puts a field.
fn put_member(alloc: Global, out: &mut JsonOut, field: &Field<'_>) -> Result<(), AllocError>
    ensures { OnOk result (out.new ≡ out.old ++ named_tokens (json_member (field_view field.now) ∷ [])) }
{
    let name = field.name.names().1;
    match field.value {
        FieldValue::Word(text)
        | FieldValue::Words(_, text)
        | FieldValue::Text(text)
        | FieldValue::Hint(text) => out.text(name, text),
        FieldValue::Count(count) => out.count(name, count),
        FieldValue::Json(octets) => out.value(alloc, name, octets),
        FieldValue::States(states) => {
            out.key(name)?;
            put_states(out, states)
        }
        FieldValue::Tries(tries) => {
            out.key(name)?;
            put_tries(out, tries)
        }
    }
}

/// Puts fields.
#[tactic(auto, using(std::proofs::lemmas::List::at_drop_more, std::proofs::lemmas::List::at_drop_all))]
pub(crate) fn put_fields(
    alloc: Global,
    out: &mut JsonOut,
    fields: &[Field<'_>],
) -> Result<(), AllocError>
    ensures { OnOk result
        (out.new ≡ out.old ++ named_tokens (map json_member (map field_view fields.now))) }
{
    for field in fields {
        put_member(alloc, out, field)?;
    }
    Ok(())
}

/// The JSON object of a list of fields.
pub(crate) fn fields_json(alloc: Global, fields: &[Field<'_>]) -> Result<Vec<u8>, AllocError>
    ensures { IfOk result (λ v. v.items ≡ fields_json (map field_view fields.now)) }
{
    let mut out = JsonOut::object(alloc)?;
    put_fields(alloc, &mut out, fields)?;
    out.line()
}
