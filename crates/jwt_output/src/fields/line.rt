//! The line of a list of fields.
ghost use Rattle.std.specs.Prelude.{◌≡◌, ◌++◌, IfOk, map, option_map};
ghost use Rattle.jwt_output.specs.fields.Fields.{field_view, fields_line, in_line, line_part, value_view};

use crate::fields::field::{Field, FieldValue};
use crate::put_labelled;
use jwt_text::quoted;
use std::alloc::{AllocError, Global};

/// A value as a line has it; none where no line has it.
fn in_line(alloc: Global, value: FieldValue<'_>) -> Result<Option<Vec<u8>>, AllocError>
    ensures { IfOk result (λ v. option_map (λ t. t.items) v ≡ in_line (value_view value.entry)) }
{
    match value {
        FieldValue::Word(word) | FieldValue::Words(word, _) => Ok(Some(
            word.as_bytes().to_vec(alloc)?,
        )),
        FieldValue::Text(text) => match quoted(alloc, text) {
            Ok(text) => Ok(Some(text)),
            Err(_) => Err(AllocError),
        },
        FieldValue::Count(count) => Ok(Some(format!(in alloc; "{count}")?.into_bytes())),
        FieldValue::Tries(tries) => {
            let count = tries.len();
            Ok(Some(format!(in alloc; "{count}")?.into_bytes()))
        }
        FieldValue::Hint(_) | FieldValue::Json(_) | FieldValue::States(_) => Ok(None),
    }
}

/// Puts a field, where a line has it.
fn put_part(alloc: Global, out: &mut Vec<u8>, field: &Field<'_>) -> Result<(), AllocError>
    ensures { IfOk result (λ _. out.new.items ≡ out.old.items ++ line_part (field_view field.now)) }
{
    match in_line(alloc, field.value)? {
        Some(value) => put_labelled(out, field.name.names().0, value.as_slice()),
        None => Ok(()),
    }
}

/// The line of a list of fields.
#[tactic(auto, using(std::proofs::lemmas::List::at_drop_more, std::proofs::lemmas::List::at_drop_all))]
pub(crate) fn fields_line(alloc: Global, fields: &[Field<'_>]) -> Result<Vec<u8>, AllocError>
    ensures { IfOk result (λ v. v.items ≡ fields_line (map field_view fields.now)) }
{
    let mut text = Vec::new(alloc);
    for field in fields {
        put_part(alloc, &mut text, field)?;
    }
    text.push(b'\n')?;
    Ok(text)
}
