//! The pieces of a line, as octets.
ghost use Rattle.std.specs.Prelude.{◌≡◌, ◌++◌, IfOk};

use std::alloc::{AllocError, Global};

/// The compact JSON text of a text, and `-` for none.
pub(crate) fn quoted_or_dash(alloc: Global, text: Option<&str>) -> Result<Vec<u8>, AllocError> {
    match text {
        Some(text) => match jwt_text::quoted(alloc, text) {
            Ok(quoted) => Ok(quoted),
            Err(_) => Err(AllocError),
        },
        None => b"-".to_vec(alloc),
    }
}

/// A whole number, and `-` for none.
pub(crate) fn number_or_dash(alloc: Global, number: Option<i64>) -> Result<Vec<u8>, AllocError> {
    match number {
        Some(number) => Ok(format!(in alloc; "{number}")?.into_bytes()),
        None => b"-".to_vec(alloc),
    }
}

/// Adds a label and the octets that it names.
pub fn put_labelled(out: &mut Vec<u8>, label: &str, value: &[u8]) -> Result<(), AllocError>
    ensures { IfOk result (λ _. out.new.items ≡ out.old.items ++ (label.now ++ value.now)) }
{
    out.extend_from_slice(label.as_bytes())?;
    out.extend_from_slice(value)
}

/// Adds a label and a whole number, and `-` for none.
pub(crate) fn put_number(
    alloc: Global,
    out: &mut Vec<u8>,
    label: &str,
    number: Option<i64>,
) -> Result<(), AllocError> {
    let text = number_or_dash(alloc, number)?;
    put_labelled(out, label, text.as_slice())
}

/// Adds a label and the compact JSON text of a text, and `-` for none.
pub(crate) fn put_quoted(
    alloc: Global,
    out: &mut Vec<u8>,
    label: &str,
    text: Option<&str>,
) -> Result<(), AllocError> {
    let text = quoted_or_dash(alloc, text)?;
    put_labelled(out, label, text.as_slice())
}
