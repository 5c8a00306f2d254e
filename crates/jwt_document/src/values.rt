//! What a member that was read says.

ghost use Rattle.std.specs.Prelude.{◌≡◌, [], IfOk, map, option_and_then, option_map, slice_get, unwrap_or};
ghost use Rattle.serde_json.specs.Find.{as_str};
ghost use Rattle.jwt_document.specs.Tables.{row_named, number_of, number_at, is_true_at};
ghost use Rattle.jwt_document.specs.Said.{number_if, number_in, default_text, row_text, text_in, text_of, texts, default_texts, row_texts, texts_in};
ghost use Rattle.jwt_document.specs.Views.{row_view, absent_view};

use crate::rows::{Absent, Row};
use jwt_text::{List, ObjectRef};
use std::alloc::{AllocError, Global};

/// The row of this name.
pub(crate) fn row_named(rows: &[Row], name: &str) -> Option<Row>
    ensures { option_map row_view result ≡ row_named name.now (map row_view rows.now) }
{
    for row in rows {
        if name == row.name {
            return Some(*row);
        }
    }
    None
}

// ---- numbers and truth values

/// The number of a member, where it is there.
pub(crate) fn number_if(members: &ObjectRef<'_>, name: &str) -> Option<u64>
    ensures { result ≡ number_if name.now members.now }
{
    match u64::try_from(members.whole(name)?) {
        Ok(value) => Some(value),
        Err(_) => None,
    }
}

/// The number of a member, or its default, if any.
fn number(members: &ObjectRef<'_>, row: &Row) -> Option<u64>
    ensures { result ≡ number_of (row_view row.now) members.now }
{
    if let Some(value) = number_if(members, row.name) {
        return Some(value);
    }
    match row.absent {
        Absent::Number(value) => Some(value),
        _ => None,
    }
}

/// The number of the member of this name, or its default, if any.
fn number_at(members: &ObjectRef<'_>, rows: &[Row], name: &str) -> Option<u64>
    ensures { result ≡ number_at name.now (map row_view rows.now) members.now }
{
    let row = row_named(rows, name)?;
    number(members, &row)
}

/// The same, and 0 where it has neither.
pub(crate) fn number_in(members: &ObjectRef<'_>, rows: &[Row], name: &str) -> u64
    ensures { result ≡ number_in (map row_view rows.now) name.now members.now }
{
    number_at(members, rows, name).unwrap_or(0)
}

/// Whether true is written.
pub(crate) fn is_true(members: &ObjectRef<'_>, name: &str) -> bool
    ensures { result ≡ is_true_at name.now members.now }
{
    members.flag(name).unwrap_or(false)
}

// ---- texts

/// The text that holds where a member is absent.
fn default_text(absent: Absent) -> &'static str
    ensures { result.now ≡ default_text (absent_view absent) }
{
    match absent {
        Absent::Said(text) => text,
        _ => "",
    }
}

/// The text that holds where the member of this name is absent.
fn row_text(rows: &[Row], name: &str) -> &'static str
    ensures { result.now ≡ row_text (map row_view rows.now) name.now }
{
    match row_named(rows, name) {
        Some(row) => default_text(row.absent),
        None => "",
    }
}

/// The text of the member of this name, or its default.
pub(crate) fn text_in<'d>(members: &ObjectRef<'d>, rows: &[Row], name: &str) -> &'d str
    ensures { result.now ≡ text_in (map row_view rows.now) name.now members.now }
{
    match members.text(name) {
        Some(text) => text,
        None => row_text(rows, name),
    }
}

// ---- lists of texts

/// The text at a place of a list, empty where there is none.
fn element<'d>(list: &List<'d>, place: usize) -> &'d str
    ensures { result.now ≡ unwrap_or (option_and_then as_str (slice_get list.now place)) [] }
{
    match list.text(place) {
        Some(text) => text,
        None => "",
    }
}

/// The texts of a list.
fn texts_of<'d>(alloc: Global, list: &List<'d>) -> Result<Vec<&'d str>, AllocError>
    ensures { IfOk result (λ v. texts v.items ≡ map text_of list.now) }
{
    let mut texts = Vec::new(alloc);
    for place in 0..list.len() {
        texts.push(element(list, place))?;
    }
    Ok(texts)
}

/// The texts that hold where a member is absent.
fn default_texts(absent: Absent) -> &'static [&'static str]
    ensures { texts result.now ≡ default_texts (absent_view absent) }
{
    match absent {
        Absent::Listed(words) => words,
        _ => &[],
    }
}

/// The texts that hold where the member of this name is absent.
fn row_texts(rows: &[Row], name: &str) -> &'static [&'static str]
    ensures { texts result.now ≡ row_texts (map row_view rows.now) name.now }
{
    match row_named(rows, name) {
        Some(row) => default_texts(row.absent),
        None => &[],
    }
}

/// The texts of the member of this name, or its default.
pub(crate) fn texts_in<'d>(
    alloc: Global,
    members: &ObjectRef<'d>,
    rows: &[Row],
    name: &str,
) -> Result<Vec<&'d str>, AllocError>
    ensures { IfOk result (λ v. texts v.items ≡ texts_in (map row_view rows.now) name.now members.now) }
{
    match members.list(name) {
        Some(list) => texts_of(alloc, &list),
        None => row_texts(rows, name).to_vec(alloc),
    }
}
