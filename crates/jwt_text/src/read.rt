//! Reading an object text, or telling why there is none.
ghost use Rattle.std.specs.Prelude.{◌≡◌, ◌≢◌, Some, None, Err, IfOk, IfErr, IfSome, IsErrOf, option_map};
ghost use Rattle.serde_json.specs.Find.{as_object};
ghost use Rattle.serde_json.specs.View.{view, members_view};
ghost use Rattle.jwt_text.specs.ObjectText.{reading, object_of, IsObjectText};

use crate::TextFault;
use crate::colons::count_colons;
use crate::entries::take_members;
use crate::node::BELOW;
use crate::owned::Object;
use crate::reading::read_members;
use crate::store::Store;
use json::{Reader, Scratch, Token};
use serde_json::{Map, Value};
use std::alloc::Global;

/// The object that the octets are the text of (RFC 8259), read in one pass. Only where there is none, or where memory was refused,
/// they are read once more, for the fault.
///
/// The faults, by the first cause that holds: `Json` where the octets aren't one JSON text in UTF-8 that nests at most 127 deep,
/// `NotObject` where the text is another value, `NameTwice` where some object in it, at any depth, has a name twice
/// (RFC 7515, section 4; RFC 7519, section 4). `OutOfMemory` may come in place of any answer, where an allocation was refused
/// or the text has 4 GiB or more.
pub fn object(alloc: Global, octets: &[u8]) -> Result<Object, TextFault>
    ensures text { IfOk result (IsObjectText octets.now) }
    ensures answer { ¬ IsErrOf result TextFault.OutOfMemory → result ≡ object_of octets.now }
{
    let mut scratch = Scratch::new(alloc);
    object_with(alloc, octets, &mut scratch)
}

/// The same as [`object`], with memory that was made before, and that serves for text after text.
pub fn object_with(alloc: Global, octets: &[u8], scratch: &mut Scratch) -> Result<Object, TextFault>
    ensures text { IfOk result (IsObjectText octets.now) }
    ensures answer { ¬ IsErrOf result TextFault.OutOfMemory → result ≡ object_of octets.now }
{
    match object_in(alloc, octets, scratch) {
        Some(object) => Ok(object),
        None => Err(fault_in(alloc, octets)),
    }
}

/// The object that the octets are the text of; `None` where there is none, or where it can't be held.
#[inline(always)]
fn object_in(alloc: Global, octets: &[u8], scratch: &mut Scratch) -> Option<Object>
    ensures { IfSome result (IsObjectText octets.now) }
{
    let text = std::str::from_utf8(octets).ok()?;
    object_in_text(alloc, text, scratch)
}

/// The same, of text.
#[inline(always)]
fn object_in_text(alloc: Global, text: &str, scratch: &mut Scratch) -> Option<Object>
    ensures { IfSome result (IsObjectText text.now) }
{
    let mut reader = Reader::new(text, scratch).ok()?;
    let Token::BeginObject = reader.next()? else {
        return None;
    };
    let mut store = Store::with_room(alloc, text.len())?;
    let entries = read_members(alloc, &mut reader, BELOW, &mut store)?;
    if reader.next().is_some() {
        return None;
    }
    Some(Object { store, entries })
}

/// Why the octets are the text of no object; `OutOfMemory` where they are the text of one.
#[tactic(auto, unfolding(crate::specs::ObjectText::object_of))]
fn fault_in(alloc: Global, octets: &[u8]) -> TextFault
    ensures { result ≢ TextFault.OutOfMemory → object_of octets.now ≡ Err result }
{
    let value = match value(alloc, octets) {
        Ok(value) => value,
        Err(fault) => return fault,
    };
    let Some(members) = members_in(value) else {
        return TextFault::NotObject;
    };
    match take_members(&members, count_colons(octets)) {
        Some(0) => TextFault::OutOfMemory,
        _ => TextFault::NameTwice,
    }
}

/// The value that `serde_json` reads.
#[tactic(auto, using(crate::proofs::ReadingLemmas::reading_some, crate::proofs::ReadingLemmas::reading_none))]
fn value(alloc: Global, octets: &[u8]) -> Result<Value, TextFault>
    ensures ok { IfOk result (λ v. reading octets.now ≡ Some (view v)) }
    ensures err { IfErr result (λ e. e ≢ TextFault.OutOfMemory
        → (e ≡ TextFault.Json) × (reading octets.now ≡ None)) }
{
    match Value::from_slice(alloc, octets) {
        Ok(value) => Ok(value),
        Err(error) => if error.is_memory() {
            Err(TextFault::OutOfMemory)
        } else {
            Err(TextFault::Json)
        },
    }
}

/// The members of an object.
fn members_in(value: Value) -> Option<Map<String, Value>>
    ensures { option_map (λ m. members_view m.entries) result ≡ as_object (view value) }
{
    match value {
        Value::Object(members) => Some(members),
        _ => None,
    }
}
