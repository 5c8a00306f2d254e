//! Where in the text of a document a fault is. No clause says it: it is shown alone.

use json::{Reader, Scratch, Token};
use serde_json::Value;
use std::alloc::{AllocError, Global};
use std::str;

/// How deep arrays and objects may nest.
const DEPTH: usize = 127;

/// A place in a text: its line, and its column in octets, each from 1.
#[derive(Clone, Copy, Debug, PartialEq, Eq)]
pub struct Place {
    /// The line.
    pub line: usize,
    /// The column, in octets.
    pub column: usize,
}

/// A step from a value into it.
#[derive(Clone, Copy)]
pub(crate) enum Step<'a> {
    /// To the member of this name.
    Name(&'a str),
    /// To the element of this number.
    Number(usize),
}

/// The place behind so many octets.
fn place_behind(octets: &[u8], count: usize) -> Place {
    let mut place = Place { line: 1, column: 1 };
    for octet in octets.iter().take(count) {
        place = if *octet == b'\n' {
            Place {
                line: place.line.saturating_add(1),
                column: 1,
            }
        } else {
            Place {
                line: place.line,
                column: place.column.saturating_add(1),
            }
        };
    }
    place
}

/// How many octets stand before the first at or behind the offset that is neither white space nor a comma.
fn begin_from(octets: &[u8], offset: usize) -> usize {
    let mut at = offset;
    for octet in octets.iter().skip(offset) {
        if !matches!(*octet, b' ' | b'\t' | b'\n' | b'\r' | b',') {
            return at;
        }
        at = at.saturating_add(1);
    }
    at
}

/// Goes to the value of the member of this name, and answers what the reader had read before the name.
fn to_member(reader: &mut Reader<'_>, most: usize, name: &str) -> Option<usize> {
    let Some(Token::BeginObject) = reader.next() else {
        return None;
    };
    for _ in 0..most {
        let before = reader.offset();
        let key = reader.next_key().ok()??;
        if key == name {
            return Some(before);
        }
        reader.skip_value(DEPTH).ok()?;
    }
    None
}

/// Goes to the element of this number, and answers what the reader had read before it.
fn to_element(reader: &mut Reader<'_>, number: usize) -> Option<usize> {
    let Some(Token::BeginArray) = reader.next() else {
        return None;
    };
    for _ in 0..number {
        if reader.take_end_array() {
            return None;
        }
        reader.skip_value(DEPTH).ok()?;
    }
    Some(reader.offset())
}

/// How many octets stand before what the steps lead to, as far as they lead.
fn offset_of(reader: &mut Reader<'_>, octets: &[u8], steps: &[Step<'_>]) -> usize {
    let mut at = begin_from(octets, 0);
    for step in steps {
        let next = match step {
            Step::Name(name) => to_member(reader, octets.len(), name),
            Step::Number(number) => to_element(reader, *number),
        };
        match next {
            Some(offset) => at = begin_from(octets, offset),
            None => return at,
        }
    }
    at
}

/// The place that the steps lead to, as far as they lead; none in octets that aren't UTF-8.
pub(crate) fn place_at(
    alloc: Global,
    octets: &[u8],
    steps: &[Step<'_>],
) -> Result<Option<Place>, AllocError> {
    let Ok(text) = str::from_utf8(octets) else {
        return Ok(None);
    };
    let mut scratch = Scratch::new(alloc);
    let mut reader = Reader::new(text, &mut scratch)?;
    let offset = offset_of(&mut reader, octets, steps);
    Ok(Some(place_behind(octets, offset)))
}

/// The place at which octets can't go on as a JSON text.
pub(crate) fn json_place(alloc: Global, octets: &[u8]) -> Option<Place> {
    match Value::from_slice(alloc, octets) {
        Ok(_) => None,
        Err(error) => Some(Place {
            line: error.line(),
            column: error.column(),
        }),
    }
}
