//! The place where a text can't be JSON, or where a name stands twice.
use json::{Reader, Scratch, Token};
use std::alloc::{AllocError, Global};
use std::collections::BTreeSet;
use std::str;

/// How deep arrays and objects may nest.
const DEPTH: usize = 127;

/// Where a text can't be JSON, or isn't read as JSON, and why.
#[derive(Clone, Copy)]
pub(crate) struct TextFault {
    /// How many octets stand before.
    pub(crate) offset: usize,
    pub(crate) words: &'static str,
}

/// The fault of a text that can't be JSON at the octet behind so many.
fn wrong(offset: usize) -> Option<TextFault> {
    Some(TextFault {
        offset,
        words: "no JSON text goes on so",
    })
}

/// How many octets stand before the first at or behind the offset that is no white space.
fn begin_from(octets: &[u8], offset: usize) -> usize {
    let mut at = offset;
    for octet in octets.iter().skip(offset) {
        if !matches!(*octet, b' ' | b'\t' | b'\n' | b'\r') {
            return at;
        }
        at = at.saturating_add(1);
    }
    at
}

/// How many octets stand before the comma that stands before the offset, or else before what stands behind it.
fn comma_or_next(octets: &[u8], offset: usize) -> usize {
    let before = offset.saturating_sub(1);
    if octets.get(before) == Some(&b',') {
        before
    } else {
        begin_from(octets, offset)
    }
}

/// A text that is read token by token.
#[derive(Drop)]
struct Scan<'a> {
    octets: &'a [u8],

    /// For each array and object that is open, whether it is an object.
    open: Vec<bool>,

    /// Whether a name, or the end, comes next in an object.
    awaits_name: bool,

    /// How many octets stand before the end of the whole value, which an array or an object is; none before that.
    end: Option<usize>,
}

impl Scan<'_> {
    /// A value that begins, or is read as a whole, where one may stand.
    fn value(&mut self, is_text: bool, begin: usize, end: usize) -> Option<TextFault> {
        if !self.awaits_name {
            self.awaits_name = self.open.last() == Some(&true);
            return None;
        }
        if is_text {
            wrong(comma_or_next(self.octets, end))
        } else {
            wrong(begin)
        }
    }

    /// An array or an object that begins.
    fn opens(&mut self, is_object: bool, begin: usize) -> Result<Option<TextFault>, AllocError> {
        let fault = self.value(false, begin, begin);
        if fault.is_some() {
            return Ok(fault);
        }
        if self.open.len() >= DEPTH {
            return Ok(Some(TextFault {
                offset: begin,
                words: "more than 127 levels aren't read",
            }));
        }
        self.open.push(is_object)?;
        self.awaits_name = is_object;
        Ok(None)
    }

    /// An array or an object that ends.
    fn closes(&mut self, is_object: bool, begin: usize) -> Option<TextFault> {
        if self.open.last() != Some(&is_object) || self.awaits_name != is_object {
            return wrong(begin);
        }
        self.open.pop();
        self.awaits_name = self.open.last() == Some(&true);
        if self.open.is_empty() {
            self.end = Some(begin.saturating_add(1));
        }
        None
    }

    /// A name, with the colon behind it.
    fn name(&mut self, end: usize) -> Option<TextFault> {
        if !self.awaits_name {
            return wrong(end.saturating_sub(1));
        }
        self.awaits_name = false;
        None
    }

    /// A number, where one may stand.
    fn number(&mut self, text: &str, begin: usize) -> Option<TextFault> {
        let fault = self.value(false, begin, begin);
        if fault.is_some() {
            return fault;
        }
        match text.parse::<f64>() {
            Ok(number) if number.is_finite() => None,
            _ => Some(TextFault {
                offset: begin,
                words: "no float of 64 bits has this number",
            }),
        }
    }

    /// The fault of the token that begins and ends there, if it has one.
    fn token(
        &mut self,
        token: Token<'_>,
        begin: usize,
        end: usize,
    ) -> Result<Option<TextFault>, AllocError> {
        Ok(match token {
            Token::BeginObject => self.opens(true, begin)?,
            Token::BeginArray => self.opens(false, begin)?,
            Token::EndObject => self.closes(true, begin),
            Token::EndArray => self.closes(false, begin),
            Token::Key(_) => self.name(end),
            Token::String(_) => self.value(true, begin, end),
            Token::Number(text) => self.number(text, begin),
            Token::Bool(_) | Token::Null => self.value(false, begin, end),
            Token::Bad => wrong(end),
        })
    }

    /// The fault of what stands behind the whole value, or of an end that comes too early.
    fn last(&self, offset: usize) -> Option<TextFault> {
        match self.end {
            Some(end) => {
                let begin = begin_from(self.octets, end);
                if begin < self.octets.len() {
                    wrong(begin)
                } else {
                    None
                }
            }
            None => wrong(offset),
        }
    }
}

/// Where a text in UTF-8 can't be a JSON array or object, and why; none where it is one. (A text that is another value has no fault, and
/// neither has one behind which nothing but white space stands.)
fn text_fault(alloc: Global, text: &str) -> Result<Option<TextFault>, AllocError> {
    let mut scratch = Scratch::new(alloc);
    let mut reader = Reader::new(text, &mut scratch)?;
    let mut scan = Scan {
        octets: text.as_bytes(),
        open: Vec::new(alloc),
        awaits_name: false,
        end: None,
    };
    let mut from = reader.offset();
    'tokens: while let Some(token) = reader.next() {
        let begin = begin_from(scan.octets, from);
        from = reader.offset();
        let fault = scan.token(token, begin, from)?;
        if fault.is_some() {
            return Ok(fault);
        }
        if scan.end.is_some() {
            return Ok(scan.last(from));
        }
        if scan.open.is_empty() {
            return Ok(None);
        }
    }
    Ok(scan.last(reader.offset()))
}

/// Octets with a question mark for each that isn't ASCII: outside of texts neither is JSON, and in a text both are.
fn in_ascii(alloc: Global, octets: &[u8]) -> Result<Vec<u8>, AllocError> {
    let mut ascii = Vec::with_capacity(alloc, octets.len())?;
    for octet in octets.iter() {
        ascii.push(if octet.is_ascii() { *octet } else { b'?' })?;
    }
    Ok(ascii)
}

/// Where octets can't be a JSON array or object, and why; none where they are one, or another value.
pub(crate) fn json_fault(alloc: Global, octets: &[u8]) -> Result<Option<TextFault>, AllocError> {
    let valid = match str::from_utf8(octets) {
        Ok(text) => return text_fault(alloc, text),
        Err(error) => error.valid_up_to(),
    };
    let ascii = in_ascii(alloc, octets)?;
    let fault = match str::from_utf8(ascii.as_slice()) {
        Ok(text) => text_fault(alloc, text)?,
        Err(_) => None,
    };
    match fault {
        Some(fault) if fault.offset < valid => Ok(Some(fault)),
        _ => Ok(Some(TextFault {
            offset: valid,
            words: "it isn't UTF-8",
        })),
    }
}

/// How many octets stand before the first quotation mark at or behind the offset.
fn quote_from(octets: &[u8], offset: usize) -> usize {
    let mut at = offset;
    for octet in octets.iter().skip(offset) {
        if *octet == b'"' {
            return at;
        }
        at = at.saturating_add(1);
    }
    at
}

/// How many octets stand before the first name that stands twice in one object; none where none does, or the octets aren't JSON. A name is
/// looked up with the number of its object, so that this takes n log n steps.
pub(crate) fn doubled_name(alloc: Global, octets: &[u8]) -> Result<Option<usize>, AllocError> {
    let Ok(text) = str::from_utf8(octets) else {
        return Ok(None);
    };
    let mut scratch = Scratch::new(alloc);
    let mut reader = Reader::new(text, &mut scratch)?;
    let mut names: BTreeSet<(usize, &str)> = BTreeSet::new(alloc);
    let mut open: Vec<usize> = Vec::new(alloc);
    let mut objects: usize = 0;
    let mut from = reader.offset();
    'tokens: while let Some(token) = reader.next() {
        match token {
            Token::BeginObject => {
                open.push(objects)?;
                objects = objects.saturating_add(1);
            }
            Token::EndObject => {
                open.pop();
            }
            Token::Key(name) => {
                let object = open.last().copied().unwrap_or(0);
                let Ok(is_new) = names.insert((object, name)) else {
                    return Err(AllocError);
                };
                if !is_new {
                    return Ok(Some(quote_from(octets, from)));
                }
            }
            _ => {}
        }
        from = reader.offset();
    }
    Ok(None)
}
