//! A JSON text for a person.

use crate::terminal::layout::{ShownPlace, begins, depth_at, push_comma, push_gap};
use crate::terminal::strings::push_quoted;
use json::{Reader, Scratch, Token, is_valid};
use std::alloc::{AllocError, Global};
use std::str;

/// A key, with its colon.
fn push_key(out: &mut String, name: &str) -> Result<(), AllocError> {
    push_quoted(out, name)?;
    out.push(':')
}

/// The text of a token.
fn push_token(out: &mut String, token: Token<'_>) -> Result<(), AllocError> {
    match token {
        Token::BeginObject => out.push('{'),
        Token::EndObject => out.push('}'),
        Token::BeginArray => out.push('['),
        Token::EndArray => out.push(']'),
        Token::Key(name) => push_key(out, name),
        Token::String(text) => push_quoted(out, text),
        Token::Number(text) => out.push_str(text),
        Token::Bool(true) => out.push_str("true"),
        Token::Bool(false) => out.push_str("false"),
        Token::Null => out.push_str("null"),
        Token::Bad => Ok(()),
    }
}

/// A token, with what stands before it.
fn push_piece(out: &mut String, place: ShownPlace, token: Token<'_>) -> Result<(), AllocError> {
    push_comma(out, place.last, token)?;
    push_gap(out, place.last, begins(token), depth_at(place.depth, token))?;
    push_token(out, token)
}

/// The tokens of a text, laid out; none where one of them is none of JSON. What is written has the same tokens.
fn shown_tokens(
    alloc: Global,
    text: &str,
    scratch: &mut Scratch,
) -> Result<Option<String>, AllocError> {
    let mut reader = Reader::new(text, scratch)?;
    let mut out = String::new(alloc);
    let mut place = ShownPlace::first();
    'tokens: while let Some(token) = reader.next() {
        if matches!(token, Token::Bad) {
            return Ok(None);
        }
        push_piece(&mut out, place, token)?;
        place = place.step(token);
    }
    Ok(Some(out))
}

/// The JSON value that octets are, for a person: a line for each item and member, two spaces deeper for each bracket, and each character of
/// its texts that a terminal may obey, or that can't be seen, written `\uXXXX`. What is written is the same value, with its members in
/// their order and the digits of its numbers. None where the octets are no JSON text in UTF-8.
///
/// # Errors
/// `AllocError`, where an allocation was refused.
pub fn shown_json(alloc: Global, octets: &[u8]) -> Result<Option<String>, AllocError> {
    let Ok(text) = str::from_utf8(octets) else {
        return Ok(None);
    };
    let mut scratch = Scratch::new(alloc);
    if !is_valid(text, &mut scratch)? {
        return Ok(None);
    }
    shown_tokens(alloc, text, &mut scratch)
}
