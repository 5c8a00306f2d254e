//! A text as a JSON string.
ghost use Rattle.std.specs.Prelude.{◌<◌, ◌≤◌};

use crate::terminal::obeyed::is_obeyed;
use std::alloc::AllocError;

/// A hexadecimal digit.
fn digit(value: u32) -> char
    requires { value < 16 }
{
    if value < 10 {
        (b'0' + value as u8) as char
    } else {
        (b'a' + (value - 10) as u8) as char
    }
}

/// A hexadecimal digit.
fn push_digit(out: &mut String, value: u32) -> Result<(), AllocError>
    requires { value < 16 }
{
    out.push(digit(value))
}

/// `\u` and four hexadecimal digits.
fn push_unit(out: &mut String, unit: u32) -> Result<(), AllocError>
    requires { unit < 65536 }
{
    out.push_str("\\u")?;
    push_digit(out, unit / 4096)?;
    push_digit(out, unit / 256 % 16)?;
    push_digit(out, unit / 16 % 16)?;
    push_digit(out, unit % 16)
}

/// A character above U+FFFF, by its surrogates.
fn push_pair(out: &mut String, code: u32) -> Result<(), AllocError>
    requires least { 65536 ≤ code }
    requires most { code < 1114112 }
{
    let rest = code - 65536;
    push_unit(out, 55296 + rest / 1024)?;
    push_unit(out, 56320 + rest % 1024)
}

/// A character by its code units.
fn push_code(out: &mut String, c: char) -> Result<(), AllocError> {
    let code = c as u32;
    if code < 65536 {
        push_unit(out, code)
    } else {
        push_pair(out, code)
    }
}

/// A quotation mark or a backslash.
fn push_escaped(out: &mut String, c: char) -> Result<(), AllocError>
    requires { c < 128 }
{
    out.push('\\')?;
    out.push(c)
}

/// A character in a string.
fn push_char(out: &mut String, c: char) -> Result<(), AllocError> {
    if is_obeyed(c) {
        push_code(out, c)
    } else if c == '"' || c == '\\' {
        push_escaped(out, c)
    } else {
        out.push(c)
    }
}

/// The characters of a text.
fn push_inner(out: &mut String, text: &str) -> Result<(), AllocError> {
    for c in text.chars() {
        push_char(out, c)?;
    }
    Ok(())
}

/// Adds a text as a JSON string, in which each character that a terminal may obey, or that can't be seen, is written `\uXXXX`, and one above
/// U+FFFF as a pair of these.
///
/// # Errors
/// `AllocError`, where an allocation was refused; a part may have been added then.
pub fn push_quoted(out: &mut String, text: &str) -> Result<(), AllocError> {
    out.push('"')?;
    push_inner(out, text)?;
    out.push('"')
}
