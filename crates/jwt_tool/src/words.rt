//! Words as a person writes them.
//!
//! A date that `--now` names is its seconds; `--trim` is `--token -`; and the one word of `show` that is neither an option nor an option's value
//! is the file of the token.
use jiff::Timestamp;
use std::alloc::{AllocError, Global};

/// The words that are run, and the file that stands in the place of standard input.
#[derive(Drop)]
pub struct Spelled {
    pub words: Vec<String>,
    pub input: Option<String>,
}

/// The seconds since 1970-01-01T00:00:00Z of a date of RFC 3339, section 5.6, from 1970 on; none of any other text.
fn seconds_of(text: &str) -> Option<i64> {
    if !text.contains('T') && !text.contains('t') {
        return None;
    }
    let seconds = text.parse::<Timestamp>().ok()?.as_second();
    if seconds < 0 { None } else { Some(seconds) }
}

/// The seconds of a date that a word names, behind `--now` or with it.
fn moment_word(alloc: Global, word: &str, is_moment: bool) -> Result<Option<String>, AllocError> {
    let (head, value) = match word.strip_prefix("--now=") {
        Some(value) => ("--now=", value),
        None => ("", if is_moment { word } else { "" }),
    };
    match seconds_of(value) {
        Some(seconds) => Ok(Some(format!(in alloc; "{head}{seconds}")?)),
        None => Ok(None),
    }
}

/// Whether the next word of `show` is this option's value.
fn has_value(word: &str) -> bool {
    word == "--limit" || word == "--now"
}

/// Whether a word of `show` is the file of its token.
fn is_file(word: &str, is_value: bool) -> bool {
    !is_value && (word == "-" || !word.starts_with('-'))
}

/// The name of the command; the empty text where there is none.
fn command_of(words: &[String]) -> &str {
    match words.get(1) {
        Some(word) => word.as_str(),
        None => "",
    }
}

/// Whether there is one word of `show` that is the file of its token.
fn has_file(words: &[String]) -> bool {
    let mut files: usize = 0;
    let mut is_value = false;
    for word in words.iter().skip(2) {
        if is_file(word.as_str(), is_value) {
            files = files.saturating_add(1);
        }
        is_value = has_value(word.as_str());
    }
    files == 1 && command_of(words) == "show"
}

/// The words without the file of `show`, with `--trim` and dates written out.
///
/// # Errors
/// `AllocError`, where an allocation was refused.
pub fn as_meant(alloc: Global, words: &[String]) -> Result<Spelled, AllocError> {
    let names_file = has_file(words);
    let is_verify = command_of(words) == "verify";
    let mut spelled = Spelled {
        words: Vec::with_capacity(alloc, words.len())?,
        input: None,
    };
    let mut is_value = false;
    let mut is_moment = false;
    for (place, word) in words.iter().enumerate() {
        let word = word.as_str();
        if place > 1 && names_file && is_file(word, is_value) {
            spelled.input = Some(String::from_str(alloc, word)?);
        } else if place > 1 && is_verify && word == "--trim" {
            spelled.words.push(String::from_str(alloc, "--token")?)?;
            spelled.words.push(String::from_str(alloc, "-")?)?;
        } else {
            match moment_word(alloc, word, is_moment)? {
                Some(moment) => spelled.words.push(moment)?,
                None => spelled.words.push(String::from_str(alloc, word)?)?,
            }
        }
        is_value = has_value(word);
        is_moment = word == "--now";
    }
    Ok(spelled)
}
