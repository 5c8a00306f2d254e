//! What is said of words that `clap` accepts and that ask for nothing.

use crate::chosen::{chosen_expectation, is_set};
use crate::jwk::wrong_jwk;
use crate::nearest::nearest;
use crate::policy::wrong_policy;
use clap::ArgMatches;
use jwt_mac::Alg;
use std::alloc::{AllocError, Global};

/// What is said where `clap` accepts the words and they ask for nothing: of `--alg` and `--form` it takes any text, and of the keys
/// of `mac` both or none.
pub(crate) fn unknown_name(alloc: Global, matches: &ArgMatches<'_>) -> Result<String, AllocError> {
    match matches.subcommand() {
        Some(("mac", options)) => wrong_keys(alloc, options),
        Some(("verify", options)) => wrong_verify(alloc, options),
        Some(("jwk", options)) => wrong_jwk(alloc, options),
        Some(("policy", options)) => wrong_policy(alloc, options),
        Some(("show", options)) => wrong_show(alloc, options),
        Some((_, options)) => unknown_option(alloc, options),
        None => unknown_option(alloc, matches),
    }
}

/// The text of keys of `mac` that are both there or both missing, as `clap` words it.
fn wrong_keys(alloc: Global, options: &ArgMatches<'_>) -> Result<String, AllocError> {
    let wrong = if options.get_str("k").is_some() {
        "the argument '--k <TEXT>' cannot be used with '--key-file <FILE>'"
    } else {
        "one of the following arguments has to be provided:\n  --k <TEXT>\n  --key-file <FILE>"
    };
    format!(in alloc; "error: {wrong}\n\nFor more information, try '--help'.\n")
}

/// What is said of `--expect` that says nothing of a claim, or of `--lines`.
fn wrong_verify(alloc: Global, options: &ArgMatches<'_>) -> Result<String, AllocError> {
    if chosen_expectation(options).is_some() {
        return wrong_lines(alloc, options);
    }
    let word = options.get_str("expect").unwrap_or("");
    format!(in alloc;
        "error: invalid value '{word}' for '--expect <NAME=TEXT>': it has no '='\n\nFor more information, try '--help'.\n"
    )
}

/// The text of `--lines` beside a file of one token, or without the other two files.
fn wrong_lines(alloc: Global, options: &ArgMatches<'_>) -> Result<String, AllocError> {
    let wrong = if options.get_str("token").is_some() {
        "the argument '--lines' cannot be used with '--token <FILE>'"
    } else {
        "the argument '--lines' needs '--policy <FILE>' and '--keys <FILE>'"
    };
    format!(in alloc; "error: {wrong}\n\nFor more information, try '--help'.\n")
}

/// What is said of options of `show` that don't stand together, as `clap` words it.
fn wrong_show(alloc: Global, options: &ArgMatches<'_>) -> Result<String, AllocError> {
    let wrong = if is_set(options, "pretty") {
        "the argument '--pretty' cannot be used with '--json'"
    } else {
        "the argument '--now <N>' needs '--pretty'"
    };
    format!(in alloc; "error: {wrong}\n\nFor more information, try '--help'.\n")
}

/// What is said of an option that there isn't.
fn unknown_option(alloc: Global, options: &ArgMatches<'_>) -> Result<String, AllocError> {
    let alg = options.get_str("alg").unwrap_or("");
    if Alg::from_text(alg).is_none() {
        let near = nearest(alloc, alg, &["HS256", "HS384", "HS512"])?;
        unknown_value(alloc, "--alg <A>", alg, "HS256, HS384, HS512", near)
    } else {
        let form = options.get_str("form").unwrap_or("");
        let near = nearest(alloc, form, &["compact", "json", "flattened"])?;
        unknown_value(alloc, "--form <F>", form, "compact, json, flattened", near)
    }
}

/// The text of a value that an option doesn't know, as `clap` words it.
pub(crate) fn unknown_value(
    alloc: Global,
    option: &str,
    value: &str,
    known: &str,
    near: Option<&str>,
) -> Result<String, AllocError> {
    let mut text = format!(in alloc;
        "error: invalid value '{value}' for '{option}'\n  [possible values: {known}]\n"
    )?;
    if let Some(near) = near {
        text.push_str(format!(in alloc; "\n  tip: a similar value exists: '{near}'\n")?.as_str())?;
    }
    text.push_str("\nFor more information, try '--help'.\n")?;
    Ok(text)
}
