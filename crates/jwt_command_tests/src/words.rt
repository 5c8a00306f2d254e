//! Wrong words, and those that ask for the version.
use crate::runs::{assert_ran, assert_rows, ran_on};
use jwt_command::VERSION;
use jwt_support::examples::TOKEN_A;
use jwt_support::streams::Drip;
use std::test::Fail;

/// What clap says of wrong words.
static SAID: [&str; 4] = [
    "jwt||error: 'jwt' requires a subcommand but one was not provided<LF>  [subcommands: mac, keys, show, verify, issue, jwk, policy, help]<LF><LF>Usage: jwt <COMMAND><LF><LF>For more information, try '--help'.|2",
    "jwt mac --k AA== --limit 0||error: invalid value '0' for '--limit <N>': 0 is not in 1..=1048576<LF><LF>For more information, try '--help'.|2",
    "jwt mac||error: one of the following arguments has to be provided:<LF>  --k <TEXT><LF>  --key-file <FILE><LF><LF>For more information, try '--help'.|2",
    "jwt verify --now 7 --expect nonce||error: invalid value 'nonce' for '--expect <NAME=TEXT>': it has no '='<LF><LF>For more information, try '--help'.|2",
];

/// Words that are looked at before anything is read.
static WRONG: [&[&str]; 11] = [
    &["jwt", "verify"],
    &["jwt", "mac", "--k", "AA", "--key-file", "k"],
    &["jwt", "mac", "--k", "AA==", "--limit", "0"],
    &["jwt"],
    &["jwt", "--help"],
    &["jwt", "help", "mac"],
    &["jwt", "mac"],
    &["jwt", "mac", "--k", "AA", "--k", "AA"],
    &["jwt", "mac", "--k", "AA", "--limit", "1048577"],
    &["jwt", "mac", "--k", "AA", "more"],
    &["jwt", "decrypt"],
];

/// Each row of wrong words.
#[test]
fn wrong_words_print_what_clap_says(rt: HostRuntime) -> Result<(), Fail> {
    assert_rows(&rt, rt.alloc(), &SAID)?;
    // The words are looked at before the key.
    for words in &WRONG {
        let mut source = Drip::new(TOKEN_A.as_bytes(), 0);
        let found = ran_on(rt.alloc(), words, &mut source)?;
        assert_eq!(rt; found.status, 2);
        assert!(rt; !found.out.is_empty());
        assert!(rt; !source.failed);
    }
    Ok(())
}

/// `--version` reads no input.
#[test]
fn the_version_is_printed_and_nothing_read(rt: HostRuntime) -> Result<(), Fail> {
    let mut source = Drip::new(TOKEN_A.as_bytes(), 0);
    let found = ran_on(rt.alloc(), &["jwt", "--version"], &mut source)?;
    assert_ran(&rt, rt.alloc(), &found, &[VERSION], 0)?;
    assert!(rt; !source.failed);
    Ok(())
}
