//! The command line, as `clap` has it, of the table of options.
ghost use Rattle.std.specs.Prelude.{◌≡◌, IfOk, false, map};
ghost use Rattle.clap.specs.Words.{app_of, rule_of};
ghost use Rattle.clap.specs.declared.builder.command.Command.TheViews.{out-Command as fields_of};
ghost use Rattle.jwt_words.specs.Rows.{row_view};
ghost use Rattle.jwt_words.specs.Options.{app_by, flag, issue_app, jwk_app, jwt_app, keys_app, mac_app, option, policy_app, rule_by, show_app, token_apps, top_app, verify_app};

use crate::options::{ISSUE, JWK, KEYS, MAC, OptionRow, POLICY, SHOW, Takes, VERIFY};
use clap::builder::ValueParser;
use clap::{Arg, ArgAction, Command};
use jwt_settings::LAST_MOMENT;
use jwt_text::LONGEST_TOKEN;
use std::alloc::{AllocError, Global};

/// An option `--name VALUE`, which may be left out.
fn option<'a>(alloc: Global, name: &'a str, value: &'a str, help: &'a str) -> Arg<'a>
    ensures shape { rule_of result ≡ option name.now }
    ensures local { result.global ≡ false }
{
    Arg::new(alloc, name)
        .long(name)
        .value_name(value)
        .help(help)
}

/// A flag `--name`.
fn flag<'a>(alloc: Global, name: &'a str, help: &'a str) -> Arg<'a>
    ensures shape { rule_of result ≡ flag name.now }
    ensures local { result.global ≡ false }
{
    Arg::new(alloc, name)
        .long(name)
        .action(ArgAction::SetTrue)
        .help(help)
}

/// An option by its row.
fn of_row<'a>(alloc: Global, row: OptionRow, has_clock: bool) -> Arg<'a>
    ensures shape { rule_of result ≡ rule_by has_clock (row_view row) }
    ensures local { result.global ≡ false }
{
    let OptionRow {
        name,
        value,
        takes,
        help,
    } = row;
    match takes {
        Takes::Nothing => flag(alloc, name, help),
        Takes::Text => option(alloc, name, value, help),
        Takes::Needed => option(alloc, name, value, help).required(true),
        Takes::Form => option(alloc, name, value, help).default_value("compact"),
        Takes::Size => option(alloc, name, value, help)
            .value_parser(ValueParser::unsigned(1, LONGEST_TOKEN as u64))
            .default_value("8192"),
        Takes::Moment => option(alloc, name, value, help)
            .value_parser(ValueParser::unsigned(0, LAST_MOMENT))
            .required(!has_clock),
        Takes::MaybeMoment => option(alloc, name, value, help)
            .value_parser(ValueParser::unsigned(0, LAST_MOMENT))
            .required(false),
    }
}

/// A command by its rows.
fn of_rows<'a>(
    alloc: Global,
    name: &'a str,
    about: &'a str,
    rows: &[OptionRow],
    has_clock: bool,
) -> Result<Command<'a>, AllocError>
    ensures shape { IfOk result (λ c. app_of c ≡ app_by has_clock name.now (map row_view rows.now)) }
    ensures local { IfOk result (λ c. (fields_of c).has_globals ≡ false) }
{
    let mut command = Command::new(alloc, name).about(about);
    for row in rows {
        command = command.arg(of_row(alloc, *row, has_clock))?;
    }
    Ok(command)
}

/// The command `mac`.
fn mac_command<'a>(alloc: Global) -> Result<Command<'a>, AllocError>
    ensures shape { IfOk result (λ c. app_of c ≡ mac_app) }
    ensures local { IfOk result (λ c. (fields_of c).has_globals ≡ false) }
{
    let about = "Computes the tag of a compact token, which standard input holds";
    of_rows(alloc, "mac", about, &MAC, false)
}

/// The command `keys`.
fn keys_command<'a>(alloc: Global) -> Result<Command<'a>, AllocError>
    ensures shape { IfOk result (λ c. app_of c ≡ keys_app) }
    ensures local { IfOk result (λ c. (fields_of c).has_globals ≡ false) }
{
    let about = "Lists the keys of a key set, which standard input holds";
    of_rows(alloc, "keys", about, &KEYS, false)
}

/// The command `show`.
fn show_command<'a>(alloc: Global) -> Result<Command<'a>, AllocError>
    ensures shape { IfOk result (λ c. app_of c ≡ show_app) }
    ensures local { IfOk result (λ c. (fields_of c).has_globals ≡ false) }
{
    let about =
        "Shows a token without verifying it; standard input holds it, or the file that is named";
    of_rows(alloc, "show", about, &SHOW, false)
}

/// The command `verify`.
fn verify_command<'a>(alloc: Global, has_clock: bool) -> Result<Command<'a>, AllocError>
    ensures shape { IfOk result (λ c. app_of c ≡ verify_app has_clock) }
    ensures local { IfOk result (λ c. (fields_of c).has_globals ≡ false) }
{
    let about =
        "Validates a token; standard input is a line with the policy, one with the key set, then the token";
    of_rows(alloc, "verify", about, &VERIFY, has_clock)
}

/// The command `issue`.
fn issue_command<'a>(alloc: Global) -> Result<Command<'a>, AllocError>
    ensures shape { IfOk result (λ c. app_of c ≡ issue_app) }
    ensures local { IfOk result (λ c. (fields_of c).has_globals ≡ false) }
{
    let about = "Issues a token; standard input is a line with the key set, then the claims";
    of_rows(alloc, "issue", about, &ISSUE, false)
}

/// The command `jwk`.
fn jwk_command<'a>(alloc: Global) -> Result<Command<'a>, AllocError>
    ensures shape { IfOk result (λ c. app_of c ≡ jwk_app) }
    ensures local { IfOk result (λ c. (fields_of c).has_globals ≡ false) }
{
    let about =
        "Prints the key set of public keys in PEM, which standard input holds, or of a new secret";
    of_rows(alloc, "jwk", about, &JWK, false)
}

/// The command `policy`.
fn policy_command<'a>(alloc: Global) -> Result<Command<'a>, AllocError>
    ensures shape { IfOk result (λ c. app_of c ≡ policy_app) }
    ensures local { IfOk result (λ c. (fields_of c).has_globals ≡ false) }
{
    let about =
        "Says what a policy means, alone or with its keys, and what ought to be written otherwise";
    of_rows(alloc, "policy", about, &POLICY, false)
}

/// The command line without its subcommands.
fn without_subcommands<'a>(alloc: Global) -> Command<'a>
    ensures { app_of result ≡ top_app }
{
    Command::new(alloc, "jwt")
        .about("Validates, issues and explains JSON Web Tokens")
        .after_help("'jwt --version' prints the version.")
        .subcommand_required(true)
}

/// The command line with the subcommands that take a token or a key set.
fn with_token_commands<'a>(alloc: Global, has_clock: bool) -> Result<Command<'a>, AllocError>
    ensures { IfOk result (λ c. app_of c ≡ token_apps has_clock) }
{
    without_subcommands(alloc)
        .subcommand(mac_command(alloc)?)?
        .subcommand(keys_command(alloc)?)?
        .subcommand(show_command(alloc)?)?
        .subcommand(verify_command(alloc, has_clock)?)
}

/// The command line of the program, where there is a clock or none.
pub(crate) fn command<'a>(alloc: Global, has_clock: bool) -> Result<Command<'a>, AllocError>
    ensures { IfOk result (λ c. app_of c ≡ jwt_app has_clock) }
{
    with_token_commands(alloc, has_clock)?
        .subcommand(issue_command(alloc)?)?
        .subcommand(jwk_command(alloc)?)?
        .subcommand(policy_command(alloc)?)
}
