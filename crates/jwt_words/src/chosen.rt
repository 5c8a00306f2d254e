//! What the matches of `clap` ask for.
ghost use Rattle.std.specs.Prelude.{◌≡◌, ◌≤◌, IfSome, codes, option_and_then, option_map};
ghost use Rattle.clap.specs.Words.{found_of, one_of, rows_of, subcommand_rows_of};
ghost use Rattle.clap.specs.declared.builder.ValueParser.TheVariants.{Unsigned};
ghost use Rattle.jwt_words.specs.Options.{now_range};
ghost use Rattle.jwt_words.specs.Words.{HasRange, IsLimit, alg_in, command_in, expected_in, files_in, form_in, form_named, is_named, is_set, issue_order, jwk_or_secret, keyed, keys_file_in, lines_order, mac_order, moment_in, named_moment, number_in, printing_in, show_order, verify_order};
ghost use Rattle.jwt_settings.specs.Seen.{expectation_view, seconds_of};
ghost use Rattle.jwt_words.specs.Seen.{command_view, files_view, lines_view};

use crate::command::{Command, Files, LinesOrder};
use crate::expectation::expectation_of;
use crate::jwk::{chosen_jwk, chosen_kept_secret, chosen_secret, value};
use crate::policy::{chosen_policy, documents_in};
use crate::pretty::chosen_pretty;
use clap::ArgMatches;
use jwt_jws::Form;
use jwt_mac::Alg;
use jwt_settings::{Expectation, LAST_MOMENT, Moment, Printing};
use jwt_text::LONGEST_TOKEN;

/// The command that the words ask for.
pub(crate) fn chosen<'a>(matches: &ArgMatches<'a>, clock: Option<Moment>) -> Option<Command<'a>>
    ensures limits { IfSome result (λ q. HasRange (command_view q)) }
    ensures command { option_map command_view result
        ≡ option_and_then (λ p. command_in (seconds_of clock) p.0 p.1)
        (subcommand_rows_of matches.now) }
{
    let (name, options) = matches.subcommand()?;
    chosen_command(name, options, clock)
}

/// What a subcommand asks for.
fn chosen_command<'a>(
    name: &str,
    options: &ArgMatches<'a>,
    clock: Option<Moment>,
) -> Option<Command<'a>>
    ensures limits { IfSome result (λ q. HasRange (command_view q)) }
    ensures command { option_map command_view result
        ≡ command_in (seconds_of clock) name.now (rows_of (found_of options.now)) }
{
    if is_set(options, "lines") {
        let lines = chosen_lines(options)?;
        return Some(Command::VerifyLines(lines));
    }
    if is_set(options, "pretty") {
        let order = chosen_pretty(options, clock)?;
        return Some(Command::Pretty(order));
    }
    match name {
        "mac" => chosen_mac(options),
        "keys" => Some(Command::Keys {
            printing: chosen_printing(options),
        }),
        "show" => chosen_show(options),
        "verify" => chosen_verify(options, clock),
        "issue" => chosen_issue(options),
        "jwk" => chosen_jwk_or_secret(options),
        "policy" => {
            let order = chosen_policy(options)?;
            Some(Command::Policy(order))
        }
        _ => None,
    }
}

/// What `jwk` asks for: the secret of a file with `--secret`, a new one with `--new`, and else the JWKs of public keys.
fn chosen_jwk_or_secret<'a>(options: &ArgMatches<'a>) -> Option<Command<'a>>
    ensures limits { IfSome result (λ q. HasRange (command_view q)) }
    ensures command { option_map command_view result ≡ jwk_or_secret (rows_of (found_of options.now)) }
{
    if is_named(options, "secret") {
        let order = chosen_kept_secret(options)?;
        return Some(Command::NewSecret(order));
    }
    if is_named(options, "new") {
        let order = chosen_secret(options)?;
        return Some(Command::NewSecret(order));
    }
    let order = chosen_jwk(options)?;
    Some(Command::Jwk(order))
}

/// The key by its text, or by its file: one of the two.
fn keyed<'a>(text: Option<&'a str>, name: Option<&'a str>, limit: u64) -> Option<Command<'a>>
    requires { IsLimit limit }
    ensures limits { IfSome result (λ q. HasRange (command_view q)) }
    ensures command { option_map command_view result
        ≡ keyed (option_map (λ t. t.now) text.entry) (option_map (λ t. t.now) name.entry) limit }
{
    match (text, name) {
        (Some(key), None) => Some(Command::Mac { key, limit }),
        (None, Some(name)) => Some(Command::MacFile { name, limit }),
        _ => None,
    }
}

/// The request of `mac`.
fn chosen_mac<'a>(options: &ArgMatches<'a>) -> Option<Command<'a>>
    ensures limits { IfSome result (λ q. HasRange (command_view q)) }
    ensures command { option_map command_view result ≡ mac_order (rows_of (found_of options.now)) }
{
    let text = options.get_str("k");
    let name = options.get_str("key-file");
    let limit = number(options, "limit", 1, LONGEST_TOKEN as u64)?;
    keyed(text, name, limit)
}

/// What `show` asks for without `--pretty`: it has no moment.
fn chosen_show<'a>(options: &ArgMatches<'a>) -> Option<Command<'a>>
    ensures limits { IfSome result (λ q. HasRange (command_view q)) }
    ensures command { option_map command_view result ≡ show_order (rows_of (found_of options.now)) }
{
    if is_named(options, "now") {
        return None;
    }
    let printing = chosen_printing(options);
    let limit = number(options, "limit", 1, LONGEST_TOKEN as u64)?;
    Some(Command::Show { printing, limit })
}

/// Whether a flag is used.
pub(crate) fn is_set(options: &ArgMatches<'_>, name: &str) -> bool
    ensures { result ≡ is_set name.now (rows_of (found_of options.now)) }
{
    match options.get_str(name) {
        Some(text) => text == "true",
        None => false,
    }
}

/// How the answer is to be printed.
pub(crate) fn chosen_printing(options: &ArgMatches<'_>) -> Printing
    ensures { result ≡ printing_in (rows_of (found_of options.now)) }
{
    if is_set(options, "json") {
        Printing::Json
    } else {
        Printing::Lines
    }
}

/// The moment of `--now`, where that names one.
pub(crate) fn chosen_now(options: &ArgMatches<'_>) -> Option<Moment>
    ensures { seconds_of result
        ≡ number_in now_range (one_of (codes "now") (rows_of (found_of options.now))) }
{
    Moment::new(number(options, "now", 0, LAST_MOMENT)?)
}

/// The moment that `--now` names, if any; none where that is no moment.
fn chosen_named_moment(options: &ArgMatches<'_>) -> Option<Option<Moment>>
    ensures { option_map seconds_of result ≡ named_moment (rows_of (found_of options.now)) }
{
    match options.get_str("now") {
        Some(_) => match chosen_now(options) {
            Some(now) => Some(Some(now)),
            None => None,
        },
        None => Some(None),
    }
}

/// Whether an option has a value.
pub(crate) fn is_named(options: &ArgMatches<'_>, name: &str) -> bool
    ensures { result ≡ is_named name.now (rows_of (found_of options.now)) }
{
    match options.get_str(name) {
        Some(_) => true,
        None => false,
    }
}

/// The request of `verify --lines`.
fn chosen_lines<'a>(options: &ArgMatches<'a>) -> Option<LinesOrder<'a>>
    ensures { option_map lines_view result ≡ lines_order (rows_of (found_of options.now)) }
{
    if is_named(options, "token") {
        return None;
    }
    if !is_named(options, "policy") {
        return None;
    }
    if !is_named(options, "keys") {
        return None;
    }
    let now = chosen_named_moment(options)?;
    let public_keys = is_set(options, "public-keys");
    let printing = chosen_printing(options);
    let expected = chosen_expectation(options)?;
    let files = chosen_files(options);
    Some(LinesOrder {
        now,
        public_keys,
        printing,
        expected,
        files,
    })
}

/// What `--expect` says, if anything; none where that says nothing of a claim.
pub(crate) fn chosen_expectation<'a>(options: &ArgMatches<'a>) -> Option<Option<Expectation<'a>>>
    ensures { option_map (λ e. option_map expectation_view e) result
        ≡ expected_in (rows_of (found_of options.now)) }
{
    match options.get_str("expect") {
        Some(word) => match expectation_of(word) {
            Some(expectation) => Some(Some(expectation)),
            None => None,
        },
        None => Some(None),
    }
}

/// The moment that `--now` names, or else the clock's.
fn chosen_moment(options: &ArgMatches<'_>, clock: Option<Moment>) -> Option<Moment>
    ensures { seconds_of result ≡ moment_in (seconds_of clock) (rows_of (found_of options.now)) }
{
    match options.get_str("now") {
        Some(_) => chosen_now(options),
        None => clock,
    }
}

/// The files that are named.
fn chosen_files<'a>(options: &ArgMatches<'a>) -> Files<'a>
    ensures { files_view result ≡ files_in (rows_of (found_of options.now)) }
{
    let policy = options.get_str("policy");
    let keys = options.get_str("keys");
    let access = options.get_str("access");
    let token = options.get_str("token");
    Files {
        policy,
        keys,
        access,
        token,
        key: None,
    }
}

/// The request of `verify`.
fn chosen_verify<'a>(options: &ArgMatches<'a>, clock: Option<Moment>) -> Option<Command<'a>>
    ensures limits { IfSome result (λ q. HasRange (command_view q)) }
    ensures command { option_map command_view result
        ≡ verify_order (seconds_of clock) (rows_of (found_of options.now)) }
{
    let printing = chosen_printing(options);
    let now = chosen_moment(options, clock)?;
    let public_keys = is_set(options, "public-keys");
    let expected = chosen_expectation(options)?;
    let files = chosen_files(options);
    Some(Command::Verify {
        printing,
        now,
        public_keys,
        expected,
        files,
    })
}

/// The algorithm of a token.
fn chosen_alg(options: &ArgMatches<'_>) -> Option<Alg>
    ensures { result ≡ alg_in (rows_of (found_of options.now)) }
{
    Alg::from_text(options.get_str("alg")?)
}

/// The form of this name, if any.
fn form_named(text: &str) -> Option<Form>
    ensures { result ≡ form_named text.now }
{
    match text {
        "compact" => Some(Form::Compact),
        "json" => Some(Form::General),
        "flattened" => Some(Form::Flattened),
        _ => None,
    }
}

/// The form of a token.
fn chosen_form(options: &ArgMatches<'_>) -> Option<Form>
    ensures { result ≡ form_in (rows_of (found_of options.now)) }
{
    form_named(options.get_str("form")?)
}

/// The file of the key set alone.
fn chosen_keys_file<'a>(options: &ArgMatches<'a>) -> Files<'a>
    ensures { files_view result ≡ keys_file_in (rows_of (found_of options.now)) }
{
    let keys = value(options, "keys");
    documents_in(None, keys)
}

/// The request of `issue`.
fn chosen_issue<'a>(options: &ArgMatches<'a>) -> Option<Command<'a>>
    ensures limits { IfSome result (λ q. HasRange (command_view q)) }
    ensures command { option_map command_view result ≡ issue_order (rows_of (found_of options.now)) }
{
    let alg = chosen_alg(options)?;
    let form = chosen_form(options)?;
    let typ = options.get_str("typ");
    let files = chosen_keys_file(options);
    Some(Command::Issue {
        alg,
        typ,
        form,
        files,
    })
}

/// `clap` has refused a number out of its range; its contract says so of the words and not of the
/// matches, so the range is seen here again.
pub(crate) fn number(options: &ArgMatches<'_>, id: &str, low: u64, high: u64) -> Option<u64>
    ensures limits { IfSome result (λ n. (low ≤ n) × (n ≤ high)) }
    ensures number { result
        ≡ number_in (Unsigned low high) (one_of id.now (rows_of (found_of options.now))) }
{
    let n = options.get_one::<u64>(id)?;
    if low <= n && n <= high { Some(n) } else { None }
}
