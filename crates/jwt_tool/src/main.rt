//! The program `jwt`: JSON Web Tokens on the command line.
#![tactic(auto)]

ghost use Rattle.std.specs.Prelude.{◌≤◌, IfOk};
ghost use Rattle.jwt_words.specs.Seen.{command_view};
ghost use Rattle.jwt_words.specs.Words.{HasRange};

mod files;
mod moments;
mod saying;
mod words;

use crate::files::{input_of, octets, read_files, token_octets};
use crate::moments::{System, moment};
use crate::saying::{
    issues, moment_of, reads_der, say_advice, say_hint, say_how_to_go_on, say_sentences,
    say_what_is_waited_for, say_which_line, say_why_refused, say_wrong,
};
use crate::words::{Spelled, as_meant};
use jwt_built_in::{BuiltIn, PREPARED_KEYS};
use jwt_command::documents::Held;
use jwt_command::run::{AtHand, lack_memory, run_read};
use jwt_command::{Command, Moment, Reads, WordsFault, read_words};
use jwt_keys::KeySet;
use jwt_mac::Verifier;
use jwt_output::{give, printed_file_fault};
use jwt_text::{LONGEST_KEY_SET, Reader, Sink, Source, Writer};
use std::alloc::Global;
use std::process::ExitCode;
use std::random::RandomSource;
use std::{env, io};

/// The clock is read once, before anything else, and by `verify --lines` for each line. Standard input is read without a buffer, so
/// that exactly what the contract of `run_read` names is taken, and standard output is written without one, so that an answer is
/// out before the next line is waited for.
fn main(rt: HostRuntime) -> ExitCode {
    let clock = moment(&rt);
    let mut w = Writer::new(rt.stdout());
    match run(&rt, clock, &mut w) {
        Ok(status) => ExitCode::from(status),
        Err(error) if error.kind() == io::ErrorKind::OutOfMemory => ExitCode::from(lack_memory(
            &mut w,
        )),
        Err(_) => {
            let _ = eprintln!(rt; "jwt: a word isn't UTF-8");
            ExitCode::from(2)
        }
    }
}

/// Runs the command that the program's words ask for, on standard input, or on the file that stands in its place. For wrong words nothing is read,
/// nor is a file opened that one of them may name.
fn run<W: Sink>(rt: &HostRuntime, clock: Option<Moment>, w: &mut W) -> io::Result<u8> {
    let args: Vec<String> = env::args(rt)?.collect(rt.alloc())?;
    let Spelled { words, input } = as_meant(rt.alloc(), args.as_slice())?;
    let words: Vec<&str> = words.iter().map(|word| word.as_str()).collect(rt.alloc())?;
    let asked = read_words(rt.alloc(), words.as_slice(), clock);
    if asked.is_err() {
        say_wrong(rt, &asked);
        say_hint(rt, words.as_slice());
    }
    let name = match input {
        Some(name) if asked.is_ok() && name.as_str() != "-" => name,
        _ => return run_words(rt, asked, &mut Reader::new(rt.stdin()), w),
    };
    let printing = reads_of(&asked).printing;
    match input_of(rt, printing, name.as_str())? {
        Some(file) => run_words(rt, asked, &mut Reader::new(file), w),
        None => Ok(give(w, printed_file_fault(rt.alloc(), printing, name.as_str()))),
    }
}

/// What the command reads that the words ask for; wrong words read nothing.
fn reads_of<'a>(asked: &Result<Command<'a>, WordsFault>) -> Reads<'a>
    ensures least { 1 ≤ result.key_limit }
    ensures greatest { result.key_limit ≤ LONGEST_KEY_SET }
{
    match asked {
        Ok(command) => command.reads(),
        Err(_) => Reads::nothing(),
    }
}

/// Fills so many octets from the system's random source; none where it fails. Nothing is asked of it where none are wanted.
fn random<'a>(rt: &HostRuntime, count: u32, octets: &'a mut [u8; 64]) -> Option<&'a [u8]> {
    if count == 0 {
        return None;
    }
    let asked = octets.get_mut(..count as usize)?;
    rt.fill_bytes(asked).ok()?;
    Some(asked)
}

/// The verifier for public keys: for the tokens of many lines with keys of the key set prepared, for one token with none, since to
/// prepare a key takes longer than to verify one signature. The key set is read here for that alone.
fn verifier_for(
    alloc: Global,
    asked: &Result<Command<'_>, WordsFault>,
    keys: Option<&[u8]>,
) -> BuiltIn {
    let (Ok(Command::VerifyLines(order)), Some(keys)) = (asked, keys) else {
        return BuiltIn::plain();
    };
    if !order.public_keys {
        return BuiltIn::plain();
    }
    match KeySet::read(alloc, keys) {
        Ok(keys) => BuiltIn::prepared(alloc, &keys, PREPARED_KEYS),
        Err(_) => BuiltIn::plain(),
    }
}

/// Reads the files that the words name, and runs the command with what they hold.
fn run_words<R: Source, W: Sink>(
    rt: &HostRuntime,
    asked: Result<Command<'_>, WordsFault>,
    r: &mut R,
    w: &mut W,
) -> io::Result<u8>
    requires { IfOk asked (λ command. HasRange (command_view command)) }
{
    say_what_is_waited_for(rt, &asked);
    let reads = reads_of(&asked);
    let files = read_files(rt, &reads)?;
    let verifier = verifier_for(rt.alloc(), &asked, octets(&files.keys));
    let built_in: [Box<dyn Verifier>; 1] = [Box::new(rt.alloc(), verifier)?];
    let mut fresh = [0; 64];
    let held = Held {
        policy: octets(&files.policy),
        keys: octets(&files.keys),
        access: octets(&files.access),
        token: token_octets(&files.token),
        key: octets(&files.key),
        random: random(rt, reads.random, &mut fresh),
    };
    let at_hand = AtHand {
        built_in: &built_in,
        held,
    };
    let mut moments = System { rt };
    let issues = issues(&asked);
    let now = moment_of(&asked);
    let der = reads_der(&asked);
    let ran = run_read(rt.alloc(), asked, &at_hand, &mut moments, r, w);
    say_advice(rt, reads.printing, &ran);
    match (ran.status, &ran.subject) {
        (1, Some(subject)) => {
            say_why_refused(rt, reads.printing, subject, now, ran.cause);
            say_which_line(rt, reads.printing, held, subject);
        }
        (1, None) if issues => say_sentences(rt, reads.printing, None, None, ran.cause),
        (1, None) if der => say_how_to_go_on(rt, ran.cause),
        _ => {}
    }
    Ok(ran.status)
}
