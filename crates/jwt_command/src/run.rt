//! The command, over any source and sink.
ghost use Rattle.std.specs.Prelude.{◌≡◌, ◌⊎◌, [], None, Option, Some, map, true, false, IfOk, IfSome};
ghost use Rattle.jwt_text.specs.Intake.{TakesAtMost};
ghost use Rattle.jwt_words.specs.InHand.{none_held};
ghost use Rattle.jwt_words.specs.Seen.{command_view, held_view};
ghost use Rattle.jwt_words.specs.Words.{Command as Wanted, HasRange, command_of};
ghost use Rattle.jwt_output.specs.Views.{reply_view};
ghost use Rattle.jwt_command.specs.Answered.{IsAnswer, version_answer};
ghost use Rattle.jwt_command.specs.RunLines.{ends};
ghost use Rattle.jwt_command.specs.Runs.{IsReading, IsRun, TellsWrong, draws, fails_otherwise, is_lines, reads_nothing};
ghost use Rattle.jwt_command.specs.Stops.{most_in_hand};
ghost use Rattle.jwt_command.specs.Verify.{verifiers_if};

use crate::issue::issue;
use crate::jwk::{jwk, secret};
use crate::keys::keys;
use crate::mac::{mac, mac_in_hand};
use crate::policy::policy;
use crate::show::show;
use crate::subject::{Ran, Replied, give_alone, give_no_memory, give_replied, give_wrong};
use crate::verify::{VerifyOptions, verify};
use crate::verify_lines::{Clock, LinesAsked, NoClock, run_lines};
use crate::version::VERSION;
use jwt_issue::IssueOptions;
use jwt_mac::Verifier;
pub use jwt_output::lack_memory;
use jwt_output::{Reply, printed_file_fault};
use jwt_settings::Printing;
use jwt_text::{Sink, Source};
use jwt_words::{Command, Held, WordsFault, read_words, unread};
use std::alloc::{AllocError, Global};

/// What a program has at hand for an answer, beside its clock.
#[derive(Clone, Copy)]
pub struct AtHand<'v, 'a> {
    /// The verifiers for public keys, which `verify` hands in where it is by public keys.
    pub built_in: &'v [Box<dyn Verifier>],

    /// The documents that were read from files, which stand in the place of those in the input, and octets of the system's random source.
    pub held: Held<'a>,
}

/// Runs the command that `words` ask for on `r`, prints its answer to `w`, and answers its status. The first word is the
/// program's name. No verifiers and no documents are at hand: with `--public-keys` the answer is as without, and a file that is named
/// can't be read. There is no clock: `verify` has to have `--now`.
///
/// 0: done; 1: refused or denied; 2: wrong words, and `w` has what is said of them, or a refused key of `mac`; 3: a read or a write failed;
/// 4: want of memory. The whole answer is in hand before any of it goes out.
pub fn run<R: Source, W: Sink>(alloc: Global, words: &[&str], r: &mut R, w: &mut W) -> u8
    ensures { IsRun [] (⟦<NoClock as Clock>⟧.says) none_held
        (command_of None (map (λ word. word.now) words.now))
        (draws (R.remaining r.old) (R.remaining r.new) (R.failed r.new))
        (r.new ≡ r.old)
        (ends (W.contents w.old) (W.contents w.new) (W.failed w.new) result) }
{
    let built_in: [Box<dyn Verifier>; 0] = [];
    let at_hand = AtHand {
        built_in: &built_in,
        held: Held::none(),
    };
    let words = read_words(alloc, words, None);
    run_read(alloc, words, &at_hand, &mut NoClock, r, w).status
}

/// The same as [`run`], of words that [`read_words`] has read, and with what a program has at hand, and the clock that `verify --lines`
/// asks for each line. A program reads the words once, at the moment that its clock says, if any, which `verify` takes where `--now` is left
/// out, and reads the files that they name before it runs. Where a file is named and its document isn't in hand, the answer is that it
/// can't be read, and nothing is read.
///
/// With `--lines` each line is answered before the next is waited for, and the status is 0 where each was answered.
///
/// Of wrong words, the text that [`read_words`] gave is printed, and the status is 2.
///
/// Which document was refused, why, and what was read of it stands in the subject: of `verify`, with `--lines` and without, of `keys`,
/// `issue`, `show` and `policy`. Where memory was refused it may be left out.
pub fn run_read<'a, R: Source, W: Sink, C: Clock>(
    alloc: Global,
    words: Result<Command<'_>, WordsFault>,
    at_hand: &AtHand<'_, 'a>,
    moments: &mut C,
    r: &mut R,
    w: &mut W,
) -> Ran<'a>
    requires { IfOk words (λ command. HasRange (command_view command)) }
    ensures run { (asked : Option Wanted) → IsReading words.entry asked
        → IsRun (map meaning at_hand.now.built_in.now) C.says (held_view at_hand.now.held) asked
        (draws (R.remaining r.old) (R.remaining r.new) (R.failed r.new))
        (r.new ≡ r.old)
        (ends (W.contents w.old) (W.contents w.new) (W.failed w.new) result.status) }

    // Of wrong words, what reading them gave.
    ensures wrong { TellsWrong words.entry
        (ends (W.contents w.old) (W.contents w.new) (W.failed w.new) result.status) }
{
    let command = match words {
        Ok(command) => command,
        Err(WordsFault::Wrong(text)) => return give_wrong(w, text.as_str()),
        Err(WordsFault::OutOfMemory) => return give_no_memory(w),
    };
    let reads = command.reads();
    if let Some(name) = unread(reads.files, at_hand.held) {
        return give_alone(w, printed_file_fault(alloc, reads.printing, name));
    }
    match command {
        Command::VerifyLines(order) => {
            let asked = LinesAsked {
                order,
                at_hand: *at_hand,
            };
            run_lines(alloc, &asked, moments, r, w)
        }
        _ => give_replied(w, reply_to(alloc, command, at_hand, r)),
    }
}

/// The line of the version.
fn version_line(alloc: Global) -> Result<Reply, AllocError>
    ensures { IfOk result (λ a. reply_view a ≡ version_answer) }
{
    Reply::line(alloc, VERSION, 0)
}

/// The verifiers for public keys, where they are asked for.
pub(crate) fn verifiers_if(
    public_keys: bool,
    built_in: &[Box<dyn Verifier>],
) -> &[Box<dyn Verifier>]
    ensures { map meaning result.now ≡ verifiers_if public_keys (map meaning built_in.now) }
{
    if public_keys {
        built_in
    } else {
        &built_in[..0]
    }
}

/// The answer to a command whose files are in hand, before any of it goes out. `verify --lines` has an answer for each line, and is
/// none of these commands.
fn reply_to<'a, R: Source>(
    alloc: Global,
    command: Command<'_>,
    at_hand: &AtHand<'_, 'a>,
    r: &mut R,
) -> Result<Replied<'a>, AllocError>
    requires range { HasRange (command_view command) }
    requires one { is_lines (command_view command) ≡ false }
    ensures answer { IfSome (R.remaining r.old) (λ x. IfOk result (λ a.
        IsAnswer (map meaning at_hand.now.built_in.now) (held_view at_hand.now.held)
        (command_view command.entry) (R.failed r.new) x (reply_view a.reply))) }
    ensures stops { IfSome (R.remaining r.old) (λ x. (R.failed r.new ≡ true)
        ⊎ IfSome (most_in_hand (held_view at_hand.now.held) (command_view command.entry) x)
        (λ most. TakesAtMost most x (R.remaining r.new))) }
    ensures unread { reads_nothing (Some (command_view command.entry)) ≡ true → r.new ≡ r.old }
    ensures known { reads_nothing (Some (command_view command.entry)) ≡ true
        → IfOk result (λ a. IsAnswer (map meaning at_hand.now.built_in.now) (held_view at_hand.now.held)
        (command_view command.entry) false [] (reply_view a.reply)) }
    ensures fails { IfOk result (λ a. a.reply.status ≡ 3 → (R.failed r.new ≡ true)
        ⊎ (fails_otherwise (command_view command.entry) ≡ true)) }
{
    let held = at_hand.held;
    match command {
        Command::Mac { key, limit } => Ok(Replied::bare(mac(alloc, key.as_bytes(), limit, r)?)),
        Command::MacFile { limit, .. } => {
            Ok(Replied::bare(mac_in_hand(alloc, held.key, limit, r)?))
        }
        Command::Keys { printing } => keys(alloc, printing, r),
        Command::Show { printing, limit } => show(alloc, printing, None, limit, r),
        Command::Pretty(order) => { show(alloc, Printing::Lines, Some(order), order.limit, r) }
        Command::Verify {
            printing,
            now,
            public_keys,
            expected,
            ..
        } => {
            let options = VerifyOptions {
                printing,
                moment: now,
                public_keys,
                verifiers: at_hand.built_in,
                expected,
            };
            verify(alloc, &options, held, r)
        }
        Command::VerifyLines(_) => unreachable!(),
        Command::Issue { alg, typ, form, .. } => {
            let options = IssueOptions {
                alg,
                typ,
                form,
                key: 0,
            };
            issue(alloc, options, held.keys, r)
        }
        Command::Jwk(order) => Ok(Replied::bare(jwk(alloc, order, held.key, r)?)),
        Command::NewSecret(order) => Ok(Replied::bare(secret(alloc, order, held)?)),
        Command::Policy(order) => policy(alloc, order.printing, at_hand.built_in, held),
        Command::Version => Ok(Replied::bare(version_line(alloc)?)),
    }
}
