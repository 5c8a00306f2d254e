//! The command `verify --lines`: a verdict for each line of an input.
ghost use Rattle.std.specs.Prelude.{◌≡◌, ◌+◌, ◌<◌, ◌⊎◌, [], OnErr, OnOk, false, true, length, map, option_map, take, Err, IfSome, None, Ok, Some};
ghost use Rattle.std.specs.Io.KnownBytes.{Appends, prepend_known};
ghost use Rattle.jwt_keys.specs.KeySets.{key_set, key_set_of};
ghost use Rattle.jwt_policy.specs.Document.{policy_of};
ghost use Rattle.jwt_command.specs.Access.{rule_in_hand};
ghost use Rattle.jwt_command.specs.Lines.{CutReady, GivesLines, LineAnswered, MayHaveSent, SendsReady, StopsBy, with_held};
ghost use Rattle.jwt_output.specs.Printed.{out_of_memory};
ghost use Rattle.jwt_command.specs.RunLines.{LinesByPolicy, Printed, ends};
ghost use Rattle.jwt_settings.specs.Seen.{seconds_of};
ghost use Rattle.jwt_words.specs.Seen.{lines_view, held_view};
ghost use Rattle.jwt_words.specs.Words.{VerifyLines};
ghost use Rattle.jwt_command.specs.Runs.{RunsInHand};
ghost use Rattle.jwt_command.specs.TakenLines.{after_line, first_line};
ghost use Rattle.jwt_output.specs.verdicts.Printer.{printer};
ghost use Rattle.jwt_command.specs.Views.{rule_view, printer_of};
ghost use Rattle.jwt_command.specs.Verify.{terms_of_keys};

use crate::access::rule_in_hand;
use crate::clock::moment;
pub use crate::clock::{Clock, NoClock};
use crate::documents::TakenDocument;
use crate::input::buffered::Ahead;
use crate::input::line::LineFault;
use crate::run::{AtHand, verifiers_if};
use crate::subject::{
    Advised, Ran, give_alone, give_no_memory, give_replied, refused_keys, refused_policy,
    refused_rule,
};
use crate::telling::Telling;
use crate::verify::{on_octets, terms_at};
use jwt_access::AccessFault;
use jwt_keys::{KeySet, KeysFault};
use jwt_mac::Verifier;
use jwt_output::reasons::Cause;
use jwt_output::{give, lack_memory, printed_read_fault};
use jwt_policy::{Policy, PolicyFault};
use jwt_settings::{Expectation, Moment, Printing};
use jwt_text::{Sink, Source, write_out};
use jwt_words::LinesOrder;
use std::alloc::Global;

// From how many octets on the answers that are ready are sent, where more lines are in hand.
const MOST_READY: usize = 65_536;

/// What the answers to all lines share.
#[derive(Clone, Copy)]
struct Shared<'t> {
    /// How the answers are told, with the access rule, where one is in hand, and what is expected of a claim.
    telling: Telling<'t>,
    /// The moment that `--now` names, if it does.
    moment: Option<Moment>,
    /// The verifiers for public keys, where they are asked for.
    verifiers: &'t [Box<dyn Verifier>],
    /// The policy.
    policy: &'t Policy,
    /// The key set.
    keys: &'t KeySet,
}

/// A line of the input.
#[derive(Clone, Copy)]
struct NumberedLine<'l> {
    /// Its number, from 0.
    number: u64,
    /// Its octets, of which one past the limit is held at most.
    octets: &'l [u8],
}

/// Puts the answer to the line behind those that are ready. Refused with `Read` where the clock can't be read.
fn answer_line<C: Clock>(
    alloc: Global,
    shared: &Shared<'_>,
    clock: &mut C,
    line: &NumberedLine<'_>,
    ready: &mut Vec<u8>,
) -> Result<(), LineFault>
    ensures answered { OnOk result (LineAnswered
        (λ m l. (printer_of shared.now.telling.printing shared.now.telling.expected).token (rule_view shared.now.telling.rule)
        (terms_of_keys (map meaning shared.now.verifiers.now) m shared.now.policy.now
        (key_set shared.now.keys.now)) l)
        (C.says line.now.number line.now.octets.now) (seconds_of shared.now.moment)
        line.now.octets.now
        (Some ready.old.items) (Some ready.new.items)) }
    ensures kept { OnErr result (ready.new.items ≡ ready.old.items) }
    ensures read { result ≡ Err LineFault.Read → seconds_of shared.now.moment ≡ None }
{
    let Some(moment) = moment(shared.moment, clock, line.number, line.octets) else {
        return Err(LineFault::Read);
    };
    let terms = terms_at(moment, shared.verifiers, shared.policy, shared.keys);
    let Ok(told) = on_octets(alloc, &terms, &shared.telling, line.octets) else {
        return Err(LineFault::OutOfMemory);
    };
    match ready.extend_from_slice(told.reply.text.as_slice()) {
        Ok(()) => Ok(()),
        Err(_) => Err(LineFault::OutOfMemory),
    }
}

/// Takes the next line, of which one octet past the limit is held at most. `Ok(false)`: the input was at its end.
fn take_line<R: Source>(
    ahead: &mut Ahead,
    r: &mut R,
    limit: u32,
    line: &mut Vec<u8>,
) -> Result<bool, LineFault>
    ensures line { IfSome (prepend_known ahead.old (R.remaining r.old)) (λ x. result ≡ Ok true
        → (0 < length x) × (line.new.items ≡ take (limit + 1) (first_line x))
        × (prepend_known ahead.new (R.remaining r.new) ≡ Some (after_line x))) }
    ensures end { IfSome (prepend_known ahead.old (R.remaining r.old))
        (λ x. result ≡ Ok false → x ≡ []) }
    ensures read { result ≡ Err LineFault.Read → R.failed r.new ≡ true }
{
    line.clear();
    let most = limit as usize + 1;
    let mut any = false;
    'parts: for _ in 0..u64::MAX {
        match ahead.fill(r) {
            None => return Err(LineFault::Read),
            Some(false) => return Ok(any),
            Some(true) => match ahead.take_part(line, most) {
                Ok(true) => return Ok(true),
                Ok(false) => any = true,
                Err(_) => return Err(LineFault::OutOfMemory),
            },
        }
    }
    Err(LineFault::OutOfMemory)
}

/// Sends the answers that are ready. Whether all of them went out.
fn send_ready<W: Sink>(ready: &mut Vec<u8>, w: &mut W) -> bool
    ensures none { ready.new.items ≡ [] }
    ensures sent { result ≡ true
        → Appends (W.contents w.old) (W.contents w.new) ready.old.items }
    ensures cut { result ≡ false
        → CutReady ready.old.items (W.contents w.old) (W.contents w.new) (W.failed w.new) }
{
    let sent = write_out(w, ready.as_slice()).is_ok();
    ready.clear();
    sent
}

/// Sends the answers that are ready, where the next octets may have to be waited for, or where many are ready. Whether what was sent
/// went out.
fn send_in_time<W: Sink>(ahead: &Ahead, ready: &mut Vec<u8>, w: &mut W) -> bool
    ensures sent { result ≡ true → MayHaveSent ready.old.items ready.new.items
        (W.contents w.old) (W.contents w.new) }
    ensures cut { result ≡ false
        → CutReady ready.old.items (W.contents w.old) (W.contents w.new) (W.failed w.new) }
{
    if ahead.holds_line_feed() && ready.len() < MOST_READY {
        return true;
    }
    send_ready(ready, w)
}

/// Sends the answers that are ready, at the end of the input. The status.
fn end_lines<W: Sink>(ready: &mut Vec<u8>, w: &mut W) -> u8
    ensures { SendsReady ready.old.items
        (λ between. (between ≡ W.contents w.new) × (result ≡ 0))
        (W.contents w.old) (W.contents w.new) (W.failed w.new) result }
{
    if send_ready(ready, w) { 0 } else { 3 }
}

/// Sends the answers that are ready, and then what stopped the run. The status.
fn stop_lines<W: Sink>(
    alloc: Global,
    printing: Printing,
    fault: LineFault,
    ready: &mut Vec<u8>,
    w: &mut W,
) -> u8
    ensures { SendsReady ready.old.items
        (StopsBy fault (printer printing).read_failed (W.contents w.new) (W.failed w.new) result)
        (W.contents w.old) (W.contents w.new) (W.failed w.new) result }
{
    if !send_ready(ready, w) {
        return 3;
    }
    match fault {
        LineFault::Read => give(w, printed_read_fault(alloc, printing)),
        LineFault::OutOfMemory | LineFault::TooLong => lack_memory(w),
    }
}

/// Answers each line of an input as `verify` answers it alone, with a budget of its own. The answers that are ready are sent before
/// the next octets are waited for.
fn answer_lines<R: Source, W: Sink, C: Clock>(
    alloc: Global,
    shared: &Shared<'_>,
    clock: &mut C,
    r: &mut R,
    w: &mut W,
) -> u8
    ensures { IfSome (R.remaining r.old) (λ x. GivesLines
        (λ m l. (printer_of shared.now.telling.printing shared.now.telling.expected).token (rule_view shared.now.telling.rule)
        (terms_of_keys (map meaning shared.now.verifiers.now) m shared.now.policy.now
        (key_set shared.now.keys.now)) l)
        (printer_of shared.now.telling.printing shared.now.telling.expected).read_failed
        (with_held shared.now.policy.now.run.limit C.says) (seconds_of shared.now.moment) x
        (R.failed r.new)
        (W.contents w.old) (W.contents w.new) (W.failed w.new) result) }
{
    let printing = shared.telling.printing;
    let limit = shared.policy.limit();
    let Ok(mut ahead) = Ahead::new(alloc) else {
        return lack_memory(w);
    };
    let mut line = Vec::new(alloc);
    let mut ready = Vec::new(alloc);
    'lines: for number in 0..u64::MAX {
        if !send_in_time(&ahead, &mut ready, w) {
            return 3;
        }
        match take_line(&mut ahead, r, limit, &mut line) {
            Ok(true) => {
                let numbered = NumberedLine {
                    number,
                    octets: line.as_slice(),
                };
                if let Err(fault) = answer_line(alloc, shared, clock, &numbered, &mut ready) {
                    return stop_lines(alloc, printing, fault, &mut ready, w);
                }
            }
            Ok(false) => return end_lines(&mut ready, w),
            Err(fault) => return stop_lines(alloc, printing, fault, &mut ready, w),
        }
    }
    stop_lines(alloc, printing, LineFault::OutOfMemory, &mut ready, w)
}

/// What the answers to all lines rest on, with the documents in hand.
#[derive(Clone, Copy)]
struct LinesInHand<'o, 'v, 'a> {
    /// How the answers are told.
    printing: Printing,
    /// The moment that `--now` names, if it does.
    moment: Option<Moment>,
    /// The verifiers for public keys, where they are asked for.
    verifiers: &'v [Box<dyn Verifier>],
    /// The document of the policy.
    policy: &'a [u8],
    /// The document of the key set.
    keys: &'a [u8],
    /// The document of the access rule, if there is one.
    access: Option<&'a [u8]>,
    /// What one claim of an accepted token has to be, where that is asked.
    expected: Option<Expectation<'o>>,
}

/// Answers each line under the documents in hand, each of which is read once: the policy, the key set, and the access rule, where
/// one is in hand.
fn lines_in_hand<'a, R: Source, W: Sink, C: Clock>(
    alloc: Global,
    lines: &LinesInHand<'_, '_, 'a>,
    clock: &mut C,
    r: &mut R,
    w: &mut W,
) -> Ran<'a>
    ensures answer { IfSome (R.remaining r.old) (λ x.
        Printed out_of_memory
        (ends (W.contents w.old) (W.contents w.new) (W.failed w.new) result.status)
        ⊎ LinesByPolicy (printer_of lines.now.printing lines.now.expected) (map meaning lines.now.verifiers.now) C.says
        (seconds_of lines.now.moment) (policy_of lines.now.policy.now)
        (key_set_of lines.now.keys.now)
        (rule_in_hand (option_map (λ t. t.now) lines.now.access)) x
        (R.failed r.new)
        (ends (W.contents w.old) (W.contents w.new) (W.failed w.new) result.status)) }
{
    let printing = lines.printing;
    let policy = match Policy::read(alloc, lines.policy) {
        Ok(policy) => policy,
        Err(PolicyFault::OutOfMemory) => return give_no_memory(w),
        Err(fault) => {
            let document = TakenDocument::Held(lines.policy);
            return give_replied(w, refused_policy(alloc, printing, fault, document));
        }
    };
    let keys = match KeySet::read(alloc, lines.keys) {
        Ok(keys) => keys,
        Err(KeysFault::OutOfMemory) => return give_no_memory(w),
        Err(fault) => {
            let document = TakenDocument::Held(lines.keys);
            return give_replied(w, refused_keys(alloc, printing, fault, document));
        }
    };
    match rule_in_hand(alloc, lines.access) {
        Ok(rule) => {
            let telling = Telling {
                printing,
                rule: rule.as_ref(),
                expected: lines.expected,
            };
            let shared = Shared {
                telling,
                moment: lines.moment,
                verifiers: lines.verifiers,
                policy: &policy,
                keys: &keys,
            };
            Ran {
                status: answer_lines(alloc, &shared, clock, r, w),
                cause: Cause::None,
                subject: None,
                advised: Advised::Nothing,
            }
        }
        Err(AccessFault::OutOfMemory) => give_no_memory(w),
        Err(fault) => give_replied(w, refused_rule(alloc, printing, fault, lines.access)),
    }
}

/// What is asked of `verify --lines`, and what is at hand for it.
#[derive(Clone, Copy)]
pub(crate) struct LinesAsked<'o, 'v, 'a> {
    /// What the words ask for.
    pub(crate) order: LinesOrder<'o>,
    /// The verifiers and the documents at hand.
    pub(crate) at_hand: AtHand<'v, 'a>,
}

/// Runs `jwt verify --lines`, where each file that is named is in hand.
pub(crate) fn run_lines<'a, R: Source, W: Sink, C: Clock>(
    alloc: Global,
    asked: &LinesAsked<'_, '_, 'a>,
    clock: &mut C,
    r: &mut R,
    w: &mut W,
) -> Ran<'a>
    ensures answer { IfSome (R.remaining r.old) (λ x.
        Printed out_of_memory
        (ends (W.contents w.old) (W.contents w.new) (W.failed w.new) result.status)
        ⊎ RunsInHand (map meaning asked.now.at_hand.built_in.now) C.says
        (held_view asked.now.at_hand.held) (VerifyLines (lines_view asked.now.order)) x
        (R.failed r.new)
        (ends (W.contents w.old) (W.contents w.new) (W.failed w.new) result.status)) }
{
    let LinesAsked { order, at_hand } = *asked;
    let held = at_hand.held;
    match held.policy {
        Some(policy) => match held.keys {
            Some(keys) => {
                let lines = LinesInHand {
                    printing: order.printing,
                    moment: order.now,
                    verifiers: verifiers_if(order.public_keys, at_hand.built_in),
                    policy,
                    keys,
                    access: held.access,
                    expected: order.expected,
                };
                lines_in_hand(alloc, &lines, clock, r, w)
            }
            None => give_alone(w, printed_read_fault(alloc, order.printing)),
        },
        None => give_alone(w, printed_read_fault(alloc, order.printing)),
    }
}
