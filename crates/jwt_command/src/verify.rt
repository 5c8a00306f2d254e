//! The command `verify`: the verdict on a token by a policy and a key set.
ghost use Rattle.std.specs.Prelude.{◌≡◌, ◌≢◌, ◌+◌, ◌⊎◌, false, true, not, map, option_map, IfOk, IfSome};
ghost use Rattle.jwt_keys.specs.KeySets.{key_set};
ghost use Rattle.jwt_verify.specs.TermsTable.{terms_meant};
ghost use Rattle.jwt_command.specs.Documents.{last_document, last_most};
ghost use Rattle.jwt_text.specs.Intake.{TakesAtMost};
ghost use Rattle.jwt_command.specs.Access.{rule_in_hand, under_rule};
ghost use Rattle.jwt_command.specs.Stops.{keys_most, token_most, verify_most};
ghost use Rattle.jwt_output.specs.verdicts.Printer.{unless_read_failed};
ghost use Rattle.jwt_mac.specs.Algorithm.{is_hmac_alg};
ghost use Rattle.std.specs.List.{list_any};
ghost use Rattle.jwt_command.specs.Verify.{keys_answer, payload_in, terms_of_keys, verifiers_for, verify_answer};
ghost use Rattle.jwt_words.specs.Seen.{held_view};
ghost use Rattle.jwt_output.specs.Views.{reply_view};
ghost use Rattle.jwt_command.specs.Views.{rule_view, printer_of};

use crate::access::rule_in_hand;
use crate::documents::{TakenDocument, document, read_document};
use crate::input::line::LineFault;
use crate::run::verifiers_if;
use crate::subject::{Replied, TokenReply, refused_keys, refused_policy, refused_rule};
use crate::telling::Telling;
use jwt_access::AccessFault;
use jwt_jws::{FormFault, Signed};
use jwt_keys::{KeySet, KeysFault};
use jwt_mac::{Alg, Budget, CountDown, Verifier};
use jwt_output::printed_read_fault;
use jwt_output::verdicts::printed_report;
use jwt_policy::{Policy, PolicyFault};
use jwt_settings::{Expectation, Moment, Printing};
use jwt_text::{LONGEST_KEY_SET, LONGEST_POLICY, Scratch, Source};
use jwt_verify::laws::{tells_reports, tells_tokens};
use jwt_verify::{Fault, Terms, Verdict, judge_under};
use jwt_words::Held;
use std::alloc::{AllocError, Global};

/// What is asked of `verify`, beside the documents, and the verifiers for it.
#[derive(Clone, Copy)]
pub(crate) struct VerifyOptions<'v> {
    /// How the answer is told.
    pub(crate) printing: Printing,
    /// The moment at which the claims are held against the policy.
    pub(crate) moment: Moment,
    /// Whether public keys are asked for.
    pub(crate) public_keys: bool,
    /// The verifiers for public keys that are at hand.
    pub(crate) verifiers: &'v [Box<dyn Verifier>],
    /// What one claim of an accepted token has to be, where that is asked.
    pub(crate) expected: Option<Expectation<'v>>,
}

/// Whether one of the algorithms is for public keys.
#[tactic(auto, using(std::proofs::lemmas::List::at_drop_more, std::proofs::lemmas::List::at_drop_all))]
fn has_public(algs: &[Alg]) -> bool
    ensures { result ≡ list_any (λ alg. not (is_hmac_alg alg)) algs.now }
{
    for alg in algs {
        if !alg.is_hmac() {
            return true;
        }
    }
    false
}

/// The verifiers for public keys: where they are asked for, and for a token in hand also where the policy allows an algorithm by public keys.
fn verifiers_for<'v>(
    options: &VerifyOptions<'v>,
    held: Held<'_>,
    policy: &Policy,
) -> &'v [Box<dyn Verifier>]
    ensures { map meaning result.now ≡ verifiers_for options.now.public_keys (held_view held.entry)
        (map meaning options.now.verifiers.now) policy.now }
{
    let by_public_keys = options.public_keys || held.token.is_some() && has_public(policy.algs());
    verifiers_if(by_public_keys, options.verifiers)
}

/// The terms of a verdict at a moment.
pub(crate) fn terms_at<'k, 'p, 'v>(
    moment: Moment,
    verifiers: &'v [Box<dyn Verifier>],
    policy: &'p Policy,
    keys: &'k KeySet,
) -> Terms<'k, 'p, 'v>
    ensures meant { terms_meant meaning result
        ≡ terms_of_keys (map meaning verifiers.now) moment.seconds policy.now (key_set keys.now) }
    ensures policy { result.policy.now ≡ policy.now }
{
    Terms {
        keys,
        policy,
        moment: moment.seconds as i64,
        verifiers,
    }
}

/// The fault of a token's form, where that is why it is refused.
fn form_fault(verdict: &Verdict<'_>) -> Option<FormFault> {
    match verdict {
        Verdict::Refused(Fault::Form(fault)) => Some(*fault),
        _ => None,
    }
}

/// The payload of the token that was read; no octets where none was.
fn payload_in<'t>(token: &'t Option<Signed<'_>>) -> &'t [u8]
    ensures { result.now ≡ payload_in token.now }
{
    match token {
        Some(signed) => signed.payload(),
        None => &[],
    }
}

/// The verdict on a token in hand.
pub(crate) fn on_octets(
    alloc: Global,
    terms: &Terms<'_, '_, '_>,
    telling: &Telling<'_>,
    token: &[u8],
) -> Result<TokenReply, AllocError>
    ensures line { IfOk result (λ a. reply_view a.reply
        ≡ (printer_of telling.now.printing telling.now.expected).token (rule_view telling.now.rule)
        (terms_meant (λ b. meaning (b.vtable, b.value)) terms.now) token.now) }
    ensures done { IfOk result (λ a. a.reply.status ≢ 3) }
{
    let mut budget = CountDown::new(terms.policy.work());
    let mut scratch = Scratch::new(alloc);
    tells_reports();
    tells_tokens();
    let judged = judge_under(alloc, token, terms, &mut budget, &mut scratch);
    let payload = payload_in(&judged.token);
    let demands = telling.demands(terms);
    let work = budget.octets();
    let reply = printed_report(
        alloc,
        telling.printing,
        &judged.report,
        &demands,
        payload,
        work,
    )?;
    Ok(TokenReply {
        reply,
        fault: form_fault(&judged.report.verdict),
    })
}

/// The verdict on the token, which is all that is left of the input.
fn on_token<'a, R: Source>(
    alloc: Global,
    terms: &Terms<'_, '_, '_>,
    telling: &Telling<'_>,
    r: &mut R,
) -> Result<Replied<'a>, AllocError>
    ensures line { IfSome (R.remaining r.old) (λ x. IfOk result (λ a. reply_view a.reply
        ≡ unless_read_failed (printer_of telling.now.printing telling.now.expected) (R.failed r.new)
        ((printer_of telling.now.printing telling.now.expected).token (rule_view telling.now.rule)
        (terms_meant (λ b. meaning (b.vtable, b.value)) terms.now) x))) }
    ensures stops { IfSome (R.remaining r.old) (λ x. (R.failed r.new ≡ true)
        ⊎ TakesAtMost (terms.now.policy.now.run.limit + 1) x (R.remaining r.new)) }
    ensures failed { IfOk result (λ a. a.reply.status ≡ 3 → R.failed r.new ≡ true) }
{
    let Some(token) = read_document(alloc, terms.policy.limit(), r)? else {
        return Ok(Replied::bare(printed_read_fault(alloc, telling.printing)?));
    };
    let told = on_octets(alloc, terms, telling, token.octets())?;
    Ok(told.on(TakenDocument::Input(token)))
}

/// The verdict on the token: in hand, or all that is left of the input.
fn on_last<'a, R: Source>(
    alloc: Global,
    terms: &Terms<'_, '_, '_>,
    telling: &Telling<'_>,
    token: Option<&'a [u8]>,
    r: &mut R,
) -> Result<Replied<'a>, AllocError>
    requires { R.failed r.old ≡ false }
    ensures line { IfSome (R.remaining r.old) (λ x. IfOk result (λ a. reply_view a.reply
        ≡ unless_read_failed (printer_of telling.now.printing telling.now.expected) (R.failed r.new)
        ((printer_of telling.now.printing telling.now.expected).token (rule_view telling.now.rule)
        (terms_meant (λ b. meaning (b.vtable, b.value)) terms.now)
        (last_document (option_map (λ t. t.now) token.entry) x)))) }
    ensures stops { IfSome (R.remaining r.old) (λ x. (R.failed r.new ≡ true)
        ⊎ TakesAtMost (last_most (terms.now.policy.now.run.limit + 1)
        (option_map (λ t. t.now) token.entry))
        x (R.remaining r.new)) }
    ensures failed { IfOk result (λ a. a.reply.status ≡ 3 → R.failed r.new ≡ true) }
{
    let Some(token) = token else {
        return on_token(alloc, terms, telling, r);
    };
    let told = on_octets(alloc, terms, telling, token)?;
    Ok(told.on(TakenDocument::Held(token)))
}

/// The access rule, where one is in hand, and the token.
fn on_rule<'a, R: Source>(
    alloc: Global,
    asked: &Telling<'_>,
    terms: &Terms<'_, '_, '_>,
    held: Held<'a>,
    r: &mut R,
) -> Result<Replied<'a>, AllocError>
    requires { R.failed r.old ≡ false }
    ensures line { IfSome (R.remaining r.old) (λ x. IfOk result (λ a. reply_view a.reply
        ≡ unless_read_failed (printer_of asked.now.printing asked.now.expected) (R.failed r.new)
        (under_rule (printer_of asked.now.printing asked.now.expected) (terms_meant (λ b. meaning (b.vtable, b.value)) terms.now)
        (rule_in_hand (held_view held.entry).access)
        (last_document (held_view held.entry).token x)))) }
    ensures stops { IfSome (R.remaining r.old) (λ x. (R.failed r.new ≡ true)
        ⊎ TakesAtMost (token_most (held_view held.entry) terms.now.policy.now) x
        (R.remaining r.new)) }
    ensures failed { IfOk result (λ a. a.reply.status ≡ 3 → R.failed r.new ≡ true) }
{
    match rule_in_hand(alloc, held.access) {
        Ok(rule) => {
            let telling = Telling {
                printing: asked.printing,
                rule: rule.as_ref(),
                expected: asked.expected,
            };
            on_last(alloc, terms, &telling, held.token, r)
        }
        Err(AccessFault::OutOfMemory) => Err(AllocError),
        Err(fault) => refused_rule(alloc, asked.printing, fault, held.access),
    }
}

/// The key set, in hand or a line, and what is behind it.
fn on_keys<'a, R: Source>(
    alloc: Global,
    options: &VerifyOptions<'_>,
    held: Held<'a>,
    policy: &Policy,
    r: &mut R,
) -> Result<Replied<'a>, AllocError>
    ensures line { IfSome (R.remaining r.old) (λ x. IfOk result (λ a. reply_view a.reply
        ≡ unless_read_failed (printer_of options.now.printing options.now.expected) (R.failed r.new)
        (keys_answer (printer_of options.now.printing options.now.expected) (verifiers_for options.now.public_keys (held_view held.entry) (map meaning options.now.verifiers.now))
        options.now.moment.seconds (held_view held.entry) policy.now x))) }
    ensures stops { IfSome (R.remaining r.old) (λ x. (R.failed r.new ≡ true)
        ⊎ TakesAtMost (keys_most (token_most (held_view held.entry) policy.now)
        (held_view held.entry).keys x) x (R.remaining r.new)) }
    ensures failed { IfOk result (λ a. a.reply.status ≡ 3 → R.failed r.new ≡ true) }
{
    let printing = options.printing;
    let text = match document(alloc, held.keys, r, LONGEST_KEY_SET) {
        Ok(text) => text,
        Err(LineFault::Read) => return Ok(Replied::bare(printed_read_fault(alloc, printing)?)),
        Err(LineFault::TooLong) => {
            return refused_keys(
                alloc,
                printing,
                KeysFault::TooLong,
                TakenDocument::Held(&[]),
            );
        }
        Err(LineFault::OutOfMemory) => return Err(AllocError),
    };
    match KeySet::read(alloc, text.octets()) {
        Ok(keys) => {
            let verifiers = verifiers_for(options, held, policy);
            let terms = terms_at(options.moment, verifiers, policy, &keys);
            let asked = Telling::of(printing, options.expected);
            on_rule(alloc, &asked, &terms, held, r)
        }
        Err(KeysFault::OutOfMemory) => Err(AllocError),
        Err(fault) => refused_keys(alloc, printing, fault, text),
    }
}

/// Runs `jwt verify`, in JSON or in lines, with verifiers for public keys, at a moment, on an input: the line of a policy, the line
/// of a key set, and a token, each where it isn't in hand; and an access rule, where one is in hand. The policy is read and refused before
/// the key set is taken, and that before the rule is read, and the rule before the token is taken.
pub(crate) fn verify<'a, R: Source>(
    alloc: Global,
    options: &VerifyOptions<'_>,
    held: Held<'a>,
    r: &mut R,
) -> Result<Replied<'a>, AllocError>
    ensures line { IfSome (R.remaining r.old) (λ x. IfOk result (λ a. reply_view a.reply
        ≡ verify_answer (printer_of options.now.printing options.now.expected) (verifiers_for options.now.public_keys (held_view held.entry) (map meaning options.now.verifiers.now))
        options.now.moment.seconds (held_view held.entry) (R.failed r.new) x)) }
    ensures stops { IfSome (R.remaining r.old) (λ x. (R.failed r.new ≡ true)
        ⊎ TakesAtMost (verify_most (held_view held.entry) x) x (R.remaining r.new)) }
    ensures failed { IfOk result (λ a. a.reply.status ≡ 3 → R.failed r.new ≡ true) }
{
    let printing = options.printing;
    let text = match document(alloc, held.policy, r, LONGEST_POLICY) {
        Ok(text) => text,
        Err(LineFault::Read) => return Ok(Replied::bare(printed_read_fault(alloc, printing)?)),
        Err(LineFault::TooLong) => {
            return refused_policy(
                alloc,
                printing,
                PolicyFault::TooLong,
                TakenDocument::Held(&[]),
            );
        }
        Err(LineFault::OutOfMemory) => return Err(AllocError),
    };
    match Policy::read(alloc, text.octets()) {
        Ok(policy) => on_keys(alloc, options, held, &policy, r),
        Err(PolicyFault::OutOfMemory) => Err(AllocError),
        Err(fault) => refused_policy(alloc, printing, fault, text),
    }
}
