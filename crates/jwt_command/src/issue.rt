//! The command `issue`: a token of some claims by a key set.
ghost use Rattle.std.specs.Prelude.{◌≡◌, ◌≢◌, ◌+◌, ◌⊎◌, true, option_map, IfOk, IfSome};
ghost use Rattle.jwt_keys.specs.KeySets.{key_set};
ghost use Rattle.jwt_issue.specs.Views.{options_parts};
ghost use Rattle.jwt_issue.specs.Options.{issued_by};
ghost use Rattle.jwt_text.specs.Intake.{TakesAtMost};
ghost use Rattle.jwt_command.specs.Stops.{keys_most};
ghost use Rattle.jwt_command.specs.Issue.{claims_answer, issue_answer, of_claims, issued_answer};
ghost use Rattle.jwt_issue.specs.ClaimSets.{claim_set_of};
ghost use Rattle.jwt_output.specs.Refused.{unless_failed};
ghost use Rattle.jwt_output.specs.Views.{reply_view};

use crate::documents::{TakenDocument, document};
use crate::input::line::LineFault;
use crate::input::whole::{read_input, without_line_feed};
use crate::subject::{Replied, refused_keys};
use jwt_issue::{ClaimSet, IssueFault, IssueOptions, issue_by};
use jwt_keys::{KeySet, KeysFault};
use jwt_output::{Reply, printed_read_fault, refused_claims, refused_issue, refused_named};
use jwt_policy::ClaimFault;
use jwt_settings::Printing;
use jwt_text::{LONGEST_KEY_SET, LONGEST_TOKEN, Source, TextFault};
use std::alloc::{AllocError, Global};

/// The answer where these claims stand.
fn of_claims(
    alloc: Global,
    options: IssueOptions<'_>,
    keys: &KeySet,
    claims: &ClaimSet,
) -> Result<Reply, AllocError>
    ensures line { IfOk result
        (λ a. reply_view a
        ≡ issued_answer (issued_by (options_parts options.entry) (key_set keys.now).keys claims.now)) }
    ensures done { IfOk result (λ a. a.status ≢ 3) }
{
    match issue_by(alloc, options, keys, claims) {
        Ok(text) => Ok(Reply::of(text, 0)),
        Err(IssueFault::OutOfMemory) => Err(AllocError),
        Err(fault) => refused_issue(alloc, fault),
    }
}

/// The token of claims as they stand.
fn on_text(
    alloc: Global,
    options: IssueOptions<'_>,
    keys: &KeySet,
    text: &[u8],
) -> Result<Reply, AllocError>
    ensures line { IfOk result
        (λ a. reply_view a
        ≡ of_claims (options_parts options.entry) (key_set keys.now).keys (claim_set_of text.now)) }
    ensures done { IfOk result (λ a. a.status ≢ 3) }
{
    let octets = text.to_vec(alloc)?;
    match ClaimSet::from_octets(alloc, octets) {
        Ok(claims) => of_claims(alloc, options, keys, &claims),
        Err(ClaimFault::OutOfMemory) => Err(AllocError),
        Err(fault) => refused_claims(alloc, &fault),
    }
}

/// The claims, which are all that is left of the input.
fn on_claims<R: Source>(
    alloc: Global,
    options: IssueOptions<'_>,
    keys: &KeySet,
    r: &mut R,
) -> Result<Reply, AllocError>
    ensures line { IfSome (R.remaining r.old) (λ x. IfOk result (λ a. reply_view a
        ≡ unless_failed (R.failed r.new)
        (claims_answer (options_parts options.entry) (key_set keys.now).keys x))) }
    ensures taken { IfSome (R.remaining r.old)
        (λ x. (R.failed r.new ≡ true) ⊎ TakesAtMost (LONGEST_TOKEN + 1) x (R.remaining r.new)) }
    ensures failed { IfOk result (λ a. a.status ≡ 3 → R.failed r.new ≡ true) }
{
    match read_input(alloc, LONGEST_TOKEN, r) {
        Err(TextFault::Read) => printed_read_fault(alloc, Printing::Lines),
        Err(TextFault::TooLong) => refused_named(alloc, Printing::Lines, "TooLong"),
        Err(_) => Err(AllocError),
        Ok(input) => on_text(alloc, options, keys, without_line_feed(input.octets())),
    }
}

/// Runs `jwt issue` on an input: the line of a key set, where that isn't in hand, and claims with one line feed behind them or
/// none. The key set is read and refused before the claims are taken.
pub(crate) fn issue<'a, R: Source>(
    alloc: Global,
    options: IssueOptions<'_>,
    keys: Option<&'a [u8]>,
    r: &mut R,
) -> Result<Replied<'a>, AllocError>
    ensures line { IfSome (R.remaining r.old) (λ x. IfOk result (λ a. reply_view a.reply
        ≡ issue_answer (options_parts options.entry) (option_map (λ t. t.now) keys.entry)
        (R.failed r.new) x)) }
    ensures stops { IfSome (R.remaining r.old) (λ x. (R.failed r.new ≡ true)
        ⊎ TakesAtMost (keys_most (LONGEST_TOKEN + 1) (option_map (λ t. t.now) keys.entry) x) x
        (R.remaining r.new)) }
    ensures failed { IfOk result (λ a. a.reply.status ≡ 3 → R.failed r.new ≡ true) }
{
    let text = match document(alloc, keys, r, LONGEST_KEY_SET) {
        Ok(text) => text,
        Err(LineFault::Read) => {
            return Ok(Replied::bare(printed_read_fault(alloc, Printing::Lines)?));
        }
        Err(LineFault::TooLong) => {
            let document = TakenDocument::Held(&[]);
            return refused_keys(alloc, Printing::Lines, KeysFault::TooLong, document);
        }
        Err(LineFault::OutOfMemory) => return Err(AllocError),
    };
    match KeySet::read(alloc, text.octets()) {
        Ok(keys) => Ok(Replied::bare(on_claims(alloc, options, &keys, r)?)),
        Err(KeysFault::OutOfMemory) => Err(AllocError),
        Err(fault) => refused_keys(alloc, Printing::Lines, fault, text),
    }
}
