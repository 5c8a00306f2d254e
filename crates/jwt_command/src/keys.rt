//! The command `keys`: the entries of a key set, in lines or in JSON.
ghost use Rattle.std.specs.Prelude.{◌≡◌, ◌+◌, ◌⊎◌, true, IfOk, IfSome};
ghost use Rattle.jwt_text.specs.Intake.{TakesAtMost};
ghost use Rattle.jwt_command.specs.Keys.{IsListed};
ghost use Rattle.jwt_output.specs.Views.{reply_view};

use crate::documents::{TakenDocument, read_document};
use crate::subject::{Advised, Replied, refused_keys};
use jwt_advice::{Advice, Note, is_for_signing, is_short, is_small_rsa};
use jwt_keys::{KeySet, KeysFault};
use jwt_output::{printed_read_fault, printed_set};
use jwt_settings::Printing;
use jwt_text::{LONGEST_KEY_SET, Source};
use std::alloc::{AllocError, Global};

/// The advice on keys for which no policy is needed: on secrets that are too short, and on RSA keys that are too small.
fn weak_keys(alloc: Global, set: &KeySet) -> Result<Vec<Note>, AllocError> {
    let mut notes = Vec::new(alloc);
    for number in 0..set.len() {
        if let Some(key) = set.key(number) {
            if is_for_signing(key) && is_short(key.view()) {
                notes.push(Note::OfKey(Advice::ShortSecret, number))?;
            }
            if is_for_signing(key) && is_small_rsa(key.view()) {
                notes.push(Note::OfKey(Advice::SmallRsa, number))?;
            }
        }
    }
    Ok(notes)
}

/// Runs `jwt keys`, in JSON or in lines, on an input of at most 4,194,304 octets. A set without entries has no line.
pub(crate) fn keys<'a, R: Source>(
    alloc: Global,
    printing: Printing,
    r: &mut R,
) -> Result<Replied<'a>, AllocError>
    ensures answer { IfSome (R.remaining r.old)
        (λ x. IfOk result (λ a. IsListed printing (R.failed r.new) x (reply_view a.reply))) }
    ensures taken { IfSome (R.remaining r.old)
        (λ x. (R.failed r.new ≡ true) ⊎ TakesAtMost (LONGEST_KEY_SET + 1) x (R.remaining r.new)) }
    ensures failed { IfOk result (λ a. a.reply.status ≡ 3 → R.failed r.new ≡ true) }
{
    let Some(input) = read_document(alloc, LONGEST_KEY_SET, r)? else {
        return Ok(Replied::bare(printed_read_fault(alloc, printing)?));
    };
    match KeySet::read(alloc, input.octets()) {
        Ok(set) => {
            let notes = Advised::Notes(weak_keys(alloc, &set)?);
            Ok(Replied::advised(printed_set(alloc, printing, &set)?, notes))
        }
        Err(KeysFault::OutOfMemory) => Err(AllocError),
        Err(fault) => refused_keys(alloc, printing, fault, TakenDocument::Input(input)),
    }
}
