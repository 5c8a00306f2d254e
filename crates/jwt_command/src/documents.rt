//! The documents of a command: in hand, or in the lines of the input.
ghost use Rattle.std.specs.Prelude.{◌≡◌, ◌≤◌, ◌+◌, ◌⊎◌, false, true, option_map, take, Err, IfErr, IfNone, IfOk, IfSome, OnOk, OnSome};
ghost use Rattle.jwt_command.specs.Documents.{DocumentFails, TakesDocument, document_most};
ghost use Rattle.jwt_text.specs.Intake.{TakesAtMost};
ghost use Rattle.jwt_command.specs.Documents.{document_octets};

use crate::input::line::{LineFault, line};
use jwt_text::{GREATEST_LIMIT, Intake, Source, TextFault};
pub use jwt_words::Held;
use std::alloc::{AllocError, Global};

/// The first octets of a source: all that it gives, or one more than the limit, which shows that there are too many. They are
/// pulled in pieces. None where the source fails.
///
/// The limit is 1 to 4,194,304. `AllocError` comes where an allocation was refused.
pub fn read_document<R: Source>(
    alloc: Global,
    limit: u32,
    r: &mut R,
) -> Result<Option<Intake>, AllocError>
    requires least { 1 ≤ limit }
    requires greatest { limit ≤ GREATEST_LIMIT }
    ensures read { IfSome (R.remaining r.old) (λ x. IfOk result (λ d.
        IfSome d (λ held. held.octets ≡ take (limit + 1) x))) }
    ensures limit { IfOk result (λ d. IfSome d (λ held. held.limit ≡ limit)) }
    ensures unread { IfOk result (λ d. IfNone d (R.failed r.new ≡ true)) }
    ensures works { IfOk result (λ d. OnSome d (R.failed r.new ≡ false)) }
    ensures taken { IfSome (R.remaining r.old)
        (λ x. (R.failed r.new ≡ true) ⊎ TakesAtMost (limit + 1) x (R.remaining r.new)) }
{
    let mut intake = Intake::new(alloc, limit);
    match intake.read_from(r) {
        Ok(()) | Err(TextFault::TooLong) => Ok(Some(intake)),
        Err(TextFault::Read) => Ok(None),
        Err(_) => Err(AllocError),
    }
}

/// What a command has read of a document.
#[derive(Drop)]
pub enum TakenDocument<'a> {
    /// A line of the input.
    Line(Vec<u8>),

    /// Octets in hand; none of a line that is longer than its limit.
    Held(&'a [u8]),

    /// All that was left of the input; or as much as shows that this is too much, one octet past the limit.
    Input(Intake),
}

impl TakenDocument<'_> {
    /// Its octets.
    pub fn octets(&self) -> &[u8]
        ensures { result.now ≡ document_octets self.now }
    {
        match self {
            TakenDocument::Line(octets) => octets.as_slice(),
            TakenDocument::Held(octets) => octets,
            TakenDocument::Input(intake) => intake.octets(),
        }
    }
}

/// A document: the one in hand, else the first line of the input, of at most so many octets. What is behind it isn't taken.
/// The limit is at least 1.
///
/// Refused as [`line`] refuses, and with `Read` where the source has failed before.
pub(crate) fn document<'a, R: Source>(
    alloc: Global,
    held: Option<&'a [u8]>,
    r: &mut R,
    limit: u32,
) -> Result<TakenDocument<'a>, LineFault>
    requires least { 1 ≤ limit }
    requires greatest { limit ≤ GREATEST_LIMIT }
    ensures document { IfSome (R.remaining r.old) (λ x. IfOk result (λ d.
        TakesDocument limit (option_map (λ t. t.now) held.entry) x (document_octets d)
        (R.remaining r.new))) }
    ensures works { OnOk result (R.failed r.new ≡ false) }
    ensures read { result ≡ Err LineFault.Read → R.failed r.new ≡ true }
    ensures fails { IfSome (R.remaining r.old) (λ x. IfErr result
        (DocumentFails limit (option_map (λ t. t.now) held.entry) (R.failed r.new) x)) }
    ensures taken { IfSome (R.remaining r.old) (λ x. (R.failed r.new ≡ true)
        ⊎ TakesAtMost (document_most limit (option_map (λ t. t.now) held.entry) x) x
        (R.remaining r.new)) }
{
    match held {
        Some(_) if r.failed() => Err(LineFault::Read),
        Some(octets) => Ok(TakenDocument::Held(octets)),
        None => Ok(TakenDocument::Line(line(alloc, r, limit)?)),
    }
}
