//! Compact form: three texts joined by periods (RFC 7515, section 7.1).
ghost use Rattle.std.specs.Prelude.{◌≡◌, ◌≢◌, [], ◌∷◌, ◌+◌, IfErr, IfSome, MatchOption, length, option_map};
ghost use Rattle.std.specs.List.{slice_split, position};
ghost use Rattle.jwt_text.specs.Answers.{Answers};
ghost use Rattle.jwt_jws.specs.Forms.{is_period, compact, compact_texts};
ghost use Rattle.jwt_jws.specs.Views.{compact_view, texts_view};

use crate::fault::FormFault;
use memchr::memchr;

/// The three texts of a token in compact form, lent.
#[derive(Clone, Copy)]
pub struct CompactTexts<'a> {
    /// The text before the first period.
    pub protected: &'a [u8],

    /// The text between the two.
    pub payload: &'a [u8],

    /// The text behind the second.
    pub signature: &'a [u8],
}

/// The place of the first period, if there is one.
fn first_period(octets: &[u8]) -> Option<usize>
    ensures { result ≡ position is_period octets.now }
{
    memchr(b'.', octets)
}

/// The octets before the first period, and those after it.
#[tactic(auto, using(crate::proofs::Periods::period_found, crate::proofs::Periods::no_period))]
fn cut(octets: &[u8]) -> Option<(&[u8], &[u8])>
    ensures { MatchOption result
        (slice_split is_period octets.now ≡ octets.now ∷ [])
        (λ x. slice_split is_period octets.now ≡ x.0.now ∷ slice_split is_period x.1.now) }
{
    match first_period(octets) {
        Some(i) => Some((&octets[..i], &octets[i + 1..])),
        None => None,
    }
}

/// The three texts, or the fault: `Encrypted` for five, `Segments` for any other number.
#[tactic(auto, unfolding(crate::specs::Forms::compact), using(crate::proofs::Periods::more_periods))]
pub(crate) fn segments_of(octets: &[u8]) -> Result<CompactTexts<'_>, FormFault>
    ensures value { Answers FormFault.OutOfMemory compact_view result (compact octets.now) }
    ensures memory { IfErr result (λ fault. fault ≢ FormFault.OutOfMemory) }
{
    let Some((protected, rest)) = cut(octets) else {
        return Err(FormFault::Segments);
    };
    let Some((payload, rest)) = cut(rest) else {
        return Err(FormFault::Segments);
    };
    let Some((_, after)) = cut(rest) else {
        return Ok(CompactTexts {
            protected,
            payload,
            signature: rest,
        });
    };
    let Some((_, last)) = cut(after) else {
        return Err(FormFault::Segments);
    };
    match cut(last) {
        Some(_) => Err(FormFault::Segments),
        None => Err(FormFault::Encrypted),
    }
}

/// The three texts that two periods part (RFC 7515, section 7.1); `None` where there is another number of periods. Nothing is
/// decoded, and it takes no memory.
pub fn compact_texts(octets: &[u8]) -> Option<CompactTexts<'_>>
    ensures texts { option_map texts_view result ≡ compact_texts octets.now }
    ensures sized { IfSome result
        (λ t. length t.protected.now + length t.payload.now + length t.signature.now + 2
        ≡ length octets.now) }
{
    match segments_of(octets) {
        Ok(texts) => Some(texts),
        Err(_) => None,
    }
}
