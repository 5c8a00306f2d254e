//! What `verify --expect` says of a claim.
ghost use Rattle.std.specs.Prelude.{◌≡◌, option_map};
ghost use Rattle.jwt_settings.specs.Seen.{expectation_view};
ghost use Rattle.jwt_words.specs.Words.{expectation_of};

use jwt_settings::Expectation;

/// What `NAME=TEXT` says; none where it has no `=`. The name ends before the first one.
pub(crate) fn expectation_of<'a>(word: &'a str) -> Option<Expectation<'a>>
    ensures { option_map expectation_view result ≡ expectation_of word.entry.now }
{
    match word.split_once('=') {
        Some((claim, text)) => Some(Expectation { claim, text }),
        None => None,
    }
}
