//! The words of `show --pretty`.
ghost use Rattle.std.specs.Prelude.{◌≡◌, IfSome, option_map};
ghost use Rattle.clap.specs.Words.{found_of, rows_of};
ghost use Rattle.jwt_settings.specs.Seen.{seconds_of};
ghost use Rattle.jwt_words.specs.Seen.{pretty_view};
ghost use Rattle.jwt_words.specs.Words.{IsLimit, pretty_order, shown_moment};

use crate::chosen::{chosen_now, is_set, number};
use clap::ArgMatches;
use jwt_settings::Moment;
use jwt_text::LONGEST_TOKEN;

/// What `show --pretty` asks for: a token for a person.
#[derive(Clone, Copy)]
pub struct PrettyOrder {
    /// The most octets of the token, 1 to 1,048,576.
    pub limit: u64,

    /// The moment by which its dates are said, where there is one.
    pub now: Option<Moment>,
}

/// The moment that `--now` names, else the clock's, where there is one; none where `--now` names no moment.
fn chosen_shown_moment(options: &ArgMatches<'_>, clock: Option<Moment>) -> Option<Option<Moment>>
    ensures { option_map seconds_of result
        ≡ shown_moment (seconds_of clock) (rows_of (found_of options.now)) }
{
    match options.get_str("now") {
        Some(_) => match chosen_now(options) {
            Some(now) => Some(Some(now)),
            None => None,
        },
        None => Some(clock),
    }
}

/// What `show --pretty` asks for: it has no JSON on one line.
pub(crate) fn chosen_pretty(options: &ArgMatches<'_>, clock: Option<Moment>) -> Option<PrettyOrder>
    ensures limits { IfSome result (λ o. IsLimit o.limit) }
    ensures order { option_map pretty_view result
        ≡ pretty_order (seconds_of clock) (rows_of (found_of options.now)) }
{
    if is_set(options, "json") {
        return None;
    }
    let limit = number(options, "limit", 1, LONGEST_TOKEN as u64)?;
    let now = chosen_shown_moment(options, clock)?;
    Some(PrettyOrder { limit, now })
}
