//! What else a rule asks of one claim.

ghost use Rattle.std.specs.Prelude.{◌≡◌, None, true, map, is_some, nat_lt, option_and_then, slice_get};
ghost use Rattle.std.specs.List.{list_all};
ghost use Rattle.jwt_policy.specs.Checks.{is_later};
ghost use Rattle.jwt_policy.specs.Texts.{some_passes};
ghost use Rattle.jwt_text.specs.Rows.{first_row};
ghost use Rattle.jwt_access.specs.Claims.{is_one_of, has_only, is_object, is_short_ascii, is_ascii, date_in, is_older};
ghost use Rattle.jwt_access.specs.Denials.{asked_rows};
ghost use Rattle.jwt_access.specs.Pointers.{claim_at};
ghost use Rattle.jwt_access.specs.Rules.{aged};
ghost use Rattle.jwt_access.specs.Views.{allowed, asked, found, further};

use crate::claim_rule::{ClaimValue, is_value_at};
use crate::denial::{Denial, DeniedName};
use crate::moment::Moment;
use crate::place::ClaimPlace;
use crate::spot::Spot;
use jwt_policy::Claims;
use jwt_text::List;

/// What else is asked of a claim.
#[derive(Drop)]
pub(crate) enum FurtherAsked {
    /// It is absent.
    Absent,
    /// It is one of these values, or a list of them alone.
    Only(Vec<ClaimValue>),
    /// It is an object.
    Object,
    /// It is a date, at most so many seconds old.
    Aged(u32),
    /// It is a text of at most so many octets of ASCII.
    Ascii(u32),
}

/// A claim, and what else is asked of it.
#[derive(Drop)]
pub(crate) struct FurtherRule {
    pub(crate) place: ClaimPlace,
    pub(crate) asked: FurtherAsked,
}

// ---- values

/// Whether the element at this place of the list is one of these values.
fn is_one_at(list: &List<'_>, place: usize, values: &[ClaimValue]) -> bool
    ensures { result
        ≡ some_passes (is_one_of (map allowed values.now)) (slice_get list.now place) }
{
    for value in values {
        if is_value_at(list, place, value) {
            return true;
        }
    }
    false
}

/// Whether each element of the list is one of these values.
#[tactic(auto, using(crate::proofs::ListLemmas::all_more))]
fn are_among(list: &List<'_>, values: &[ClaimValue]) -> bool
    ensures { result ≡ list_all (is_one_of (map allowed values.now)) list.now }
{
    for place in 0..list.len() {
        if !is_one_at(list, place, values) {
            return false;
        }
    }
    true
}

/// Whether each of these octets is one of ASCII.
fn are_ascii(octets: &[u8]) -> bool
    ensures { result ≡ list_all (λ octet. nat_lt octet 128) octets.now }
{
    for octet in octets {
        if *octet >= 128 {
            return false;
        }
    }
    true
}

/// Whether the text has at most so many octets, all of ASCII.
fn is_short_ascii(most: u32, text: &str) -> bool
    ensures { result ≡ is_short_ascii most text.now }
{
    text.len() <= most as usize && are_ascii(text.as_bytes())
}

// ---- dates

/// Whether a date is later than the moment, the leeway added.
fn is_later(moment: Moment, date: i64) -> bool
    ensures { result ≡ is_later moment.now moment.leeway date }
{
    i128::from(moment.now) + i128::from(moment.leeway) < i128::from(date)
}

/// Whether a date is older than so many seconds, the leeway added.
fn is_older(moment: Moment, age: u32, date: i64) -> bool
    ensures { result ≡ is_older moment age date }
{
    let seconds = u64::from(age) + u64::from(moment.leeway);
    i128::from(date) + i128::from(seconds) < i128::from(moment.now)
}

impl<'a> Spot<'a> {
    /// Whether the claim that stands here is one of these values.
    fn is_one_of(&self, values: &[ClaimValue]) -> bool
        ensures { result ≡ some_passes (is_one_of (map allowed values.now)) (found self.now) }
    {
        for value in values {
            if self.is_value(value) {
                return true;
            }
        }
        false
    }

    /// Whether the claim that stands here is one of these values, or a list of them alone. An empty list is.
    fn has_only(&self, values: &[ClaimValue]) -> bool
        ensures { result ≡ some_passes (has_only (map allowed values.now)) (found self.now) }
    {
        self.is_one_of(values)
            || match self.home.list(self.own) {
                Some(list) => are_among(&list, values),
                None => false,
            }
    }

    /// Whether the claim that stands here is an object.
    fn is_object(&self) -> bool
        ensures { result ≡ some_passes is_object (found self.now) }
    {
        self.home.object(self.own).is_some()
    }

    /// Whether the claim that stands here is a text of at most so many octets of ASCII.
    fn is_ascii(&self, most: u32) -> bool
        ensures { result ≡ some_passes (is_ascii most) (found self.now) }
    {
        match self.home.text(self.own) {
            Some(text) => is_short_ascii(most, text),
            None => false,
        }
    }

    /// The date that the claim that stands here is.
    fn date(&self) -> Option<i64>
        ensures { result ≡ option_and_then date_in (found self.now) }
    {
        self.home.whole(self.own)
    }
}

// ---- why it isn't so

/// Why the claim at this spot isn't an old date, or none at all.
fn age_denial<'a>(name: &'a str, spot: &Spot<'_>, age: u32, moment: Moment) -> Option<Denial<'a>>
    requires { is_some (found spot.now) ≡ true }
    ensures { result ≡ first_row (asked_rows moment name.entry.now (aged age) (found spot.now)) }
{
    let Some(date) = spot.date() else {
        return Some(Denial::ClaimNotDate(DeniedName::new(name)));
    };
    if is_later(moment, date) {
        Some(Denial::ClaimLater(DeniedName::new(name)))
    } else if is_older(moment, age, date) {
        Some(Denial::ClaimTooOld(DeniedName::new(name)))
    } else {
        None
    }
}

impl FurtherAsked {
    /// Why a claim of this name that stands at this spot isn't as is asked.
    fn denial_at<'a>(&self, name: &'a str, spot: &Spot<'_>, moment: Moment) -> Option<Denial<'a>>
        requires { is_some (found spot.now) ≡ true }
        ensures { result
            ≡ first_row (asked_rows moment name.entry.now (asked self.now) (found spot.now)) }
    {
        match self {
            FurtherAsked::Absent => Some(Denial::ClaimPresent(DeniedName::new(name))),
            FurtherAsked::Only(values) => if spot.has_only(values) {
                None
            } else {
                Some(Denial::ClaimHasOther(DeniedName::new(name)))
            },
            FurtherAsked::Object => if spot.is_object() {
                None
            } else {
                Some(Denial::ClaimNotObject(DeniedName::new(name)))
            },
            FurtherAsked::Aged(age) => age_denial(name, spot, *age, moment),
            FurtherAsked::Ascii(most) => if spot.is_ascii(*most) {
                None
            } else {
                Some(Denial::ClaimNotAscii(DeniedName::new(name)))
            },
        }
    }

    /// Why a claim of this name that is absent isn't as is asked.
    fn absent_denial<'a>(&self, name: &'a str, moment: Moment) -> Option<Denial<'a>>
        ensures { result ≡ first_row (asked_rows moment name.entry.now (asked self.now) None) }
    {
        match self {
            FurtherAsked::Absent => None,
            _ => Some(Denial::ClaimMissing(DeniedName::new(name))),
        }
    }
}

impl FurtherRule {
    /// Why the claim isn't as is asked.
    pub(crate) fn denial<'a>(&'a self, claims: &Claims, moment: Moment) -> Option<Denial<'a>>
        ensures { result ≡ first_row (asked_rows moment (further self.now).name (further self.now).asked
            (claim_at (further self.now).name claims.now)) }
    {
        let name = self.place.name();
        let Some(spot) = self.place.spot(claims) else {
            return self.asked.absent_denial(name, moment);
        };
        if spot.home.has(spot.own) {
            self.asked.denial_at(name, &spot, moment)
        } else {
            self.asked.absent_denial(name, moment)
        }
    }
}
