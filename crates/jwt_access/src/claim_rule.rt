//! The demand of a rule on one claim.

ghost use Rattle.std.specs.Prelude.{◌≡◌, map, slice_get};
ghost use Rattle.std.specs.List.{list_any};
ghost use Rattle.jwt_policy.specs.Texts.{some_passes};
ghost use Rattle.jwt_text.specs.Rows.{first_row};
ghost use Rattle.jwt_access.specs.Claims.{is_value, has_value, has_word, meets, is_allowed};
ghost use Rattle.jwt_access.specs.Denials.{demand_rows};
ghost use Rattle.jwt_access.specs.Views.{allowed, demand, found};

use crate::denial::{Denial, DeniedName};
use crate::place::ClaimPlace;
use crate::spot::Spot;
use jwt_policy::Claims;
use jwt_text::List;

/// A value that is allowed.
#[derive(Drop)]
pub(crate) enum ClaimValue {
    Text(String),
    Flag(bool),
    Whole(i64),
}

/// A claim, and the values that are allowed for it: it has to have one of them.
#[derive(Drop)]
pub(crate) struct ClaimRule {
    pub(crate) place: ClaimPlace,
    pub(crate) allowed: Vec<ClaimValue>,
}

/// Whether the element at this place of the list is this value.
pub(crate) fn is_value_at(list: &List<'_>, place: usize, value: &ClaimValue) -> bool
    ensures { result ≡ some_passes (is_value (allowed value.now)) (slice_get list.now place) }
{
    match value {
        ClaimValue::Text(wanted) => match list.text(place) {
            Some(text) => text == wanted.as_str(),
            None => false,
        },
        ClaimValue::Flag(wanted) => match list.flag(place) {
            Some(flag) => flag == *wanted,
            None => false,
        },
        ClaimValue::Whole(wanted) => match list.whole(place) {
            Some(whole) => whole == *wanted,
            None => false,
        },
    }
}

/// Whether an element of the list is this value.
#[tactic(auto, using(crate::proofs::ListLemmas::any_more))]
fn holds_value(list: &List<'_>, value: &ClaimValue) -> bool
    ensures { result ≡ list_any (is_value (allowed value.now)) list.now }
{
    for place in 0..list.len() {
        if is_value_at(list, place, value) {
            return true;
        }
    }
    false
}

impl<'a> Spot<'a> {
    /// Whether the claim that stands here is this value.
    pub(crate) fn is_value(&self, value: &ClaimValue) -> bool
        ensures { result ≡ some_passes (is_value (allowed value.now)) (found self.now) }
    {
        match value {
            ClaimValue::Text(wanted) => match self.home.text(self.own) {
                Some(text) => text == wanted.as_str(),
                None => false,
            },
            ClaimValue::Flag(wanted) => match self.home.flag(self.own) {
                Some(flag) => flag == *wanted,
                None => false,
            },
            ClaimValue::Whole(wanted) => match self.home.whole(self.own) {
                Some(whole) => whole == *wanted,
                None => false,
            },
        }
    }

    /// Whether the claim that stands here is this value, or a list that holds it.
    fn has_value(&self, value: &ClaimValue) -> bool
        ensures { result ≡ some_passes (has_value (allowed value.now)) (found self.now) }
    {
        self.is_value(value)
            || match self.home.list(self.own) {
                Some(list) => holds_value(&list, value),
                None => false,
            }
    }

    /// Whether the claim that stands here grants the value as a scope.
    fn has_word(&self, value: &ClaimValue) -> bool
        ensures { result ≡ some_passes (has_word (allowed value.now)) (found self.now) }
    {
        match value {
            ClaimValue::Text(wanted) => self.grants(wanted.as_str()),
            _ => false,
        }
    }

    /// Whether the claim that stands here has this value; by words also where it grants it as a scope.
    fn meets(&self, value: &ClaimValue, by_words: bool) -> bool
        ensures { result ≡ some_passes (meets by_words (allowed value.now)) (found self.now) }
    {
        self.has_value(value) || (by_words && self.has_word(value))
    }

    /// Whether the claim that stands here has one of these values; by words also where it grants one as a scope.
    fn is_allowed(&self, values: &[ClaimValue], by_words: bool) -> bool
        ensures { result ≡ some_passes (is_allowed by_words (map allowed values.now)) (found self.now) }
    {
        for value in values {
            if self.meets(value, by_words) {
                return true;
            }
        }
        false
    }
}

impl ClaimRule {
    /// Why the claim isn't as the rule asks. Of the claim that carries scopes a word is enough.
    pub(crate) fn denial<'a>(&'a self, claims: &Claims, scope_claim: &str) -> Option<Denial<'a>>
        ensures { result ≡ first_row (demand_rows scope_claim.now claims.now (demand self.now)) }
    {
        let Some(spot) = self.place.spot(claims) else {
            return Some(Denial::ClaimMissing(DeniedName::new(self.place.name())));
        };
        if !spot.home.has(spot.own) {
            return Some(Denial::ClaimMissing(DeniedName::new(self.place.name())));
        }
        let by_words = self.place.name() == scope_claim;
        if spot.is_allowed(&self.allowed, by_words) {
            None
        } else {
            Some(Denial::ClaimNotAllowed(DeniedName::new(self.place.name())))
        }
    }
}
