//! The first demand of a rule that claims don't meet.

ghost use Rattle.std.specs.Prelude.{◌≡◌, ◌↔◌, IsTrue, IsNone, IfSome, map, string_bytes};
ghost use Rattle.std.specs.Option.{option_or};
ghost use Rattle.jwt_text.specs.Rows.{first_row};
ghost use Rattle.jwt_policy.specs.Texts.{some_passes};
ghost use Rattle.jwt_access.specs.DenialWords.{IsDenial};
ghost use Rattle.jwt_access.specs.Denials.{scope_row, demands_rows, claims_denial_of, first_unasked, denial_of};
ghost use Rattle.jwt_access.specs.Granted.{HasScope, IsGranted};
ghost use Rattle.jwt_access.specs.Pointers.{claim_at};
ghost use Rattle.jwt_access.specs.Scopes.{grants};
ghost use Rattle.jwt_access.specs.Views.{demand, further, named_claim};

use crate::claim_rule::ClaimRule;
use crate::further::FurtherRule;
use crate::moment::Moment;
use crate::place::ClaimPlace;
use crate::rule::AccessRule;
use jwt_policy::Claims;
use std::marker::Model;
use thiserror::Error;

/// A scope, or the name of a claim, lent by whoever asks for it.
#[derive(Debug, Drop)]
pub struct DeniedName<'a> {
    text: &'a str,
}

impl<'a> Model for DeniedName<'a> {
    ghost use Rattle.std.specs.Prelude.{ℕ, List};

    ghost Value = { List ℕ };

    ghost view = { λ n. n.text.now };
}

impl<'a> DeniedName<'a> {
    /// This name.
    pub fn new(text: &'a str) -> DeniedName<'a>
        ensures { result ≡ text.entry.now }
    {
        DeniedName { text }
    }

    /// The text, as the rule has it, with JSON escapes undone.
    pub fn text(&self) -> &'a str
        ensures { result.now ≡ self.now }
    {
        self.text
    }
}

/// What claims lack that a rule asks for.
#[derive(Debug, Drop, Error)]
pub enum Denial<'a> {
    /// The scope isn't granted: the claim that carries scopes is absent, holds no scopes, or holds others.
    #[error("the scope {:?} is not granted", .0.text())]
    ScopeMissing(DeniedName<'a>),
    /// The claim is absent, or an object that it would stand in is.
    #[error("the claim {:?} is absent", .0.text())]
    ClaimMissing(DeniedName<'a>),
    /// The claim is there, and neither is it one of the values that the rule allows nor a list that holds one.
    #[error("the claim {:?} has no value that is allowed", .0.text())]
    ClaimNotAllowed(DeniedName<'a>),
    /// The claim is there, and the rule asks that it isn't.
    #[error("the claim {:?} is present", .0.text())]
    ClaimPresent(DeniedName<'a>),
    /// The claim is there, and neither is it one of the values that the rule allows nor a list of them alone.
    #[error("the claim {:?} has a value that is not allowed", .0.text())]
    ClaimHasOther(DeniedName<'a>),
    /// The claim is there, and is no JSON object.
    #[error("the claim {:?} is not an object", .0.text())]
    ClaimNotObject(DeniedName<'a>),
    /// The claim is there, and is no date: no whole number within 64 signed bits.
    #[error("the claim {:?} is not a date", .0.text())]
    ClaimNotDate(DeniedName<'a>),
    /// The claim is a date later than the moment and the leeway.
    #[error("the claim {:?} is later than now", .0.text())]
    ClaimLater(DeniedName<'a>),
    /// The claim is a date, and the moment is later than it, the age that the rule allows and the leeway.
    #[error("the claim {:?} is too old", .0.text())]
    ClaimTooOld(DeniedName<'a>),
    /// The claim is there, and is no text of at most so many octets of ASCII.
    #[error("the claim {:?} is not a short text of ASCII", .0.text())]
    ClaimNotAscii(DeniedName<'a>),
}

impl<'a> Denial<'a> {
    ghost use Rattle.jwt_access.specs.FaultNames.{denial_name, denied};

    /// The name of the denial, that of its variant, as the program `jwt` prints it.
    pub fn name(&self) -> &'static str
        ensures { result.now ≡ denial_name self.now }
    {
        match self {
            Denial::ScopeMissing(_) => "ScopeMissing",
            Denial::ClaimMissing(_) => "ClaimMissing",
            Denial::ClaimNotAllowed(_) => "ClaimNotAllowed",
            Denial::ClaimPresent(_) => "ClaimPresent",
            Denial::ClaimHasOther(_) => "ClaimHasOther",
            Denial::ClaimNotObject(_) => "ClaimNotObject",
            Denial::ClaimNotDate(_) => "ClaimNotDate",
            Denial::ClaimLater(_) => "ClaimLater",
            Denial::ClaimTooOld(_) => "ClaimTooOld",
            Denial::ClaimNotAscii(_) => "ClaimNotAscii",
        }
    }

    /// The scope, or the name of the claim, that it speaks of.
    pub fn denied(&self) -> &'a str
        ensures { result.now ≡ denied self.now }
    {
        match self {
            Denial::ScopeMissing(scope) => scope.text(),
            Denial::ClaimMissing(name) => name.text(),
            Denial::ClaimNotAllowed(name) => name.text(),
            Denial::ClaimPresent(name) => name.text(),
            Denial::ClaimHasOther(name) => name.text(),
            Denial::ClaimNotObject(name) => name.text(),
            Denial::ClaimNotDate(name) => name.text(),
            Denial::ClaimLater(name) => name.text(),
            Denial::ClaimTooOld(name) => name.text(),
            Denial::ClaimNotAscii(name) => name.text(),
        }
    }
}

/// Whether the claim at this place grants the scope.
fn is_granted(place: &ClaimPlace, claims: &Claims, scope: &str) -> bool
    ensures { result
        ≡ some_passes (grants scope.now) (claim_at (named_claim place.now) claims.now) }
{
    match place.spot(claims) {
        Some(spot) => spot.grants(scope),
        None => false,
    }
}

/// The first of these scopes that the claim at this place doesn't grant.
fn first_scope_missing<'a>(
    place: &ClaimPlace,
    scopes: &'a [String],
    claims: &Claims,
) -> Option<Denial<'a>>
    ensures { result ≡ first_row (map (scope_row (named_claim place.now) claims.now)
        (map string_bytes scopes.entry.now)) }
{
    for scope in scopes {
        if !is_granted(place, claims, scope.as_str()) {
            return Some(Denial::ScopeMissing(DeniedName::new(scope.as_str())));
        }
    }
    None
}

/// The first of these demands that isn't met, where the claim of this name carries scopes.
#[tactic(auto, using(crate::proofs::RowsLemmas::first_of_both))]
fn first_unmet<'a>(rules: &'a [ClaimRule], claims: &Claims, scope_claim: &str) -> Option<Denial<'a>>
    ensures { result
        ≡ first_row (demands_rows scope_claim.now claims.now (map demand rules.entry.now)) }
{
    for rule in rules {
        let denial = rule.denial(claims, scope_claim);
        if denial.is_some() {
            return denial;
        }
    }
    None
}

/// The first scope that isn't granted, else the first demand that isn't met.
#[tactic(auto, unfolding(crate::specs::Denials::claims_denial_of), using(crate::proofs::RowsLemmas::first_of_both))]
fn claims_denial<'a>(rule: &'a AccessRule, claims: &Claims) -> Option<Denial<'a>>
    ensures { result ≡ claims_denial_of rule.entry.now claims.now }
{
    match first_scope_missing(rule.scope_place(), rule.scopes(), claims) {
        Some(denial) => Some(denial),
        None => first_unmet(rule.claim_rules(), claims, rule.scope_claim()),
    }
}

/// The first of what else is asked that isn't so.
fn first_unasked<'a>(
    rules: &'a [FurtherRule],
    claims: &Claims,
    moment: Moment,
) -> Option<Denial<'a>>
    ensures { result ≡ first_unasked moment claims.now (map further rules.entry.now) }
{
    for rule in rules {
        let denial = rule.denial(claims, moment);
        if denial.is_some() {
            return denial;
        }
    }
    None
}

/// This denial, else the first of what else is asked that isn't so.
fn or_unasked<'a>(
    denial: Option<Denial<'a>>,
    rules: &'a [FurtherRule],
    claims: &Claims,
    moment: Moment,
) -> Option<Denial<'a>>
    ensures { result ≡ option_or denial.entry (first_unasked moment claims.now (map further rules.entry.now)) }
{
    match denial {
        Some(denial) => Some(denial),
        None => first_unasked(rules, claims, moment),
    }
}

/// The first scope or demand that isn't met, else the first of what else is asked that isn't so, member by member.
#[tactic(auto, unfolding(crate::specs::Denials::denial_of), using(crate::proofs::FurtherLemmas::denial_parts))]
fn first_denial<'a>(rule: &'a AccessRule, claims: &Claims, moment: Moment) -> Option<Denial<'a>>
    ensures { result ≡ denial_of rule.entry.now moment claims.now }
{
    let denial = claims_denial(rule, claims);
    let denial = or_unasked(denial, rule.absent_claims(), claims, moment);
    let denial = or_unasked(denial, rule.only_claims(), claims, moment);
    let denial = or_unasked(denial, rule.object_claims(), claims, moment);
    let denial = or_unasked(denial, rule.aged_claims(), claims, moment);
    or_unasked(denial, rule.ascii_claims(), claims, moment)
}

impl AccessRule {
    /// Whether the claim that carries scopes grants this one, as a rule that asks for it would find.
    pub fn has_scope(&self, claims: &Claims, scope: &str) -> bool
        ensures { IsTrue result ↔ HasScope self.now.scope_claim claims.now scope.now }
    {
        is_granted(self.scope_place(), claims, scope)
    }

    /// Why the claims don't meet the rule: the first scope, in their order, that isn't granted; else the first claim, in ascending
    /// octet order of their names, that is absent or has no value that is allowed; else the first that isn't as `absent`, `only`,
    /// `objects`, `ages` and `ascii` ask, in this order. `None` exactly where they meet it. The claims are those of a token that was
    /// accepted: nothing else of the token is looked at. The moment is that of the verdict.
    ///
    /// It takes no memory. The rule lends the name in the answer.
    pub fn denial<'a>(&'a self, claims: &Claims, moment: Moment) -> Option<Denial<'a>>
        ensures granted { IsNone result ↔ IsGranted self.now moment claims.now }
        ensures first { IfSome result (IsDenial self.now moment claims.now) }
    {
        first_denial(self, claims, moment)
    }
}
