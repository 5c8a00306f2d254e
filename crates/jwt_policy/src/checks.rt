//! The claims under a policy, at a moment (RFC 7519, sections 4.1.1 to 4.1.6).

ghost use Rattle.std.specs.Prelude.{◌≡◌, ◌+◌, ◌+ℤ◌, int_lt, map, pos, string_bytes};
ghost use Rattle.jwt_text.specs.Rows.{first_row};
ghost use Rattle.jwt_policy.specs.Texts.{any_text, is_among};
ghost use Rattle.jwt_policy.specs.Checks.{missing, lacks_iat, is_other_issuer, names_audience, is_other_audience, is_expired, is_later, is_not_yet, is_issued_later, is_too_old, later_rows, check_of};

use crate::claim_fault::{ClaimFault, ClaimName};
use crate::claims::Claims;
use crate::policy::Policy;
use crate::texts::is_among;
use jwt_text::{List, ObjectRef};

/// The first of the required claims that is absent.
#[tactic(auto, using(std::proofs::lemmas::List::at_drop_more, std::proofs::lemmas::List::at_drop_all))]
fn first_missing<'a>(claims: &ObjectRef<'_>, required: &'a [String]) -> Option<ClaimFault<'a>>
    ensures { result ≡ first_row (map (missing claims.now) (map string_bytes required.now)) }
{
    for each in required {
        let name = each.as_str();
        if !claims.has(name) {
            return Some(ClaimFault::ClaimMissing(ClaimName::new(name)));
        }
    }
    None
}

/// Whether the policy has a greatest age, and `iat` is absent.
fn lacks_iat(policy: &Policy, claims: &ObjectRef<'_>) -> bool
    ensures { result ≡ lacks_iat policy.now claims.now }
{
    policy.max_age().is_some() && !claims.has("iat")
}

/// Whether the policy names issuers, and `iss` isn't among them.
fn is_other_issuer(policy: &Policy, claims: &ObjectRef<'_>) -> bool
    ensures { result ≡ is_other_issuer policy.now claims.now }
{
    let issuers = policy.issuers();
    if issuers.is_empty() {
        return false;
    }
    match claims.text("iss") {
        Some(iss) => !is_among(issuers, iss),
        None => true,
    }
}

/// Whether some text of the list is among these.
#[tactic(auto, using(crate::proofs::ItemsLemmas::any_more, std::proofs::lemmas::List::at_drop_all))]
fn any_among(texts: &[String], list: &List<'_>) -> bool
    ensures { result ≡ any_text (is_among (map string_bytes texts.now)) list.now }
{
    for place in 0..list.len() {
        if let Some(text) = list.text(place) {
            if is_among(texts, text) {
                return true;
            }
        }
    }
    false
}

/// Whether a text of `aud` is among these.
fn names_audience(audiences: &[String], claims: &ObjectRef<'_>) -> bool
    ensures { result ≡ names_audience (map string_bytes audiences.now) claims.now }
{
    let one = match claims.text("aud") {
        Some(text) => is_among(audiences, text),
        None => false,
    };
    one || match claims.list("aud") {
        Some(list) => any_among(audiences, &list),
        None => false,
    }
}

/// Whether `aud` is there and names none of the policy's audiences.
fn is_other_audience(policy: &Policy, claims: &ObjectRef<'_>) -> bool
    ensures { result ≡ is_other_audience policy.now claims.now }
{
    claims.has("aud") && !names_audience(policy.audiences(), claims)
}

/// Whether this is before the expiration time, the leeway added to it.
fn is_before_expiry(now: i64, leeway: u32, exp: i64) -> bool
    ensures { result ≡ int_lt now (exp +ℤ pos leeway) }
{
    i128::from(now) < i128::from(exp) + i128::from(leeway)
}

/// Whether the claims are expired.
#[tactic(auto, unfolding(crate::specs::Checks::is_expired))]
fn is_expired(policy: &Policy, claims: &ObjectRef<'_>, now: i64) -> bool
    ensures { result ≡ is_expired policy.now claims.now now }
{
    match claims.whole("exp") {
        Some(exp) => !is_before_expiry(now, policy.leeway(), exp),
        None => false,
    }
}

/// Whether a date is later than now, the leeway added to it.
fn is_later(now: i64, leeway: u32, date: i64) -> bool
    ensures { result ≡ is_later now leeway date }
{
    i128::from(now) + i128::from(leeway) < i128::from(date)
}

/// Whether the claims don't hold yet.
#[tactic(auto, unfolding(crate::specs::Checks::is_not_yet))]
fn is_not_yet(policy: &Policy, claims: &ObjectRef<'_>, now: i64) -> bool
    ensures { result ≡ is_not_yet policy.now claims.now now }
{
    match claims.whole("nbf") {
        Some(nbf) => is_later(now, policy.leeway(), nbf),
        None => false,
    }
}

/// Whether the policy has a greatest age, and the claims were issued later than now.
#[tactic(auto, unfolding(crate::specs::Checks::is_issued_later))]
fn is_issued_later(policy: &Policy, claims: &ObjectRef<'_>, now: i64) -> bool
    ensures { result ≡ is_issued_later policy.now claims.now now }
{
    if policy.max_age().is_none() {
        return false;
    }
    match claims.whole("iat") {
        Some(iat) => is_later(now, policy.leeway(), iat),
        None => false,
    }
}

/// Whether what was issued at `iat` is older than this age, the leeway added to it. All are seconds.
fn is_older(now: i64, leeway: u32, iat: i64, age: u32) -> bool
    ensures { result ≡ int_lt (iat +ℤ pos (age + leeway)) now }
{
    let seconds = u64::from(age) + u64::from(leeway);
    i128::from(iat) + i128::from(seconds) < i128::from(now)
}

/// Whether the claims are older than the policy's greatest age.
#[tactic(auto, unfolding(crate::specs::Checks::is_too_old))]
fn is_too_old(policy: &Policy, claims: &ObjectRef<'_>, now: i64) -> bool
    ensures { result ≡ is_too_old policy.now claims.now now }
{
    let Some(iat) = claims.whole("iat") else {
        return false;
    };
    match policy.max_age() {
        Some(age) => is_older(now, policy.leeway(), iat, age),
        None => false,
    }
}

/// The first cause to refuse the claims, the policy's `required` aside.
#[tactic(auto, unfolding(crate::specs::Checks::later_rows))]
fn later_fault(policy: &Policy, claims: &ObjectRef<'_>, now: i64) -> Option<ClaimFault<'static>>
    ensures { result ≡ first_row (later_rows policy.now claims.now now) }
{
    if lacks_iat(policy, claims) {
        Some(ClaimFault::ClaimMissing(ClaimName::new("iat")))
    } else if is_other_issuer(policy, claims) {
        Some(ClaimFault::Issuer)
    } else if is_other_audience(policy, claims) {
        Some(ClaimFault::Audience)
    } else if is_expired(policy, claims, now) {
        Some(ClaimFault::Expired)
    } else if is_not_yet(policy, claims, now) {
        Some(ClaimFault::NotYet)
    } else if is_issued_later(policy, claims, now) {
        Some(ClaimFault::IssuedLater)
    } else if is_too_old(policy, claims, now) {
        Some(ClaimFault::TooOld)
    } else {
        None
    }
}

/// Why the claims are refused under the policy at this moment, which is in seconds since 1970-01-01T00:00:00Z: the first that
/// holds of `ClaimMissing`, `Issuer`, `Audience`, `Expired`, `NotYet`, `IssuedLater` and `TooOld` of [`ClaimFault`]; None where
/// none holds. A missing claim is named in the policy's order, and `iat`, which `max_age` asks for, after those.
///
/// It takes no memory, and no sum of dates can overflow. The policy lends the name in `ClaimMissing`.
#[tactic(auto, unfolding(crate::specs::Checks::check_of), using(crate::proofs::RowsLemmas::first_of_both))]
pub fn check<'a>(policy: &'a Policy, claims: &Claims, now: i64) -> Option<ClaimFault<'a>>
    ensures { result ≡ check_of policy.now claims.now now }
{
    let claims = claims.object();
    match first_missing(&claims, policy.required()) {
        Some(fault) => Some(fault),
        None => later_fault(policy, &claims, now),
    }
}
