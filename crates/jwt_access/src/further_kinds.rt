//! The members of a rule's document that say what else is asked, by kind and range. Each function answers the value, or its default where
//! the member is absent.

ghost use Rattle.std.specs.Prelude.{◌≡◌, map, string_bytes};
ghost use Rattle.jwt_text.specs.Answers.{Answers};
ghost use Rattle.jwt_policy.specs.MemberKinds.{between};
ghost use Rattle.jwt_access.specs.MemberKinds.{named, each_named, names_in, only_of, count_of, further_in, each_further, values_in};
ghost use Rattle.jwt_access.specs.Views.{asked, further, names_asked, values_asked};

use crate::access_fault::AccessFault;
use crate::further::{FurtherAsked, FurtherRule};
use crate::member_kinds::{texts_of, values_of};
use crate::place::ClaimPlace;
use jwt_text::ObjectRef;
use std::alloc::Global;

// ---- names

/// What the names of a list are asked.
#[derive(Clone, Copy)]
pub(crate) enum NamesKind {
    /// To be absent.
    Absent,
    /// To be objects.
    Object,
}

impl NamesKind {
    /// What is asked.
    fn asked(self) -> FurtherAsked
        ensures { asked result ≡ names_asked self }
    {
        match self {
            NamesKind::Absent => FurtherAsked::Absent,
            NamesKind::Object => FurtherAsked::Object,
        }
    }
}

/// What is asked of the claim of this name.
fn named(alloc: Global, kind: NamesKind, name: &str) -> Result<FurtherRule, AccessFault>
    ensures { Answers AccessFault.OutOfMemory further result (named (names_asked kind) name.now) }
{
    match ClaimPlace::new(alloc, name)? {
        Some(place) => Ok(FurtherRule {
            place,
            asked: kind.asked(),
        }),
        None => Err(AccessFault::claim_range(alloc, name)),
    }
}

/// The same of each of these, in their order.
fn each_named(
    alloc: Global,
    kind: NamesKind,
    names: &[String],
) -> Result<Vec<FurtherRule>, AccessFault>
    ensures { Answers AccessFault.OutOfMemory (λ v. map further v.items) result
        (each_named (names_asked kind) (map string_bytes names.now)) }
{
    let mut rules = Vec::new(alloc);
    for place in 0..names.len() {
        let rule = named(alloc, kind, names[place].as_str())?;
        rules.push(rule)?;
    }
    Ok(rules)
}

/// The same of each name of a list, none where it is absent.
pub(crate) fn names(
    alloc: Global,
    members: &ObjectRef<'_>,
    kind: NamesKind,
    name: &str,
) -> Result<Vec<FurtherRule>, AccessFault>
    ensures { Answers AccessFault.OutOfMemory (λ v. map further v.items) result
        (names_in (names_asked kind) name.now members.now) }
{
    if !members.has(name) {
        return Ok(Vec::new(alloc));
    }
    let Some(list) = members.list(name) else {
        return Err(AccessFault::member(alloc, name));
    };
    let names = texts_of(alloc, name, &list)?;
    each_named(alloc, kind, &names)
}

// ---- values

/// What the members of an object say.
#[derive(Clone, Copy)]
pub(crate) enum ValuesKind {
    /// Values that are allowed.
    Only,
    /// Seconds.
    Age,
    /// Octets.
    Ascii,
}

/// A list of values that are allowed, not empty.
fn only(alloc: Global, members: &ObjectRef<'_>, name: &str) -> Result<FurtherAsked, AccessFault>
    ensures { Answers AccessFault.OutOfMemory asked result (only_of members.now name.now) }
{
    let Some(list) = members.list(name) else {
        return Err(AccessFault::claim(alloc, name));
    };
    let values = values_of(alloc, name, &list)?;
    if values.is_empty() {
        return Err(AccessFault::claim_range(alloc, name));
    }
    Ok(FurtherAsked::Only(values))
}

/// The whole number, where it is one from 0 to 2^32 - 1.
fn small(number: i64) -> Option<u32>
    ensures { result ≡ between 0 4294967295 number }
{
    u32::try_from(number).ok()
}

/// A whole number from 0 to 2^32 - 1.
fn count(alloc: Global, members: &ObjectRef<'_>, name: &str) -> Result<u32, AccessFault>
    ensures { Answers AccessFault.OutOfMemory (λ n. n) result (count_of members.now name.now) }
{
    let Some(number) = members.whole(name) else {
        return Err(AccessFault::claim(alloc, name));
    };
    match small(number) {
        Some(number) => Ok(number),
        None => Err(AccessFault::claim_range(alloc, name)),
    }
}

/// What the member of this name asks.
fn value_asked(
    alloc: Global,
    members: &ObjectRef<'_>,
    kind: ValuesKind,
    name: &str,
) -> Result<FurtherAsked, AccessFault>
    ensures { Answers AccessFault.OutOfMemory asked result
        (values_asked kind members.now name.now) }
{
    match kind {
        ValuesKind::Only => only(alloc, members, name),
        ValuesKind::Age => Ok(FurtherAsked::Aged(count(alloc, members, name)?)),
        ValuesKind::Ascii => Ok(FurtherAsked::Ascii(count(alloc, members, name)?)),
    }
}

/// What is asked of the claim of this name.
fn further_rule(
    alloc: Global,
    members: &ObjectRef<'_>,
    kind: ValuesKind,
    name: &str,
) -> Result<FurtherRule, AccessFault>
    ensures { Answers AccessFault.OutOfMemory further result
        (further_in (values_asked kind) members.now name.now) }
{
    let Some(place) = ClaimPlace::new(alloc, name)? else {
        return Err(AccessFault::claim_range(alloc, name));
    };
    let asked = value_asked(alloc, members, kind, name)?;
    Ok(FurtherRule { place, asked })
}

/// What is asked of each claim, in ascending octet order of their names.
fn each_further(
    alloc: Global,
    members: &ObjectRef<'_>,
    kind: ValuesKind,
) -> Result<Vec<FurtherRule>, AccessFault>
    ensures { Answers AccessFault.OutOfMemory (λ v. map further v.items) result
        (each_further (values_asked kind) members.now) }
{
    let mut rules = Vec::new(alloc);
    for place in 0..members.member_count() {
        let Some(name) = members.name(place) else {
            return Ok(rules);
        };
        let rule = further_rule(alloc, members, kind, name)?;
        rules.push(rule)?;
    }
    Ok(rules)
}

/// The same by the member of this name, none where it is absent.
pub(crate) fn values(
    alloc: Global,
    members: &ObjectRef<'_>,
    kind: ValuesKind,
    name: &str,
) -> Result<Vec<FurtherRule>, AccessFault>
    ensures { Answers AccessFault.OutOfMemory (λ v. map further v.items) result
        (values_in (values_asked kind) name.now members.now) }
{
    if !members.has(name) {
        return Ok(Vec::new(alloc));
    }
    match members.object(name) {
        Some(claims) => each_further(alloc, &claims, kind),
        None => Err(AccessFault::member(alloc, name)),
    }
}
