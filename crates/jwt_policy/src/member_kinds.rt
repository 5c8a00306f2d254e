//! Members of a policy document by kind and range. Each function answers the value, or its default where the member is absent;
//! `Member` where its kind is another, `Range` where its value is out of range, and `OutOfMemory` where an allocation was refused.

ghost use Rattle.std.specs.Prelude.{◌≡◌, ◌≤◌, ◌<◌, ◌^◌, IsErrOf, IfOk, IfSome, length, map, option_map, string_bytes, ◌||◌};
ghost use Rattle.std.specs.List.{list_any};
ghost use Rattle.jwt_text.specs.Answers.{Answers};
ghost use Rattle.jwt_policy.specs.MemberKinds.{whole_of, whole_in, between, optional, flag_in, mode_named, mode_in, typ_in, texts_of, texts_in, is_reserved, understood_in, algs_named, algs_in};

use crate::crit::is_registered;
use crate::mode::Mode;
use crate::policy_fault::PolicyFault;
use jwt_mac::Alg;
use jwt_text::ObjectRef;
use std::alloc::Global;

// ---- whole numbers, truth values, texts

/// The whole numbers from `low` to `high`, both among them.
#[derive(Clone, Copy)]
pub(crate) struct Bounds {
    pub(crate) low: u64,
    pub(crate) high: u64,
}

impl Bounds {
    /// The bounds from `low` to `high`.
    pub(crate) fn new(low: u64, high: u64) -> Self
        ensures low { result.low ≡ low }
        ensures high { result.high ≡ high }
    {
        Bounds { low, high }
    }
}

/// The number, where it is within the bounds.
fn between(bounds: Bounds, value: i64) -> Option<u64>
    ensures { result ≡ between bounds.low bounds.high value }
{
    let value = u64::try_from(value).ok()?;
    if bounds.low <= value && value <= bounds.high {
        Some(value)
    } else {
        None
    }
}

/// A whole number within the bounds that is there.
fn whole_of(
    alloc: Global,
    members: &ObjectRef<'_>,
    name: &str,
    bounds: Bounds,
) -> Result<u64, PolicyFault>
    ensures value { ¬ IsErrOf result PolicyFault.OutOfMemory
        → result ≡ whole_of bounds.low bounds.high name.now members.now }
    ensures range { IfOk result (λ n. (bounds.low ≤ n) × (n ≤ bounds.high)) }
{
    let Some(value) = members.whole(name) else {
        return Err(PolicyFault::member(alloc, name));
    };
    match between(bounds, value) {
        Some(value) => Ok(value),
        None => Err(PolicyFault::range(alloc, name)),
    }
}

/// A whole number within the bounds, or the default where it is absent.
pub(crate) fn whole(
    alloc: Global,
    members: &ObjectRef<'_>,
    name: &str,
    bounds: Bounds,
    default: u64,
) -> Result<u64, PolicyFault>
    requires { (bounds.low ≤ default) × (default ≤ bounds.high) }
    ensures value { ¬ IsErrOf result PolicyFault.OutOfMemory
        → result ≡ whole_in bounds.low bounds.high default name.now members.now }
    ensures range { IfOk result (λ n. (bounds.low ≤ n) × (n ≤ bounds.high)) }
{
    if members.has(name) {
        whole_of(alloc, members, name, bounds)
    } else {
        Ok(default)
    }
}

/// A whole number within the bounds, or none where it is absent.
pub(crate) fn optional(
    alloc: Global,
    members: &ObjectRef<'_>,
    name: &str,
    bounds: Bounds,
) -> Result<Option<u32>, PolicyFault>
    requires { bounds.high < 2 ^ 32 }
    ensures value { ¬ IsErrOf result PolicyFault.OutOfMemory
        → result ≡ optional (whole_of bounds.low bounds.high) name.now members.now }
    ensures range { IfOk result (λ o. IfSome o (λ n. (bounds.low ≤ n) × (n ≤ bounds.high))) }
{
    if !members.has(name) {
        return Ok(None);
    }
    let value = whole_of(alloc, members, name, bounds)?;
    Ok(Some(value as u32))
}

/// A truth value, false where it is absent.
pub(crate) fn flag(alloc: Global, members: &ObjectRef<'_>, name: &str) -> Result<bool, PolicyFault>
    ensures { ¬ IsErrOf result PolicyFault.OutOfMemory → result ≡ flag_in name.now members.now }
{
    if !members.has(name) {
        return Ok(false);
    }
    match members.flag(name) {
        Some(value) => Ok(value),
        None => Err(PolicyFault::member(alloc, name)),
    }
}

/// The mode of this name.
fn mode_named(text: &str) -> Option<Mode>
    ensures { result ≡ mode_named text.now }
{
    match text {
        "any" => Some(Mode::Any),
        "all" => Some(Mode::All),
        _ => None,
    }
}

/// A mode, `any` where it is absent.
pub(crate) fn mode(alloc: Global, members: &ObjectRef<'_>, name: &str) -> Result<Mode, PolicyFault>
    ensures { ¬ IsErrOf result PolicyFault.OutOfMemory → result ≡ mode_in name.now members.now }
{
    if !members.has(name) {
        return Ok(Mode::Any);
    }
    let Some(text) = members.text(name) else {
        return Err(PolicyFault::member(alloc, name));
    };
    match mode_named(text) {
        Some(mode) => Ok(mode),
        None => Err(PolicyFault::range(alloc, name)),
    }
}

/// A text that isn't empty, or none where it is absent.
pub(crate) fn typ(
    alloc: Global,
    members: &ObjectRef<'_>,
    name: &str,
) -> Result<Option<String>, PolicyFault>
    ensures { Answers PolicyFault.OutOfMemory (option_map string_bytes) result
        (typ_in name.now members.now) }
{
    if !members.has(name) {
        return Ok(None);
    }
    let Some(text) = members.text(name) else {
        return Err(PolicyFault::member(alloc, name));
    };
    if text.is_empty() {
        return Err(PolicyFault::range(alloc, name));
    }
    Ok(Some(String::from_str(alloc, text)?))
}

// ---- lists of texts

/// A list of texts that is there.
#[tactic(auto, using(crate::proofs::AllSome::joined_more, crate::proofs::AllSome::joined_stop, crate::proofs::AllSome::joined_end, crate::proofs::AllSome::joined_start))]
fn texts_of(alloc: Global, members: &ObjectRef<'_>, name: &str) -> Result<Vec<String>, PolicyFault>
    ensures { Answers PolicyFault.OutOfMemory (λ v. map string_bytes v.items) result
        (texts_of name.now members.now) }
{
    let Some(list) = members.list(name) else {
        return Err(PolicyFault::member(alloc, name));
    };
    let mut copies = Vec::new(alloc);
    for place in 0..list.len() {
        let Some(text) = list.text(place) else {
            return Err(PolicyFault::member(alloc, name));
        };
        copies.push(String::from_str(alloc, text)?)?;
    }
    Ok(copies)
}

/// A list of texts, empty where it is absent.
pub(crate) fn texts(
    alloc: Global,
    members: &ObjectRef<'_>,
    name: &str,
) -> Result<Vec<String>, PolicyFault>
    ensures { Answers PolicyFault.OutOfMemory (λ v. map string_bytes v.items) result
        (texts_in name.now members.now) }
{
    if members.has(name) {
        texts_of(alloc, members, name)
    } else {
        Ok(Vec::new(alloc))
    }
}

/// Whether `crit` may never hold the name: it is `b64`, or a header name of RFC 7515, section 4.1.
fn is_reserved(name: &str) -> bool
    ensures { result ≡ is_reserved name.now }
{
    is_registered(name) || name == "b64"
}

/// Whether `crit` may never hold one of these names.
#[tactic(auto, using(std::proofs::lemmas::List::at_drop_more, std::proofs::lemmas::List::at_drop_all))]
fn any_reserved(texts: &[String]) -> bool
    ensures { result ≡ list_any is_reserved (map string_bytes texts.now) }
{
    for each in texts {
        if is_reserved(each.as_str()) {
            return true;
        }
    }
    false
}

/// A list of names that `crit` may hold, empty where it is absent.
pub(crate) fn understood(
    alloc: Global,
    members: &ObjectRef<'_>,
    name: &str,
) -> Result<Vec<String>, PolicyFault>
    ensures { Answers PolicyFault.OutOfMemory (λ v. map string_bytes v.items) result
        (understood_in name.now members.now) }
{
    let texts = texts(alloc, members, name)?;
    if any_reserved(&texts) {
        return Err(PolicyFault::range(alloc, name));
    }
    Ok(texts)
}

/// The algorithms of these names. `NoAlgorithm` where there is none.
#[tactic(auto, using(crate::proofs::AllSome::joined_first, crate::proofs::AllSome::joined_start, std::proofs::lemmas::List::at_drop_more, std::proofs::lemmas::List::at_drop_all, crate::proofs::AllSome::joined_none))]
fn algs_named(alloc: Global, name: &str, texts: &[String]) -> Result<Vec<Alg>, PolicyFault>
    ensures value { Answers PolicyFault.OutOfMemory (λ v. v.items) result
        (algs_named name.now (map string_bytes texts.now)) }
    ensures some { IfOk result (λ v. 1 ≤ length v.items) }
{
    if texts.is_empty() {
        return Err(PolicyFault::NoAlgorithm);
    }
    let mut algs = Vec::new(alloc);
    for each in texts {
        let Some(alg) = Alg::from_text(each.as_str()) else {
            return Err(PolicyFault::range(alloc, name));
        };
        algs.push(alg)?;
    }
    Ok(algs)
}

/// A list of names of algorithms. `NoAlgorithm` where it is absent or empty.
pub(crate) fn algs(
    alloc: Global,
    members: &ObjectRef<'_>,
    name: &str,
) -> Result<Vec<Alg>, PolicyFault>
    ensures value { Answers PolicyFault.OutOfMemory (λ v. v.items) result
        (algs_in name.now members.now) }
    ensures some { IfOk result (λ v. 1 ≤ length v.items) }
{
    if !members.has(name) {
        return Err(PolicyFault::NoAlgorithm);
    }
    let texts = texts_of(alloc, members, name)?;
    algs_named(alloc, name, &texts)
}
