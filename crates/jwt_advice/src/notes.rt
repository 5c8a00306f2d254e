//! Notes: each is an advice, with what it is about.

ghost use Rattle.std.specs.Prelude.{◌≡◌, ◌++◌, ◌||◌, IfOk, map};
ghost use Rattle.std.specs.List.{flat_map};
ghost use Rattle.jwt_keys.specs.KeySets.{key_set};
ghost use Rattle.jwt_advice.specs.Advised.{policy_advises, set_advises};
ghost use Rattle.jwt_advice.specs.Findings.{note_if, notes, notes_of, notes_with, policy_notes};

use crate::advice::{Advice, EVERY, advised_keys, policy_advises, set_advises};
use jwt_keys::KeySet;
use jwt_mac::Verifier;
use jwt_policy::Policy;
use std::alloc::{AllocError, Global};

/// An advice, with what it is about.
#[derive(Clone, Copy, Debug, PartialEq, Eq)]
pub enum Note {
    /// It is about the policy, or about the policy with its keys.
    Whole(Advice),

    /// It is about the key with this number.
    OfKey(Advice, u32),

    /// The entry at this place has a private member: whoever holds the document can sign.
    PrivateEntry(usize),
}

/// Adds a note, where it is to be advised.
fn put_if(list: &mut Vec<Note>, whole: bool, advice: Advice) -> Result<(), AllocError>
    ensures { IfOk result (λ _. list.new.items ≡ list.old.items ++ note_if whole advice) }
{
    if whole {
        list.push(Note::Whole(advice))?;
    }
    Ok(())
}

/// Adds the notes of keys that the advice is about.
#[tactic(auto, using(std::proofs::lemmas::List::at_drop_more, std::proofs::lemmas::List::at_drop_all))]
fn put_keys(list: &mut Vec<Note>, advice: Advice, numbers: &[u32]) -> Result<(), AllocError>
    ensures { IfOk result (λ _. list.new.items
        ≡ list.old.items ++ map (λ number. Note.OfKey advice number) numbers.now) }
{
    for number in numbers {
        list.push(Note::OfKey(advice, *number))?;
    }
    Ok(())
}

/// Adds the notes of entries with a private member.
#[tactic(auto, using(std::proofs::lemmas::List::at_drop_more, std::proofs::lemmas::List::at_drop_all))]
fn put_entries(list: &mut Vec<Note>, entries: &[usize]) -> Result<(), AllocError>
    ensures { IfOk result (λ _. list.new.items
        ≡ list.old.items ++ map (λ place. Note.PrivateEntry place) entries.now) }
{
    for place in entries {
        list.push(Note::PrivateEntry(*place))?;
    }
    Ok(())
}

/// Adds the notes of one advice.
fn put_notes(
    list: &mut Vec<Note>,
    advice: Advice,
    whole: bool,
    numbers: &[u32],
) -> Result<(), AllocError>
    ensures { IfOk result
        (λ _. list.new.items ≡ list.old.items ++ notes_with advice whole numbers.now) }
{
    put_if(list, whole, advice)?;
    put_keys(list, advice, numbers)
}

/// Whether this is to be advised of the policy, or of the policy with its keys.
fn is_whole(advice: Advice, policy: &Policy, keys: &KeySet, verifiers: &[Box<dyn Verifier>]) -> bool
    ensures { result ≡ (policy_advises advice policy.now
        || set_advises advice policy.now (map meaning verifiers.now) (key_set keys.now).keys) }
{
    policy_advises(advice, policy) || set_advises(advice, policy, keys, verifiers)
}

/// Adds a note, where it is to be advised of the policy.
fn put_of_policy(list: &mut Vec<Note>, advice: Advice, policy: &Policy) -> Result<(), AllocError>
    ensures { IfOk result (λ _. list.new.items
        ≡ list.old.items ++ note_if (policy_advises advice policy.now) advice) }
{
    put_if(list, policy_advises(advice, policy), advice)
}

/// The notes of a policy, whatever its keys, among these.
#[tactic(auto, using(std::proofs::lemmas::List::at_drop_more, std::proofs::lemmas::List::at_drop_all))]
fn policy_notes_among(
    alloc: Global,
    every: &[Advice],
    policy: &Policy,
) -> Result<Vec<Note>, AllocError>
    ensures { IfOk result (λ list. list.items
        ≡ flat_map (λ advice. note_if (policy_advises advice policy.now) advice) every.now) }
{
    let mut list = Vec::new(alloc);
    for advice in every {
        put_of_policy(&mut list, *advice, policy)?;
    }
    Ok(list)
}

/// The notes of a policy, whatever its keys.
///
/// # Errors
/// `AllocError`, where an allocation was refused.
pub fn policy_notes(alloc: Global, policy: &Policy) -> Result<Vec<Note>, AllocError>
    ensures { IfOk result (λ list. list.items ≡ policy_notes policy.now) }
{
    policy_notes_among(alloc, &EVERY, policy)
}

/// The notes of these advices on a policy with its keys.
fn notes_among(
    alloc: Global,
    every: &[Advice],
    policy: &Policy,
    keys: &KeySet,
    verifiers: &[Box<dyn Verifier>],
) -> Result<Vec<Note>, AllocError>
    ensures { IfOk result (λ list. list.items
        ≡ flat_map (notes_of policy.now (map meaning verifiers.now) (key_set keys.now).keys)
        every.now) }
{
    let mut list = Vec::new(alloc);
    for advice in every {
        let numbers = advised_keys(alloc, *advice, policy, keys, verifiers)?;
        let whole = is_whole(*advice, policy, keys, verifiers);
        put_notes(&mut list, *advice, whole, numbers.as_slice())?;
    }
    Ok(list)
}

/// The notes of a policy with its keys; `entries` are the places of those with a private member, as [`private_entries`](crate::private_entries)
/// finds them.
///
/// # Errors
/// `AllocError`, where an allocation was refused.
pub fn notes(
    alloc: Global,
    policy: &Policy,
    keys: &KeySet,
    verifiers: &[Box<dyn Verifier>],
    entries: &[usize],
) -> Result<Vec<Note>, AllocError>
    ensures { IfOk result (λ list. list.items
        ≡ notes policy.now (map meaning verifiers.now) (key_set keys.now).keys entries.now) }
{
    let mut list = notes_among(alloc, &EVERY, policy, keys, verifiers)?;
    put_entries(&mut list, entries)?;
    Ok(list)
}
