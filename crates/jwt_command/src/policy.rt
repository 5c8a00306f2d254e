//! The command `policy`: what a policy means, alone or with its keys, and what a service document asks.
ghost use Rattle.std.specs.Prelude.{◌≡◌, IfOk, map, option_map};
ghost use Rattle.jwt_keys.specs.KeySets.{key_set, key_set_of};
ghost use Rattle.jwt_keys.specs.Numbers.{numbers};
ghost use Rattle.jwt_advice.specs.Findings.{found_alone, found_with};
ghost use Rattle.jwt_advice.specs.Private.{entries_of, is_private};
ghost use Rattle.jwt_output.specs.verdicts.Meant.{status_of};
ghost use Rattle.jwt_command.specs.Policy.{IsDocumentsAnswer, IsMeaning, IsPolicyAnswer, IsWithKeys};
ghost use Rattle.jwt_words.specs.Seen.{held_view};
ghost use Rattle.jwt_output.specs.Views.{reply_view};

use crate::documents::{Held, TakenDocument};
use crate::service::service;
use crate::subject::{Advised, Replied, refused_keys, refused_policy};
use jwt_advice::{Findings, private_entries};
use jwt_keys::{KeySet, KeysFault};
use jwt_mac::Verifier;
use jwt_output::verdicts::printed_policy;
use jwt_policy::{Policy, PolicyFault};
use jwt_settings::Printing;
use jwt_text::{Object, TextFault, object};
use std::alloc::{AllocError, Global};

/// The members that stand in a document; none where it is no object.
fn members_in(alloc: Global, document: &[u8]) -> Result<Object, AllocError> {
    match object(alloc, document) {
        Ok(members) => Ok(members),
        Err(TextFault::OutOfMemory) => Err(AllocError),
        Err(_) => Ok(Object::empty(alloc)),
    }
}

/// A policy that was read.
#[derive(Clone, Copy)]
struct ReadPolicy<'p> {
    /// The octets of its document.
    document: &'p [u8],
    /// What it asks.
    policy: &'p Policy,
}

/// A policy alone.
fn alone<'a>(
    alloc: Global,
    printing: Printing,
    read: &ReadPolicy<'_>,
) -> Result<Replied<'a>, AllocError>
    ensures { IfOk result (λ a. a.reply.status ≡ status_of (found_alone read.now.policy.now).notes) }
{
    let found = Findings::alone(alloc, read.policy)?;
    let members = members_in(alloc, read.document)?;
    let reply = printed_policy(alloc, printing, &members.lend(), read.policy, &found)?;
    Ok(Replied::advised(reply, Advised::Notes(found.notes)))
}

/// The places of the entries of a key set document that have a private member.
fn private_places(alloc: Global, octets: &[u8]) -> Result<Vec<usize>, AllocError>
    ensures { IfOk result (λ places. places.items ≡ numbers is_private 0 (entries_of octets.now)) }
{
    match private_entries(alloc, octets) {
        Ok(places) => Ok(places),
        Err(_) => Err(AllocError),
    }
}

/// A key set that was read.
#[derive(Clone, Copy)]
struct ReadKeys<'k> {
    /// The octets of its document.
    document: &'k [u8],
    /// Its keys.
    keys: &'k KeySet,
}

/// A policy with a key set that was read.
fn with_set<'a>(
    alloc: Global,
    printing: Printing,
    verifiers: &[Box<dyn Verifier>],
    read: &ReadPolicy<'_>,
    set: &ReadKeys<'_>,
) -> Result<Replied<'a>, AllocError>
    ensures { IfOk result (λ a. a.reply.status ≡ status_of
        (found_with read.now.policy.now (map meaning verifiers.now) (key_set set.now.keys.now).keys
        (numbers is_private 0 (entries_of set.now.document.now))).notes) }
{
    let places = private_places(alloc, set.document)?;
    let found = Findings::with_keys(alloc, read.policy, set.keys, verifiers, places.as_slice())?;
    let members = members_in(alloc, read.document)?;
    let reply = printed_policy(alloc, printing, &members.lend(), read.policy, &found)?;
    Ok(Replied::advised(reply, Advised::Notes(found.notes)))
}

/// A policy with the document of its key set.
fn with_keys<'a>(
    alloc: Global,
    printing: Printing,
    verifiers: &[Box<dyn Verifier>],
    read: &ReadPolicy<'_>,
    document: &'a [u8],
) -> Result<Replied<'a>, AllocError>
    ensures answer { IfOk result (λ a. IsWithKeys printing (map meaning verifiers.now) read.now.policy.now
        document.now (key_set_of document.now) (reply_view a.reply)) }
{
    match KeySet::read(alloc, document) {
        Ok(keys) => {
            let set = ReadKeys {
                document,
                keys: &keys,
            };
            with_set(alloc, printing, verifiers, read, &set)
        }
        Err(KeysFault::OutOfMemory) => Err(AllocError),
        Err(fault) => refused_keys(alloc, printing, fault, TakenDocument::Held(document)),
    }
}

/// A policy, with the document of a key set, if there is one.
fn meaning_of<'a>(
    alloc: Global,
    printing: Printing,
    verifiers: &[Box<dyn Verifier>],
    read: &ReadPolicy<'_>,
    keys: Option<&'a [u8]>,
) -> Result<Replied<'a>, AllocError>
    ensures answer { IfOk result (λ a. IsMeaning printing (map meaning verifiers.now) read.now.policy.now
        (option_map (λ t. t.now) keys.entry) (reply_view a.reply)) }
{
    match keys {
        Some(keys) => with_keys(alloc, printing, verifiers, read, keys),
        None => alone(alloc, printing, read),
    }
}

/// What a policy means, with the keys of a key set and these verifiers for public keys, or alone. The policy is looked at first.
fn policy_with<'a>(
    alloc: Global,
    printing: Printing,
    verifiers: &[Box<dyn Verifier>],
    document: &'a [u8],
    keys: Option<&'a [u8]>,
) -> Result<Replied<'a>, AllocError>
    ensures answer { IfOk result (λ a. IsDocumentsAnswer printing (map meaning verifiers.now) document.now
        (option_map (λ t. t.now) keys.entry) (reply_view a.reply)) }
{
    match Policy::read(alloc, document) {
        Ok(policy) => {
            let read = ReadPolicy {
                document,
                policy: &policy,
            };
            meaning_of(alloc, printing, verifiers, &read, keys)
        }
        Err(PolicyFault::OutOfMemory) => Err(AllocError),
        Err(fault) => refused_policy(alloc, printing, fault, TakenDocument::Held(document)),
    }
}

/// Runs `jwt policy`, in JSON or in lines, on the documents in hand: what a service document asks, where one is there, and else what a policy means, with these
/// verifiers for public keys.
pub(crate) fn policy<'a>(
    alloc: Global,
    printing: Printing,
    verifiers: &[Box<dyn Verifier>],
    held: Held<'a>,
) -> Result<Replied<'a>, AllocError>
    ensures answer { IfOk result (λ a. IsPolicyAnswer printing (map meaning verifiers.now)
        (held_view held.entry) (reply_view a.reply)) }
{
    match held.key {
        Some(document) => service(alloc, printing, verifiers, document),
        None => {
            let document = held.policy.unwrap_or(&[]);
            policy_with(alloc, printing, verifiers, document, held.keys)
        }
    }
}
