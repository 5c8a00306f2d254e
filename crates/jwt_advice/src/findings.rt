//! The findings on a policy, alone or with its keys.

ghost use Rattle.std.specs.Prelude.{◌≡◌, IfOk, map};
ghost use Rattle.jwt_keys.specs.KeySets.{key_set};
ghost use Rattle.jwt_advice.specs.Findings.{counted, facts, facts_view, findings_view, found_alone, found_with};

use crate::advice::{Advice, advised_keys};
use crate::costs::{Cost, most};
use crate::notes::{Note, notes, policy_notes};
use crate::uses::key_count;
use jwt_keys::KeySet;
use jwt_mac::{Alg, Verifier};
use jwt_policy::Policy;
use std::alloc::{AllocError, Global};

/// An algorithm of a policy, and how many keys can verify signatures by it.
#[derive(Clone, Copy, Debug)]
pub struct AlgKeys {
    /// The algorithm.
    pub alg: Alg,

    /// How many keys.
    pub keys: u32,
}

/// What the keys of a policy are for, and what one token can cost.
#[derive(Debug, Drop)]
pub struct KeyFacts {
    /// The algorithms of the policy, in its order.
    pub algs: Vec<AlgKeys>,

    /// The numbers of the keys that no algorithm of the policy can ever use, ascending.
    pub unused: Vec<u32>,

    /// The greatest number of octets that HMAC hashes for one token.
    pub work: u64,

    /// The greatest number of tries that one token causes.
    pub calls: u64,
}

/// What is found of a policy, alone or with its keys.
#[derive(Debug, Drop)]
pub struct Findings {
    /// What its keys are for; none of a policy alone.
    pub facts: Option<KeyFacts>,

    /// What ought to be written otherwise.
    pub notes: Vec<Note>,
}

/// How many keys can verify signatures by the algorithm.
fn counted(verifiers: &[Box<dyn Verifier>], keys: &KeySet, alg: Alg) -> AlgKeys
    ensures { result ≡ counted (map meaning verifiers.now) (key_set keys.now).keys alg }
{
    let count = key_count(verifiers, keys, alg);
    AlgKeys { alg, keys: count }
}

/// The same of each algorithm of the policy.
#[tactic(auto, using(std::proofs::lemmas::List::at_drop_more, std::proofs::lemmas::List::at_drop_all))]
fn algs_counted(
    alloc: Global,
    policy: &Policy,
    keys: &KeySet,
    verifiers: &[Box<dyn Verifier>],
) -> Result<Vec<AlgKeys>, AllocError>
    ensures { IfOk result (λ list. list.items
        ≡ map (counted (map meaning verifiers.now) (key_set keys.now).keys) policy.now.run.algs) }
{
    let mut list = Vec::new(alloc);
    let algs = policy.algs();
    for alg in algs {
        list.push(counted(verifiers, keys, *alg))?;
    }
    Ok(list)
}

/// What the keys of a policy are for, and what one token can cost.
fn facts(
    alloc: Global,
    policy: &Policy,
    keys: &KeySet,
    verifiers: &[Box<dyn Verifier>],
) -> Result<KeyFacts, AllocError>
    ensures { IfOk result (λ found. facts_view found
        ≡ facts policy.now (map meaning verifiers.now) (key_set keys.now).keys) }
{
    let algs = algs_counted(alloc, policy, keys, verifiers)?;
    let unused = advised_keys(alloc, Advice::UnusedKey, policy, keys, verifiers)?;
    let work = most(Cost::Work, policy, keys, verifiers);
    let calls = most(Cost::Calls, policy, keys, verifiers);
    Ok(KeyFacts {
        algs,
        unused,
        work,
        calls,
    })
}

impl Findings {
    /// What is found of a policy, whatever its keys.
    ///
    /// # Errors
    /// `AllocError`, where an allocation was refused.
    pub fn alone(alloc: Global, policy: &Policy) -> Result<Findings, AllocError>
        ensures { IfOk result (λ found. findings_view found ≡ found_alone policy.now) }
    {
        let notes = policy_notes(alloc, policy)?;
        Ok(Findings { facts: None, notes })
    }

    /// What is found of a policy with its keys; `entries` are the places of the entries with a private member, as
    /// [`private_entries`](crate::private_entries) finds them.
    ///
    /// # Errors
    /// `AllocError`, where an allocation was refused.
    pub fn with_keys(
        alloc: Global,
        policy: &Policy,
        keys: &KeySet,
        verifiers: &[Box<dyn Verifier>],
        entries: &[usize],
    ) -> Result<Findings, AllocError>
        ensures { IfOk result (λ found. findings_view found
            ≡ found_with policy.now (map meaning verifiers.now) (key_set keys.now).keys entries.now) }
    {
        let facts = facts(alloc, policy, keys, verifiers)?;
        let notes = notes(alloc, policy, keys, verifiers, entries)?;
        Ok(Findings {
            facts: Some(facts),
            notes,
        })
    }
}
