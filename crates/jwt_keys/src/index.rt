//! The numbers of keys by their names.

ghost use Rattle.std.specs.Prelude.{◌≡◌, ◌≤◌, ℕ, List, Some, None, length, OnOk, IfOk, nat_le, find};
ghost use Rattle.std.specs.Str.{bytes_eq};
ghost use Rattle.std.specs.List.Sorted.{IsNonDecreasingBy};
ghost use Rattle.jwt_keys.specs.Numbers.{earlier};
ghost use Rattle.jwt_keys.specs.Views.{added, group};

use crate::key::Key;
use std::alloc::{AllocError, Global};
use std::collections::BTreeMap;

/// From each name to the ascending numbers of the keys that have it.
pub(crate) type Groups = BTreeMap<String, Vec<u32>>;

/// The numbers of a key set's keys by their names.
#[derive(Drop)]
pub(crate) struct Index {
    /// From each `kid` to its keys.
    pub(crate) by_kid: Groups,
    /// From each thumbprint of a key without `kid` to its keys.
    pub(crate) by_thumbprint: Groups,
}

impl Index {
    ghost use Rattle.jwt_keys.specs.Keys.{has_kid, has_thumbprint};
    ghost use Rattle.jwt_keys.specs.Views.{IsIndex, key_parts};

    /// The index of these keys, which are numbered from 0 in their order.
    pub(crate) fn of(alloc: Global, keys: &Vec<Key>) -> Result<Index, AllocError>
        requires { length keys.now.items ≤ 1024 }
        ensures { IfOk result (λ index. IsIndex index keys.now.items) }
    {
        let mut index = Index {
            by_kid: BTreeMap::new(alloc),
            by_thumbprint: BTreeMap::new(alloc),
        };
        for (number, key) in keys.iter().enumerate() {
            index.add(alloc, key, number as u32)?;
        }
        Ok(index)
    }

    /// Puts a key's number under its `kid` or, where it has none, under its thumbprint.
    fn add(&mut self, alloc: Global, key: &Key, number: u32) -> Result<(), AllocError>
        ensures kids { OnOk result ((q : List ℕ) → group self.new.by_kid q
            ≡ added (has_kid q (key_parts key.now)) number (group self.old.by_kid q)) }
        ensures thumbprints { OnOk result ((q : List ℕ) → group self.new.by_thumbprint q
            ≡ added (has_thumbprint q (key_parts key.now)) number
            (group self.old.by_thumbprint q)) }
    {
        match &key.kid {
            Some(kid) => add_number(alloc, &mut self.by_kid, kid.as_str(), number),
            None => add_number(
                alloc,
                &mut self.by_thumbprint,
                key.thumbprint.as_str(),
                number,
            ),
        }
    }
}

/// Puts a number at the end of a name's numbers.
fn add_number(alloc: Global, groups: &mut Groups, name: &str, number: u32) -> Result<(), AllocError>
    ensures { OnOk result ((q : List ℕ) → group groups.new q
        ≡ added (bytes_eq q name.now) number (group groups.old q)) }
{
    let key = String::from_str(alloc, name)?;
    groups.entry(key)?.or_default().push(number)?;
    Ok(())
}

/// The least number of a name at or after `from`.
pub(crate) fn first_from(groups: &Groups, name: &str, from: u32) -> Option<u32>
    requires { IsNonDecreasingBy (λ n. n) (group groups.now name.now) }
    ensures { result ≡ find (λ j. nat_le from j) (group groups.now name.now) }
{
    match groups.get(name) {
        Some(numbers) => least_from(numbers, from),
        None => None,
    }
}

/// The least of ascending numbers at or after `from`, found by halves.
fn least_from(numbers: &[u32], from: u32) -> Option<u32>
    requires { IsNonDecreasingBy (λ n. n) numbers.now }
    ensures { result ≡ find (λ j. nat_le from j) numbers.now }
{
    let at = numbers.partition_point(|j| *j < from);
    if at < numbers.len() {
        Some(numbers[at])
    } else {
        None
    }
}

/// The earlier of two numbers, where there are any.
pub(crate) fn earlier(a: Option<u32>, b: Option<u32>) -> Option<u32>
    ensures { result ≡ earlier a b }
{
    match (a, b) {
        (None, b) => b,
        (Some(a), None) => Some(a),
        (Some(a), Some(b)) => Some(a.min(b)),
    }
}
