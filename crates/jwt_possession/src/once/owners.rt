//! The share that each owner has of a memory.

ghost use Rattle.std.specs.Prelude.{◌≡◌, ◌+◌, ◌≤◌, ◌<◌, ◌^◌, ℕ, List, length, cond, true, false, OnOk, OnErr, IfSome, IfNone};
ghost use Rattle.std.specs.Ordering.{is_eq};
ghost use Rattle.jwt_possession.specs.once.Tables.{has_place, number_in};

use std::alloc::{AllocError, Global};
use std::collections::{BTreeMap, BTreeSet};

/// For each owner a queue of the marks of what it has, by the moment; and how many they are.
#[derive(Drop)]
pub(crate) struct Owners {
    pub(crate) places: BTreeSet<([u8; 32], (u64, [u8; 32]))>,
    pub(crate) numbers: BTreeMap<[u8; 32], usize>,
    ghost whole: { (owner : _) (moment : ℕ) (mark : _) → has_place places owner moment mark ≡ true → length mark ≡ 32 },
}

impl Owners {
    ghost use Rattle.jwt_possession.specs.once.Tables.{by_mark, by_place};

    pub(crate) fn new(alloc: Global) -> Owners
        ensures empty { (owner : List ℕ) (moment : ℕ) (mark : List ℕ) → has_place result.places owner moment mark ≡ false }
        ensures zero { (owner : List ℕ) → number_in result.numbers owner ≡ 0 }
    {
        Owners {
            places: BTreeSet::new(alloc),
            numbers: BTreeMap::new(alloc),
        }
    }

    /// How many this owner has.
    pub(crate) fn number(&self, owner: &[u8; 32]) -> usize
        ensures { result ≡ number_in self.now.numbers owner.now }
    {
        match self.numbers.get(owner) {
            Some(number) => *number,
            None => 0,
        }
    }

    /// The moment and the mark of what has the earliest moment of this owner's.
    pub(crate) fn earliest(&self, owner: &[u8; 32]) -> Option<(u64, [u8; 32])>
        ensures held { IfSome result (λ turn. has_place self.now.places owner.now turn.0 turn.1 ≡ true) }
        ensures least { IfSome result (λ turn. (moment : ℕ) (mark : List ℕ) → has_place self.now.places owner.now moment mark ≡ true → turn.0 ≤ moment) }
        ensures none { IfNone result ((moment : ℕ) (mark : List ℕ) → has_place self.now.places owner.now moment mark ≡ false) }
    {
        match self.places.range((*owner, (0, [0; 32]))..).next() {
            Some(place) => {
                if place.0 == *owner {
                    Some(place.1)
                } else {
                    None
                }
            }
            None => None,
        }
    }

    /// Counts this mark with the owner's, where it doesn't stand yet.
    pub(crate) fn add(
        &mut self,
        owner: &[u8; 32],
        moment: u64,
        mark: &[u8; 32],
    ) -> Result<(), AllocError>
        requires absent { has_place self.old.places owner.now moment mark.now ≡ false }
        requires room { number_in self.old.numbers owner.now + 1 < 2 ^ 64 }
        ensures places { OnOk result ((whose : List ℕ) (its : ℕ) (other : List ℕ) → has_place self.new.places whose its other
            ≡ cond (is_eq (by_place (owner.now, (moment, mark.now)) (whose, (its, other)))) true (has_place self.old.places whose its other)) }
        ensures numbers { OnOk result ((whose : List ℕ) → number_in self.new.numbers whose ≡ number_in self.old.numbers whose + cond (is_eq (by_mark owner.now whose)) 1 0) }
        ensures same_places { OnErr result ((whose : List ℕ) (its : ℕ) (other : List ℕ) → has_place self.new.places whose its other ≡ has_place self.old.places whose its other) }
        ensures same_numbers { OnErr result ((whose : List ℕ) → number_in self.new.numbers whose ≡ number_in self.old.numbers whose) }
    {
        let number = self.number(owner);
        self.places.insert((*owner, (moment, *mark)))?;
        match self.numbers.insert(*owner, number + 1) {
            Ok(_) => Ok(()),
            Err(_) => {
                self.places.remove(&(*owner, (moment, *mark)));
                Err(AllocError)
            }
        }
    }

    /// Counts this mark with the owner's no more.
    pub(crate) fn remove(&mut self, owner: &[u8; 32], moment: u64, mark: &[u8; 32])
        requires { 1 ≤ number_in self.old.numbers owner.now }
        ensures places { (whose : List ℕ) (its : ℕ) (other : List ℕ) → has_place self.new.places whose its other
            ≡ cond (is_eq (by_place (owner.now, (moment, mark.now)) (whose, (its, other)))) false (has_place self.old.places whose its other) }
        ensures numbers { (whose : List ℕ) → number_in self.new.numbers whose + cond (is_eq (by_mark owner.now whose)) 1 0 ≡ number_in self.old.numbers whose }
    {
        let number = self.number(owner);
        self.places.remove(&(*owner, (moment, *mark)));
        if number == 1 {
            self.numbers.remove(owner);
            return;
        }
        // The owner is in the table already, so that nothing is allocated here.
        match self.numbers.insert(*owner, number - 1) {
            Ok(_) => {}
            Err(_) => {}
        }
    }
}
