//! What a memory holds: by its mark, and in a queue by its moment.

ghost use Rattle.std.specs.Prelude.{◌≡◌, ◌+◌, ◌≤◌, ◌↔◌, ◌⊎◌, ℕ, List, [], length, cond, true, Some, None, IsTrue, IsOk, IfSome, IfNone, OnOk, OnErr};
ghost use Rattle.std.specs.BTreeMap.{IsOrdered};
ghost use Rattle.std.proofs.Props.{props};
ghost use Rattle.jwt_possession.specs.once.Tables.{by_mark, held_in, moment_at, is_of, number_of, has_turn};

use std::alloc::{AllocError, Global};
use std::collections::{BTreeMap, BTreeSet};

/// What is held of one thing.
#[derive(Clone, Copy)]
pub struct Holding {
    /// The moment that it has of itself.
    pub(crate) moment: u64,
    /// Whose it is; nobody's, where it names nobody.
    pub(crate) owner: Option<[u8; 32]>,
}

/// What is held, by its mark; and a queue of the marks, by the moment.
#[derive(Drop)]
pub(crate) struct Table {
    pub(crate) held: BTreeMap<[u8; 32], Holding>,
    pub(crate) turns: BTreeSet<(u64, [u8; 32])>,
    ghost queued: { (mark : _) (its : _) → held_in held mark ≡ Some its → has_turn turns its.moment mark ≡ true },
    ghost named: { (mark : _) (moment : ℕ) → has_turn turns moment mark ≡ true → moment_at held mark ≡ Some moment },
    ghost ordered: { IsOrdered by_mark held } by { Prim.hlevel props },
}

impl Table {
    ghost use Rattle.std.specs.Prelude.{Option};
    ghost use Rattle.jwt_possession.specs.declared.once.table.Holding.{Holding};

    pub(crate) fn new(alloc: Global) -> Table
        ensures { result.held.entries ≡ [] }
    {
        Table {
            held: BTreeMap::new(alloc),
            turns: BTreeSet::new(alloc),
        }
    }

    pub(crate) fn len(&self) -> usize
        ensures { result ≡ length self.now.held.entries }
    {
        self.held.len()
    }

    /// Whether something is held by this mark.
    pub(crate) fn holds(&self, mark: &[u8; 32]) -> bool
        ensures { IsTrue result ↔ (its : Holding) × (held_in self.now.held mark.now ≡ Some its) }
    {
        match self.held.get(mark) {
            Some(_) => true,
            None => false,
        }
    }

    /// The moment and the mark of what has the earliest moment.
    pub(crate) fn earliest(&self) -> Option<(u64, [u8; 32])>
        ensures held { IfSome result (λ turn. (owner : Option (List ℕ))
            × (held_in self.now.held turn.1 ≡ Some (record { moment = turn.0; owner = owner }))) }
        ensures least { IfSome result (λ turn. (mark : List ℕ) (its : Holding) → held_in self.now.held mark ≡ Some its → turn.0 ≤ its.moment) }
        ensures none { IfNone result (length self.now.held.entries ≡ 0) }
    {
        match self.turns.first() {
            Some(turn) => Some(*turn),
            None => None,
        }
    }

    /// Holds this by the mark, by which nothing is held.
    pub(crate) fn insert(&mut self, mark: [u8; 32], its: Holding) -> Result<(), AllocError>
        requires { held_in self.old.held mark ≡ None }
        ensures added { OnOk result (held_in self.new.held mark ≡ Some its) }
        ensures others { (other : List ℕ) → held_in self.new.held other ≡ held_in self.old.held other
            ⊎ (IsOk result × (other ≡ mark)) }
        ensures more { OnOk result (length self.new.held.entries ≡ length self.old.held.entries + 1) }
        ensures numbers { OnOk result ((owner : List ℕ) → number_of owner self.new.held ≡ number_of owner self.old.held + cond (is_of owner its) 1 0) }
        ensures unchanged { OnErr result (self.new.held.entries ≡ self.old.held.entries) }
    {
        self.held.insert(mark, its)?;
        match self.turns.insert((its.moment, mark)) {
            Ok(_) => Ok(()),
            Err(_) => {
                self.held.remove(&mark);
                Err(AllocError)
            }
        }
    }

    /// Lets go of what is held by this mark.
    pub(crate) fn remove(&mut self, mark: &[u8; 32]) -> Option<Holding>
        ensures value { result ≡ held_in self.old.held mark.now }
        ensures gone { held_in self.new.held mark.now ≡ None }
        ensures others { (other : List ℕ) → held_in self.new.held other ≡ held_in self.old.held other
            ⊎ (other ≡ mark.now) }
        ensures fewer { IfSome result (λ its. length self.new.held.entries + 1 ≡ length self.old.held.entries) }
        ensures numbers { IfSome result (λ its. (owner : List ℕ) → number_of owner self.new.held + cond (is_of owner its) 1 0 ≡ number_of owner self.old.held) }
        ensures unchanged { IfNone result (self.new.held.entries ≡ self.old.held.entries) }
    {
        let its = self.held.remove(mark)?;
        self.turns.remove(&(its.moment, *mark));
        Some(its)
    }
}
