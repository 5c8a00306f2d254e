//! The memory of the tokens that were taken.

ghost use Rattle.std.specs.Prelude.{◌≡◌, ◌≤◌, ◌<◌, ◌+◌, ◌↔◌, ◌⊎◌, ℕ, List, length, cond, true, false, Some, None, IsTrue, IsOk, OnOk};
ghost use Rattle.std.specs.NonZero.{non_zero_usize_get};
ghost use Rattle.jwt_possession.specs.once.Tables.{held_in, is_of, number_of, has_place, number_in};

use crate::once::mark::mark;
use crate::once::owners::Owners;
use crate::once::table::{Holding, Table};
use std::alloc::{AllocError, Global};
use std::num::NonZeroUsize;

/// What a memory answers of a token.
#[derive(Clone, Copy, Debug, PartialEq, Eq)]
pub enum Taken {
    /// It wasn't taken before, and is held from now on.
    New,
    /// It was taken before.
    Seen,
    /// Nobody can say whether it was taken: it may have been accepted before the memory was opened, its moment is one of which the memory has let go, or
    /// its last moment has passed by the greatest moment that was told.
    Late,
    /// Its owner has its share already, and no one's moment of what it has has passed. Nobody else is kept out by that.
    OwnFull,
    /// As many tokens as there is room for are held, and no one's moment has passed.
    Full,
    /// An allocation was refused. Nothing new is held.
    OutOfMemory,
}

/// The moments of what is taken, in seconds since 1970-01-01T00:00:00Z.
#[derive(Clone, Copy, Debug, PartialEq, Eq)]
pub struct Times {
    /// The moment that it has of itself, whatever the policy that accepted it: `exp` of a token, `iat` of a proof.
    pub moment: u64,
    /// For how many seconds behind that moment whoever asks accepts it.
    pub grace: u64,
    /// The earliest moment at which it may have been accepted; 0 where nobody can say.
    pub issued: u64,
}

/// What was taken, at most so many, and of no owner more than a share, since it was opened.
#[derive(Drop)]
pub struct Once {
    pub(crate) table: Table,
    pub(crate) owners: Owners,
    pub(crate) most: usize,
    pub(crate) share: usize,
    pub(crate) opened: u64,
    pub(crate) latest: u64,
    pub(crate) span: u64,
    pub(crate) horizon: u64,
    ghost some: { 1 ≤ most },
    ghost one: { 1 ≤ share },
    ghost few: { length table.held.entries ≤ most },
    ghost shared: { (owner : _) → number_of owner table.held ≤ share },
    ghost counted: { (owner : _) → number_in owners.numbers owner ≡ number_of owner table.held },
    ghost placed: { (owner : _) (moment : ℕ) (mark : _) → has_place owners.places owner moment mark ≡ true
        → held_in table.held mark ≡ Some (record { moment = moment; owner = Some owner }) },
    ghost owned: { (owner : _) (moment : ℕ) (mark : _) → held_in table.held mark ≡ Some (record { moment = moment; owner = Some owner })
        → has_place owners.places owner moment mark ≡ true },
}

impl Once {
    ghost use Rattle.std.specs.Prelude.{Option};
    ghost use Rattle.jwt_possession.specs.declared.once.table.Holding.{Holding};
    ghost use Rattle.jwt_possession.specs.once.Marks.{mark_of};
    ghost use Rattle.jwt_possession.specs.once.Steps.{held_of, size_of, share_of, IsHeld, IsLate, IsFullOfLive, IsOwnFull, IsTaken, LetsGo};

    /// An empty memory for at most so many tokens, of each owner's at most a share, opened at this moment: what may have been accepted before it is `Late`.
    /// With 0 a token may have been accepted before, and is new to it.
    pub fn new(alloc: Global, tokens: NonZeroUsize, opened: u64, share: NonZeroUsize) -> Once
        ensures empty { (mark : List ℕ) → held_of result mark ≡ None }
        ensures most { result.most ≡ non_zero_usize_get tokens }
        ensures share { result.share ≡ non_zero_usize_get share }
        ensures opened { result.opened ≡ opened }
        ensures latest { result.latest ≡ 0 }
        ensures span { result.span ≡ 0 }
        ensures horizon { result.horizon ≡ 0 }
    {
        Once {
            table: Table::new(alloc),
            owners: Owners::new(alloc),
            most: tokens.get(),
            share: share.get(),
            opened,
            latest: 0,
            span: 0,
            horizon: 0,
        }
    }

    /// The moment at which it was opened.
    pub fn opened(&self) -> u64
        ensures { result ≡ self.now.opened }
    {
        self.opened
    }

    /// How many it holds, those among them whose moment has passed and that weren't dropped yet.
    pub fn len(&self) -> usize
        ensures value { result ≡ size_of self.now }
        ensures few { result ≤ self.now.most }
    {
        self.table.len()
    }

    /// How many of these are this owner's.
    pub fn len_of(&self, owner: &[u8; 32]) -> usize
        ensures value { result ≡ share_of owner.now self.now }
        ensures few { result ≤ self.now.share }
    {
        self.owners.number(owner)
    }

    /// Takes this token, unless it was taken before, or nobody can say. `owner` tells who made it, or whose it is, where that is known: of no owner more than its
    /// share is held. `now` is the moment of the verdict.
    ///
    /// The greatest moment that was told so far is the one that is meant: a clock that goes back takes nothing back. So is the longest grace: what is held is
    /// held by it, and what was let go is `Late` from then on, to every caller. A call drops at most two whose moment has passed, the earliest of all and the
    /// earliest of its owner's, and adds at most one; it takes as many steps as the logarithm of what is held.
    pub fn take(
        &mut self,
        issuer: &[u8],
        jti: &[u8],
        owner: Option<[u8; 32]>,
        times: Times,
        now: u64,
    ) -> Taken
        ensures { IsTaken self.old (mark_of issuer.now jti.now) owner times now result self.new }
    {
        self.take_mark(mark(issuer, jti), owner, times, now)
    }

    /// Takes the token of this mark.
    pub(crate) fn take_mark(
        &mut self,
        mark: [u8; 32],
        owner: Option<[u8; 32]>,
        times: Times,
        now: u64,
    ) -> Taken
        ensures { IsTaken self.old mark owner times now result self.new }
    {
        self.latest = self.latest.max(now);
        self.span = self.span.max(times.grace);
        if self.is_late(&times) {
            return Taken::Late;
        }
        if self.table.holds(&mark) {
            return Taken::Seen;
        }
        if self.is_own_full(owner) {
            return Taken::OwnFull;
        }
        self.drop_dead();
        if self.table.len() >= self.most {
            return Taken::Full;
        }
        let its = Holding {
            moment: times.moment,
            owner,
        };
        match self.insert(mark, its) {
            Ok(()) => Taken::New,
            Err(_) => Taken::OutOfMemory,
        }
    }

    /// Whether nobody can say whether something with these times was taken.
    fn is_late(&self, times: &Times) -> bool
        ensures { IsTrue result ↔ IsLate self.now self.now.latest times.now }
    {
        times.issued < self.opened
            || times.moment < self.horizon
            || self.latest.saturating_sub(times.moment) > times.grace
    }

    /// Whether this moment has passed, by the longest grace.
    fn has_passed(&self, moment: u64) -> bool
        ensures { IsTrue result ↔ (moment + self.now.span < self.now.latest) }
    {
        self.latest.saturating_sub(moment) > self.span
    }

    /// Lets go of what is held by this mark, whose moment has passed, and says of the horizon that it is behind it.
    fn let_go(&mut self, mark: &[u8; 32])
        requires { (its : Holding) × (held_of self.old mark.now ≡ Some its) × (its.moment + self.old.span < self.old.latest) }
        ensures gone { LetsGo self.old self.new }
        ensures fewer { size_of self.new + 1 ≡ size_of self.old }
        ensures own { (its : Holding) → held_of self.old mark.now ≡ Some its
            → (owner : List ℕ) → share_of owner self.new + cond (is_of owner its) 1 0 ≡ share_of owner self.old }
    {
        let Some(its) = self.table.remove(mark) else {
            return;
        };
        self.horizon = self.horizon.max(its.moment + 1);
        match its.owner {
            Some(owner) => self.owners.remove(&owner, its.moment, mark),
            None => {}
        }
    }

    /// Lets go of what has the earliest moment, if that has passed.
    fn drop_dead(&mut self)
        ensures gone { LetsGo self.old self.new }
        ensures room { (size_of self.new < self.new.most) ⊎ IsFullOfLive self.old self.old.latest self.old.span }
    {
        let Some(turn) = self.table.earliest() else {
            return;
        };
        let mark = turn.1;
        if self.has_passed(turn.0) {
            self.let_go(&mark);
        }
    }

    /// Whether its owner has its share, where it has one. What has the earliest moment of the owner's is let go first, if that has passed.
    fn is_own_full(&mut self, owner: Option<[u8; 32]>) -> bool
        ensures gone { LetsGo self.old self.new }
        ensures full { IsTrue result ↔ IsOwnFull self.old owner self.old.latest self.old.span }
        ensures room { result ≡ false → (whose : List ℕ) → owner ≡ Some whose → share_of whose self.new < self.new.share }
    {
        let Some(owner) = owner else {
            return false;
        };
        if self.owners.number(&owner) < self.share {
            return false;
        }
        let Some(turn) = self.owners.earliest(&owner) else {
            return true;
        };
        let own = turn.1;
        if !self.has_passed(turn.0) {
            return true;
        }
        self.let_go(&own);
        false
    }

    /// Holds this by the mark, by which nothing is held.
    fn insert(&mut self, mark: [u8; 32], its: Holding) -> Result<(), AllocError>
        requires absent { held_of self.old mark ≡ None }
        requires room { size_of self.old < self.old.most }
        requires own { (owner : List ℕ) → its.owner ≡ Some owner → share_of owner self.old < self.old.share }
        ensures opened { self.new.opened ≡ self.old.opened }
        ensures latest { self.new.latest ≡ self.old.latest }
        ensures span { self.new.span ≡ self.old.span }
        ensures horizon { self.new.horizon ≡ self.old.horizon }
        ensures most { self.new.most ≡ self.old.most }
        ensures share { self.new.share ≡ self.old.share }
        ensures others { (other : List ℕ) → held_of self.new other ≡ held_of self.old other
            ⊎ (IsOk result × (other ≡ mark)) }
        ensures added { OnOk result (held_of self.new mark ≡ Some its) }
    {
        // Read, since fewer than the share are fewer than fit.
        let _share = self.share;
        self.table.insert(mark, its)?;
        let Some(owner) = its.owner else {
            return Ok(());
        };
        match self.owners.add(&owner, its.moment, &mark) {
            Ok(()) => Ok(()),
            Err(_) => {
                self.table.remove(&mark);
                Err(AllocError)
            }
        }
    }
}
