ghost use Rattle.std.specs.Prelude.{◌≡◌, ◌↔◌, ◌+◌, ◌-◌, ◌%◌, ◌^◌, ◌<◌, ◌≤◌, ◌∷◌, [], List, ℕ, IsTrue, length};
ghost use Rattle.jwt_request.specs.declared.renewal.asker.Asker.TheVariants.{Token};
ghost use Rattle.jwt_request.specs.renewal.History.{Event, passed, began, took, failed};
ghost use Rattle.jwt_request.specs.renewal.Rules.{IsKeys, IsFetch, IsUnderWay, IsCool, IsUsable, Wants, MayBegin, Counts, MayWait, with_fetch, with_end, with_waiting};
ghost use Rattle.jwt_request.specs.renewal.Standing.{Stands, names};

use crate::renewal::answer::{Answer, Fetch};
use crate::renewal::asker::Asker;
use crate::renewal::times::Times;
use crate::renewal::waiters::Waiters;

/// Keys by URL: how old they are, and what became of their last fetch. Plain numbers, of which any are answered.
#[derive(Clone, Copy, Debug, PartialEq, Eq)]
pub struct Renewal {
    pub times: Times,
    /// The moment that was told last, in milliseconds of any clock.
    pub heard: u64,
    /// How long ago the fetch of the keys began; `u64::MAX` where there are none, or it is longer ago than 64 bits count.
    pub keys_age: u64,
    /// The ticket of that fetch.
    pub keys_ticket: u64,
    /// How long ago the last fetch began; `u64::MAX` likewise.
    pub begun_age: u64,
    /// Its ticket.
    pub ticket: u64,
    /// It has not ended.
    pub is_open: bool,
    /// Who waits for it.
    pub waiters: Waiters,
}

impl Renewal {
    /// No keys, and no fetch yet.
    pub fn new(times: Times, now: u64) -> Renewal
        ensures times { result.times ≡ times }
        ensures heard { result.heard ≡ now }
        ensures stands { Stands result [] }
    {
        Renewal {
            times,
            heard: now,
            keys_age: u64::MAX,
            keys_ticket: 0,
            begun_age: u64::MAX,
            ticket: 0,
            is_open: false,
            waiters: Waiters::none(),
        }
    }

    /// Answers which keys are to be used, and whether a fetch is to begin.
    pub fn ask(&mut self, now: u64, asker: Asker) -> Answer
        ensures times { self.new.times ≡ self.old.times }
        ensures heard { self.new.heard ≡ now }
        ensures keys { (h : List Event) → Stands self.old h
            → IsKeys self.old.times (passed (now - self.old.heard) ∷ h) result.keys }
        ensures fetch { (h : List Event) → Stands self.old h
            → IsFetch self.old.times asker (passed (now - self.old.heard) ∷ h) result.fetch }
        ensures stands { (h : List Event) → Stands self.old h
            → Stands self.new (with_fetch asker result.fetch (passed (now - self.old.heard) ∷ h)) }
    {
        self.hear(now);
        let keys = self.keys();
        let fetch = if self.is_wanted(asker) {
            self.fetch_for(asker)
        } else {
            Fetch::Nothing
        };
        Answer { keys, fetch }
    }

    /// Time passes. Where the clock went back, none does.
    pub fn hear(&mut self, now: u64)
        ensures times { self.new.times ≡ self.old.times }
        ensures heard { self.new.heard ≡ now }
        ensures stands { (h : List Event) → Stands self.old h → Stands self.new (passed (now - self.old.heard) ∷ h) }
    {
        let passed = now.saturating_sub(self.heard);
        self.heard = now;
        self.keys_age = self.keys_age.saturating_add(passed);
        self.begun_age = self.begun_age.saturating_add(passed);
    }

    fn keys(&self) -> Option<u64>
        ensures { (h : List Event) → Stands self.now h → IsKeys self.now.times h result }
    {
        if self.is_usable() {
            Some(self.keys_ticket)
        } else {
            None
        }
    }

    /// Whether the keys are to be used at the moment that was told last.
    pub fn is_usable(&self) -> bool
        ensures { (h : List Event) → Stands self.now h → IsTrue result ↔ IsUsable self.now.times h }
    {
        self.keys_age < self.times.max_age
    }

    /// Whether a fetch is under way at the moment that was told last.
    pub fn is_under_way(&self) -> bool
        ensures in_time { IsTrue result → self.now.begun_age < self.now.times.timeout }
        ensures told { (h : List Event) → Stands self.now h → IsTrue result ↔ IsUnderWay self.now.times h }
    {
        self.is_open && self.begun_age < self.times.timeout
    }

    fn is_cool(&self) -> bool
        ensures { (h : List Event) → Stands self.now h → IsTrue result ↔ IsCool self.now.times h }
    {
        self.begun_age >= self.times.cool_down
    }

    fn is_wanted(&self, asker: Asker) -> bool
        ensures { (h : List Event) → Stands self.now h → IsTrue result ↔ Wants self.now.times asker h }
    {
        match asker {
            Asker::Token => !(self.is_usable() && self.keys_age < self.times.refresh_after),
            Asker::Refused(keys) => self.keys_ticket == keys,
            Asker::Owner => true,
            Asker::Waited => false,
        }
    }

    fn may_begin(&self, asker: Asker) -> bool
        ensures { (h : List Event) → Stands self.now h → IsTrue result ↔ MayBegin self.now.times asker h }
    {
        match asker {
            Asker::Token | Asker::Refused(_) => !self.is_under_way() && self.is_cool(),
            Asker::Owner => !self.is_under_way(),
            Asker::Waited => false,
        }
    }

    /// The fetch for one who wants it.
    fn fetch_for(&mut self, asker: Asker) -> Fetch
        ensures times { self.new.times ≡ self.old.times }
        ensures heard { self.new.heard ≡ self.old.heard }
        ensures fetch { (h : List Event) → Stands self.old h → Wants self.old.times asker h
            → IsFetch self.old.times asker h result }
        ensures stands { (h : List Event) → Stands self.old h → Wants self.old.times asker h
            → Stands self.new (with_fetch asker result h) }
    {
        if self.is_under_way() {
            return Fetch::UnderWay(self.ticket, self.times.timeout - self.begun_age);
        }
        if !self.may_begin(asker) {
            return Fetch::Nothing;
        }
        self.begin();
        Fetch::Begin(self.ticket)
    }

    /// A fetch begins, under the next ticket.
    fn begin(&mut self)
        ensures times { self.new.times ≡ self.old.times }
        ensures heard { self.new.heard ≡ self.old.heard }
        ensures named { self.new.ticket ≡ (self.old.ticket + 1) % 2 ^ 64 }
        ensures stands { (asker : Asker) (h : List Event) → Stands self.old h → Wants self.old.times asker h
            → MayBegin self.old.times asker h → Stands self.new (began asker self.new.ticket ∷ h) }
    {
        self.ticket = self.ticket.wrapping_add(1);
        self.begun_age = 0;
        self.is_open = true;
        self.waiters = Waiters::none();
    }

    /// After how many milliseconds more a token that comes begins a fetch: 0 where it does now.
    pub fn due(&self) -> u64
        ensures { (h : List Event) (more : ℕ) → Stands self.now h
            → (result ≤ more) ↔ (Wants self.now.times Token (passed more ∷ h) × MayBegin self.now.times Token (passed more ∷ h)) }
    {
        self.fresh_for().max(self.cool_in()).max(self.over_in())
    }

    /// For how many milliseconds more a token that comes is answered by the keys that there are, and begins no fetch: so long nobody need ask for one,
    /// and whoever keeps this time beside the keys takes no lock for each.
    pub fn quiet_for(&self) -> u64
        ensures { (h : List Event) (more : ℕ) → Stands self.now h
            → (more < result) ↔ (IsUsable self.now.times (passed more ∷ h)
            × (¬ (Wants self.now.times Token (passed more ∷ h) × MayBegin self.now.times Token (passed more ∷ h)))) }
    {
        self.due().min(self.usable_for())
    }

    /// For how many milliseconds more the keys are to be used.
    fn usable_for(&self) -> u64
        ensures { (h : List Event) (more : ℕ) → Stands self.now h
            → (more < result) ↔ IsUsable self.now.times (passed more ∷ h) }
    {
        self.times.max_age.saturating_sub(self.keys_age)
    }

    /// After how many milliseconds more a token that comes wants newer keys.
    fn fresh_for(&self) -> u64
        ensures { (h : List Event) (more : ℕ) → Stands self.now h
            → (result ≤ more) ↔ Wants self.now.times Token (passed more ∷ h) }
    {
        self.times
            .refresh_after
            .min(self.times.max_age)
            .saturating_sub(self.keys_age)
    }

    /// After how many milliseconds more all fetches began a cool-down ago.
    fn cool_in(&self) -> u64
        ensures { (h : List Event) (more : ℕ) → Stands self.now h
            → (result ≤ more) ↔ IsCool self.now.times (passed more ∷ h) }
    {
        self.times.cool_down.saturating_sub(self.begun_age)
    }

    /// After how many milliseconds more none is under way.
    pub fn over_in(&self) -> u64
        ensures { (h : List Event) (more : ℕ) → Stands self.now h
            → (result ≤ more) ↔ (¬ IsUnderWay self.now.times (passed more ∷ h)) }
    {
        if self.is_open {
            self.times.timeout.saturating_sub(self.begun_age)
        } else {
            0
        }
    }

    /// Takes the keys of the fetch with this ticket, and says whether they count: else the fetch is over already, and what it gave is to be dropped.
    pub fn took(&mut self, now: u64, ticket: u64) -> bool
        ensures times { self.new.times ≡ self.old.times }
        ensures heard { self.new.heard ≡ now }
        ensures counts { (h : List Event) → Stands self.old h
            → IsTrue result ↔ Counts self.old.times ticket (passed (now - self.old.heard) ∷ h) }
        ensures stands { (h : List Event) → Stands self.old h
            → Stands self.new (with_end took result (passed (now - self.old.heard) ∷ h)) }
    {
        self.hear(now);
        let counts = self.counts(ticket);
        if counts {
            self.keys_age = self.begun_age;
            self.keys_ticket = self.ticket;
            self.is_open = false;
            self.waiters = Waiters::none();
        }
        counts
    }

    /// The fetch with this ticket failed, or gave no keys that may be used. The keys stay as they are.
    pub fn failed(&mut self, now: u64, ticket: u64) -> bool
        ensures times { self.new.times ≡ self.old.times }
        ensures heard { self.new.heard ≡ now }
        ensures counts { (h : List Event) → Stands self.old h
            → IsTrue result ↔ Counts self.old.times ticket (passed (now - self.old.heard) ∷ h) }
        ensures stands { (h : List Event) → Stands self.old h
            → Stands self.new (with_end failed result (passed (now - self.old.heard) ∷ h)) }
    {
        self.hear(now);
        let ends = self.counts(ticket);
        if ends {
            self.is_open = false;
            self.waiters = Waiters::none();
        }
        ends
    }

    /// Whether a token may wait for the fetch with this ticket, under this name: it is under way, fewer than four wait for it, and none of them under
    /// that name. Where it may, it waits from now on, until the fetch ends. Whoever may not is answered at once: anyone can send tokens for
    /// which a key is lacking. The name is a number of the token's `kid`: two of one number count as one.
    pub fn wait(&mut self, now: u64, ticket: u64, name: u64) -> bool
        ensures times { self.new.times ≡ self.old.times }
        ensures heard { self.new.heard ≡ now }
        ensures waits { (h : List Event) → Stands self.old h
            → IsTrue result ↔ MayWait self.old.times ticket name (passed (now - self.old.heard) ∷ h) }
        ensures stands { (h : List Event) → Stands self.old h
            → Stands self.new (with_waiting name result (passed (now - self.old.heard) ∷ h)) }
    {
        self.hear(now);
        let waits = self.may_wait(ticket, name);
        if waits {
            self.waiters = self.waiters.with(name);
        }
        waits
    }

    fn may_wait(&self, ticket: u64, name: u64) -> bool
        ensures few { IsTrue result → length (names self.now.waiters) < 4 }
        ensures told { (h : List Event) → Stands self.now h → IsTrue result ↔ MayWait self.now.times ticket name h }
    {
        self.counts(ticket) && self.waiters.admits(name)
    }

    fn counts(&self, ticket: u64) -> bool
        ensures { (h : List Event) → Stands self.now h → IsTrue result ↔ Counts self.now.times ticket h }
    {
        self.is_under_way() && self.ticket == ticket
    }
}
