//! Keys by URL: the numbers of a [`Renewal`] stand in a struct of the caller's, who holds a lock round each call.

ghost use Rattle.std.specs.Prelude.{◌≡◌, ◌-◌, ◌∷◌, ◌↔◌, ◌<◌, ◌≤◌, [], List, ℕ, IsTrue};
ghost use Rattle.jwt_request.specs.renewal.History.{Event, passed, took, failed};
ghost use Rattle.jwt_request.specs.renewal.Rules.{IsKeys, IsUsable, IsFetch, Counts, Wants, MayBegin, MayWait, with_fetch, with_end, with_waiting};
ghost use Rattle.jwt_request.specs.renewal.Standing.{Stands};
ghost use Rattle.jwt_request.specs.declared.renewal.asker.Asker.TheVariants.{Token};
ghost use Rattle.jwt_handles.specs.Renewals.{renewal_of, asker_of, keys_of, fetch_of, times_of, truth};

use jwt_request::renewal::{Answer, Asker, Fetch, Renewal, Times, Waiters};

/// When keys by URL are fetched, and until when they are used. In C `fow_renewal`. Its numbers are the library's own; any are answered.
#[repr(C)]
#[derive(Clone, Copy)]
pub struct FowRenewal {
    pub refresh_after: u64,
    pub cool_down: u64,
    pub max_age: u64,
    pub timeout: u64,
    pub heard: u64,
    pub keys_age: u64,
    pub keys_ticket: u64,
    pub begun_age: u64,
    pub ticket: u64,
    pub is_open: u64,
    pub waiting: u64,
    pub first: u64,
    pub second: u64,
    pub third: u64,
    pub fourth: u64,
}

/// Which keys are to be used, and which fetch begins. In C `fow_renewal_answer`.
#[repr(C)]
#[derive(Clone, Copy)]
pub struct FowRenewalAnswer {
    /// 1 where there are keys to be used, those of the ticket `keys`.
    pub has_keys: u64,
    pub keys: u64,
    /// 0: no fetch; 1: that of `ticket` begins; 2: that of `ticket` is under way.
    pub fetch: u64,
    pub ticket: u64,
    /// The milliseconds that it has left.
    pub left: u64,
}

impl FowRenewal {
    /// The numbers of a renewal.
    fn of(it: Renewal) -> FowRenewal
        ensures { renewal_of result ≡ it }
    {
        FowRenewal {
            refresh_after: it.times.refresh_after,
            cool_down: it.times.cool_down,
            max_age: it.times.max_age,
            timeout: it.times.timeout,
            heard: it.heard,
            keys_age: it.keys_age,
            keys_ticket: it.keys_ticket,
            begun_age: it.begun_age,
            ticket: it.ticket,
            is_open: number(it.is_open),
            waiting: it.waiters.count,
            first: it.waiters.first,
            second: it.waiters.second,
            third: it.waiters.third,
            fourth: it.waiters.fourth,
        }
    }

    /// The renewal of these numbers.
    fn renewal(&self) -> Renewal
        ensures { result ≡ renewal_of self.now }
    {
        Renewal {
            times: self.times(),
            heard: self.heard,
            keys_age: self.keys_age,
            keys_ticket: self.keys_ticket,
            begun_age: self.begun_age,
            ticket: self.ticket,
            is_open: self.is_open != 0,
            waiters: self.waiters(),
        }
    }

    fn times(&self) -> Times
        ensures { result ≡ times_of self.now }
    {
        Times {
            refresh_after: self.refresh_after,
            cool_down: self.cool_down,
            max_age: self.max_age,
            timeout: self.timeout,
        }
    }

    fn waiters(&self) -> Waiters
        ensures { result ≡ (renewal_of self.now).waiters }
    {
        Waiters {
            count: self.waiting,
            first: self.first,
            second: self.second,
            third: self.third,
            fourth: self.fourth,
        }
    }
}

impl FowRenewalAnswer {
    /// The numbers of an answer.
    fn of(it: Answer) -> FowRenewalAnswer
        ensures keys { keys_of result ≡ it.keys }
        ensures fetch { fetch_of result ≡ it.fetch }
    {
        let (has_keys, keys) = match it.keys {
            Some(keys) => (1, keys),
            None => (0, 0),
        };
        let (fetch, ticket, left) = match it.fetch {
            Fetch::Nothing => (0, 0, 0),
            Fetch::Begin(ticket) => (1, ticket, 0),
            Fetch::UnderWay(ticket, left) => (2, ticket, left),
        };
        FowRenewalAnswer {
            has_keys,
            keys,
            fetch,
            ticket,
            left,
        }
    }
}

/// Who asks, by number: 0 for a token that comes, 1 for one that was refused by the keys of this ticket, 2 for the owner, 3 for one that
/// has waited; another number is 0.
fn asker(number: u64, keys: u64) -> Asker
    ensures { result ≡ asker_of number keys }
{
    match number {
        1 => Asker::Refused(keys),
        2 => Asker::Owner,
        3 => Asker::Waited,
        _ => Asker::Token,
    }
}

/// 1 is yes, and 0 is no.
fn number(it: bool) -> u64
    ensures { truth result ≡ it }
{
    if it { 1 } else { 0 }
}

/// No keys, and no fetch yet, with these times in milliseconds.
pub fn begin(renewal: &mut FowRenewal, times: Times, now: u64)
    ensures times { times_of renewal.new ≡ times }
    ensures heard { renewal.new.heard ≡ now }
    ensures stands { Stands (renewal_of renewal.new) [] }
{
    *renewal = FowRenewal::of(Renewal::new(times, now));
}

/// Which keys are to be used, and whether a fetch is to begin.
pub fn ask(
    renewal: &mut FowRenewal,
    now: u64,
    number: u64,
    keys: u64,
    answer: &mut FowRenewalAnswer,
)
    ensures times { times_of renewal.new ≡ times_of renewal.old }
    ensures heard { renewal.new.heard ≡ now }
    ensures keys { (h : List Event) → Stands (renewal_of renewal.old) h
        → IsKeys (times_of renewal.old) (passed (now - renewal.old.heard) ∷ h) (keys_of answer.new) }
    ensures fetch { (h : List Event) → Stands (renewal_of renewal.old) h
        → IsFetch (times_of renewal.old) (asker_of number keys) (passed (now - renewal.old.heard) ∷ h) (fetch_of answer.new) }
    ensures stands { (h : List Event) → Stands (renewal_of renewal.old) h
        → Stands (renewal_of renewal.new) (with_fetch (asker_of number keys) (fetch_of answer.new) (passed (now - renewal.old.heard) ∷ h)) }
{
    let mut it = renewal.renewal();
    let said = it.ask(now, asker(number, keys));
    *renewal = FowRenewal::of(it);
    *answer = FowRenewalAnswer::of(said);
}

/// Whether the keys of the fetch with this ticket are taken; else they are to be dropped.
pub fn took(renewal: &mut FowRenewal, now: u64, ticket: u64) -> bool
    ensures times { times_of renewal.new ≡ times_of renewal.old }
    ensures heard { renewal.new.heard ≡ now }
    ensures counts { (h : List Event) → Stands (renewal_of renewal.old) h
        → IsTrue result ↔ Counts (times_of renewal.old) ticket (passed (now - renewal.old.heard) ∷ h) }
    ensures stands { (h : List Event) → Stands (renewal_of renewal.old) h
        → Stands (renewal_of renewal.new) (with_end took result (passed (now - renewal.old.heard) ∷ h)) }
{
    let mut it = renewal.renewal();
    let counts = it.took(now, ticket);
    *renewal = FowRenewal::of(it);
    counts
}

/// Whether the fetch with this ticket was under way; it isn't any more.
pub fn failed(renewal: &mut FowRenewal, now: u64, ticket: u64) -> bool
    ensures times { times_of renewal.new ≡ times_of renewal.old }
    ensures heard { renewal.new.heard ≡ now }
    ensures counts { (h : List Event) → Stands (renewal_of renewal.old) h
        → IsTrue result ↔ Counts (times_of renewal.old) ticket (passed (now - renewal.old.heard) ∷ h) }
    ensures stands { (h : List Event) → Stands (renewal_of renewal.old) h
        → Stands (renewal_of renewal.new) (with_end failed result (passed (now - renewal.old.heard) ∷ h)) }
{
    let mut it = renewal.renewal();
    let ends = it.failed(now, ticket);
    *renewal = FowRenewal::of(it);
    ends
}

/// Whether a token may wait for the fetch with this ticket, under this name; it waits from now on, until the fetch ends.
pub fn wait(renewal: &mut FowRenewal, now: u64, ticket: u64, name: u64) -> bool
    ensures times { times_of renewal.new ≡ times_of renewal.old }
    ensures heard { renewal.new.heard ≡ now }
    ensures waits { (h : List Event) → Stands (renewal_of renewal.old) h
        → IsTrue result ↔ MayWait (times_of renewal.old) ticket name (passed (now - renewal.old.heard) ∷ h) }
    ensures stands { (h : List Event) → Stands (renewal_of renewal.old) h
        → Stands (renewal_of renewal.new) (with_waiting name result (passed (now - renewal.old.heard) ∷ h)) }
{
    let mut it = renewal.renewal();
    let waits = it.wait(now, ticket, name);
    *renewal = FowRenewal::of(it);
    waits
}

/// After how many milliseconds more a token that comes begins a fetch: 0 where it does now.
pub fn due(renewal: &FowRenewal) -> u64
    ensures due { (h : List Event) (more : ℕ) → Stands (renewal_of renewal.now) h
        → (result ≤ more) ↔ (Wants (times_of renewal.now) Token (passed more ∷ h) × MayBegin (times_of renewal.now) Token (passed more ∷ h)) }
{
    renewal.renewal().due()
}

/// For how many milliseconds more a token that comes is answered by the keys that there are, and begins no fetch: so long nobody need ask for one.
pub fn quiet_for(renewal: &FowRenewal) -> u64
    ensures quiet { (h : List Event) (more : ℕ) → Stands (renewal_of renewal.now) h
        → (more < result) ↔ (IsUsable (times_of renewal.now) (passed more ∷ h)
        × (¬ (Wants (times_of renewal.now) Token (passed more ∷ h) × MayBegin (times_of renewal.now) Token (passed more ∷ h)))) }
{
    renewal.renewal().quiet_for()
}
