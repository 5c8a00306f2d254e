ghost use Rattle.std.specs.Prelude.{◌≡◌, ◌≢◌, ◌↔◌, ◌⊎◌, ◌-◌, ◌<◌, ◌∷◌, ◌++◌, [], List, ℕ, Some, None, IsTrue, IsFalse, IfSome, IfNone, IfOk, true, OnOk, OnErr, OnSome};
ghost use Rattle.std.specs.Vec.{vec_len};
ghost use Rattle.jwt_request.specs.renewal.History.{Event, passed};
ghost use Rattle.jwt_request.specs.renewal.Rules.{IsUnderWay, IsUsable};
ghost use Rattle.jwt_request.specs.renewal.Standing as Renewed;
ghost use Rattle.jwt_sources.specs.declared.source.Source.{Source};
ghost use Rattle.jwt_sources.specs.Asking.{number_of};
ghost use Rattle.jwt_sources.specs.Changes.{IsNew, IsLetGo, IsLike};
ghost use Rattle.jwt_sources.specs.Follows.{asked_by_step, url_of_step};
ghost use Rattle.jwt_sources.specs.Places.{Named, named};
ghost use Rattle.jwt_sources.specs.Runs.{IsCall, tell, let_go, ask, wait, next, came};
ghost use Rattle.jwt_sources.specs.Standing.{ChangesAt, IsAt, NothingIsDue, Stands};
ghost use Rattle.jwt_sources.specs.Steps.{ticket_of, is_due};
ghost use Rattle.jwt_sources.specs.Tickets.{Entry};

use crate::kid::number_of_kid;
use crate::place::Place;
use crate::source::{Came, Source};
use crate::step::Keys;
use jwt_request::renewal::{Answer, Asker, Times};
use jwt_request::urls::Asked;
use std::alloc::{AllocError, Global};
use std::mem;

/// The keys of several issuers.
#[derive(Drop)]
pub struct Sources<K> {
    pub sources: Vec<Source<K>>,
    /// The next ticket.
    pub tickets: u64,
}

/// Something to be fetched.
#[derive(Clone, Copy, Debug, PartialEq, Eq)]
pub struct Job {
    /// The place of its source in the list.
    pub source: usize,
    pub ticket: u64,
    /// The milliseconds that it may take.
    pub within: u64,
}

/// What may be handed out.
#[derive(Clone, Copy)]
struct Due {
    source: usize,
    within: u64,
}

/// What became of an answer.
#[derive(Clone, Copy, Debug, PartialEq, Eq)]
pub enum Outcome {
    /// It was one of this source.
    Ended(usize, Came),
    /// No source waits for it.
    Late,
}

impl<K: Drop> Sources<K> {
    /// No source.
    pub fn new(alloc: Global) -> Sources<K>
        ensures { Stands result [] }
    {
        Sources {
            sources: Vec::new(alloc),
            tickets: 1,
        }
    }

    /// No source, of a list that takes the place of this one: its tickets are new in both.
    pub fn to_follow(&self, alloc: Global) -> Sources<K>
        ensures { (log : List (Entry K)) → Stands self.now log → Stands result log }
    {
        Sources {
            sources: Vec::new(alloc),
            tickets: self.tickets,
        }
    }

    /// Adds a source without keys, as the last one.
    pub fn add(&mut self, place: Place, times: Times, now: u64) -> Result<(), AllocError>
        ensures stands { (log : List (Entry K)) → Stands self.old log → Stands self.new log }
        ensures added { OnOk result ((source : Source K) × IsNew source place times × (self.new.sources.items ≡ self.old.sources.items ++ source ∷ [])) }
        ensures err { OnErr result (self.new.sources.items ≡ self.old.sources.items) }
    {
        self.sources.push(Source::new(place, times, now))?;
        Ok(())
    }

    /// Has a source take over the keys, their age and the cool-down of the first source of an old list that stands at the same place and has the same times;
    /// a fetch of either that is under way is over. `false`: there is none, and nothing changes.
    pub fn take_over(&mut self, at: usize, old: &mut Sources<K>, now: u64) -> bool
        requires { at < vec_len self.old.sources }
        ensures stands { (log : List (Entry K)) → Stands self.old log → Stands old.old log → Stands self.new log × Stands old.new log }
        ensures taken { IsTrue result → ChangesAt at self.old self.new (λ one other.
            (from : ℕ) × (source : Source K) × IsAt old.old from source × IsLike source one × IsLetGo source now other) }
        ensures none { IsFalse result → (self.new ≡ self.old) × (old.new ≡ old.old)
            × ((from : ℕ) (source one : Source K) → IsAt old.old from source → IsAt self.old at one → ¬ IsLike source one) }
    {
        let Some(from) = old.place_like(&self.sources[at]) else {
            return false;
        };
        let source = &mut self.sources[at];
        let was = &mut old.sources[from];
        mem::swap(source, was);
        source.let_go(now);
        was.let_go(now);
        true
    }

    /// Time passes, for all sources. Where the clock went back, none does.
    pub fn tell(&mut self, now: u64)
        ensures { IsCall self.old (tell now) self.new }
    {
        for at in 0..self.sources.len() {
            let source = &mut self.sources[at];
            source.hear(now);
        }
    }

    /// Ends all fetches that are under way, without keys: as in a process that was forked, in which nobody makes them. Keys stay, and whoever asks as the owner
    /// has others begin.
    pub fn let_go(&mut self, now: u64)
        ensures { IsCall self.old (let_go now) self.new }
    {
        for at in 0..self.sources.len() {
            let source = &mut self.sources[at];
            source.let_go(now);
        }
    }

    /// Asks for the keys of a source, and has a fetch begin where one may. The number of a fetch, in the answer and in `wait`, is not a ticket: a fetch has a
    /// ticket for each of its requests.
    pub fn ask(&mut self, at: usize, asker: Asker, now: u64) -> Answer
        requires { at < vec_len self.old.sources }
        ensures { IsCall self.old (ask at asker now result) self.new }
    {
        let source = &mut self.sources[at];
        source.ask(asker, now)
    }

    /// The keys of a source, where they are to be used at the moment that was told last.
    pub fn keys(&self, at: usize) -> Option<&Keys<K>>
        requires { at < vec_len self.now.sources }
        ensures own { IfSome result (λ it. (source : Source K) × IsAt self.now at source × (source.keys ≡ Some it.now)) }
        ensures young { (source : Source K) (h : List Event) → IsAt self.now at source → Renewed.Stands source.renewal h
            → OnSome result (IsUsable source.renewal.times h) }
        ensures none { (source : Source K) (h : List Event) → IsAt self.now at source → Renewed.Stands source.renewal h
            → IsUsable source.renewal.times h → IfNone result (source.keys ≡ None) }
    {
        self.sources[at].keys()
    }

    /// Whether a token of this `kid` may wait for the fetch of this number of a source; of one without a `kid`, it is empty.
    pub fn wait(&mut self, at: usize, fetch: u64, kid: &[u8], now: u64) -> bool
        requires { at < vec_len self.old.sources }
        ensures { IsCall self.old (wait at fetch (number_of kid.now) now result) self.new }
    {
        let name = number_of_kid(kid);
        let source = &mut self.sources[at];
        source.wait(fetch, name, now)
    }

    /// The URL, or the name of the file, of what a source fetches now; that at which it stands where it fetches nothing.
    pub fn url(&self, at: usize) -> &[u8]
        requires { at < vec_len self.now.sources }
        ensures { (source : Source K) → IsAt self.now at source → result.now ≡ url_of_step source.place source.step }
    {
        self.sources[at].url()
    }

    /// What a source fetches now; that which it fetches first where it fetches nothing. Keys are to be made of the content of a key set alone.
    pub fn asked(&self, at: usize) -> Asked
        requires { at < vec_len self.now.sources }
        ensures { (source : Source K) → IsAt self.now at source → result ≡ asked_by_step source.place source.step }
    {
        self.sources[at].asked()
    }

    /// The next job, which is handed out once. `None`: there is none now.
    pub fn next(&mut self, now: u64) -> Option<Job>
        ensures none { IfNone result ((self.new ≡ self.old) × (NothingIsDue self.old now ⊎ (self.old.tickets ≡ u64.MAX))) }
        ensures call { IfSome result (λ job. (place : Named) × IsCall self.old (next place job) self.new) }
        ensures within { IfSome result (λ job. (0 < job.within) × ((source : Source K) (h : List Event) (more : ℕ) → IsAt self.old job.source source
            → Renewed.Stands source.renewal h → (more < job.within)
            ↔ IsUnderWay source.renewal.times (passed more ∷ passed (now - source.renewal.heard) ∷ h))) }
    {
        let Some(due) = self.first_due(now) else {
            return None;
        };
        let ticket = self.tickets;
        if ticket == u64::MAX {
            return None;
        }
        self.tickets = ticket + 1;
        let source = &mut self.sources[due.source];
        source.hand_out(ticket);
        Some(Job {
            source: due.source,
            ticket,
            within: due.within,
        })
    }

    /// Takes what came by this ticket: its status of HTTP (200 of a file that was read, 0 where nothing came), its first `Location`, its content, and where a
    /// key set was asked for, the keys that were made of the content, or none. Where an allocation is refused, nothing changes.
    pub fn came(
        &mut self,
        alloc: Global,
        ticket: u64,
        status: u32,
        location: &[u8],
        content: &[u8],
        keys: Option<K>,
        now: u64,
    ) -> Result<Outcome, AllocError>
        ensures call { IfOk result (λ it. (place : Named) × IsCall self.old (came place ticket status location.now content.now keys now it) self.new) }
        ensures err { OnErr result (self.new ≡ self.old) }
    {
        let Some(at) = self.place_of(ticket) else {
            return Ok(Outcome::Late);
        };
        let follows = self.sources[at].follows(alloc, status, location, content)?;
        let source = &mut self.sources[at];
        let end = source.end(follows, ticket, keys, now);
        Ok(Outcome::Ended(at, end))
    }

    /// The first source for which something is to be fetched.
    fn first_due(&self, now: u64) -> Option<Due>
        ensures inside { IfSome result (λ it. it.source < vec_len self.now.sources) }
        ensures due { IfSome result (λ it. (0 < it.within) × ((source : Source K) → IsAt self.now it.source source → is_due source.step ≡ true)) }
        ensures within { IfSome result (λ it. (source : Source K) (h : List Event) (more : ℕ) → IsAt self.now it.source source
            → Renewed.Stands source.renewal h → (more < it.within)
            ↔ IsUnderWay source.renewal.times (passed more ∷ passed (now - source.renewal.heard) ∷ h)) }
        ensures none { IfNone result (NothingIsDue self.now now) }
    {
        for at in 0..self.sources.len() {
            let within = self.sources[at].due_for(now);
            if within > 0 {
                return Some(Due { source: at, within });
            }
        }
        None
    }

    /// The place of the source that waits for an answer by this ticket.
    fn place_of(&self, ticket: u64) -> Option<usize>
        ensures within { IfSome result (λ at. at < vec_len self.now.sources) }
        ensures waits { IfSome result (λ at. (source : Source K) → IsAt self.now at source → ticket_of source.step ≡ Some ticket) }
        ensures none { IfNone result ((at : ℕ) (source : Source K) → IsAt self.now at source → ticket_of source.step ≢ Some ticket) }
    {
        for at in 0..self.sources.len() {
            if self.sources[at].waits_for(ticket) {
                return Some(at);
            }
        }
        None
    }

    /// The place of the first source like this one.
    fn place_like(&self, other: &Source<K>) -> Option<usize>
        ensures within { IfSome result (λ at. at < vec_len self.now.sources) }
        ensures like { IfSome result (λ at. (source : Source K) → IsAt self.now at source → IsLike source other.now) }
        ensures none { IfNone result ((at : ℕ) (source : Source K) → IsAt self.now at source → ¬ IsLike source other.now) }
    {
        for at in 0..self.sources.len() {
            if self.sources[at].is_like(other) {
                return Some(at);
            }
        }
        None
    }
}
