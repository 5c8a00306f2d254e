ghost use Rattle.std.specs.Prelude.{◌≡◌, ◌↔◌, ◌-◌, ◌<◌, ◌≤◌, ◌∷◌, [], List, ℕ, Option, Some, None, true, false, is_some, IsTrue, IfSome, IfOk, IfNone, OnSome};
ghost use Rattle.jwt_request.specs.renewal.History.{Event, passed};
ghost use Rattle.jwt_request.specs.renewal.Rules.{IsUnderWay, IsUsable};
ghost use Rattle.jwt_request.specs.renewal.Standing.{Stands};
ghost use Rattle.jwt_sources.specs.Changes.{IsNew, IsTold, IsAsked, IsWaited, IsHandedOut, IsLetGo, IsLike};
ghost use Rattle.jwt_sources.specs.Steps.{ticket_of, is_due, AreKeys, IsCameBy, step_after, with_answer};
ghost use Rattle.jwt_sources.specs.Follows.{IsAfterStep, asked_by_step, told_of, url_of_step};
ghost use Rattle.jwt_sources.specs.declared.step.Follows.TheVariants.{Failed as FetchFailed};

use crate::follow;
use crate::place::Place;
use crate::step::{Failure, Follows, Keys, Step, Target};
use jwt_request::renewal::{Answer, Asker, Fetch, Renewal, Times};
use jwt_request::urls::Asked;
use std::alloc::{AllocError, Global};
use std::mem;

/// What became of a fetch.
#[derive(Clone, Copy, Debug, PartialEq, Eq)]
pub enum Came {
    /// The keys are taken.
    Taken,
    /// Something else is to be fetched.
    Next,
    /// The fetch failed, and the keys stay.
    Failed(Failure),
    /// It came too late, and is dropped.
    Late,
}

/// The keys of one issuer.
#[derive(Drop)]
pub struct Source<K> {
    pub place: Place,
    pub renewal: Renewal,
    pub step: Step,
    pub keys: Option<Keys<K>>,
}

impl<K: Drop> Source<K> {
    /// A source without keys.
    pub fn new(place: Place, times: Times, now: u64) -> Source<K>
        ensures { IsNew result place times }
    {
        Source {
            place,
            renewal: Renewal::new(times, now),
            step: Step::Nothing,
            keys: None,
        }
    }

    /// Answers which keys are to be used, and whether a fetch begins.
    pub fn ask(&mut self, asker: Asker, now: u64) -> Answer
        ensures { IsAsked self.old asker now result self.new }
    {
        let answer = self.renewal.ask(now, asker);
        if let Fetch::Begin(_) = answer.fetch {
            self.step = Step::Due(Target {
                asked: self.place.first(),
                led: None,
                followed: 0,
            });
        }
        answer
    }

    /// The keys, where they are to be used at the moment that was told last.
    #[tactic(auto, using(crate::proofs::Ways::on_some))]
    pub fn keys(&self) -> Option<&Keys<K>>
        ensures own { IfSome result (λ it. self.now.keys ≡ Some it.now) }
        ensures young { (h : List Event) → Stands self.now.renewal h → OnSome result (IsUsable self.now.renewal.times h) }
        ensures none { (h : List Event) → Stands self.now.renewal h → IsUsable self.now.renewal.times h
            → IfNone result (self.now.keys ≡ None) }
    {
        if self.renewal.is_usable() {
            self.keys.as_ref()
        } else {
            None
        }
    }

    /// Time passes. Where the clock went back, none does.
    pub fn hear(&mut self, now: u64)
        ensures { IsTold self.old now self.new }
    {
        self.renewal.hear(now);
    }

    /// Whether a token may wait for the fetch of this number, under this name.
    pub fn wait(&mut self, fetch: u64, name: u64, now: u64) -> bool
        ensures { IsWaited self.old fetch name now result self.new }
    {
        self.renewal.wait(now, fetch, name)
    }

    /// Whether it waits for an answer by this ticket.
    pub fn waits_for(&self, ticket: u64) -> bool
        ensures { IsTrue result ↔ (ticket_of self.now.step ≡ Some ticket) }
    {
        match &self.step {
            Step::Out(own, _) => *own == ticket,
            _ => false,
        }
    }

    /// Whether the other stands at the same place, and has the same times.
    pub fn is_like(&self, other: &Source<K>) -> bool
        ensures { IsTrue result ↔ IsLike self.now other.now }
    {
        self.place.is(&other.place) && self.renewal.times == other.renewal.times
    }

    /// For how many milliseconds what is due may be fetched; 0 where nothing is.
    pub fn due_for(&self, now: u64) -> u64
        ensures due { 0 < result → is_due self.now.step ≡ true }
        ensures none { (h : List Event) → Stands self.now.renewal h → result ≡ 0 → is_due self.now.step ≡ true
            → ¬ IsUnderWay self.now.renewal.times (passed 0 ∷ passed (now - self.now.renewal.heard) ∷ h) }
        ensures within { (h : List Event) (more : ℕ) → Stands self.now.renewal h → 0 < result
            → (more < result) ↔ IsUnderWay self.now.renewal.times (passed more ∷ passed (now - self.now.renewal.heard) ∷ h) }
    {
        match self.step {
            Step::Due(_) => self.left(now),
            _ => 0,
        }
    }

    /// For how many milliseconds a fetch is under way.
    fn left(&self, now: u64) -> u64
        ensures { (h : List Event) (more : ℕ) → Stands self.now.renewal h
            → (result ≤ more) ↔ (¬ IsUnderWay self.now.renewal.times (passed more ∷ passed (now - self.now.renewal.heard) ∷ h)) }
    {
        let mut renewal = self.renewal;
        renewal.hear(now);
        renewal.over_in()
    }

    /// The URL, or the name of the file, of what it fetches now; that at which it stands where it fetches nothing.
    pub fn url(&self) -> &[u8]
        ensures { result.now ≡ url_of_step self.now.place self.now.step }
    {
        match &self.step {
            Step::Due(target) | Step::Out(_, target) => follow::url(&self.place, target),
            Step::Nothing => self.place.url(self.place.first()),
        }
    }

    /// What it fetches now; that which it fetches first where it fetches nothing.
    pub fn asked(&self) -> Asked
        ensures { result ≡ asked_by_step self.now.place self.now.step }
    {
        match &self.step {
            Step::Due(target) | Step::Out(_, target) => target.asked,
            Step::Nothing => self.place.first(),
        }
    }

    /// What follows on an answer with this status, this `Location` and this content.
    pub fn follows(
        &self,
        alloc: Global,
        status: u32,
        location: &[u8],
        content: &[u8],
    ) -> Result<Follows, AllocError>
        ensures { IfOk result (λ it. IsAfterStep self.now.place self.now.step status location.now content.now (told_of it)) }
    {
        match &self.step {
            Step::Out(_, target) => follow::after_all(
                alloc,
                &self.place,
                target,
                status,
                location,
                content,
            ),
            _ => Ok(Follows::Failed(Failure::Status)),
        }
    }

    /// Hands out what is due, under this ticket.
    pub fn hand_out(&mut self, ticket: u64)
        requires { is_due self.old.step ≡ true }
        ensures { IsHandedOut self.old ticket self.new }
    {
        self.step = match mem::replace(&mut self.step, Step::Nothing) {
            Step::Due(target) => Step::Out(ticket, target),
            other => other,
        };
    }

    /// Ends the fetch that is under way, without keys.
    pub fn let_go(&mut self, now: u64)
        ensures { IsLetGo self.old now self.new }
    {
        self.step = Step::Nothing;
        let fetch = self.renewal.ticket;
        self.renewal.failed(now, fetch);
    }

    /// Takes what came by this ticket, with these keys or none.
    pub fn end(&mut self, follows: Follows, ticket: u64, brought: Option<K>, now: u64) -> Came
        ensures times { self.new.renewal.times ≡ self.old.renewal.times }
        ensures heard { self.new.renewal.heard ≡ now }
        ensures out { ticket_of self.new.step ≡ None }
        ensures step { self.new.step ≡ step_after result follows }
        ensures came { (h : List Event) → Stands self.old.renewal h
            → IsCameBy follows (is_some brought) result (IsUnderWay self.old.renewal.times (passed (now - self.old.renewal.heard) ∷ h)) }
        ensures place { self.new.place ≡ self.old.place }
        ensures keys { AreKeys result self.old.keys ticket brought self.new.keys }
        ensures stands { (h : List Event) → Stands self.old.renewal h
            → Stands self.new.renewal (with_answer result (passed (now - self.old.renewal.heard) ∷ h)) }
    {
        self.step = Step::Nothing;
        match follows {
            Follows::Keys => match brought {
                Some(prepared) => {
                    let fetch = self.renewal.ticket;
                    if self.renewal.took(now, fetch) {
                        self.keys = Some(Keys { ticket, prepared });
                        Came::Taken
                    } else {
                        Came::Late
                    }
                }
                None => self.fail(Failure::NoKeys, now),
            },
            Follows::Step(target) => {
                self.renewal.hear(now);
                if !self.renewal.is_under_way() {
                    return Came::Late;
                }
                self.step = Step::Due(target);
                Came::Next
            }
            Follows::Failed(failure) => self.fail(failure, now),
        }
    }

    /// The fetch failed, where it is under way.
    fn fail(&mut self, failure: Failure, now: u64) -> Came
        ensures times { self.new.renewal.times ≡ self.old.renewal.times }
        ensures heard { self.new.renewal.heard ≡ now }
        ensures step { self.new.step ≡ self.old.step }
        ensures came { (h : List Event) → Stands self.old.renewal h
            → IsCameBy (FetchFailed failure) false result (IsUnderWay self.old.renewal.times (passed (now - self.old.renewal.heard) ∷ h)) }
        ensures place { self.new.place ≡ self.old.place }
        ensures keys { (ticket : ℕ) (brought : Option K) → AreKeys result self.old.keys ticket brought self.new.keys }
        ensures stands { (h : List Event) → Stands self.old.renewal h
            → Stands self.new.renewal (with_answer result (passed (now - self.old.renewal.heard) ∷ h)) }
    {
        let fetch = self.renewal.ticket;
        if self.renewal.failed(now, fetch) {
            Came::Failed(failure)
        } else {
            Came::Late
        }
    }
}
