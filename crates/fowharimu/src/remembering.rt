//! A policy and keys with a memory of the tokens that they accept.

ghost use Rattle.std.specs.Prelude.{◌≡◌, [], IfOk, map};
ghost use Rattle.std.specs.NonZero.{non_zero_usize_get};
ghost use Rattle.jwt_keys.specs.KeySets.{key_set};
ghost use Rattle.jwt_verify.specs.Reports.{IsCharged, IsJudged, terms};
ghost use Rattle.jwt_memory.specs.Entries.{HasRoomOf};
ghost use Rattle.jwt_memory.specs.Kept.{AreKept};
ghost use Rattle.jwt_memory.specs.Outcomes.{report_in, paid_in, is_remembered, IsFound, KeepsOnly};
ghost use Rattle.fowharimu.specs.Remembering.{built_in, terms_of_documents};

use jwt_built_in::{BuiltIn, PREPARED_KEYS};
use jwt_keys::KeySet;
use jwt_mac::{Budget, Verifier};
use jwt_memory::{Memory, Outcome, untried};
use jwt_policy::Policy;
use jwt_verify::Terms;
use std::alloc::{AllocError, Global};
use std::marker::Model;
use std::num::NonZeroUsize;

/// A policy and the keys of an issuer with a memory of the tokens that they accept, for a service that sees the same token many times.
///
/// Signatures are verified by HMAC and [`BuiltIn`], which has the first 16 keys of the set that can be prepared (see
/// [`BuiltIn::prepared`] for what that costs, and [`Remembering::prepare`] for another number). A token that comes again is found by its octets, all of which are
/// compared, and only its claims are looked at anew: the verdict and the report are those of
/// [`Validator::judge`](crate::Validator::judge). The policy and the keys can't change while the memory lasts: new keys begin a new one.
/// The policy is taken as it is: for a ceiling of 64 tries where it names none, as a [`Validator`](crate::Validator) has it, hand in
/// [`with_ceiling`](jwt_policy::Policy::with_ceiling).
///
/// Accepted tokens, their claims and their payloads lie in the memory until they go, and aren't wiped. A kept token of 179 octets takes some 950, one
/// of 1,300 octets with 26 claims some 4,200; none takes more than some thirteen times its octets.
///
/// ```rust
/// let policy = Policy::read(alloc, document)?.with_ceiling();
/// let tokens = NonZeroUsize::new(1000).ok_or(NoRoom)?;
/// let mut remembering = Remembering::new(alloc, &policy, &keys, tokens, 4096)?;
/// let outcome = remembering.judge(alloc, octets, now, &mut policy.budget());
/// ```
///
/// Contracts see the policy, the keys and the memory.
#[derive(Drop)]
pub struct Remembering<'p> {
    policy: &'p Policy,
    keys: &'p KeySet,
    memory: Memory,
    verifier: BuiltIn,
}

impl<'p> Model for Remembering<'p> {
    ghost use Rattle.std.specs.Prelude.{map};
    ghost use Rattle.std.specs.Coded.{codes};
    ghost use Rattle.jwt_memory.specs.contracts.memory.Memory as kept;
    ghost use Rattle.fowharimu.specs.Remembering.{WithMemory, built_in};

    ghost Value = { WithMemory };

    ghost coded = { Prim.hlevel (codes, kept.the_row.coded) };

    ghost use Rattle.jwt_keys.specs.Views.{key_parts};
    ghost use Rattle.jwt_memory.specs.Kept.{AreKept};

    ghost view = { λ r. record { policy = r.policy.now; keys = map key_parts r.keys.now.keys.items; memory = r.memory } };

    ghost invariant = { λ r. AreKept r.policy.now r.keys.now built_in r.memory };
}

/// The terms of a verdict by verifiers that mean what the built-in one does.
fn built_in_terms<'k, 'p, 'v>(
    policy: &'p Policy,
    keys: &'k KeySet,
    now: i64,
    verifiers: &'v [Box<dyn Verifier>],
) -> Terms<'k, 'p, 'v>
    requires one { map meaning verifiers.now ≡ built_in }
    ensures one { map meaning result.verifiers.now ≡ built_in }
    ensures policy { result.policy.now ≡ policy.now }
    ensures keys { result.keys.now ≡ keys.now }
    ensures moment { result.moment ≡ now }
{
    Terms {
        keys,
        policy,
        moment: now,
        verifiers,
    }
}

/// The outcome under such terms.
fn judge_under<'p, B: Budget>(
    memory: &mut Memory,
    alloc: Global,
    octets: &[u8],
    under: &Terms<'_, 'p, '_>,
    budget: &mut B,
) -> Outcome<'p>
    requires one { map (λ b. meaning (b.vtable, b.value)) under.now.verifiers.now ≡ built_in }
    requires no_octets { B.octets budget.old ≡ 0 }
    requires no_calls { B.calls budget.old ≡ 0 }
    requires kept { AreKept under.now.policy.now under.now.keys.now built_in memory.old }
    ensures judged { IsJudged
        (terms under.now.policy.now under.now.keys.now under.now.moment built_in)
        octets.now (B.ceiling budget.old) (report_in result) }
    ensures found { IsFound (is_remembered result) memory.old octets.now (B.ceiling budget.old) }
    ensures charged { IsCharged
        (terms under.now.policy.now under.now.keys.now under.now.moment built_in)
        octets.now (paid_in result) (B.octets budget.new) (B.calls budget.new) }
    ensures ceiling { B.ceiling budget.new ≡ B.ceiling budget.old }
    ensures kept { AreKept under.now.policy.now under.now.keys.now built_in memory.new }
    ensures room { HasRoomOf memory.new memory.old }
    ensures held { KeepsOnly octets.now (B.ceiling budget.old) (report_in result) memory.old memory.new }
{
    jwt_memory::judge(memory, alloc, octets, under, budget)
}

impl<'p> Remembering<'p> {
    /// With an empty memory, for at most so many tokens of at most so many octets each.
    ///
    /// # Errors
    /// Where an allocation was refused, one for preparing keys aside.
    pub fn new(
        alloc: Global,
        policy: &'p Policy,
        keys: &'p KeySet,
        tokens: NonZeroUsize,
        longest: usize,
    ) -> Result<Remembering<'p>, AllocError>
        ensures policy { IfOk result (λ r. r.policy ≡ policy.now) }
        ensures keys { IfOk result (λ r. r.keys ≡ (key_set keys.now).keys) }
        ensures nothing { IfOk result (λ r. r.memory.table.entries ≡ []) }
        ensures room { IfOk result (λ r. (r.memory.table.cap ≡ non_zero_usize_get tokens) × (r.memory.longest ≡ longest)) }
    {
        let memory = Memory::new(alloc, tokens, longest)?;
        Ok(Remembering {
            policy,
            keys,
            memory,
            verifier: BuiltIn::prepared(alloc, keys, PREPARED_KEYS),
        })
    }

    /// Prepares the first keys of the set that can be prepared, at most so many, in place of those that are. No verdict changes.
    pub fn prepare(&mut self, alloc: Global, most: usize)
        ensures { self.new ≡ self.old }
    {
        self.verifier = BuiltIn::prepared(alloc, self.keys, most);
    }

    /// The verdict on octets in hand, as [`Validator::judge`](crate::Validator::judge) gives it by this policy, these keys and the
    /// built-in verifier, with what was paid in this call: nothing, where the token was remembered.
    ///
    /// `now` is in seconds since 1970-01-01T00:00:00Z. The condition: the budget is new. Its ceiling alone is looked at, and
    /// [`Policy::budget`] makes one with the policy's `work`.
    ///
    /// # Refused
    /// As [`judge`](crate::judge) refuses.
    #[tactic(auto, unfolding(jwt_verify::specs::Table::work))]
    pub fn judge<B: Budget>(
        &mut self,
        alloc: Global,
        octets: &[u8],
        now: i64,
        budget: &mut B,
    ) -> Outcome<'p>
        requires no_octets { B.octets budget.old ≡ 0 }
        requires no_calls { B.calls budget.old ≡ 0 }

        // The report is the one on the octets: the verdict is theirs, unless memory was refused.
        ensures judged { IsJudged (terms_of_documents self.old now)
            octets.now (B.ceiling budget.old) (report_in result) }

        // It is remembered only where the memory held these octets, accepted under this ceiling.
        ensures found { IsFound (is_remembered result) self.old.memory octets.now (B.ceiling budget.old) }

        // The budget counts just what was paid in this call. No pair is tried twice, and each is eligible; the octets are within the bound,
        // the calls within the policy's ceiling.
        ensures charged { IsCharged (terms_of_documents self.old now)
            octets.now (paid_in result) (B.octets budget.new) (B.calls budget.new) }
        ensures ceiling { B.ceiling budget.new ≡ B.ceiling budget.old }

        // The policy and the keys stay, and the room of the memory; it keeps nothing new but this token, where it is accepted now.
        ensures same { (self.new.policy ≡ self.old.policy) × (self.new.keys ≡ self.old.keys) }
        ensures room { HasRoomOf self.new.memory self.old.memory }
        ensures held { KeepsOnly octets.now (B.ceiling budget.old) (report_in result) self.old.memory self.new.memory }
    {
        let Ok(verifier) = Box::new(alloc, self.verifier.share()) else {
            return Outcome::Judged(untried(alloc, octets, self.policy));
        };
        let verifiers: [Box<dyn Verifier>; 1] = [verifier];
        let terms = built_in_terms(self.policy, self.keys, now, &verifiers);
        judge_under(&mut self.memory, alloc, octets, &terms, budget)
    }
}
