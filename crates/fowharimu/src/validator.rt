//! A policy, keys and verifiers, kept for many tokens.

ghost use Rattle.std.specs.Prelude.{◌≡◌, ◌≢◌, ◌≤◌, ◌+◌, ℕ, List, Some, true, false, map, length, drop, IfSome};
ghost use Rattle.jwt_policy.specs.Ceilings.{with_ceiling};
ghost use Rattle.jwt_text.specs.Intake.{TakesAtMost};
ghost use Rattle.jwt_verify.specs.Reports.{IsReport, IsJudged, IsCounted, IsCharged, Failed, terms};
ghost use Rattle.jwt_verify.specs.declared.report.InputFault.TheVariants.{Read};
ghost use Rattle.jwt_verify.specs.declared.report.Fault.TheVariants.{OutOfMemory, Text};
ghost use Rattle.jwt_verify.specs.declared.report.Verdict.TheVariants.{Refused};

use jwt_keys::KeySet;
use jwt_mac::{Budget, Verifier};
use jwt_policy::Policy;
use jwt_text::Source;
use jwt_verify::{Report, judge, validate};
use std::alloc::Global;

/// What a service judges tokens by: made once, and asked about each token that comes.
///
/// ```rust
/// let mut verifiers: Vec<Box<dyn Verifier>> = Vec::new(alloc);
/// verifiers.push(Box::new(alloc, BuiltIn::prepared(alloc, &keys, PREPARED_KEYS))?)?;
/// let validator = Validator::new(policy, keys, verifiers);
/// let report = validator.validate(alloc, &mut source, now, &mut validator.policy.budget());
/// ```
///
/// A function that makes a verifier mustn't hand it out: the one that fills `verifiers` lends the validator to others. A clause of
/// a caller has their meanings as `map (λ v. meaning (v.vtable, v.value)) validator.now.verifiers.items`.
#[derive(Drop)]
pub struct Validator {
    /// What it asks of tokens. A policy that names no `max_calls` and allows an algorithm with public keys has a ceiling of 64 tries
    /// ([`Policy::with_ceiling`]).
    pub policy: Policy,
    /// The keys of their issuer.
    pub keys: KeySet,
    /// Verifiers of signatures by public keys; the first that names an algorithm decides. None is needed for HMAC.
    pub verifiers: Vec<Box<dyn Verifier>>,
    ghost ceiling: { with_ceiling policy ≡ policy },
}

impl Validator {
    /// A validator of these. The policy has a ceiling on tries from now on, also where it names none: see [`Policy::with_ceiling`].
    pub fn new(policy: Policy, keys: KeySet, verifiers: Vec<Box<dyn Verifier>>) -> Validator
        ensures policy { result.policy ≡ with_ceiling policy }
        ensures keys { result.keys ≡ keys }
        ensures verifiers { result.verifiers ≡ verifiers }
    {
        Validator {
            policy: policy.with_ceiling(),
            keys,
            verifiers,
        }
    }

    /// The verdict on octets in hand, with what became of each signature and each try that was paid: as [`judge`] says it of this
    /// policy, these keys and these verifiers.
    ///
    /// `now` is in seconds since 1970-01-01T00:00:00Z. The condition: the budget is new. Its ceiling alone is looked at, and
    /// [`Policy::budget`] makes one with the policy's `work`.
    ///
    /// # Refused
    /// As [`judge`] refuses.
    pub fn judge<'v, B: Budget>(
        &'v self,
        alloc: Global,
        octets: &[u8],
        now: i64,
        budget: &mut B,
    ) -> Report<'v>
        requires no_octets { B.octets budget.old ≡ 0 }
        requires no_calls { B.calls budget.old ≡ 0 }

        // The report is the one on the octets: the verdict is theirs, unless memory was refused.
        ensures judged { IsJudged
            (terms self.now.policy self.now.keys now (map meaning self.now.verifiers.items))
            octets.now (B.ceiling budget.old) result }

        // The budget counts just its tries. No pair is tried twice, and each is eligible; the octets are within the bound, the calls within the
        // policy's ceiling.
        ensures charged { IsCharged
            (terms self.now.policy self.now.keys now (map meaning self.now.verifiers.items))
            octets.now result.tries.items (B.octets budget.new) (B.calls budget.new) }
        ensures ceiling { B.ceiling budget.new ≡ B.ceiling budget.old }
    {
        let Validator {
            policy,
            keys,
            verifiers,
            ..
        } = self;
        let verifiers = verifiers.as_slice();
        judge(alloc, octets, keys, policy, now, verifiers, budget)
    }

    /// The verdict on what a source gives, as [`validate`] says it of this policy, these keys and these verifiers. At most one
    /// octet more than the policy's `limit` is taken, and nothing after that one.
    ///
    /// `now` is in seconds since 1970-01-01T00:00:00Z. The condition: the budget is new. Its ceiling alone is looked at, and
    /// [`Policy::budget`] makes one with the policy's `work`.
    ///
    /// # Refused
    /// As [`validate`] refuses.
    pub fn validate<'v, R: Source, B: Budget>(
        &'v self,
        alloc: Global,
        source: &mut R,
        now: i64,
        budget: &mut B,
    ) -> Report<'v>
        requires no_octets { B.octets budget.old ≡ 0 }
        requires no_calls { B.calls budget.old ≡ 0 }

        // Of a source whose octets are known: unless a read failed, the report is the one on them; what the budget counts; and what was
        // taken.
        ensures report { IfSome (R.remaining source.old) (λ x. result.verdict ≢ Refused (Text Read)
            → IsReport
            (terms self.now.policy self.now.keys now (map meaning self.now.verifiers.items))
            x (B.ceiling budget.old) result) }
        ensures charged { IfSome (R.remaining source.old) (λ x.
            IsCharged
            (terms self.now.policy self.now.keys now (map meaning self.now.verifiers.items))
            x result.tries.items (B.octets budget.new) (B.calls budget.new)) }
        ensures taken { IfSome (R.remaining source.old) (λ x. result.verdict ≢ Refused (Text Read)
            → result.verdict ≢ Refused OutOfMemory
            → R.remaining source.new ≡ Some (drop (self.now.policy.run.limit + 1) x)) }
        ensures most { IfSome (R.remaining source.old) (λ x.
            TakesAtMost (self.now.policy.run.limit + 1) x (R.remaining source.new)) }
        ensures few { IfSome (R.remaining source.old) (λ x. result.verdict ≡ Refused (Text Read)
            → TakesAtMost self.now.policy.run.limit x (R.remaining source.new)) }

        // Of every source, also of one whose octets aren't known: unless a read failed, some octets have this report; and the budget
        // counts just its tries.
        ensures some { result.verdict ≢ Refused (Text Read)
            → (x : List ℕ) × (length x ≤ self.now.policy.run.limit + 1)
            × IsReport
            (terms self.now.policy self.now.keys now (map meaning self.now.verifiers.items))
            x (B.ceiling budget.old) result }
        ensures counted { IsCounted self.now.policy.max_calls
            result.tries.items (B.octets budget.new) (B.calls budget.new) }
        ensures ceiling { B.ceiling budget.new ≡ B.ceiling budget.old }

        // Where the source fails, nothing was tried.
        ensures failed { R.failed source.new ≡ true
            → Failed result.verdict result.tries.items result.states.items }
        ensures read { result.verdict ≡ Refused (Text Read) → R.failed source.new ≡ true }
        ensures fails { R.failed source.old ≡ false → R.failed source.new ≡ true
            → result.verdict ≡ Refused (Text Read) }
    {
        let Validator {
            policy,
            keys,
            verifiers,
            ..
        } = self;
        let verifiers = verifiers.as_slice();
        validate(alloc, source, keys, policy, now, verifiers, budget)
    }
}
