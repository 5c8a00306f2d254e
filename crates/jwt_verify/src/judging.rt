//! Judges a token in hand, or one that a source gives.

ghost use Rattle.std.specs.Prelude.{◌≡◌, ◌≢◌, ◌≤◌, ◌+◌, ◌++◌, [], ℕ, List, Some, true, false, map, length, drop, IfSome};
ghost use Rattle.jwt_jws.specs.Views.{token};
ghost use Rattle.jwt_verify.specs.Table.{work, paid};
ghost use Rattle.jwt_verify.specs.TermsTable.{terms_meant, terms_table};
ghost use Rattle.jwt_verify.specs.Verdict.{token_verdict};
ghost use Rattle.jwt_verify.specs.Asks.{IsToken};
ghost use Rattle.jwt_text.specs.Intake.{TakesAtMost};
ghost use Rattle.jwt_verify.specs.Reports.{FoundMemory, IsReport, IsReadAs, IsJudged, IsCounted, IsCharged, Failed, terms};
ghost use Rattle.jwt_verify.specs.Steps.{IsWhole};
ghost use Rattle.jwt_verify.specs.declared.report.InputFault.TheVariants.{Read};
ghost use Rattle.jwt_verify.specs.declared.report.Fault.TheVariants.{OutOfMemory, Text};
ghost use Rattle.jwt_verify.specs.declared.report.Verdict.TheVariants.{Refused};
ghost use Rattle.jwt_verify.specs.declared.report.Try.{Try};

use crate::conclusion::verdict_after;
use crate::laws::{reports_in_words, tells_tokens};
use crate::reading::{read_with, take_in};
use crate::report::{Fault, Report, Verdict};
use crate::terms::Terms;
use crate::tries::run;
use jwt_jws::Signed;
use jwt_jws::laws::signed_tokens;
use jwt_keys::KeySet;
use jwt_mac::{Budget, Verifier};
use jwt_policy::Policy;
use jwt_text::{Scratch, Source};
use std::alloc::Global;

/// A report, and the token that it is on.
#[derive(Drop)]
pub struct JudgedToken<'a, 'p> {
    /// The report.
    pub report: Report<'p>,
    /// The token that was read; `None` where the octets are none, or memory was refused.
    pub token: Option<Signed<'a>>,
}

/// The verdict on a signed token.
fn report_on<'p, B: Budget>(
    alloc: Global,
    terms: &Terms<'_, 'p, '_>,
    signed: &Signed<'_>,
    budget: &mut B,
    scratch: &mut Scratch,
) -> Report<'p>
    requires no_octets { B.octets budget.old ≡ 0 }
    requires no_calls { B.calls budget.old ≡ 0 }
    ensures verdict { FoundMemory result.verdict → result.verdict
        ≡ token_verdict (terms_meant meaning terms.now) (B.ceiling budget.old) (token signed.now) }
    ensures tries { IsWhole (terms_table meaning terms.now signed.now)
        (B.ceiling budget.old) terms.now.policy.now.max_calls
        result.tries.items result.states.items result.verdict }
    ensures front { (more : List Try) × (paid (terms_table meaning terms.now signed.now)
        (B.ceiling budget.old) terms.now.policy.now.max_calls ≡ result.tries.items ++ more) }
    ensures octets { B.octets budget.new ≡ work result.tries.items }
    ensures calls { B.calls budget.new ≡ length result.tries.items }
    ensures ceiling { B.ceiling budget.new ≡ B.ceiling budget.old }
    ensures read { result.verdict ≢ Refused (Text Read) }
{
    let mut tries = Vec::new(alloc);
    let mut states = Vec::new(alloc);
    let verdict = match run(terms, signed, budget, &mut tries, &mut states) {
        Ok(outcome) => verdict_after(alloc, terms, signed.payload(), outcome, scratch),
        Err(_) => Verdict::Refused(Fault::OutOfMemory),
    };
    Report {
        verdict,
        states,
        tries,
    }
}

/// A refusal before anything was tried.
fn refused<'p>(alloc: Global, fault: Fault<'p>) -> Report<'p>
    ensures verdict { result.verdict ≡ Refused fault.entry }
    ensures states { result.states.items ≡ [] }
    ensures tries { result.tries.items ≡ [] }
{
    Report {
        verdict: Verdict::Refused(fault),
        states: Vec::new(alloc),
        tries: Vec::new(alloc),
    }
}

/// The verdict on octets in hand, with what became of each signature and each try that was paid.
///
/// The octets, without one final line feed where the policy has `line_feed`, are read as a signed token (RFC 7515, section 7). The
/// signatures are gone through in order, and for each the eligible keys in ascending order until one verifies it (RFC 7515,
/// section 5.2). In mode `any` the run ends at the first verified signature, in mode `all` at the first that isn't. Once the
/// signatures are verified, the claims are held against the policy at the moment `now`, in seconds since
/// 1970-01-01T00:00:00Z (RFC 7519, section 7.2).
///
/// The condition: the budget is new. Each try is paid from it: a try by HMAC for the octets that are fed, a question to the first
/// of `verifiers` that names the algorithm for one call and no octets. No pair is tried twice. The ceiling is the budget's alone:
/// the policy's `work` isn't looked at, and `CountDown::new(policy.work())` makes a budget with it.
///
/// # Refused
/// With the first that holds of `Text(TooLong)`, more octets than the policy's `limit`; `Form`; `CallsExceeded` or `WorkExceeded`,
/// at the first pair that would pass the policy's `max_calls` or the budget's ceiling, calls before work, and that pair isn't
/// tried; `Signature`; `Claim`. `VerifierMemory` comes where a verifier that was asked lacked memory, and ends the run.
/// `OutOfMemory` comes where an allocation was refused, in place of any other verdict but `Text(TooLong)`, `Form(Empty)` and a wrong
/// number of periods. After each of them the budget agrees with the tries of the report.
pub fn judge<'p, B: Budget>(
    alloc: Global,
    octets: &[u8],
    keys: &KeySet,
    policy: &'p Policy,
    now: i64,
    verifiers: &[Box<dyn Verifier>],
    budget: &mut B,
) -> Report<'p>
    requires no_octets { B.octets budget.old ≡ 0 }
    requires no_calls { B.calls budget.old ≡ 0 }

    // The report is the one on the octets: the verdict is theirs, unless memory was refused.
    ensures judged { IsJudged (terms policy.now keys.now now (map meaning verifiers.now))
        octets.now (B.ceiling budget.old) result }

    // The budget counts just its tries. No pair is tried twice, and each is eligible; the octets are within the bound, the calls within the
    // policy's ceiling.
    ensures charged { IsCharged (terms policy.now keys.now now (map meaning verifiers.now))
        octets.now result.tries.items (B.octets budget.new) (B.calls budget.new) }
    ensures ceiling { B.ceiling budget.new ≡ B.ceiling budget.old }
{
    let terms = Terms {
        keys,
        policy,
        moment: now,
        verifiers,
    };
    let mut scratch = Scratch::new(alloc);
    let JudgedToken { report, token: _ } = judge_under(alloc, octets, &terms, budget, &mut scratch);
    report
}

/// The report as [`judge`] gives it under these terms, with the token that was read for it: a caller who has more to ask
/// of the token needn't read it again. A caller with many tokens keeps the scratch from one to the next: it is what reading
/// needs beside its result, and nothing depends on what it holds.
///
/// The condition: the budget is new.
///
/// # Refused
/// As [`judge`] refuses.
pub fn judge_under<'a, 'p, B: Budget>(
    alloc: Global,
    octets: &'a [u8],
    terms: &Terms<'_, 'p, '_>,
    budget: &mut B,
    scratch: &mut Scratch,
) -> JudgedToken<'a, 'p>
    requires no_octets { B.octets budget.old ≡ 0 }
    requires no_calls { B.calls budget.old ≡ 0 }

    // The report is the one of `judge`, and so is what the budget counts.
    ensures judged { IsJudged (terms_meant meaning terms.now)
        octets.now (B.ceiling budget.old) result.report }
    ensures charged { IsCharged (terms_meant meaning terms.now)
        octets.now result.report.tries.items (B.octets budget.new) (B.calls budget.new) }
    ensures ceiling { B.ceiling budget.new ≡ B.ceiling budget.old }

    // The token is the one that the octets are.
    ensures token { IsReadAs terms.now.policy.now octets.now result.report.verdict result.token }
{
    signed_tokens();
    reports_in_words();
    match read_with(alloc, octets, terms.policy, scratch) {
        Ok(signed) => JudgedToken {
            report: report_on(alloc, terms, &signed, budget, scratch),
            token: Some(signed),
        },
        Err(fault) => JudgedToken {
            report: refused(alloc, fault),
            token: None,
        },
    }
}

/// The report on a token that was read already, as [`judge`] gives it on the octets that the token is of, under the policy by which
/// [`read_token`] read them: a caller that has to look at a token before it knows the keys needn't read it twice. The scratch is
/// as [`judge_under`] says.
///
/// The condition: the budget is new.
///
/// # Refused
/// As [`judge`] refuses, reading aside, which is done.
pub fn judge_token<'p, B: Budget>(
    alloc: Global,
    signed: &Signed<'_>,
    keys: &KeySet,
    policy: &'p Policy,
    now: i64,
    verifiers: &[Box<dyn Verifier>],
    budget: &mut B,
    scratch: &mut Scratch,
) -> Report<'p>
    requires no_octets { B.octets budget.old ≡ 0 }
    requires no_calls { B.calls budget.old ≡ 0 }

    // The report is the one of `judge`, on all octets that this policy reads as the token, and so is what the budget counts.
    ensures report { (x : List ℕ) → IsToken policy.now x (token signed.now)
        → IsReport (terms policy.now keys.now now (map meaning verifiers.now))
        x (B.ceiling budget.old) result }
    ensures charged { (x : List ℕ) → IsToken policy.now x (token signed.now)
        → IsCharged (terms policy.now keys.now now (map meaning verifiers.now))
        x result.tries.items (B.octets budget.new) (B.calls budget.new) }

    // Whatever octets it was read from: no read fails, and the budget counts just the tries.
    ensures read { result.verdict ≢ Refused (Text Read) }
    ensures counted { IsCounted policy.now.max_calls
        result.tries.items (B.octets budget.new) (B.calls budget.new) }
    ensures ceiling { B.ceiling budget.new ≡ B.ceiling budget.old }
{
    tells_tokens();
    reports_in_words();
    let terms = Terms {
        keys,
        policy,
        moment: now,
        verifiers,
    };
    report_on(alloc, &terms, signed, budget, scratch)
}

/// The verdict on what a source gives: as [`judge`] says of it, however the source cuts it.
///
/// At most one octet more than the policy's `limit` is taken, and nothing after that one; at most `limit` where the source fails.
///
/// ```rust
/// use jwt_keys::KeySet;
/// use jwt_mac::CountDown;
/// use jwt_policy::Policy;
/// use jwt_text::Reader;
/// use jwt_verify::{Verdict, validate};
///
/// let policy = Policy::read(alloc, b"{\"algs\":[\"HS256\"],\"audiences\":[\"api\"],\"required\":[\"exp\"]}")?;
/// let keys = KeySet::read(alloc, document)?;
/// let mut budget = CountDown::new(policy.work());
/// let report = validate(alloc, &mut Reader::new(input), &keys, &policy, now, &[], &mut budget);
/// if let Verdict::Accepted { claims, .. } = &report.verdict {
///     println!(rt; "{}", claims.sub().unwrap_or("nobody"))?;
/// }
/// ```
///
/// The condition: the budget is new.
///
/// # Refused
/// As [`judge`] refuses, and with `Text(Read)` exactly where the source has failed and no allocation was refused. Then nothing was
/// tried. `OutOfMemory` may stand in place of any other verdict but that: the octets are put into memory before they are looked at.
pub fn validate<'p, R: Source, B: Budget>(
    alloc: Global,
    source: &mut R,
    keys: &KeySet,
    policy: &'p Policy,
    now: i64,
    verifiers: &[Box<dyn Verifier>],
    budget: &mut B,
) -> Report<'p>
    requires no_octets { B.octets budget.old ≡ 0 }
    requires no_calls { B.calls budget.old ≡ 0 }

    // Of a source whose octets are known: unless a read failed, the report is the one on them; what the budget counts; and what was
    // taken.
    ensures report { IfSome (R.remaining source.old) (λ x. result.verdict ≢ Refused (Text Read)
        → IsReport (terms policy.now keys.now now (map meaning verifiers.now))
        x (B.ceiling budget.old) result) }
    ensures charged { IfSome (R.remaining source.old) (λ x.
        IsCharged (terms policy.now keys.now now (map meaning verifiers.now))
        x result.tries.items (B.octets budget.new) (B.calls budget.new)) }
    ensures taken { IfSome (R.remaining source.old) (λ x. result.verdict ≢ Refused (Text Read)
        → result.verdict ≢ Refused OutOfMemory
        → R.remaining source.new ≡ Some (drop (policy.now.run.limit + 1) x)) }
    ensures most { IfSome (R.remaining source.old) (λ x.
        TakesAtMost (policy.now.run.limit + 1) x (R.remaining source.new)) }
    ensures few { IfSome (R.remaining source.old) (λ x. result.verdict ≡ Refused (Text Read)
        → TakesAtMost policy.now.run.limit x (R.remaining source.new)) }

    // Of every source, also of one whose octets aren't known: unless a read failed, some octets have this report; and the budget counts
    // just its tries.
    ensures some { result.verdict ≢ Refused (Text Read)
        → (x : List ℕ) × (length x ≤ policy.now.run.limit + 1)
        × IsReport (terms policy.now keys.now now (map meaning verifiers.now))
        x (B.ceiling budget.old) result }
    ensures counted { IsCounted policy.now.max_calls
        result.tries.items (B.octets budget.new) (B.calls budget.new) }
    ensures ceiling { B.ceiling budget.new ≡ B.ceiling budget.old }

    // Where the source fails, nothing was tried.
    ensures failed { R.failed source.new ≡ true
        → Failed result.verdict result.tries.items result.states.items }
    ensures read { result.verdict ≡ Refused (Text Read) → R.failed source.new ≡ true }
    ensures fails { R.failed source.old ≡ false → R.failed source.new ≡ true
        → result.verdict ≡ Refused (Text Read) }
{
    reports_in_words();
    match take_in(alloc, source, policy.limit()) {
        Ok(intake) => judge(alloc, intake.octets(), keys, policy, now, verifiers, budget),
        Err(fault) => refused(alloc, fault),
    }
}
