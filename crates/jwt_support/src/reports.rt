//! Cases of `judge` and `validate`, and what is said of them, in words that a case can be compared with.
ghost use Rattle.std.specs.Prelude.{◌≡◌};

use crate::examples::filled;
use crate::streams::Drip;
use crate::verifiers::{TestVerifier, VerifierKind};
use jwt_keys::KeySet;
use jwt_mac::{Budget, CountDown, CountUp, Verifier};
use jwt_policy::{ClaimFault, Policy};
use jwt_text::{Reader, Source};
use jwt_verify::{Fault, Report, Terms, Verdict, judge, validate};
use std::alloc::{AllocError, Global};

/// More than any of these runs costs, and what a policy allows that says nothing of it.
pub const AMPLE: u64 = 1_048_576;

/// A token under a policy, and what is said of it. Names in angle brackets in the keys and the token are those of
/// [`filled`](crate::examples::filled).
#[derive(Clone, Copy)]
pub struct Case {
    pub shows: &'static str,
    pub policy: &'static str,
    pub keys: &'static str,
    pub token: &'static str,
    pub now: i64,
    pub ceiling: u64,
    pub verifiers: &'static [VerifierKind],
    /// The report, as [`told`] has it.
    pub gives: &'static str,
    /// The line that `jwt verify` prints, where it is asked the same.
    pub line: Option<&'static str>,
}

/// Whether a budget counts up or down.
#[derive(Clone, Copy)]
pub enum Counts {
    Up,
    Down,
}

/// How a token is handed over: whole to `judge`, or to `validate` by a source, which gives as much as is asked for or one octet a pull.
#[derive(Clone, Copy)]
pub enum Handover {
    Whole,
    Read,
    Dripped,
}

/// A fault in words.
fn told_fault(alloc: Global, fault: &Fault<'_>) -> Result<String, AllocError> {
    match fault {
        Fault::OutOfMemory => format!(in alloc; "OutOfMemory"),
        Fault::Text(fault) => format!(in alloc; "{fault:?}"),
        Fault::Form(fault) => format!(in alloc; "{fault:?}"),
        Fault::WorkExceeded(i, j) => format!(in alloc; "WorkExceeded {i} {j}"),
        Fault::Signature(i, fault) => format!(in alloc; "{fault:?} {i}"),
        Fault::Claim(fault) => told_claim_fault(alloc, fault),
        Fault::VerifierMemory => format!(in alloc; "VerifierMemory"),
        Fault::CallsExceeded(i, j) => format!(in alloc; "CallsExceeded {i} {j}"),
    }
}

/// A claims fault in words, where a case needs them.
fn told_claim_fault(alloc: Global, fault: &ClaimFault<'_>) -> Result<String, AllocError> {
    match fault {
        ClaimFault::Expired => format!(in alloc; "Expired"),
        ClaimFault::Issuer => format!(in alloc; "Issuer"),
        ClaimFault::ClaimMissing(name) => {
            let text = name.text();
            format!(in alloc; "ClaimMissing({text})")
        }
        _ => format!(in alloc; "Claim"),
    }
}

/// A verdict in words.
fn told_verdict(alloc: Global, verdict: &Verdict<'_>) -> Result<String, AllocError> {
    match verdict {
        Verdict::Accepted { signature, key, .. } => format!(in alloc; "accepted {signature} {key}"),
        Verdict::Refused(fault) => told_fault(alloc, fault),
    }
}

/// The tried pairs with their costs.
fn told_tries(alloc: Global, report: &Report<'_>) -> Result<String, AllocError> {
    let mut line = String::new(alloc);
    for entry in &report.tries {
        let (signature, key, cost) = (entry.signature, entry.key, entry.cost);
        let pair = format!(in alloc; "{signature}.{key}:{cost} ")?;
        line.push_str(&pair)?;
    }
    Ok(line)
}

/// The states of the signatures.
fn told_states(alloc: Global, report: &Report<'_>) -> Result<String, AllocError> {
    let mut line = String::new(alloc);
    for state in &report.states {
        let state = format!(in alloc; " {state:?}")?;
        line.push_str(&state)?;
    }
    Ok(line)
}

/// What all tries cost.
fn paid(report: &Report<'_>) -> u64 {
    let mut paid = 0u64;
    for entry in &report.tries {
        paid = paid.saturating_add(entry.cost);
    }
    paid
}

/// A report and what the budget says, in words: the verdict, the tried pairs with their costs, the octets and the calls, the
/// states, and `uncounted` where the budget hasn't counted just these tries.
fn told(alloc: Global, report: &Report<'_>, octets: u64, calls: u32) -> Result<String, AllocError> {
    let verdict = told_verdict(alloc, &report.verdict)?;
    let tries = told_tries(alloc, report)?;
    let states = told_states(alloc, report)?;
    let counted = paid(report) == octets && report.tries.len() == calls as usize;
    let uncounted = if counted { "" } else { " uncounted" };
    format!(in alloc; "{verdict}; tries {tries}work {octets} calls {calls};{states}{uncounted}")
}

/// What `judge` says of a token under a new budget.
fn judged_by<B: Budget>(
    alloc: Global,
    token: &[u8],
    terms: &Terms<'_, '_, '_>,
    b: &mut B,
) -> Option<String>
    requires octets { B.octets b.old ≡ 0 }
    requires calls { B.calls b.old ≡ 0 }
{
    let report = judge(
        alloc,
        token,
        terms.keys,
        terms.policy,
        terms.moment,
        terms.verifiers,
        b,
    );
    told(alloc, &report, b.octets(), b.calls()).ok()
}

/// What `judge` says of a token.
pub fn judged(
    alloc: Global,
    token: &[u8],
    terms: &Terms<'_, '_, '_>,
    ceiling: u64,
    counts: Counts,
) -> Option<String> {
    match counts {
        Counts::Up => {
            let mut b = CountUp::new(ceiling);
            judged_by(alloc, token, terms, &mut b)
        }
        Counts::Down => {
            let mut b = CountDown::new(ceiling);
            judged_by(alloc, token, terms, &mut b)
        }
    }
}

/// What `validate` says of a token under a new budget.
fn validated_by<R: Source, B: Budget>(
    alloc: Global,
    r: &mut R,
    terms: &Terms<'_, '_, '_>,
    b: &mut B,
) -> Option<String>
    requires octets { B.octets b.old ≡ 0 }
    requires calls { B.calls b.old ≡ 0 }
{
    let report = validate(
        alloc,
        r,
        terms.keys,
        terms.policy,
        terms.moment,
        terms.verifiers,
        b,
    );
    told(alloc, &report, b.octets(), b.calls()).ok()
}

/// What `validate` says of a token.
pub fn validated<R: Source>(
    alloc: Global,
    r: &mut R,
    terms: &Terms<'_, '_, '_>,
    ceiling: u64,
    counts: Counts,
) -> Option<String> {
    match counts {
        Counts::Up => {
            let mut b = CountUp::new(ceiling);
            validated_by(alloc, r, terms, &mut b)
        }
        Counts::Down => {
            let mut b = CountDown::new(ceiling);
            validated_by(alloc, r, terms, &mut b)
        }
    }
}

/// The policy and the keys of a case.
#[derive(Drop)]
struct CaseDocuments {
    policy: Policy,
    keys: KeySet,
}

/// The policy and the keys of the case, where they are read.
fn documents_of(alloc: Global, case: &Case) -> Option<CaseDocuments> {
    let document = filled(alloc, case.keys).ok()?;
    let keys = KeySet::read(alloc, document.as_bytes()).ok()?;
    let policy = Policy::read(alloc, case.policy.as_bytes()).ok()?;
    Some(CaseDocuments { policy, keys })
}

/// What `validate` says over this source and not of the case's token, with these verifiers and not the case's own.
pub fn validated_case<R: Source>(
    alloc: Global,
    r: &mut R,
    case: &Case,
    verifiers: &[Box<dyn Verifier>],
    counts: Counts,
) -> Option<String> {
    let documents = documents_of(alloc, case)?;
    let terms = Terms {
        keys: &documents.keys,
        policy: &documents.policy,
        moment: case.now,
        verifiers,
    };
    validated(alloc, r, &terms, case.ceiling, counts)
}

/// What `judge` says of this token and not the case's, with these verifiers and not the case's own.
pub fn judged_case(
    alloc: Global,
    token: &[u8],
    case: &Case,
    verifiers: &[Box<dyn Verifier>],
    counts: Counts,
) -> Option<String> {
    let documents = documents_of(alloc, case)?;
    let terms = Terms {
        keys: &documents.keys,
        policy: &documents.policy,
        moment: case.now,
        verifiers,
    };
    judged(alloc, token, &terms, case.ceiling, counts)
}

/// What is said of the case with these verifiers, and not the case's own.
pub fn said_with(
    alloc: Global,
    case: &Case,
    verifiers: &[Box<dyn Verifier>],
    way: Handover,
    counts: Counts,
) -> Option<String> {
    let token = filled(alloc, case.token).ok()?;
    let octets = token.as_bytes();
    match way {
        Handover::Whole => judged_case(alloc, octets, case, verifiers, counts),
        Handover::Read => validated_case(alloc, &mut Reader::new(octets), case, verifiers, counts),
        Handover::Dripped => {
            validated_case(
                alloc,
                &mut Drip::new(octets, 1 << 20),
                case,
                verifiers,
                counts,
            )
        }
    }
}

/// What is said of the case.
pub fn said(alloc: Global, case: &Case, way: Handover, counts: Counts) -> Option<String> {
    let mut all: Vec<Box<dyn Verifier>> = Vec::new(alloc);
    for kind in case.verifiers {
        let verifier = Box::new(alloc, TestVerifier { kind: *kind }).ok()?;
        all.push(verifier).ok()?;
    }
    said_with(alloc, case, &all, way, counts)
}

/// What is said of the case and is not what it gives, by `judge` or by `validate`, under either kind of budget; nothing where there
/// is no such thing.
pub fn difference(alloc: Global, case: &Case) -> Option<String> {
    for (way, counts) in [
        (Handover::Whole, Counts::Up),
        (Handover::Dripped, Counts::Up),
        (Handover::Whole, Counts::Down),
        (Handover::Dripped, Counts::Down),
    ] {
        let found = said(alloc, case, way, counts)?;
        if found.as_str() != case.gives {
            let shows = case.shows;
            return format!(in alloc; "{shows}: {found}").ok();
        }
    }
    Some(String::new(alloc))
}

/// The first of these cases that is reported otherwise, with what is said of it; nothing where there is none.
pub fn first_difference(alloc: Global, cases: &[Case]) -> Option<String> {
    for case in cases {
        let found = difference(alloc, case)?;
        if !found.is_empty() {
            return Some(found);
        }
    }
    Some(String::new(alloc))
}
