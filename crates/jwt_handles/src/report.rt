//! The structs that the exported functions write.

ghost use Rattle.std.specs.Prelude.{◌≡◌};
ghost use Rattle.jwt_handles.specs.Faults.{accepted, bare, refusal, form_numbers, claim_numbers, issue_numbers, fault_numbers, verdict_numbers};
ghost use Rattle.jwt_handles.specs.Reports.{report_numbers, state_numbers, state_parts, try_of, try_parts};

use crate::faults::{
    claim_fault_number, claim_of, form_number, form_part, form_signature, input_number,
    issue_number, issue_signature, sig_number,
};
use crate::status::{FOW_OK, FOW_OUT_OF_MEMORY, FOW_REFUSED};
use jwt_issue::IssueFault;
use jwt_jws::FormFault;
use jwt_policy::ClaimFault;
use jwt_verify::{Fault, SigState, Try, Verdict};

/// What became of a signature. In C `fow_state`.
#[repr(C)]
#[derive(Clone, Copy)]
pub struct FowState {
    /// The state, as `fow_state_number` numbers it.
    pub state: u32,
    /// Why no key was tried, where that is the state.
    pub fault: u32,
    /// The key that verified it, where that is the state.
    pub key: u32,
}

/// The try of a key on a signature. In C `fow_try`.
#[repr(C)]
#[derive(Clone, Copy)]
pub struct FowTry {
    /// The octets that were fed to HMAC for it.
    pub cost: u64,
    /// The signature's number.
    pub signature: u32,
    /// The key's number.
    pub key: u32,
}

/// What is said of a token. In C `fow_report`.
#[repr(C)]
#[derive(Clone, Copy)]
pub struct FowReport {
    /// The octets that the tries cost.
    pub work: u64,
    /// The number of tries.
    pub tries: u64,
    /// 0 accepted, 1 refused, 3 out of memory, 4 nothing is held.
    pub verdict: u32,
    /// Of a refusal the fault, as `fow_fault` numbers it.
    pub fault: u32,
    /// The part of the token that the fault speaks of.
    pub part: u32,
    /// A signature's number.
    pub signature: u32,
    /// A key's number.
    pub key: u32,
    /// The claim that the fault speaks of.
    pub claim: u32,
}

impl FowReport {
    /// A verdict that speaks of nothing more.
    pub(crate) fn bare(verdict: u32) -> FowReport
        ensures numbers { report_numbers result ≡ bare verdict }
        ensures work { result.work ≡ 0 }
        ensures tries { result.tries ≡ 0 }
    {
        FowReport {
            work: 0,
            tries: 0,
            verdict,
            fault: 0,
            part: 0,
            signature: 0,
            key: 0,
            claim: 0,
        }
    }

    /// A refusal.
    pub(crate) fn refusal(fault: u32, part: u32, signature: u32, key: u32, claim: u32) -> FowReport
        ensures { report_numbers result ≡ refusal fault part signature key claim }
    {
        FowReport {
            work: 0,
            tries: 0,
            verdict: FOW_REFUSED,
            fault,
            part,
            signature,
            key,
            claim,
        }
    }

    /// An acceptance by this signature and this key.
    pub(crate) fn accepted(signature: u32, key: u32) -> FowReport
        ensures { report_numbers result ≡ accepted signature key }
    {
        FowReport {
            work: 0,
            tries: 0,
            verdict: FOW_OK,
            fault: 0,
            part: 0,
            signature,
            key,
            claim: 0,
        }
    }

    /// Why octets are no signed token.
    pub(crate) fn of_form(fault: FormFault) -> FowReport
        ensures { report_numbers result ≡ form_numbers fault }
    {
        match fault {
            FormFault::OutOfMemory => FowReport::bare(FOW_OUT_OF_MEMORY),
            _ => FowReport::refusal(
                form_number(fault),
                form_part(fault),
                form_signature(fault),
                0,
                0,
            ),
        }
    }

    /// Why claims are refused.
    pub(crate) fn of_claims(fault: &ClaimFault<'_>) -> FowReport
        ensures { report_numbers result ≡ claim_numbers fault.now }
    {
        match fault {
            ClaimFault::OutOfMemory => FowReport::bare(FOW_OUT_OF_MEMORY),
            _ => FowReport::refusal(claim_fault_number(fault), 0, 0, 0, claim_of(fault)),
        }
    }

    /// Why nothing is issued.
    pub(crate) fn of_issue(fault: IssueFault) -> FowReport
        ensures { report_numbers result ≡ issue_numbers fault }
    {
        match fault {
            IssueFault::OutOfMemory => FowReport::bare(FOW_OUT_OF_MEMORY),
            _ => FowReport::refusal(issue_number(fault), 0, issue_signature(fault), 0, 0),
        }
    }

    /// Why a token is refused.
    pub(crate) fn of_fault(fault: &Fault<'_>) -> FowReport
        ensures { report_numbers result ≡ fault_numbers fault.now }
    {
        match fault {
            Fault::OutOfMemory => FowReport::bare(FOW_OUT_OF_MEMORY),
            Fault::Text(fault) => FowReport::refusal(input_number(*fault), 0, 0, 0, 0),
            Fault::Form(fault) => FowReport::of_form(*fault),
            Fault::WorkExceeded(i, j) => FowReport::refusal(501, 0, *i, *j, 0),
            Fault::CallsExceeded(i, j) => FowReport::refusal(502, 0, *i, *j, 0),
            Fault::Signature(i, fault) => FowReport::refusal(sig_number(*fault), 0, *i, 0, 0),
            Fault::Claim(fault) => FowReport::of_claims(fault),
            Fault::VerifierMemory => FowReport::bare(FOW_OUT_OF_MEMORY),
        }
    }

    /// A verdict.
    pub(crate) fn of(verdict: &Verdict<'_>) -> FowReport
        ensures { report_numbers result ≡ verdict_numbers verdict.now }
    {
        match verdict {
            Verdict::Accepted { signature, key, .. } => FowReport::accepted(*signature, *key),
            Verdict::Refused(fault) => FowReport::of_fault(fault),
        }
    }
}

impl FowState {
    /// What became of a signature.
    pub(crate) fn of(state: SigState) -> FowState
        ensures { state_parts result ≡ state_numbers state }
    {
        let (state, fault, key) = match state {
            SigState::Barred(fault) => (1, sig_number(fault), 0),
            SigState::NoKey => (2, 0, 0),
            SigState::BadSignature => (3, 0, 0),
            SigState::Verified(key) => (4, 0, key),
            SigState::NotReached => (5, 0, 0),
            SigState::Stopped => (6, 0, 0),
        };
        FowState { state, fault, key }
    }
}

impl FowTry {
    /// A try.
    pub(crate) fn of(tried: Try) -> FowTry
        ensures { try_of result ≡ try_parts tried }
    {
        FowTry {
            cost: tried.cost,
            signature: tried.signature,
            key: tried.key,
        }
    }
}
