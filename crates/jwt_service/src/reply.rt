//! What is answered to a request.

ghost use Rattle.std.specs.Prelude.{◌≡◌};
ghost use Rattle.jwt_request.specs.Replies.{IsReply};
ghost use Rattle.jwt_service.specs.Reply.{outcome_of, shown_by, refusal_outcome, refusal_scheme, fault_outcome, denial_outcome, proof_outcome, proving_outcome, taken_outcome};
ghost use Rattle.jwt_service.specs.Shown.{schemes_of};

use crate::admission::{Admission, Refusal};
use crate::proving::ProvingFault;
use crate::service::Service;
use jwt_access::Denial;
use jwt_possession::once::Taken;
use jwt_possession::{KeyFault, ProofFault, RequestFault};
use jwt_request::{Outcome, Reply, Scheme, reply_to};
use jwt_verify::Fault;

/// Of a fault of a token: nothing is said of it where memory was wanted.
fn fault_outcome(fault: &Fault<'_>) -> Outcome
    ensures { result ≡ fault_outcome fault.now }
{
    match fault {
        Fault::OutOfMemory | Fault::VerifierMemory => Outcome::Unanswered,
        _ => Outcome::Refused,
    }
}

/// The same of a proof.
fn proof_outcome(fault: &Fault<'_>) -> Outcome
    ensures { result ≡ proof_outcome fault.now }
{
    match fault {
        Fault::OutOfMemory | Fault::VerifierMemory => Outcome::Unanswered,
        _ => Outcome::ProofRefused,
    }
}

/// Of a denial.
fn denial_outcome(denial: &Denial<'_>) -> Outcome
    ensures { result ≡ denial_outcome denial.now }
{
    match denial {
        Denial::ScopeMissing(_) => Outcome::ScopeMissing,
        _ => Outcome::Denied,
    }
}

/// Of a sender who hasn't proved to hold the key.
fn proving_outcome(fault: &ProvingFault<'_>) -> Outcome
    ensures { result ≡ proving_outcome fault.now }
{
    match fault {
        ProvingFault::NotOne => Outcome::ProofRefused,
        ProvingFault::Path => Outcome::PathForm,
        ProvingFault::Nonce => Outcome::NonceWanted,
        ProvingFault::OutOfMemory => Outcome::Unanswered,
        ProvingFault::Proof(fault) => match fault {
            ProofFault::NoToken(fault) | ProofFault::NotAccepted(fault) => proof_outcome(fault),
            ProofFault::NoKey(KeyFault::OutOfMemory) | ProofFault::OutOfMemory =>
                Outcome::Unanswered,
            ProofFault::OtherKey => Outcome::Refused,
            ProofFault::OtherRequest(RequestFault::PathForm) => Outcome::PathForm,
            _ => Outcome::ProofRefused,
        },
    }
}

/// Of what isn't new.
fn taken_outcome(otherwise: Outcome, taken: Option<Taken>) -> Outcome
    ensures { result ≡ taken_outcome otherwise taken }
{
    match taken {
        Some(Taken::OwnFull) => Outcome::ShareUsedUp,
        Some(Taken::Full) => Outcome::MemoryFull,
        Some(Taken::OutOfMemory) | None => Outcome::Unanswered,
        Some(_) => otherwise,
    }
}

impl<'s> Refusal<'s> {
    fn outcome(&self) -> Outcome
        ensures { result ≡ refusal_outcome self.now }
    {
        match self {
            Refusal::Misasked(_) => Outcome::Unanswered,
            Refusal::Several => Outcome::Several,
            Refusal::Absent => Outcome::Absent,
            Refusal::Malformed(_) => Outcome::Malformed,
            Refusal::Refused(_, fault) => fault_outcome(fault),
            Refusal::Denied(_, denial) => denial_outcome(denial),
            Refusal::Unexpected(..) | Refusal::Unshown(..) => Outcome::Refused,
            Refusal::Unproved(fault) => proving_outcome(fault),
            Refusal::Lacking(..) => Outcome::Refused,
            Refusal::OutOfMemory => Outcome::Unanswered,
        }
    }

    fn scheme(&self) -> Option<Scheme>
        ensures { result ≡ refusal_scheme self.now }
    {
        match self {
            Refusal::Malformed(scheme)
            | Refusal::Refused(scheme, _)
            | Refusal::Denied(scheme, _)
            | Refusal::Unexpected(scheme, _)
            | Refusal::Unshown(scheme, _)
            | Refusal::Lacking(scheme, _) => Some(*scheme),
            Refusal::Unproved(_) => Some(Scheme::Dpop),
            Refusal::Misasked(_) | Refusal::Several | Refusal::Absent | Refusal::OutOfMemory =>
                None,
        }
    }
}

impl<'s> Admission<'s> {
    /// What is known of the request and its token.
    pub fn outcome(&self) -> Outcome
        ensures { result ≡ outcome_of self.now }
    {
        match self {
            Admission::Admitted(_) => Outcome::Accepted,
            Admission::Refused(refusal) => refusal.outcome(),
            Admission::ProofNotNew(taken) => taken_outcome(Outcome::ProofRefused, *taken),
            Admission::TokenNotNew(_, taken) => taken_outcome(Outcome::Refused, *taken),
        }
    }

    /// The scheme by which the request showed its token, where something is said of it.
    fn shown(&self) -> Option<Scheme>
        ensures { result ≡ shown_by self.now }
    {
        match self {
            Admission::Admitted(_) => None,
            Admission::Refused(refusal) => refusal.scheme(),
            Admission::ProofNotNew(_) => Some(Scheme::Dpop),
            Admission::TokenNotNew(scheme, _) => Some(*scheme),
        }
    }

    /// What is answered to the request: 200 where it is let through.
    pub fn reply(&self, service: &Service<'_>) -> Reply
        ensures { IsReply (schemes_of service.now) (shown_by self.now) (outcome_of self.now) result }
    {
        reply_to(service.schemes(), self.shown(), self.outcome())
    }
}
