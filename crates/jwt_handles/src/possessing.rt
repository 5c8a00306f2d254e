//! What is answered to a proof of possession.

ghost use Rattle.jwt_handles.specs.declared.status.TheConstants.{FOW_ABSENT, FOW_NOT_OPEN, FOW_OK, FOW_OUT_OF_MEMORY, FOW_REFUSED};
ghost use Rattle.std.specs.Prelude.{◌≡◌, ◌≢◌, [], IfErr, IfOk, IfSome, None, map, option_map};
ghost use Rattle.jwt_jws.specs.Views.{token};
ghost use Rattle.jwt_verify.specs.Verdict.{token_of};
ghost use Rattle.jwt_handles.specs.Documents.{documents};
ghost use Rattle.jwt_handles.specs.Evidence.{claims_kept, payload_kept};
ghost use Rattle.jwt_handles.specs.Possessing.{HoldsPolicy, IsPolicyRefused, SaysBeside, SaysFor, SaysProof, claims_beside, claims_of_last, key_numbers, lack_number, nonce_of, proof_numbers, request_number};
ghost use Rattle.jwt_handles.specs.ProvedKept.{proved_meanings};
ghost use Rattle.jwt_handles.specs.Reports.{report_numbers};

use crate::faults::policy_number;
use crate::handle::{Handle, take};
use crate::possession_state::PossessionState;
use crate::reading::read_token;
use crate::report::FowReport;
use crate::state::{Last, State};
use crate::status::{FOW_ABSENT, FOW_NOT_OPEN, FOW_OK, FOW_OUT_OF_MEMORY, FOW_REFUSED, NotHeld};
use jwt_built_in::BuiltIn;
use jwt_jws::Signed;
use jwt_mac::Verifier;
use jwt_policy::{Claims, PolicyFault};
use jwt_possession::{
    Access, KeyFault, PolicyLack, Possession, ProofFault, ProofPolicy, ProofPolicyFault, Request,
    RequestFault, judge_proof,
};
use std::alloc::{AllocError, Global};
use std::str::from_utf8;

/// The number of what a policy lacks that is to be one for proofs.
fn lack_number(lack: PolicyLack) -> u32
    ensures { result ≡ lack_number lack }
{
    match lack {
        PolicyLack::Typ => 1101,
        PolicyLack::SharedSecret => 1102,
        PolicyLack::Required => 1103,
        PolicyLack::MaxAge => 1104,
    }
}

/// The numbers of the fault of a header's key.
fn key_numbers(fault: KeyFault) -> FowReport
    ensures { report_numbers result ≡ key_numbers fault }
{
    match fault {
        KeyFault::OutOfMemory => FowReport::bare(FOW_OUT_OF_MEMORY),
        KeyFault::NotCompact => FowReport::refusal(1201, 0, 0, 0, 0),
        KeyFault::KeyMissing => FowReport::refusal(1202, 0, 0, 0, 0),
        KeyFault::KeyPrivate => FowReport::refusal(1203, 0, 0, 0, 0),
        KeyFault::KeyUnreadable => FowReport::refusal(1204, 0, 0, 0, 0),
    }
}

/// The number of the fault of a proof for another request.
fn request_number(fault: RequestFault) -> u32
    ensures { result ≡ request_number fault }
{
    match fault {
        RequestFault::OtherMethod => 1301,
        RequestFault::OtherUri => 1302,
        RequestFault::OtherNonce => 1303,
        RequestFault::OtherAccessToken => 1304,
        RequestFault::PathForm => 1306,
    }
}

/// The numbers of a proof's fault.
fn proof_numbers(fault: &ProofFault<'_>) -> FowReport
    ensures { report_numbers result ≡ proof_numbers fault.now }
{
    match fault {
        ProofFault::NoToken(fault) => FowReport::of_fault(fault),
        ProofFault::NoKey(fault) => key_numbers(*fault),
        ProofFault::OtherKey => FowReport::refusal(1305, 0, 0, 0, 0),
        ProofFault::NotAccepted(fault) => FowReport::of_fault(fault),
        ProofFault::OtherRequest(fault) => {
            FowReport::refusal(request_number(*fault), 0, 0, 0, 0)
        }
        ProofFault::OutOfMemory => FowReport::bare(FOW_OUT_OF_MEMORY),
    }
}

/// The policy for proofs of a document, or the status and the number of the fault for which it is refused.
pub(crate) fn policy_of(alloc: Global, document: &[u8]) -> Result<Box<PossessionState>, NotHeld>
    ensures read { IfOk result (λ b. HoldsPolicy document.now (Some b.value)) }
    ensures refused { IfErr result (λ e. IsPolicyRefused document.now e.status e.fault) }
{
    let policy = match ProofPolicy::read(alloc, document) {
        Ok(policy) => policy,
        Err(ProofPolicyFault::Document(PolicyFault::OutOfMemory)) => return Err(NotHeld {
            status: FOW_OUT_OF_MEMORY,
            fault: 0,
        }),
        Err(ProofPolicyFault::Document(fault)) => return Err(NotHeld {
            status: FOW_REFUSED,
            fault: policy_number(&fault),
        }),
        Err(ProofPolicyFault::Lacks(lack)) => return Err(NotHeld {
            status: FOW_REFUSED,
            fault: lack_number(lack),
        }),
    };
    match Box::new(alloc, PossessionState { policy, last: None }) {
        Ok(state) => Ok(state),
        Err(_) => Err(NotHeld {
            status: FOW_OUT_OF_MEMORY,
            fault: 0,
        }),
    }
}

/// What C says of a request: its method, its URI, the nonce that was asked for, and the access token that came with it, each as octets. An
/// empty nonce is none, and so is an empty token.
#[derive(Clone, Copy)]
pub struct Asked<'a> {
    pub method: &'a [u8],
    pub uri: &'a [u8],
    pub nonce: &'a [u8],
    pub token: &'a [u8],
}

/// A proof with the request that it came with, and the moment, in seconds since 1970-01-01T00:00:00Z.
#[derive(Clone, Copy)]
pub struct Sent<'a> {
    pub proof: &'a [u8],
    pub request: Asked<'a>,
    pub now: i64,
}

/// What is said of a proof, and what is kept of it.
#[derive(Drop)]
pub(crate) struct Judged {
    pub(crate) status: u32,
    pub(crate) fault: u32,
    pub(crate) kept: Option<Possession>,
}

impl Judged {
    /// A status with the number of a fault; nothing is kept.
    fn none(status: u32, fault: u32) -> Judged
        ensures status { result.status ≡ status }
        ensures fault { result.fault ≡ fault }
        ensures kept { result.kept ≡ None }
    {
        Judged {
            status,
            fault,
            kept: None,
        }
    }
}

/// The nonce of these octets: none where there are none.
fn nonce_of(nonce: &str) -> Option<&str>
    ensures { option_map (λ n. n.now) result ≡ nonce_of nonce.now }
{
    if nonce.is_empty() { None } else { Some(nonce) }
}

/// The access token of these octets and claims.
fn access_of<'a>(token: &'a [u8], claims: Option<&'a Claims>) -> Option<Access<'a>>
    ensures token { option_map (λ a. a.token.now) result ≡ option_map (λ _. token.now) (option_map (λ c. c.now) claims.entry) }
    ensures claims { option_map (λ a. a.claims.now) result ≡ option_map (λ c. c.now) claims.entry }
{
    match claims {
        Some(claims) => Some(Access { token, claims }),
        None => None,
    }
}

impl PossessionState {
    /// What is said of a proof to this request, by verifiers that mean what the proved ones do.
    fn judged(
        &self,
        alloc: Global,
        proof: &[u8],
        request: &Request<'_>,
        now: i64,
        verifiers: &[Box<dyn Verifier>],
    ) -> Judged
        requires meanings { map meaning verifiers.now ≡ proved_meanings }
        ensures says { SaysProof self.now.policy now request.now proof.now result.status result.fault result.kept }
        ensures unproved { result.status ≢ FOW_OK → result.kept ≡ None }
    {
        match judge_proof(alloc, proof, request, &self.policy, now, verifiers) {
            Ok(possession) => Judged {
                status: FOW_OK,
                fault: 0,
                kept: Some(possession),
            },
            Err(fault) => {
                let said = proof_numbers(&fault);
                Judged::none(said.verdict, said.fault)
            }
        }
    }

    /// The same by the verifiers of RSA, ECDSA and Ed25519.
    fn judged_by_proof(
        &self,
        alloc: Global,
        proof: &[u8],
        request: &Request<'_>,
        now: i64,
    ) -> Judged
        ensures says { SaysProof self.now.policy now request.now proof.now result.status result.fault result.kept }
        ensures unproved { result.status ≢ FOW_OK → result.kept ≡ None }
    {
        let Ok(verifier) = Box::new(alloc, BuiltIn::plain()) else {
            return Judged::none(FOW_OUT_OF_MEMORY, 0);
        };
        let verifiers: [Box<dyn Verifier>; 1] = [verifier];
        self.judged(alloc, proof, request, now, &verifiers)
    }

    /// What is said of a proof to the request that C says, with an access token where there are claims of one.
    fn judged_for(
        &self,
        alloc: Global,
        proof: &[u8],
        asked: Asked<'_>,
        claims: Option<&Claims>,
        now: i64,
    ) -> Judged
        ensures says { SaysFor self.now.policy now (record {
          method = asked.entry.method.now;
          uri = asked.entry.uri.now;
          nonce = asked.entry.nonce.now;
          token = asked.entry.token.now;
        })
            (option_map (λ c. c.now) claims.entry) proof.now result.status result.fault result.kept }
        ensures unproved { result.status ≢ FOW_OK → result.kept ≡ None }
    {
        let Ok(method) = from_utf8(asked.method) else {
            return Judged::none(FOW_REFUSED, request_number(RequestFault::OtherMethod));
        };
        let Ok(uri) = from_utf8(asked.uri) else {
            return Judged::none(FOW_REFUSED, request_number(RequestFault::OtherUri));
        };
        let Ok(nonce) = from_utf8(asked.nonce) else {
            return Judged::none(FOW_REFUSED, request_number(RequestFault::OtherNonce));
        };
        let request = Request {
            method,
            uri,
            nonce: nonce_of(nonce),
            access: access_of(asked.token, claims),
        };
        self.judged_by_proof(alloc, proof, &request, now)
    }

    /// The same beside an access token, which has to be the one that the validator accepted last.
    fn judged_beside(
        &self,
        alloc: Global,
        validator: &State,
        proof: &[u8],
        asked: Asked<'_>,
        now: i64,
    ) -> Judged
        ensures says { result.status ≢ FOW_OUT_OF_MEMORY → SaysBeside
            (claims_of_last (token_of (documents validator.now).policy asked.entry.token.now) validator.now.last)
            self.now.policy now (record {
              method = asked.entry.method.now;
              uri = asked.entry.uri.now;
              nonce = asked.entry.nonce.now;
              token = asked.entry.token.now;
            })
            proof.now result.status result.fault result.kept }
        ensures unproved { result.status ≢ FOW_OK → result.kept ≡ None }
    {
        match validator.claims_of_last(alloc, asked.token) {
            Ok(Some(claims)) => self.judged_for(alloc, proof, asked, Some(claims), now),
            Ok(None) => Judged::none(FOW_ABSENT, 0),
            Err(_) => Judged::none(FOW_OUT_OF_MEMORY, 0),
        }
    }

    /// What is said of a proof to the request that C says. The validator is asked where an access token came.
    fn judged_by(
        &self,
        alloc: Global,
        validator: &mut Handle,
        proof: &[u8],
        asked: Asked<'_>,
        now: i64,
    ) -> Judged
        ensures same { validator.new.state ≡ validator.old.state }
        ensures alone { asked.entry.token.now ≡ [] → SaysFor self.now.policy now
            (record {
              method = asked.entry.method.now;
              uri = asked.entry.uri.now;
              nonce = asked.entry.nonce.now;
              token = asked.entry.token.now;
            })
            None proof.now result.status result.fault result.kept }
        ensures no_validator { asked.entry.token.now ≢ [] → validator.old.state ≡ None → result.status ≡ FOW_NOT_OPEN }
        ensures beside { IfSome validator.old.state (λ d. asked.entry.token.now ≢ []
            → result.status ≢ FOW_OUT_OF_MEMORY → SaysBeside
            (claims_of_last (token_of (documents d).policy asked.entry.token.now) d.last)
            self.now.policy now (record {
              method = asked.entry.method.now;
              uri = asked.entry.uri.now;
              nonce = asked.entry.nonce.now;
              token = asked.entry.token.now;
            })
            proof.now result.status result.fault result.kept) }
        ensures unproved { result.status ≢ FOW_OK → result.kept ≡ None }
    {
        if asked.token.is_empty() {
            return self.judged_for(alloc, proof, asked, None, now);
        }
        let Some(state) = take(validator, alloc) else {
            return Judged::none(FOW_NOT_OPEN, 0);
        };
        let judged = self.judged_beside(alloc, &state, proof, asked, now);
        *validator = Handle::of(state);
        judged
    }

    /// The status and the number of that; what is kept of it is kept from now on.
    pub(crate) fn judge(
        &mut self,
        alloc: Global,
        validator: &mut Handle,
        proof: &[u8],
        asked: Asked<'_>,
        now: i64,
    ) -> (u32, u32)
        ensures same { validator.new.state ≡ validator.old.state }
        ensures policy { self.new.policy ≡ self.old.policy }
        ensures alone { asked.entry.token.now ≡ [] → SaysFor self.old.policy now
            (record {
              method = asked.entry.method.now;
              uri = asked.entry.uri.now;
              nonce = asked.entry.nonce.now;
              token = asked.entry.token.now;
            })
            None proof.now result.0 result.1 self.new.last }
        ensures no_validator { asked.entry.token.now ≢ [] → validator.old.state ≡ None → result.0 ≡ FOW_NOT_OPEN }
        ensures beside { IfSome validator.old.state (λ d. asked.entry.token.now ≢ []
            → result.0 ≢ FOW_OUT_OF_MEMORY → SaysBeside
            (claims_of_last (token_of (documents d).policy asked.entry.token.now) d.last)
            self.old.policy now (record {
              method = asked.entry.method.now;
              uri = asked.entry.uri.now;
              nonce = asked.entry.nonce.now;
              token = asked.entry.token.now;
            })
            proof.now result.0 result.1 self.new.last) }
        ensures unproved { result.0 ≢ FOW_OK → self.new.last ≡ None }
    {
        let Judged {
            status,
            fault,
            kept,
        } = self.judged_by(alloc, validator, proof, asked, now);
        self.last = kept;
        (status, fault)
    }
}

/// The claims that were accepted, where the token has the payload that was.
fn claims_beside<'a>(signed: &Signed<'_>, last: &'a Last) -> Option<&'a Claims>
    ensures { option_map (λ c. c.now) result ≡ claims_beside (token signed.now).payload
        (payload_kept last.now) (claims_kept last.now) }
{
    match last.payload() {
        Some(payload) => if signed.payload() == payload {
            last.claims()
        } else {
            None
        },
        None => None,
    }
}

impl State {
    /// The claims of the token that was accepted last; `None` where these octets are another one.
    ///
    /// # Errors
    /// Where memory was refused.
    fn claims_of_last(&self, alloc: Global, token: &[u8]) -> Result<Option<&Claims>, AllocError>
        ensures { IfOk result (λ c. option_map (λ it. it.now) c
            ≡ claims_of_last (token_of (documents self.now).policy token.now) self.now.last) }
    {
        match read_token(alloc, token, &self.grounds.documents().policy)? {
            Some(signed) => Ok(claims_beside(&signed, &self.last)),
            None => Ok(None),
        }
    }
}
