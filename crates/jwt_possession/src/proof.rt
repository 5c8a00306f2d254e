//! Judges a proof of possession.

ghost use Rattle.std.specs.Prelude.{◌≡◌, ◌∷◌, [], List, ℕ, map, option_map, true, IfOk, IfErr};
ghost use Rattle.jwt_jws.specs.Views.{token};
ghost use Rattle.jwt_keys.specs.Keys.{KeyParts};
ghost use Rattle.jwt_keys.specs.KeySets.{key_set};
ghost use Rattle.jwt_verify.specs.Asks.{IsToken};
ghost use Rattle.jwt_possession.specs.Possessions.{owner_beside, proved, proof_times};
ghost use Rattle.jwt_possession.specs.Proofs.{HasOwnKey, IsSignedByOwnKey, IsProof, IsRefusal, IsProofFault};
ghost use Rattle.jwt_possession.specs.Requests.{is_key};

use crate::own_key::{KeyFault, own_key};
use crate::policy::ProofPolicy;
use crate::possession::Possession;
use crate::request::{Request, RequestFault, is_key, request_fault};
use jwt_jws::Signed;
use jwt_keys::KeySet;
use jwt_mac::Verifier;
use jwt_policy::{Claims, Policy};
use jwt_text::Scratch;
use jwt_verify::laws::tells_tokens;
use jwt_verify::{Fault, Report, Verdict, judge_token, read_token};
use std::alloc::Global;

/// Why a token is no proof for a request: the first cause in this order.
#[derive(Debug, Drop)]
pub enum ProofFault<'p> {
    /// The octets are no signed token, or too long for the policy (RFC 9449, section 4.3, step 2).
    NoToken(Fault<'p>),
    /// It isn't in compact form, or its header has no key that may prove anything (steps 2, 6 and 7).
    NoKey(KeyFault),
    /// An access token came with it that is bound to another key, or to none (step 12).
    OtherKey,
    /// The policy for proofs doesn't accept it by that key: its header, its signature, a claim that is absent or of another kind, or `iat`
    /// (steps 3 to 6 and 11).
    NotAccepted(Fault<'p>),
    /// It is for another request, or came with another access token (steps 8 to 10 and 12).
    OtherRequest(RequestFault),
    /// An allocation was refused. It may stand in place of any other answer.
    OutOfMemory,
}

impl<'p> ProofFault<'p> {
    ghost use Rattle.jwt_possession.specs.FaultNames.{proof_fault_name};

    /// The name of the fault, that of its cause.
    pub fn name(&self) -> &'static str
        ensures { result.now ≡ proof_fault_name self.now }
    {
        match self {
            ProofFault::NoToken(fault) => fault.name(),
            ProofFault::NoKey(fault) => fault.name(),
            ProofFault::OtherKey => "OtherKey",
            ProofFault::NotAccepted(fault) => fault.name(),
            ProofFault::OtherRequest(fault) => fault.name(),
            ProofFault::OutOfMemory => "OutOfMemory",
        }
    }
}

/// The claims of a token that was read, where the policy accepts it by its own key, the only one of this set.
fn accepted_by<'p>(
    alloc: Global,
    signed: &Signed<'_>,
    keys: &KeySet,
    policy: &'p Policy,
    now: i64,
    verifiers: &[Box<dyn Verifier>],
) -> Result<Claims, Fault<'p>>
    ensures accepted { IfOk result (λ claims. (x : List ℕ) (key : KeyParts)
        → IsToken policy.now x (token signed.now) → HasOwnKey (token signed.now) key
        → (key_set keys.now).keys ≡ key ∷ []
        → IsSignedByOwnKey policy.now (map meaning verifiers.now) now x key claims) }
    ensures fault { IfErr result (λ fault. (x : List ℕ) (key : KeyParts)
        → IsToken policy.now x (token signed.now) → (own : HasOwnKey (token signed.now) key)
        → (key_set keys.now).keys ≡ key ∷ []
        → IsRefusal policy.now (map meaning verifiers.now) now (token signed.now) own.signature key
        fault) }
{
    tells_tokens();
    let mut budget = policy.budget();
    let mut scratch = Scratch::new(alloc);
    let Report {
        verdict,
        states: _,
        tries: _,
    } = judge_token(
        alloc,
        signed,
        keys,
        policy,
        now,
        verifiers,
        &mut budget,
        &mut scratch,
    );
    match verdict {
        Verdict::Accepted { claims, .. } => Ok(claims),
        Verdict::Refused(fault) => Err(fault),
    }
}

/// A token that was accepted by the key in its own header.
#[derive(Drop)]
struct Own {
    /// The set of that one key.
    keys: KeySet,
    /// Its claims.
    claims: Claims,
}

/// The token that the octets are, accepted by the key in its own header. Where an access token came, it is bound to that key: this is looked at before the
/// signature, so that a proof of a key that has no token here costs no verification.
fn signed_by_own_key<'p>(
    alloc: Global,
    proof: &[u8],
    request: &Request<'_>,
    policy: &'p Policy,
    now: i64,
    verifiers: &[Box<dyn Verifier>],
) -> Result<Own, ProofFault<'p>>
    ensures own { IfOk result (λ own. (key : KeyParts) × ((key_set own.keys).keys ≡ key ∷ [])
        × IsSignedByOwnKey policy.now (map meaning verifiers.now) now proof.now key own.claims
        × (is_key request.now key.thumbprint ≡ true)) }
    ensures fault { IfErr result (IsProofFault policy.now (map meaning verifiers.now) now
        request.now proof.now) }
{
    let signed = match read_token(alloc, proof, policy) {
        Ok(signed) => signed,
        Err(fault) => return Err(ProofFault::NoToken(fault)),
    };
    let keys = match own_key(alloc, &signed) {
        Ok(keys) => keys,
        Err(fault) => return Err(ProofFault::NoKey(fault)),
    };
    if !is_key(request, thumbprint_of(&keys)) {
        return Err(ProofFault::OtherKey);
    }
    let claims = match accepted_by(alloc, &signed, &keys, policy, now, verifiers) {
        Ok(claims) => claims,
        Err(fault) => return Err(ProofFault::NotAccepted(fault)),
    };
    Ok(Own { keys, claims })
}

/// The thumbprint of the key of a set of one.
fn thumbprint_of(keys: &KeySet) -> &str
    ensures { (key : KeyParts) → (key_set keys.now).keys ≡ key ∷ [] → result.now ≡ key.thumbprint }
{
    match keys.key(0) {
        Some(key) => key.thumbprint_text(),
        None => "",
    }
}

/// The possession that the octets prove to this request at this moment: that its sender holds the key in their own header (RFC 9449,
/// section 4.3). `now` is in seconds since 1970-01-01T00:00:00Z. The first of `verifiers` that names the algorithm is asked, as by
/// [`judge`](jwt_verify::judge).
///
/// The header's key is tried on this proof, and on nothing else. Its `kid`, `alg`, `use` and `key_ops`, where they are there, count as
/// those of a key in a key set. The try is one call, which only a `max_calls` of 0 refuses, and costs no work of the policy's.
///
/// # Errors
/// The first that holds of `NoToken`, `NoKey`, `OtherKey`, `NotAccepted` and `OtherRequest`. `OutOfMemory` comes where an allocation was refused, by
/// itself or as that of `NoToken`, `NoKey` and `NotAccepted`, in place of any other answer.
pub fn judge_proof<'p>(
    alloc: Global,
    proof: &[u8],
    request: &Request<'_>,
    policy: &'p ProofPolicy,
    now: i64,
    verifiers: &[Box<dyn Verifier>],
) -> Result<Possession, ProofFault<'p>>
    ensures proof { IfOk result (λ p. (key : KeyParts) × ((proved p).thumbprint ≡ key.thumbprint)
        × IsProof policy.now (map meaning verifiers.now) now request.now proof.now key
        (proved p).claims) }
    ensures owner { IfOk result (λ p. (proved p).owner
        ≡ owner_beside (option_map (λ a. a.claims.now) request.now.access) (proved p).thumbprint) }
    ensures times { IfOk result (λ p. (proved p).times ≡ proof_times policy.now (proved p).claims) }
    ensures fault { IfErr result (IsProofFault policy.now (map meaning verifiers.now) now request.now
        proof.now) }
{
    let Own { keys, claims } = match signed_by_own_key(
        alloc,
        proof,
        request,
        policy.policy(),
        now,
        verifiers,
    ) {
        Ok(own) => own,
        Err(fault) => return Err(fault),
    };
    match request_fault(alloc, &claims, request) {
        Ok(None) => {}
        Ok(Some(fault)) => return Err(ProofFault::OtherRequest(fault)),
        Err(_) => return Err(ProofFault::OutOfMemory),
    }
    match Possession::of(alloc, thumbprint_of(&keys), claims, request.access, policy) {
        Ok(possession) => Ok(possession),
        Err(_) => Err(ProofFault::OutOfMemory),
    }
}
