//! The proof of possession beside a token.

ghost use Rattle.std.specs.Prelude.{◌≡◌, ◌↔◌, IsTrue, IfOk, IfErr, map};
ghost use Rattle.jwt_service.specs.Paths.{uri_of};
ghost use Rattle.jwt_possession.specs.Possessions.{proved};
ghost use Rattle.jwt_service.specs.Proving.{Proves, IsNoProof, HasNonce, IsHeldAs};

use crate::call::Call;
use crate::path::{begins_with_slash, uri_of};
use crate::service::{Proofs, Service};
use jwt_mac::Verifier;
use jwt_policy::Claims;
use jwt_possession::{Access, Possession, ProofFault, Request, judge_proof};
use jwt_request::Scheme;
use std::alloc::Global;

/// Why the sender of a token hasn't proved to hold the key that it is bound to.
#[derive(Drop)]
pub enum ProvingFault<'s> {
    /// There is no header `DPoP`, or there are several.
    NotOne,
    /// The request's path doesn't begin with `/`.
    Path,
    /// The one proof is none for this request and this token.
    Proof(ProofFault<'s>),
    /// It hasn't the nonce that is asked for.
    Nonce,
    /// An allocation was refused.
    OutOfMemory,
}

/// The possession that these octets prove to this request with this token.
fn judged_proof<'s, 'a>(
    alloc: Global,
    proofs: &Proofs<'s>,
    verifiers: &[Box<dyn Verifier>],
    proof: &[u8],
    uri: &'a str,
    token: &'a [u8],
    claims: &'a Claims,
    call: &Call<'a>,
) -> Result<Possession, ProofFault<'s>>
    requires { uri.now ≡ uri_of proofs.now call.now }
    ensures proof { IfOk result (λ p. Proves proofs.now (map meaning verifiers.now) call.now token.now claims.now proof.now (proved p)) }
    ensures fault { IfErr result (IsNoProof proofs.now (map meaning verifiers.now) call.now token.now claims.now proof.now) }
{
    let request = Request {
        method: call.method,
        uri,
        nonce: None,
        access: Some(Access { token, claims }),
    };
    match judge_proof(
        alloc,
        proof,
        &request,
        proofs.policy,
        call.moment,
        verifiers,
    ) {
        Ok(possession) => Ok(possession),
        Err(fault) => Err(fault),
    }
}

/// The same, where each of what is looked at lives as long as it may.
fn proof_at<'s>(
    alloc: Global,
    proofs: &Proofs<'s>,
    verifiers: &[Box<dyn Verifier>],
    proof: &[u8],
    uri: &str,
    token: &[u8],
    claims: &Claims,
    call: &Call<'_>,
) -> Result<Possession, ProofFault<'s>>
    requires { uri.now ≡ uri_of proofs.now call.now }
    ensures proof { IfOk result (λ p. Proves proofs.now (map meaning verifiers.now) call.now token.now claims.now proof.now (proved p)) }
    ensures fault { IfErr result (IsNoProof proofs.now (map meaning verifiers.now) call.now token.now claims.now proof.now) }
{
    judged_proof(alloc, proofs, verifiers, proof, uri, token, claims, call)
}

/// Whether the proof has the nonce that is asked for.
fn has_nonce(proofs: &Proofs<'_>, possession: &Possession, call: &Call<'_>) -> bool
    ensures { IsTrue result ↔ HasNonce proofs.now call.now (proved possession.now).claims }
{
    match proofs.nonces {
        Some(nonces) => nonces.accepts(possession.claims(), call.moment),
        None => true,
    }
}

/// The possession that the request proves where its scheme asks for one.
pub(crate) fn held<'s>(
    alloc: Global,
    service: &Service<'s>,
    verifiers: &[Box<dyn Verifier>],
    scheme: Scheme,
    token: &[u8],
    claims: &Claims,
    call: &Call<'_>,
) -> Result<Option<Possession>, ProvingFault<'s>>
    ensures { IsHeldAs service.now (map meaning verifiers.now) call.now scheme token.now claims.now result }
{
    match scheme {
        Scheme::Bearer => return Ok(None),
        Scheme::Dpop => {}
    }
    let Some(proofs) = service.proofs else {
        return Err(ProvingFault::NotOne);
    };
    if call.proofs.len() != 1 {
        return Err(ProvingFault::NotOne);
    }
    let proof = call.proofs[0];
    if !begins_with_slash(call.path) {
        return Err(ProvingFault::Path);
    }
    let uri = match uri_of(alloc, &proofs, call) {
        Ok(uri) => uri,
        Err(_) => return Err(ProvingFault::OutOfMemory),
    };
    let uri = uri.as_str();
    let possession = match proof_at(alloc, &proofs, verifiers, proof, uri, token, claims, call) {
        Ok(possession) => possession,
        Err(fault) => return Err(ProvingFault::Proof(fault)),
    };
    if !has_nonce(&proofs, &possession, call) {
        return Err(ProvingFault::Nonce);
    }
    Ok(Some(possession))
}
