//! What belongs to this request.

ghost use Rattle.std.specs.Prelude.{◌≡◌, codes, IfOk};
ghost use Rattle.jwt_text.specs.Members.{text_at};
ghost use Rattle.jwt_policy.specs.Texts.{some_passes};
ghost use Rattle.jwt_text.specs.Rows.{first_row};
ghost use Rattle.jwt_possession.specs.Uris.{same_uri};
ghost use Rattle.jwt_possession.specs.Requests.{is_text, is_nonce, is_access, is_key, request_rows};

use crate::binding::{Binding, digest_text};
use crate::path::has_agreed_path;
use crate::uri::same_uri;
use jwt_policy::Claims;
use std::alloc::{AllocError, Global};

/// The access token that came with a proof.
#[derive(Clone, Copy)]
pub struct Access<'a> {
    /// Its octets, as they came.
    pub token: &'a [u8],
    /// Its claims, which a verdict of its own has accepted.
    pub claims: &'a Claims,
}

/// What is known of the request that a proof came with.
#[derive(Clone, Copy)]
pub struct Request<'a> {
    /// Its method (RFC 9110, section 9), as it came: methods have case.
    pub method: &'a str,
    /// The URI that it was sent to, as the client sees it, with scheme and host. Query and fragment may be there, and aren't looked at.
    pub uri: &'a str,
    /// The nonce that proofs have to have, where one was asked for (RFC 9449, sections 8 and 9).
    pub nonce: Option<&'a str>,
    /// The access token beside the proof; `None` where there is none, as in a request for one (RFC 9449, section 5). Then `ath` and
    /// `cnf` aren't looked at.
    pub access: Option<Access<'a>>,
}

/// Why a proof is none for this request.
#[derive(Clone, Copy, Debug, PartialEq, Eq)]
pub enum RequestFault {
    /// `htm` is absent, no text, or another method.
    OtherMethod,
    /// The path of the request's URI is none of which every reader makes the same, so nobody can say for which the proof is.
    PathForm,
    /// `htu` is absent, no text, has no normal form, or another than the request's URI; or that has none.
    OtherUri,
    /// A nonce was asked for, and `nonce` is absent, no text, or another.
    OtherNonce,
    /// An access token came with the proof, and `ath` is absent, no text, or the hash of another.
    OtherAccessToken,
}

impl RequestFault {
    ghost use Rattle.jwt_possession.specs.FaultNames.{request_fault_name};

    /// The name of the fault, that of its variant.
    pub fn name(self) -> &'static str
        ensures { result.now ≡ request_fault_name self }
    {
        match self {
            RequestFault::OtherMethod => "OtherMethod",
            RequestFault::PathForm => "PathForm",
            RequestFault::OtherUri => "OtherUri",
            RequestFault::OtherNonce => "OtherNonce",
            RequestFault::OtherAccessToken => "OtherAccessToken",
        }
    }
}

/// Whether the claim of this name is a text, and this one.
fn is_text(name: &str, claims: &Claims, wanted: &str) -> bool
    ensures { result ≡ is_text name.now claims.now wanted.now }
{
    match claims.object().text(name) {
        Some(text) => text == wanted,
        None => false,
    }
}

/// Whether `htu` is the request's URI.
fn is_uri(alloc: Global, claims: &Claims, request: &Request<'_>) -> Result<bool, AllocError>
    ensures { IfOk result (λ is. is
        ≡ some_passes (same_uri request.now.uri.now) (text_at (codes "htu") claims.now)) }
{
    match claims.object().text("htu") {
        Some(htu) => same_uri(alloc, request.uri, htu),
        None => Ok(false),
    }
}

/// Whether `nonce` is the one that was asked for.
fn is_nonce(claims: &Claims, request: &Request<'_>) -> bool
    ensures { result ≡ is_nonce claims.now request.now }
{
    match request.nonce {
        Some(nonce) => is_text("nonce", claims, nonce),
        None => true,
    }
}

/// Whether `ath` is the hash of the access token.
fn is_access(alloc: Global, claims: &Claims, request: &Request<'_>) -> Result<bool, AllocError>
    ensures { IfOk result (λ is. is ≡ is_access claims.now request.now) }
{
    match request.access {
        Some(access) => {
            let hash = digest_text(alloc, access.token)?;
            Ok(is_text("ath", claims, hash.as_str()))
        }
        None => Ok(true),
    }
}

/// Whether no access token came, or it is bound to the key of this thumbprint.
pub(crate) fn is_key(request: &Request<'_>, thumbprint: &str) -> bool
    ensures { result ≡ is_key request.now thumbprint.now }
{
    match request.access {
        Some(access) => match Binding::of(access.claims).key {
            Some(text) => text == thumbprint,
            None => false,
        },
        None => true,
    }
}

/// The first of the steps that doesn't hold of a proof's claims.
///
/// # Errors
/// Where an allocation was refused.
pub(crate) fn request_fault(
    alloc: Global,
    claims: &Claims,
    request: &Request<'_>,
) -> Result<Option<RequestFault>, AllocError>
    ensures { IfOk result (λ fault. fault
        ≡ first_row (request_rows claims.now request.now)) }
{
    if !is_text("htm", claims, request.method) {
        return Ok(Some(RequestFault::OtherMethod));
    }
    if !has_agreed_path(request.uri.as_bytes()) {
        return Ok(Some(RequestFault::PathForm));
    }
    if !is_uri(alloc, claims, request)? {
        return Ok(Some(RequestFault::OtherUri));
    }
    if !is_nonce(claims, request) {
        return Ok(Some(RequestFault::OtherNonce));
    }
    if !is_access(alloc, claims, request)? {
        return Ok(Some(RequestFault::OtherAccessToken));
    }
    Ok(None)
}
