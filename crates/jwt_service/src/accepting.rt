//! The token that a request shows, accepted.

ghost use Rattle.std.specs.Prelude.{◌≡◌, true, List, map};
ghost use Rattle.jwt_mac.specs.Verifying.{Meaning};
ghost use Rattle.jwt_jws.specs.Views.{token as token_view};
ghost use Rattle.jwt_verify.specs.Asks.{IsToken as IsReadToken};
ghost use Rattle.jwt_memory.specs.Entries.{HasRoomOf};
ghost use Rattle.jwt_memory.specs.Kept.{AreKept};
ghost use Rattle.jwt_memory.specs.Outcomes.{IsFound};
ghost use Rattle.jwt_service.specs.Asking.{IsAsked};
ghost use Rattle.jwt_service.specs.Admission.{IsAcceptedAs, IsShownToken, IsShownAs};
ghost use Rattle.jwt_service.specs.Judged.{IsJudgedAs};
ghost use Rattle.jwt_service.specs.Recalled.{IsMemoryOf, IsRecalled, AreStillKept};

use crate::admission::Refusal;
use crate::call::Call;
use crate::issuers::{ReadToken, chosen};
use crate::judging::{Verified, judged};
use crate::recalling::{RecalledVerdict, recalled};
use crate::service::{Issuer, Service};
use crate::shown::{Shown, shown_to};
use jwt_jws::Signed;
use jwt_mac::{Alg, Verifier};
use jwt_memory::Memory;
use jwt_policy::Claims;
use jwt_request::Scheme;
use jwt_verify::Fault;
use std::alloc::Global;

/// A token that was accepted: the scheme by which it was shown, its octets, the issuer by whose policy and keys it was, its claims, and the algorithm of the
/// signature that verified.
#[derive(Drop)]
pub(crate) struct AcceptedToken<'s, 'a> {
    pub(crate) scheme: Scheme,
    pub(crate) token: &'a [u8],
    pub(crate) issuer: Issuer<'s>,
    pub(crate) claims: Claims,
    pub(crate) alg: Alg,
}

/// A token that the request shows, and the issuer by whose policy and keys it is judged, which reads it so.
#[derive(Drop)]
pub(crate) struct ShownToken<'s, 'a> {
    pub(crate) scheme: Scheme,
    pub(crate) token: &'a [u8],
    pub(crate) issuer: Issuer<'s>,
    pub(crate) own: bool,
    pub(crate) signed: Signed<'a>,
}

/// The token that the request shows, as the issuer reads it by whose policy and keys it is judged.
fn shown_token<'s, 'a>(
    alloc: Global,
    service: &Service<'s>,
    call: &Call<'a>,
) -> Result<ShownToken<'s, 'a>, Refusal<'s>>
    requires { IsAsked service.now call.now }
    ensures { (verifiers : List Meaning) → IsShownAs service.now verifiers call.now result }
{
    let (scheme, token) = match shown_to(service, call) {
        Shown::Several => return Err(Refusal::Several),
        Shown::Absent => return Err(Refusal::Absent),
        Shown::Malformed(scheme) => return Err(Refusal::Malformed(scheme)),
        Shown::Token(scheme, token) => (scheme, token),
    };
    let ReadToken { issuer, own, read } = match chosen(alloc, service, token) {
        Ok(chosen) => chosen,
        Err(_) => return Err(Refusal::OutOfMemory),
    };
    match read {
        Ok(signed) => Ok(ShownToken {
            scheme,
            token,
            issuer,
            own,
            signed,
        }),
        Err(fault) => Err(Refusal::Refused(scheme, fault)),
    }
}

/// The token, where this is its issuer's verdict on it.
fn accepted_as<'s, 'a>(
    shown: ShownToken<'s, 'a>,
    verdict: Result<Verified, Fault<'s>>,
) -> Result<AcceptedToken<'s, 'a>, Refusal<'s>>
    ensures { (service : Service) (verifiers : List Meaning) (call : Call) → IsShownToken service call shown.entry
        → IsJudgedAs shown.entry.issuer verifiers call shown.entry.token.now verdict.entry → IsAcceptedAs service verifiers call result }
{
    let ShownToken {
        scheme,
        token,
        issuer,
        own: _,
        signed: _,
    } = shown;
    match verdict {
        Ok(Verified { claims, alg }) => Ok(AcceptedToken {
            scheme,
            token,
            issuer,
            claims,
            alg,
        }),
        Err(fault) => Err(Refusal::Refused(scheme, fault)),
    }
}

/// The token that the request shows, accepted by the policy and the keys of one of the service's issuers.
pub(crate) fn accepted<'s, 'a>(
    alloc: Global,
    service: &Service<'s>,
    verifiers: &[Box<dyn Verifier>],
    call: &Call<'a>,
) -> Result<AcceptedToken<'s, 'a>, Refusal<'s>>
    requires { IsAsked service.now call.now }
    ensures { IsAcceptedAs service.now (map meaning verifiers.now) call.now result }
{
    let shown = match shown_token(alloc, service, call) {
        Ok(shown) => shown,
        Err(refusal) => return Err(refusal),
    };
    let verdict = judged(alloc, &shown.issuer, verifiers, &shown.signed, call);
    accepted_as(shown, verdict)
}

/// The same, and whether its verdict was remembered.
#[derive(Drop)]
pub(crate) struct RecalledToken<'s, 'a> {
    pub(crate) accepted: Result<AcceptedToken<'s, 'a>, Refusal<'s>>,
    pub(crate) remembered: bool,
}

/// The verdict on a token of the service's own issuer by the memory, and on any other anew.
fn recalled_or_judged<'s>(
    alloc: Global,
    verifiers: &[Box<dyn Verifier>],
    memory: &mut Memory,
    shown: &ShownToken<'s, '_>,
    call: &Call<'_>,
) -> RecalledVerdict<'s>
    requires read { IsReadToken shown.now.issuer.policy.now shown.now.token.now (token_view shown.now.signed) }
    requires kept { shown.now.own ≡ true → AreKept shown.now.issuer.policy.now shown.now.issuer.keys.now (map meaning verifiers.now) memory.old }
    ensures judged { IsJudgedAs shown.now.issuer (map meaning verifiers.now) call.now shown.now.token.now result.verdict }
    ensures own { result.remembered ≡ true → shown.now.own ≡ true }
    ensures found { IsFound result.remembered memory.old shown.now.token.now shown.now.issuer.policy.now.run.work }
    ensures kept { AreStillKept (map meaning verifiers.now) shown.now memory.old memory.new }
    ensures room { HasRoomOf memory.new memory.old }
{
    if shown.own {
        recalled(
            alloc,
            &shown.issuer,
            verifiers,
            memory,
            shown.token,
            &shown.signed,
            call,
        )
    } else {
        RecalledVerdict {
            verdict: judged(alloc, &shown.issuer, verifiers, &shown.signed, call),
            remembered: false,
        }
    }
}

/// The token that the request shows, accepted by the policy and the keys of one of the service's issuers. One of its own issuer that the memory holds is accepted as
/// it was.
pub(crate) fn accepted_by_memory<'s, 'a>(
    alloc: Global,
    service: &Service<'s>,
    verifiers: &[Box<dyn Verifier>],
    memory: &mut Memory,
    call: &Call<'a>,
) -> RecalledToken<'s, 'a>
    requires asked { IsAsked service.now call.now }
    requires kept { IsMemoryOf service.now (map meaning verifiers.now) memory.old }
    ensures accepted { IsAcceptedAs service.now (map meaning verifiers.now) call.now result.accepted }
    ensures recalled { IsRecalled service.now call.now memory.old result.remembered }
    ensures kept { IsMemoryOf service.now (map meaning verifiers.now) memory.new }
    ensures room { HasRoomOf memory.new memory.old }
{
    let shown = match shown_token(alloc, service, call) {
        Ok(shown) => shown,
        Err(refusal) => return RecalledToken {
            accepted: Err(refusal),
            remembered: false,
        },
    };
    let RecalledVerdict {
        verdict,
        remembered,
    } = recalled_or_judged(alloc, verifiers, memory, &shown, call);
    RecalledToken {
        accepted: accepted_as(shown, verdict),
        remembered,
    }
}
