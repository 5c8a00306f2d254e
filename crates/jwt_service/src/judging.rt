//! The verdict on the token that a request shows.

ghost use Rattle.std.specs.Prelude.{◌≡◌, ℕ, List, map, option_and_then, slice_get};
ghost use Rattle.jwt_jws.specs.Views.{token};
ghost use Rattle.jwt_verify.specs.Asks.{IsToken};
ghost use Rattle.jwt_service.specs.Judged.{alg_at, IsJudgedAs};

use crate::call::Call;
use crate::service::Issuer;
use jwt_jws::Signed;
use jwt_mac::{Alg, Verifier};
use jwt_policy::Claims;
use jwt_text::Scratch;
use jwt_verify::laws::tells_tokens;
use jwt_verify::{Fault, Report, Verdict, judge_token};
use std::alloc::Global;

/// The claims of a token that the policy accepts, and the algorithm of the signature that verified.
#[derive(Drop)]
pub(crate) struct Verified {
    pub(crate) claims: Claims,
    pub(crate) alg: Alg,
}

/// The algorithm that the header of this signature names.
pub(crate) fn alg_at(signed: &Signed<'_>, signature: u32) -> Option<Alg>
    ensures { result ≡ alg_at (token signed.now) signature }
{
    let signature = signed.signature(signature)?;
    let name = signature.alg_text()?;
    Alg::from_text(name)
}

/// What the issuer's policy accepts of a token that it has read, by the issuer's keys; else why it doesn't.
pub(crate) fn judged<'s>(
    alloc: Global,
    issuer: &Issuer<'s>,
    verifiers: &[Box<dyn Verifier>],
    signed: &Signed<'_>,
    call: &Call<'_>,
) -> Result<Verified, Fault<'s>>
    requires { (octets : List ℕ) × IsToken issuer.now.policy.now octets (token signed.now) }
    ensures { (octets : List ℕ) → IsToken issuer.now.policy.now octets (token signed.now)
        → IsJudgedAs issuer.now (map meaning verifiers.now) call.now octets result }
{
    tells_tokens();
    let mut budget = issuer.policy.budget();
    let mut scratch = Scratch::new(alloc);
    let Report {
        verdict,
        states: _,
        tries: _,
    } = judge_token(
        alloc,
        signed,
        issuer.keys,
        issuer.policy,
        call.moment,
        verifiers,
        &mut budget,
        &mut scratch,
    );
    match verdict {
        Verdict::Accepted {
            signature,
            claims,
            ..
        } => match alg_at(signed, signature) {
            Some(alg) => Ok(Verified { claims, alg }),
            None => unreachable!(),
        },
        Verdict::Refused(fault) => Err(fault),
    }
}
