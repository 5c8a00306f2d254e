//! From the end of a run to the verdict.

ghost use Rattle.std.specs.Prelude.{◌≡◌, ◌≢◌};
ghost use Rattle.jwt_verify.specs.Verdict.{conclusion, unless_stopped};
ghost use Rattle.jwt_verify.specs.declared.report.Verdict.TheVariants.{Refused};
ghost use Rattle.jwt_verify.specs.declared.report.Fault.TheVariants.{OutOfMemory};
ghost use Rattle.jwt_verify.specs.SignatureOutcome.{signing_view};

use crate::report::{Fault, Verdict};
use crate::signature_outcome::Signing;
use crate::terms::Terms;
use crate::tries::{End, RunOutcome};
use jwt_policy::{ClaimFault, Claims, check};
use jwt_text::Scratch;
use std::alloc::Global;

/// The verdict, once every try is made: where the signatures are verified, the claims are read and held against the policy.
fn conclude<'p>(
    alloc: Global,
    terms: &Terms<'_, 'p, '_>,
    payload: &[u8],
    signing: Signing,
    scratch: &mut Scratch,
) -> Verdict<'p>
    ensures { result ≢ Refused OutOfMemory → result
        ≡ conclusion terms.now.policy.now terms.now.moment payload.now (signing_view signing) }
{
    let (signature, key) = match signing {
        Signing::VerifiedBy(signature, key) => (signature, key),
        Signing::Unverified(signature, reason) => {
            let fault = Fault::Signature(signature, reason);
            return Verdict::Refused(fault);
        }
    };
    match Claims::read_with(alloc, payload, scratch) {
        Err(ClaimFault::OutOfMemory) => Verdict::Refused(Fault::OutOfMemory),
        Err(fault) => Verdict::Refused(Fault::Claim(fault)),
        Ok(claims) => match check(terms.policy, &claims, terms.moment) {
            Some(fault) => Verdict::Refused(Fault::Claim(fault)),
            None => Verdict::Accepted {
                signature,
                key,
                claims,
            },
        },
    }
}

/// The verdict, once the run has ended.
pub(crate) fn verdict_after<'p>(
    alloc: Global,
    terms: &Terms<'_, 'p, '_>,
    payload: &[u8],
    outcome: RunOutcome,
    scratch: &mut Scratch,
) -> Verdict<'p>
    ensures { result ≢ Refused OutOfMemory → result
        ≡ unless_stopped outcome.end
        (conclusion terms.now.policy.now terms.now.moment payload.now
        (signing_view outcome.signing)) }
{
    match outcome.end {
        End::Done => conclude(alloc, terms, payload, outcome.signing, scratch),
        End::WorkExceeded(i, j) => Verdict::Refused(Fault::WorkExceeded(i, j)),
        End::CallsExceeded(i, j) => Verdict::Refused(Fault::CallsExceeded(i, j)),
        End::VerifierMemory(_, _) => Verdict::Refused(Fault::VerifierMemory),
    }
}
