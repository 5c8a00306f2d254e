//! The algorithm of a signature (RFC 7515, section 4.1.1).

ghost use Rattle.std.specs.Prelude.{◌≡◌, Some, map, MatchResult};
ghost use Rattle.std.specs.List.{list_any};
ghost use Rattle.std.specs.Str.{bytes_eq};
ghost use Rattle.jwt_mac.specs.Algorithm.{name_of};
ghost use Rattle.jwt_jws.specs.Views.{parts};
ghost use Rattle.jwt_policy.specs.Bars.{alg, bar_of, can_verify, IsServed};

use crate::policy::Policy;
use crate::sig_fault::SigFault;
use jwt_jws::Signature;
use jwt_mac::{Alg, Verifier, first_for};

/// The algorithm that the protected header names (RFC 7515, section 4.1.1), `None` where it names none that [`Alg`] knows. It takes no memory.
pub fn known_alg(signature: &Signature<'_>) -> Option<Alg>
    ensures { result ≡ alg (parts signature.now) }
{
    match signature.alg_text() {
        Some(text) => Alg::from_text(text),
        None => None,
    }
}

/// Whether the algorithm is among these.
#[tactic(auto, using(std::proofs::lemmas::List::at_drop_more, std::proofs::lemmas::List::at_drop_all))]
fn is_allowed(algs: &[Alg], alg: Alg) -> bool
    ensures { result ≡ list_any (λ b. bytes_eq (name_of b) (name_of alg)) algs.now }
{
    for each in algs {
        if each.text() == alg.text() {
            return true;
        }
    }
    false
}

/// Whether signatures by the algorithm can be verified: it is HMAC, or a verifier names it. It takes no memory.
pub fn can_verify(verifiers: &[Box<dyn Verifier>], alg: Alg) -> bool
    ensures { result ≡ can_verify (map meaning verifiers.now) alg }
{
    alg.is_hmac() || first_for(verifiers, alg).is_some()
}

/// The algorithm of a signature, or the bar that its `alg` is. The text of `alg` is read once.
#[tactic(auto, unfolding(crate::specs::Bars::bar_of))]
pub(crate) fn served_alg(
    policy: &Policy,
    signature: &Signature<'_>,
    verifiers: &[Box<dyn Verifier>],
) -> Result<Alg, SigFault>
    ensures { MatchResult result
        (IsServed policy.now (parts signature.now) (map meaning verifiers.now))
        (λ fault. bar_of policy.now (parts signature.now) (map meaning verifiers.now)
        ≡ Some fault) }
{
    let Some(text) = signature.alg_text() else {
        return Err(SigFault::AlgMissing);
    };
    if text == "none" {
        return Err(SigFault::AlgNone);
    }
    let Some(named) = Alg::from_text(text) else {
        return Err(SigFault::AlgUnknown);
    };
    if !is_allowed(policy.algs(), named) {
        return Err(SigFault::AlgNotAllowed);
    }
    if !can_verify(verifiers, named) {
        return Err(SigFault::NoVerifier);
    }
    Ok(named)
}
