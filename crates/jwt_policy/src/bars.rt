//! The bars of a signature.

ghost use Rattle.std.specs.Prelude.{◌≡◌, Some, None, map, MatchResult};
ghost use Rattle.jwt_jws.specs.Views.{parts};
ghost use Rattle.jwt_policy.specs.Bars.{alg, bar_of};

use crate::algorithm::served_alg;
use crate::crit::{is_crit_misshapen, is_crit_unknown};
use crate::header::{
    has_enc, has_key_url, is_kid_misshapen, is_nested, is_typ_mismatched, is_typ_misshapen,
    is_unencoded, lacks_kid,
};
use crate::policy::Policy;
use crate::sig_fault::SigFault;
use jwt_jws::Signature;
use jwt_mac::{Alg, Verifier};

/// The algorithm of a signature that nothing bars, or its [`bar`].
#[tactic(auto, unfolding(crate::specs::Bars::bar_of))]
pub fn alg_or_bar(
    policy: &Policy,
    signature: &Signature<'_>,
    verifiers: &[Box<dyn Verifier>],
) -> Result<Alg, SigFault>
    ensures { let b = bar_of policy.now (parts signature.now) (map meaning verifiers.now) in
        MatchResult result
        (λ named. (alg (parts signature.now) ≡ Some named) × (b ≡ None))
        (λ fault. b ≡ Some fault) }
{
    let named = served_alg(policy, signature, verifiers)?;
    if has_key_url(signature) {
        Err(SigFault::KeyUrl)
    } else if has_enc(signature) {
        Err(SigFault::EncHeader)
    } else if is_unencoded(signature) {
        Err(SigFault::Unencoded)
    } else if is_crit_misshapen(signature) {
        Err(SigFault::CritShape)
    } else if is_crit_unknown(policy, signature) {
        Err(SigFault::CritUnknown)
    } else if is_typ_misshapen(signature) {
        Err(SigFault::TypShape)
    } else if is_typ_mismatched(policy, signature) {
        Err(SigFault::TypMismatch)
    } else if is_nested(signature) {
        Err(SigFault::Nested)
    } else if is_kid_misshapen(signature) {
        Err(SigFault::KidShape)
    } else if lacks_kid(policy, signature) {
        Err(SigFault::KidMissing)
    } else {
        Ok(named)
    }
}

/// Why a signature is refused before any key is tried on it: the first bar of [`SigFault`], in the order of its variants, that
/// holds under the policy and with these verifiers; None where none holds. It never answers `NoKey` or `BadSignature`.
///
/// It takes no memory. Each test reads the header a fixed number of times, or once for each name in `crit`.
pub fn bar(
    policy: &Policy,
    signature: &Signature<'_>,
    verifiers: &[Box<dyn Verifier>],
) -> Option<SigFault>
    ensures { result ≡ bar_of policy.now (parts signature.now) (map meaning verifiers.now) }
{
    match alg_or_bar(policy, signature, verifiers) {
        Ok(_) => None,
        Err(fault) => Some(fault),
    }
}
