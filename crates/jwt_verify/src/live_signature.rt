//! A signature that nothing bars.

ghost use Rattle.std.specs.Prelude.{◌≡◌, Some, MatchResult};
ghost use Rattle.jwt_mac.specs.Verifying.{message_octets};
ghost use Rattle.jwt_jws.specs.Token.{message_of};
ghost use Rattle.jwt_jws.specs.Views.{parts, token};
ghost use Rattle.jwt_verify.specs.TermsTable.{terms_table};
ghost use Rattle.jwt_verify.specs.Pairs.{IsThere, IsLiveOf};

use crate::terms::Terms;
use jwt_jws::{Signature, Signed};
use jwt_mac::{Alg, Message, Verifier, first_for};
use jwt_policy::laws::bar_is_first_row;
use jwt_policy::{SigFault, alg_or_bar};

/// A signature of a token, with its number, from 0.
#[derive(Clone, Copy)]
pub(crate) struct Numbered<'s, 't> {
    pub(crate) signed: &'s Signed<'t>,
    pub(crate) number: u32,
    pub(crate) signature: &'s Signature<'t>,
}

/// A signature of a token that nothing bars, with what each of its tries needs.
#[derive(Clone, Copy)]
pub(crate) struct LiveSignature<'s, 't, 'v> {
    pub(crate) signed: &'s Signed<'t>,
    pub(crate) number: u32,
    pub(crate) signature: &'s Signature<'t>,
    /// The algorithm that its protected header names.
    pub(crate) alg: Alg,
    /// The verifier that is asked; none where the algorithm is HMAC.
    pub(crate) verifier: Option<&'v Box<dyn Verifier>>,
}

impl<'s, 't, 'v> LiveSignature<'s, 't, 'v> {
    /// The signature, or what bars it. Its algorithm and its verifier are looked up once.
    pub(crate) fn of(
        terms: &Terms<'_, '_, 'v>,
        numbered: &Numbered<'s, 't>,
    ) -> Result<LiveSignature<'s, 't, 'v>, SigFault>
        requires { IsThere numbered.now }
        ensures { MatchResult result
            (IsLiveOf meaning terms.now numbered.now)
            (λ f. (terms_table meaning terms.now numbered.now.signed.now).bar numbered.now.number
            ≡ Some f) }
    {
        bar_is_first_row();
        let Numbered {
            signed,
            number,
            signature,
        } = *numbered;
        let alg = match alg_or_bar(terms.policy, signature, terms.verifiers) {
            Ok(alg) => alg,
            Err(fault) => return Err(fault),
        };
        let verifier = if alg.is_hmac() {
            None
        } else {
            first_for(terms.verifiers, alg)
        };
        Ok(LiveSignature {
            signed,
            number,
            signature,
            alg,
            verifier,
        })
    }

    /// The signing input, lent (RFC 7515, section 5.1).
    pub(crate) fn message(&self) -> Message<'s>
        ensures { message_octets result
            ≡ message_of (token self.now.signed.now) (parts self.now.signature.now) }
    {
        Message {
            protected: self.signature.protected_text(),
            payload: self.signed.payload_text(),
        }
    }
}
