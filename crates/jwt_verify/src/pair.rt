//! The try of one pair.

ghost use Rattle.std.specs.Prelude.{◌≡◌, ◌≤◌, ◌<◌, ◌+◌, ◌^◌, OnOk, OnErr, IfOk};
ghost use Rattle.jwt_mac.specs.Verifying.{AnswersBy};
ghost use Rattle.jwt_verify.specs.Pairs.{IsFor, pair_accepts, pair_may_lack, pair_cost};

use jwt_mac::{Alg, Answer, Budget, KeyView, Message, Spent, Verifier, ask, hmac};

/// How a signature is compared with a key.
#[derive(Clone, Copy)]
pub(crate) enum Way<'k, 'v> {
    /// With the tag of the message under this secret (RFC 7518, section 3.2).
    Tag(&'k [u8]),
    /// By this verifier, which is asked about this key.
    ByVerifier(&'v Box<dyn Verifier>, KeyView<'k>),
}

/// A signature and a key that is eligible for it, as they are tried.
#[derive(Clone, Copy)]
pub(crate) struct Pair<'s, 'k, 'v> {
    /// The number of the signature.
    pub(crate) signature: u32,
    /// The number of the key.
    pub(crate) key: u32,
    pub(crate) alg: Alg,
    pub(crate) message: Message<'s>,
    /// The signature's octets.
    pub(crate) octets: &'s [u8],
    pub(crate) way: Way<'k, 'v>,
}

/// Tries the pair: compares the signature with the tag, or asks the verifier.
///
/// Spent comes exactly where the cost exceeds what is left of the budget, and then the budget is as before.
pub(crate) fn try_pair<B: Budget>(pair: &Pair<'_, '_, '_>, budget: &mut B) -> Result<Answer, Spent>
    requires way { IsFor pair.now.alg pair.now.way }
    requires room { B.calls budget.old + 1 < 2 ^ 32 }
    ensures ceiling { B.ceiling budget.new ≡ B.ceiling budget.old }
    ensures spent { OnErr result (B.ceiling budget.old < B.octets budget.old + pair_cost pair.now) }
    ensures unchanged { OnErr result (budget.new ≡ budget.old) }
    ensures paid { OnOk result (B.octets budget.new ≡ B.octets budget.old + pair_cost pair.now) }
    ensures fits { OnOk result (B.octets budget.new ≤ B.ceiling budget.new) }
    ensures called { OnOk result (B.calls budget.new ≡ B.calls budget.old + 1) }
    ensures answer { IfOk result
        (AnswersBy (pair_accepts meaning pair.now) (pair_may_lack meaning pair.now)) }
{
    let Pair {
        alg,
        message,
        octets,
        ..
    } = *pair;
    match pair.way {
        Way::Tag(secret) => {
            let tag = hmac(budget, alg, secret, message.parts())?;
            if tag.equals(octets) {
                Ok(Answer::Valid)
            } else {
                Ok(Answer::Invalid)
            }
        }
        Way::ByVerifier(verifier, key) => Ok(ask(budget, verifier, alg, &key, message, octets)),
    }
}
