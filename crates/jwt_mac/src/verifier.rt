//! Verifiers of signatures that the caller hands in.

ghost use Rattle.std.specs.Prelude.{◌≡◌, ◌+◌, ◌<◌, ◌^◌, false, map};
ghost use Rattle.std.specs.Option.{option_map};
ghost use Rattle.jwt_mac.specs.Algorithm.{is_hmac_alg};
ghost use Rattle.jwt_mac.specs.Verifying.{Meaning, AnswersBy, key_octets, message_octets, first_naming};

use crate::algorithm::Alg;
use crate::budget::Budget;
use crate::key_view::KeyView;
use crate::message::{Answer, Message};

/// A verifier of signatures by algorithms of its own, such as RSA or elliptic curves.
///
/// Its meaning never changes: the algorithms that it names, the signatures that it accepts, and where
/// it may lack memory, each by the octets of what it is asked about. Whether those are the signatures
/// of RFC 7518 or RFC 8037 is its own promise, and so is the least key size of RFC 7518, sections 3.3
/// and 3.5, and that a point is on its curve.
///
/// It gets the signature's octets as the token has them, of any length: those of ES256 are R and S,
/// joined (RFC 7518, section 3.4). The numbers of a key are as its document has them, leading zeros
/// included. A run asks it only about keys that suit the algorithm by kind, curve and members.
pub trait Verifier: Drop {
    ghost meaning: { Self → Meaning };

    /// Whether it verifies signatures by this algorithm.
    fn names(&self, alg: Alg) -> bool
        ensures { result ≡ (meaning self.now).named alg };

    /// What it says of a signature: Valid only where it accepts it, Invalid only where it doesn't,
    /// NoMemory only where it may lack memory.
    fn verify(&self, alg: Alg, key: &KeyView, message: Message, signature: &[u8]) -> Answer
        ensures { AnswersBy
            ((meaning self.now).accepts alg (key_octets key.now) (message_octets message.entry)
            signature.now)
            ((meaning self.now).may_lack alg (key_octets key.now) (message_octets message.entry)
            signature.now)
            result };
}

/// Asks a verifier about a signature. The budget counts one try and no octets.
///
/// The conditions: the algorithm isn't HMAC, and the budget has fewer than `u32::MAX` calls.
pub fn ask<B: Budget>(
    budget: &mut B,
    verifier: &Box<dyn Verifier>,
    alg: Alg,
    key: &KeyView,
    message: Message,
    signature: &[u8],
) -> Answer
    requires other { is_hmac_alg alg ≡ false }
    requires room { B.calls budget.old + 1 < 2 ^ 32 }

    ensures answer { AnswersBy
        ((meaning verifier.now).accepts alg (key_octets key.now) (message_octets message.entry)
        signature.now)
        ((meaning verifier.now).may_lack alg (key_octets key.now) (message_octets message.entry)
        signature.now)
        result }

    // What the budget counts.
    ensures octets { B.octets budget.new ≡ B.octets budget.old }
    ensures calls { B.calls budget.new ≡ B.calls budget.old + 1 }
    ensures ceiling { B.ceiling budget.new ≡ B.ceiling budget.old }
{
    budget.call();
    verifier.verify(alg, key, message, signature)
}

/// Whether this one names the algorithm.
fn is_for(verifier: &Box<dyn Verifier>, alg: Alg) -> bool
    ensures { result ≡ (meaning verifier.now).named alg }
{
    verifier.names(alg)
}

/// The first verifier that names the algorithm, which is the one that decides; None where none does.
pub fn first_for(verifiers: &[Box<dyn Verifier>], alg: Alg) -> Option<&Box<dyn Verifier>>
    ensures { option_map (λ v. meaning v.now) result
        ≡ first_naming (map meaning verifiers.now) alg }
{
    for verifier in verifiers {
        if is_for(verifier, alg) {
            return Some(verifier);
        }
    }
    None
}
