//! A verifier for Ed25519 signatures.

ghost use Rattle.std.specs.Prelude.{◌≡◌, ◌≤◌, ◌+◌, false};
ghost use Rattle.jwt_mac.specs.Verifying.{AnswersBy, key_octets, message_octets, signing_input};
ghost use Rattle.jwt_ed25519.specs.Meanings.{names_eddsa, accepts_ed25519};
ghost use Rattle.jwt_ed25519.specs.Room.{prepared_number, room};

use crate::held::PreparedKeys;
use crate::prepared::prepare;
use crate::verifying::{verifies, verifies_by};
use jwt_mac::{Alg, Answer, EdCurve, KeyView, Kind, Message, Verifier};
use std::alloc::Global;

/// Whether it is EdDSA.
fn is_eddsa(alg: Alg) -> bool
    ensures { result ≡ names_eddsa alg }
{
    matches!(alg.kind(), Kind::EdDsa)
}

/// Whether a signature is accepted.
fn is_accepted(alg: Alg, key: &KeyView, message: Message, signature: &[u8]) -> bool
    ensures { result
        ≡ accepts_ed25519 alg (key_octets key.now) (signing_input (message_octets message.entry))
        signature.now }
{
    let KeyView::Okp { curve, x } = key else {
        return false;
    };
    match (alg.kind(), *curve) {
        (Kind::EdDsa, EdCurve::Ed25519) => verifies(x, message.parts(), signature),
        _ => false,
    }
}

/// What is said of a signature.
fn answer(accepted: bool) -> Answer
    ensures { AnswersBy accepted false result }
{
    if accepted {
        Answer::Valid
    } else {
        Answer::Invalid
    }
}

/// A verifier for EdDSA with Ed25519 keys (RFC 8037, section 3.1; RFC 8032, section 5.1.7).
///
/// It answers Valid exactly where the key is of that curve, its octets decode to a point that isn't of small order, the signature
/// has 64 octets, its S is below the group order, and its R is the encoding of \[S\]B - \[k\]A, octet by octet. A key of another
/// curve is answered Invalid. It never answers NoMemory.
#[derive(Clone, Copy, Debug)]
pub struct Ed25519;

impl Verifier for Ed25519 {
    ghost use Rattle.jwt_ed25519.specs.Meanings.{ed25519_meaning};

    ghost meaning = { λ _. ed25519_meaning };

    fn names(&self, alg: Alg) -> bool {
        is_eddsa(alg)
    }

    fn verify(&self, alg: Alg, key: &KeyView, message: Message, signature: &[u8]) -> Answer {
        answer(is_accepted(alg, key, message, signature))
    }
}

/// [`Ed25519`], and some keys prepared: a signature by one of these takes a fraction of the time.
///
/// Its answers are those of [`Ed25519`], whatever is prepared. A key is found by its octets, compared to their end.
#[derive(Drop)]
pub struct PreparedEd25519 {
    keys: PreparedKeys,
    left: usize,
}

impl PreparedEd25519 {
    /// No key yet, and room for at most so many. It takes no memory.
    pub fn new(alloc: Global, most: usize) -> PreparedEd25519
        ensures none { prepared_number result ≡ 0 }
        ensures room { room result ≡ most }
    {
        PreparedEd25519 {
            keys: PreparedKeys::new(alloc),
            left: most,
        }
    }

    /// Prepares a key of Ed25519 beside the others. Any other key, one that encodes no point, one that is prepared already, one more
    /// than `most`, and one for which memory is refused is left unprepared.
    ///
    /// It takes some 140 KiB, and before the first key as much for the base point.
    pub fn prepare(&mut self, alloc: Global, key: &KeyView)
        ensures few { prepared_number self.new ≤ prepared_number self.old + 1 }
        ensures room { prepared_number self.new + room self.new ≡ prepared_number self.old + room self.old }
    {
        let left = self.left;
        if left == 0 {
            return;
        }
        let KeyView::Okp {
            curve: EdCurve::Ed25519,
            x,
        } = key
        else {
            return;
        };
        if let Ok(true) = prepare(alloc, &mut self.keys, x) {
            self.left = left - 1;
        }
    }

    /// Whether a signature is accepted.
    fn is_accepted(&self, alg: Alg, key: &KeyView, message: Message, signature: &[u8]) -> bool
        ensures { result
            ≡ accepts_ed25519 alg (key_octets key.now) (signing_input (message_octets message.entry))
            signature.now }
    {
        let KeyView::Okp { curve, x } = key else {
            return false;
        };
        match (alg.kind(), *curve) {
            (Kind::EdDsa, EdCurve::Ed25519) => {
                verifies_by(&self.keys, x, message.parts(), signature)
            }
            _ => false,
        }
    }
}

impl Verifier for PreparedEd25519 {
    ghost use Rattle.jwt_ed25519.specs.Meanings.{ed25519_meaning};

    ghost meaning = { λ _. ed25519_meaning };

    fn names(&self, alg: Alg) -> bool {
        is_eddsa(alg)
    }

    fn verify(&self, alg: Alg, key: &KeyView, message: Message, signature: &[u8]) -> Answer {
        answer(self.is_accepted(alg, key, message, signature))
    }
}

impl Ed25519 {
    /// The verifier with the first keys of a list prepared, at most so many: those that encode points, each once, in their order. Want
    /// of memory leaves keys unprepared, and changes no answer.
    pub fn prepared(alloc: Global, keys: &[KeyView], most: usize) -> PreparedEd25519
        ensures few { prepared_number result ≤ most }
    {
        let mut verifier = PreparedEd25519::new(alloc, most);
        for key in keys {
            verifier.prepare(alloc, key);
        }
        verifier
    }
}
