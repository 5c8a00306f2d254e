//! A verifier for ECDSA signatures that knows some keys beforehand.

ghost use Rattle.std.specs.Prelude.{◌≡◌, ◌≤◌, ◌+◌, cond, IfOk, IfErr};
ghost use Rattle.jwt_mac.specs.Verifying.{key_octets, message_octets, signing_input};
ghost use Rattle.ecdsa.specs.jws.Meanings.{accepts_ecdsa};
ghost use Rattle.ecdsa.specs.jws.Held.{prepared_number, room};

use crate::jws::verifier::{Ecdsa, answer, is_ecdsa};
use crate::jws::verifying_by::{verifies_es256_by, verifies_es384_by, verifies_es512_by};
use crate::{PreparedKeys, prepare_p256, prepare_p384, prepare_p521};
use jwt_mac::{Alg, Answer, EcCurve, KeyView, Kind, Message, Verifier};
use std::alloc::{AllocError, Global};

/// [`Ecdsa`], and some keys prepared: a signature by one of these takes a third of the time or less.
///
/// Its answers are those of [`Ecdsa`], whatever is prepared. A key is found by the octets of its coordinates, compared to their ends.
#[derive(Drop)]
pub struct PreparedEcdsa {
    p256: PreparedKeys<4>,
    p384: PreparedKeys<6>,
    p521: PreparedKeys<9>,
    left: usize,
}

impl PreparedEcdsa {
    /// No key yet, and room for at most so many. It takes no memory.
    pub fn new(alloc: Global, most: usize) -> PreparedEcdsa
        ensures none { prepared_number result ≡ 0 }
        ensures room { room result ≡ most }
    {
        PreparedEcdsa {
            p256: PreparedKeys::new(alloc),
            p384: PreparedKeys::new(alloc),
            p521: PreparedKeys::new(alloc),
            left: most,
        }
    }

    /// Prepares a key of P-256, P-384 or P-521 beside the others. Any other key, one that isn't on its curve, one that is prepared
    /// already, one more than `most`, and one for which memory is refused is left unprepared.
    ///
    /// It takes about 0.7 ms and 64 KiB on P-256, 3 ms and 144 KiB on P-384, 5 ms and 295 KiB on P-521, and before the first key of a
    /// curve as much for its base point.
    pub fn prepare(&mut self, alloc: Global, key: &KeyView)
        ensures few { prepared_number self.new ≤ prepared_number self.old + 1 }
        ensures room { prepared_number self.new + room self.new ≡ prepared_number self.old + room self.old }
    {
        let left = self.left;
        if left == 0 {
            return;
        }
        if let Ok(true) = self.prepared(alloc, key) {
            self.left = left - 1;
        }
    }

    /// Whether one more key is prepared.
    #[tactic(auto, using(crate::proofs::Counted::one_more))]
    fn prepared(&mut self, alloc: Global, key: &KeyView) -> Result<bool, AllocError>
        ensures counted { IfOk result (λ added. prepared_number self.new ≡ prepared_number self.old + cond added 1 0) }
        ensures same { IfErr result (λ _. prepared_number self.new ≡ prepared_number self.old) }
        ensures room { room self.new ≡ room self.old }
    {
        let KeyView::Ec { curve, x, y } = key else {
            return Ok(false);
        };
        match *curve {
            EcCurve::P256 => prepare_p256(alloc, &mut self.p256, x, y),
            EcCurve::P384 => prepare_p384(alloc, &mut self.p384, x, y),
            EcCurve::P521 => prepare_p521(alloc, &mut self.p521, x, y),
        }
    }

    /// Whether a signature is accepted.
    fn is_accepted(&self, alg: Alg, key: &KeyView, message: Message, signature: &[u8]) -> bool
        ensures { result
            ≡ accepts_ecdsa alg (key_octets key.now) (signing_input (message_octets message.entry))
            signature.now }
    {
        let KeyView::Ec { curve, x, y } = key else {
            return false;
        };
        let parts = message.parts();
        match (alg.kind(), *curve) {
            (Kind::Ecdsa(EcCurve::P256), EcCurve::P256) => {
                verifies_es256_by(&self.p256, x, y, parts, signature)
            }
            (Kind::Ecdsa(EcCurve::P384), EcCurve::P384) => {
                verifies_es384_by(&self.p384, x, y, parts, signature)
            }
            (Kind::Ecdsa(EcCurve::P521), EcCurve::P521) => {
                verifies_es512_by(&self.p521, x, y, parts, signature)
            }
            _ => false,
        }
    }
}

impl Verifier for PreparedEcdsa {
    ghost use Rattle.ecdsa.specs.jws.Meanings.{ecdsa_meaning};

    ghost meaning = { λ _. ecdsa_meaning };

    fn names(&self, alg: Alg) -> bool {
        is_ecdsa(alg)
    }

    fn verify(&self, alg: Alg, key: &KeyView, message: Message, signature: &[u8]) -> Answer {
        answer(self.is_accepted(alg, key, message, signature))
    }
}

impl Ecdsa {
    /// The verifier with the first keys of a list prepared, at most so many: those on their curves, each once, in their order. Want of
    /// memory leaves keys unprepared, and changes no answer.
    pub fn prepared(alloc: Global, keys: &[KeyView], most: usize) -> PreparedEcdsa
        ensures few { prepared_number result ≤ most }
    {
        let mut verifier = PreparedEcdsa::new(alloc, most);
        for key in keys {
            verifier.prepare(alloc, key);
        }
        verifier
    }
}
