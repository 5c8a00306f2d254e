//! Verifiers for RSA signatures.

ghost use Rattle.std.specs.Prelude.{◌≡◌, ◌≤◌, ◌+◌, false};
ghost use Rattle.jwt_mac.specs.Verifying.{AnswersBy, key_octets, message_octets, signing_input};
ghost use Rattle.jwt_rsa.specs.Meanings.{names_rs, names_ps, accepts_rs, accepts_ps};
ghost use Rattle.jwt_rsa.specs.Held.{prepared_number, room};

use crate::powers::{Modulus, PreparedModulus};
use crate::public_key::KeyOctets;
use crate::verifying;
use jwt_mac::{Alg, Answer, KeyView, Kind, Message, Verifier};
use std::alloc::Global;

/// Whether it is RS256, RS384 or RS512.
fn is_rs(alg: Alg) -> bool
    ensures { result ≡ names_rs alg }
{
    matches!(alg.kind(), Kind::Pkcs1(_))
}

/// Whether it is PS256, PS384 or PS512.
fn is_ps(alg: Alg) -> bool
    ensures { result ≡ names_ps alg }
{
    matches!(alg.kind(), Kind::Pss(_))
}

/// Whether a signature by RS256, RS384 or RS512 is accepted.
fn is_accepted_rs(
    alg: Alg,
    key: &KeyView,
    message: Message,
    signature: &[u8],
    prepared: &[PreparedModulus],
) -> bool
    ensures { result
        ≡ accepts_rs alg (key_octets key.now) (signing_input (message_octets message.entry))
        signature.now }
{
    let KeyView::Rsa { n, e } = key else {
        return false;
    };
    let key = KeyOctets { n, e, prepared };
    verifying::is_accepted_rs(alg, key, message.parts(), signature)
}

/// Whether a signature by PS256, PS384 or PS512 is accepted.
fn is_accepted_ps(
    alg: Alg,
    key: &KeyView,
    message: Message,
    signature: &[u8],
    prepared: &[PreparedModulus],
) -> bool
    ensures { result
        ≡ accepts_ps alg (key_octets key.now) (signing_input (message_octets message.entry))
        signature.now }
{
    let KeyView::Rsa { n, e } = key else {
        return false;
    };
    let key = KeyOctets { n, e, prepared };
    verifying::is_accepted_ps(alg, key, message.parts(), signature)
}

/// What is said of a signature.
fn answer(accepted: bool) -> Answer
    ensures { AnswersBy accepted false result }
{
    if accepted {
        Answer::Valid
    } else {
        Answer::Invalid
    }
}

/// A verifier for all of RS256, RS384, RS512, PS256, PS384 and PS512: what [`Pkcs1`] and [`Pss`] are for three each.
///
/// It answers Valid exactly where one of those two does that names the algorithm, and never NoMemory.
#[derive(Clone, Copy, Debug)]
pub struct Rsa;

impl Verifier for Rsa {
    ghost use Rattle.jwt_rsa.specs.Meanings.{rsa_meaning};

    ghost meaning = { λ _. rsa_meaning };

    fn names(&self, alg: Alg) -> bool {
        is_rs(alg) || is_ps(alg)
    }

    fn verify(&self, alg: Alg, key: &KeyView, message: Message, signature: &[u8]) -> Answer {
        answer(
            is_accepted_rs(alg, key, message, signature, &[])
                || is_accepted_ps(alg, key, message, signature, &[]),
        )
    }
}

/// A verifier for RS256, RS384 and RS512, RSASSA-PKCS1-v1_5 with SHA-2 (RFC 7518, section 3.3; RFC 8017, section 8.2.2).
///
/// It answers Valid exactly where the key is an RSA key that is taken, the signature has as many octets as the modulus and a
/// number less than it, and that number, raised to the exponent modulo the modulus, is the whole encoding of the message
/// (RFC 8017, section 9.2), by the hash function of the algorithm. Keys are taken with an odd modulus of 2,048 to 8,192 bits and
/// an odd exponent, at least 3 and of at most eight octets; zeros may lead both. It never answers NoMemory.
#[derive(Clone, Copy, Debug)]
pub struct Pkcs1;

impl Verifier for Pkcs1 {
    ghost use Rattle.jwt_rsa.specs.Meanings.{pkcs1_meaning};

    ghost meaning = { λ _. pkcs1_meaning };

    fn names(&self, alg: Alg) -> bool {
        is_rs(alg)
    }

    fn verify(&self, alg: Alg, key: &KeyView, message: Message, signature: &[u8]) -> Answer {
        answer(is_accepted_rs(alg, key, message, signature, &[]))
    }
}

/// A verifier for PS256, PS384 and PS512, RSASSA-PSS with SHA-2, MGF1 by the same hash function, and a salt as long as the
/// digest (RFC 7518, section 3.5; RFC 8017, section 8.1.2).
///
/// Keys are taken as [`Pkcs1`] takes them, and it never answers NoMemory.
#[derive(Clone, Copy, Debug)]
pub struct Pss;

impl Verifier for Pss {
    ghost use Rattle.jwt_rsa.specs.Meanings.{pss_meaning};

    ghost meaning = { λ _. pss_meaning };

    fn names(&self, alg: Alg) -> bool {
        is_ps(alg)
    }

    fn verify(&self, alg: Alg, key: &KeyView, message: Message, signature: &[u8]) -> Answer {
        answer(is_accepted_ps(alg, key, message, signature, &[]))
    }
}

/// [`Rsa`], and some keys prepared: a signature by one of these takes a tenth less.
///
/// Its answers are those of [`Rsa`], whatever is prepared. A key is found by the octets of its modulus, compared to their end.
#[derive(Drop)]
pub struct PreparedRsa {
    moduli: Vec<PreparedModulus>,
    left: usize,
}

impl PreparedRsa {
    /// No key yet, and room for at most so many. It takes no memory.
    pub fn new(alloc: Global, most: usize) -> PreparedRsa
        ensures none { prepared_number result ≡ 0 }
        ensures room { room result ≡ most }
    {
        PreparedRsa {
            moduli: Vec::new(alloc),
            left: most,
        }
    }

    /// Prepares an RSA key beside the others. Any other key, one that isn't taken, one more than `most`, and one for which memory is refused is
    /// left unprepared. It takes some 2 KiB.
    pub fn prepare(&mut self, key: &KeyView)
        ensures few { prepared_number self.new ≤ prepared_number self.old + 1 }
        ensures room { prepared_number self.new + room self.new ≡ prepared_number self.old + room self.old }
    {
        let left = self.left;
        if left == 0 {
            return;
        }
        let KeyView::Rsa { n, .. } = key else {
            return;
        };
        let Some(modulus) = Modulus::of(n) else {
            return;
        };
        if self.moduli.push(modulus.prepare()).is_ok() {
            self.left = left - 1;
        }
    }
}

impl Verifier for PreparedRsa {
    ghost use Rattle.jwt_rsa.specs.Meanings.{rsa_meaning};

    ghost meaning = { λ _. rsa_meaning };

    fn names(&self, alg: Alg) -> bool {
        is_rs(alg) || is_ps(alg)
    }

    fn verify(&self, alg: Alg, key: &KeyView, message: Message, signature: &[u8]) -> Answer {
        let prepared = self.moduli.as_slice();
        answer(
            is_accepted_rs(alg, key, message, signature, prepared)
                || is_accepted_ps(alg, key, message, signature, prepared),
        )
    }
}
