//! The verifiers of RSA, ECDSA and Ed25519 as one.

ghost use Rattle.std.specs.Prelude.{◌≡◌, ◌≤◌};
ghost use Rattle.jwt_built_in.specs.Held.{curve_keys, rsa_keys};
ghost use Rattle.jwt_mac.specs.Verifying.{AnswersBy, key_octets, message_octets};
ghost use Rattle.ecdsa.specs.jws.Meanings.{ecdsa_meaning};
ghost use Rattle.jwt_ed25519.specs.Meanings.{ed25519_meaning};
ghost use Rattle.jwt_rsa.specs.Meanings.{rsa_meaning};

use crate::prepared::{Prepared, some_can_be_prepared};
use ecdsa::jws::Ecdsa;
use jwt_ed25519::Ed25519;
use jwt_keys::KeySet;
use jwt_mac::{Alg, Answer, KeyView, Message, Verifier};
use jwt_rsa::Rsa;
use std::alloc::Global;
use std::sync::Arc;

/// How many keys of a key set are prepared unless somebody asks for another number: so many on elliptic curves, and so many of RSA, which
/// are counted apart, since preparing one of RSA gains a tenth, and one on a curve two thirds.
pub const PREPARED_KEYS: usize = 16;

/// A verifier of RS256 to RS512, PS256 to PS512, ES256 to ES512, and EdDSA by Ed25519: what `Rsa`, `Ecdsa` and `Ed25519` are
/// together. It never answers NoMemory.
///
/// Keys can be prepared: a signature by a prepared key of ECDSA or Ed25519 takes about a third of the time, one by a prepared RSA key a
/// tenth less, and the answers are the same, whatever is prepared. What is prepared stands in memory once, however often the verifier is shared.
#[derive(Drop)]
pub struct BuiltIn {
    prepared: Option<Arc<Prepared>>,
}

impl BuiltIn {
    /// With no key prepared. It takes no memory.
    pub fn plain() -> BuiltIn
        ensures curves { curve_keys result ≡ 0 }
        ensures rsa { rsa_keys result ≡ 0 }
    {
        BuiltIn { prepared: None }
    }

    /// With the first keys of a key set prepared: at most `most` on elliptic curves (P-256, P-384, P-521 and Ed25519), and at most `most` of
    /// RSA, in their order. Want of memory leaves keys unprepared, and so does a key that isn't on its curve; neither changes an answer.
    ///
    /// A key takes about 0.7 ms and 64 KiB on P-256, 3 ms and 144 KiB on P-384, 5 ms and 295 KiB on P-521, 140 KiB on Ed25519, and
    /// before the first key of a curve as much for its base point; an RSA key 2 KiB. A table is made in a vector that
    /// doubles, so it may have twice the room. So the dearest set of 16, all of P-521, takes some 80 ms and 10 MiB: who opens a key set of an
    /// issuer's choosing pays no more than that.
    pub fn prepared(alloc: Global, keys: &KeySet, most: usize) -> BuiltIn
        ensures curves { curve_keys result ≤ most }
        ensures rsa { rsa_keys result ≤ most }
    {
        if most == 0 || !some_can_be_prepared(keys) {
            return BuiltIn::plain();
        }
        match Arc::new(alloc, Prepared::of(alloc, keys, most)) {
            Ok(prepared) => BuiltIn {
                prepared: Some(prepared),
            },
            Err(_) => BuiltIn::plain(),
        }
    }

    /// The same verifier for another owner, with the same prepared keys. It takes no memory.
    pub fn share(&self) -> BuiltIn
        ensures curves { curve_keys result ≤ curve_keys self.now }
        ensures rsa { rsa_keys result ≤ rsa_keys self.now }
    {
        match &self.prepared {
            Some(prepared) => match Arc::try_clone(prepared) {
                Ok(prepared) => BuiltIn {
                    prepared: Some(prepared),
                },
                Err(_) => BuiltIn::plain(),
            },
            None => BuiltIn::plain(),
        }
    }

    /// What `Rsa` says of a signature.
    fn verify_rsa(&self, alg: Alg, key: &KeyView, message: Message, signature: &[u8]) -> Answer
        ensures { AnswersBy
            (rsa_meaning.accepts alg (key_octets key.now) (message_octets message.entry) signature.now)
            (rsa_meaning.may_lack alg (key_octets key.now) (message_octets message.entry) signature.now)
            result }
    {
        match &self.prepared {
            Some(prepared) => prepared.rsa.verify(alg, key, message, signature),
            None => Rsa.verify(alg, key, message, signature),
        }
    }

    /// What `Ecdsa` says of a signature.
    fn verify_ecdsa(&self, alg: Alg, key: &KeyView, message: Message, signature: &[u8]) -> Answer
        ensures { AnswersBy
            (ecdsa_meaning.accepts alg (key_octets key.now) (message_octets message.entry) signature.now)
            (ecdsa_meaning.may_lack alg (key_octets key.now) (message_octets message.entry) signature.now)
            result }
    {
        match &self.prepared {
            Some(prepared) => prepared.ecdsa.verify(alg, key, message, signature),
            None => Ecdsa.verify(alg, key, message, signature),
        }
    }

    /// What `Ed25519` says of a signature.
    fn verify_ed25519(&self, alg: Alg, key: &KeyView, message: Message, signature: &[u8]) -> Answer
        ensures { AnswersBy
            (ed25519_meaning.accepts alg (key_octets key.now) (message_octets message.entry) signature.now)
            (ed25519_meaning.may_lack alg (key_octets key.now) (message_octets message.entry) signature.now)
            result }
    {
        match &self.prepared {
            Some(prepared) => prepared.ed25519.verify(alg, key, message, signature),
            None => Ed25519.verify(alg, key, message, signature),
        }
    }
}

impl Verifier for BuiltIn {
    ghost use Rattle.jwt_built_in.specs.Meanings.{built_in_meaning};

    ghost meaning = { λ _. built_in_meaning };

    fn names(&self, alg: Alg) -> bool {
        Rsa.names(alg) || Ecdsa.names(alg) || Ed25519.names(alg)
    }

    fn verify(&self, alg: Alg, key: &KeyView, message: Message, signature: &[u8]) -> Answer {
        if Rsa.names(alg) {
            self.verify_rsa(alg, key, message, signature)
        } else if Ecdsa.names(alg) {
            self.verify_ecdsa(alg, key, message, signature)
        } else if Ed25519.names(alg) {
            self.verify_ed25519(alg, key, message, signature)
        } else {
            Answer::Invalid
        }
    }
}
