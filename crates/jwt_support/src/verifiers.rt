//! Verifiers whose answers are known beforehand.
use jwt_mac::{Alg, Answer, KeyView, Message, Verifier};

/// What a verifier of the tests does.
#[derive(Clone, Copy)]
pub struct VerifierKind {
    /// The one algorithm that it names.
    pub alg: Alg,
    /// Whether it accepts signatures that are the public key, or none.
    pub accepts: bool,
    /// Whether it may lack memory.
    pub may_lack: bool,
    /// Whether it does, where it may.
    pub lacks: bool,
}

/// It accepts signatures by RS256 whose octets are the modulus.
pub const SAME: VerifierKind = VerifierKind {
    alg: Alg::RS256,
    accepts: true,
    may_lack: false,
    lacks: false,
};

/// A verifier of this kind.
#[derive(Drop)]
pub struct TestVerifier {
    pub kind: VerifierKind,
}

impl Verifier for TestVerifier {
    ghost use Rattle.jwt_support.specs.Verifiers.{test_meaning};

    ghost meaning = { λ v. test_meaning v.kind.alg v.kind.accepts v.kind.may_lack };

    fn names(&self, alg: Alg) -> bool {
        alg.text() == self.kind.alg.text()
    }

    fn verify(&self, _alg: Alg, key: &KeyView, _message: Message, signature: &[u8]) -> Answer {
        if self.kind.may_lack && self.kind.lacks {
            return Answer::NoMemory;
        }
        let public = match key {
            KeyView::Rsa { n, .. } => *n == signature,
            KeyView::Okp { x, .. } => *x == signature,
            _ => false,
        };
        if self.kind.accepts && public {
            Answer::Valid
        } else {
            Answer::Invalid
        }
    }
}
