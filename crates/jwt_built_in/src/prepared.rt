//! Keys that are prepared, of each kind that there is a way of preparing for.

ghost use Rattle.std.specs.Prelude.{◌≡◌, ◌≤◌, ◌+◌};
ghost use Rattle.jwt_built_in.specs.Held.{curve_keys_in, rsa_keys_in};

use ecdsa::jws::PreparedEcdsa;
use jwt_ed25519::PreparedEd25519;
use jwt_keys::KeySet;
use jwt_mac::{EdCurve, KeyView};
use jwt_rsa::PreparedRsa;
use std::alloc::Global;

/// The verifiers, with their prepared keys.
#[derive(Drop)]
pub(crate) struct Prepared {
    pub(crate) ecdsa: PreparedEcdsa,
    pub(crate) ed25519: PreparedEd25519,
    pub(crate) rsa: PreparedRsa,
}

/// Whether it is a key on an elliptic curve that can be prepared: of ECDSA or Ed25519.
fn is_on_a_curve(key: &KeyView) -> bool {
    matches!(
        key,
        KeyView::Ec { .. }
            | KeyView::Okp {
                curve: EdCurve::Ed25519,
                ..
            }
    )
}

/// Whether it is an RSA key.
fn is_rsa(key: &KeyView) -> bool {
    matches!(key, KeyView::Rsa { .. })
}

/// Whether a key of the set can be prepared.
pub(crate) fn some_can_be_prepared(keys: &KeySet) -> bool {
    for key in keys.iter() {
        if is_on_a_curve(&key.view()) || is_rsa(&key.view()) {
            return true;
        }
    }
    false
}

impl Prepared {
    /// The first keys of the set that can be prepared: at most so many on elliptic curves, and at most so many of RSA.
    pub(crate) fn of(alloc: Global, keys: &KeySet, most: usize) -> Prepared
        ensures curves { curve_keys_in result ≤ most }
        ensures rsa { rsa_keys_in result ≤ most }
    {
        let mut prepared = Prepared {
            ecdsa: PreparedEcdsa::new(alloc, most),
            ed25519: PreparedEd25519::new(alloc, most),
            rsa: PreparedRsa::new(alloc, most),
        };
        let mut left = most;
        for key in keys.iter() {
            prepared.rsa.prepare(&key.view());
            if left > 0 && is_on_a_curve(&key.view()) {
                prepared.add(alloc, &key.view());
                left -= 1;
            }
        }
        prepared
    }

    /// Prepares a key on an elliptic curve, where it is on its curve and memory is there.
    fn add(&mut self, alloc: Global, key: &KeyView)
        ensures curves { curve_keys_in self.new ≤ curve_keys_in self.old + 1 }
        ensures rsa { self.new.rsa ≡ self.old.rsa }
    {
        match key {
            KeyView::Ec { .. } => self.ecdsa.prepare(alloc, key),
            _ => self.ed25519.prepare(alloc, key),
        }
    }
}
