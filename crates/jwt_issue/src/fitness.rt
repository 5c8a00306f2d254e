//! The pairs of an algorithm and a key that may sign.
ghost use Rattle.std.specs.Prelude.{◌≡◌, option_map};
ghost use Rattle.jwt_keys.specs.Views.{key_parts};
ghost use Rattle.jwt_issue.specs.Issued.{secret_in, alg_agrees, may_sign, unfit};
ghost use Rattle.jwt_issue.specs.Views.{pair_of};

use crate::fault::IssueFault;
use jwt_keys::Key;
use jwt_mac::{Alg, KeyView};

/// The secret, if the key is one (RFC 7518, section 6.4).
pub(crate) fn secret<'a>(key: &'a Key) -> Option<&'a [u8]>
    ensures { option_map (λ k. k.now) result ≡ secret_in (key_parts key.entry.now).octets }
{
    match key.view() {
        KeyView::Oct { k } => Some(k),
        _ => None,
    }
}

/// Whether the key's `alg`, where present, is the algorithm.
fn is_for(alg: Alg, key: &Key) -> bool
    ensures { result ≡ alg_agrees alg (key_parts key.now).alg }
{
    match key.alg_text() {
        Some(text) => text == alg.text(),
        None => true,
    }
}

/// Whether the key may sign by the algorithm.
fn may_sign(alg: Alg, key: &Key) -> bool
    ensures { result ≡ may_sign (pair_of alg key.now) }
{
    match secret(key) {
        Some(k) => alg.digest() as usize <= k.len() && is_for(alg, key) && key.permits("sign"),
        None => false,
    }
}

/// Why pair `i` may not sign.
#[tactic(auto, unfolding(crate::specs::Issued::unfit))]
pub(crate) fn unfit(i: u32, alg: Alg, key: &Key) -> Option<IssueFault>
    ensures { result ≡ unfit i (pair_of alg key.now) }
{
    if !alg.is_hmac() {
        return Some(IssueFault::AlgNotHmac(i));
    }
    if !may_sign(alg, key) {
        return Some(IssueFault::KeyUnfit(i));
    }
    None
}
