//! The eligible pairs of a signature and a key.

ghost use Rattle.std.specs.Prelude.{◌≡◌, Some, map};
ghost use Rattle.jwt_mac.specs.Verifying.{key_octets};
ghost use Rattle.jwt_jws.specs.Views.{parts};
ghost use Rattle.jwt_keys.specs.Views.{key_parts};
ghost use Rattle.jwt_policy.specs.Bars.{alg};
ghost use Rattle.jwt_policy.specs.Eligible.{suits, is_for, answers_to, fits, eligible_for};

use crate::bars::alg_or_bar;
use crate::policy::Policy;
use jwt_jws::Signature;
use jwt_keys::Key;
use jwt_mac::{Alg, KeyView, Kind, Verifier};

/// Whether the key is of the kind, curve and size that the algorithm asks for (RFC 7518, sections 3.2 to 3.5; RFC 8037,
/// section 3.1). The least size of an RSA key is the verifier's to ask for.
fn suits(alg: Alg, key: KeyView<'_>) -> bool
    ensures { result ≡ suits alg (key_octets key.entry) }
{
    match (alg.kind(), key) {
        (Kind::Hmac(hash), KeyView::Oct { k }) => k.len() >= hash.octets(),
        (Kind::Pkcs1(_) | Kind::Pss(_), KeyView::Rsa { .. }) => true,
        (Kind::Ecdsa(asked), KeyView::Ec { curve, .. }) => asked == curve,
        (Kind::EdDsa, KeyView::Okp { .. }) => true,
        _ => false,
    }
}

/// Whether the key is for this algorithm: it is of the kind, curve and size that the algorithm asks for (RFC 7518, section 3.1), and
/// its own `alg`, where present, names this algorithm (RFC 7517, section 4.4). It takes no memory.
pub fn is_for(key: &Key, alg: Alg) -> bool
    ensures { result ≡ is_for (key_parts key.now) alg }
{
    suits(alg, key.view())
        && match key.alg_text() {
            Some(text) => alg.text() == text,
            None => true,
        }
}

/// Whether the key answers to the signature's `kid`, where it has one.
fn answers_to(policy: &Policy, signature: &Signature<'_>, key: &Key) -> bool
    ensures { result ≡ answers_to policy.now (parts signature.now) (key_parts key.now) }
{
    let Some(kid) = signature.kid() else {
        return true;
    };
    match key.kid() {
        Some(own) => kid == own,
        None => policy.thumb_kid() && kid.as_bytes() == key.thumbprint(),
    }
}

/// What [`eligible`] asks of the pair, the bar of the signature aside. A run computes [`alg_or_bar`] once for a signature and this
/// once for each of its keys. It takes no memory.
///
/// The condition: `named` is the algorithm that the signature's protected header names.
pub fn fits(policy: &Policy, signature: &Signature<'_>, named: Alg, key: &Key) -> bool
    requires { alg (parts signature.now) ≡ Some named }
    ensures { result ≡ fits policy.now (parts signature.now) (key_parts key.now) }
{
    is_for(key, named) && key.permits("verify") && answers_to(policy, signature, key)
}

/// Whether the key may be tried on the signature. All of these hold:
///
/// - the signature has no [`bar`];
/// - the key's kind, curve and size are those of `alg` (RFC 7518, section 3.1): `oct` of at least 32, 48 or 64 octets for HS256,
///   HS384 or HS512, RSA for RS and PS, EC on P-256, P-384 or P-521 for ES256, ES384 or ES512, OKP for EdDSA;
/// - the key's `alg`, where present, is that of the signature, its `use`, where present, is `sig`, and its `key_ops`, where
///   present, holds `verify` (RFC 7517, sections 4.2 to 4.4);
/// - where the signature has a `kid`, the key has the same one, or it has none, the policy has `thumb_kid` and the key's
///   thumbprint is the `kid` (RFC 7517, section 4.5; RFC 7638).
///
/// It takes no memory.
#[tactic(auto, unfolding(crate::specs::Eligible::eligible_for))]
pub fn eligible(
    policy: &Policy,
    signature: &Signature<'_>,
    key: &Key,
    verifiers: &[Box<dyn Verifier>],
) -> bool
    ensures { result
        ≡ eligible_for policy.now (parts signature.now) (key_parts key.now)
        (map meaning verifiers.now) }
{
    match alg_or_bar(policy, signature, verifiers) {
        Ok(named) => fits(policy, signature, named, key),
        Err(_) => false,
    }
}
