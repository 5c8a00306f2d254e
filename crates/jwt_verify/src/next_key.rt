//! The next eligible key of a signature: through the index where the signature has a `kid`.

ghost use Rattle.std.specs.Prelude.{◌≡◌, Some, None, slice_get, option_map, IfSome, MatchOption};
ghost use Rattle.jwt_mac.specs.Verifying.{key_octets};
ghost use Rattle.jwt_jws.specs.Token.{kid};
ghost use Rattle.jwt_jws.specs.Views.{parts};
ghost use Rattle.jwt_keys.specs.Numbers.{IsLeastFrom};
ghost use Rattle.jwt_keys.specs.KeySets.{key_set};
ghost use Rattle.jwt_keys.specs.Views.{key_parts};
ghost use Rattle.jwt_policy.specs.Bars.{alg};
ghost use Rattle.jwt_policy.specs.Eligible.{fits};
ghost use Rattle.jwt_verify.specs.TermsTable.{terms_table};
ghost use Rattle.jwt_verify.specs.Walk.{NoneEligible};
ghost use Rattle.jwt_verify.specs.Pairs.{IsLive, IsSecret, IsWay, IsNextPair};

use crate::live_signature::LiveSignature;
use crate::pair::{Pair, Way};
use crate::terms::Terms;
use jwt_keys::Key;
use jwt_mac::KeyView;
use jwt_policy::fits;

/// The first key at or after `from` that fits, with its number, of those that the index names for this `kid`.
fn next_named<'k>(
    terms: &Terms<'k, '_, '_>,
    live: &LiveSignature<'_, '_, '_>,
    name: &str,
    from: u32,
) -> Option<(u32, &'k Key)>
    requires algorithm { alg (parts live.now.signature.now) ≡ Some live.now.alg }
    requires kid { kid (parts live.now.signature.now) ≡ Some name.now }
    ensures number { IsLeastFrom (fits terms.now.policy.now (parts live.now.signature.now))
        (key_set terms.now.keys.now).keys from (option_map (λ found. found.0) result) }
    ensures key { IfSome result (λ found. slice_get (key_set terms.now.keys.now).keys found.0
        ≡ Some (key_parts found.1.now)) }
{
    let mut start = from;
    'named: while let Some((number, key)) = terms
        .keys
        .named(name, terms.policy.thumb_kid(), start)
    {
        if fits(terms.policy, live.signature, live.alg, key) {
            return Some((number, key));
        }
        start = number + 1;
    }
    None
}

/// The first key at or after `from` that fits, with its number, of all.
fn next_of_all<'k>(
    terms: &Terms<'k, '_, '_>,
    live: &LiveSignature<'_, '_, '_>,
    from: u32,
) -> Option<(u32, &'k Key)>
    requires { alg (parts live.now.signature.now) ≡ Some live.now.alg }
    ensures number { IsLeastFrom (fits terms.now.policy.now (parts live.now.signature.now))
        (key_set terms.now.keys.now).keys from (option_map (λ found. found.0) result) }
    ensures key { IfSome result (λ found. slice_get (key_set terms.now.keys.now).keys found.0
        ≡ Some (key_parts found.1.now)) }
{
    let mut number = from;
    'keys: while let Some(key) = terms.keys.key(number) {
        if fits(terms.policy, live.signature, live.alg, key) {
            return Some((number, key));
        }
        number += 1;
    }
    None
}

/// The first key at or after `from` that fits the signature, with its number. Where the signature has a `kid`, only the keys of that
/// name are looked at.
fn next_fitting<'k>(
    terms: &Terms<'k, '_, '_>,
    live: &LiveSignature<'_, '_, '_>,
    from: u32,
) -> Option<(u32, &'k Key)>
    requires { alg (parts live.now.signature.now) ≡ Some live.now.alg }
    ensures number { IsLeastFrom (fits terms.now.policy.now (parts live.now.signature.now))
        (key_set terms.now.keys.now).keys from (option_map (λ found. found.0) result) }
    ensures key { IfSome result (λ found. slice_get (key_set terms.now.keys.now).keys found.0
        ≡ Some (key_parts found.1.now)) }
{
    match live.signature.kid() {
        Some(name) => next_named(terms, live, name, from),
        None => next_of_all(terms, live, from),
    }
}

/// How the signature is compared with a key that suits its algorithm: by the verifier that is asked about it or, where the algorithm is
/// HMAC, with the tag under the secret.
fn way<'k, 'v>(live: &LiveSignature<'_, '_, 'v>, key: KeyView<'k>) -> Way<'k, 'v>
    requires { live.now.verifier ≡ None → IsSecret (key_octets key) }
    ensures { IsWay meaning (option_map (λ v. meaning v.now) live.now.verifier)
        (key_octets key.entry) result }
{
    match (live.verifier, key) {
        (Some(verifier), key) => Way::ByVerifier(verifier, key),
        (None, KeyView::Oct { k }) => Way::Tag(k),
        (None, _) => unreachable!(),
    }
}

/// The first eligible key of the signature at or after a number, as it is tried.
pub(crate) fn next_eligible<'s, 'k, 'v>(
    terms: &Terms<'k, '_, 'v>,
    live: &LiveSignature<'s, '_, 'v>,
    from: u32,
) -> Option<Pair<'s, 'k, 'v>>
    requires { IsLive meaning terms.now live.now }
    ensures { let t = terms_table meaning terms.now live.now.signed.now in
        MatchOption result
        (NoneEligible t live.now.number from t.keys)
        (IsNextPair meaning t live.now.number from) }
{
    let Some((number, key)) = next_fitting(terms, live, from) else {
        return None;
    };
    Some(Pair {
        signature: live.number,
        key: number,
        alg: live.alg,
        message: live.message(),
        octets: live.signature.octets(),
        way: way(live, key.view()),
    })
}
