//! The advice on a policy and its keys.

ghost use Rattle.std.specs.Prelude.{◌≡◌, ◌==◌, false, IfOk, filter, map, nat_lt, not, slice_get};
ghost use Rattle.std.specs.List.{list_any};
ghost use Rattle.std.specs.Option.{option_map_or};
ghost use Rattle.jwt_mac.specs.Algorithm.{is_hmac_alg};
ghost use Rattle.jwt_keys.specs.KeySets.{key_set};
ghost use Rattle.jwt_keys.specs.Numbers.{numbers};
ghost use Rattle.jwt_keys.specs.Views.{key_parts};
ghost use Rattle.jwt_advice.specs.Uses.{key_count};
ghost use Rattle.jwt_advice.specs.Advised.{policy_advises, mixes, set_advises, lacks_key, shares_alg, concerns, concerns_signer, is_for_signing, is_twice, stands_twice, advises, every_advice, advice_name};

use crate::costs::{Cost, most};
use crate::refused_keys::{is_refused_ec, is_refused_okp};
use crate::rsa_keys::{is_refused_rsa, is_small_rsa};
use crate::secrets::{is_printable, is_short, is_uniform};
use crate::uses::{is_unused, key_count};
use jwt_keys::{Key, KeySet};
use jwt_mac::{Alg, Verifier};
use jwt_policy::{Mode, Policy, is_among};
use std::alloc::{AllocError, Global};

/// What ought to be written otherwise.
#[derive(Clone, Copy, Debug, PartialEq, Eq)]
pub enum Advice {
    /// `required` lacks `exp`: a token without it never expires.
    NoExp,
    /// No `issuers`: any issuer is allowed.
    NoIssuers,
    /// No `audiences`: every token with `aud` is refused.
    NoAudiences,
    /// No `typ`: a token of another purpose is told apart by its claims alone (RFC 8725, section 3.11).
    NoTyp,
    /// HMAC and public-key algorithms in one policy (RFC 8725, section 3.1).
    MixedAlgs,
    /// More than one signature in mode `any`: the others may be forged.
    UncheckedSignatures,
    /// An algorithm of the policy that no key can verify.
    AlgWithoutKey,
    /// Several keys for one algorithm, and signatures need no `kid`.
    NoKid,
    /// `work` is below the greatest cost, so a good token may be refused.
    LowWork,
    /// `max_calls` is below the greatest number of tries, so a good token may be refused.
    LowCalls,
    /// More than 32 tries that one token can cause.
    ManyCalls,
    /// A key that no algorithm of the policy can ever use.
    UnusedKey,
    /// A key whose `kid` another key has too.
    KidTwice,
    /// A secret whose octets are all alike.
    UniformSecret,
    /// A secret of printable characters alone, as a password has (RFC 8725, section 3.5).
    PrintableSecret,
    /// A secret of fewer than 32 octets, which no HMAC algorithm takes (RFC 7518, section 3.2).
    ShortSecret,
    /// An RSA key whose modulus has fewer than 256 octets (RFC 7518, section 3.3).
    SmallRsa,
    /// An RSA key by which the built-in verifiers accept no signature.
    RefusedRsa,
    /// An EC key that is no point of its curve: the built-in verifiers accept no signature by it.
    RefusedEc,
    /// A key of Ed448, or one of Ed25519 that doesn't decode or is of small order: the built-in verifiers accept no signature by it.
    RefusedOkp,
}

impl Advice {
    /// Its name, as it is printed.
    pub fn name(self) -> &'static str
        ensures { result.now ≡ advice_name self }
    {
        match self {
            Advice::NoExp => "NoExp",
            Advice::NoIssuers => "NoIssuers",
            Advice::NoAudiences => "NoAudiences",
            Advice::NoTyp => "NoTyp",
            Advice::MixedAlgs => "MixedAlgs",
            Advice::UncheckedSignatures => "UncheckedSignatures",
            Advice::AlgWithoutKey => "AlgWithoutKey",
            Advice::NoKid => "NoKid",
            Advice::LowWork => "LowWork",
            Advice::LowCalls => "LowCalls",
            Advice::ManyCalls => "ManyCalls",
            Advice::UnusedKey => "UnusedKey",
            Advice::KidTwice => "KidTwice",
            Advice::UniformSecret => "UniformSecret",
            Advice::PrintableSecret => "PrintableSecret",
            Advice::ShortSecret => "ShortSecret",
            Advice::SmallRsa => "SmallRsa",
            Advice::RefusedRsa => "RefusedRsa",
            Advice::RefusedEc => "RefusedEc",
            Advice::RefusedOkp => "RefusedOkp",
        }
    }
}

/// Each advice, in the order in which they are told.
pub const EVERY: [Advice; 20] = [
    Advice::NoExp,
    Advice::NoIssuers,
    Advice::NoAudiences,
    Advice::NoTyp,
    Advice::MixedAlgs,
    Advice::UncheckedSignatures,
    Advice::AlgWithoutKey,
    Advice::NoKid,
    Advice::LowWork,
    Advice::LowCalls,
    Advice::ManyCalls,
    Advice::UnusedKey,
    Advice::KidTwice,
    Advice::UniformSecret,
    Advice::PrintableSecret,
    Advice::ShortSecret,
    Advice::SmallRsa,
    Advice::RefusedRsa,
    Advice::RefusedEc,
    Advice::RefusedOkp,
];

/// What is to be advised of the policy and its keys, in order.
pub fn advices(
    alloc: Global,
    policy: &Policy,
    keys: &KeySet,
    verifiers: &[Box<dyn Verifier>],
) -> Result<Vec<Advice>, AllocError>
    ensures { IfOk result (λ list. list.items
        ≡ filter (λ advice. advises advice policy.now (map meaning verifiers.now)
        (key_set keys.now).keys) every_advice) }
{
    advices_among(alloc, &EVERY, policy, keys, verifiers)
}

/// Those of these that are to be advised, in order.
fn advices_among(
    alloc: Global,
    every: &[Advice],
    policy: &Policy,
    keys: &KeySet,
    verifiers: &[Box<dyn Verifier>],
) -> Result<Vec<Advice>, AllocError>
    ensures { IfOk result (λ list. list.items
        ≡ filter (λ advice. advises advice policy.now (map meaning verifiers.now)
        (key_set keys.now).keys) every.now) }
{
    let mut list = Vec::new(alloc);
    for advice in every {
        if advises(*advice, policy, keys, verifiers) {
            list.push(*advice)?;
        }
    }
    Ok(list)
}

/// Whether this is to be advised: of the policy, of the policy with its keys, or of one of the keys. It takes no memory.
pub fn advises(
    advice: Advice,
    policy: &Policy,
    keys: &KeySet,
    verifiers: &[Box<dyn Verifier>],
) -> bool
    ensures { result
        ≡ advises advice policy.now (map meaning verifiers.now) (key_set keys.now).keys }
{
    policy_advises(advice, policy)
        || set_advises(advice, policy, keys, verifiers)
        || concerns_some(advice, policy, keys, verifiers)
}

/// The numbers of the keys that the advice concerns, ascending; none where it concerns the policy, or the keys as a whole.
pub fn advised_keys(
    alloc: Global,
    advice: Advice,
    policy: &Policy,
    keys: &KeySet,
    verifiers: &[Box<dyn Verifier>],
) -> Result<Vec<u32>, AllocError>
    ensures { IfOk result (λ found. found.items
        ≡ numbers (concerns advice policy.now (map meaning verifiers.now) (key_set keys.now).keys)
        0 (key_set keys.now).keys) }
{
    let mut found = Vec::new(alloc);
    for j in 0..keys.len() {
        if concerns_at(advice, policy, keys, verifiers, j) {
            found.push(j)?;
        }
    }
    Ok(found)
}

/// Whether this is to be advised of the policy, whatever its keys. It takes no memory.
pub fn policy_advises(advice: Advice, policy: &Policy) -> bool
    ensures { result ≡ policy_advises advice policy.now }
{
    match advice {
        Advice::NoExp => !is_among(policy.required(), "exp"),
        Advice::NoIssuers => policy.issuers().is_empty(),
        Advice::NoAudiences => policy.audiences().is_empty(),
        Advice::NoTyp => policy.typ().is_none(),
        Advice::MixedAlgs => mixes(policy.algs()),
        Advice::UncheckedSignatures => policy.mode() == Mode::Any && policy.max_signatures() > 1,
        _ => false,
    }
}

/// Whether this is to be advised of the policy with its keys as a whole.
pub(crate) fn set_advises(
    advice: Advice,
    policy: &Policy,
    keys: &KeySet,
    verifiers: &[Box<dyn Verifier>],
) -> bool
    ensures { result
        ≡ set_advises advice policy.now (map meaning verifiers.now) (key_set keys.now).keys }
{
    match advice {
        Advice::AlgWithoutKey => lacks_key(policy.algs(), keys, verifiers),
        Advice::NoKid => !policy.need_kid() && shares_alg(policy.algs(), keys, verifiers),
        Advice::LowWork => policy.work() < most(Cost::Work, policy, keys, verifiers),
        Advice::LowCalls => match policy.max_calls() {
            Some(ceiling) => u64::from(ceiling) < most(Cost::Calls, policy, keys, verifiers),
            None => false,
        },
        Advice::ManyCalls => {
            let calls = most(Cost::Calls, policy, keys, verifiers);
            match policy.max_calls() {
                Some(ceiling) => ceiling > 32 && calls > 32,
                None => calls > 32,
            }
        }
        _ => false,
    }
}

/// Whether one of the algorithms is one that no key can verify.
#[tactic(auto, using(std::proofs::lemmas::List::at_drop_more, std::proofs::lemmas::List::at_drop_all))]
fn lacks_key(algs: &[Alg], keys: &KeySet, verifiers: &[Box<dyn Verifier>]) -> bool
    ensures { result
        ≡ lacks_key algs.now (map meaning verifiers.now) (key_set keys.now).keys }
{
    for alg in algs {
        if has_no_key(*alg, keys, verifiers) {
            return true;
        }
    }
    false
}

/// Whether one of the algorithms is one that two keys can verify.
#[tactic(auto, using(std::proofs::lemmas::List::at_drop_more, std::proofs::lemmas::List::at_drop_all))]
fn shares_alg(algs: &[Alg], keys: &KeySet, verifiers: &[Box<dyn Verifier>]) -> bool
    ensures { result
        ≡ shares_alg algs.now (map meaning verifiers.now) (key_set keys.now).keys }
{
    for alg in algs {
        if has_two_keys(*alg, keys, verifiers) {
            return true;
        }
    }
    false
}

/// Whether two keys can verify signatures by the algorithm.
fn has_two_keys(alg: Alg, keys: &KeySet, verifiers: &[Box<dyn Verifier>]) -> bool
    ensures { result
        ≡ nat_lt 1 (key_count (map meaning verifiers.now) (key_set keys.now).keys alg) }
{
    key_count(verifiers, keys, alg) > 1
}

/// Whether no key can verify signatures by the algorithm.
fn has_no_key(alg: Alg, keys: &KeySet, verifiers: &[Box<dyn Verifier>]) -> bool
    ensures { result
        ≡ (key_count (map meaning verifiers.now) (key_set keys.now).keys alg == 0) }
{
    key_count(verifiers, keys, alg) == 0
}

/// Whether the advice concerns the key.
fn concerns(
    advice: Advice,
    policy: &Policy,
    keys: &KeySet,
    verifiers: &[Box<dyn Verifier>],
    key: &Key,
) -> bool
    ensures { result ≡ concerns advice policy.now (map meaning verifiers.now)
        (key_set keys.now).keys (key_parts key.now) }
{
    is_for_signing(key) && concerns_signer(advice, policy, keys, verifiers, key)
}

/// Whether the key may sign or verify, as one for encryption may not.
pub fn is_for_signing(key: &Key) -> bool
    ensures { result ≡ is_for_signing (key_parts key.now) }
{
    key.permits("verify") || key.permits("sign")
}

/// Whether the advice concerns a key that may sign or verify.
fn concerns_signer(
    advice: Advice,
    policy: &Policy,
    keys: &KeySet,
    verifiers: &[Box<dyn Verifier>],
    key: &Key,
) -> bool
    ensures { result ≡ concerns_signer advice policy.now (map meaning verifiers.now)
        (key_set keys.now).keys (key_parts key.now) }
{
    match advice {
        Advice::UnusedKey => is_unused(policy, verifiers, key),
        Advice::KidTwice => is_twice(keys, key),
        Advice::UniformSecret => is_uniform(key.view()),
        Advice::PrintableSecret => is_printable(key.view()),
        Advice::ShortSecret => is_short(key.view()),
        Advice::SmallRsa => is_small_rsa(key.view()),
        Advice::RefusedRsa => is_refused_rsa(key.view()),
        Advice::RefusedEc => is_refused_ec(key.view()),
        Advice::RefusedOkp => is_refused_okp(key.view()),
        _ => false,
    }
}

/// Whether two keys or more have the key's `kid`.
fn is_twice(keys: &KeySet, key: &Key) -> bool
    ensures { result ≡ is_twice (key_set keys.now).keys (key_parts key.now) }
{
    match key.kid() {
        Some(kid) => stands_twice(keys, kid),
        None => false,
    }
}

/// Whether two keys or more have this `kid`.
fn stands_twice(keys: &KeySet, kid: &str) -> bool
    ensures { result ≡ stands_twice (key_set keys.now).keys kid.now }
{
    let Some(first) = keys.with_kid(kid, false, 0) else {
        return false;
    };
    keys.with_kid(kid, false, first + 1).is_some()
}

/// Whether the advice concerns the key with this number; false where there is none.
fn concerns_at(
    advice: Advice,
    policy: &Policy,
    keys: &KeySet,
    verifiers: &[Box<dyn Verifier>],
    number: u32,
) -> bool
    ensures { result ≡ option_map_or
        (concerns advice policy.now (map meaning verifiers.now) (key_set keys.now).keys)
        (slice_get (key_set keys.now).keys number) false }
{
    match keys.key(number) {
        Some(key) => concerns(advice, policy, keys, verifiers, key),
        None => false,
    }
}

/// Whether the advice concerns one of the keys.
fn concerns_some(
    advice: Advice,
    policy: &Policy,
    keys: &KeySet,
    verifiers: &[Box<dyn Verifier>],
) -> bool
    ensures { result ≡ list_any
        (concerns advice policy.now (map meaning verifiers.now) (key_set keys.now).keys)
        (key_set keys.now).keys }
{
    for j in 0..keys.len() {
        if concerns_at(advice, policy, keys, verifiers, j) {
            return true;
        }
    }
    false
}

/// Whether some of the algorithms are HMAC and some are not.
fn mixes(algs: &[Alg]) -> bool
    ensures { result ≡ mixes algs.now }
{
    has_hmac(algs) && has_public(algs)
}

/// Whether one of the algorithms is HMAC.
#[tactic(auto, using(std::proofs::lemmas::List::at_drop_more, std::proofs::lemmas::List::at_drop_all))]
fn has_hmac(algs: &[Alg]) -> bool
    ensures { result ≡ list_any is_hmac_alg algs.now }
{
    for alg in algs {
        if alg.is_hmac() {
            return true;
        }
    }
    false
}

/// Whether one of the algorithms is for public keys.
#[tactic(auto, using(std::proofs::lemmas::List::at_drop_more, std::proofs::lemmas::List::at_drop_all))]
fn has_public(algs: &[Alg]) -> bool
    ensures { result ≡ list_any (λ a. not (is_hmac_alg a)) algs.now }
{
    for alg in algs {
        if !alg.is_hmac() {
            return true;
        }
    }
    false
}
