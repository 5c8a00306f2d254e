//! The keys that stand in the document, and the URL of those that don't.

ghost use Rattle.std.specs.Prelude.{◌≡◌, Ok, false, true, length, IfSome, option_map, slice_get};
ghost use Rattle.std.specs.List.{list_any};
ghost use Rattle.std.specs.Option.{option_map_or};
ghost use Rattle.jwt_mac.specs.Algorithm.{is_hmac_alg};
ghost use Rattle.jwt_policy.specs.Eligible.{is_for};
ghost use Rattle.jwt_jwk.specs.Jwk.{is_size};
ghost use Rattle.jwt_keys.specs.KeySets.{key_set};
ghost use Rattle.jwt_keys.specs.Views.{key_parts};
ghost use Rattle.jwt_text.specs.Answers.{Answers};
ghost use Rattle.jwt_document.specs.Given.{is_usable_for, has_usable, is_short, set_keys, secret_at, secret_set, secret_fault, url_fault, keys_of};

use crate::entries::Source;
use crate::fault::ServiceFault;
use jwt_jwk::write_jwk;
use jwt_keys::{Key, KeySet, KeysFault};
use jwt_mac::{Alg, KeyView};
use jwt_policy::{Policy, is_for};
use jwt_request::urls::url_of;
use jwt_text::{ObjectRef, object};
use std::alloc::Global;

/// Whether the key is for one of these algorithms.
fn is_for_some(algs: &[Alg], key: &Key) -> bool
    ensures { result ≡ list_any (is_for (key_parts key.now)) algs.now }
{
    for alg in algs {
        if is_for(key, *alg) {
            return true;
        }
    }
    false
}

/// Whether the key of this number verifies by one of these algorithms.
fn is_usable_at(algs: &[Alg], keys: &KeySet, number: u32) -> bool
    ensures { result ≡ option_map_or (is_usable_for algs.now) (slice_get (key_set keys.now).keys number) false }
{
    match keys.key(number) {
        Some(key) => key.permits("verify") && is_for_some(algs, key),
        None => false,
    }
}

/// Whether one of the keys verifies by one of these algorithms.
#[tactic(auto, using(std::proofs::lemmas::List::at_drop_more, std::proofs::lemmas::List::at_drop_all))]
pub(crate) fn has_usable(algs: &[Alg], keys: &KeySet) -> bool
    ensures { result ≡ has_usable algs.now (key_set keys.now).keys }
{
    for number in 0..keys.len() {
        if is_usable_at(algs, keys, number) {
            return true;
        }
    }
    false
}

/// Whether the algorithm is HMAC that asks for a secret of more octets than so many.
pub(crate) fn is_short_for(size: usize, alg: Alg) -> bool
    ensures { result ≡ is_short size alg }
{
    size < alg.digest() as usize
}

/// Whether one of these algorithms is.
fn is_short(size: usize, algs: &[Alg]) -> bool
    ensures { result ≡ list_any (is_short size) algs.now }
{
    for alg in algs {
        if is_short_for(size, *alg) {
            return true;
        }
    }
    false
}

/// Whether one of these is HMAC.
pub(crate) fn any_hmac(algs: &[Alg]) -> bool
    ensures { result ≡ list_any is_hmac_alg algs.now }
{
    for alg in algs {
        if alg.is_hmac() {
            return true;
        }
    }
    false
}

/// The keys of a set, of which one has to be of use.
fn set_keys(
    alloc: Global,
    number: usize,
    algs: &[Alg],
    members: &ObjectRef<'_>,
) -> Result<Option<KeySet>, ServiceFault>
    ensures { Answers ServiceFault.OutOfMemory (option_map key_set) result (set_keys number algs.now members.now) }
{
    let keys = match KeySet::of_members(alloc, members) {
        Ok(keys) => keys,
        Err(KeysFault::OutOfMemory) => return Err(ServiceFault::OutOfMemory),
        Err(fault) => return Err(ServiceFault::Keys(number, fault)),
    };
    if has_usable(algs, &keys) {
        Ok(Some(keys))
    } else {
        Err(ServiceFault::NoUsableKey(number))
    }
}

/// The secret, of 1 to 4,096 octets as its row says.
pub(crate) fn secret_at<'a>(members: &ObjectRef<'a>) -> Option<&'a str>
    ensures secret { option_map (λ s. s.now) result ≡ secret_at members.now }
    ensures size { IfSome result (λ s. is_size (length s.now) ≡ true) }
{
    let secret = members.text("secret")?;
    if 1 <= secret.len() && secret.len() <= 4_096 {
        Some(secret)
    } else {
        None
    }
}

/// The set of a secret.
#[tactic(auto, using(crate::proofs::SecretLemmas::set_read))]
pub(crate) fn secret_set(alloc: Global, secret: &str) -> Result<KeySet, ServiceFault>
    requires { is_size (length secret.now) ≡ true }
    ensures { Answers ServiceFault.OutOfMemory key_set result (Ok (secret_set secret.now)) }
{
    let key = KeyView::Oct {
        k: secret.as_bytes(),
    };
    let Ok(jwk) = write_jwk(alloc, key, None, None) else {
        return Err(ServiceFault::OutOfMemory);
    };
    let Ok(entry) = object(alloc, jwk.as_slice()) else {
        return Err(ServiceFault::OutOfMemory);
    };
    let keys = KeySet::of_entry(alloc, entry.lend())?;
    Ok(keys)
}

/// Why a secret isn't one for these algorithms.
fn secret_fault(number: usize, algs: &[Alg], secret: &str) -> Option<ServiceFault>
    ensures { result ≡ secret_fault number algs.now secret.now }
{
    if !any_hmac(algs) {
        Some(ServiceFault::NoUsableKey(number))
    } else if is_short(secret.len(), algs) {
        Some(ServiceFault::ShortSecret(number))
    } else {
        None
    }
}

/// Why keys aren't fetched from a URL.
fn url_fault(number: usize, http: bool, url: &str) -> Option<ServiceFault>
    ensures { result ≡ url_fault number http url.now }
{
    match url_of(url.as_bytes(), http) {
        Some(_) => None,
        None => Some(ServiceFault::Url(number)),
    }
}

/// The keys of an entry where they stand in the document as a set or a secret.
pub(crate) fn keys_of(
    alloc: Global,
    number: usize,
    policy: &Policy,
    members: &ObjectRef<'_>,
    source: Source,
) -> Result<Option<KeySet>, ServiceFault>
    ensures { Answers ServiceFault.OutOfMemory (option_map key_set) result
        (keys_of number policy.now members.now source) }
{
    match source {
        Source::Set => match members.object("set") {
            Some(set) => set_keys(alloc, number, policy.algs(), &set),
            None => Err(ServiceFault::EntryKind(number)),
        },
        Source::Secret => match secret_at(members) {
            Some(secret) => match secret_fault(number, policy.algs(), secret) {
                Some(fault) => Err(fault),
                None => Ok(Some(secret_set(alloc, secret)?)),
            },
            None => Err(ServiceFault::EntryKind(number)),
        },
        Source::Url => match members.text("url") {
            Some(url) => match url_fault(number, members.flag("http").unwrap_or(false), url) {
                Some(fault) => Err(fault),
                None => Ok(None),
            },
            None => Err(ServiceFault::EntryKind(number)),
        },
        _ => Ok(None),
    }
}
