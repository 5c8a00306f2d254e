//! The keys that stand in the document in PEM.

ghost use Rattle.std.specs.Prelude.{◌≡◌, ◌≢◌, IfErr, IfOk, map, option_map};
ghost use Rattle.jwt_keys.specs.KeySets.{key_set};
ghost use Rattle.jwt_document.specs.Pem.{keys_at, pem_at, IsOfPem, IsOfIssuer, AreOf, IsFirstOf};
ghost use Rattle.jwt_document.specs.Views.{pem_fault, seen, set_fault};

use crate::entries::{Entry, Source};
use crate::fault::ServiceFault;
use crate::given::has_usable;
use jwt_jwk::{JwkFault, Kid, jwk_set_of_pem};
use jwt_keys::{KeySet, KeysFault};
use jwt_mac::Alg;
use jwt_text::ObjectRef;
use std::alloc::Global;

/// What the entry of this number says of its keys.
pub(crate) fn keys_at<'a>(members: &ObjectRef<'a>, number: usize) -> Option<ObjectRef<'a>>
    ensures { result ≡ keys_at number members.now }
{
    members.list("issuers")?.object(number)?.object("keys")
}

/// The text in PEM of the entry of this number.
fn pem_at<'a>(members: &ObjectRef<'a>, number: usize, source: Source) -> Option<&'a [u8]>
    ensures { option_map (λ t. t.now) result ≡ pem_at number members.now source }
{
    match source {
        Source::Pem => {
            let keys = keys_at(members, number)?;
            Some(keys.text("pem")?.as_bytes())
        }
        _ => None,
    }
}

/// The fault of a text in PEM.
fn pem_fault(number: usize, fault: JwkFault) -> ServiceFault
    ensures { result ≡ pem_fault number fault }
{
    match fault {
        JwkFault::OutOfMemory => ServiceFault::OutOfMemory,
        fault => ServiceFault::Pem(number, fault),
    }
}

/// The fault of the key set of its keys.
fn set_fault(number: usize, fault: KeysFault) -> ServiceFault
    ensures { result ≡ set_fault number fault }
{
    match fault {
        KeysFault::OutOfMemory => ServiceFault::OutOfMemory,
        fault => ServiceFault::Keys(number, fault),
    }
}

/// The keys of a text in PEM, of which one has to be of use.
fn pem_set(alloc: Global, number: usize, algs: &[Alg], text: &[u8]) -> Result<KeySet, ServiceFault>
    ensures { IsOfPem number algs.now text.now (seen key_set result) }
{
    let set = match jwk_set_of_pem(alloc, text, Kid::Thumbprint, None) {
        Ok(set) => set,
        Err(fault) => return Err(pem_fault(number, fault)),
    };
    let keys = match KeySet::read(alloc, set.as_slice()) {
        Ok(keys) => keys,
        Err(fault) => return Err(set_fault(number, fault)),
    };
    if has_usable(algs, &keys) {
        Ok(keys)
    } else {
        Err(ServiceFault::NoUsableKey(number))
    }
}

/// The keys of an issuer, where they stand in PEM.
fn issuer_set(
    alloc: Global,
    members: &ObjectRef<'_>,
    number: usize,
    issuer: &Entry,
) -> Result<Option<KeySet>, ServiceFault>
    ensures { IsOfIssuer members.now number issuer.now (seen (option_map key_set) result) }
{
    match pem_at(members, number, issuer.source()) {
        None => Ok(None),
        Some(text) => match pem_set(alloc, number, issuer.policy().algs(), text) {
            Ok(set) => Ok(Some(set)),
            Err(fault) => Err(fault),
        },
    }
}

/// The keys of each issuer, where they stand in PEM.
pub(crate) fn pem_sets(
    alloc: Global,
    members: &ObjectRef<'_>,
    issuers: &[Entry],
) -> Result<Vec<Option<KeySet>>, ServiceFault>
    ensures ok { IfOk result (λ v. AreOf members.now 0 issuers.now (map (option_map key_set) v.items)) }
    ensures err { IfErr result (λ f. f ≢ ServiceFault.OutOfMemory → IsFirstOf members.now 0 issuers.now f) }
{
    let mut sets = Vec::new(alloc);
    for number in 0..issuers.len() {
        let set = issuer_set(alloc, members, number, &issuers[number])?;
        sets.push(set)?;
    }
    Ok(sets)
}
