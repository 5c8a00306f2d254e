//! The issuers of a service.

ghost use Rattle.std.specs.Prelude.{◌≡◌, ◌<◌, length, option_map, slice_index_or};
ghost use Rattle.serde_json.specs.Data.{Data};
ghost use Rattle.jwt_text.specs.Answers.{Answers, each};
ghost use Rattle.jwt_document.specs.Entries.{source_of, has_more, is_refreshed, are_public, unsuited, entry_in, entry_of};

use crate::fault::ServiceFault;
use crate::given::{any_hmac, keys_of};
use crate::tables::entry_fault;
use jwt_keys::KeySet;
use jwt_policy::{Policy, PolicyFault};
use jwt_text::{List, ObjectRef};
use std::alloc::Global;
use std::marker::Model;

/// Where the keys of an issuer come from.
#[derive(Clone, Copy, PartialEq, Eq)]
pub enum Source {
    /// From the key set in the document.
    Set,
    /// From the PEM text in the document.
    Pem,
    /// The secret in the document.
    Secret,
    /// From a file.
    File,
    /// From a URL.
    Url,
    /// From the URL that the issuer's metadata name.
    Discover,
}

/// An issuer: what is asked of its tokens, and by which keys.
#[derive(Drop)]
pub struct Entry {
    policy: Policy,
    source: Source,
    keys: Option<KeySet>,
}

impl Model for Entry {
    ghost use Rattle.std.specs.Prelude.{option_map};
    ghost use Rattle.jwt_keys.specs.KeySets.{key_set};
    ghost use Rattle.jwt_document.specs.Entries.{Issuer};

    ghost Value = { Issuer };

    ghost view = { λ e. record {
      policy = e.policy;
      source = e.source;
      keys = option_map key_set e.keys;
    } };
}

impl Entry {
    ghost use Rattle.jwt_keys.specs.KeySets.{key_set};

    /// What is asked of its tokens.
    pub fn policy(&self) -> &Policy
        ensures { result.now ≡ self.now.policy }
    {
        &self.policy
    }

    /// Where its keys come from.
    pub fn source(&self) -> Source
        ensures { result ≡ self.now.source }
    {
        self.source
    }

    /// Its keys, where the document has them as a set or a secret.
    pub fn keys(&self) -> Option<&KeySet>
        ensures { option_map (λ k. key_set k.now) result ≡ self.now.keys }
    {
        self.keys.as_ref()
    }
}

/// Where keys come from, where exactly one of the six says it.
fn source_of(keys: &ObjectRef<'_>) -> Option<Source>
    ensures { result ≡ source_of keys.now }
{
    match (
        keys.has("set"),
        keys.has("pem"),
        keys.has("secret"),
        keys.has("file"),
        keys.has("url"),
        keys.has("discover"),
    ) {
        (true, false, false, false, false, false) => Some(Source::Set),
        (false, true, false, false, false, false) => Some(Source::Pem),
        (false, false, true, false, false, false) => Some(Source::Secret),
        (false, false, false, true, false, false) => Some(Source::File),
        (false, false, false, false, true, false) => Some(Source::Url),
        (false, false, false, false, false, true) => Some(Source::Discover),
        _ => None,
    }
}

/// Whether an option stands there that keys from there haven't.
fn has_more(keys: &ObjectRef<'_>, source: Source) -> bool
    ensures { result ≡ has_more keys.now source }
{
    let fetching = keys.has("cool_down") || keys.has("timeout") || keys.has("http");
    match source {
        Source::Url | Source::Discover => false,
        Source::File => fetching,
        Source::Set | Source::Pem | Source::Secret => {
            fetching || keys.has("refresh_after") || keys.has("max_age")
        }
    }
}

/// Whether a file is looked at again.
fn is_refreshed(keys: &ObjectRef<'_>) -> bool
    ensures { result ≡ is_refreshed keys.now }
{
    match keys.whole("refresh_after") {
        Some(seconds) => 0 < seconds,
        None => false,
    }
}

/// Whether keys from there are public ones alone.
fn are_public(keys: &ObjectRef<'_>, source: Source) -> bool
    ensures { result ≡ are_public keys.now source }
{
    match source {
        Source::Pem | Source::Url | Source::Discover => true,
        Source::File => is_refreshed(keys),
        Source::Set | Source::Secret => false,
    }
}

/// Why a policy and where keys come from don't suit each other.
fn unsuited(
    number: usize,
    policy: &Policy,
    keys: &ObjectRef<'_>,
    source: Source,
) -> Option<ServiceFault>
    ensures { result ≡ unsuited number policy.now keys.now source }
{
    if has_more(keys, source) {
        return Some(ServiceFault::Together(number));
    }
    let named = policy.issuers().len();
    if (source == Source::Url && named == 0) || (source == Source::Discover && named != 1) {
        return Some(ServiceFault::Issuer(number));
    }
    if are_public(keys, source) && any_hmac(policy.algs()) {
        return Some(ServiceFault::NotPublic(number));
    }
    None
}

/// The issuer of an entry that the tables let through.
fn entry_in(alloc: Global, number: usize, members: &ObjectRef<'_>) -> Result<Entry, ServiceFault>
    ensures { Answers ServiceFault.OutOfMemory (λ e. e) result (entry_in number members.now) }
{
    let Some(policy) = members.object("policy") else {
        return Err(ServiceFault::EntryKind(number));
    };
    let policy = match Policy::in_service(
        alloc,
        &policy,
        members.flag("lasting").unwrap_or(false),
    ) {
        Ok(policy) => policy,
        Err(PolicyFault::OutOfMemory) => return Err(ServiceFault::OutOfMemory),
        Err(fault) => return Err(ServiceFault::Policy(number, fault)),
    };
    let Some(keys) = members.object("keys") else {
        return Err(ServiceFault::EntryKind(number));
    };
    let Some(source) = source_of(&keys) else {
        return Err(ServiceFault::Together(number));
    };
    if let Some(fault) = unsuited(number, &policy, &keys, source) {
        return Err(fault);
    }
    let keys = keys_of(alloc, number, &policy, &keys, source)?;
    Ok(Entry {
        policy,
        source,
        keys,
    })
}

/// The issuer of the entry of this number.
#[tactic(auto, unfolding(crate::specs::Entries::entry_of))]
fn entry_of(alloc: Global, list: &List<'_>, number: usize) -> Result<Entry, ServiceFault>
    requires { number < length list.now }
    ensures { (d : Data)
        → Answers ServiceFault.OutOfMemory (λ e. e) result
        (entry_of number (slice_index_or list.now number d)) }
{
    let Some(members) = list.object(number) else {
        return Err(ServiceFault::EntryKind(number));
    };
    match entry_fault(&members) {
        Some(fault) => Err(ServiceFault::entry(alloc, number, fault)),
        None => entry_in(alloc, number, &members),
    }
}

/// The issuers of a list of entries.
pub(crate) fn entries(alloc: Global, list: &List<'_>) -> Result<Vec<Entry>, ServiceFault>
    ensures { Answers ServiceFault.OutOfMemory (λ v. v.items) result (each entry_of 0 list.now) }
{
    let mut entries = Vec::new(alloc);
    for number in 0..list.len() {
        let entry = entry_of(alloc, list, number)?;
        entries.push(entry)?;
    }
    Ok(entries)
}
