//! A key set: its readable keys in order, found by number and by name.

ghost use Rattle.std.specs.Prelude.{◌≡◌, ◌≤◌, ◌<◌, ◌&&◌, ◌↔◌, ◌∷◌, [], length, map, Err, IfOk, IfSome, IsTrue, Some, slice_get, option_map};
ghost use Rattle.std.specs.Slice.Iter.{iter_rest};
ghost use Rattle.serde_json.specs.Data.{object};
ghost use Rattle.jwt_keys.specs.Keys.{has_thumbprint, has_name, secret_length};
ghost use Rattle.jwt_keys.specs.Numbers.{IsLeastFrom};
ghost use Rattle.jwt_keys.specs.Views.{IsIndex, key_parts};

use crate::entry::add_entry;
use crate::fault::KeysFault;
use crate::index::{Index, earlier, first_from};
use crate::key::Key;
use crate::skip::Skip;
use jwt_text::{LONGEST_KEY_SET, ObjectRef, TextFault, object};
use std::alloc::{AllocError, Global};
use std::slice::Iter;

/// The greatest number of entries of a key set.
const MAX_ENTRIES: usize = 1024;

/// The readable keys of a key set document, numbered from 0 in the order of their entries, and the entries that were
/// skipped (RFC 7517, section 5).
#[derive(Drop)]
pub struct KeySet {
    pub(crate) keys: Vec<Key>,
    pub(crate) skipped: Vec<Skip>,
    pub(crate) index: Index,
    ghost few: { length keys.items ≤ 1024 },
    ghost indexed: { IsIndex index keys.items },
}

impl KeySet {
    ghost use Rattle.jwt_text.specs.Answers.{Answers};
    ghost use Rattle.jwt_keys.specs.KeySets.{key_list, key_set_of, set_in_members, key_set};

    /// The key set of a document in UTF-8: an object with the list `keys`, of at most 1,024 entries, in at most
    /// 4,194,304 octets (RFC 7517, section 5). An entry that is no readable key is skipped and never refuses the set.
    ///
    /// # Errors
    /// The first that holds of `TooLong`, more octets; `Json`, no JSON text; `NotKeySet`, no object; `NameTwice`, a
    /// name that stands twice in one object, at any depth; `NotKeySet`, no list `keys`; `TooManyKeys`, more entries.
    /// `OutOfMemory` comes where an allocation was refused, in place of any other answer but `TooLong`.
    #[tactic(auto, unfolding(crate::specs::KeySets::key_set_of))]
    pub fn read(alloc: Global, octets: &[u8]) -> Result<KeySet, KeysFault>
        ensures answer { Answers KeysFault.OutOfMemory key_set result (key_set_of octets.now) }
        ensures too_long { LONGEST_KEY_SET < length octets.now → result ≡ Err KeysFault.TooLong }
    {
        if octets.len() > LONGEST_KEY_SET as usize {
            return Err(KeysFault::TooLong);
        }
        let document = match object(alloc, octets) {
            Ok(document) => document,
            Err(TextFault::OutOfMemory) => return Err(KeysFault::OutOfMemory),
            Err(TextFault::NotObject) => return Err(KeysFault::NotKeySet),
            Err(TextFault::NameTwice) => return Err(KeysFault::NameTwice),
            Err(_) => return Err(KeysFault::Json),
        };
        KeySet::of_members(alloc, &document.lend())
    }

    /// The key set of these members, as [`KeySet::read`] reads those of a document.
    ///
    /// # Errors
    /// `NotKeySet`, no list `keys`; `TooManyKeys`, more than 1,024 entries; `OutOfMemory`, where an allocation was refused.
    pub fn of_members(alloc: Global, members: &ObjectRef<'_>) -> Result<KeySet, KeysFault>
        ensures { Answers KeysFault.OutOfMemory key_set result (set_in_members members.now) }
    {
        let Some(entries) = members.list("keys") else {
            return Err(KeysFault::NotKeySet);
        };
        if entries.len() > MAX_ENTRIES {
            return Err(KeysFault::TooManyKeys);
        }
        match KeySet::read_entries(alloc, &entries) {
            Ok(keys) => Ok(keys),
            Err(_) => Err(KeysFault::OutOfMemory),
        }
    }

    /// The key set of one entry, as [`KeySet::read`] gives it for a document whose list `keys` has this object alone.
    ///
    /// # Errors
    /// Where an allocation was refused.
    pub fn of_entry(alloc: Global, entry: ObjectRef<'_>) -> Result<KeySet, AllocError>
        ensures { IfOk result (λ s. key_set s ≡ key_list (object entry.entry ∷ [])) }
    {
        let mut keys = Vec::new(alloc);
        let mut skipped = Vec::new(alloc);
        add_entry(alloc, &mut keys, &mut skipped, 0, Some(entry))?;
        let set = KeySet::new(alloc, keys, skipped)?;
        Ok(set)
    }

    /// The key set of these entries.
    #[tactic(auto, using(crate::proofs::ByPlace::keys_more, crate::proofs::ByPlace::skips_more, std::proofs::lemmas::List::drop_all))]
    fn read_entries(alloc: Global, entries: &jwt_text::List<'_>) -> Result<KeySet, AllocError>
        requires { length entries.now ≤ 1024 }
        ensures { IfOk result (λ s. key_set s ≡ key_list entries.now) }
    {
        let mut keys = Vec::with_capacity(alloc, entries.len())?;
        let mut skipped = Vec::new(alloc);
        for place in 0..entries.len() {
            add_entry(
                alloc,
                &mut keys,
                &mut skipped,
                place as u32,
                entries.object(place),
            )?;
        }
        KeySet::new(alloc, keys, skipped)
    }

    /// The set of these keys, with their index.
    fn new(alloc: Global, keys: Vec<Key>, skipped: Vec<Skip>) -> Result<KeySet, AllocError>
        requires { length keys.items ≤ 1024 }
        ensures keys { IfOk result (λ s. s.keys.items ≡ keys.items) }
        ensures skipped { IfOk result (λ s. s.skipped.items ≡ skipped.items) }
    {
        let index = Index::of(alloc, &keys)?;
        Ok(KeySet {
            keys,
            skipped,
            index,
        })
    }

    /// The number of readable keys, at most 1,024.
    pub fn len(&self) -> u32
        ensures count { result ≡ length (key_set self.now).keys }
        ensures few { result ≤ 1024 }
    {
        self.keys.len() as u32
    }

    /// Whether the set has no readable key.
    pub fn is_empty(&self) -> bool
        ensures { IsTrue result ↔ ((key_set self.now).keys ≡ []) }
    {
        self.keys.is_empty()
    }

    /// The key of this number, counted from 0, skipped entries left out; `None` where there are no more than `j`. A secret has at
    /// most 4,096 octets.
    pub fn key(&self, j: u32) -> Option<&Key>
        ensures key { option_map (λ k. key_parts k.now) result
            ≡ slice_get (key_set self.now).keys j }
        ensures secret { IfSome result (λ k. secret_length (key_parts k.now).octets ≤ 4096) }
    {
        self.keys.get(j as usize)
    }

    /// The readable keys, in the order of their numbers.
    pub fn iter(&self) -> Iter<'_, Key>
        ensures { map key_parts (iter_rest result) ≡ (key_set self.now).keys }
    {
        self.keys.iter()
    }

    /// The entries that are no readable keys, in the order of their places, each with its reason.
    pub fn skipped(&self) -> &[Skip]
        ensures { result.now ≡ (key_set self.now).skips }
    {
        &self.skipped
    }

    /// The least key number at or after `from` whose key has this `kid` or, where `thumb`, has no `kid` and this
    /// thumbprint; `None` where there is none. Names are compared octet by octet. It looks the name up in ordered
    /// maps and searches its numbers by halves, and takes no memory.
    pub fn with_kid(&self, kid: &str, thumb: bool, from: u32) -> Option<u32>
        ensures { IsLeastFrom (has_name kid.now thumb) (key_set self.now).keys from result }
    {
        let own = first_from(&self.index.by_kid, kid, from);
        earlier(own, self.thumbprint_from(thumb, kid, from))
    }

    /// The least number at or after `from` of a key without `kid` and with this thumbprint, where `thumb`.
    fn thumbprint_from(&self, thumb: bool, text: &str, from: u32) -> Option<u32>
        ensures { IsLeastFrom (λ k. thumb && has_thumbprint text.now k) (key_set self.now).keys
            from result }
    {
        if thumb {
            first_from(&self.index.by_thumbprint, text, from)
        } else {
            None
        }
    }

    /// The key that [`KeySet::with_kid`] finds, with its number; `None` where there is none. It takes no memory.
    pub fn named(&self, kid: &str, thumb: bool, from: u32) -> Option<(u32, &Key)>
        ensures number { IsLeastFrom (has_name kid.now thumb) (key_set self.now).keys from
            (option_map (λ found. found.0) result) }
        ensures key { IfSome result (λ found. slice_get (key_set self.now).keys found.0
            ≡ Some (key_parts found.1.now)) }
    {
        let number = self.with_kid(kid, thumb, from)?;
        Some((number, &self.keys[number as usize]))
    }

    /// What [`KeySet::with_kid`] answers, by a plain search over the keys in order.
    pub fn search_kid(&self, kid: &str, thumb: bool, from: u32) -> Option<u32>
        ensures { IsLeastFrom (has_name kid.now thumb) (key_set self.now).keys from result }
    {
        for j in from as usize..self.keys.len() {
            if self.keys[j].is_named(kid, thumb) {
                return Some(j as u32);
            }
        }
        None
    }
}
