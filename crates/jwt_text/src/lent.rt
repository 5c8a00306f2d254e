//! Objects and lists that another value lends.
ghost use Rattle.std.specs.Prelude.{◌≡◌, ◌↔◌, [], length, slice_get, option_map, option_and_then, IfOk, IsOkUnless, IsTrue};
ghost use Rattle.std.specs.List.{list_any};
ghost use Rattle.serde_json.specs.Find.{as_str, as_number, as_i64, as_bool, as_object};
ghost use Rattle.serde_json.specs.Events.{members_len};
ghost use Rattle.jwt_text.specs.Members.{has, text_at, is_number_at, whole_at, flag_at, list_at, object_at, member_names, AreInOrder, are_texts, compact_at};

use crate::TextFault;
use crate::compact::compact_node;
use crate::copy::copy_object;
use crate::lookup::{all_texts, member, share_name};
use crate::node::{Entry, Node, as_flag, as_whole, is_numeric};
use crate::owned::Object;
use crate::store::Store;
use std::alloc::Global;
use std::marker::Model;

/// A JSON object that another value lends. Contracts see its members.
///
/// What its readers answer is lent for as long as the object itself, and they answer `None` where the member is absent or
/// of another kind.
#[derive(Drop)]
pub struct ObjectRef<'a> {
    pub(crate) store: &'a Store,
    pub(crate) entries: &'a [Entry],
}

/// A JSON list that another value lends. Contracts see its elements.
#[derive(Drop)]
pub struct List<'a> {
    store: &'a Store,
    nodes: &'a [Node],
}

impl<'a> Model for ObjectRef<'a> {
    ghost use Rattle.serde_json.specs.Data.{Members};
    ghost use Rattle.jwt_text.specs.Stored.{members_code};

    ghost Value = { Members };

    ghost coded = { members_code };

    ghost use Rattle.jwt_text.specs.Flat.{members_data, AreEntries, IsNode, most};

    ghost view = { λ o. members_data most o.store.now o.entries.now };

    ghost invariant = { λ o. AreEntries (IsNode most o.store.now) o.store.now o.entries.now };
}

impl<'a> Model for List<'a> {
    ghost use Rattle.std.specs.Prelude.{List, map};
    ghost use Rattle.std.specs.Coded.{coded_list};
    ghost use Rattle.serde_json.specs.Data.{Data};
    ghost use Rattle.jwt_text.specs.Stored.{data_code};

    ghost Value = { List Data };

    ghost coded = { coded_list data_code };

    ghost use Rattle.jwt_text.specs.Flat.{node_data, Each, IsNode, most};

    ghost view = { λ l. map (node_data most l.store.now) l.nodes.now };

    ghost invariant = { λ l. Each (IsNode most l.store.now) l.nodes.now };
}

impl<'a> ObjectRef<'a> {
    /// Whether there is a member of this name.
    pub fn has(&self, name: &str) -> bool
        ensures { result ≡ has name.now self.now }
    {
        member(self.store, self.entries, name).is_some()
    }

    /// The text of this name, with its escapes undone.
    pub fn text(&self, name: &str) -> Option<&'a str>
        ensures { option_map (λ s. s.now) result ≡ text_at name.now self.now }
    {
        self.store.text_at(member(self.store, self.entries, name)?)
    }

    /// The whole number of this name: written with digits alone, after a minus or none, and within 64 signed bits. `1.0`, `1e3`,
    /// `-0` and 2^63 are none.
    #[tactic(auto, using(crate::proofs::KindLemmas::whole_is))]
    pub fn whole(&self, name: &str) -> Option<i64>
        ensures { result ≡ whole_at name.now self.now }
    {
        as_whole(member(self.store, self.entries, name)?)
    }

    /// The truth value of this name.
    #[tactic(auto, using(crate::proofs::KindLemmas::flag_is))]
    pub fn flag(&self, name: &str) -> Option<bool>
        ensures { result ≡ flag_at name.now self.now }
    {
        as_flag(member(self.store, self.entries, name)?)
    }

    /// Whether there is a member of this name that is a number of any kind.
    #[tactic(auto, using(crate::proofs::KindLemmas::number_is))]
    pub fn number(&self, name: &str) -> bool
        ensures { result ≡ is_number_at name.now self.now }
    {
        match member(self.store, self.entries, name) {
            Some(node) => is_numeric(node),
            None => false,
        }
    }

    /// The list of this name.
    pub fn list(&self, name: &str) -> Option<List<'a>>
        ensures { result ≡ list_at name.now self.now }
    {
        let nodes = self.store.list_at(member(self.store, self.entries, name)?)?;
        Some(List {
            store: self.store,
            nodes,
        })
    }

    /// The object of this name.
    pub fn object(&self, name: &str) -> Option<ObjectRef<'a>>
        ensures { result ≡ object_at name.now self.now }
    {
        let entries = self
            .store
            .entries_at(member(self.store, self.entries, name)?)?;
        Some(ObjectRef {
            store: self.store,
            entries,
        })
    }

    /// The number of members.
    pub fn member_count(&self) -> usize
        ensures { result ≡ members_len self.now }
    {
        self.entries.len()
    }

    /// The name at this place, from 0, in ascending byte order; `None` past the last.
    pub fn name(&self, place: usize) -> Option<&'a str>
        ensures name { option_map (λ s. s.now) result ≡ slice_get (member_names self.now) place }
        ensures order { AreInOrder (member_names self.now) }
    {
        if place < self.entries.len() {
            Some(self.store.text(self.entries[place].name))
        } else {
            None
        }
    }

    /// Whether some name is in both objects. Each name of this one is looked up in the other.
    pub fn shares_name(&self, other: &ObjectRef<'_>) -> bool
        ensures { result ≡ list_any (λ name. has name other.now) (member_names self.now) }
    {
        share_name(self.store, self.entries, other)
    }

    /// The compact JSON text of a member that is a text or a list of texts, and `None` for any other or none.
    ///
    /// `OutOfMemory` where an allocation was refused, and no other fault.
    pub fn compact(&self, alloc: Global, name: &str) -> Result<Option<Vec<u8>>, TextFault>
        ensures ok { IfOk result
            (λ o. option_map (λ v. v.items) o ≡ compact_at name.now self.now) }
        ensures err { IsOkUnless result TextFault.OutOfMemory }
    {
        match member(self.store, self.entries, name) {
            Some(node) => compact_node(alloc, self.store, node),
            None => Ok(None),
        }
    }

    /// A copy of the object, which lends nothing.
    ///
    /// `OutOfMemory` where an allocation was refused, and no other fault.
    pub fn to_object(&self, alloc: Global) -> Result<Object, TextFault>
        ensures ok { IfOk result (λ o. o ≡ self.now) }
        ensures err { IsOkUnless result TextFault.OutOfMemory }
    {
        match copy_object(alloc, self.store, self.entries) {
            Some(object) => Ok(object),
            None => Err(TextFault::OutOfMemory),
        }
    }
}

impl<'a> List<'a> {
    /// The number of elements.
    pub fn len(&self) -> usize
        ensures { result ≡ length self.now }
    {
        self.nodes.len()
    }

    /// Whether there is no element.
    pub fn is_empty(&self) -> bool
        ensures { IsTrue result ↔ (self.now ≡ []) }
    {
        self.nodes.len() == 0
    }

    /// The text at this place, from 0; `None` past the last, or where the element is of another kind.
    pub fn text(&self, place: usize) -> Option<&'a str>
        ensures { option_map (λ s. s.now) result
            ≡ option_and_then as_str (slice_get self.now place) }
    {
        if place < self.nodes.len() {
            self.store.text_at(self.nodes[place])
        } else {
            None
        }
    }

    /// The whole number at this place, from 0, as [`ObjectRef::whole`] reads it; `None` past the last, or where the element is
    /// of another kind.
    pub fn whole(&self, place: usize) -> Option<i64>
        ensures { result
            ≡ option_and_then as_i64 (option_and_then as_number (slice_get self.now place)) }
    {
        if place < self.nodes.len() {
            as_whole(self.nodes[place])
        } else {
            None
        }
    }

    /// The truth value at this place, from 0; `None` past the last, or where the element is of another kind.
    pub fn flag(&self, place: usize) -> Option<bool>
        ensures { result ≡ option_and_then as_bool (slice_get self.now place) }
    {
        if place < self.nodes.len() {
            as_flag(self.nodes[place])
        } else {
            None
        }
    }

    /// The object at this place, from 0; `None` past the last, or where the element is of another kind.
    pub fn object(&self, place: usize) -> Option<ObjectRef<'a>>
        ensures { result ≡ option_and_then as_object (slice_get self.now place) }
    {
        if place < self.nodes.len() {
            let entries = self.store.entries_at(self.nodes[place])?;
            Some(ObjectRef {
                store: self.store,
                entries,
            })
        } else {
            None
        }
    }

    /// Whether each element is a text; also where there is none.
    pub fn are_texts(&self) -> bool
        ensures { result ≡ are_texts self.now }
    {
        all_texts(self.nodes)
    }
}
