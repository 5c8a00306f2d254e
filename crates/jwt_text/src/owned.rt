//! An object that was read.
ghost use Rattle.std.specs.Prelude.{◌≡◌, slice_get, option_map, IfOk, IsOkUnless};
ghost use Rattle.serde_json.specs.Data.{no_members};
ghost use Rattle.serde_json.specs.Events.{members_len};
ghost use Rattle.jwt_text.specs.Members.{has, text_at, is_number_at, whole_at, flag_at, list_at, object_at, member_names, AreInOrder, compact_at};

use crate::TextFault;
use crate::lent::{List, ObjectRef};
use crate::node::Entries;
use crate::store::Store;
use std::alloc::Global;
use std::marker::Model;

/// A JSON object that [`object`](crate::object) has read. Contracts see its members.
///
/// Each reader lends what it answers, and answers `None` where the member is absent or of another kind.
#[derive(Drop)]
pub struct Object {
    pub(crate) store: Store,
    pub(crate) entries: Entries,
}

impl Model for Object {
    ghost use Rattle.serde_json.specs.Data.{Members};
    ghost use Rattle.jwt_text.specs.Stored.{members_code};

    ghost Value = { Members };

    ghost coded = { members_code };

    ghost use Rattle.jwt_text.specs.Flat.{members_data, AreEntries, IsNode, most};

    ghost view = { λ o. members_data most o.store o.entries.items };

    ghost invariant = { λ o. AreEntries (IsNode most o.store) o.store o.entries.items };
}

impl Object {
    /// The object without members. It takes no memory.
    pub fn empty(alloc: Global) -> Object
        ensures { result ≡ no_members }
    {
        Object {
            store: Store::new(alloc),
            entries: Vec::new(alloc),
        }
    }

    /// The object, lent.
    pub fn lend(&self) -> ObjectRef<'_>
        ensures { result ≡ self.now }
    {
        ObjectRef {
            store: &self.store,
            entries: self.entries.as_slice(),
        }
    }

    /// Whether there is a member of this name.
    pub fn has(&self, name: &str) -> bool
        ensures { result ≡ has name.now self.now }
    {
        self.lend().has(name)
    }

    /// The text of this name.
    pub fn text(&self, name: &str) -> Option<&str>
        ensures { option_map (λ s. s.now) result ≡ text_at name.now self.now }
    {
        self.lend().text(name)
    }

    /// The whole number of this name, as [`ObjectRef::whole`] reads it.
    pub fn whole(&self, name: &str) -> Option<i64>
        ensures { result ≡ whole_at name.now self.now }
    {
        self.lend().whole(name)
    }

    /// The truth value of this name.
    pub fn flag(&self, name: &str) -> Option<bool>
        ensures { result ≡ flag_at name.now self.now }
    {
        self.lend().flag(name)
    }

    /// Whether there is a member of this name that is a number of any kind.
    pub fn number(&self, name: &str) -> bool
        ensures { result ≡ is_number_at name.now self.now }
    {
        self.lend().number(name)
    }

    /// The list of this name.
    pub fn list(&self, name: &str) -> Option<List<'_>>
        ensures { result ≡ list_at name.now self.now }
    {
        self.lend().list(name)
    }

    /// The object of this name.
    pub fn object(&self, name: &str) -> Option<ObjectRef<'_>>
        ensures { result ≡ object_at name.now self.now }
    {
        self.lend().object(name)
    }

    /// The number of members.
    pub fn member_count(&self) -> usize
        ensures { result ≡ members_len self.now }
    {
        self.lend().member_count()
    }

    /// The name at this place, from 0, in ascending byte order; `None` past the last.
    pub fn name(&self, place: usize) -> Option<&str>
        ensures name { option_map (λ s. s.now) result ≡ slice_get (member_names self.now) place }
        ensures order { AreInOrder (member_names self.now) }
    {
        self.lend().name(place)
    }

    /// The compact JSON text of a member, as [`ObjectRef::compact`] writes it.
    pub fn compact(&self, alloc: Global, name: &str) -> Result<Option<Vec<u8>>, TextFault>
        ensures ok { IfOk result
            (λ o. option_map (λ v. v.items) o ≡ compact_at name.now self.now) }
        ensures err { IsOkUnless result TextFault.OutOfMemory }
    {
        self.lend().compact(alloc, name)
    }
}
