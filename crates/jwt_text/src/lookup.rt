//! The values in the entries of an object and the nodes of a list.
ghost use Rattle.std.specs.Prelude.{◌≡◌, map, option_map, IfSome};
ghost use Rattle.std.specs.List.{list_any};
ghost use Rattle.serde_json.specs.Find.{get_member};
ghost use Rattle.jwt_text.specs.Flat.{AreEntries, IsNode, node_data, members_data, entry_names, most};
ghost use Rattle.jwt_text.specs.Members.{has, are_texts};
ghost use Rattle.jwt_text.specs.declared.store.Store.{Store as SpecStore};

use crate::lent::ObjectRef;
use crate::node::{Entry, Node, as_text};
use crate::store::Store;
use std::cmp::Ordering;

/// Up to so many entries are looked at one by one, since that costs less than halving.
const NEAR: usize = 16;

/// The node of the entry of this name.
#[inline(always)]
pub(crate) fn member(store: &Store, entries: &[Entry], name: &str) -> Option<Node>
    requires { AreEntries (IsNode most store.now) store.now entries.now }
    ensures value { option_map (node_data most store.now) result
        ≡ get_member name.now (members_data most store.now entries.now) }
    ensures holds { IfSome result (IsNode most store.now) }
{
    if entries.len() <= NEAR {
        member_near(store, entries, name.as_bytes())
    } else {
        member_far(store, entries, name.as_bytes())
    }
}

/// The same, looked for one by one.
#[inline(always)]
fn member_near(store: &Store, entries: &[Entry], name: &[u8]) -> Option<Node>
    requires { AreEntries (IsNode most store.now) store.now entries.now }
    ensures value { option_map (node_data most store.now) result
        ≡ get_member name.now (members_data most store.now entries.now) }
    ensures holds { IfSome result (IsNode most store.now) }
{
    for entry in entries {
        if store.holds_at(entry.name, name) {
            return Some(entry.node);
        }
    }
    None
}

/// The same, looked for by halving.
#[inline(never)]
fn member_far(store: &Store, entries: &[Entry], name: &[u8]) -> Option<Node>
    requires { AreEntries (IsNode most store.now) store.now entries.now }
    ensures value { option_map (node_data most store.now) result
        ≡ get_member name.now (members_data most store.now entries.now) }
    ensures holds { IfSome result (IsNode most store.now) }
{
    let mut low = 0;
    let mut high = entries.len();
    'halves: while low < high {
        let middle = low + (high - low) / 2;
        let entry = entries[middle];
        match name.cmp(store.octets(entry.name)) {
            Ordering::Equal => return Some(entry.node),
            Ordering::Less => high = middle,
            Ordering::Greater => low = middle + 1,
        }
    }
    None
}

/// Whether the name of one of the entries stands in the other object.
pub(crate) fn share_name(store: &Store, entries: &[Entry], other: &ObjectRef<'_>) -> bool
    requires { AreEntries (IsNode most store.now) store.now entries.now }
    ensures { result ≡ list_any (λ k. has k other.now) (entry_names store.now entries.now) }
{
    for entry in entries {
        if other.has(store.text(entry.name)) {
            return true;
        }
    }
    false
}

/// Whether each node is a text.
pub(crate) fn all_texts(nodes: &[Node]) -> bool
    ensures { (s : SpecStore) → result ≡ are_texts (map (node_data most s) nodes.now) }
{
    for node in nodes {
        if as_text(*node).is_none() {
            return false;
        }
    }
    true
}
