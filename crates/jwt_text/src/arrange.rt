//! The members of an object in ascending byte order of their names.
ghost use Rattle.std.specs.Prelude.{IsTrue};
ghost use Rattle.std.specs.List.Sorted.{IsPermutation};
ghost use Rattle.jwt_text.specs.Flat.{entry_names};
ghost use Rattle.jwt_text.specs.Members.{AreInOrder};

use crate::node::Entry;
use crate::store::Store;
use std::alloc::Global;
use std::cmp::Ordering;

/// Puts entries in ascending byte order of their names; false where a name stands twice, or where memory was refused.
pub(crate) fn arrange(alloc: Global, store: &Store, entries: &mut [Entry]) -> bool
    ensures permutation { IsPermutation entries.old entries.new }
    ensures order { IsTrue result → AreInOrder (entry_names store.now entries.new) }
{
    if is_ascending(store, entries) {
        return true;
    }
    // Most names differ within their first octets, and numbers are quicker to compare than texts.
    let by_heads = entries.sort_by_cached_key(alloc, |one: &Entry| -> u64 {
        head(store.octets(one.name))
    });
    if by_heads.is_ok() && is_ascending(store, entries) {
        return true;
    }
    let sorted = entries.sort_by(alloc, |one: &Entry, other: &Entry| -> Ordering {
        store.octets(one.name).cmp(store.octets(other.name))
    });
    sorted.is_ok() && is_ascending(store, entries)
}

/// The first eight octets, the most significant first; a shorter text is filled with zeros.
fn head(octets: &[u8]) -> u64 {
    let mut number = 0;
    for at in 0..8 {
        let octet = match octets.get(at) {
            Some(octet) => u64::from(*octet),
            None => 0,
        };
        number = (number << 8) | octet;
    }
    number
}

/// Whether each name is below the next.
fn is_ascending(store: &Store, entries: &[Entry]) -> bool
    ensures { IsTrue result → AreInOrder (entry_names store.now entries.now) }
{
    for place in 1..entries.len() {
        let before = store.octets(entries[place - 1].name);
        let name = store.octets(entries[place].name);
        match before.cmp(name) {
            Ordering::Less => {}
            _ => return false,
        }
    }
    true
}
