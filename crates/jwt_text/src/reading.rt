//! Reading a JSON text into a store.
ghost use Rattle.std.specs.Prelude.{IfSome};
ghost use Rattle.jwt_text.specs.Reads.{ReadsNode, ReadsItems, ReadsMembers};

use crate::arrange::arrange;
use crate::node::{Entries, Entry, Node, Nodes, SHORT, Span};
use crate::number::{node_of, parse_number};
use crate::store::Store;
use json::{Reader, Token};
use smallvec::SmallVec;
use std::alloc::Global;

/// The value that comes next, which nests at most so deep; `None` where it can't be had.
#[cycle(read)]
#[inline(always)]
fn read(alloc: Global, reader: &mut Reader<'_>, depth: usize, store: &mut Store) -> Option<Node>
    ensures { IfSome result (ReadsNode depth reader.old reader.new store.old store.new) }
{
    match reader.next()? {
        Token::String(text) => Some(Node::Text(store.add_text(text)?)),
        Token::Number(text) => Some(node_of(parse_number(text)?)),
        Token::Bool(flag) => Some(Node::Bool(flag)),
        Token::Null => Some(Node::Null),
        Token::BeginArray => {
            if depth == 0 {
                return None;
            }
            Some(Node::List(read_items(alloc, reader, depth - 1, store)?))
        }
        Token::BeginObject => {
            if depth == 0 {
                return None;
            }
            let entries = read_members(alloc, reader, depth - 1, store)?;
            Some(Node::Object(store.add_entries(entries.as_slice())?))
        }
        Token::EndObject | Token::EndArray | Token::Key(_) | Token::Bad => None,
    }
}

/// The items of a list, and the bracket that closes it.
#[cycle(read)]
#[inline(never)]
fn read_items(
    alloc: Global,
    reader: &mut Reader<'_>,
    depth: usize,
    store: &mut Store,
) -> Option<Span>
    ensures { IfSome result (ReadsItems depth reader.old reader.new store.old store.new) }
{
    let mut built: Nodes = SmallVec::new(alloc);
    'items: while !reader.take_end_array() {
        let node = read(alloc, reader, depth, store)?;
        if built.push(node).is_err() {
            return None;
        }
    }
    // A short list isn't moved.
    if built.len() <= SHORT {
        store.add_short(built.as_slice())
    } else {
        store.add_long(built)
    }
}

/// The members of an object in order, and the brace that closes it.
#[cycle(read)]
#[inline(never)]
pub(crate) fn read_members(
    alloc: Global,
    reader: &mut Reader<'_>,
    depth: usize,
    store: &mut Store,
) -> Option<Entries>
    ensures { IfSome result
        (λ es. ReadsMembers depth reader.old reader.new store.old store.new es.items) }
{
    let mut built: Entries = Vec::new(alloc);
    'members: while let Some(key) = reader.next_key().ok()? {
        let name = store.add_text(key)?;
        let node = read(alloc, reader, depth, store)?;
        if built.push(Entry { name, node }).is_err() {
            return None;
        }
    }
    if arrange(alloc, store, built.as_mut_slice()) {
        Some(built)
    } else {
        None
    }
}
