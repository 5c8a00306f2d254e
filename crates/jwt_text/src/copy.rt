//! A copy of a part of a store, in a store of its own.
ghost use Rattle.std.specs.Prelude.{◌≡◌, IfSome};
ghost use Rattle.jwt_text.specs.Flat.{AreEntries, Each, IsNode, members_data, most};
ghost use Rattle.jwt_text.specs.Copies.{CopiesNode, CopiesNodes, CopiesEntries};

use crate::node::{BELOW, Entries, Entry, Node, Nodes};
use crate::owned::Object;
use crate::store::Store;
use smallvec::SmallVec;
use std::alloc::Global;

/// The object of these entries, with what belongs to it and nothing else; `None` where memory was refused.
pub(crate) fn copy_object(alloc: Global, from: &Store, entries: &[Entry]) -> Option<Object>
    requires { AreEntries (IsNode most from.now) from.now entries.now }
    ensures { IfSome result (λ o. o ≡ members_data most from.now entries.now) }
{
    let mut store = Store::new(alloc);
    let entries = copy_entries(alloc, from, entries, BELOW, &mut store)?;
    Some(Object { store, entries })
}

/// A copy of a value that nests at most so deep.
#[cycle(copy)]
fn copy_node(alloc: Global, from: &Store, node: Node, depth: usize, to: &mut Store) -> Option<Node>
    requires { IsNode depth from.now node }
    ensures { IfSome result (CopiesNode depth from.now node to.old to.new) }
{
    match node {
        Node::Text(span) => Some(Node::Text(to.add_text(from.text(span))?)),
        Node::List(span) => {
            if depth == 0 {
                return None;
            }
            let nodes = copy_nodes(alloc, from, from.nodes(span), depth - 1, to)?;
            Some(Node::List(to.add_list(nodes)?))
        }
        Node::Object(span) => {
            if depth == 0 {
                return None;
            }
            let entries = copy_entries(alloc, from, from.entries(span), depth - 1, to)?;
            Some(Node::Object(to.add_entries(entries.as_slice())?))
        }
        Node::Null => Some(Node::Null),
        Node::Bool(flag) => Some(Node::Bool(flag)),
        Node::Unsigned(n) => Some(Node::Unsigned(n)),
        Node::Negative(_) => Some(node),
        Node::Float(x) => Some(Node::Float(x)),
    }
}

/// Copies of the elements of a list.
#[cycle(copy)]
fn copy_nodes(
    alloc: Global,
    from: &Store,
    nodes: &[Node],
    depth: usize,
    to: &mut Store,
) -> Option<Nodes>
    requires { Each (IsNode depth from.now) nodes.now }
    ensures { IfSome result (λ ns. CopiesNodes depth from.now nodes.now to.old to.new ns.items) }
{
    let mut copies: Nodes = SmallVec::new(alloc);
    'nodes: for place in 0..nodes.len() {
        let node = copy_node(alloc, from, nodes[place], depth, to)?;
        if copies.push(node).is_err() {
            return None;
        }
    }
    Some(copies)
}

/// Copies of the members of an object.
#[cycle(copy)]
fn copy_entries(
    alloc: Global,
    from: &Store,
    entries: &[Entry],
    depth: usize,
    to: &mut Store,
) -> Option<Entries>
    requires { AreEntries (IsNode depth from.now) from.now entries.now }
    ensures { IfSome result
        (λ es. CopiesEntries depth from.now entries.now to.old to.new es.items) }
{
    let mut copies: Entries = Vec::new(alloc);
    'entries: for place in 0..entries.len() {
        let entry = entries[place];
        let name = to.add_text(from.text(entry.name))?;
        let node = copy_node(alloc, from, entry.node, depth, to)?;
        if copies.push(Entry { name, node }).is_err() {
            return None;
        }
    }
    Some(copies)
}
