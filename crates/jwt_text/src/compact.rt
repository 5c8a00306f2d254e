//! The compact JSON text of a text or of a list of texts.
ghost use Rattle.std.specs.Prelude.{◌≡◌, None, false, map, option_map, IfOk, IsOkUnless, MatchOption};
ghost use Rattle.serde_json.specs.Data.{array};
ghost use Rattle.serde_json.specs.View.{view, items_of, items_view};
ghost use Rattle.jwt_text.specs.Flat.{Each, IsNode, node_data, most};
ghost use Rattle.jwt_text.specs.Members.{elements, are_texts, is_text_or_texts, compact_text_or_texts};

use crate::TextFault;
use crate::node::Node;
use crate::store::Store;
use serde_json::Value;
use std::alloc::{AllocError, Global};

/// The compact text of a node that is a text or a list of texts.
pub(crate) fn compact_node(
    alloc: Global,
    store: &Store,
    node: Node,
) -> Result<Option<Vec<u8>>, TextFault>
    requires { IsNode most store.now node }
    ensures ok { IfOk result
        (λ o. option_map (λ v. v.items) o ≡ compact_text_or_texts (node_data most store.now node)) }
    ensures err { IsOkUnless result TextFault.OutOfMemory }
{
    match value_of(alloc, store, node) {
        Ok(Some(value)) => compact_text_or_texts(alloc, &value),
        Ok(None) => Ok(None),
        Err(_) => Err(TextFault::OutOfMemory),
    }
}

/// The value of a node that is a text or a list of texts, and `None` for any other.
fn value_of(alloc: Global, store: &Store, node: Node) -> Result<Option<Value>, AllocError>
    requires { IsNode most store.now node }
    ensures { IfOk result
        (λ o. MatchOption o (compact_text_or_texts (node_data most store.now node) ≡ None)
        (λ v. view v ≡ node_data most store.now node)) }
{
    if let Some(text) = store.text_at(node) {
        return Ok(Some(Value::String(String::from_str(alloc, text)?)));
    }
    match store.list_at(node) {
        Some(nodes) => list_of(alloc, store, nodes),
        None => Ok(None),
    }
}

/// The value of a list of texts, and `None` for a list of any other elements.
fn list_of(alloc: Global, store: &Store, nodes: &[Node]) -> Result<Option<Value>, AllocError>
    requires { Each (IsNode most store.now) nodes.now }
    ensures { IfOk result
        (λ o. MatchOption o (are_texts (map (node_data most store.now) nodes.now) ≡ false)
        (λ v. view v ≡ array (items_of (map (node_data most store.now) nodes.now)))) }
{
    let mut values = Vec::new(alloc);
    for place in 0..nodes.len() {
        let Some(text) = store.text_at(nodes[place]) else {
            return Ok(None);
        };
        values.push(Value::String(String::from_str(alloc, text)?))?;
    }
    Ok(Some(Value::Array(values)))
}

/// The compact text of a text or of a list of texts.
#[tactic(auto, using(crate::proofs::CompactLemmas::text_or_texts_no_float))]
fn compact_text_or_texts(alloc: Global, value: &Value) -> Result<Option<Vec<u8>>, TextFault>
    ensures ok { IfOk result
        (λ o. option_map (λ v. v.items) o ≡ compact_text_or_texts (view value.now)) }
    ensures err { IsOkUnless result TextFault.OutOfMemory }
{
    if !is_text_or_texts(value) {
        return Ok(None);
    }
    match value.to_vec(alloc) {
        Ok(octets) => Ok(Some(octets)),
        Err(_) => Err(TextFault::OutOfMemory),
    }
}

/// Whether the value is a text or a list of texts.
fn is_text_or_texts(value: &Value) -> bool
    ensures { result ≡ is_text_or_texts (view value.now) }
{
    match value {
        Value::String(_) => true,
        Value::Array(items) => all_texts(items),
        _ => false,
    }
}

/// Whether each item is a text.
fn all_texts(items: &Vec<Value>) -> bool
    ensures { result ≡ are_texts (elements (items_view items.now.items)) }
{
    for item in items {
        if !item.is_string() {
            return false;
        }
    }
    true
}
