//! The flat lists that an object stands in: octets, values and members.
ghost use Rattle.std.specs.Prelude.{◌≡◌, ◌+◌, ◌<◌, ◌≤◌, length, map, option_map, IfSome};
ghost use Rattle.serde_json.specs.Find.{as_str, as_array, as_object};
ghost use Rattle.jwt_text.specs.Members.{elements};
ghost use Rattle.std.specs.Str.{bytes_eq};
ghost use Rattle.jwt_text.specs.Flat.{text_of, piece, run_of, IsRun, IsText, IsNode, node_data, members_data, AreEntries, Each, most};
ghost use Rattle.jwt_text.specs.Growth.{AddsText, AddsNodes, AddsEntries};

use crate::node::{Entry, Node, Nodes, SHORT, Span, as_entries, as_list, as_text};
use std::alloc::Global;

/// The flat lists. The elements of a short list are a run of `nodes`; a long one is kept as it was gathered.
#[derive(Drop)]
pub(crate) struct Store {
    pub(crate) text: Vec<u8>,
    pub(crate) nodes: Vec<Node>,
    pub(crate) long: Vec<Vec<Node>>,
    pub(crate) entries: Vec<Entry>,
}

/// The span of so many elements from a place on, where it fits.
#[inline(always)]
fn span(start: usize, len: usize) -> Option<Span>
    ensures { IfSome result (λ p. (p.start ≡ start) × (p.len ≡ len)) }
{
    if start > u32::MAX as usize || len > u32::MAX as usize {
        return None;
    }
    Some(Span {
        start: start as u32,
        len: len as u32,
    })
}

impl Store {
    /// A store that holds nothing. It takes no memory.
    pub(crate) fn new(alloc: Global) -> Store {
        Store {
            text: Vec::new(alloc),
            nodes: Vec::new(alloc),
            long: Vec::new(alloc),
            entries: Vec::new(alloc),
        }
    }

    /// A store that holds nothing, with room for so many octets of text; `None` where it can't be had.
    pub(crate) fn with_room(alloc: Global, octets: usize) -> Option<Store> {
        Some(Store {
            text: Vec::with_capacity(alloc, octets).ok()?,
            nodes: Vec::new(alloc),
            long: Vec::new(alloc),
            entries: Vec::new(alloc),
        })
    }

    /// Adds a text; `None` where it can't be held.
    #[inline(always)]
    pub(crate) fn add_text(&mut self, text: &str) -> Option<Span>
        ensures { IfSome result (AddsText self.old self.new text.now) }
    {
        let span = span(self.text.len(), text.len())?;
        if self.text.extend_from_slice(text.as_bytes()).is_err() {
            return None;
        }
        Some(span)
    }

    /// Adds the elements of a list; `None` where they can't be held.
    #[inline(always)]
    pub(crate) fn add_list(&mut self, nodes: Nodes) -> Option<Span>
        ensures { IfSome result (AddsNodes self.old self.new nodes.items) }
    {
        if nodes.len() <= SHORT {
            self.add_short(nodes.as_slice())
        } else {
            self.add_long(nodes)
        }
    }

    /// Adds the elements of a short list.
    #[inline(always)]
    pub(crate) fn add_short(&mut self, nodes: &[Node]) -> Option<Span>
        requires { length nodes.now ≤ SHORT }
        ensures { IfSome result (AddsNodes self.old self.new nodes.now) }
    {
        let span = span(self.nodes.len(), nodes.len())?;
        if self.nodes.extend_from_slice(nodes).is_err() {
            return None;
        }
        Some(span)
    }

    /// Adds a long list, which isn't copied.
    #[cold]
    #[inline(never)]
    pub(crate) fn add_long(&mut self, nodes: Nodes) -> Option<Span>
        requires { SHORT < length nodes.items }
        ensures { IfSome result (AddsNodes self.old self.new nodes.items) }
    {
        let nodes = nodes.into_vec().ok()?;
        let span = span(self.long.len(), nodes.len())?;
        if self.long.push(nodes).is_err() {
            return None;
        }
        Some(span)
    }

    /// Adds entries; `None` where they can't be held.
    #[inline(always)]
    pub(crate) fn add_entries(&mut self, entries: &[Entry]) -> Option<Span>
        ensures { IfSome result (AddsEntries self.old self.new entries.now) }
    {
        let span = span(self.entries.len(), entries.len())?;
        if self.entries.extend_from_slice(entries).is_err() {
            return None;
        }
        Some(span)
    }

    /// The octets of a span, cut where the text ends.
    #[inline(always)]
    pub(crate) fn octets(&self, span: Span) -> &[u8]
        ensures { result.now ≡ text_of self.now span }
    {
        let start = (span.start as usize).min(self.text.len());
        let rest = &self.text[start..];
        let len = (span.len as usize).min(rest.len());
        &rest[..len]
    }

    /// Whether the text of a span is this. Their lengths are compared first.
    #[inline(always)]
    pub(crate) fn holds_at(&self, span: Span, octets: &[u8]) -> bool
        requires { IsText self.now span }
        ensures { result ≡ bytes_eq octets.now (text_of self.now span) }
    {
        let len = span.len as usize;
        if octets.len() != len {
            return false;
        }
        let start = span.start as usize;
        octets == &self.text[start..start + len]
    }

    /// The text of a span.
    pub(crate) fn text(&self, span: Span) -> &str
        requires { IsText self.now span }
        ensures { result.now ≡ text_of self.now span }
    {
        // They are UTF-8, by the condition.
        unsafe { std::str::from_utf8_unchecked(self.octets(span)) }
    }

    /// The elements of a list.
    pub(crate) fn nodes(&self, span: Span) -> &[Node]
        requires { IsRun self.now span }
        ensures { result.now ≡ run_of self.now span }
    {
        let start = span.start as usize;
        let len = span.len as usize;
        if len <= SHORT {
            &self.nodes[start..start + len]
        } else {
            &self.long[start]
        }
    }

    /// The members of an object, by where they stand.
    pub(crate) fn entries(&self, span: Span) -> &[Entry]
        requires { span.start + span.len ≤ length self.now.entries.items }
        ensures { result.now ≡ piece self.now.entries.items span }
    {
        let start = span.start as usize;
        let end = start + span.len as usize;
        &self.entries[start..end]
    }

    /// The text that a node is.
    pub(crate) fn text_at(&self, node: Node) -> Option<&str>
        requires { IsNode most self.now node }
        ensures { option_map (λ t. t.now) result ≡ as_str (node_data most self.now node) }
    {
        match as_text(node) {
            Some(span) => Some(self.text(span)),
            None => None,
        }
    }

    /// The elements of the list that a node is.
    pub(crate) fn list_at(&self, node: Node) -> Option<&[Node]>
        requires { IsNode most self.now node }
        ensures value { option_map (λ ns. map (node_data most self.now) ns.now) result
            ≡ option_map elements (as_array (node_data most self.now node)) }
        ensures holds { IfSome result (λ ns. Each (IsNode most self.now) ns.now) }
    {
        match as_list(node) {
            Some(span) => Some(self.nodes(span)),
            None => None,
        }
    }

    /// The entries of the object that a node is.
    pub(crate) fn entries_at(&self, node: Node) -> Option<&[Entry]>
        requires { IsNode most self.now node }
        ensures value { option_map (λ es. members_data most self.now es.now) result
            ≡ as_object (node_data most self.now node) }
        ensures holds { IfSome result (λ es. AreEntries (IsNode most self.now) self.now es.now) }
    {
        match as_entries(node) {
            Some(span) => Some(self.entries(span)),
            None => None,
        }
    }
}
