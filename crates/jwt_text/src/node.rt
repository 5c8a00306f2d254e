//! The elements of the flat lists.
ghost use Rattle.std.specs.Prelude.{◌≡◌};
ghost use Rattle.jwt_text.specs.Kinds.{as_flag, as_whole, is_numeric, as_text, as_list, as_entries};

use smallvec::SmallVec;

/// How deep a member of an object may nest.
pub(crate) const BELOW: usize = 126;

/// A list of more elements than this has an allocation of its own.
pub(crate) const SHORT: usize = 4096;

/// A run of elements: `len` from `start` on, or the long list of number `start`.
#[derive(Clone, Copy, Default, Drop)]
pub(crate) struct Span {
    pub(crate) start: u32,
    pub(crate) len: u32,
}

/// A JSON value. A text is a run of octets, a list a run of nodes, an object a run of entries.
#[derive(Clone, Copy, Default, Drop)]
pub(crate) enum Node {
    #[default]
    Null,
    Bool(bool),
    Unsigned(u64),
    Negative(i64),
    Float(f64),
    Text(Span),
    List(Span),
    Object(Span),
}

/// A member of an object.
#[derive(Clone, Copy, Default, Drop)]
pub(crate) struct Entry {
    pub(crate) name: Span,
    pub(crate) node: Node,
}

/// The elements of a list. A few stand in place, and more in an allocation.
pub(crate) type Nodes = SmallVec<Node, 4>;

/// The members of an object.
pub(crate) type Entries = Vec<Entry>;

/// The value of `true` or `false`, `None` of any other node.
pub(crate) fn as_flag(node: Node) -> Option<bool>
    ensures { result ≡ as_flag node }
{
    match node {
        Node::Bool(b) => Some(b),
        _ => None,
    }
}

/// The value of a whole number within 64 signed bits, `None` of any other node.
pub(crate) fn as_whole(node: Node) -> Option<i64>
    ensures { result ≡ as_whole node }
{
    match node {
        Node::Unsigned(n) => if n <= i64::MAX as u64 {
            Some(n as i64)
        } else {
            None
        },
        Node::Negative(n) => Some(n),
        _ => None,
    }
}

/// Whether the node is a number.
pub(crate) fn is_numeric(node: Node) -> bool
    ensures { result ≡ is_numeric node }
{
    matches!(node, Node::Unsigned(_) | Node::Negative(_) | Node::Float(_))
}

/// Where a text's octets stand, `None` of any other node.
pub(crate) fn as_text(node: Node) -> Option<Span>
    ensures { result ≡ as_text node }
{
    match node {
        Node::Text(span) => Some(span),
        _ => None,
    }
}

/// Where a list's elements stand, `None` of any other node.
pub(crate) fn as_list(node: Node) -> Option<Span>
    ensures { result ≡ as_list node }
{
    match node {
        Node::List(span) => Some(span),
        _ => None,
    }
}

/// Where an object's members stand, `None` of any other node.
pub(crate) fn as_entries(node: Node) -> Option<Span>
    ensures { result ≡ as_entries node }
{
    match node {
        Node::Object(span) => Some(span),
        _ => None,
    }
}
