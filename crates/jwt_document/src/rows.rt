//! The rows of tables of members.

ghost use Rattle.std.specs.Prelude.{◌≡◌, map};
ghost use Rattle.jwt_document.specs.Rows.{path};

/// What a text has to be besides its length.
#[derive(Clone, Copy)]
pub(crate) enum Form {
    /// Any text.
    Any,
    /// Printable ASCII without `"` and `\`.
    Printable,
    /// A scheme, a host and, where it names one, a port, with nothing behind them.
    Origin,
    /// The name of an algorithm for public keys.
    PublicAlg,
    /// The name of a claim other than `iss`, `aud`, `iat` and `exp`.
    FreeClaim,
}

/// What the value of a member has to be.
#[derive(Clone, Copy)]
pub(crate) enum Kind {
    /// True or false.
    Flag,
    /// True.
    Given,
    /// A whole number, of at least and at most so much.
    Whole(u64, u64),
    /// A text of this form, of at least and at most so many octets.
    Text(Form, usize, usize),
    /// A list of at least and at most so many elements, each a text of this form with at least one octet.
    Texts(Form, usize, usize),
    /// One of these texts.
    Word(&'static [&'static str]),
    /// An object. Its members are those of a table of its own.
    Object,
    /// A list of at most so many elements.
    List(usize),
}

/// What holds where a member is absent.
#[derive(Clone, Copy)]
pub(crate) enum Absent {
    /// The document is refused.
    Refused,
    /// Nothing is asked, or false.
    Nothing,
    /// This number.
    Number(u64),
    /// This text.
    Said(&'static str),
    /// These texts.
    Listed(&'static [&'static str]),
}

/// A member: its name, what it has to be, and what holds where it is absent.
#[derive(Clone, Copy)]
pub(crate) struct Row {
    pub(crate) name: &'static str,
    pub(crate) kind: Kind,
    pub(crate) absent: Absent,
}

/// An object of the document.
#[derive(Clone, Copy, PartialEq, Eq)]
pub enum Within {
    /// The whole.
    Whole,
    /// `rules`.
    Rules,
    /// `remember`.
    Remember,
    /// `dpop`.
    Dpop,
    /// `nonce` of `dpop`.
    Nonce,
    /// `memory`.
    Memory,
    /// `issue`.
    Issue,
    /// `onward`.
    Onward,
    /// An entry of `issuers`.
    Entry,
    /// `keys` of an entry.
    Keys,
}

impl Within {
    /// The names that lead to it, each in the object of the one before, from the whole, or from its entry.
    pub fn path(self) -> &'static [&'static str]
        ensures { map (λ name. name.now) result.now ≡ path self }
    {
        match self {
            Within::Whole | Within::Entry => &[],
            Within::Rules => &["rules"],
            Within::Remember => &["remember"],
            Within::Dpop => &["dpop"],
            Within::Nonce => &["dpop", "nonce"],
            Within::Memory => &["memory"],
            Within::Issue => &["issue"],
            Within::Onward => &["onward"],
            Within::Keys => &["keys"],
        }
    }
}

/// Why a member is refused.
#[derive(Clone, Copy, PartialEq, Eq)]
pub enum Cause {
    /// It isn't one of the table.
    Unknown,
    /// It has to be there.
    Missing,
    /// It is of another kind.
    Kind,
    /// Its value is out of its range.
    Range,
    /// Exactly one of some members has to be there, in it or beside it.
    Together,
    /// It is a secret of too few octets.
    Short,
    /// No key has this number and signs by the algorithm.
    NoKey,
}
