//! A field of an answer.
ghost use Rattle.std.specs.Prelude.{◌≡◌};
ghost use Rattle.jwt_output.specs.fields.Fields.{names};

use jwt_verify::{SigState, Try};

/// The name of a field.
#[derive(Clone, Copy)]
pub enum FieldName {
    Verdict,
    Document,
    Fault,
    Denial,
    Part,
    At,
    Member,
    Nearest,
    Scope,
    Claim,
    File,
    Remedy,
    Signature,
    Key,
    Claims,
    Signatures,
    Tries,
    Work,
    Name,
    Issuer,
    Entry,
    Place,
    Kty,
    Kid,
    Alg,
    Size,
    Thumbprint,
    Reason,
    Sentence,
    Given,
    Value,
    Served,
    Keys,
    Calls,
    WorkCeiling,
    CallsCeiling,
    Protected,
    Header,
    Octets,
}

impl FieldName {
    /// What stands before its value in a line, and its name in JSON.
    pub(crate) fn names(self) -> (&'static str, &'static str)
        ensures { (result.0.now, result.1.now) ≡ names self }
    {
        match self {
            FieldName::Verdict => ("", "verdict"),
            FieldName::Document => (" ", "document"),
            FieldName::Fault => (" ", "fault"),
            FieldName::Denial => (" ", "denial"),
            FieldName::Part => (" part=", "part"),
            FieldName::At => (" at=", "at"),
            FieldName::Member => (" member=", "member"),
            FieldName::Nearest => ("", "nearest"),
            FieldName::Scope => (" scope=", "scope"),
            FieldName::Claim => (" claim=", "claim"),
            FieldName::File => (" file=", "file"),
            FieldName::Remedy => (" remedy=", "remedy"),
            FieldName::Signature => (" sig=", "signature"),
            FieldName::Key => (" key=", "key"),
            FieldName::Claims => ("", "claims"),
            FieldName::Signatures => ("", "signatures"),
            FieldName::Tries => (" tries=", "tries"),
            FieldName::Work => (" work=", "work"),
            FieldName::Name => (" ", "name"),
            FieldName::Issuer => (" issuer=", "issuer"),
            FieldName::Entry => (" entry=", "entry"),
            FieldName::Place => (" place=", "place"),
            FieldName::Kty => (" kty=", "kty"),
            FieldName::Kid => (" kid=", "kid"),
            FieldName::Alg => (" alg=", "alg"),
            FieldName::Size => (" size=", "size"),
            FieldName::Thumbprint => (" thumbprint=", "thumbprint"),
            FieldName::Reason => (" ", "reason"),
            FieldName::Sentence => (": ", "reason"),
            FieldName::Given => (" ", "given"),
            FieldName::Value => (" ", "value"),
            FieldName::Served => (" ", "alg"),
            FieldName::Keys => (" keys=", "keys"),
            FieldName::Calls => (" calls=", "calls"),
            FieldName::WorkCeiling => (" work=", "work_ceiling"),
            FieldName::CallsCeiling => (" max_calls=", "calls_ceiling"),
            FieldName::Protected => ("", "protected"),
            FieldName::Header => ("", "header"),
            FieldName::Octets => (" octets=", "octets"),
        }
    }
}

/// The value of a field.
#[derive(Clone, Copy)]
pub enum FieldValue<'a> {
    /// A word that a line has as it is.
    Word(&'a str),
    /// A word of this program's in a line, and what JSON has in its place.
    Words(&'static str, &'static str),
    /// A text of somebody else's.
    Text(&'a str),
    /// A text that no line has.
    Hint(&'a str),
    /// A whole number.
    Count(u64),
    /// The JSON value that octets are, which no line has.
    Json(&'a [u8]),
    /// What became of each signature, which no line has.
    States(&'a [SigState]),
    /// The tries, of which a line has the number.
    Tries(&'a [Try]),
}

/// A field: a name with a value.
#[derive(Clone, Copy)]
pub struct Field<'a> {
    pub name: FieldName,
    pub value: FieldValue<'a>,
}
