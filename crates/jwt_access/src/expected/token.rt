//! The member that a reference token of a JSON Pointer names (RFC 6901, section 4), found without memory.

ghost use Rattle.std.specs.Prelude.{◌≡◌, ◌≢◌, ◌↔◌, ◌++◌, ℕ, List, IsTrue, MatchOption, option_and_then};
ghost use Rattle.serde_json.specs.Find.{get_member};
ghost use Rattle.jwt_access.specs.Granted.{escaped};
ghost use Rattle.jwt_access.specs.expected.Views.{Lacks, member_of, spelled};

use crate::laws::paths_are_spelled;
use jwt_text::ObjectRef;

/// What stands behind the spelling of this octet, `None` where the text doesn't begin with it.
fn behind(text: &[u8], octet: u8) -> Option<&[u8]>
    ensures { MatchOption result ((rest : List ℕ) → text.now ≢ spelled octet ++ rest)
        (λ rest. text.now ≡ spelled octet ++ rest.now) }
{
    match octet {
        b'~' => text.strip_prefix(b"~0"),
        b'/' => text.strip_prefix(b"~1"),
        _ => text.strip_prefix(&[octet]),
    }
}

/// Whether the token spells the name.
fn is_spelling(token: &[u8], name: &[u8]) -> bool
    ensures { IsTrue result ↔ (token.now ≡ escaped name.now) }
{
    let mut rest = token;
    for octet in name {
        match behind(rest, *octet) {
            Some(more) => rest = more,
            None => return false,
        }
    }
    rest.is_empty()
}

/// The name of the member whose name the token spells, looked for one by one.
fn spelled_name<'a>(home: &ObjectRef<'a>, token: &'a str) -> Option<&'a str>
    requires { Lacks 47 token.now }
    ensures { option_and_then (λ name. get_member name.now home.now) result
        ≡ member_of token.now home.now }
{
    paths_are_spelled();
    for place in 0..home.member_count() {
        if let Some(name) = home.name(place) {
            if is_spelling(token.as_bytes(), name.as_bytes()) {
                return Some(name);
            }
        }
    }
    None
}

/// A name of the member that the token names: the token itself, where it has no `~`. `None` where it has one, and names no member.
pub(crate) fn name_of<'a>(home: &ObjectRef<'a>, token: &'a str) -> Option<&'a str>
    requires { Lacks 47 token.now }
    ensures { option_and_then (λ name. get_member name.now home.now) result
        ≡ member_of token.now home.now }
{
    if token.contains('~') {
        spelled_name(home, token)
    } else {
        Some(token)
    }
}
