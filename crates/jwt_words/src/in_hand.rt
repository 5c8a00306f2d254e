//! The documents that are in hand, and the first file that is named and was not read.
ghost use Rattle.std.specs.Prelude.{◌≡◌, option_map};
ghost use Rattle.jwt_words.specs.InHand.{none_held, unread, unread_or};
ghost use Rattle.jwt_words.specs.Seen.{files_view, held_view};

use crate::command::Files;

/// The octets of the documents that were read from files. A document in hand isn't expected in the input.
#[derive(Clone, Copy, Debug)]
pub struct Held<'a> {
    /// The policy's; more than 65,536 are too many.
    pub policy: Option<&'a [u8]>,

    /// The key set's; more than 4,194,304 are too many.
    pub keys: Option<&'a [u8]>,

    /// The access rule's; more than 65,536 are too many.
    pub access: Option<&'a [u8]>,

    /// The token's; more than the policy's limit are too many.
    pub token: Option<&'a [u8]>,

    /// The text of the key of `mac`, and one line feed behind it or none; more than 5,463 are too many. Of `jwk`, public keys in PEM or
    /// DER, and of `policy` the service document; more than 4,194,304 are too many.
    pub key: Option<&'a [u8]>,

    /// Octets of the system's random source, as many as [`reads`](crate::Command::reads) says; none where it gave fewer.
    pub random: Option<&'a [u8]>,
}

impl<'a> Held<'a> {
    /// Nothing is in hand.
    pub fn none() -> Held<'a>
        ensures { held_view result ≡ none_held }
    {
        Held {
            policy: None,
            keys: None,
            access: None,
            token: None,
            key: None,
            random: None,
        }
    }
}

/// A file that is named and isn't in hand, else the next.
pub(crate) fn unread_or<'a>(
    name: Option<&'a str>,
    held: Option<&[u8]>,
    next: Option<&'a str>,
) -> Option<&'a str>
    ensures { option_map (λ t. t.now) result
        ≡ unread_or (option_map (λ t. t.now) name.entry) (option_map (λ t. t.now) held.entry)
        (option_map (λ t. t.now) next.entry) }
{
    match (name, held) {
        (Some(name), None) => Some(name),
        _ => next,
    }
}

/// The first file that is named and isn't in hand.
pub fn unread<'a>(files: Files<'a>, held: Held<'_>) -> Option<&'a str>
    ensures { option_map (λ t. t.now) result
        ≡ unread (files_view files.entry) (held_view held.entry) }
{
    let key = unread_or(files.key, held.key, None);
    let last = unread_or(files.token, held.token, key);
    let asked = unread_or(files.access, held.access, last);
    let later = unread_or(files.keys, held.keys, asked);
    unread_or(files.policy, held.policy, later)
}
