//! Private members in a key set of a service document.
ghost use Rattle.std.specs.Prelude.{◌≡◌, IfOk, false, slice_get};
ghost use Rattle.std.specs.Option.{option_map_or};
ghost use Rattle.jwt_keys.specs.Numbers.{numbers};
ghost use Rattle.jwt_advice.specs.Private.{has_private, is_private};
ghost use Rattle.jwt_document.specs.Meanings.{meaning};
ghost use Rattle.jwt_command.specs.Services.{private_in, set_entries};

use jwt_document::Document;
use jwt_text::{List, ObjectRef};
use std::alloc::{AllocError, Global};

/// Whether a member of a private key is among these.
fn has_private(members: &ObjectRef<'_>) -> bool
    ensures { result ≡ has_private members.now }
{
    members.has("d")
        || members.has("p")
        || members.has("q")
        || members.has("dp")
        || members.has("dq")
        || members.has("qi")
        || members.has("oth")
}

/// Whether the entry at this place is an object with a private member.
fn is_private_at(entries: &List<'_>, place: usize) -> bool
    ensures { result ≡ option_map_or is_private (slice_get entries.now place) false }
{
    match entries.object(place) {
        Some(members) => has_private(&members),
        None => false,
    }
}

/// The places of these entries that have a private member.
fn private_places(alloc: Global, entries: &List<'_>) -> Result<Vec<usize>, AllocError>
    ensures { IfOk result (λ found. found.items ≡ numbers is_private 0 entries.now) }
{
    let mut found = Vec::new(alloc);
    for place in 0..entries.len() {
        if is_private_at(entries, place) {
            found.push(place)?;
        }
    }
    Ok(found)
}

/// The entries of the key set of the issuer of this number, where the document has one.
fn set_entries<'d>(document: &'d Document, number: usize) -> Option<List<'d>>
    ensures { result ≡ set_entries number (meaning document.now).members }
{
    document
        .members()
        .list("issuers")?
        .object(number)?
        .object("keys")?
        .object("set")?
        .list("keys")
}

/// The places of the entries with a private member in the key set of the issuer of this number.
pub(crate) fn private_in(
    alloc: Global,
    document: &Document,
    number: usize,
) -> Result<Vec<usize>, AllocError>
    ensures { IfOk result (λ places. places.items
        ≡ private_in number (meaning document.now).members) }
{
    match set_entries(document, number) {
        Some(entries) => private_places(alloc, &entries),
        None => Ok(Vec::new(alloc)),
    }
}
