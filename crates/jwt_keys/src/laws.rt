//! Laws over the definitions that the contracts cite. The functions do nothing: each is its contract.

ghost use Rattle.jwt_keys.specs.Laws.{ListsEachEntry, SkipsByTheTable, ThumbprintsAreOfJson};

use jwt_text::laws::{octets_are_spelled, spellings_are_plain};

/// An entry is skipped for the first row of the table that holds; where none does, it gives the key that has its members, by the kind
/// that they name, and its place.
pub fn skips_by_the_table()
    ensures { SkipsByTheTable }
{}

/// The keys of a key set are those of the readable entries, and its skips are of the others, both in the order of the
/// entries, each with its place (RFC 7517, section 5).
pub fn lists_each_entry()
    ensures { ListsEachEntry }
{}

/// The text whose digest is the thumbprint of a readable key is the compact JSON of the members that its kind requires and `kty`, as
/// they stand in the key, their names in ascending order (RFC 7638, sections 3 and 3.2).
pub fn thumbprints_are_of_json()
    ensures { ThumbprintsAreOfJson }
{
    octets_are_spelled();
    spellings_are_plain();
}
