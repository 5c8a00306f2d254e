//! The document of an access rule.

ghost use Rattle.std.specs.Prelude.{◌≡◌, ◌<◌, Err, IsErrOf, length, option_map};
ghost use Rattle.jwt_access.specs.Document.{rule_of, rule_in, settings_of, is_known, first_unknown};

use crate::access_fault::AccessFault;
use crate::further_kinds::{NamesKind, ValuesKind, names, values};
use crate::member_kinds::{claim_rules, scope_claim, scopes};
use crate::rule::AccessRule;
use jwt_text::{LONGEST_POLICY, ObjectRef, TextFault, object};
use std::alloc::Global;

impl AccessRule {
    /// The rule of a document in UTF-8, of at most 65,536 octets: an object with these members, all optional.
    ///
    /// | Member | Kind and range | Default |
    /// |---|---|---|
    /// | `scopes` | list of scope tokens (RFC 6749, section 3.3) | empty |
    /// | `scope_claim` | name of the claim that carries scopes | `scope` |
    /// | `claims` | object, from names of claims to lists, not empty, of texts, truth values and whole numbers of 64 signed bits | empty |
    /// | `absent` | list of names of claims that have to be absent | empty |
    /// | `only` | object as `claims`, of claims that have to have no other values | empty |
    /// | `objects` | list of names of claims that have to be objects | empty |
    /// | `ages` | object, from names of claims that have to be dates to whole numbers of seconds, 0 to 4,294,967,295: how old they may be | empty |
    /// | `ascii` | object, from names of claims that have to be texts of ASCII to whole numbers, 0 to 4,294,967,295: how many octets they may have | empty |
    ///
    /// The name of a claim that begins with `/` is a JSON Pointer (RFC 6901) through objects, as `/realm_access/roles`; any other
    /// is the name of a member of the claims. The claim has to be one of the values of its list, or a list that holds one; of the
    /// claim of this very name `scope_claim` a text is enough that it grants as a scope. A claim of `only` has to be one of the values,
    /// or a list of them alone, which may be empty. A rule that asks for nothing is met by all claims.
    ///
    /// # Errors
    /// The first that holds of `TooLong`, more octets; `Json`, no JSON text or no object; `NameTwice`, a name that stands twice in
    /// one object, at any depth; `Member` with the first name, in octet order, that isn't in this table; then, member by member in
    /// the order of this table, `Member` where the kind is another, and `Range` where the value is out of its range, as a scope that
    /// is no scope token or a `scope_claim` that begins with `/` and is no JSON Pointer; for `claims` and `only`, claim by claim in
    /// octet order of their names, `ClaimRange` where the name begins with `/` and is no JSON Pointer, `Claim` where the list is of
    /// another kind or holds a value of another, and `ClaimRange` where it is empty; for `ages` and `ascii` the same, `Claim` where it
    /// is no whole number of 64 signed bits, and `ClaimRange` where that is out of its range; for `absent` and `objects`, name by name,
    /// `ClaimRange` where it begins with `/` and is no JSON Pointer. `OutOfMemory` comes where an allocation was refused, in place of
    /// any other answer but `TooLong`.
    #[tactic(auto, unfolding(crate::specs::Document::rule_of))]
    pub fn read(alloc: Global, document: &[u8]) -> Result<AccessRule, AccessFault>
        ensures answer { ¬ IsErrOf result AccessFault.OutOfMemory → result ≡ rule_of document.now }
        ensures too_long { LONGEST_POLICY < length document.now → result ≡ Err AccessFault.TooLong }
    {
        if document.len() > LONGEST_POLICY as usize {
            return Err(AccessFault::TooLong);
        }
        match object(alloc, document) {
            Ok(members) => AccessRule::of_members(alloc, &members.lend()),
            Err(TextFault::OutOfMemory) => Err(AccessFault::OutOfMemory),
            Err(TextFault::NameTwice) => Err(AccessFault::NameTwice),
            Err(_) => Err(AccessFault::Json),
        }
    }

    /// The rule of these members, as [`AccessRule::read`] reads those of a document.
    ///
    /// # Errors
    /// As [`AccessRule::read`], but for what is said of a whole text: `TooLong`, `Json`, `NameTwice`.
    #[tactic(auto, unfolding(crate::specs::Document::rule_in))]
    pub fn of_members(alloc: Global, members: &ObjectRef<'_>) -> Result<AccessRule, AccessFault>
        ensures { ¬ IsErrOf result AccessFault.OutOfMemory → result ≡ rule_in members.now }
    {
        match first_unknown(members) {
            Some(name) => Err(AccessFault::member(alloc, name)),
            None => settings(alloc, members),
        }
    }
}

/// Whether this is the name of a member.
fn is_known(name: &str) -> bool
    ensures { result ≡ is_known name.now }
{
    matches!(
        name,
        "scopes" | "scope_claim" | "claims" | "absent" | "only" | "objects" | "ages" | "ascii"
    )
}

/// The first name, in octet order, that isn't one of the table.
#[tactic(auto, using(crate::proofs::NamesLemmas::length_names, crate::proofs::NamesLemmas::unknown_here, crate::proofs::NamesLemmas::unknown_later, crate::proofs::NamesLemmas::unknown_end, crate::proofs::NamesLemmas::unknown_past))]
fn first_unknown<'a>(members: &ObjectRef<'a>) -> Option<&'a str>
    ensures { option_map (λ s. s.now) result ≡ first_unknown members.now }
{
    for place in 0..members.member_count() {
        match members.name(place) {
            Some(name) => {
                if !is_known(name) {
                    return Some(name);
                }
            }
            None => return None,
        }
    }
    None
}

/// The rule of members whose names are known.
fn settings(alloc: Global, members: &ObjectRef<'_>) -> Result<AccessRule, AccessFault>
    ensures { ¬ IsErrOf result AccessFault.OutOfMemory → result ≡ settings_of members.now }
{
    let scopes = scopes(alloc, members, "scopes")?;
    let scope_claim = scope_claim(alloc, members, "scope_claim")?;
    let claims = claim_rules(alloc, members, "claims")?;
    let absent_claims = names(alloc, members, NamesKind::Absent, "absent")?;
    let only_claims = values(alloc, members, ValuesKind::Only, "only")?;
    let object_claims = names(alloc, members, NamesKind::Object, "objects")?;
    let aged_claims = values(alloc, members, ValuesKind::Age, "ages")?;
    let ascii_claims = values(alloc, members, ValuesKind::Ascii, "ascii")?;
    Ok(AccessRule {
        scopes,
        scope_claim,
        claims,
        absent_claims,
        only_claims,
        object_claims,
        aged_claims,
        ascii_claims,
    })
}
