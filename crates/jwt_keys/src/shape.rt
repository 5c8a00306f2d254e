//! The members of an entry, by presence and kind.

ghost use Rattle.std.specs.Prelude.{◌≡◌, Some, None, is_some, MatchResult};
ghost use Rattle.std.specs.List.{list_all};
ghost use Rattle.jwt_text.specs.Members.{text_at, is_no_text};
ghost use Rattle.jwt_keys.specs.Kinds.{kind_at, required};
ghost use Rattle.jwt_keys.specs.SkipTable.{lacks, is_no_texts, has_other_kind, shape_skip_of};

use crate::kind::{KeyKind, KeyType, key_type_of, kind_of};
use crate::skip::SkipReason;
use jwt_text::ObjectRef;

/// Whether a required member of this key type is absent.
fn lacks(key_type: KeyType, members: &ObjectRef<'_>) -> bool
    ensures { result ≡ lacks key_type members.now }
{
    match key_type {
        KeyType::Oct => !members.has("k"),
        KeyType::Rsa => !(members.has("n") && members.has("e")),
        KeyType::Ec => !(members.has("crv") && members.has("x") && members.has("y")),
        KeyType::Okp => !(members.has("crv") && members.has("x")),
    }
}

/// Whether the member of this name is a text.
fn is_text(members: &ObjectRef<'_>, name: &str) -> bool
    ensures { result ≡ is_some (text_at name.now members.now) }
{
    members.text(name).is_some()
}

/// Whether each required member of this key type is a text.
fn are_required_texts(key_type: KeyType, members: &ObjectRef<'_>) -> bool
    ensures { result ≡ list_all (λ name. is_some (text_at name members.now)) (required key_type) }
{
    match key_type {
        KeyType::Oct => is_text(members, "k"),
        KeyType::Rsa => is_text(members, "n") && is_text(members, "e"),
        KeyType::Ec => is_text(members, "crv") && is_text(members, "x") && is_text(members, "y"),
        KeyType::Okp => is_text(members, "crv") && is_text(members, "x"),
    }
}

/// Whether the member of this name is there and no text.
fn is_no_text(members: &ObjectRef<'_>, name: &str) -> bool
    ensures { result ≡ is_no_text name.now members.now }
{
    members.has(name) && members.text(name).is_none()
}

/// Whether the member of this name is there and no list of texts.
fn is_no_texts(members: &ObjectRef<'_>, name: &str) -> bool
    ensures { result ≡ is_no_texts name.now members.now }
{
    if !members.has(name) {
        return false;
    }
    match members.list(name) {
        Some(list) => !list.are_texts(),
        None => true,
    }
}

/// Whether a required or an optional member of this key type has another kind.
fn has_other_kind(key_type: KeyType, members: &ObjectRef<'_>) -> bool
    ensures { result ≡ has_other_kind key_type members.now }
{
    !are_required_texts(key_type, members)
        || is_no_text(members, "kid")
        || is_no_text(members, "alg")
        || is_no_text(members, "use")
        || is_no_texts(members, "key_ops")
}

/// The kind of a key with these members, or the first reason of their presence and kinds why there is none. It
/// takes no memory.
#[tactic(auto, unfolding(crate::specs::SkipTable::shape_skip_of))]
pub(crate) fn shape(members: &ObjectRef<'_>) -> Result<KeyKind, SkipReason>
    ensures { MatchResult result
        (λ kind. (shape_skip_of members.now ≡ None) × (kind_at members.now ≡ Some kind))
        (λ reason. shape_skip_of members.now ≡ Some reason) }
{
    if !members.has("kty") {
        return Err(SkipReason::MemberMissing);
    }
    if members.text("kty").is_none() {
        return Err(SkipReason::MemberKind);
    }
    let Some(key_type) = key_type_of(members) else {
        return Err(SkipReason::KtyUnknown);
    };
    if lacks(key_type, members) {
        return Err(SkipReason::MemberMissing);
    }
    if has_other_kind(key_type, members) {
        return Err(SkipReason::MemberKind);
    }
    match kind_of(key_type, members) {
        Some(kind) => Ok(kind),
        None => Err(SkipReason::CrvUnknown),
    }
}
