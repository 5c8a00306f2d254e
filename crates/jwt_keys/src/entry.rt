//! The entries of a key set, one by one.

ghost use Rattle.std.specs.Prelude.{◌≡◌, ◌≤◌, ◌++◌, option_map, map, string_bytes, IfOk, OnOk, unwrap_or, option_and_then, slice_get, []};
ghost use Rattle.serde_json.specs.Find.{as_str};
ghost use Rattle.jwt_text.specs.Members.{text_at, list_at};
ghost use Rattle.jwt_keys.specs.Answers.{ReadsAs};
ghost use Rattle.jwt_keys.specs.Entries.{octets_in, text_or_empty, parts_of, key_of, key_by_steps, key_if, skip_if};
ghost use Rattle.jwt_keys.specs.Keys.{secret_length};
ghost use Rattle.jwt_keys.specs.Materials.{material_octets};
ghost use Rattle.jwt_keys.specs.Views.{key_parts};

use crate::fault::EntryFault;
use crate::key::Key;
use crate::kind::KeyKind;
use crate::material::read_material;
use crate::shape::shape;
use crate::skip::{Skip, SkipReason};
use crate::thumbprint::thumbprint;
use jwt_mac::OwnedKey;
use jwt_text::{List, ObjectRef};
use std::alloc::{AllocError, Global};

/// A copy of the text of this name.
fn copy_text(
    alloc: Global,
    members: &ObjectRef<'_>,
    name: &str,
) -> Result<Option<String>, AllocError>
    ensures { IfOk result (λ o. option_map string_bytes o ≡ text_at name.now members.now) }
{
    match members.text(name) {
        Some(text) => Ok(Some(String::from_str(alloc, text)?)),
        None => Ok(None),
    }
}

/// The text at this place, or the empty one.
fn item_text<'a>(list: &List<'a>, place: usize) -> &'a str
    ensures { result.now ≡ unwrap_or (option_and_then as_str (slice_get list.now place)) [] }
{
    list.text(place).unwrap_or("")
}

/// A copy of a list of texts.
fn copy_items(alloc: Global, list: &List<'_>) -> Result<Vec<String>, AllocError>
    ensures { IfOk result (λ v. map string_bytes v.items ≡ map text_or_empty list.now) }
{
    let mut copies = Vec::new(alloc);
    for place in 0..list.len() {
        let text = item_text(list, place);
        copies.push(String::from_str(alloc, text)?)?;
    }
    Ok(copies)
}

/// A copy of the list of texts of this name.
fn copy_texts(
    alloc: Global,
    members: &ObjectRef<'_>,
    name: &str,
) -> Result<Option<Vec<String>>, AllocError>
    ensures { let texts = option_map (map text_or_empty) (list_at name.now members.now) in
        IfOk result (λ o. option_map (λ v. map string_bytes v.items) o ≡ texts) }
{
    match members.list(name) {
        Some(list) => Ok(Some(copy_items(alloc, &list)?)),
        None => Ok(None),
    }
}

/// The key of this kind and these octets.
fn make_key(
    alloc: Global,
    place: u32,
    kind: KeyKind,
    material: OwnedKey<Vec<u8>>,
    members: &ObjectRef<'_>,
) -> Result<Key, AllocError>
    requires octets { material_octets material ≡ octets_in kind members.now }
    requires bounded { secret_length (material_octets material) ≤ 4096 }
    ensures { IfOk result (λ k. key_parts k ≡ parts_of place kind members.now) }
{
    let kid = copy_text(alloc, members, "kid")?;
    let alg = copy_text(alloc, members, "alg")?;
    let key_use = copy_text(alloc, members, "use")?;
    let key_ops = copy_texts(alloc, members, "key_ops")?;
    let thumbprint = thumbprint(alloc, kind, members)?;
    Ok(Key {
        material,
        kid,
        alg,
        key_use,
        key_ops,
        thumbprint,
        place,
    })
}

/// The key of an entry that is an object, or the first reason why it is skipped.
#[tactic(auto, unfolding(crate::specs::Entries::key_of))]
fn read_key(alloc: Global, place: u32, members: &ObjectRef<'_>) -> Result<Key, EntryFault>
    ensures { ReadsAs key_parts result (key_of place members.now) }
{
    let kind = match shape(members) {
        Ok(kind) => kind,
        Err(reason) => return Err(EntryFault::Skipped(reason)),
    };
    let material = read_material(alloc, kind, members)?;
    Ok(make_key(alloc, place, kind, material, members)?)
}

/// Adds the key of an entry, or the reason why it is skipped. `None` is an entry that is no object.
pub(crate) fn add_entry(
    alloc: Global,
    keys: &mut Vec<Key>,
    skipped: &mut Vec<Skip>,
    place: u32,
    entry: Option<ObjectRef<'_>>,
) -> Result<(), AllocError>
    ensures keys { OnOk result (map key_parts keys.new.items
        ≡ map key_parts keys.old.items ++ key_if (key_by_steps place entry.entry)) }
    ensures skipped { OnOk result (skipped.new.items
        ≡ skipped.old.items ++ skip_if place (key_by_steps place entry.entry)) }
{
    let Some(members) = entry else {
        skipped.push(Skip {
            place,
            reason: SkipReason::NotObject,
        })?;
        return Ok(());
    };
    match read_key(alloc, place, &members) {
        Ok(key) => {
            keys.push(key)?;
            Ok(())
        }
        Err(EntryFault::Skipped(reason)) => {
            skipped.push(Skip { place, reason })?;
            Ok(())
        }
        Err(EntryFault::OutOfMemory) => Err(AllocError),
    }
}
