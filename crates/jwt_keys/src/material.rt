//! The octets of a key.

ghost use Rattle.std.specs.Prelude.{◌≤◌, IfOk, Ok};
ghost use Rattle.jwt_text.specs.Answers.{unless};
ghost use Rattle.jwt_keys.specs.Answers.{ReadsAs};
ghost use Rattle.jwt_keys.specs.SkipTable.{spelled_member, octet_skip_of};
ghost use Rattle.jwt_keys.specs.Entries.{octets_in};
ghost use Rattle.jwt_keys.specs.Keys.{secret_length};
ghost use Rattle.jwt_keys.specs.Materials.{material_octets};

use crate::fault::EntryFault;
use crate::kind::{KeyKind, allows_size};
use crate::skip::SkipReason;
use jwt_mac::OwnedKey;
use jwt_text::{ObjectRef, TextFault, decode};
use std::alloc::Global;

/// The octets that the member of this name spells.
fn octets(alloc: Global, members: &ObjectRef<'_>, name: &str) -> Result<Vec<u8>, EntryFault>
    ensures { ReadsAs (λ v. v.items) result (spelled_member name.now members.now) }
{
    let Some(text) = members.text(name) else {
        return Err(EntryFault::Skipped(SkipReason::Base64));
    };
    match decode(alloc, text.as_bytes()) {
        Ok(octets) => Ok(octets),
        Err(TextFault::Base64) => Err(EntryFault::Skipped(SkipReason::Base64)),
        Err(_) => Err(EntryFault::OutOfMemory),
    }
}

/// The octets of a key of this kind, or the first reason of spelling and size why there are none.
#[tactic(auto, unfolding(crate::specs::SkipTable::octet_skip_of))]
pub(crate) fn read_material(
    alloc: Global,
    kind: KeyKind,
    members: &ObjectRef<'_>,
) -> Result<OwnedKey<Vec<u8>>, EntryFault>
    ensures answer { let answer = unless (octet_skip_of kind members.now)
        (Ok (octets_in kind members.now)) in
        ReadsAs material_octets result answer }
    ensures bounded { IfOk result (λ material. secret_length (material_octets material) ≤ 4096) }
{
    match kind {
        KeyKind::Oct => {
            let k = octets(alloc, members, "k")?;
            if !allows_size(kind, k.len()) {
                return Err(EntryFault::Skipped(SkipReason::Length));
            }
            Ok(OwnedKey::Oct { k })
        }
        KeyKind::Rsa => {
            let n = octets(alloc, members, "n")?;
            let e = octets(alloc, members, "e")?;
            if !(allows_size(kind, n.len()) && allows_size(kind, e.len())) {
                return Err(EntryFault::Skipped(SkipReason::Length));
            }
            Ok(OwnedKey::Rsa { n, e })
        }
        KeyKind::Ec(curve) => {
            let x = octets(alloc, members, "x")?;
            let y = octets(alloc, members, "y")?;
            if !(allows_size(kind, x.len()) && allows_size(kind, y.len())) {
                return Err(EntryFault::Skipped(SkipReason::Length));
            }
            Ok(OwnedKey::Ec { curve, x, y })
        }
        KeyKind::Okp(curve) => {
            let x = octets(alloc, members, "x")?;
            if !allows_size(kind, x.len()) {
                return Err(EntryFault::Skipped(SkipReason::Length));
            }
            Ok(OwnedKey::Okp { curve, x })
        }
    }
}
