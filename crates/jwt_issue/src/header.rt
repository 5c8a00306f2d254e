//! The protected header of what is issued, and base64url texts.
ghost use Rattle.std.specs.Prelude.{◌≡◌, IfOk, OnOk, IsOkUnless, IsUtf8};
ghost use Rattle.serde_json.specs.Data.{object};
ghost use Rattle.serde_json.specs.Written.{compact_text};
ghost use Rattle.jwt_text.specs.Base64url.{AreOctets, spelling};
ghost use Rattle.jwt_issue.specs.Issued.{header, header_spelling};
ghost use Rattle.jwt_issue.specs.Views.{pair_of, optional_text};

use crate::fault::IssueFault;
use jwt_keys::Key;
use jwt_mac::Alg;
use jwt_text::{ObjectOut, encode};
use std::alloc::Global;

/// The compact text of the protected header.
fn header_text(alloc: Global, alg: Alg, key: &Key, typ: Option<&str>) -> Result<Vec<u8>, IssueFault>
    ensures ok { IfOk result
        (λ v. v.items ≡ compact_text (object (header (optional_text typ.entry) (pair_of alg key.now)))) }
    ensures utf8 { IfOk result (λ v. IsUtf8 v.items) }
    ensures err { IsOkUnless result IssueFault.OutOfMemory }
{
    let mut header = ObjectOut::new(alloc);
    if header.text("alg", alg.text()).is_err() {
        return Err(IssueFault::OutOfMemory);
    }
    if let Some(kid) = key.kid() {
        if header.text("kid", kid).is_err() {
            return Err(IssueFault::OutOfMemory);
        }
    }
    if let Some(typ) = typ {
        if header.text("typ", typ).is_err() {
            return Err(IssueFault::OutOfMemory);
        }
    }
    match header.finish() {
        Ok(text) => Ok(text),
        Err(_) => Err(IssueFault::OutOfMemory),
    }
}

/// The base64url text that spells the octets.
pub(crate) fn spell(alloc: Global, octets: &[u8]) -> Result<Vec<u8>, IssueFault>
    ensures ok { IfOk result (λ v. v.items ≡ spelling octets.now) }
    ensures octets { AreOctets octets.now }
    ensures err { IsOkUnless result IssueFault.OutOfMemory }
{
    match encode(alloc, octets) {
        Ok(text) => Ok(text),
        Err(_) => Err(IssueFault::OutOfMemory),
    }
}

/// The text of the protected header (RFC 7515, section 5.1).
#[tactic(auto, unfolding(crate::specs::Issued::header_spelling))]
pub(crate) fn protected_text(
    alloc: Global,
    alg: Alg,
    key: &Key,
    typ: Option<&str>,
) -> Result<Vec<u8>, IssueFault>
    ensures ok { IfOk result
        (λ v. v.items ≡ header_spelling (optional_text typ.entry) (pair_of alg key.now)) }
    ensures utf8 { OnOk result
        (IsUtf8 (compact_text (object (header (optional_text typ.entry) (pair_of alg key.now))))) }
    ensures err { IsOkUnless result IssueFault.OutOfMemory }
{
    let text = header_text(alloc, alg, key, typ)?;
    spell(alloc, &text)
}
