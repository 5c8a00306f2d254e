//! The public key that stands in a token's own header.

ghost use Rattle.std.specs.Prelude.{◌≡◌, ◌≢◌, ◌∷◌, [], Ok, Err, IfOk, IfErr};
ghost use Rattle.jwt_jws.specs.Views.{parts, token};
ghost use Rattle.jwt_keys.specs.Keys.{KeyParts};
ghost use Rattle.jwt_keys.specs.KeySets.{key_set};
ghost use Rattle.jwt_possession.specs.HeaderKey.{is_private, public_key_of, header_key_of};
ghost use Rattle.jwt_possession.specs.Proofs.{HasOwnKey, IsKeyFault};

use jwt_jws::{Signature, Signed};
use jwt_keys::KeySet;
use jwt_text::ObjectRef;
use std::alloc::Global;

/// Why a header has no key that may prove anything.
#[derive(Clone, Copy, Debug, PartialEq, Eq)]
pub enum KeyFault {
    /// The token isn't in compact form.
    NotCompact,
    /// There is no member `jwk` in the protected header, or it is no object.
    KeyMissing,
    /// It has a member of a private or of a shared key.
    KeyPrivate,
    /// It is no readable key.
    KeyUnreadable,
    /// An allocation was refused.
    OutOfMemory,
}

impl KeyFault {
    ghost use Rattle.jwt_possession.specs.FaultNames.{key_fault_name};

    /// The name of the fault, that of its variant.
    pub fn name(self) -> &'static str
        ensures { result.now ≡ key_fault_name self }
    {
        match self {
            KeyFault::NotCompact => "NotCompact",
            KeyFault::KeyMissing => "KeyMissing",
            KeyFault::KeyPrivate => "KeyPrivate",
            KeyFault::KeyUnreadable => "KeyUnreadable",
            KeyFault::OutOfMemory => "OutOfMemory",
        }
    }
}

/// Whether the key has a member of a private or of a shared key.
fn is_private(jwk: &ObjectRef<'_>) -> bool
    ensures { result ≡ is_private jwk.now }
{
    jwk.has("d")
        || jwk.has("p")
        || jwk.has("q")
        || jwk.has("dp")
        || jwk.has("dq")
        || jwk.has("qi")
        || jwk.has("oth")
        || jwk.has("k")
}

/// The set of one key, that of this object.
///
/// # Errors
/// The first that holds of `KeyPrivate` and `KeyUnreadable`. `OutOfMemory` comes where an allocation was refused.
fn public_key(alloc: Global, jwk: ObjectRef<'_>) -> Result<KeySet, KeyFault>
    ensures ok { IfOk result (λ set. (key : KeyParts)
        × (public_key_of jwk.entry ≡ Ok key) × ((key_set set).keys ≡ key ∷ [])) }
    ensures err { IfErr result (λ fault. fault ≢ KeyFault.OutOfMemory
        → public_key_of jwk.entry ≡ Err fault) }
{
    if is_private(&jwk) {
        return Err(KeyFault::KeyPrivate);
    }
    match KeySet::of_entry(alloc, jwk) {
        Ok(set) => {
            if set.is_empty() {
                Err(KeyFault::KeyUnreadable)
            } else {
                Ok(set)
            }
        }
        Err(_) => Err(KeyFault::OutOfMemory),
    }
}

/// The set of one key, the public one in the member `jwk` of the protected header (RFC 7515, section 4.1.3). It is nobody's that is known: a
/// token that it verifies was signed by who holds it, and by no more.
///
/// # Errors
/// The first that holds of `KeyMissing`, `KeyPrivate` and `KeyUnreadable`. `OutOfMemory` comes where an allocation was refused.
fn header_key(alloc: Global, signature: &Signature<'_>) -> Result<KeySet, KeyFault>
    ensures ok { IfOk result (λ set. (key : KeyParts)
        × (header_key_of (parts signature.now) ≡ Ok key) × ((key_set set).keys ≡ key ∷ [])) }
    ensures err { IfErr result (λ fault. fault ≢ KeyFault.OutOfMemory
        → header_key_of (parts signature.now) ≡ Err fault) }
{
    match signature.protected().object("jwk") {
        Some(jwk) => public_key(alloc, jwk),
        None => Err(KeyFault::KeyMissing),
    }
}

/// The set of one key, the public one in the header of a token in compact form.
///
/// # Errors
/// The first that holds of `NotCompact`, `KeyMissing`, `KeyPrivate` and `KeyUnreadable`. `OutOfMemory` comes where an allocation was refused.
pub(crate) fn own_key(alloc: Global, signed: &Signed<'_>) -> Result<KeySet, KeyFault>
    ensures ok { IfOk result (λ set. (key : KeyParts)
        × HasOwnKey (token signed.now) key × ((key_set set).keys ≡ key ∷ [])) }
    ensures err { IfErr result (λ fault. fault ≢ KeyFault.OutOfMemory → IsKeyFault (token signed.now) fault) }
{
    if !signed.is_compact() || signed.count() != 1 {
        return Err(KeyFault::NotCompact);
    }
    match signed.signature(0) {
        Some(signature) => header_key(alloc, signature),
        None => Err(KeyFault::NotCompact),
    }
}
