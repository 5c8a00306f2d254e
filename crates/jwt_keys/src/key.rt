//! A readable key.

ghost use Rattle.std.specs.Prelude.{◌≡◌, ◌≤◌, option_map, length, map, string_bytes};
ghost use Rattle.std.specs.List.{list_any};
ghost use Rattle.std.specs.Str.{bytes_eq};
ghost use Rattle.jwt_keys.specs.Keys.{allows, is_for_signatures, secret_length};
ghost use Rattle.jwt_keys.specs.Materials.{material_octets};

use jwt_mac::{KeyView, OwnedKey};

/// A readable key of a key set (RFC 7517, section 4).
#[derive(Drop)]
pub struct Key {
    pub(crate) material: OwnedKey<Vec<u8>>,
    pub(crate) kid: Option<String>,
    pub(crate) alg: Option<String>,
    pub(crate) key_use: Option<String>,
    pub(crate) key_ops: Option<Vec<String>>,
    pub(crate) thumbprint: String,
    pub(crate) place: u32,
    ghost sized: { length (string_bytes thumbprint) ≡ 43 },
    ghost bounded: { secret_length (material_octets material) ≤ 4096 },
}

impl Key {
    ghost use Rattle.jwt_mac.specs.Verifying.{key_octets};
    ghost use Rattle.jwt_keys.specs.Keys.{permits_of, has_name};
    ghost use Rattle.jwt_keys.specs.Views.{key_parts};

    /// The kind of the key and the octets that its members spell, lent (RFC 7518, section 6; RFC 8037, section 2).
    pub fn view(&self) -> KeyView<'_>
        ensures { key_octets result ≡ (key_parts self.now).octets }
    {
        match &self.material {
            OwnedKey::Oct { k } => KeyView::Oct { k },
            OwnedKey::Rsa { n, e } => KeyView::Rsa { n, e },
            OwnedKey::Ec { curve, x, y } => KeyView::Ec {
                curve: *curve,
                x,
                y,
            },
            OwnedKey::Okp { curve, x } => KeyView::Okp { curve: *curve, x },
        }
    }

    /// The member `kid`, if it is there (RFC 7517, section 4.5). It may be the empty text.
    pub fn kid(&self) -> Option<&str>
        ensures { option_map (λ s. s.now) result ≡ (key_parts self.now).kid }
    {
        self.kid.as_deref()
    }

    /// The member `alg`, if it is there, which may be any text (RFC 7517, section 4.4).
    pub fn alg_text(&self) -> Option<&str>
        ensures { option_map (λ s. s.now) result ≡ (key_parts self.now).alg }
    {
        self.alg.as_deref()
    }

    /// Whether the key may be used for this operation, as `verify` or `sign`: its `use`, where present, is `sig`
    /// (RFC 7517, section 4.2), and its `key_ops`, where present, holds the operation (section 4.3). Both are
    /// compared by case.
    pub fn permits(&self, op: &str) -> bool
        ensures { result ≡ permits_of op.now (key_parts self.now) }
    {
        is_for_signatures(&self.key_use) && allows(&self.key_ops, op)
    }

    /// The thumbprint by SHA-256, as the 43 characters of its base64url text (RFC 7638, section 3). It was computed
    /// when the key was read.
    pub fn thumbprint(&self) -> &[u8]
        ensures text { result.now ≡ (key_parts self.now).thumbprint }
        ensures sized { length result.now ≡ 43 }
    {
        self.thumbprint.as_bytes()
    }

    /// The same as [`Key::thumbprint`], as a text.
    pub fn thumbprint_text(&self) -> &str
        ensures { result.now ≡ (key_parts self.now).thumbprint }
    {
        self.thumbprint.as_str()
    }

    /// The place of its entry in the list `keys`, from 0, skipped entries counted.
    pub fn place(&self) -> u32
        ensures { result ≡ (key_parts self.now).place }
    {
        self.place
    }

    /// Whether the key answers to this name: its `kid` is the name or, where `thumb`, it has no `kid` and its thumbprint is.
    /// Both are compared octet by octet.
    pub fn is_named(&self, name: &str, thumb: bool) -> bool
        ensures { result ≡ has_name name.now thumb (key_parts self.now) }
    {
        match &self.kid {
            Some(kid) => name == kid.as_str(),
            None => thumb && name == self.thumbprint.as_str(),
        }
    }
}

/// Whether this `use` is absent or `sig`.
fn is_for_signatures(key_use: &Option<String>) -> bool
    ensures { result ≡ is_for_signatures (option_map string_bytes key_use.now) }
{
    match key_use {
        Some(text) => text.as_str() == "sig",
        None => true,
    }
}

/// Whether these `key_ops` are absent or hold the operation.
fn allows(key_ops: &Option<Vec<String>>, op: &str) -> bool
    ensures { result ≡ allows op.now (option_map (λ v. map string_bytes v.items) key_ops.now) }
{
    match key_ops {
        Some(ops) => holds(ops, op),
        None => true,
    }
}

/// Whether one of these texts is the operation.
fn holds(ops: &Vec<String>, op: &str) -> bool
    ensures { result ≡ list_any (λ o. bytes_eq o op.now) (map string_bytes ops.now.items) }
{
    for text in ops {
        if text.as_str() == op {
            return true;
        }
    }
    false
}
