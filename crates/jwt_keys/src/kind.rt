//! Key types and curves.

ghost use Rattle.std.specs.Prelude.{◌≡◌};
ghost use Rattle.jwt_keys.specs.Kinds.{key_type_at, curve_named, ed_curve_named, kind_named, coordinate_size, point_size, allows_size};

use jwt_mac::{EcCurve, EdCurve};
use jwt_text::ObjectRef;

/// A key type (RFC 7518, section 6.1; RFC 8037, section 2).
#[derive(Clone, Copy, Debug, PartialEq, Eq)]
pub(crate) enum KeyType {
    Oct,
    Rsa,
    Ec,
    Okp,
}

/// A key type with its curve, where it has one.
#[derive(Clone, Copy, Debug, PartialEq, Eq)]
pub(crate) enum KeyKind {
    Oct,
    Rsa,
    Ec(EcCurve),
    Okp(EdCurve),
}

/// The key type that the member `kty` names.
pub(crate) fn key_type_of(members: &ObjectRef<'_>) -> Option<KeyType>
    ensures { result ≡ key_type_at members.now }
{
    match members.text("kty")? {
        "oct" => Some(KeyType::Oct),
        "RSA" => Some(KeyType::Rsa),
        "EC" => Some(KeyType::Ec),
        "OKP" => Some(KeyType::Okp),
        _ => None,
    }
}

/// The curve of this name (RFC 7518, section 6.2.1.1).
fn curve_of(name: &str) -> Option<EcCurve>
    ensures { result ≡ curve_named name.now }
{
    match name {
        "P-256" => Some(EcCurve::P256),
        "P-384" => Some(EcCurve::P384),
        "P-521" => Some(EcCurve::P521),
        _ => None,
    }
}

/// The curve of this name (RFC 8037, section 3.1).
fn ed_curve_of(name: &str) -> Option<EdCurve>
    ensures { result ≡ ed_curve_named name.now }
{
    match name {
        "Ed25519" => Some(EdCurve::Ed25519),
        "Ed448" => Some(EdCurve::Ed448),
        _ => None,
    }
}

/// The kind of a key of this type, where its curve is known.
pub(crate) fn kind_of(key_type: KeyType, members: &ObjectRef<'_>) -> Option<KeyKind>
    ensures { result ≡ kind_named key_type members.now }
{
    match key_type {
        KeyType::Oct => Some(KeyKind::Oct),
        KeyType::Rsa => Some(KeyKind::Rsa),
        KeyType::Ec => Some(KeyKind::Ec(curve_of(members.text("crv")?)?)),
        KeyType::Okp => Some(KeyKind::Okp(ed_curve_of(members.text("crv")?)?)),
    }
}

/// The octets of a coordinate on this curve (RFC 7518, section 6.2.1.2).
fn coordinate_size(curve: EcCurve) -> usize
    ensures { result ≡ coordinate_size curve }
{
    match curve {
        EcCurve::P256 => 32,
        EcCurve::P384 => 48,
        EcCurve::P521 => 66,
    }
}

/// The octets of a public key on this curve (RFC 8032, sections 5.1.5 and 5.2.5).
fn point_size(curve: EdCurve) -> usize
    ensures { result ≡ point_size curve }
{
    match curve {
        EdCurve::Ed25519 => 32,
        EdCurve::Ed448 => 57,
    }
}

/// Whether a member of a key of this kind may have so many octets.
pub(crate) fn allows_size(kind: KeyKind, count: usize) -> bool
    ensures { result ≡ allows_size kind count }
{
    match kind {
        KeyKind::Oct | KeyKind::Rsa => 1 <= count && count <= 4096,
        KeyKind::Ec(curve) => count == coordinate_size(curve),
        KeyKind::Okp(curve) => count == point_size(curve),
    }
}
