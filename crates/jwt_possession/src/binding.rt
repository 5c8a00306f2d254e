//! How an access token is bound.

ghost use Rattle.std.specs.Prelude.{◌≡◌, IfOk, option_map, string_bytes};
ghost use Rattle.std.specs.List.{list_all};
ghost use Rattle.jwt_text.specs.Members.{member_names};
ghost use Rattle.jwt_text.specs.Rows.{first_row};
ghost use Rattle.jwt_possession.specs.Shown.{is_known_way, are_known_ways, is_known, binds, is_key_shown, is_certificate_shown, binding_rows};
ghost use Rattle.std.specs.Str.{bytes_eq};
ghost use Rattle.jwt_policy.specs.Texts.{some_passes};
ghost use Rattle.jwt_possession.specs.Bindings.{is_bound, confirmation, bound_key, bound_certificate, digest_text};

use jwt_mac::sha256;
use jwt_policy::Claims;
use jwt_text::{ObjectRef, encode_text};
use std::alloc::{AllocError, Global};

/// How an access token is bound, by its claim `cnf` (RFC 7800, section 3.1). Whoever takes a token that is bound as a bearer's takes it
/// from anyone who has it: RFC 9449, section 7.2 and RFC 8705, section 3 have it refused.
#[derive(Drop)]
pub struct Binding<'a> {
    /// Whether there is a `cnf`. Where there is one and the other two are `None`, it is bound in a way that isn't known here.
    pub is_bound: bool,
    /// The thumbprint of the key that proofs have to be by (RFC 9449, section 6.1).
    pub key: Option<&'a str>,
    /// The digest of the client's certificate, as its text (RFC 8705, section 3.1).
    pub certificate: Option<&'a str>,
}

/// The text of this name in `cnf`.
fn confirmation<'a>(claims: &'a Claims, name: &str) -> Option<&'a str>
    ensures { option_map (λ s. s.now) result ≡ confirmation name.now claims.now }
{
    claims.object().object("cnf")?.text(name)
}

impl<'a> Binding<'a> {
    /// How the token of these claims is bound.
    pub fn of(claims: &'a Claims) -> Binding<'a>
        ensures bound { result.is_bound ≡ is_bound claims.now }
        ensures key { option_map (λ s. s.now) result.key ≡ bound_key claims.now }
        ensures certificate { option_map (λ s. s.now) result.certificate
            ≡ bound_certificate claims.now }
    {
        Binding {
            is_bound: claims.object().has("cnf"),
            key: confirmation(claims, "jkt"),
            certificate: confirmation(claims, "x5t#S256"),
        }
    }
}

/// Base64url of the octets' SHA-256 digest.
pub(crate) fn digest_text(alloc: Global, octets: &[u8]) -> Result<String, AllocError>
    ensures { IfOk result (λ text. string_bytes text ≡ digest_text octets.now) }
{
    match encode_text(alloc, &sha256([octets, b"", b""])) {
        Ok(text) => Ok(text),
        Err(_) => Err(AllocError),
    }
}

/// Whether the token of these claims is bound to this certificate, which its sender has proved to hold to whoever ended TLS: `x5t#S256`
/// in `cnf` is the digest of the certificate's DER (RFC 8705, section 3). A token that is bound to no certificate is refused.
///
/// # Errors
/// Where an allocation was refused.
pub fn certificate_holds(alloc: Global, claims: &Claims, der: &[u8]) -> Result<bool, AllocError>
    ensures { IfOk result (λ holds. holds
        ≡ some_passes (λ text. bytes_eq text (digest_text der.now)) (bound_certificate claims.now)) }
{
    let Some(text) = confirmation(claims, "x5t#S256") else {
        return Ok(false);
    };
    let digest = digest_text(alloc, der)?;
    Ok(text == digest.as_str())
}

/// What the sender of a request has shown.
#[derive(Clone, Copy)]
pub struct Shown<'a> {
    /// The thumbprint of the key that a proof was by, as [`Possession::thumbprint`](crate::Possession::thumbprint) has it.
    pub key: Option<&'a str>,
    /// The client's certificate, as DER, which its sender has proved to hold to whoever ended TLS.
    pub certificate: Option<&'a [u8]>,
}

/// Why not each way in which a token is bound is shown.
#[derive(Clone, Copy, Debug, PartialEq, Eq)]
pub enum BindingFault {
    /// It is bound in a way that isn't known here: `cnf` is no object, has no member, or one that is neither `jkt` nor `x5t#S256`.
    Unknown,
    /// It is bound to a key, and none is shown, or another.
    OtherKey,
    /// It is bound to a certificate, and none is shown, or another.
    OtherCertificate,
}

/// Whether a member of `cnf` of this name is known.
fn is_known_way(name: &str) -> bool
    ensures { result ≡ is_known_way name.now }
{
    name == "jkt" || name == "x5t#S256"
}

/// Whether each member is known.
#[tactic(auto, using(crate::proofs::Ways::length_names, crate::proofs::Ways::unknown_here, crate::proofs::Ways::known_later, crate::proofs::Ways::known_end, crate::proofs::Ways::known_past))]
fn are_known(ways: &ObjectRef<'_>) -> bool
    ensures { result ≡ list_all is_known_way (member_names ways.now) }
{
    for place in 0..ways.member_count() {
        match ways.name(place) {
            Some(name) => {
                if !is_known_way(name) {
                    return false;
                }
            }
            None => return true,
        }
    }
    true
}

/// Whether there is a member, and each is known.
#[tactic(auto, using(crate::proofs::Ways::none_there, crate::proofs::Ways::some_there))]
fn are_known_ways(ways: &ObjectRef<'_>) -> bool
    ensures { result ≡ are_known_ways ways.now }
{
    match ways.name(0) {
        Some(_) => are_known(ways),
        None => false,
    }
}

/// Whether the token is bound in no way, or in known ones.
fn is_known(claims: &Claims) -> bool
    ensures { result ≡ is_known claims.now }
{
    if !claims.object().has("cnf") {
        return true;
    }
    match claims.object().object("cnf") {
        Some(ways) => are_known_ways(&ways),
        None => false,
    }
}

/// Whether `cnf` has a member of this name.
fn binds(claims: &Claims, name: &str) -> bool
    ensures { result ≡ binds name.now claims.now }
{
    match claims.object().object("cnf") {
        Some(ways) => ways.has(name),
        None => false,
    }
}

/// Whether the key that was shown is the one that the token is bound to.
fn is_key_shown(claims: &Claims, shown: &Shown<'_>) -> bool
    ensures { result ≡ is_key_shown claims.now shown.now }
{
    match shown.key {
        Some(key) => match confirmation(claims, "jkt") {
            Some(text) => text == key,
            None => false,
        },
        None => false,
    }
}

/// Whether the certificate that was shown is the one that the token is bound to.
fn is_certificate_shown(
    alloc: Global,
    claims: &Claims,
    shown: &Shown<'_>,
) -> Result<bool, AllocError>
    ensures { IfOk result (λ is. is ≡ is_certificate_shown claims.now shown.now) }
{
    match shown.certificate {
        Some(der) => certificate_holds(alloc, claims, der),
        None => Ok(false),
    }
}

/// Why the sender, who has shown this, may not use the token of these claims: the first way in which it is bound that isn't known or isn't shown. `None`: it is
/// bound in no way, or in known ones, each of which was shown.
///
/// # Errors
/// Where an allocation was refused.
pub fn first_unshown(
    alloc: Global,
    claims: &Claims,
    shown: &Shown<'_>,
) -> Result<Option<BindingFault>, AllocError>
    ensures { IfOk result (λ fault. fault ≡ first_row (binding_rows claims.now shown.now)) }
{
    if !is_known(claims) {
        return Ok(Some(BindingFault::Unknown));
    }
    if binds(claims, "jkt") && !is_key_shown(claims, shown) {
        return Ok(Some(BindingFault::OtherKey));
    }
    if binds(claims, "x5t#S256") && !is_certificate_shown(alloc, claims, shown)? {
        return Ok(Some(BindingFault::OtherCertificate));
    }
    Ok(None)
}
