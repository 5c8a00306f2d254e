//! Members of the JOSE header, which is the union of the protected and the unprotected header (RFC 7515, section 4).

ghost use Rattle.std.specs.Prelude.{◌≡◌, codes, not};
ghost use Rattle.jwt_text.specs.Members.{text_at};
ghost use Rattle.jwt_jws.specs.Views.{parts};
ghost use Rattle.jwt_policy.specs.Bars.{has_key_url, has_enc, is_unencoded, is_typ_misshapen, is_typ_mismatched, is_nested, is_kid_misshapen, lacks_kid};
ghost use Rattle.jwt_policy.specs.Texts.{same_media_type, some_passes};

use crate::media::same_media_type;
use crate::policy::Policy;
use crate::texts::is_no_text;
use jwt_jws::Signature;
use jwt_text::Object;

/// Whether the header has `jku` or `x5u` (RFC 7515, sections 4.1.2 and 4.1.5).
pub(crate) fn has_key_url(signature: &Signature<'_>) -> bool
    ensures { result ≡ has_key_url (parts signature.now) }
{
    signature.in_header("jku") || signature.in_header("x5u")
}

/// Whether the header has `enc` (RFC 7516, section 4.1.2).
pub(crate) fn has_enc(signature: &Signature<'_>) -> bool
    ensures { result ≡ has_enc (parts signature.now) }
{
    signature.in_header("enc")
}

/// Whether the header has `b64` (RFC 7797, section 3).
pub(crate) fn is_unencoded(signature: &Signature<'_>) -> bool
    ensures { result ≡ is_unencoded (parts signature.now) }
{
    signature.in_header("b64")
}

/// Whether `typ` or `cty` of the protected header is there and no text.
pub(crate) fn is_typ_misshapen(signature: &Signature<'_>) -> bool
    ensures { result ≡ is_typ_misshapen (parts signature.now) }
{
    let protected = signature.protected().lend();
    is_no_text(&protected, "typ") || is_no_text(&protected, "cty")
}

/// Whether `typ` isn't this media type.
fn is_other_typ(header: &Object, typ: &str) -> bool
    ensures { result
        ≡ not (some_passes (same_media_type typ.now) (text_at (codes "typ") header.now)) }
{
    match header.text("typ") {
        Some(text) => !same_media_type(typ, text),
        None => true,
    }
}

/// Whether the policy asks for another `typ`.
pub(crate) fn is_typ_mismatched(policy: &Policy, signature: &Signature<'_>) -> bool
    ensures { result ≡ is_typ_mismatched policy.now (parts signature.now) }
{
    match policy.typ() {
        Some(typ) => is_other_typ(signature.protected(), typ),
        None => false,
    }
}

/// Whether the payload is a token again (RFC 7519, section 5.2).
pub(crate) fn is_nested(signature: &Signature<'_>) -> bool
    ensures { result ≡ is_nested (parts signature.now) }
{
    match signature.protected().text("cty") {
        Some(text) => same_media_type("application/jwt", text),
        None => false,
    }
}

/// Whether `kid` is there and no text.
pub(crate) fn is_kid_misshapen(signature: &Signature<'_>) -> bool
    ensures { result ≡ is_kid_misshapen (parts signature.now) }
{
    signature.in_header("kid") && signature.kid().is_none()
}

/// Whether the policy asks for a `kid` that isn't there.
pub(crate) fn lacks_kid(policy: &Policy, signature: &Signature<'_>) -> bool
    ensures { result ≡ lacks_kid policy.now (parts signature.now) }
{
    policy.need_kid() && !signature.in_header("kid")
}
