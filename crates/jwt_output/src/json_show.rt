//! The output of `show --json`.
ghost use Rattle.std.specs.Prelude.{IfSome};
ghost use Rattle.json.specs.Tree.{HasNumbers};
ghost use Rattle.json.specs.Value.{value_view};

use crate::fields::{FieldName, FieldValue, Fields, put_claim};
use crate::json_out::{JsonOut, value_in};
use crate::show::form_name;
use json::{Scratch, Value, to_vec};
use jwt_jws::{Form, Signature, Signed};
use jwt_policy::{ClaimFault, Claims};
use jwt_text::{TextFault, decode};
use std::alloc::{AllocError, Global};

/// The member of a value.
fn member_of<'d, 'a>(value: &'d Value<'a>, name: &str) -> Option<&'d Value<'a>>
    requires { HasNumbers (value_view value.now) }
    ensures writable { IfSome result (λ v. HasNumbers (value_view v.now)) }
{
    value.get(name)
}

/// The element of a value.
fn element_of<'d, 'a>(value: &'d Value<'a>, i: u32) -> Option<&'d Value<'a>>
    requires { HasNumbers (value_view value.now) }
    ensures writable { IfSome result (λ v. HasNumbers (value_view v.now)) }
{
    value.at(i as usize)
}

/// The object that signature `i` stands in, of a token in JSON form.
fn signature_at<'d, 'a>(form: Form, document: &'d Value<'a>, i: u32) -> Option<&'d Value<'a>>
    requires { HasNumbers (value_view document.now) }
    ensures writable { IfSome result (λ v. HasNumbers (value_view v.now)) }
{
    match form {
        Form::Compact => None,
        Form::General => element_of(member_of(document, "signatures")?, i),
        Form::Flattened => Some(document),
    }
}

/// The protected header of a signature, where its text isn't empty: the octets that this spells.
pub(crate) fn protected_of(
    alloc: Global,
    signature: &Signature<'_>,
) -> Result<Option<Vec<u8>>, AllocError> {
    let text = signature.protected_text();
    if text.is_empty() {
        return Ok(None);
    }
    match decode(alloc, text) {
        Ok(octets) => Ok(Some(octets)),
        Err(TextFault::OutOfMemory) => Err(AllocError),
        Err(_) => Ok(Some(Vec::new(alloc))),
    }
}

/// The unprotected header of signature `i`, where there is one: its text.
pub(crate) fn header_of(
    alloc: Global,
    form: Form,
    document: &Value<'_>,
    i: u32,
) -> Result<Option<Vec<u8>>, AllocError>
    requires { HasNumbers (value_view document.now) }
{
    let Some(signature) = signature_at(form, document, i) else {
        return Ok(None);
    };
    match member_of(signature, "header") {
        Some(header) => Ok(Some(to_vec(alloc, header)?)),
        None => Ok(None),
    }
}

/// Puts signature `i`: its headers, and how many octets it has.
fn put_signature(
    alloc: Global,
    out: &mut JsonOut,
    signature: &Signature<'_>,
    header: &Option<Vec<u8>>,
) -> Result<(), AllocError> {
    let protected = protected_of(alloc, signature)?;
    let mut fields = Fields::none(alloc);
    if let Some(protected) = &protected {
        fields.put(FieldName::Protected, FieldValue::Json(protected.as_slice()))?;
    }
    if let Some(header) = header {
        fields.put(FieldName::Header, FieldValue::Json(header.as_slice()))?;
    }
    fields.count(FieldName::Octets, signature.octets().len() as u64)?;
    fields.object(alloc, out)
}

/// Puts the list of the signatures.
fn put_signatures(
    alloc: Global,
    out: &mut JsonOut,
    signed: &Signed<'_>,
    document: &Value<'_>,
) -> Result<(), AllocError>
    requires { HasNumbers (value_view document.now) }
{
    out.begin_list("signatures")?;
    for i in 0..signed.count() {
        if let Some(signature) = signed.signature(i) {
            let header = header_of(alloc, signed.form(), document, i)?;
            put_signature(alloc, out, signature, &header)?;
        }
    }
    out.end_list()
}

/// Why the claims of a payload are refused before any policy is looked at, if they are.
fn put_claims_refused(alloc: Global, out: &mut JsonOut, payload: &[u8]) -> Result<(), AllocError> {
    let fault = match Claims::read(alloc, payload) {
        Ok(_) => return Ok(()),
        Err(ClaimFault::OutOfMemory) => return Err(AllocError),
        Err(fault) => fault,
    };
    let mut fields = Fields::none(alloc);
    fields.word(FieldName::Fault, fault.name())?;
    put_claim(&mut fields, &fault)?;
    out.key("claims_refused")?;
    fields.object(alloc, out)
}

/// The line of a token that stands in these octets.
pub(crate) fn token_json(
    alloc: Global,
    octets: &[u8],
    signed: &Signed<'_>,
) -> Result<Vec<u8>, AllocError> {
    let mut scratch = Scratch::new(alloc);
    let document = value_in(alloc, octets, &mut scratch)?;
    let mut out = JsonOut::object(alloc)?;
    out.begin_named("unverified")?;
    out.text("form", form_name(signed.form()))?;
    out.value(alloc, "payload", signed.payload())?;
    put_signatures(alloc, &mut out, signed, &document)?;
    put_claims_refused(alloc, &mut out, signed.payload())?;
    out.end_object()?;
    out.line()
}
