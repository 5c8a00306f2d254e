//! The lines of a token, with nothing of it verified.
ghost use Rattle.std.specs.Prelude.{◌≡◌, IfOk};

use crate::json_show::token_json;
use crate::pieces::{put_labelled, put_number, put_quoted, quoted_or_dash};
use crate::refusals::refused_claims;
use crate::reply::Reply;
use jwt_jws::{Form, Signature, Signed};
use jwt_policy::{ClaimFault, Claims};
use jwt_settings::Printing;
use std::alloc::{AllocError, Global};

/// The name of a form.
pub(crate) fn form_name(form: Form) -> &'static str {
    match form {
        Form::Compact => "compact",
        Form::General => "json",
        Form::Flattened => "flattened",
    }
}

/// A text of the header: `-` where it is absent, `?` where it is of another kind.
fn header_text(alloc: Global, there: bool, text: Option<&str>) -> Result<Vec<u8>, AllocError> {
    if there && text.is_none() {
        return b"?".to_vec(alloc);
    }
    quoted_or_dash(alloc, text)
}

/// How many members unprotected headers have.
fn unprotected_count(signature: &Signature<'_>) -> usize {
    match signature.unprotected() {
        Some(header) => header.member_count(),
        None => 0,
    }
}

/// How many octets a base64url text of so many characters spells (RFC 4648, section 5).
fn spelled_len(chars: usize) -> usize {
    chars / 4 * 3 + chars % 4 * 3 / 4
}

/// The sizes of a signature. The signing input has one period between its two texts.
fn signature_sizes(
    alloc: Global,
    signature: &Signature<'_>,
    payload: usize,
) -> Result<String, AllocError> {
    let chars = signature.protected_text().len();
    let protected = spelled_len(chars);
    let unprotected = unprotected_count(signature);
    let octets = signature.octets().len();
    let input = chars as u128 + 1 + payload as u128;
    format!(in alloc;
        " protected={protected} unprotected={unprotected} signature={octets} input={input}\n"
    )
}

/// The line of signature `i`.
fn put_signature(
    alloc: Global,
    out: &mut Vec<u8>,
    i: u32,
    signature: &Signature<'_>,
    payload: usize,
) -> Result<(), AllocError> {
    let start = format!(in alloc; "sig={i} alg=")?;
    let has_alg = signature.protected().has("alg");
    let alg = header_text(alloc, has_alg, signature.alg_text())?;
    let kid = header_text(alloc, signature.in_header("kid"), signature.kid())?;
    let sizes = signature_sizes(alloc, signature, payload)?;
    put_labelled(out, start.as_str(), alg.as_slice())?;
    put_labelled(out, " kid=", kid.as_slice())?;
    out.extend_from_slice(sizes.as_bytes())?;
    Ok(())
}

/// The compact text of `aud`, and `-` for none.
fn audience(alloc: Global, claims: &Claims) -> Result<Vec<u8>, AllocError> {
    match claims.object().compact(alloc, "aud") {
        Ok(Some(text)) => Ok(text),
        Ok(None) => b"-".to_vec(alloc),
        Err(_) => Err(AllocError),
    }
}

/// Puts the claims of a payload, or why it has none.
fn put_claims(alloc: Global, out: &mut Vec<u8>, claims: &Claims) -> Result<(), AllocError> {
    let aud = audience(alloc, claims)?;
    put_labelled(out, "claims aud=", aud.as_slice())?;
    put_number(alloc, out, " exp=", claims.exp())?;
    put_number(alloc, out, " iat=", claims.iat())?;
    put_quoted(alloc, out, " iss=", claims.iss())?;
    put_quoted(alloc, out, " jti=", claims.jti())?;
    put_number(alloc, out, " nbf=", claims.nbf())?;
    put_quoted(alloc, out, " sub=", claims.sub())?;
    out.push(b'\n')?;
    Ok(())
}

/// The line of claims that are refused before any policy is looked at.
pub(crate) fn put_refused_claims(
    alloc: Global,
    out: &mut Vec<u8>,
    fault: &ClaimFault<'_>,
) -> Result<(), AllocError> {
    let line = refused_claims(alloc, fault)?;
    put_labelled(out, "claims ", line.text.as_slice())
}

/// Puts the line of the claims.
fn put_claims_line(alloc: Global, out: &mut Vec<u8>, payload: &[u8]) -> Result<(), AllocError> {
    match Claims::read(alloc, payload) {
        Ok(claims) => put_claims(alloc, out, &claims),
        Err(ClaimFault::OutOfMemory) => Err(AllocError),
        Err(fault) => put_refused_claims(alloc, out, &fault),
    }
}

/// The lines of a token.
fn token_lines(alloc: Global, signed: &Signed<'_>) -> Result<Vec<u8>, AllocError> {
    let mut out = Vec::new(alloc);
    let form = form_name(signed.form());
    let octets = signed.payload().len();
    let payload = signed.payload_text().len();
    let start = format!(in alloc; "unverified {form}\npayload octets={octets}\n")?;
    out.extend_from_slice(start.as_bytes())?;
    for i in 0..signed.count() {
        if let Some(signature) = signed.signature(i) {
            put_signature(alloc, &mut out, i, signature, payload)?;
        }
    }
    put_claims_line(alloc, &mut out, signed.payload())?;
    Ok(out)
}

/// What stands in a token of these octets, in JSON or in lines.
pub fn printed_token(
    alloc: Global,
    printing: Printing,
    octets: &[u8],
    signed: &Signed<'_>,
) -> Result<Reply, AllocError>
    ensures { IfOk result (λ a. a.status ≡ 0) }
{
    let text = match printing {
        Printing::Json => token_json(alloc, octets, signed)?,
        Printing::Lines => token_lines(alloc, signed)?,
    };
    Ok(Reply::of(text, 0))
}
