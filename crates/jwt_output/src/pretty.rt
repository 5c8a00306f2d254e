//! A token for a person.
ghost use Rattle.std.specs.Prelude.{◌≡◌, IfOk};
ghost use Rattle.json.specs.Tree.{HasNumbers};
ghost use Rattle.json.specs.Value.{value_view};

use crate::json_out::value_in;
use crate::json_show::{header_of, protected_of};
use crate::reply::Reply;
use crate::show::{form_name, put_refused_claims};
use crate::terminal::{date_text, push_quoted, shown_json};
use json::{Scratch, Value};
use jwt_jws::{Signature, Signed};
use jwt_policy::{ClaimFault, Claims};
use jwt_settings::Moment;
use std::alloc::{AllocError, Global};

/// The JSON value that octets are, laid out.
fn put_json(alloc: Global, out: &mut String, octets: &[u8]) -> Result<(), AllocError> {
    match shown_json(alloc, octets)? {
        Some(text) => {
            out.push_str(text.as_str())?;
            out.push('\n')
        }
        None => out.push_str("no JSON\n"),
    }
}

/// A header behind its name, where there is one.
fn put_header(
    alloc: Global,
    out: &mut String,
    name: &str,
    header: &Option<Vec<u8>>,
) -> Result<(), AllocError> {
    if let Some(octets) = header {
        out.push_str(name)?;
        put_json(alloc, out, octets.as_slice())?;
    }
    Ok(())
}

/// The algorithm of signature `i`, and how many octets it has.
fn put_alg(
    alloc: Global,
    out: &mut String,
    i: u32,
    signature: &Signature<'_>,
) -> Result<(), AllocError> {
    out.push_str(format!(in alloc; "sig={i} alg=")?.as_str())?;
    match signature.alg_text() {
        Some(alg) => push_quoted(out, alg)?,
        None if signature.protected().has("alg") => out.push_str("?")?,
        None => out.push_str("-")?,
    }
    let octets = signature.octets().len();
    out.push_str(format!(in alloc; " octets={octets}\n")?.as_str())
}

/// The signatures, with their headers.
fn put_signatures(
    alloc: Global,
    out: &mut String,
    signed: &Signed<'_>,
    document: &Value<'_>,
) -> Result<(), AllocError>
    requires { HasNumbers (value_view document.now) }
{
    for i in 0..signed.count() {
        if let Some(signature) = signed.signature(i) {
            let protected = protected_of(alloc, signature)?;
            let header = header_of(alloc, signed.form(), document, i)?;
            put_alg(alloc, out, i, signature)?;
            put_header(alloc, out, "protected\n", &protected)?;
            put_header(alloc, out, "header\n", &header)?;
            out.push_str("not verified\n")?;
        }
    }
    Ok(())
}

/// The payload.
fn put_payload(alloc: Global, out: &mut String, payload: &[u8]) -> Result<(), AllocError> {
    let octets = payload.len();
    out.push_str(format!(in alloc; "payload octets={octets}\n")?.as_str())?;
    put_json(alloc, out, payload)?;
    out.push_str("not verified\n")
}

/// The line of a date, where there is one.
fn put_date(
    alloc: Global,
    out: &mut Vec<u8>,
    name: &str,
    seconds: Option<i64>,
) -> Result<(), AllocError> {
    let Some(seconds) = seconds else {
        return Ok(());
    };
    let line = match date_text(alloc, seconds)? {
        Some(date) => format!(in alloc; "{name}={seconds} {date}\n")?,
        None => format!(in alloc; "{name}={seconds}\n")?,
    };
    out.extend_from_slice(line.as_bytes())
}

/// What is left of a life at a moment.
fn put_life(alloc: Global, out: &mut Vec<u8>, now: Moment, exp: i64) -> Result<(), AllocError> {
    let left = i128::from(exp) - i128::from(now.seconds);
    let line = if left > 0 {
        format!(in alloc; "left seconds={left}\n")?
    } else {
        let past = -left;
        format!(in alloc; "expired seconds={past}\n")?
    };
    out.extend_from_slice(line.as_bytes())
}

/// What the claims of a payload say of its time, or why they are refused before any policy is looked at.
fn put_time(
    alloc: Global,
    out: &mut Vec<u8>,
    now: Option<Moment>,
    payload: &[u8],
) -> Result<(), AllocError> {
    let claims = match Claims::read(alloc, payload) {
        Ok(claims) => claims,
        Err(ClaimFault::OutOfMemory) => return Err(AllocError),
        Err(fault) => return put_refused_claims(alloc, out, &fault),
    };
    put_date(alloc, out, "exp", claims.exp())?;
    put_date(alloc, out, "iat", claims.iat())?;
    put_date(alloc, out, "nbf", claims.nbf())?;
    match (now, claims.exp()) {
        (Some(now), Some(exp)) => put_life(alloc, out, now, exp),
        _ => Ok(()),
    }
}

/// What stands in a token of these octets, for a person: its headers and its payload, each a JSON value on lines of its own in which no
/// terminal finds anything to obey, with *not verified* under it; the dates of its claims; and at a moment what is left of its life.
pub fn pretty_token(
    alloc: Global,
    now: Option<Moment>,
    octets: &[u8],
    signed: &Signed<'_>,
) -> Result<Reply, AllocError>
    ensures { IfOk result (λ a. a.status ≡ 0) }
{
    let mut scratch = Scratch::new(alloc);
    let document = value_in(alloc, octets, &mut scratch)?;
    let form = form_name(signed.form());
    let mut out = format!(in alloc; "unverified {form}\n")?;
    put_signatures(alloc, &mut out, signed, &document)?;
    put_payload(alloc, &mut out, signed.payload())?;
    let mut text = out.into_bytes();
    put_time(alloc, &mut text, now, signed.payload())?;
    Ok(Reply::of(text, 0))
}
