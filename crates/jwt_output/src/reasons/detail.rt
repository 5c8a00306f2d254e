//! What the claims of a refused token have to do with its fault: how long ago it expired, and for whom it is.
use crate::reasons::cause::Cause;
use crate::terminal::push_quoted;
use jwt_jws::parse;
use jwt_policy::{Audience, Claims};
use jwt_settings::Moment;
use std::alloc::{AllocError, Global};

/// The most recipients that are named.
const MOST: usize = 4;

/// Since when a token is expired.
fn expired(alloc: Global, exp: i64, now: u64) -> Result<String, AllocError> {
    let past = i128::from(now) - i128::from(exp);
    format!(in alloc; " Its `exp` was {past} seconds before the moment of the verdict.")
}

/// A list of recipients, as far as they are named.
fn recipients(alloc: Global, audience: &Audience<'_>) -> Result<String, AllocError> {
    let mut words = String::from_str(alloc, " Its `aud` is ")?;
    match audience {
        Audience::Text(text) => push_quoted(&mut words, *text)?,
        Audience::Texts(texts) => {
            words.push('[')?;
            for place in 0..texts.len().min(MOST) {
                if place > 0 {
                    words.push_str(", ")?;
                }
                push_quoted(&mut words, texts.text(place).unwrap_or(""))?;
            }
            if texts.len() > MOST {
                words.push_str(", ..")?;
            }
            words.push(']')?;
        }
    }
    words.push('.')?;
    Ok(words)
}

/// What a token's claims have to do with its refusal, by what the answer says: of `Expired`, how long
/// ago that was at the moment of the verdict; of `Audience`, which recipients it has. None of any other answer. These two are the faults of
/// claims whose signature verified. Each character of a recipient that a terminal may obey is escaped.
///
/// # Errors
/// `AllocError`, where an allocation was refused.
pub fn claims_detail(
    alloc: Global,
    cause: Cause,
    token: &[u8],
    now: Moment,
) -> Result<Option<String>, AllocError> {
    let Some((name, _)) = cause.row() else {
        return Ok(None);
    };
    if name != "Expired" && name != "Audience" {
        return Ok(None);
    }
    let Ok(signed) = parse(alloc, token.strip_suffix(b"\n").unwrap_or(token), 32) else {
        return Ok(None);
    };
    let Ok(claims) = Claims::read(alloc, signed.payload()) else {
        return Ok(None);
    };
    match (name, claims.exp(), claims.aud()) {
        ("Expired", Some(exp), _) => Ok(Some(expired(alloc, exp, now.seconds)?)),
        ("Audience", _, Some(audience)) => Ok(Some(recipients(alloc, &audience)?)),
        _ => Ok(None),
    }
}
