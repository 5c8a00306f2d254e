//! What follows on an answer.
ghost use Rattle.std.specs.Prelude.{◌≡◌, ◌<◌, ◌&&◌, nat_eq, is_some, option_map, false, IfOk};
ghost use Rattle.std.specs.Cmp.Lexicographic.{pointwise};
ghost use Rattle.jwt_text.specs.ObjectText.{object_of};
ghost use Rattle.jwt_request.specs.urls.References.{redirection};
ghost use Rattle.jwt_request.specs.urls.Urls.{url_where};
ghost use Rattle.jwt_sources.specs.Follows.{IsAfter, IsAfterAll, IsAfterUrl, file_told, keys_at, led_to, metadata_told, taken_told, told_of, url_of_target};

use crate::place::{Issuer, Place};
use crate::step::{Failure, Follows, Target};
use jwt_request::urls::{Asked, Next, Unwritten, next_of, redirected, url_of};
use jwt_text::{LONGEST_KEY_SET, TextFault, object};
use std::alloc::{AllocError, Global};

/// Where it stands.
pub fn url<'a>(place: &'a Place, target: &'a Target) -> &'a [u8]
    ensures { result.now ≡ url_of_target place.now target.now }
{
    match &target.led {
        Some(url) => url.as_slice(),
        None => place.url(target.asked),
    }
}

/// What follows on an answer with this status, this `Location` and this content: one that has more octets than a key set may have is a failed fetch.
pub fn after_all(
    alloc: Global,
    place: &Place,
    target: &Target,
    status: u32,
    location: &[u8],
    content: &[u8],
) -> Result<Follows, AllocError>
    ensures { IfOk result (λ it. IsAfterAll place.now target.now status location.now content.now (told_of it)) }
{
    if content.len() > LONGEST_KEY_SET as usize {
        return Ok(Follows::Failed(Failure::TooLong));
    }
    after(alloc, place, target, status, location, content)
}

/// The same of a content that isn't too long.
fn after(
    alloc: Global,
    place: &Place,
    target: &Target,
    status: u32,
    location: &[u8],
    content: &[u8],
) -> Result<Follows, AllocError>
    ensures { IfOk result (λ it. IsAfter place.now target.now status location.now (object_of content.now) (told_of it)) }
{
    match place {
        Place::File(_) => Ok(after_file(status)),
        _ => after_url(alloc, place, target, status, location, content),
    }
}

/// The same of a file.
fn after_file(status: u32) -> Follows
    ensures { told_of result ≡ file_told status }
{
    if status == 200 {
        Follows::Keys
    } else {
        Follows::Failed(Failure::Status)
    }
}

/// The same of a URL.
fn after_url(
    alloc: Global,
    place: &Place,
    target: &Target,
    status: u32,
    location: &[u8],
    content: &[u8],
) -> Result<Follows, AllocError>
    ensures { IfOk result (λ it. IsAfterUrl place.now target.now status location.now (object_of content.now) (told_of it)) }
{
    match next_of(target.asked, status, target.followed) {
        Next::Take => taken(alloc, place, target.asked, content),
        Next::Follow => led(alloc, url(place, target), location, target),
        Next::AskOAuth => Ok(Follows::Step(Target {
            asked: Asked::OAuth,
            led: None,
            followed: 0,
        })),
        Next::TooOften => Ok(Follows::Failed(Failure::TooOften)),
        Next::Fail => Ok(Follows::Failed(Failure::Status)),
    }
}

/// The same of a content that is taken.
fn taken(alloc: Global, place: &Place, asked: Asked, content: &[u8]) -> Result<Follows, AllocError>
    ensures { IfOk result (λ it. told_of it ≡ taken_told place.now asked (object_of content.now)) }
{
    if asked == Asked::Keys {
        return Ok(Follows::Keys);
    }
    match place {
        Place::Issuer(issuer) => metadata(alloc, issuer, content),
        _ => Ok(Follows::Failed(Failure::Metadata)),
    }
}

/// Where a redirection leads.
fn led(alloc: Global, url: &[u8], location: &[u8], target: &Target) -> Result<Follows, AllocError>
    requires { target.now.followed < 5 }
    ensures { IfOk result (λ it. told_of it ≡ led_to target.now.asked target.now.followed (redirection url.now location.now)) }
{
    let room = url.len() + location.len() + 1;
    let mut out = vec![in alloc; 0u8; room]?;
    match redirected(url, location, out.as_mut_slice()) {
        Ok(size) => {
            out.truncate(size);
            Ok(Follows::Step(Target {
                asked: target.asked,
                led: Some(out),
                followed: target.followed + 1,
            }))
        }
        Err(Unwritten::Refused) => Ok(Follows::Failed(Failure::Redirection)),
        // (the room is enough for each)
        Err(Unwritten::TooShort) => Err(AllocError),
    }
}

/// Where metadata lead.
fn metadata(alloc: Global, issuer: &Issuer, content: &[u8]) -> Result<Follows, AllocError>
    ensures { IfOk result (λ it. told_of it ≡ metadata_told issuer.now.name.items (object_of content.now)) }
{
    match object(alloc, content) {
        Ok(members) => keys_of(
            alloc,
            issuer.name.as_slice(),
            members.text("issuer"),
            members.text("jwks_uri"),
        ),
        Err(TextFault::OutOfMemory) => Err(AllocError),
        Err(_) => Ok(Follows::Failed(Failure::Metadata)),
    }
}

/// The same by whom they name, and by the URL of its keys.
fn keys_of(
    alloc: Global,
    name: &[u8],
    named: Option<&str>,
    url: Option<&str>,
) -> Result<Follows, AllocError>
    ensures { IfOk result (λ it. told_of it
        ≡ keys_at name.now (option_map (λ text. text.now) named.entry) (option_map (λ text. text.now) url.entry)) }
{
    let Some(named) = named else {
        return Ok(Follows::Failed(Failure::Metadata));
    };
    let Some(url) = url else {
        return Ok(Follows::Failed(Failure::Metadata));
    };
    if !leads(name, named.as_bytes(), url.as_bytes()) {
        return Ok(Follows::Failed(Failure::Metadata));
    }
    Ok(Follows::Step(Target {
        asked: Asked::Keys,
        led: Some(Vec::from_slice(alloc, url.as_bytes())?),
        followed: 0,
    }))
}

/// Whether that very issuer is named, and the URL is one of `https`.
fn leads(name: &[u8], named: &[u8], url: &[u8]) -> bool
    ensures { result ≡ (pointwise nat_eq named.now name.now && is_some (url_where false url.now)) }
{
    named == name && url_of(url, false).is_some()
}
