//! From which URLs keys and metadata are fetched, and what follows on an answer.

ghost use Rattle.jwt_handles.specs.declared.status.TheConstants.{FOW_OK, FOW_OUT_OF_MEMORY, FOW_REFUSED, FOW_TOO_SHORT};
ghost use Rattle.std.specs.Prelude.{◌≡◌, ◌≢◌, ◌↔◌, IsTrue, None, Some, Ok, Err, option_map};
ghost use Rattle.jwt_text.specs.ObjectText.{object_of};
ghost use Rattle.jwt_request.specs.declared.urls.writing.Unwritten.TheVariants.{Refused, TooShort};
ghost use Rattle.jwt_request.specs.urls.Urls.{url_where};
ghost use Rattle.jwt_request.specs.urls.Written.{IsWritten};
ghost use Rattle.jwt_request.specs.urls.References.{redirection};
ghost use Rattle.jwt_request.specs.urls.Metadata.{metadata_url};
ghost use Rattle.jwt_request.specs.urls.Answers.{IsNext, most_of};
ghost use Rattle.jwt_handles.specs.Urls.{asked_of, metadata_issuer, metadata_keys, metadata_at, next_at, parts_of};
ghost use Rattle.jwt_handles.specs.Written.{PutsHeld, PutsSome};

use crate::status::{FOW_ABSENT, FOW_OK, FOW_OUT_OF_MEMORY, FOW_REFUSED, FOW_TOO_SHORT};
use crate::writing::put;
use jwt_request::urls::{Asked, Metadata, Next, Unwritten, next_of};
use jwt_text::{TextFault, object};
use std::alloc::Global;

/// Where the parts of a URL stand. In C `fow_url`.
#[repr(C)]
#[derive(Clone, Copy)]
pub struct FowUrl {
    /// 1: its scheme is `https`; 0: it is `http`.
    pub https: u32,
    /// The port; that of the scheme where it names none.
    pub port: u32,
    /// Where its host begins.
    pub host: usize,
    /// Where its host ends.
    pub host_end: usize,
    /// Where path and query begin, which last to the end.
    pub target: usize,
}

/// What follows on an answer. In C `fow_next`.
#[repr(C)]
#[derive(Clone, Copy)]
pub struct FowNext {
    /// As `fow_step` numbers it.
    pub step: u32,
    /// How many octets of the answer are taken at most.
    pub most: u32,
}

/// The parts of a URL from which something may be fetched. `FOW_OK`; `FOW_REFUSED`: it is none, or its scheme is `http` and that isn't allowed.
pub fn url_of(url: &[u8], allows_http: bool, parts: &mut FowUrl) -> u32
    ensures parts { result ≡ FOW_OK → url_where allows_http url.now ≡ Some (parts_of parts.new) }
    ensures refused { result ≡ FOW_REFUSED → url_where allows_http url.now ≡ None }
    ensures said { result ≢ FOW_OK → result ≡ FOW_REFUSED }
    ensures unwritten { result ≢ FOW_OK → parts.new ≡ parts.old }
{
    match jwt_request::urls::url_of(url, allows_http) {
        Some(at) => {
            *parts = FowUrl {
                https: if at.is_https { 1 } else { 0 },
                port: at.port as u32,
                host: at.host,
                host_end: at.host_end,
                target: at.target,
            };
            FOW_OK
        }
        None => FOW_REFUSED,
    }
}

/// Writes the URL to which a redirection leads at the front of `out`. `FOW_OK`; `FOW_TOO_SHORT`: `out` is too short; `FOW_REFUSED`: it isn't followed.
pub fn redirected(url: &[u8], location: &[u8], out: &mut [u8], written: &mut usize) -> u32
    ensures url { result ≡ FOW_OK → IsWritten (redirection url.now location.now) (Ok written.new) out.old out.new }
    ensures short { result ≡ FOW_TOO_SHORT → IsWritten (redirection url.now location.now) (Err TooShort) out.old out.new }
    ensures refused { result ≡ FOW_REFUSED → IsWritten (redirection url.now location.now) (Err Refused) out.old out.new }
    ensures said { result ≢ FOW_OK → result ≢ FOW_TOO_SHORT → result ≡ FOW_REFUSED }
    ensures unwritten { result ≢ FOW_OK → (out.new ≡ out.old) × (written.new ≡ written.old) }
{
    match jwt_request::urls::redirected(url, location, out) {
        Ok(size) => {
            *written = size;
            FOW_OK
        }
        Err(Unwritten::TooShort) => FOW_TOO_SHORT,
        Err(Unwritten::Refused) => FOW_REFUSED,
    }
}

/// Writes the URL of the metadata of an issuer at the front of `out`. `FOW_OK`; `FOW_TOO_SHORT`: `out` is too short; `FOW_REFUSED`: the issuer has none.
pub fn metadata_url(asked: u32, issuer: &[u8], out: &mut [u8], written: &mut usize) -> u32
    ensures url { result ≡ FOW_OK → IsWritten (metadata_url (metadata_at asked) issuer.now) (Ok written.new) out.old out.new }
    ensures short { result ≡ FOW_TOO_SHORT → IsWritten (metadata_url (metadata_at asked) issuer.now) (Err TooShort) out.old out.new }
    ensures refused { result ≡ FOW_REFUSED → IsWritten (metadata_url (metadata_at asked) issuer.now) (Err Refused) out.old out.new }
    ensures said { result ≢ FOW_OK → result ≢ FOW_TOO_SHORT → result ≡ FOW_REFUSED }
    ensures unwritten { result ≢ FOW_OK → (out.new ≡ out.old) × (written.new ≡ written.old) }
{
    let metadata = if asked == 2 {
        Metadata::OAuth
    } else {
        Metadata::OpenId
    };
    match metadata.write_url(issuer, out) {
        Ok(size) => {
            *written = size;
            FOW_OK
        }
        Err(Unwritten::TooShort) => FOW_TOO_SHORT,
        Err(Unwritten::Refused) => FOW_REFUSED,
    }
}

/// Writes the URL of the keys of an issuer, as its metadata tell it, at the front of `out`. `FOW_OK`; `FOW_OUT_OF_MEMORY`: memory was refused;
/// `FOW_TOO_SHORT`: `out` is too short; `FOW_REFUSED`: they are of another issuer; `FOW_ABSENT`: they tell none.
pub fn keys_url(
    alloc: Global,
    document: &[u8],
    issuer: &[u8],
    out: &mut [u8],
    written: &mut usize,
) -> u32
    ensures url { metadata_issuer (object_of document.now) ≡ Some issuer.now
        → PutsSome (metadata_keys (object_of document.now)) result written.new out.old out.new }
    ensures refused { metadata_issuer (object_of document.now) ≢ Some issuer.now → result ≢ FOW_OUT_OF_MEMORY → result ≡ FOW_REFUSED }
    ensures unwritten { result ≢ FOW_OK → (out.new ≡ out.old) × (written.new ≡ written.old) }
{
    match object(alloc, document) {
        Ok(members) => put_named(
            members.text("issuer"),
            members.text("jwks_uri"),
            issuer,
            out,
            written,
        ),
        Err(TextFault::OutOfMemory) => FOW_OUT_OF_MEMORY,
        Err(_) => FOW_REFUSED,
    }
}

/// What follows on an answer by its status, where that was asked for and so many redirections were followed already.
pub fn next(asked: u32, status: u32, redirections: u32, next: &mut FowNext)
    ensures step { IsNext (asked_of asked) status redirections (next_at next.new.step) }
    ensures most { next.new.most ≡ most_of (next_at next.new.step) }
{
    let said = next_of(asked_at(asked), status, redirections);
    *next = FowNext {
        step: step_number(said),
        most: said.most(),
    };
}

fn asked_at(number: u32) -> Asked
    ensures { result ≡ asked_of number }
{
    match number {
        1 => Asked::OpenId,
        2 => Asked::OAuth,
        _ => Asked::Keys,
    }
}

fn step_number(next: Next) -> u32
    ensures { next_at result ≡ next }
{
    match next {
        Next::Fail => 0,
        Next::Take => 1,
        Next::Follow => 2,
        Next::AskOAuth => 3,
        Next::TooOften => 4,
    }
}

/// Puts the URL of the keys at the front of `out`, where the metadata name this issuer.
fn put_named(
    named: Option<&str>,
    keys: Option<&str>,
    issuer: &[u8],
    out: &mut [u8],
    written: &mut usize,
) -> u32
    ensures url { option_map (λ text. text.now) named.entry ≡ Some issuer.now
        → PutsHeld (option_map (λ text. text.now) keys.entry) result written.new out.old out.new }
    ensures refused { option_map (λ text. text.now) named.entry ≢ Some issuer.now → result ≡ FOW_REFUSED }
    ensures unwritten { result ≢ FOW_OK → (out.new ≡ out.old) × (written.new ≡ written.old) }
{
    if !names(named, issuer) {
        return FOW_REFUSED;
    }
    match keys {
        Some(url) => put(url.as_bytes(), out, written),
        None => FOW_ABSENT,
    }
}

/// Whether that very issuer is named.
fn names(named: Option<&str>, issuer: &[u8]) -> bool
    ensures { IsTrue result ↔ (option_map (λ text. text.now) named.entry ≡ Some issuer.now) }
{
    match named {
        Some(text) => text.as_bytes() == issuer,
        None => false,
    }
}
