//! The functions that C calls for the URLs of keys by URL.

ghost use Rattle.jwt_handles.specs.declared.status.TheConstants.{FOW_OK, FOW_OUT_OF_MEMORY, FOW_REFUSED, FOW_TOO_SHORT};
ghost use Rattle.std.specs.Prelude.{◌≡◌, ◌≢◌, None, Some, Ok, Err};
ghost use Rattle.jwt_text.specs.ObjectText.{object_of};
ghost use Rattle.jwt_request.specs.declared.urls.writing.Unwritten.TheVariants.{Refused, TooShort};
ghost use Rattle.jwt_request.specs.urls.Urls.{url_where};
ghost use Rattle.jwt_request.specs.urls.Written.{IsWritten};
ghost use Rattle.jwt_request.specs.urls.References.{redirection};
ghost use Rattle.jwt_request.specs.urls.Metadata.{metadata_url};
ghost use Rattle.jwt_request.specs.urls.Answers.{IsNext, most_of};
ghost use Rattle.jwt_handles.specs.Urls.{asked_of, metadata_issuer, metadata_keys, metadata_at, next_at, parts_of};
ghost use Rattle.jwt_handles.specs.Written.{PutsSome};

use jwt_handles::urls::{self, FowNext, FowUrl};
use std::alloc::Global;

/// [`urls::url_of`] by its name in C.
#[unsafe(no_mangle)]
pub extern "C" fn fow_url_of(url: &[u8], allows_http: bool, parts: &mut FowUrl) -> u32
    ensures parts { result ≡ FOW_OK → url_where allows_http url.now ≡ Some (parts_of parts.new) }
    ensures refused { result ≡ FOW_REFUSED → url_where allows_http url.now ≡ None }
    ensures said { result ≢ FOW_OK → result ≡ FOW_REFUSED }
    ensures unwritten { result ≢ FOW_OK → parts.new ≡ parts.old }
{
    urls::url_of(url, allows_http, parts)
}

/// [`urls::redirected`] by its name in C.
#[unsafe(no_mangle)]
pub extern "C" fn fow_redirected(
    url: &[u8],
    location: &[u8],
    out: &mut [u8],
    written: &mut usize,
) -> u32
    ensures url { result ≡ FOW_OK → IsWritten (redirection url.now location.now) (Ok written.new) out.old out.new }
    ensures short { result ≡ FOW_TOO_SHORT → IsWritten (redirection url.now location.now) (Err TooShort) out.old out.new }
    ensures refused { result ≡ FOW_REFUSED → IsWritten (redirection url.now location.now) (Err Refused) out.old out.new }
    ensures said { result ≢ FOW_OK → result ≢ FOW_TOO_SHORT → result ≡ FOW_REFUSED }
    ensures unwritten { result ≢ FOW_OK → (out.new ≡ out.old) × (written.new ≡ written.old) }
{
    urls::redirected(url, location, out, written)
}

/// [`urls::metadata_url`] by its name in C.
#[unsafe(no_mangle)]
pub extern "C" fn fow_metadata_url(
    asked: u32,
    issuer: &[u8],
    out: &mut [u8],
    written: &mut usize,
) -> u32
    ensures url { result ≡ FOW_OK → IsWritten (metadata_url (metadata_at asked) issuer.now) (Ok written.new) out.old out.new }
    ensures short { result ≡ FOW_TOO_SHORT → IsWritten (metadata_url (metadata_at asked) issuer.now) (Err TooShort) out.old out.new }
    ensures refused { result ≡ FOW_REFUSED → IsWritten (metadata_url (metadata_at asked) issuer.now) (Err Refused) out.old out.new }
    ensures said { result ≢ FOW_OK → result ≢ FOW_TOO_SHORT → result ≡ FOW_REFUSED }
    ensures unwritten { result ≢ FOW_OK → (out.new ≡ out.old) × (written.new ≡ written.old) }
{
    urls::metadata_url(asked, issuer, out, written)
}

/// [`urls::keys_url`] by its name in C.
#[unsafe(no_mangle)]
pub extern "C" fn fow_keys_url(
    alloc: Global,
    document: &[u8],
    issuer: &[u8],
    out: &mut [u8],
    written: &mut usize,
) -> u32
    ensures url { metadata_issuer (object_of document.now) ≡ Some issuer.now
        → PutsSome (metadata_keys (object_of document.now)) result written.new out.old out.new }
    ensures refused { metadata_issuer (object_of document.now) ≢ Some issuer.now → result ≢ FOW_OUT_OF_MEMORY → result ≡ FOW_REFUSED }
    ensures unwritten { result ≢ FOW_OK → (out.new ≡ out.old) × (written.new ≡ written.old) }
{
    urls::keys_url(alloc, document, issuer, out, written)
}

/// [`urls::next`] by its name in C.
#[unsafe(no_mangle)]
pub extern "C" fn fow_next_step(asked: u32, status: u32, redirections: u32, next: &mut FowNext)
    ensures step { IsNext (asked_of asked) status redirections (next_at next.new.step) }
    ensures most { next.new.most ≡ most_of (next_at next.new.step) }
{
    urls::next(asked, status, redirections, next);
}
