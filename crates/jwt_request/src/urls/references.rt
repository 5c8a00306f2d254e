ghost use Rattle.std.specs.Prelude.{◌≡◌, ◌<◌, ◌≤◌, ◌+◌, ◌==◌, ◌&&◌, length, slice_index, take, true, Some};
ghost use Rattle.std.specs.Str.{str_eq_ignore_ascii_case};
ghost use Rattle.jwt_request.specs.urls.Urls.{IsPlaced, behind_host, host_len, host_of, is_laid, port_of, same_origin, same_scheme, url_where};
ghost use Rattle.jwt_request.specs.urls.References.{ends_at, followed, folder_len, has_dots, has_dots_behind, is_dots, is_reference, is_whole, is_within, kept_len, needs_slash, path_of, redirection, referred, slash_where};
ghost use Rattle.jwt_request.specs.urls.Written.{IsPut, IsWritten};

use crate::urls::kind::Kind;
use crate::urls::url::{Url, is_of_target, parts_behind, stands, url_of};
use crate::urls::writing::{Unwritten, put};

/// Writes the URL to which a redirection leads at the front of `out`, and gives the number of its octets: `url` was asked, and `location` is the value of the
/// `Location` that it answered, a whole URL or a reference (RFC 3986, section 5). It leads within scheme, host and port.
///
/// `Refused`: it isn't followed, since it leads elsewhere or to no URL, or has a segment `.` or `..`. `TooShort`: it has more octets than `out`; room for both
/// and one octet more is enough. Nothing is written then.
#[tactic(auto, unfolding(crate::specs::urls::References::redirection))]
pub fn redirected(url: &[u8], location: &[u8], out: &mut [u8]) -> Result<usize, Unwritten>
    ensures { IsWritten (redirection url.now location.now) result out.old out.new }
{
    let Some(at) = url_of(url, true) else {
        return Err(Unwritten::Refused);
    };
    if !is_reference(location) || !leads_within(at, url, location) {
        return Err(Unwritten::Refused);
    }
    match refer(at, url, location, out) {
        Some(size) => Ok(size),
        None => Err(Unwritten::TooShort),
    }
}

/// Whether what the location gives is a URL of the same origin, by its parts: nothing is written yet.
fn leads_within(at: Url, url: &[u8], location: &[u8]) -> bool
    requires placed { IsPlaced at url.now }
    requires parts { url_where true url.now ≡ Some at }
    ensures { result ≡ is_within at url.now (referred at url.now location.now) (url_where true (referred at url.now location.now)) }
{
    if is_whole(location) {
        is_within(at, url, location)
    } else if has_host(location) {
        is_of_host(at, url, &location[2..])
    } else {
        is_of_target(location)
    }
}

/// Whether it has a host and no scheme: two slashes stand at the front.
fn has_host(location: &[u8]) -> bool
    ensures { result ≡ (slice_index location.now 0 == 47 && slice_index location.now 1 == 47) }
{
    stands(location, 0, b'/') && stands(location, 1, b'/')
}

/// Whether host and port stand at the front, which are those of the URL, and path and query behind.
fn is_of_host(at: Url, url: &[u8], octets: &[u8]) -> bool
    requires { IsPlaced at url.now }
    ensures { result ≡ (is_laid octets.now && at.port == port_of at.is_https (behind_host octets.now)
        && str_eq_ignore_ascii_case (host_of at url.now) (take (host_len octets.now) octets.now)) }
{
    match parts_behind(octets, at.is_https) {
        Some(other) => {
            at.port == other.port
                && host_of(at, url).eq_ignore_ascii_case(&octets[..other.host_end - other.host])
        }
        None => false,
    }
}

/// Writes what the location gives, whether it is followed or not.
fn refer(at: Url, url: &[u8], location: &[u8], out: &mut [u8]) -> Option<usize>
    requires { IsPlaced at url.now }
    ensures length { length out.new ≡ length out.old }
    ensures put { IsPut (referred at url.now location.now) result out.old out.new }
{
    let kept = &url[..kept_len(at, url, location)];
    put(
        kept,
        slash_where(needs_slash(at, url, location)),
        location,
        out,
    )
}

fn slash_where(needed: bool) -> &'static [u8]
    ensures { result.now ≡ slash_where needed }
{
    if needed { b"/" } else { b"" }
}

/// How much of the URL that was asked stays.
fn kept_len(at: Url, url: &[u8], location: &[u8]) -> usize
    requires { IsPlaced at url.now }
    ensures value { result ≡ kept_len at url.now location.now }
    ensures within { result ≤ length url.now }
{
    if is_whole(location) {
        0
    } else if stands(location, 0, b'/') {
        if stands(location, 1, b'/') {
            at.host - 2
        } else {
            at.target
        }
    } else {
        let path = path_of(at, url);
        let len = if stands(location, 0, b'?') {
            path.len()
        } else {
            folder_len(path)
        };
        at.target + len
    }
}

/// Whether a slash parts a relative path from a host without any path.
fn needs_slash(at: Url, url: &[u8], location: &[u8]) -> bool
    requires { IsPlaced at url.now }
    ensures { result ≡ needs_slash at url.now location.now }
{
    path_of(at, url).is_empty()
        && !is_whole(location)
        && !stands(location, 0, b'/')
        && !stands(location, 0, b'?')
}

/// Whether it has a scheme.
fn is_whole(location: &[u8]) -> bool
    ensures { result ≡ is_whole location.now }
{
    stands(location, Kind::First.run(location), b':')
}

fn path_of(at: Url, url: &[u8]) -> &[u8]
    requires { IsPlaced at url.now }
    ensures value { result.now ≡ path_of at url.now }
    ensures within { at.target + length result.now ≤ length url.now }
{
    let target = &url[at.target..];
    &target[..Kind::Path.run(target)]
}

/// How many octets stand before the last segment.
fn folder_len(path: &[u8]) -> usize
    ensures value { result ≡ folder_len path.now }
    ensures within { result ≤ length path.now }
{
    path.len() - Kind::Segment.run_at_end(path)
}

/// Whether the reference is followed at all.
fn is_reference(location: &[u8]) -> bool
    ensures { result ≡ is_reference location.now }
{
    !location.is_empty() && !has_dots(&location[..Kind::Path.run(location)])
}

/// Whether some segment is `.` or `..`.
fn has_dots(path: &[u8]) -> bool
    ensures { result ≡ has_dots path.now }
{
    is_dots(path) || has_dots_behind(path)
}

/// Whether such a segment stands behind some slash.
#[tactic(auto, using(crate::proofs::Steps::dots_step))]
fn has_dots_behind(path: &[u8]) -> bool
    ensures { result ≡ has_dots_behind path.now }
{
    let mut at = 0;
    while at < path.len() {
        if path[at] == b'/' && is_dots(&path[at + 1..]) {
            return true;
        }
        at += 1;
    }
    false
}

/// Whether such a segment stands at the front.
fn is_dots(path: &[u8]) -> bool
    ensures { result ≡ is_dots path.now }
{
    stands(path, 0, b'.') && (ends_at(path, 1) || stands(path, 1, b'.') && ends_at(path, 2))
}

/// Whether a segment ends there.
fn ends_at(path: &[u8], at: usize) -> bool
    ensures { result ≡ ends_at path.now at }
{
    path.len() <= at || path[at] == b'/'
}

/// Whether it is a URL of the same origin.
fn is_within(at: Url, url: &[u8], next: &[u8]) -> bool
    requires { IsPlaced at url.now }
    ensures { result ≡ is_within at url.now next.now (url_where true next.now) }
{
    match url_of(next, true) {
        Some(other) => same_origin(at, url, other, next),
        None => false,
    }
}

/// Whether scheme, host and port are the same.
fn same_origin(at: Url, url: &[u8], other: Url, next: &[u8]) -> bool
    requires one { IsPlaced at url.now }
    requires other { IsPlaced other next.now }
    ensures { result ≡ same_origin at url.now other next.now }
{
    same_scheme(at, other)
        && at.port == other.port
        && host_of(at, url).eq_ignore_ascii_case(host_of(other, next))
}

fn same_scheme(at: Url, other: Url) -> bool
    ensures { result ≡ same_scheme at other }
{
    at.is_https == other.is_https
}

fn host_of(at: Url, url: &[u8]) -> &[u8]
    requires { IsPlaced at url.now }
    ensures { result.now ≡ host_of at url.now }
{
    &url[at.host..at.host_end]
}
