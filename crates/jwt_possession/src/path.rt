//! Paths of which every reader makes the same (RFC 3986, section 6.2.2).

ghost use Rattle.std.specs.Prelude.{◌≡◌, ◌==◌, option_map};
ghost use Rattle.std.specs.List.{list_all, slice_split};
ghost use Rattle.jwt_possession.specs.Paths.{is_path_octet, is_hidden, is_plain_triplet, begins_with_slash, are_plain, is_segment, is_normal_path, path_of, is_agreed_path, has_agreed_path};

use crate::uri::{before, behind, behind_place, digit_of, from, is_unreserved, place_of, value_of};

/// Whether a path may have this octet as itself.
fn is_path_octet(octet: u8) -> bool
    ensures { result ≡ is_path_octet octet }
{
    is_unreserved(octet)
        || matches!(
            octet,
            b'/' | b':'
                | b'@'
                | b'!'
                | b'$'
                | b'&'
                | b'\''
                | b'('
                | b')'
                | b'*'
                | b'+'
                | b','
                | b';'
                | b'='
        )
}

/// Whether some readers take this octet for another part of the path once it is decoded.
fn is_hidden(octet: u8) -> bool
    ensures { result ≡ is_hidden octet }
{
    matches!(octet, b'/' | b'\\' | b'%' | b';') || octet < 32 || octet == 127
}

/// Whether these two digits write an octet in its one form that needs percent-encoding, and hides nothing.
fn is_plain_triplet(high: u8, low: u8) -> bool
    ensures { result ≡ is_plain_triplet high low }
{
    let Some(first) = value_of(high) else {
        return false;
    };
    let Some(second) = value_of(low) else {
        return false;
    };
    let octet = first * 16 + second;
    !is_unreserved(octet)
        && digit_of(octet / 16) == high
        && digit_of(octet % 16) == low
        && !is_hidden(octet)
}

/// Whether the text begins with a slash.
fn begins_with_slash(text: &[u8]) -> bool
    ensures { result ≡ begins_with_slash text.now }
{
    match text.split_first() {
        Some((first, _)) => *first == b'/',
        None => false,
    }
}

/// Whether each octet is one that a path may have, or stands in such a triplet, and no two slashes stand together.
fn are_plain(text: &[u8]) -> bool
    ensures { result ≡ are_plain text.now }
{
    let mut rest = text;
    'octets: while let Some((first, more)) = rest.split_first() {
        if *first != b'%' {
            if !is_path_octet(*first) {
                return false;
            }
            if *first == b'/' && begins_with_slash(more) {
                return false;
            }
            rest = more;
            continue;
        }
        let Some((high, more)) = more.split_first() else {
            return false;
        };
        let Some((low, more)) = more.split_first() else {
            return false;
        };
        if !is_plain_triplet(*high, *low) {
            return false;
        }
        rest = more;
    }
    true
}

/// Whether this is no dot segment, also where what stands behind a semicolon is left out.
fn is_segment(segment: &[u8]) -> bool
    ensures { result ≡ is_segment segment.now }
{
    let name = before(segment, b';');
    segment == b"".as_slice()
        || !(name == b"".as_slice() || name == b".".as_slice() || name == b"..".as_slice())
}

/// Whether no segment is a dot segment.
fn are_segments(path: &[u8]) -> bool
    ensures { result ≡ list_all is_segment (slice_split (λ x. x == 47) path.now) }
{
    let mut rest = path;
    let mut at = place_of(rest, b'/');
    'segments: while at < rest.len() {
        let (segment, _) = rest.split_at(at);
        if !is_segment(segment) {
            return false;
        }
        rest = behind_place(rest, at);
        at = place_of(rest, b'/');
    }
    is_segment(rest)
}

/// Whether this is a path of which every reader makes the same: it begins with a slash, has no empty segment but the last, no dot segment, no octet that a
/// path may not have as itself, and percent-encoding alone in its one form, of octets that need it and that no reader takes for another part of the path. It
/// is its own normal form.
#[tactic(auto, unfolding(crate::specs::Paths::is_normal_path))]
pub fn is_normal_path(path: &[u8]) -> bool
    ensures { result ≡ is_normal_path path.now }
{
    begins_with_slash(path) && are_plain(path) && are_segments(path)
}

/// The path of a URI of HTTP, without query and fragment.
fn path_of(uri: &[u8]) -> Option<&[u8]>
    ensures { option_map (λ s. s.now) result ≡ path_of uri.now }
{
    let text = before(before(uri, b'?'), b'#');
    match behind(text, b"https://") {
        Some(rest) => Some(from(rest, b'/')),
        None => match behind(text, b"http://") {
            Some(rest) => Some(from(rest, b'/')),
            None => None,
        },
    }
}

/// Whether every reader makes the same of the path of this text, if it is a URI of HTTP: it is empty, or as [`is_normal_path`] says.
pub fn has_agreed_path(uri: &[u8]) -> bool
    ensures { result ≡ has_agreed_path uri.now }
{
    match path_of(uri) {
        Some(path) => path == b"".as_slice() || is_normal_path(path),
        None => true,
    }
}
