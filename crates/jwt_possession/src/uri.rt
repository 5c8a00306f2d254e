//! One form of each `http` or `https` URI that has a host, and no user's name (RFC 3986, sections 6.2.2 and 6.2.3).

ghost use Rattle.std.specs.Prelude.{◌≡◌, ◌==◌, ◌+◌, ◌<◌, ◌≤◌, ◌++◌, [], option_map, IfOk, IfSome, OnOk, drop, length, map};
ghost use Rattle.std.specs.List.{list_all, position, position_or_len, slice_split};
ghost use Rattle.std.specs.Char.{is_ascii_digit};
ghost use Rattle.std.specs.Str.{str_eq_ignore_ascii_case};
ghost use Rattle.jwt_possession.specs.Uris.{before, from, behind, host_length, is_port, is_authority, normal_port, is_unreserved, value_of, digit_of, normal_octet, normal_triplet, decoded, ended, gone_on, left, joined, normal_path, normal_behind, normal_uri, same_uri};

use std::alloc::{AllocError, Global};

/// The place of the first such octet.
fn find(text: &[u8], octet: u8) -> Option<usize>
    ensures { result ≡ position (λ x. x == octet) text.now }
{
    text.iter().position(|x| *x == octet)
}

/// The place of the first such octet, or the length where there is none.
#[tactic(auto, using(crate::proofs::Places::place_is, crate::proofs::Places::place_is_end))]
pub(crate) fn place_of(text: &[u8], octet: u8) -> usize
    ensures value { result ≡ position_or_len (λ x. x == octet) text.now }
    ensures within { result ≤ length text.now }
{
    match find(text, octet) {
        Some(place) => place,
        None => text.len(),
    }
}

/// The text before the first such octet.
pub(crate) fn before(text: &[u8], octet: u8) -> &[u8]
    ensures { result.now ≡ before octet text.now }
{
    &text[..place_of(text, octet)]
}

/// The text from the first such octet on.
pub(crate) fn from(text: &[u8], octet: u8) -> &[u8]
    ensures { result.now ≡ from octet text.now }
{
    &text[place_of(text, octet)..]
}

/// The text behind this place.
pub(crate) fn behind_place(text: &[u8], place: usize) -> &[u8]
    requires { place < length text.now }
    ensures { result.now ≡ drop (place + 1) text.now }
{
    &text[place + 1..]
}

/// Whether both are one text, ASCII case ignored.
fn same_but_case(one: &[u8], two: &[u8]) -> bool
    ensures { result ≡ str_eq_ignore_ascii_case one.now two.now }
{
    one.eq_ignore_ascii_case(two)
}

/// What stands behind this scheme.
#[tactic(auto, using(crate::proofs::Places::shorter))]
pub(crate) fn behind<'a>(text: &'a [u8], scheme: &[u8]) -> Option<&'a [u8]>
    ensures { option_map (λ s. s.now) result ≡ behind scheme.now text.now }
{
    if text.len() < scheme.len() {
        return None;
    }
    let (front, rest) = text.split_at(scheme.len());
    if same_but_case(front, scheme) {
        Some(rest)
    } else {
        None
    }
}

// ---- the authority

/// How long the host is.
fn host_length(authority: &[u8]) -> usize
    ensures value { result ≡ host_length authority.now }
    ensures within { result ≤ length authority.now }
{
    if authority.starts_with(b"[") {
        let end = place_of(authority, b']');
        if end < authority.len() { end + 1 } else { end }
    } else {
        place_of(authority, b':')
    }
}

/// Whether each octet is a digit.
fn are_digits(text: &[u8]) -> bool
    ensures { result ≡ list_all is_ascii_digit text.now }
{
    text.iter().all(|x| x.is_ascii_digit())
}

/// Whether this is nothing, a colon, or a colon and digits.
fn is_port(port: &[u8]) -> bool
    ensures { result ≡ is_port port.now }
{
    match port.split_first() {
        Some((colon, digits)) => *colon == b':' && are_digits(digits),
        None => true,
    }
}

/// Whether this is a host and a port, without the name of a user.
fn is_authority(authority: &[u8]) -> bool
    ensures { result ≡ is_authority authority.now }
{
    let (host, port) = authority.split_at(host_length(authority));
    !authority.contains(&b'@') && !host.is_empty() && is_port(port)
}

/// The port as it is written, unless it is the scheme's own, or the colon stands alone.
fn normal_port<'a>(own: &[u8], port: &'a [u8]) -> &'a [u8]
    ensures { result.now ≡ normal_port own.now port.now }
{
    if port == own || port == b":".as_slice() {
        b""
    } else {
        port
    }
}

// ---- percent-encoding

/// Whether an octet needs no percent-encoding (RFC 3986, section 2.3).
pub(crate) fn is_unreserved(octet: u8) -> bool
    ensures { result ≡ is_unreserved octet }
{
    matches!(octet, b'A'..=b'Z' | b'a'..=b'z' | b'0'..=b'9' | b'-' | b'.' | b'_' | b'~')
}

/// The value of a hexadecimal digit.
pub(crate) fn value_of(digit: u8) -> Option<u8>
    ensures value { result ≡ value_of digit }
    ensures range { IfSome result (λ n. n < 16) }
{
    match digit {
        b'0'..=b'9' => Some(digit - b'0'),
        b'A'..=b'F' => Some(digit - b'A' + 10),
        b'a'..=b'f' => Some(digit - b'a' + 10),
        _ => None,
    }
}

/// The capital digit of a value.
pub(crate) fn digit_of(value: u8) -> u8
    requires { value < 16 }
    ensures { result ≡ digit_of value }
{
    if value <= 9 {
        value + b'0'
    } else {
        value - 10 + b'A'
    }
}

/// The octet that two digits write.
fn octet_of(high: u8, low: u8) -> Option<u8>
    ensures { option_map normal_octet result ≡ normal_triplet high low }
{
    let high = value_of(high)?;
    let low = value_of(low)?;
    Some(high * 16 + low)
}

/// Adds an octet that stands in percent-encoding.
fn put_octet(text: &mut Vec<u8>, octet: u8) -> Result<(), AllocError>
    ensures { OnOk result (text.new.items ≡ text.old.items ++ normal_octet octet) }
{
    if is_unreserved(octet) {
        text.push(octet)?;
        return Ok(());
    }
    text.extend_from_slice(&[b'%', digit_of(octet / 16), digit_of(octet % 16)])
}

/// The text with each octet that stands in percent-encoding in one form; `None` where a percent sign has no two digits behind it.
fn decoded(alloc: Global, text: &[u8]) -> Result<Option<Vec<u8>>, AllocError>
    ensures { IfOk result (λ o. option_map (λ v. v.items) o ≡ decoded text.now) }
{
    let mut done = Vec::new(alloc);
    let mut rest = text;
    'octets: while let Some((first, more)) = rest.split_first() {
        if *first != b'%' {
            done.push(*first)?;
            rest = more;
            continue;
        }
        let Some((high, more)) = more.split_first() else {
            return Ok(None);
        };
        let Some((low, more)) = more.split_first() else {
            return Ok(None);
        };
        let Some(octet) = octet_of(*high, *low) else {
            return Ok(None);
        };
        put_octet(&mut done, octet)?;
        rest = more;
    }
    Ok(Some(done))
}

// ---- dot segments

/// Goes on behind this segment, which isn't the last.
fn go_on<'a>(done: &mut Vec<&'a [u8]>, segment: &'a [u8]) -> Result<(), AllocError>
    ensures { OnOk result (map (λ s. s.now) done.new.items
        ≡ gone_on (map (λ s. s.now) done.old.items) segment.now) }
{
    if segment == b".".as_slice() {
        return Ok(());
    }
    if segment == b"..".as_slice() {
        done.pop();
        return Ok(());
    }
    done.push(segment)?;
    Ok(())
}

/// Ends with this segment.
fn end<'a>(done: &mut Vec<&'a [u8]>, last: &'a [u8]) -> Result<(), AllocError>
    ensures { OnOk result (map (λ s. s.now) done.new.items
        ≡ ended (map (λ s. s.now) done.old.items) last.now) }
{
    if last == b".".as_slice() {
        done.push(b"")?;
        return Ok(());
    }
    if last == b"..".as_slice() {
        done.pop();
        done.push(b"")?;
        return Ok(());
    }
    done.push(last)?;
    Ok(())
}

/// The segments that are left of a path behind its first slash.
fn segments(alloc: Global, path: &[u8]) -> Result<Vec<&[u8]>, AllocError>
    ensures { IfOk result (λ v. map (λ s. s.now) v.items
        ≡ left [] (slice_split (λ x. x == 47) path.now)) }
{
    let mut done = Vec::new(alloc);
    let mut rest = path;
    let mut at = place_of(rest, b'/');
    'segments: while at < rest.len() {
        let (segment, _) = rest.split_at(at);
        rest = behind_place(rest, at);
        at = place_of(rest, b'/');
        go_on(&mut done, segment)?;
    }
    end(&mut done, rest)?;
    Ok(done)
}

/// Adds segments, each with its slash.
fn put_segments(text: &mut Vec<u8>, segments: &[&[u8]]) -> Result<(), AllocError>
    ensures { OnOk result (text.new.items
        ≡ text.old.items ++ joined (map (λ s. s.now) segments.now)) }
{
    for segment in segments {
        text.push(b'/')?;
        text.extend_from_slice(segment)?;
    }
    Ok(())
}

/// Adds a path without its dot segments.
fn put_path(alloc: Global, text: &mut Vec<u8>, path: &[u8]) -> Result<(), AllocError>
    ensures { OnOk result (text.new.items ≡ text.old.items ++ normal_path path.now) }
{
    match path.split_first() {
        Some((_, path)) => {
            let segments = segments(alloc, path)?;
            put_segments(text, &segments)
        }
        None => {
            text.push(b'/')?;
            Ok(())
        }
    }
}

// ---- the form

/// The normal form of what stands behind this scheme, whose own port is this one.
fn normal_behind(
    alloc: Global,
    scheme: &[u8],
    own: &[u8],
    rest: &[u8],
) -> Result<Option<Vec<u8>>, AllocError>
    ensures { IfOk result (λ o. option_map (λ v. v.items) o
        ≡ normal_behind scheme.now own.now rest.now) }
{
    let authority = before(rest, b'/');
    if !is_authority(authority) {
        return Ok(None);
    }
    let (host, port) = authority.split_at(host_length(authority));
    let Some(mut host) = decoded(alloc, host)? else {
        return Ok(None);
    };
    let Some(path) = decoded(alloc, from(rest, b'/'))? else {
        return Ok(None);
    };
    host.make_ascii_lowercase();
    let mut text = Vec::from_slice(alloc, scheme)?;
    text.extend_from_slice(&host)?;
    text.extend_from_slice(normal_port(own, port))?;
    put_path(alloc, &mut text, &path)?;
    Ok(Some(text))
}

/// The normal form of a text that begins with `http://` or `https://` and has a host behind it. Query and fragment are dropped, whatever stands in them. `None` of any
/// other text, of one with the name of a user (RFC 9110, section 4.2.4), of one whose port is no number, and of one in which a percent sign in host or path has no two
/// digits behind it.
///
/// Scheme and host are in small letters; an octet in percent-encoding that needs none is itself, and any other is written with
/// capital digits in a path, and with small ones in a host; there are no dot segments; the scheme's own port isn't written; an
/// empty path is `/` (RFC 3986, sections 6.2.2 and 6.2.3).
///
/// # Errors
/// Where an allocation was refused.
#[tactic(auto, unfolding(crate::specs::Uris::normal_uri))]
pub fn normal_uri(alloc: Global, uri: &str) -> Result<Option<Vec<u8>>, AllocError>
    ensures { IfOk result (λ o. option_map (λ v. v.items) o ≡ normal_uri uri.now) }
{
    let text = before(before(uri.as_bytes(), b'?'), b'#');
    match behind(text, b"https://") {
        Some(rest) => normal_behind(alloc, b"https://", b":443", rest),
        None => match behind(text, b"http://") {
            Some(rest) => normal_behind(alloc, b"http://", b":80", rest),
            None => Ok(None),
        },
    }
}

/// Whether both have a normal form, and it is one.
pub(crate) fn same_uri(alloc: Global, one: &str, two: &str) -> Result<bool, AllocError>
    ensures { IfOk result (λ same. same ≡ same_uri one.now two.now) }
{
    let Some(one) = normal_uri(alloc, one)? else {
        return Ok(false);
    };
    let Some(two) = normal_uri(alloc, two)? else {
        return Ok(false);
    };
    Ok(one.as_slice() == two.as_slice())
}
