ghost use Rattle.std.specs.Prelude.{◌≡◌, ◌<◌, ◌≤◌, ◌+◌, ◌==◌, ◌&&◌, min, IfSome, None, Some, length, slice_index, true, false};
ghost use Rattle.std.specs.List.{list_all};
ghost use Rattle.std.specs.Char.{digit_value, is_ascii_hexdigit};
ghost use Rattle.jwt_request.specs.declared.urls.kind.Kind.TheVariants.{Digit, Target};
ghost use Rattle.std.specs.Str.Parse.{digits_value};
ghost use Rattle.jwt_request.specs.urls.Urls.{IsPlaced, are_escapes, is_of, has_scheme, host_len, is_laid, is_port, is_target, parts_behind, port_len, port_of, scheme_of, url_of_scheme, url_where};

use crate::urls::kind::Kind;
use std::cmp;

/// Where the parts of a URL stand, and its port.
#[derive(Clone, Copy, Debug, PartialEq, Eq)]
pub struct Url {
    /// Its scheme is `https`, and not `http`.
    pub is_https: bool,
    /// Where its host begins, behind the scheme.
    pub host: usize,
    /// Where its host ends.
    pub host_end: usize,
    /// The port; that of the scheme where it names none.
    pub port: u16,
    /// Where path and query begin, which last to the end.
    pub target: usize,
}

/// The port of a URL, and how many octets it has with its colon.
#[derive(Clone, Copy)]
struct Port {
    number: u16,
    len: usize,
}

/// The parts of a URL from which something may be fetched. `None`: it is none, or its scheme is `http` and that isn't allowed.
///
/// It has a host, neither a name nor a password before it, and no fragment (RFC 3986, section 3).
#[tactic(auto, unfolding(crate::specs::urls::Urls::url_where))]
pub fn url_of(url: &[u8], allows_http: bool) -> Option<Url>
    ensures value { result ≡ url_where allows_http url.now }
    ensures placed { IfSome result (λ it. IsPlaced it url.now) }
{
    if has_scheme(url, true) {
        return laid_out(url, true);
    }
    if allows_http {
        laid_out(url, false)
    } else {
        None
    }
}

/// Whether that octet, which isn't 0, stands there.
pub(crate) fn stands(octets: &[u8], at: usize, octet: u8) -> bool
    requires { 0 < octet }
    ensures { result ≡ (slice_index octets.now at == octet) }
{
    at < octets.len() && octets[at] == octet
}

fn scheme(https: bool) -> &'static [u8]
    ensures text { result.now ≡ scheme_of https }
    ensures few { length result.now ≤ 8 }
{
    if https { b"https://" } else { b"http://" }
}

fn has_scheme(url: &[u8], https: bool) -> bool
    ensures { result ≡ has_scheme https url.now }
{
    let scheme = scheme(https);
    url.len() >= scheme.len() && url[..scheme.len()].eq_ignore_ascii_case(scheme)
}

/// The parts of a URL of that scheme.
fn laid_out(url: &[u8], https: bool) -> Option<Url>
    ensures value { result ≡ url_of_scheme https url.now }
    ensures placed { IfSome result (λ it. IsPlaced it url.now) }
{
    if !has_scheme(url, https) {
        return None;
    }
    parts_behind(&url[scheme(https).len()..], https)
}

/// The parts of a URL, from what stands behind its scheme.
pub(crate) fn parts_behind(octets: &[u8], https: bool) -> Option<Url>
    ensures some { IfSome result (λ it. (is_laid octets.now ≡ true) × (it ≡ parts_behind https octets.now)) }
    ensures none { result ≡ None → is_laid octets.now ≡ false }
    ensures placed { IfSome result (λ it. (it.host ≡ length (scheme_of https)) × (it.host ≤ it.host_end) × (it.host_end ≤ it.target)
        × (it.target ≤ it.host + length octets.now)) }
{
    let host = scheme(https).len();
    let len = host_len(octets);
    let behind = &octets[len..];
    let port = port_at(behind, https)?;
    if len == 0 || !is_target(&behind[port.len..]) {
        return None;
    }
    Some(Url {
        is_https: https,
        host,
        host_end: host + len,
        port: port.number,
        target: host + len + port.len,
    })
}

/// How many octets the host has at the front; 0: there is none.
fn host_len(octets: &[u8]) -> usize
    ensures value { result ≡ host_len octets.now }
    ensures within { result ≤ length octets.now }
{
    if !stands(octets, 0, b'[') {
        return Kind::Name.run(octets);
    }
    let inner = Kind::Literal.run(&octets[1..]);
    if inner >= 1 && stands(octets, inner + 1, b']') {
        inner + 2
    } else {
        0
    }
}

/// The port at the front, where there is one; else that of the scheme. `None`: what stands there is no port.
#[tactic(auto, using(crate::proofs::Steps::run_passes))]
fn port_at(octets: &[u8], https: bool) -> Option<Port>
    ensures port { IfSome result (λ it. (is_port octets.now ≡ true) × (it.number ≡ port_of https octets.now)) }
    ensures len { IfSome result (λ it. (it.len ≡ port_len octets.now) × (it.len ≤ length octets.now)) }
    ensures none { result ≡ None → is_port octets.now ≡ false }
{
    if !stands(octets, 0, b':') {
        return Some(Port {
            number: if https { 443 } else { 80 },
            len: 0,
        });
    }
    let digits = &octets[1..];
    let count = Kind::Digit.run(digits);
    let number = number_of(&digits[..count]);
    if count == 0 || number > 65_535 {
        return None;
    }
    Some(Port {
        number: number as u16,
        len: count + 1,
    })
}

/// The number that digits write; 65,536 where it is greater.
#[tactic(auto, using(crate::proofs::Steps::number_step))]
fn number_of(digits: &[u8]) -> u32
    requires { list_all (is_of Digit) digits.now ≡ true }
    ensures { result ≡ min (digits_value 10 digits.now) 65536 }
{
    let mut number = 0;
    let mut at = 0;
    while at < digits.len() {
        number = cmp::min(number * 10 + digit_of(digits[at]), 65_536);
        at += 1;
    }
    number
}

/// What a digit stands for.
fn digit_of(digit: u8) -> u32
    requires { is_of Digit digit ≡ true }
    ensures value { result ≡ digit_value digit }
    ensures few { result < 10 }
{
    (digit - b'0') as u32
}

/// Whether it is path and query, which may be empty.
fn is_target(octets: &[u8]) -> bool
    ensures { result ≡ is_target octets.now }
{
    (octets.is_empty() || stands(octets, 0, b'/') || stands(octets, 0, b'?'))
        && is_of_target(octets)
}

/// Whether path and query may have these octets.
pub(crate) fn is_of_target(octets: &[u8]) -> bool
    ensures { result ≡ (list_all (is_of Target) octets.now && are_escapes octets.now) }
{
    Kind::Target.fills(octets) && are_escapes(octets)
}

/// Whether each percent sign has two hexadecimal digits behind it.
#[tactic(auto, using(crate::proofs::Steps::escapes_step))]
fn are_escapes(octets: &[u8]) -> bool
    ensures { result ≡ are_escapes octets.now }
{
    let mut at = 0;
    while at < octets.len() {
        if octets[at] == b'%' && !is_escaped(&octets[at + 1..]) {
            return false;
        }
        at += 1;
    }
    true
}

/// Whether two hexadecimal digits stand at the front.
fn is_escaped(octets: &[u8]) -> bool
    ensures { result ≡ (is_ascii_hexdigit (slice_index octets.now 0) && is_ascii_hexdigit (slice_index octets.now 1)) }
{
    octets.len() >= 2 && octets[0].is_ascii_hexdigit() && octets[1].is_ascii_hexdigit()
}
