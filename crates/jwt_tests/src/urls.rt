use crate::asserted::holds;
use jwt_request::urls::{Asked, Metadata, Next, Unwritten, Url, next_of, redirected, url_of};
use std::alloc::Global;
use std::process::Abort;
use std::test::Fail;

/// A URL, whether it is one of `https`, its host, its port, and its path and query, with a bar between two.
const URLS: &str = "https://a.example/keys|true|a.example|443|/keys
HTTPS://A.example/keys|true|A.example|443|/keys
http://a.example/keys|false|a.example|80|/keys
https://a.example|true|a.example|443|
https://a.example?x=/y|true|a.example|443|?x=/y
https://a:8443/|true|a|8443|/
https://a:65535/|true|a|65535|/
https://a:000443/|true|a|443|/
https://[::1]:8443/k|true|[::1]|8443|/k
https://127.0.0.1/k|true|127.0.0.1|443|/k
https://a_b-c.d/%7Ek/a:b@c;d=e,f'(g)*!$&+~|true|a_b-c.d|443|/%7Ek/a:b@c;d=e,f'(g)*!$&+~
https://a/k?tenant=x%20y&z=?|true|a|443|/k?tenant=x%20y&z=?";

/// The parts of a URL, as a line of [`URLS`] has them.
fn told(alloc: Global, url: &str, at: Url) -> Result<String, Fail> {
    let host = url.get(at.host..at.host_end).ok_or("no host")?;
    let target = url.get(at.target..).ok_or("no target")?;
    let (is_https, port) = (at.is_https, at.port);
    Ok(format!(in alloc; "{url}|{is_https}|{host}|{port}|{target}")?)
}

/// Stops where a URL has other parts than its line says.
fn assert_parts(rt: &impl Abort, alloc: Global, table: &str) -> Result<(), Fail> {
    for line in table.lines() {
        let (url, _) = line.split_once('|').ok_or("no bar")?;
        let at = url_of(url.as_bytes(), true).ok_or("no URL")?;
        let found = told(alloc, url, at)?;
        assert!(rt; found.as_str() == line, "{found}");
    }
    Ok(())
}

#[test]
fn a_url_has_its_parts(rt: HostRuntime) -> Result<(), Fail> {
    assert_parts(&rt, rt.alloc(), URLS)?;
    holds(&rt, url_of(b"http://a.example/keys", false).is_none());
    holds(&rt, url_of(b"https://a.example/keys", false).is_some());
    Ok(())
}

/// What is no URL, with a bar between two.
const NO_URLS: &str = "|keys|/keys|//a/keys|https:|https:/a/keys|https://|https:///keys|https://?x|\
file:///etc/passwd|ftp://a/keys|httpss://a/keys| https://a/keys|https://a/keys |\
https://u@a/keys|https://u:p@a/keys|https://@a/keys|https://a:/keys|https://a:x/keys|\
https://a:65536/keys|https://a:99999999999999999999/keys|https://a:-1/keys|\
https://a:443:443/keys|https://a\\b/keys|https://a/k\\eys|https://a/keys#x|https://a#x|\
https://a/k eys|https://a/k\neys|https://a/k\u{e9}ys|https://\u{e9}/keys|https://a/%|\
https://a/%4|https://a/%zz|https://[::1/keys|https://[]/keys";

#[test]
fn what_is_no_url_is_refused(rt: HostRuntime) {
    for url in NO_URLS.split('|') {
        assert!(rt; url_of(url.as_bytes(), true).is_none(), "{url}");
    }
}

/// Where a redirection leads: the octets that are written.
fn led<'a>(url: &[u8], location: &[u8], out: &'a mut [u8]) -> Result<&'a [u8], Unwritten> {
    let size = redirected(url, location, out)?;
    Ok(out.get(..size).unwrap_or(&[]))
}

/// A URL, what it is redirected to, and where that leads.
const WITHIN: &str = "https://a/k|https://a/new|https://a/new
https://a/k|HTTPS://A:443/new?x|HTTPS://A:443/new?x
https://a:443/k|https://a/new|https://a/new
http://a:80/k|http://a|http://a
https://a/k|//a/new|https://a/new
http://a:8080/k|//A:8080/new|http://A:8080/new
https://a:8443/k?x|/new|https://a:8443/new
https://a/k|/|https://a/
https://a/x/y?z|new|https://a/x/new
https://a/x/y?z=/w|new/?v|https://a/x/new/?v
https://a/x/|new|https://a/x/new
https://a|new|https://a/new
https://a?x|new|https://a/new
https://a/x/y?z|?w|https://a/x/y?w
https://a/x%2F?z|?%3F|https://a/x%2F?%3F
https://a/x|/.well-known/..x?../.|https://a/.well-known/..x?../.";

/// Stops where a redirection leads elsewhere than its line says.
fn assert_led(rt: &impl Abort, table: &str) -> Result<(), Fail> {
    for line in table.lines() {
        let (url, rest) = line.split_once('|').ok_or("no bar")?;
        let (location, wanted) = rest.split_once('|').ok_or("no second bar")?;
        let mut out = [0; 64];
        let found = led(url.as_bytes(), location.as_bytes(), &mut out);
        assert!(rt; found == Ok(wanted.as_bytes()), "{line}");
    }
    Ok(())
}

#[test]
fn a_redirection_leads_within_its_origin(rt: HostRuntime) -> Result<(), Fail> {
    assert_led(&rt, WITHIN)
}

/// A URL, and a redirection that isn't followed.
const ELSEWHERE: &str = "https://a/k|
https://a/k|https://b/k
https://a/k|https://a.b/k
https://a.b/k|https://a/k
https://a/k|https://a:8443/k
https://a:8443/k|https://a/k
https://a/k|http://a/k
https://a/k|http://a:443/k
http://a/k|https://a/k
https://a/k|https://u@a/k
https://a/k|//b/k
https://a/k|//u@a/k
https://a/k|///k
https://a/k|mailto:x
https://a/k|k:8443/x
https://a/k|/new#x
https://a/k|#x
https://a/k|/a b
https://a/k|\\\\b\\k
https://a/k|/x\\y
https://a/k|new%4
https://a/k|//a/new%
https://a/x/k|../new
https://a/x/k|./new
https://a/x/k|/x/..
keys|https://a/new";

/// Stops where a redirection is followed.
fn assert_refused(rt: &impl Abort, table: &str) -> Result<(), Fail> {
    for line in table.lines() {
        let (url, location) = line.split_once('|').ok_or("no bar")?;
        let mut out = [0; 64];
        let found = led(url.as_bytes(), location.as_bytes(), &mut out);
        assert!(rt; found == Err(Unwritten::Refused), "{line}");
    }
    Ok(())
}

#[test]
fn a_redirection_elsewhere_is_refused(rt: HostRuntime) -> Result<(), Fail> {
    assert_refused(&rt, ELSEWHERE)?;
    let mut out = [0; 13];
    let short = led(b"https://a/k", b"/new", &mut out[..12]);
    holds(&rt, short == Err(Unwritten::TooShort));
    let fitting = led(b"https://a/k", b"/new", &mut out);
    holds(&rt, fitting == Ok(b"https://a/new".as_slice()));
    Ok(())
}

/// Whether a redirection elsewhere writes nothing, where it would have fitted and where it wouldn't.
#[test]
fn a_refused_redirection_writes_nothing(rt: HostRuntime) {
    for room in [64, 12] {
        let mut out = [0; 64];
        let found = match out.get_mut(..room) {
            Some(out) => led(b"https://a/k", b"//b/new", out).err(),
            None => None,
        };
        holds(&rt, found == Some(Unwritten::Refused) && out == [0; 64]);
    }
}

/// An issuer, and the URLs of its metadata, of OpenID Connect and of OAuth.
const ISSUERS: &str =
    "https://a|https://a/.well-known/openid-configuration|https://a/.well-known/oauth-authorization-server
https://a/|https://a/.well-known/openid-configuration|https://a/.well-known/oauth-authorization-server
https://a:8443/x/y|https://a:8443/x/y/.well-known/openid-configuration|https://a:8443/.well-known/oauth-authorization-server/x/y
https://a/x/|https://a/x/.well-known/openid-configuration|https://a/.well-known/oauth-authorization-server/x";

/// Whether this is the URL of an issuer's metadata.
fn is_url_of(metadata: Metadata, issuer: &str, wanted: &str) -> bool {
    let mut out = [0; 80];
    match metadata.write_url(issuer.as_bytes(), &mut out) {
        Ok(size) => out.get(..size) == Some(wanted.as_bytes()),
        Err(_) => false,
    }
}

/// Stops where an issuer's metadata have other URLs.
fn assert_metadata(rt: &impl Abort, table: &str) -> Result<(), Fail> {
    for line in table.lines() {
        let (issuer, rest) = line.split_once('|').ok_or("no bar")?;
        let (open_id, oauth) = rest.split_once('|').ok_or("no second bar")?;
        assert!(rt; is_url_of(Metadata::OpenId, issuer, open_id), "{line}");
        assert!(rt; is_url_of(Metadata::OAuth, issuer, oauth), "{line}");
    }
    Ok(())
}

#[test]
fn an_issuer_has_two_urls_of_metadata(rt: HostRuntime) -> Result<(), Fail> {
    assert_metadata(&rt, ISSUERS)?;
    let mut out = [0; 41];
    for issuer in ["https://a/x?y", "https://a?", "https://a/#x", "a"] {
        let found = Metadata::OpenId.write_url(issuer.as_bytes(), &mut out);
        holds(&rt, found == Err(Unwritten::Refused));
    }
    let short = Metadata::OpenId.write_url(b"https://a", &mut out);
    holds(&rt, short == Err(Unwritten::TooShort));
    Ok(())
}

/// What is asked, the status of the answer, how many redirections were followed before, and what follows.
static ANSWERS: [(Asked, u32, u32, Next); 13] = [
    (Asked::Keys, 200, 5, Next::Take),
    (Asked::Keys, 201, 0, Next::Fail),
    (Asked::Keys, 204, 0, Next::Fail),
    (Asked::Keys, 301, 0, Next::Follow),
    (Asked::Keys, 302, 4, Next::Follow),
    (Asked::Keys, 308, 5, Next::TooOften),
    (Asked::Keys, 300, 0, Next::Fail),
    (Asked::Keys, 304, 0, Next::Fail),
    (Asked::Keys, 404, 0, Next::Fail),
    (Asked::OpenId, 404, 3, Next::AskOAuth),
    (Asked::OpenId, 410, 0, Next::Fail),
    (Asked::OAuth, 404, 0, Next::Fail),
    (Asked::OAuth, 500, 0, Next::Fail),
];

#[test]
fn an_answer_is_taken_by_its_status(rt: HostRuntime) {
    for &(asked, status, followed, wanted) in &ANSWERS {
        assert!(rt; next_of(asked, status, followed) == wanted, "{status}");
    }
    holds(
        &rt,
        Next::Take.most() == 4_194_304 && Next::Follow.most() == 0,
    );
}
