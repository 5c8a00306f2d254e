ghost use Rattle.std.specs.Prelude.{◌≡◌, ◌↔◌, ◌++◌, ◌+◌, ◌≤◌, ℕ, IsTrue, length, take, drop};
ghost use Rattle.std.specs.List.{All};
ghost use Rattle.jwt_request.specs.declared.scheme.Scheme.TheVariants.{Bearer, Dpop};
ghost use Rattle.jwt_request.specs.Challenges.{IsQuotable, IsWritten, challenge_text, text_of};

use crate::scheme::Scheme;

/// A challenge of a scheme, the value of `WWW-Authenticate` (RFC 6750, section 3; RFC 9449, sections 7.1 and 9).
#[derive(Clone, Copy, Debug, PartialEq, Eq)]
pub enum Challenge {
    /// None.
    Silent,
    /// No error, since no token was shown: `Bearer realm=".."`, `DPoP algs=".."`.
    Realm,
    /// `error="invalid_request"`.
    InvalidRequest,
    /// `error="invalid_token"`.
    InvalidToken,
    /// `error="insufficient_scope"`.
    InsufficientScope,
    /// The same, with `scope=".."`.
    Scopes,
    /// `error="invalid_dpop_proof"`.
    InvalidProof,
    /// `error="use_dpop_nonce"`: the answer has the nonce in a header `DPoP-Nonce` as well.
    UseNonce,
}

/// What a service writes into its challenges.
#[derive(Clone, Copy)]
pub struct Texts<'a> {
    /// Its realm, which stands in challenges of Bearer alone.
    pub realm: &'a [u8],
    /// What a token needs, with a space between two (RFC 6749, section 3.3).
    pub scope: &'a [u8],
    /// The algorithms by which a proof may be signed, with a space between two (RFC 9449, section 7.1). They stand in each challenge of DPoP, and in none
    /// of Bearer.
    pub algs: &'a [u8],
}

/// Whether a realm, a scope or the names of algorithms can be quoted as they are: each octet is a printable one of ASCII, and neither a quotation mark nor a backslash
/// (RFC 9110, section 5.6.4; RFC 6750, section 3). A service refuses any other when it is set up.
pub fn is_quotable(text: &[u8]) -> bool
    ensures { IsTrue result ↔ All IsQuotable text.now }
{
    text.iter().all(|octet| 32 <= *octet && *octet <= 126 && *octet != 34 && *octet != 92)
}

/// A text in five parts, of which two are the caller's.
#[derive(Drop)]
struct Parts<'a> {
    front: &'a [u8],
    first: &'a [u8],
    middle: &'a [u8],
    second: &'a [u8],
    end: &'a [u8],
}

/// Puts octets at a place of `out`.
fn put_at(out: &mut [u8], at: usize, octets: &[u8])
    requires { at + length octets.now ≤ length out.old }
    ensures length { length out.new ≡ length out.old }
    ensures front { take (at + length octets.now) out.new ≡ take at out.old ++ octets.now }
    ensures behind { (n : ℕ) → at + length octets.now ≤ n → drop n out.new ≡ drop n out.old }
{
    out[at..at + octets.len()].copy_from_slice(octets);
}

impl Challenge {
    /// Writes the challenge of this scheme at the front of `out`, and gives the number of its octets; 0 for `Silent`, with which no header is sent.
    ///
    /// `None`: it has more octets than `out`, in which nothing is written then.
    ///
    /// The condition: the texts can be quoted ([`is_quotable`]).
    pub fn write(self, scheme: Scheme, texts: &Texts, out: &mut [u8]) -> Option<usize>
        requires realm { All IsQuotable texts.now.realm.now }
        requires scope { All IsQuotable texts.now.scope.now }
        requires algs { All IsQuotable texts.now.algs.now }
        ensures { IsWritten (challenge_text scheme self texts.now.realm.now texts.now.scope.now texts.now.algs.now) result out.old out.new }
    {
        let parts = self.parts(scheme, texts);
        let middle = parts.front.len() + parts.first.len();
        let second = middle + parts.middle.len();
        let rest = parts.second.len() + parts.end.len();
        if second > out.len() || rest > out.len() - second {
            return None;
        }
        put_at(out, 0, parts.front);
        put_at(out, parts.front.len(), parts.first);
        put_at(out, middle, parts.middle);
        put_at(out, second, parts.second);
        put_at(out, second + parts.second.len(), parts.end);
        Some(second + rest)
    }

    /// Its parts.
    fn parts<'a>(self, scheme: Scheme, texts: &Texts<'a>) -> Parts<'a>
        ensures text { text_of result ≡ challenge_text scheme self texts.now.realm.now texts.now.scope.now texts.now.algs.now }
        ensures front { length result.front.now ≤ 64 }
        ensures middle { length result.middle.now ≤ 64 }
        ensures end { length result.end.now ≤ 1 }
    {
        match scheme {
            Scheme::Bearer => self.parts_of_bearer(texts),
            Scheme::Dpop => self.parts_of_dpop(texts),
        }
    }

    /// Those of a challenge of Bearer.
    fn parts_of_bearer<'a>(self, texts: &Texts<'a>) -> Parts<'a>
        ensures text { text_of result ≡ challenge_text Bearer self texts.now.realm.now texts.now.scope.now texts.now.algs.now }
        ensures front { length result.front.now ≤ 64 }
        ensures middle { length result.middle.now ≤ 1 }
        ensures end { length result.end.now ≤ 1 }
    {
        let (front, first, middle): (&[u8], &[u8], &[u8]) = match self {
            Challenge::Silent => (b"", b"", b""),
            Challenge::Realm => (b"Bearer realm=\"", texts.realm, b"\""),
            Challenge::InvalidRequest => (b"Bearer error=\"", b"invalid_request", b"\""),
            Challenge::InvalidToken => (b"Bearer error=\"", b"invalid_token", b"\""),
            Challenge::InsufficientScope => (b"Bearer error=\"", b"insufficient_scope", b"\""),
            Challenge::Scopes => (
                b"Bearer error=\"insufficient_scope\", scope=\"",
                texts.scope,
                b"\"",
            ),
            Challenge::InvalidProof => (b"Bearer error=\"", b"invalid_dpop_proof", b"\""),
            Challenge::UseNonce => (b"Bearer error=\"", b"use_dpop_nonce", b"\""),
        };
        Parts {
            front,
            first,
            middle,
            second: b"",
            end: b"",
        }
    }

    /// Those of a challenge of DPoP.
    fn parts_of_dpop<'a>(self, texts: &Texts<'a>) -> Parts<'a>
        ensures text { text_of result ≡ challenge_text Dpop self texts.now.realm.now texts.now.scope.now texts.now.algs.now }
        ensures front { length result.front.now ≤ 64 }
        ensures middle { length result.middle.now ≤ 64 }
        ensures end { length result.end.now ≤ 1 }
    {
        let (middle, second, end): (&[u8], &[u8], &[u8]) = match self {
            Challenge::Silent => return self.parts_of_bearer(texts),
            Challenge::Realm => (b"\"", b"", b""),
            Challenge::InvalidRequest => (b"\", error=\"", b"invalid_request", b"\""),
            Challenge::InvalidToken => (b"\", error=\"", b"invalid_token", b"\""),
            Challenge::InsufficientScope => (b"\", error=\"", b"insufficient_scope", b"\""),
            Challenge::Scopes => (
                b"\", error=\"insufficient_scope\", scope=\"",
                texts.scope,
                b"\"",
            ),
            Challenge::InvalidProof => (b"\", error=\"", b"invalid_dpop_proof", b"\""),
            Challenge::UseNonce => (b"\", error=\"", b"use_dpop_nonce", b"\""),
        };
        Parts {
            front: b"DPoP algs=\"",
            first: texts.algs,
            middle,
            second,
            end,
        }
    }
}
