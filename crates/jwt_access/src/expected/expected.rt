//! What a call expects of claims.

ghost use Rattle.std.specs.Prelude.{◌≡◌, ◌↔◌, IsNone, IfSome};
ghost use Rattle.std.specs.Str.{bytes_eq};
ghost use Rattle.jwt_access.specs.expected.Expected.{expected_text, AreMet};
ghost use Rattle.jwt_access.specs.expected.Unmet.{IsFirstUnmet};
ghost use Rattle.jwt_access.specs.expected.Views.{Stands};

use crate::expected::claim::spot_of;
use crate::expected::half_hash::is_half_hash;
use crate::laws::paths_are_spelled;
use jwt_mac::Alg;
use jwt_policy::Claims;

/// What a claim has to be.
#[derive(Clone, Copy)]
pub enum Wanted<'a> {
    /// This text, octet by octet.
    Text(&'a str),
    /// The text of the left half of the hash of these octets, by the hash function of the signature's algorithm: `at_hash` of an access
    /// token, and `c_hash` of a code (OpenID Connect Core 1.0, sections 3.1.3.6 and 3.3.2.11).
    HalfHash(&'a [u8]),
}

/// What a call expects of one claim.
#[derive(Clone, Copy)]
pub struct Expected<'a> {
    /// The claim's name: that of a member of the claims, or, where it begins with `/`, a JSON Pointer through objects (RFC 6901), as in
    /// an access rule.
    pub claim: &'a str,
    /// What the claim has to be.
    pub wanted: Wanted<'a>,
}

/// The first expectation that isn't met, by its place in the list, from 0.
#[derive(Clone, Copy, Debug, PartialEq, Eq)]
pub enum Unmet {
    /// The claim is absent, or an object that it would stand in is, or its name begins with `/` and is no JSON Pointer.
    Absent(usize),
    /// The claim is there, and is another text, or no text.
    Other(usize),
}

/// How a claim stands to what is expected of it.
pub(crate) enum Standing {
    Met,
    Absent,
    Other,
}

impl<'a> Wanted<'a> {
    /// Whether this text is the one that is wanted.
    fn is(&self, text: &str, alg: Alg) -> bool
        ensures { result ≡ bytes_eq text.now (expected_text alg self.now) }
    {
        match self {
            Wanted::Text(wanted) => text == *wanted,
            Wanted::HalfHash(octets) => is_half_hash(text, octets, alg),
        }
    }
}

/// How the claim of an expectation stands to it.
fn compare(expected: &Expected<'_>, claims: &Claims, alg: Alg) -> Standing
    ensures { Stands alg claims.now expected.now result }
{
    paths_are_spelled();
    let Some(spot) = spot_of(claims.object(), expected.claim) else {
        return Standing::Absent;
    };
    if !spot.home.has(spot.own) {
        return Standing::Absent;
    }
    match spot.home.text(spot.own) {
        Some(text) => {
            if expected.wanted.is(text, alg) {
                Standing::Met
            } else {
                Standing::Other
            }
        }
        None => Standing::Other,
    }
}

/// The first of these expectations that the claims don't meet; `None` exactly where they meet each. `alg` is the algorithm of the
/// signature that verified.
///
/// Texts are compared to the end, octet by octet. The hash function of EdDSA is SHA-512, that of Ed25519; that of Ed448, SHAKE256, isn't
/// known here. It takes no memory.
pub fn first_unmet(expected: &[Expected<'_>], claims: &Claims, alg: Alg) -> Option<Unmet>
    ensures met { IsNone result ↔ AreMet alg claims.now expected.now }
    ensures first { IfSome result (IsFirstUnmet alg claims.now expected.now) }
{
    paths_are_spelled();
    for place in 0..expected.len() {
        match compare(&expected[place], claims, alg) {
            Standing::Met => {}
            Standing::Absent => return Some(Unmet::Absent(place)),
            Standing::Other => return Some(Unmet::Other(place)),
        }
    }
    None
}
