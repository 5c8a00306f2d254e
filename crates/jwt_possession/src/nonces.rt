//! Nonces by time, of which nothing is kept.

ghost use Rattle.std.specs.Prelude.{◌≡◌, ◌≤◌, ◌↔◌, IsTrue, MatchOption, length};
ghost use Rattle.jwt_text.specs.Base64url.{spelling};

use crate::possession::seconds;
use base64::engine::general_purpose::URL_SAFE_NO_PAD;
use jwt_mac::{Alg, CountDown, hmac, same_octets};
use jwt_policy::Claims;

/// How many octets a nonce has.
pub const NONCE_LEN: usize = 43;

/// How many octets the secret of nonces has at least.
pub const NONCE_SECRET_LEN: usize = 32;

/// The nonces that a service asks for (RFC 9449, sections 8 and 9): each period of time from 1970 on has one, which is made of the service's secret and
/// of the period's number. So nothing is kept of them, and services that share a secret ask for the same ones. A proof may have the nonce of the
/// period or of the one before: it is good for one period at least, and for less than two.
///
/// The secret is random, and serves for nothing else. Whoever knows it knows each nonce, now and ever.
///
/// ```rust
/// use crate::Nonces;
///
/// let Some(nonces) = Nonces::of(secret, 300) else { return Err(..) };
/// let possession = judge_proof(alloc, proof, &request, &policy, now, &verifiers)?;
/// if !nonces.accepts(possession.claims(), now) {
///     // 401, with `DPoP error="use_dpop_nonce"` and a header `DPoP-Nonce` of `nonces.at(now)`
/// }
/// ```
#[derive(Clone, Copy)]
pub struct Nonces<'a> {
    pub(crate) secret: &'a [u8],
    pub(crate) period: u32,
    ghost long: { 32 ≤ length secret.now },
    ghost some: { 1 ≤ period },
}

/// Base64url of a digest of 32 octets (RFC 4648, section 5).
fn spelled(digest: &[u8]) -> [u8; NONCE_LEN]
    requires { length digest.now ≡ 32 }
    ensures { result ≡ spelling digest.now }
{
    let mut text = [0u8; NONCE_LEN];
    match URL_SAFE_NO_PAD.encode_slice(digest, &mut text) {
        Ok(_) => text,
        Err(_) => unreachable!(),
    }
}

impl<'a> Nonces<'a> {
    ghost use Rattle.jwt_possession.specs.Nonces.{Making, making, MakesNonces, period_of, nonce_in, nonce_of, IsFresh, HasFresh};

    /// The nonces by this secret, lent, of at least 32 octets, and by periods of so many seconds, of which each has at least one. `None`: the secret is shorter,
    /// or the period is 0.
    pub fn of(secret: &'a [u8], period: u32) -> Option<Nonces<'a>>
        ensures { MatchOption result (¬ MakesNonces (record { secret = secret.now; period = period }))
            (λ nonces. (making nonces ≡ record { secret = secret.now; period = period }) × MakesNonces (making nonces)) }
    {
        if secret.len() < NONCE_SECRET_LEN || period == 0 {
            return None;
        }
        Some(Nonces { secret, period })
    }

    /// The number of the period in which a moment falls.
    fn period_of(&self, now: i64) -> u64
        ensures { result ≡ period_of (making self.now) now }
    {
        seconds(now) / u64::from(self.period)
    }

    /// The nonce of the period of this number.
    #[tactic(auto, unfolding(crate::specs::Nonces::nonce_in))]
    fn within(&self, number: u64) -> [u8; NONCE_LEN]
        ensures { result ≡ nonce_in (making self.now) number }
    {
        let mut budget = CountDown::new(u64::MAX);
        let number = number.to_be_bytes();
        match hmac(&mut budget, Alg::HS256, self.secret, [&number, b"", b""]) {
            Ok(tag) => spelled(tag.octets()),
            Err(_) => unreachable!(),
        }
    }

    /// The nonce of the period in which `now` falls, in seconds since 1970-01-01T00:00:00Z; a moment before falls in the first. It is what the header
    /// `DPoP-Nonce` says.
    pub fn at(&self, now: i64) -> [u8; NONCE_LEN]
        ensures { result ≡ nonce_of (making self.now) now }
    {
        self.within(self.period_of(now))
    }

    /// Whether this is the nonce of the period in which `now` falls, or of the one before. There is none before the first.
    pub fn is_fresh(&self, nonce: &str, now: i64) -> bool
        ensures { IsTrue result ↔ IsFresh (making self.now) now nonce.now }
    {
        let number = self.period_of(now);
        if same_octets(nonce.as_bytes(), &self.within(number)) {
            return true;
        }
        if number == 0 {
            return false;
        }
        same_octets(nonce.as_bytes(), &self.within(number - 1))
    }

    /// Whether the claim `nonce` of a proof that was accepted is such a one (RFC 9449, section 4.3, step 10). `now` is the moment at which it was judged.
    pub fn accepts(&self, claims: &Claims, now: i64) -> bool
        ensures { IsTrue result ↔ HasFresh (making self.now) now claims.now }
    {
        match claims.object().text("nonce") {
            Some(nonce) => self.is_fresh(nonce, now),
            None => false,
        }
    }
}
