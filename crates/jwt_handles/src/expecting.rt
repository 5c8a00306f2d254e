//! What one call knows of the claims of the token that was accepted last.

ghost use Rattle.jwt_handles.specs.declared.status.TheConstants.{FOW_NOT_EXPECTED, FOW_NOT_OPEN, FOW_OUT_OF_MEMORY, FOW_REFUSED};
ghost use Rattle.std.specs.Prelude.{◌≡◌, ◌≢◌, IfSome, IfOk, IsUtf8, None, option_map, slice_get};
ghost use Rattle.jwt_jws.specs.Views.{token};
ghost use Rattle.jwt_access.specs.expected.Expected.{expected_text};
ghost use Rattle.jwt_verify.specs.Verdict.{token_of};
ghost use Rattle.jwt_handles.specs.Documents.{documents};
ghost use Rattle.jwt_handles.specs.Evidence.{states_kept, claims_kept, payload_kept};
ghost use Rattle.jwt_handles.specs.Expecting.{SaysText, SaysHalfHash, alg_beside, alg_of_last};

use crate::handle::{Handle, take};
use crate::reading::read_token;
use crate::state::{Last, State};
use crate::status::{
    FOW_ABSENT, FOW_NOT_EXPECTED, FOW_NOT_OPEN, FOW_OK, FOW_OUT_OF_MEMORY, FOW_REFUSED,
};
use crate::tokens::SignatureOf;
use jwt_access::expected::{Expected, Unmet, Wanted, first_unmet};
use jwt_jws::Signed;
use jwt_mac::Alg;
use jwt_policy::{Claims, known_alg};
use jwt_verify::SigState;
use std::alloc::{AllocError, Global};
use std::str::from_utf8;

/// Holds one expectation against claims, where there are any: the status, and 1 for a claim that is absent, 2 for one that is another.
#[tactic(auto, using(crate::proofs::Standings::met, crate::proofs::Standings::other))]
fn hold(expected: Expected<'_>, claims: Option<&Claims>, alg: Alg) -> (u32, u32)
    ensures says { SaysText (option_map (λ c. c.now) claims.entry) expected.entry.claim.now
        (expected_text alg expected.entry.wanted) result.0 result.1 }
    ensures said { result.0 ≢ FOW_NOT_EXPECTED → result.1 ≡ 0 }
{
    let Some(claims) = claims else {
        return (FOW_ABSENT, 0);
    };
    match first_unmet(&[expected], claims, alg) {
        None => (FOW_OK, 0),
        Some(Unmet::Absent(_)) => (FOW_NOT_EXPECTED, 1),
        Some(Unmet::Other(_)) => (FOW_NOT_EXPECTED, 2),
    }
}

/// The algorithm of that signature of a token, where it is one that verified in the last judging, and the token has the payload that was
/// accepted in it.
fn alg_beside(signed: &Signed<'_>, last: &Last, signature: u32) -> Option<Alg>
    ensures { result ≡ alg_beside (token signed.now) (payload_kept last.now)
        (slice_get (states_kept last.now) signature) signature }
{
    let payload = last.payload()?;
    let SigState::Verified(_) = last.states().get(signature as usize)? else {
        return None;
    };
    if signed.payload() != payload {
        return None;
    }
    known_alg(signed.signature(signature)?)
}

impl State {
    /// The algorithm of that signature of the token that was accepted last; `None` where these octets are another one, or that signature
    /// didn't verify.
    ///
    /// # Errors
    /// Where memory was refused.
    fn alg_of_last(
        &self,
        alloc: Global,
        token: &[u8],
        signature: u32,
    ) -> Result<Option<Alg>, AllocError>
        ensures { IfOk result (λ a. a ≡ alg_of_last (token_of (documents self.now).policy token.now)
            self.now.last signature) }
    {
        match read_token(alloc, token, &self.grounds.documents().policy)? {
            Some(signed) => Ok(alg_beside(&signed, &self.last, signature)),
            None => Ok(None),
        }
    }
}

/// Holds a text against a claim, which is named as in an access rule. `FOW_OK`: it is that very text; `FOW_NOT_EXPECTED`: it isn't, and the
/// number is 1 where it is absent, 2 where it is another; `FOW_REFUSED`: the name or the text isn't in UTF-8; `FOW_ABSENT`: the last verdict
/// was no acceptance.
fn hold_text(claims: Option<&Claims>, claim: &[u8], text: &[u8]) -> (u32, u32)
    ensures says { IsUtf8 claim.now → IsUtf8 text.now
        → SaysText (option_map (λ c. c.now) claims.entry) claim.now text.now result.0 result.1 }
    ensures claim { ¬ IsUtf8 claim.now → result.0 ≡ FOW_REFUSED }
    ensures text { ¬ IsUtf8 text.now → result.0 ≡ FOW_REFUSED }
    ensures said { result.0 ≢ FOW_NOT_EXPECTED → result.1 ≡ 0 }
{
    let Ok(claim) = from_utf8(claim) else {
        return (FOW_REFUSED, 0);
    };
    let Ok(text) = from_utf8(text) else {
        return (FOW_REFUSED, 0);
    };
    let wanted = Wanted::Text(text);
    hold(Expected { claim, wanted }, claims, Alg::HS256)
}

impl State {
    /// Holds the half of the hash of octets against a claim, by the algorithm of that signature of the token that was accepted last.
    fn hold_half_hash(
        &self,
        alloc: Global,
        token: &[u8],
        signature: u32,
        claim: &[u8],
        octets: &[u8],
    ) -> (u32, u32)
        ensures says { IsUtf8 claim.now → result.0 ≢ FOW_OUT_OF_MEMORY
            → SaysHalfHash (token_of (documents self.now).policy token.now) self.now.last signature
            claim.now octets.now result.0 result.1 }
        ensures claim { ¬ IsUtf8 claim.now → result.0 ≡ FOW_REFUSED }
        ensures said { result.0 ≢ FOW_NOT_EXPECTED → result.1 ≡ 0 }
    {
        let Ok(claim) = from_utf8(claim) else {
            return (FOW_REFUSED, 0);
        };
        let wanted = Wanted::HalfHash(octets);
        match self.alg_of_last(alloc, token, signature) {
            Ok(Some(alg)) => hold(Expected { claim, wanted }, self.last.claims(), alg),
            Ok(None) => (FOW_ABSENT, 0),
            Err(_) => (FOW_OUT_OF_MEMORY, 0),
        }
    }
}

/// Holds a text against a claim of the token that was accepted last. The claim is named as in an access rule: by its name, or by a JSON
/// Pointer (RFC 6901), which begins with `/`. `FOW_OK`: the claim is that very text; `FOW_NOT_EXPECTED`: it isn't, and the number is 1 where
/// it is absent, 2 where it is another; `FOW_REFUSED`: the name or the text isn't in UTF-8; `FOW_NOT_OPEN`: nothing is held; `FOW_ABSENT`:
/// the last verdict was no acceptance.
pub fn expect_text(
    validator: &mut Handle,
    alloc: Global,
    claim: &[u8],
    text: &[u8],
    unmet: &mut u32,
) -> u32
    ensures same { validator.new.state ≡ validator.old.state }
    ensures none { validator.old.state ≡ None → result ≡ FOW_NOT_OPEN }
    ensures expected { IfSome validator.old.state (λ d. IsUtf8 claim.now → IsUtf8 text.now
        → SaysText (claims_kept d.last) claim.now text.now result unmet.new) }
    ensures claim { IfSome validator.old.state (λ d. ¬ IsUtf8 claim.now → result ≡ FOW_REFUSED) }
    ensures text { IfSome validator.old.state (λ d. ¬ IsUtf8 text.now → result ≡ FOW_REFUSED) }
    ensures said { result ≢ FOW_NOT_EXPECTED → unmet.new ≡ 0 }
{
    *unmet = 0;
    let Some(state) = take(validator, alloc) else {
        return FOW_NOT_OPEN;
    };
    let (status, number) = hold_text(state.last.claims(), claim, text);
    *unmet = number;
    *validator = Handle::of(state);
    status
}

/// The octets whose half hash is expected in a claim, which is named by its name or a JSON Pointer, and the signature whose algorithm names
/// the hash function.
#[derive(Clone, Copy)]
pub struct HalfHash<'a> {
    pub of: SignatureOf<'a>,
    pub claim: &'a [u8],
    pub octets: &'a [u8],
}

/// Holds base64url of the left half of the hash of octets against a claim of the token that was accepted last (OpenID Connect Core 1.0,
/// section 3.1.3.6 for `at_hash`, 3.3.2.11 for `c_hash`): by the hash function of the algorithm of that signature, which verified. The claim
/// is named as in [`expect_text`]. `FOW_OK`: the claim is that very text; `FOW_NOT_EXPECTED`: it isn't, and the number is 1 where it is
/// absent, 2 where it is another; `FOW_REFUSED`: the name isn't in UTF-8; `FOW_OUT_OF_MEMORY`: memory was refused; `FOW_NOT_OPEN`: nothing is
/// held; `FOW_ABSENT`: the last verdict was no acceptance, or of another token than this one, or that signature didn't verify.
pub fn expect_half_hash(
    validator: &mut Handle,
    alloc: Global,
    expected: HalfHash<'_>,
    unmet: &mut u32,
) -> u32
    ensures same { validator.new.state ≡ validator.old.state }
    ensures none { validator.old.state ≡ None → result ≡ FOW_NOT_OPEN }
    ensures expected { IfSome validator.old.state (λ d. IsUtf8 expected.entry.claim.now → result ≢ FOW_OUT_OF_MEMORY
        → SaysHalfHash (token_of (documents d).policy expected.entry.of.token.now) d.last expected.entry.of.signature
        expected.entry.claim.now expected.entry.octets.now result unmet.new) }
    ensures claim { IfSome validator.old.state (λ d. ¬ IsUtf8 expected.entry.claim.now → result ≡ FOW_REFUSED) }
    ensures said { result ≢ FOW_NOT_EXPECTED → unmet.new ≡ 0 }
{
    *unmet = 0;
    let Some(state) = take(validator, alloc) else {
        return FOW_NOT_OPEN;
    };
    let HalfHash { of, claim, octets } = expected;
    let (status, number) = state.hold_half_hash(alloc, of.token, of.signature, claim, octets);
    *unmet = number;
    *validator = Handle::of(state);
    status
}
