//! The token of a request, by the schemes Bearer and DPoP, and what is answered to it.

ghost use Rattle.jwt_handles.specs.declared.status.TheConstants.{FOW_ABSENT, FOW_OK, FOW_REFUSED};
ghost use Rattle.std.specs.Prelude.{◌≡◌, ◌≢◌, ◌≤◌, ◌↔◌, IsTrue, Some, nat_lt};
ghost use Rattle.std.specs.List.{All};
ghost use Rattle.jwt_request.specs.Replies.{IsReply};
ghost use Rattle.jwt_request.specs.Challenges.{IsQuotable};
ghost use Rattle.jwt_handles.specs.Requests.{IsAbsentBy, IsMalformedBy, IsOutcomeOfProof, IsOutcomeOfTaken, IsTokenBy, challenge_of, outcome_of, reply_of, scheme_of, schemes_of, text_by};
ghost use Rattle.jwt_handles.specs.Written.{Puts};

use crate::status::{FOW_ABSENT, FOW_NOT_EXPECTED, FOW_OK, FOW_REFUSED, FOW_TOO_SHORT};
use jwt_request::{
    Challenge, Credentials, Outcome, Scheme, Schemes, Texts, credentials_of, is_quotable, reply_to,
};

/// What is answered to a request. In C `fow_reply`.
#[repr(C)]
#[derive(Clone, Copy)]
pub struct FowReply {
    /// The status; 200 where the request is let through.
    pub status: u32,
    /// The challenge of the scheme Bearer, as `fow_challenge_kind` numbers it.
    pub bearer: u32,
    /// That of the scheme DPoP.
    pub dpop: u32,
}

/// The token in the value of the one header `Authorization`, by the schemes whose sum this is: its scheme, and where it stands. `FOW_OK`; `FOW_ABSENT`: its
/// scheme is none of these; `FOW_REFUSED`: what stands behind the scheme is no b64token.
pub fn credentials(
    schemes: u32,
    value: &[u8],
    scheme: &mut u32,
    from: &mut usize,
    to: &mut usize,
) -> u32
    ensures token { result ≡ FOW_OK → IsTokenBy (schemes_of schemes) value.now scheme.new from.new to.new }
    ensures absent { result ≡ FOW_ABSENT → IsAbsentBy (schemes_of schemes) value.now scheme.new }
    ensures malformed { result ≡ FOW_REFUSED → IsMalformedBy (schemes_of schemes) value.now scheme.new }
    ensures said { result ≢ FOW_OK → result ≢ FOW_ABSENT → result ≡ FOW_REFUSED }
    ensures unwritten { result ≢ FOW_OK → (from.new ≡ from.old) × (to.new ≡ to.old) }
{
    match credentials_of(schemes_at(schemes), value) {
        Credentials::Absent => {
            *scheme = 0;
            FOW_ABSENT
        }
        Credentials::Malformed(found) => {
            *scheme = scheme_number(found);
            FOW_REFUSED
        }
        Credentials::Token(found, first, end) => {
            *scheme = scheme_number(found);
            *from = first;
            *to = end;
            FOW_OK
        }
    }
}

/// What is answered, where this is known of the request: by the schemes whose sum this is, and the one that was shown.
pub fn reply(schemes: u32, shown: u32, outcome: u32, reply: &mut FowReply)
    ensures reply { IsReply (schemes_of schemes) (scheme_of shown) (outcome_of outcome) (reply_of reply.new) }
{
    let said = reply_to(schemes_at(schemes), scheme_at(shown), outcome_at(outcome));
    *reply = FowReply {
        status: said.status as u32,
        bearer: challenge_number(said.bearer),
        dpop: challenge_number(said.dpop),
    };
}

/// What an answer on the proof of a request makes of it: the outcome's number.
pub fn proof_outcome(status: u32, fault: u32) -> u32
    ensures outcome { IsOutcomeOfProof status fault (outcome_of result) }
    ensures known { result ≤ 13 }
{
    outcome_number(outcome_of_proof(status, fault))
}

/// What an answer on a token that counts once, or on a proof where `of_proof` isn't 0, makes of its request: the outcome's number.
pub fn taken_outcome(of_proof: u32, status: u32, taken: u32) -> u32
    ensures outcome { IsOutcomeOfTaken (nat_lt 0 of_proof) status taken (outcome_of result) }
    ensures known { result ≤ 13 }
{
    outcome_number(outcome_of_taken(0 < of_proof, status, taken))
}

/// Whether a realm, a scope or the names of algorithms can be quoted as they are.
pub fn quotable(text: &[u8]) -> bool
    ensures quotable { IsTrue result ↔ All IsQuotable text.now }
{
    is_quotable(text)
}

/// A challenge as C names it: by the numbers of its scheme and of itself, with its texts, of which an empty one is none.
#[derive(Clone, Copy)]
pub struct NumberedChallenge<'a> {
    pub scheme: u32,
    pub number: u32,
    pub realm: &'a [u8],
    pub scope: &'a [u8],
    pub algs: &'a [u8],
}

/// Writes the challenge of this number, of the scheme of that number, at the front of `out`. `FOW_OK`; `FOW_TOO_SHORT`: `out` is too short; `FOW_REFUSED`: the
/// realm, the scope or the algorithms can't be quoted.
pub fn challenge(it: NumberedChallenge<'_>, out: &mut [u8], written: &mut usize) -> u32
    ensures text { All IsQuotable it.entry.realm.now → All IsQuotable it.entry.scope.now → All IsQuotable it.entry.algs.now
        → Puts (text_by (scheme_of it.entry.scheme) (challenge_of it.entry.number) it.entry.realm.now it.entry.scope.now it.entry.algs.now)
        result written.new out.old out.new }
    ensures quotable { result ≢ FOW_REFUSED
        → All IsQuotable it.entry.realm.now × All IsQuotable it.entry.scope.now × All IsQuotable it.entry.algs.now }
    ensures refused { result ≡ FOW_REFUSED
        → ¬ (All IsQuotable it.entry.realm.now × All IsQuotable it.entry.scope.now × All IsQuotable it.entry.algs.now) }
    ensures unwritten { result ≢ FOW_OK → (out.new ≡ out.old) × (written.new ≡ written.old) }
{
    let NumberedChallenge {
        scheme,
        number,
        realm,
        scope,
        algs,
    } = it;
    if !is_quotable(realm) || !is_quotable(scope) || !is_quotable(algs) {
        return FOW_REFUSED;
    }
    let texts = Texts { realm, scope, algs };
    let Some(scheme) = scheme_at(scheme) else {
        *written = 0;
        return FOW_OK;
    };
    match challenge_at(number).write(scheme, &texts, out) {
        Some(size) => {
            *written = size;
            FOW_OK
        }
        None => FOW_TOO_SHORT,
    }
}

/// The numbers of faults of a proof: its nonce, or the key that its token is bound to, is another; the path of its request can be read in more ways than one.
const OTHER_NONCE: u32 = 1303;

const OTHER_KEY: u32 = 1305;

const PATH_FORM: u32 = 1306;

fn outcome_of_proof(status: u32, fault: u32) -> Outcome
    ensures { IsOutcomeOfProof status fault result }
{
    if status == FOW_OK {
        return Outcome::Accepted;
    }
    if status == FOW_NOT_EXPECTED {
        return Outcome::NonceWanted;
    }
    if status != FOW_REFUSED {
        return Outcome::Unanswered;
    }
    if fault == OTHER_NONCE {
        return Outcome::NonceWanted;
    }
    if fault == OTHER_KEY {
        return Outcome::Refused;
    }
    if fault == PATH_FORM {
        return Outcome::PathForm;
    }
    Outcome::ProofRefused
}

fn outcome_of_taken(of_proof: bool, status: u32, taken: u32) -> Outcome
    ensures { IsOutcomeOfTaken of_proof status taken result }
{
    if status == FOW_OK {
        return Outcome::Accepted;
    }
    if status != FOW_REFUSED {
        return Outcome::Unanswered;
    }
    match taken {
        4 => Outcome::MemoryFull,
        8 => Outcome::ShareUsedUp,
        _ => if of_proof {
            Outcome::ProofRefused
        } else {
            Outcome::Refused
        },
    }
}

fn scheme_at(number: u32) -> Option<Scheme>
    ensures { result ≡ scheme_of number }
{
    match number {
        1 => Some(Scheme::Bearer),
        2 => Some(Scheme::Dpop),
        _ => None,
    }
}

fn scheme_number(scheme: Scheme) -> u32
    ensures { scheme_of result ≡ Some scheme }
{
    match scheme {
        Scheme::Bearer => 1,
        Scheme::Dpop => 2,
    }
}

fn schemes_at(sum: u32) -> Schemes
    ensures { result ≡ schemes_of sum }
{
    Schemes {
        bearer: sum == 1 || sum == 3,
        dpop: sum == 2 || sum == 3,
    }
}

fn outcome_at(number: u32) -> Outcome
    ensures { result ≡ outcome_of number }
{
    match number {
        1 => Outcome::Accepted,
        2 => Outcome::Several,
        3 => Outcome::Absent,
        4 => Outcome::Malformed,
        5 => Outcome::Refused,
        6 => Outcome::ScopeMissing,
        7 => Outcome::Denied,
        8 => Outcome::KeysTooOld,
        9 => Outcome::ProofRefused,
        10 => Outcome::NonceWanted,
        11 => Outcome::PathForm,
        12 => Outcome::ShareUsedUp,
        13 => Outcome::MemoryFull,
        _ => Outcome::Unanswered,
    }
}

fn outcome_number(outcome: Outcome) -> u32
    ensures outcome { outcome_of result ≡ outcome }
    ensures known { result ≤ 13 }
{
    match outcome {
        Outcome::Unanswered => 0,
        Outcome::Accepted => 1,
        Outcome::Several => 2,
        Outcome::Absent => 3,
        Outcome::Malformed => 4,
        Outcome::Refused => 5,
        Outcome::ScopeMissing => 6,
        Outcome::Denied => 7,
        Outcome::KeysTooOld => 8,
        Outcome::ProofRefused => 9,
        Outcome::NonceWanted => 10,
        Outcome::PathForm => 11,
        Outcome::ShareUsedUp => 12,
        Outcome::MemoryFull => 13,
    }
}

fn challenge_at(number: u32) -> Challenge
    ensures { result ≡ challenge_of number }
{
    match number {
        1 => Challenge::Realm,
        2 => Challenge::InvalidRequest,
        3 => Challenge::InvalidToken,
        4 => Challenge::InsufficientScope,
        5 => Challenge::Scopes,
        6 => Challenge::InvalidProof,
        7 => Challenge::UseNonce,
        _ => Challenge::Silent,
    }
}

fn challenge_number(challenge: Challenge) -> u32
    ensures { challenge_of result ≡ challenge }
{
    match challenge {
        Challenge::Silent => 0,
        Challenge::Realm => 1,
        Challenge::InvalidRequest => 2,
        Challenge::InvalidToken => 3,
        Challenge::InsufficientScope => 4,
        Challenge::Scopes => 5,
        Challenge::InvalidProof => 6,
        Challenge::UseNonce => 7,
    }
}
