ghost use Rattle.std.specs.Prelude.{◌≡◌, true, false};
ghost use Rattle.jwt_request.specs.Replies.{IsAsked, IsChallenge, IsReply, IsStatus, is_shown};

use crate::challenge::Challenge;
use crate::credentials::{Credentials, credentials_of};
use crate::scheme::{Scheme, Schemes};

/// What is answered to a request.
#[derive(Clone, Copy, Debug, PartialEq, Eq)]
pub struct Reply {
    /// The status; 200 where the request is let through.
    pub status: u16,
    /// The challenge of the scheme Bearer, in a `WWW-Authenticate` beside the status.
    pub bearer: Challenge,
    /// The challenge of the scheme DPoP, in a `WWW-Authenticate` of its own.
    pub dpop: Challenge,
}

/// What is known of a request and its token.
#[derive(Clone, Copy, Debug, PartialEq, Eq)]
pub enum Outcome {
    /// There is more than one header `Authorization`.
    Several,
    /// There is none, or its scheme is none that is taken.
    Absent,
    /// What stands behind the scheme is no b64token.
    Malformed,
    /// The validator accepted the token, its claims meet the access rule, and the proof beside it is one for this request, where there has to be one.
    Accepted,
    /// The validator refused the token, or it is bound to another key or certificate.
    Refused,
    /// A scope that the access rule asks for is missing.
    ScopeMissing,
    /// The claims don't meet the access rule otherwise.
    Denied,
    /// There is no header `DPoP`, or several, or its proof isn't one for this request, or was taken before.
    ProofRefused,
    /// The proof hasn't the nonce that is asked for.
    NonceWanted,
    /// The path of the request is none of which every reader makes the same, so nobody can say what a proof for it is for.
    PathForm,
    /// Whose token or proof it is has as many held as one owner may have, where each counts once.
    ShareUsedUp,
    /// As many tokens or proofs that count once are held as there is room for.
    MemoryFull,
    /// The keys are too old.
    KeysTooOld,
    /// Nothing can be said of the token.
    Unanswered,
}

/// What the headers `Authorization` of a request carry: how many there are, and the value of the first. `None`: several.
pub fn credentials_in(schemes: Schemes, count: usize, value: &[u8]) -> Option<Credentials>
    ensures { IsAsked schemes count value.now result }
{
    match count {
        0 => Some(Credentials::Absent),
        1 => Some(credentials_of(schemes, value)),
        _ => None,
    }
}

/// What is answered to a request: by the schemes that the service takes, the one that [`credentials_of`] found, and what is known of the request.
///
/// Each 401 has a challenge ([`challenged`](crate::laws::challenged)): a service that takes no scheme answers 500 in its place.
pub fn reply_to(schemes: Schemes, shown: Option<Scheme>, outcome: Outcome) -> Reply
    ensures { IsReply schemes shown outcome result }
{
    Reply {
        status: outcome.status(schemes.bearer || schemes.dpop),
        bearer: outcome.challenge(schemes.bearer, shows(shown, Scheme::Bearer)),
        dpop: outcome.challenge(schemes.dpop, shows(shown, Scheme::Dpop)),
    }
}

/// Whether that is the scheme which was shown.
fn shows(shown: Option<Scheme>, scheme: Scheme) -> bool
    ensures { result ≡ is_shown shown scheme }
{
    match (shown, scheme) {
        (Some(Scheme::Bearer), Scheme::Bearer) | (Some(Scheme::Dpop), Scheme::Dpop) => true,
        _ => false,
    }
}

impl Outcome {
    /// The status of the answer, by whether the service takes any scheme.
    fn status(self, is_taken: bool) -> u16
        ensures { IsStatus is_taken self result }
    {
        match self {
            Outcome::Accepted => 200,
            Outcome::Several | Outcome::PathForm => 400,
            Outcome::Absent
            | Outcome::Malformed
            | Outcome::Refused
            | Outcome::ProofRefused
            | Outcome::NonceWanted => if is_taken { 401 } else { 500 },
            Outcome::ScopeMissing | Outcome::Denied => 403,
            Outcome::ShareUsedUp => 429,
            Outcome::KeysTooOld | Outcome::MemoryFull => 503,
            Outcome::Unanswered => 500,
        }
    }

    /// The challenge of a scheme.
    fn challenge(self, is_taken: bool, is_shown: bool) -> Challenge
        ensures { IsChallenge is_taken is_shown self result }
    {
        match (is_taken, is_shown) {
            (false, _) => Challenge::Silent,
            (true, true) => self.challenge_of_the_shown(),
            (true, false) => self.challenge_of_another(),
        }
    }

    /// That of the scheme by which the token was shown.
    fn challenge_of_the_shown(self) -> Challenge
        ensures { IsChallenge true true self result }
    {
        match self {
            Outcome::Accepted
            | Outcome::PathForm
            | Outcome::ShareUsedUp
            | Outcome::MemoryFull
            | Outcome::KeysTooOld
            | Outcome::Unanswered => Challenge::Silent,
            Outcome::Several => Challenge::InvalidRequest,
            Outcome::Absent => Challenge::Realm,
            Outcome::Malformed | Outcome::Refused => Challenge::InvalidToken,
            Outcome::ScopeMissing => Challenge::Scopes,
            Outcome::Denied => Challenge::InsufficientScope,
            Outcome::ProofRefused => Challenge::InvalidProof,
            Outcome::NonceWanted => Challenge::UseNonce,
        }
    }

    /// That of a scheme by which none was shown.
    fn challenge_of_another(self) -> Challenge
        ensures { IsChallenge true false self result }
    {
        match self {
            Outcome::Several => Challenge::InvalidRequest,
            Outcome::Absent
            | Outcome::Malformed
            | Outcome::Refused
            | Outcome::ProofRefused
            | Outcome::NonceWanted => Challenge::Realm,
            Outcome::Accepted
            | Outcome::ScopeMissing
            | Outcome::Denied
            | Outcome::PathForm
            | Outcome::ShareUsedUp
            | Outcome::MemoryFull
            | Outcome::KeysTooOld
            | Outcome::Unanswered => Challenge::Silent,
        }
    }
}
