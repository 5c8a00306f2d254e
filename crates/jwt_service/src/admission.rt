//! What is answered of a request.

ghost use Rattle.std.specs.Prelude.{◌≡◌};
ghost use Rattle.jwt_service.specs.Settled.{is_new, settled};

use crate::asking::AskingFault;
use crate::proving::ProvingFault;
use crate::service::Issuer;
use jwt_access::Denial;
use jwt_access::expected::Unmet;
use jwt_policy::Claims;
use jwt_possession::BindingFault;
use jwt_possession::once::{Entry, Lack, Taken};
use jwt_request::Scheme;
use jwt_verify::Fault;

/// Why a request isn't let through before anything is taken: the first cause in this order.
#[derive(Drop)]
pub enum Refusal<'s> {
    /// The program doesn't ask as the service says that it has to; the request was not looked at.
    Misasked(AskingFault<'s>),
    /// There are several headers `Authorization`.
    Several,
    /// No token is shown by a scheme that is taken.
    Absent,
    /// What stands behind this scheme is no b64token.
    Malformed(Scheme),
    /// The token that was shown by this scheme is refused.
    Refused(Scheme, Fault<'s>),
    /// Its claims don't meet the access rule.
    Denied(Scheme, Denial<'s>),
    /// They aren't what this call expects.
    Unexpected(Scheme, Unmet),
    /// The sender hasn't proved to hold the key that it is bound to.
    Unproved(ProvingFault<'s>),
    /// It is bound in a way that isn't known, or that wasn't shown.
    Unshown(Scheme, BindingFault),
    /// It counts once, and lacks this, so that it can't be held.
    Lacking(Scheme, Lack),
    /// An allocation was refused beside the verdict.
    OutOfMemory,
}

/// A request of which all holds but that its proof and its token are new. Its claims come out of [`Passed::settle`] alone.
#[derive(Drop)]
pub struct Passed<'s> {
    pub(crate) issuer: Issuer<'s>,
    pub(crate) scheme: Scheme,
    pub(crate) proof: Option<Entry>,
    pub(crate) token: Option<Entry>,
    pub(crate) claims: Claims,
}

/// What is answered of a request.
#[derive(Drop)]
#[must_use]
pub enum Admission<'s> {
    /// It is let through: its token has these claims.
    Admitted(Claims),
    /// It isn't, and nothing was taken.
    Refused(Refusal<'s>),
    /// Its proof isn't new, by this answer, or there was none.
    ProofNotNew(Option<Taken>),
    /// Its token, shown by this scheme, isn't new, by this answer, or there was none.
    TokenNotNew(Scheme, Option<Taken>),
}

/// Whether nothing was to be taken, or what was is new.
fn is_new(entry: Option<Entry>, answer: Option<Taken>) -> bool
    ensures { result ≡ is_new entry answer }
{
    match (entry, answer) {
        (None, _) | (Some(_), Some(Taken::New)) => true,
        _ => false,
    }
}

impl<'s> Passed<'s> {
    /// How its proof is held, where it has one: this is taken first.
    pub fn proof(&self) -> Option<Entry>
        ensures { result ≡ self.now.proof }
    {
        self.proof
    }

    /// How its token is held, where tokens count once: this is taken behind a proof that is new.
    pub fn token(&self) -> Option<Entry>
        ensures { result ≡ self.now.token }
    {
        self.token
    }

    /// What is answered of the request, by what a memory or a store answered to its proof and to its token; `None` where it wasn't asked, or didn't answer. What
    /// there was nothing to take of isn't looked at.
    pub fn settle(self, proof: Option<Taken>, token: Option<Taken>) -> Admission<'s>
        ensures { result ≡ settled self.entry proof token }
    {
        if !is_new(self.proof, proof) {
            return Admission::ProofNotNew(proof);
        }
        if !is_new(self.token, token) {
            return Admission::TokenNotNew(self.scheme, token);
        }
        Admission::Admitted(self.claims)
    }
}
