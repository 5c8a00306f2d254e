//! What a proof that was accepted says.

ghost use Rattle.std.specs.Prelude.{◌≡◌, IfOk, option_map};
ghost use Rattle.jwt_possession.specs.once.Accepted.{seconds};
ghost use Rattle.jwt_possession.specs.once.Steps.{IsTaken};
ghost use Rattle.jwt_possession.specs.Possessions.{owner_beside, proof_times};

use crate::once::{Entry, Once, Taken, Times, issued_of, owner_in, owner_of};
use crate::policy::ProofPolicy;
use crate::request::Access;
use jwt_policy::Claims;
use std::alloc::{AllocError, Global};

/// That the sender of a request holds a key. [`judge_proof`](crate::judge_proof) alone makes one.
#[derive(Drop)]
pub struct Possession {
    pub(crate) thumbprint: String,
    pub(crate) claims: Claims,
    pub(crate) owner: Option<[u8; 32]>,
    pub(crate) times: Times,
}

/// The times of a proof with these claims.
fn proof_times(policy: &ProofPolicy, claims: &Claims) -> Times
    ensures { result ≡ proof_times policy.now claims.now }
{
    let policy = policy.policy();
    let moment = match claims.iat() {
        Some(iat) => seconds(iat),
        None => 0,
    };
    Times {
        moment,
        grace: u64::from(policy.max_age().unwrap_or(0)) + u64::from(policy.leeway()),
        issued: issued_of(policy, claims),
    }
}

/// Whose a proof by the key of this thumbprint is, beside this access token.
fn owner_beside(access: Option<Access<'_>>, thumbprint: &str) -> Option<[u8; 32]>
    ensures { result ≡ owner_beside (option_map (λ a. a.claims.now) access.entry) thumbprint.now }
{
    match access {
        Some(access) => owner_in(access.claims),
        None => Some(owner_of(thumbprint.as_bytes(), b"")),
    }
}

/// A moment as the memory counts.
pub(crate) fn seconds(moment: i64) -> u64
    ensures { result ≡ seconds moment }
{
    u64::try_from(moment).unwrap_or(0)
}

impl Possession {
    ghost use Rattle.jwt_possession.specs.Possessions.{proved, id_of, proof_mark};

    /// The possession of the key of this thumbprint, by a proof with these claims that came with this access token.
    pub(crate) fn of(
        alloc: Global,
        thumbprint: &str,
        claims: Claims,
        access: Option<Access<'_>>,
        policy: &ProofPolicy,
    ) -> Result<Possession, AllocError>
        ensures thumbprint { IfOk result (λ p. (proved p).thumbprint ≡ thumbprint.now) }
        ensures claims { IfOk result (λ p. (proved p).claims ≡ claims) }
        ensures owner { IfOk result (λ p. (proved p).owner ≡ owner_beside (option_map (λ a. a.claims.now) access.entry) thumbprint.now) }
        ensures times { IfOk result (λ p. (proved p).times ≡ proof_times policy.now claims) }
    {
        let times = proof_times(policy, &claims);
        let owner = owner_beside(access, thumbprint);
        let thumbprint = String::from_str(alloc, thumbprint)?;
        Ok(Possession {
            thumbprint,
            claims,
            owner,
            times,
        })
    }

    /// The thumbprint of the key that was proved to be held, by SHA-256 (RFC 7638).
    pub fn thumbprint(&self) -> &str
        ensures { result.now ≡ (proved self.now).thumbprint }
    {
        self.thumbprint.as_str()
    }

    /// The claims of the proof.
    pub fn claims(&self) -> &Claims
        ensures { result.now ≡ (proved self.now).claims }
    {
        &self.claims
    }

    /// The proof's `jti`. With the thumbprint it is the pair by which a memory knows the proof: nobody can use up the `jti` of another's key.
    pub fn id(&self) -> &str
        ensures { result.now ≡ id_of (proved self.now).claims }
    {
        self.claims.jti().unwrap_or("")
    }

    /// Whose the proof is: as the access token that came with it, by [`crate::once::owner_in`], or its key's where none came. A key costs nothing, so that whoever
    /// has a token could make an owner for each proof.
    pub fn owner(&self) -> Option<[u8; 32]>
        ensures { result ≡ (proved self.now).owner }
    {
        self.owner
    }

    /// Its times: its own moment is `iat`, whatever the policy; its grace is the policy's greatest age and leeway.
    pub fn times(&self) -> Times
        ensures { result ≡ (proved self.now).times }
    {
        self.times
    }

    /// Takes the proof, unless it was taken before (RFC 9449, section 11.1): by the thumbprint of its key and its `jti`, by its
    /// times, with its owner's share. `now` is the moment at which it was judged.
    pub fn take(&self, once: &mut Once, now: i64) -> Taken
        ensures { IsTaken once.old (proof_mark (proved self.now)) (proved self.now).owner (proved self.now).times (seconds now) result once.new }
    {
        once.take(
            self.thumbprint().as_bytes(),
            self.id().as_bytes(),
            self.owner(),
            self.times(),
            seconds(now),
        )
    }

    /// How the proof is held, for a store that several processes share: by the very mark by which [`Possession::take`] holds it, with the same
    /// owner and times. The store says in one step that the mark is new, and holds it until then.
    pub fn entry(&self) -> Entry
        ensures mark { result.mark ≡ proof_mark (proved self.now) }
        ensures owner { result.owner ≡ (proved self.now).owner }
        ensures times { result.times ≡ (proved self.now).times }
    {
        let thumbprint = self.thumbprint().as_bytes();
        Entry::of(thumbprint, self.id().as_bytes(), self.owner(), self.times())
    }
}
