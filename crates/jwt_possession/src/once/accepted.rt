//! The call for a token that was accepted.

ghost use Rattle.std.specs.Prelude.{◌≡◌, ◌<◌};
ghost use Rattle.jwt_possession.specs.once.Marks.{mark_of};
ghost use Rattle.jwt_possession.specs.once.Steps.{IsTaken};
ghost use Rattle.jwt_possession.specs.once.Accepted.{seconds, issued_of, times_of, issuer_in, owner_in, is_ahead, IsEntryOf, IsTakenFor};

use crate::once::mark::{mark, owner_of};
use crate::once::once::{Once, Taken, Times};
use jwt_policy::{Claims, Policy};

/// What the claims of a token lack, so that it can't be held.
#[derive(Clone, Copy, Debug, PartialEq, Eq)]
pub enum Lack {
    /// There is no `jti`.
    NoId,
    /// There is no `exp`: such a token would have to be held for ever.
    NoEnd,
    /// Its `iat` is later than now by more than the leeway: so nobody could say whether it was accepted before a memory was opened.
    Ahead,
}

/// How a token that counts once is held: a store that several processes share is asked with it.
#[derive(Clone, Copy, Debug, PartialEq, Eq)]
pub struct Entry {
    /// The digest of issuer and `jti`: one store has one entry of each.
    pub mark: [u8; 32],
    /// The digest of issuer and subject, by which its owner's share is counted; none where it names no subject.
    pub owner: Option<[u8; 32]>,
    /// Its moments.
    pub times: Times,
}

impl Entry {
    /// How what has this issuer, this `jti` and these times is held: by the mark by which [`Once::take`] holds it.
    pub fn of(issuer: &[u8], jti: &[u8], owner: Option<[u8; 32]>, times: Times) -> Entry
        ensures mark { result.mark ≡ mark_of issuer.now jti.now }
        ensures owner { result.owner ≡ owner }
        ensures times { result.times ≡ times }
    {
        Entry {
            mark: mark(issuer, jti),
            owner,
            times,
        }
    }
}

/// A moment as the memory counts.
fn seconds(moment: i64) -> u64
    ensures { result ≡ seconds moment }
{
    u64::try_from(moment).unwrap_or(0)
}

/// The earliest moment at which these claims may have been accepted under this policy: `iat` and its leeway before; 0 where there is no `iat`.
pub fn issued_of(policy: &Policy, claims: &Claims) -> u64
    ensures { result ≡ issued_of policy.now claims.now }
{
    match claims.iat() {
        Some(iat) => u64::try_from(i128::from(iat) - i128::from(policy.leeway())).unwrap_or(0),
        None => 0,
    }
}

/// The times of the token of these claims, with this `exp`.
fn times_of(policy: &Policy, claims: &Claims, exp: i64) -> Times
    ensures { result ≡ times_of policy.now claims.now exp }
{
    Times {
        moment: seconds(exp),
        grace: u64::from(policy.leeway()),
        issued: issued_of(policy, claims),
    }
}

/// The issuer of these claims, the empty text where they name none.
fn issuer_in(claims: &Claims) -> &str
    ensures { result.now ≡ issuer_in claims.now }
{
    claims.iss().unwrap_or("")
}

/// The owner of the token of these claims: by the digest of issuer and subject. Nobody where they name no subject: such a token is its issuer's, whose
/// share would be all there is.
pub fn owner_in(claims: &Claims) -> Option<[u8; 32]>
    ensures { result ≡ owner_in claims.now }
{
    let subject = claims.sub()?;
    Some(owner_of(issuer_in(claims).as_bytes(), subject.as_bytes()))
}

/// Whether the claims were issued later than now, the leeway added.
fn is_ahead(policy: &Policy, claims: &Claims, now: i64) -> bool
    ensures { result ≡ is_ahead policy.now claims.now now }
{
    match claims.iat() {
        Some(iat) => i128::from(now) + i128::from(policy.leeway()) < i128::from(iat),
        None => false,
    }
}

/// How the token of these claims is held, which were accepted under this policy at this moment: by `iss`, the empty text where there is none, and `jti`, by its moment
/// `exp` and the policy's leeway behind it.
///
/// # Errors
/// What the claims lack.
pub fn entry_of(policy: &Policy, claims: &Claims, now: i64) -> Result<Entry, Lack>
    ensures { IsEntryOf policy.now claims.now now result }
{
    let Some(jti) = claims.jti() else {
        return Err(Lack::NoId);
    };
    let Some(exp) = claims.exp() else {
        return Err(Lack::NoEnd);
    };
    if is_ahead(policy, claims, now) {
        return Err(Lack::Ahead);
    }
    Ok(Entry::of(
        issuer_in(claims).as_bytes(),
        jti.as_bytes(),
        owner_in(claims),
        times_of(policy, claims, exp),
    ))
}

impl Once {
    /// Takes the token of these claims, which were accepted under this policy at this moment, unless it was taken before. It is held by
    /// `iss`, the empty text where there is none, and `jti`, until `exp` and the longest leeway that was told. `now` is the verdict's moment, in seconds
    /// since 1970-01-01T00:00:00Z; one before that counts as 0.
    ///
    /// # Errors
    /// What the claims lack. Nothing is taken then.
    pub fn take_accepted(
        &mut self,
        policy: &Policy,
        claims: &Claims,
        now: i64,
    ) -> Result<Taken, Lack>
        ensures { IsTakenFor policy.now claims.now now self.old result self.new }
    {
        let entry = entry_of(policy, claims, now)?;
        Ok(self.take_mark(entry.mark, entry.owner, entry.times, seconds(now)))
    }

    /// Takes what is held by this entry, unless it was taken before, as [`Once::take_accepted`] takes a token, and
    /// [`Possession::take`](crate::Possession::take) a proof. `now` is the moment at which it was judged.
    pub fn take_entry(&mut self, entry: Entry, now: i64) -> Taken
        ensures { IsTaken self.old entry.mark entry.owner entry.times (seconds now) result self.new }
    {
        self.take_mark(entry.mark, entry.owner, entry.times, seconds(now))
    }
}
