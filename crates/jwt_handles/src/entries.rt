//! How a token or a proof that counts once is held, for who keeps a store that several processes share.

ghost use Rattle.jwt_handles.specs.declared.status.TheConstants.{FOW_NOT_OPEN, FOW_OK};
ghost use Rattle.std.specs.Prelude.{◌≡◌, ◌≢◌, IfSome, None, option_map};
ghost use Rattle.jwt_handles.specs.Entries.{SaysEntry, TellsClaims, TellsLast, TellsProof, entry_in};

use crate::handle::{Handle, take};
use crate::possession_handle::{PossessionHandle, take_possession};
use crate::status::{FOW_ABSENT, FOW_NOT_OPEN, FOW_OK, FOW_REFUSED};
use jwt_policy::{Claims, Policy};
use jwt_possession::Possession;
use jwt_possession::once::{Entry, Lack, entry_of};
use std::alloc::Global;

/// How a token or a proof that counts once is held. In C `fow_entry`.
#[repr(C)]
#[derive(Clone, Copy)]
pub struct FowEntry {
    /// The digest of issuer and `jti`, of a proof of the thumbprint of its key and its `jti`: one store has one entry of each.
    pub mark: [u8; 32],
    /// By which its owner's share is counted, where `owned` is 1.
    pub owner: [u8; 32],
    /// 1: it has an owner; 0: it has none.
    pub owned: u64,
    /// The moment that it has of itself: `exp` of a token, `iat` of a proof.
    pub moment: u64,
    /// For how many seconds behind that moment it is accepted.
    pub grace: u64,
    /// The earliest moment at which it may have been accepted.
    pub issued: u64,
}

/// An entry as C has it.
fn entry_for(entry: &Entry) -> FowEntry
    ensures { entry_in result ≡ entry.now }
{
    FowEntry {
        mark: entry.mark,
        owner: entry.owner.unwrap_or([0; 32]),
        owned: u64::from(entry.owner.is_some()),
        moment: entry.times.moment,
        grace: entry.times.grace,
        issued: entry.times.issued,
    }
}

/// Writes an entry, or the number of what the claims lack into `lacks`.
fn put_or_lack(entry: Result<Entry, Lack>, out: &mut FowEntry, lacks: &mut u32) -> u32
    ensures said { SaysEntry entry result out.new lacks.new }
    ensures unwritten { result ≢ FOW_OK → out.new ≡ out.old }
{
    match entry {
        Ok(entry) => {
            *lacks = 0;
            *out = entry_for(&entry);
            FOW_OK
        }
        Err(Lack::NoId) => {
            *lacks = 5;
            FOW_REFUSED
        }
        Err(Lack::NoEnd) => {
            *lacks = 6;
            FOW_REFUSED
        }
        Err(Lack::Ahead) => {
            *lacks = 7;
            FOW_REFUSED
        }
    }
}

/// The same of these claims, where there are any.
fn put_entry_of(
    policy: &Policy,
    claims: Option<&Claims>,
    now: i64,
    out: &mut FowEntry,
    lacks: &mut u32,
) -> u32
    ensures said { TellsClaims policy.now (option_map (λ c. c.now) claims.entry) now result out.new lacks.new }
    ensures unwritten { result ≢ FOW_OK → out.new ≡ out.old }
{
    match claims {
        Some(claims) => put_or_lack(entry_of(policy, claims, now), out, lacks),
        None => {
            *lacks = 0;
            FOW_ABSENT
        }
    }
}

/// Tells how the token that was accepted last is held. `now` is that verdict's moment. `FOW_OK`: it is written; `FOW_REFUSED`: it can't be held, for the reason of
/// the number in `lacks`; `FOW_NOT_OPEN`: nothing is held; `FOW_ABSENT`: the last verdict was no acceptance.
pub fn once_entry(
    validator: &mut Handle,
    alloc: Global,
    now: i64,
    out: &mut FowEntry,
    lacks: &mut u32,
) -> u32
    ensures same { validator.new.state ≡ validator.old.state }
    ensures none { validator.old.state ≡ None → result ≡ FOW_NOT_OPEN }
    ensures entry { IfSome validator.old.state (λ d. TellsLast d now result out.new lacks.new) }
    ensures unwritten { result ≢ FOW_OK → out.new ≡ out.old }
{
    let Some(state) = take(validator, alloc) else {
        return FOW_NOT_OPEN;
    };
    let policy = &state.grounds.documents().policy;
    let status = put_entry_of(policy, state.last.claims(), now, out, lacks);
    *validator = Handle::of(state);
    status
}

/// Writes how the proof that is kept is held, where there is one.
fn put_entry_of_proof(kept: Option<&Possession>, out: &mut FowEntry) -> u32
    ensures said { TellsProof (option_map (λ p. p.now) kept.entry) result out.new }
    ensures unwritten { result ≢ FOW_OK → out.new ≡ out.old }
{
    match kept {
        Some(possession) => {
            *out = entry_for(&possession.entry());
            FOW_OK
        }
        None => FOW_ABSENT,
    }
}

/// Tells how the proof that was accepted last is held. `FOW_OK`: it is written; `FOW_NOT_OPEN`: nothing is held; `FOW_ABSENT`: no proof is kept.
pub fn possession_entry(possession: &mut PossessionHandle, alloc: Global, out: &mut FowEntry) -> u32
    ensures same { possession.new.state ≡ possession.old.state }
    ensures none { possession.old.state ≡ None → result ≡ FOW_NOT_OPEN }
    ensures entry { IfSome possession.old.state (λ p. TellsProof p.last result out.new) }
    ensures unwritten { result ≢ FOW_OK → out.new ≡ out.old }
{
    let Some(state) = take_possession(possession, alloc) else {
        return FOW_NOT_OPEN;
    };
    let status = put_entry_of_proof(state.last.as_ref(), out);
    *possession = PossessionHandle::of(state);
    status
}
