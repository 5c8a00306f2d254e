//! A bounded memory of tokens.

ghost use Rattle.std.specs.Prelude.{◌≡◌, ◌≤◌, ◌⊎◌, [], Some, false, length, IfOk, IfSome, IsTrue};
ghost use Rattle.std.specs.Arc.{arc_value};
ghost use Rattle.std.specs.NonZero.{non_zero_usize_get};
ghost use Rattle.jwt_jws.specs.Forms.{opens_object};
ghost use Rattle.jwt_verify.specs.Table.{work};
ghost use Rattle.jwt_memory.specs.Payloads.{IsCompactPayload};
ghost use Rattle.jwt_memory.specs.Tables.{Has};

use crate::outcome::{Handed, Outcome};
use jwt_jws::opens_object;
use jwt_mac::same_octets;
use jwt_policy::Claims;
use jwt_verify::{Report, SigState, Try, Verdict};
use lru::LruCache;
use std::alloc::{AllocError, Global};
use std::num::NonZeroUsize;
use std::sync::Arc;

/// What a token was accepted by. Whether it still is depends on its claims and the moment alone.
#[derive(Drop)]
pub struct Basis {
    /// The number of the verified signature; in mode `all` that of the first.
    pub signature: u32,
    /// The number of the key that verified it.
    pub key: u32,
    /// The payload's claims.
    pub claims: Claims,
    /// The payload's octets.
    pub payload: Vec<u8>,
    /// What became of each signature, in the token's order.
    pub states: Vec<SigState>,
    /// The tries that led to it, which were paid where the token was first accepted.
    pub tries: Vec<Try>,
    /// The octets that these tries cost.
    pub cost: u64,
    ghost counted: { cost ≡ work tries.items },
}

impl Basis {
    ghost use Rattle.jwt_memory.specs.Outcomes.{report_of, acceptance_of, report_in, paid_in, is_remembered, payload_in};

    /// The acceptance, which no memory shares.
    pub(crate) fn into_handed<'p>(self) -> Handed<'p>
        ensures report { report_in result.outcome ≡ report_of (acceptance_of self) self }
        ensures paid { paid_in result.outcome ≡ self.tries.items }
        ensures anew { is_remembered result.outcome ≡ false }
        ensures payload { payload_in result ≡ Some self.payload.items }
    {
        let Basis {
            signature,
            key,
            claims,
            payload,
            states,
            tries,
            ..
        } = self;
        let verdict = Verdict::Accepted {
            signature,
            key,
            claims,
        };
        Handed {
            outcome: Outcome::Judged(Report {
                verdict,
                states,
                tries,
            }),
            payload: Some(payload),
        }
    }
}

/// A token that was accepted under a ceiling.
#[derive(Drop)]
pub struct MemoryEntry {
    pub(crate) octets: Vec<u8>,
    pub(crate) ceiling: u64,
    pub(crate) basis: Arc<Basis>,
    ghost payload: { IsCompactPayload octets.items (arc_value basis).payload.items },
}

impl MemoryEntry {
    /// Whether it is of these octets, and was accepted under this ceiling. Each octet is read, wherever the first difference stands.
    fn is_of(&self, octets: &[u8], ceiling: u64) -> bool
        ensures { IsTrue result
            → (self.now.octets.items ≡ octets.now) × (self.now.ceiling ≡ ceiling) }
    {
        self.ceiling == ceiling && same_octets(self.octets.as_slice(), octets)
    }
}

/// The same basis, shared; `None` where it is shared too often.
fn shared(basis: &Arc<Basis>) -> Option<Arc<Basis>>
    ensures { IfSome result (λ b. arc_value b ≡ arc_value basis.now) }
{
    match basis.clone() {
        Ok(shared) => Some(shared),
        Err(_) => None,
    }
}

/// What a token is looked up by: the eight octets at its end, which are of the signature's text (RFC 7515, section 7.1).
fn mark_of(octets: &[u8]) -> u64 {
    match octets.last_chunk::<8>() {
        Some(chunk) => u64::from_le_bytes(*chunk),
        None => 0,
    }
}

/// What is kept under a mark of these octets, accepted under this ceiling.
fn look_up(
    table: &mut LruCache<u64, MemoryEntry>,
    mark: u64,
    octets: &[u8],
    ceiling: u64,
) -> Option<Arc<Basis>>
    ensures found { IfSome result (λ b. (e : _) × Has table.old e
        × (e.octets.items ≡ octets.now) × (e.ceiling ≡ ceiling)
        × (arc_value e.basis ≡ arc_value b)) }
    ensures held { (e : _) → Has table.new e → Has table.old e }
    ensures cap { table.new.cap ≡ table.old.cap }
{
    let found = table.get(&mark)?;
    if found.is_of(octets, ceiling) {
        shared(&found.basis)
    } else {
        None
    }
}

/// Tokens in compact form that were accepted, at most so many, and none longer than so many octets. The least used is forgotten first.
///
/// An accepted token in JSON form isn't kept: who holds one good token could spell it in many accepted ways, and push all others out.
#[derive(Drop)]
pub struct Memory {
    pub(crate) table: LruCache<u64, MemoryEntry>,
    pub(crate) longest: usize,
    ghost short: { (entry : _) → Has table entry → length entry.octets.items ≤ longest },
    ghost compact: { (entry : _) → Has table entry → opens_object entry.octets.items ≡ false },
}

impl Memory {
    ghost use Rattle.jwt_memory.specs.Entries.{Holds, HasRoomOf};
    ghost use Rattle.jwt_memory.specs.Kept.{IsEmpty};

    /// An empty memory, for at most so many tokens of at most so many octets each.
    ///
    /// # Errors
    /// Where an allocation was refused.
    pub fn new(alloc: Global, tokens: NonZeroUsize, longest: usize) -> Result<Memory, AllocError>
        ensures nothing { IfOk result (λ m. m.table.entries ≡ []) }
        ensures empty { IfOk result IsEmpty }
        ensures tokens { IfOk result (λ m. m.table.cap ≡ non_zero_usize_get tokens) }
        ensures longest { IfOk result (λ m. m.longest ≡ longest) }
    {
        Ok(Memory {
            table: LruCache::sparse(alloc, tokens)?,
            longest,
        })
    }

    /// How many tokens it holds. It takes no memory.
    pub fn len(&self) -> usize
        ensures value { result ≡ length self.now.table.entries }
        ensures few { result ≤ self.now.table.cap }
        ensures short { (entry : _) → Holds self.now entry → length entry.octets.items ≤ self.now.longest }
        ensures compact { (entry : _) → Holds self.now entry → opens_object entry.octets.items ≡ false }
    {
        self.table.len()
    }

    /// What is kept of the octets, accepted under this ceiling.
    pub(crate) fn recall(&mut self, octets: &[u8], ceiling: u64) -> Option<Arc<Basis>>
        ensures found { IfSome result (λ b. (e : _) × Holds self.old e
            × (e.octets.items ≡ octets.now) × (e.ceiling ≡ ceiling)
            × (arc_value e.basis ≡ arc_value b)) }
        ensures held { (e : _) → Holds self.new e → Holds self.old e }
        ensures room { HasRoomOf self.new self.old }
    {
        look_up(&mut self.table, mark_of(octets), octets, ceiling)
    }

    /// Keeps a token that was accepted under a ceiling, if it is in compact form and not too long, and memory is there.
    pub(crate) fn keep(&mut self, alloc: Global, octets: &[u8], ceiling: u64, basis: &Arc<Basis>)
        requires payload { opens_object octets.now ≡ false
            → IsCompactPayload octets.now (arc_value basis.now).payload.items }
        ensures held { (e : _) → Holds self.new e → Holds self.old e
            ⊎ ((e.octets.items ≡ octets.now) × (e.ceiling ≡ ceiling)
            × (arc_value e.basis ≡ arc_value basis.now)) }
        ensures room { HasRoomOf self.new self.old }
    {
        if octets.len() > self.longest || opens_object(octets) {
            return;
        }
        let Ok(copy) = Vec::from_slice(alloc, octets) else {
            return;
        };
        let Some(basis) = shared(basis) else {
            return;
        };
        let entry = MemoryEntry {
            octets: copy,
            ceiling,
            basis,
        };
        let _ = self.table.push(mark_of(octets), entry);
    }
}
