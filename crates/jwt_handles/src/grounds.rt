//! The policy and the keys that a validator judges by, with the memory of the proved verifiers.

ghost use Rattle.jwt_handles.specs.declared.status.TheConstants.{FOW_OK, FOW_OUT_OF_MEMORY, FOW_REFUSED};
ghost use Rattle.std.specs.Prelude.{◌≡◌, ◌≢◌, ◌≤◌, None, IfSome};
ghost use Rattle.std.specs.Arc.{arc_value};

use crate::judging::Judging;
use jwt_built_in::BuiltIn;
use jwt_keys::KeySet;
use jwt_memory::Memory;
use jwt_policy::Policy;
use jwt_text::Scratch;
use std::alloc::Global;
use std::marker::Model;
use std::sync::Arc;

/// What is read once, and only lent from then on.
#[derive(Drop)]
pub struct Documents {
    pub(crate) policy: Policy,
    pub(crate) keys: KeySet,
}

/// What validators that were opened beside one another share: the documents, and the proved verifiers, which may have some of the keys
/// prepared.
#[derive(Drop)]
pub struct SharedGrounds {
    pub(crate) documents: Documents,
    pub(crate) verifiers: BuiltIn,
}

/// The documents that a validator judges by, with a memory of what the proved verifiers accepted by them, where that is to be remembered.
/// Contracts see both.
#[derive(Drop)]
pub struct Grounds {
    shared: Arc<SharedGrounds>,
    proved: Option<Memory>,
}

impl Model for Grounds {
    ghost use Rattle.std.specs.Prelude.{Option};
    ghost use Rattle.std.specs.Coded.{coded×, coded_option};
    ghost use Rattle.jwt_handles.specs.declared.grounds.Documents.{Documents};
    ghost use Rattle.jwt_handles.specs.contracts.grounds.Documents as documents;
    ghost use Rattle.jwt_memory.specs.declared.memory.Memory.{Memory};
    ghost use Rattle.jwt_memory.specs.contracts.memory.Memory as memory;

    ghost Value = { Documents × Option Memory };

    ghost coded = { coded× documents.the_row.coded (coded_option memory.the_row.coded) };

    ghost use Rattle.std.specs.Arc.{arc_value};
    ghost use Rattle.jwt_handles.specs.ProvedKept.{AreProvedKept};

    ghost view = { λ g. ((arc_value g.shared).documents, g.proved) };

    ghost invariant = { λ g. AreProvedKept (arc_value g.shared).documents g.proved };
}

impl Grounds {
    ghost use Rattle.jwt_handles.specs.Evidence.{claims_kept, payload_kept};
    ghost use Rattle.jwt_handles.specs.Keeping.{AddsOnly};
    ghost use Rattle.jwt_handles.specs.Payloads.{KeepsPayload};
    ghost use Rattle.jwt_handles.specs.ProvedKept.{IsNothingKept, HasSameRoom};
    ghost use Rattle.jwt_handles.specs.Proving.{IsProved};

    /// These documents, with no memory.
    pub(crate) fn new(shared: Arc<SharedGrounds>) -> Grounds
        ensures { result ≡ ((arc_value shared).documents, None) }
    {
        Grounds {
            shared,
            proved: None,
        }
    }

    /// The documents.
    pub(crate) fn documents(&self) -> &Documents
        ensures { result.now ≡ self.now.0 }
    {
        &self.shared.documents
    }

    /// The documents and the proved verifiers, for another validator; `None` where too many hold them.
    pub(crate) fn share(&self) -> Option<Arc<SharedGrounds>>
        ensures { IfSome result (λ it. (arc_value it).documents ≡ self.now.0) }
    {
        match Arc::try_clone(&self.shared) {
            Ok(shared) => Some(shared),
            Err(_) => None,
        }
    }

    /// Remembers by this memory from now on, which keeps nothing.
    pub(crate) fn remember(&mut self, proved: Option<Memory>)
        requires { IsNothingKept proved }
        ensures { self.new ≡ (self.old.0, proved) }
    {
        self.proved = proved;
    }

    /// The judging of a token by the proved verifiers.
    pub(crate) fn judge(
        &mut self,
        alloc: Global,
        octets: &[u8],
        now: i64,
        scratch: &mut Scratch,
    ) -> Judging
        ensures judged { result.said.verdict ≤ FOW_REFUSED
            → IsProved self.old now octets.now result.said result.last }
        ensures unused { result.said.verdict ≢ 2 }
        ensures claims { result.said.verdict ≢ FOW_OK → claims_kept result.last ≡ None }
        ensures payload { KeepsPayload self.old.0.policy octets.now
            result.said.verdict (payload_kept result.last) }
        ensures documents { self.new.0 ≡ self.old.0 }
        ensures room { HasSameRoom self.new.1 self.old.1 }
        ensures open { result.said.verdict ≤ FOW_OUT_OF_MEMORY }
        ensures adds { AddsOnly self.old.0.policy.run.work octets.now result.said result.last self.old.1 self.new.1 }
    {
        let shared = &*self.shared;
        shared.judging_by_proof(alloc, &mut self.proved, octets, now, scratch)
    }
}
