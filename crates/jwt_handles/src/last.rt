//! What is kept of the last judging.

ghost use Rattle.std.specs.Prelude.{◌≡◌, None, [], option_map};
ghost use Rattle.jwt_handles.specs.Evidence.{states_of, tries_of, evidence_claims, evidence_payload, none_yet, states_kept, tries_kept, claims_kept, payload_kept};
ghost use Rattle.jwt_handles.specs.Reports.{IsNew};

use crate::state::{Evidence, Last};
use jwt_access::Moment;
use jwt_policy::Claims;
use jwt_verify::{SigState, Try};
use std::alloc::Global;

/// The moment of a judging that isn't kept yet.
pub(crate) fn no_moment() -> Moment
    ensures { result ≡ none_yet }
{
    Moment { now: 0, leeway: 0 }
}

impl Evidence {
    /// None.
    pub(crate) fn none(alloc: Global) -> Evidence
        ensures states { states_of result ≡ [] }
        ensures tries { tries_of result ≡ [] }
        ensures claims { evidence_claims result ≡ None }
        ensures payload { evidence_payload result ≡ None }
    {
        Evidence::Own {
            states: Vec::new(alloc),
            tries: Vec::new(alloc),
            claims: None,
            payload: None,
        }
    }
}

impl Last {
    /// Nothing is kept.
    pub(crate) fn new(alloc: Global) -> Last
        ensures { IsNew result }
    {
        Last {
            evidence: Evidence::none(alloc),
            missing: Vec::new(alloc),
            remembered: false,
            moment: no_moment(),
        }
    }

    /// What became of each signature.
    pub(crate) fn states(&self) -> &[SigState]
        ensures { result.now ≡ states_kept self.now }
    {
        match &self.evidence {
            Evidence::Own { states, .. } => states.as_slice(),
            Evidence::Shared { basis, .. } => basis.states.as_slice(),
        }
    }

    /// The tries that led to it.
    pub(crate) fn tries(&self) -> &[Try]
        ensures { result.now ≡ tries_kept self.now }
    {
        match &self.evidence {
            Evidence::Own { tries, .. } => tries.as_slice(),
            Evidence::Shared { basis, .. } => basis.tries.as_slice(),
        }
    }

    /// The claims of an acceptance.
    pub(crate) fn claims(&self) -> Option<&Claims>
        ensures { option_map (λ c. c.now) result ≡ claims_kept self.now }
    {
        match &self.evidence {
            Evidence::Own { claims, .. } => claims.as_ref(),
            Evidence::Shared { basis, accepted } => if *accepted {
                Some(&basis.claims)
            } else {
                None
            },
        }
    }

    /// The octets of the payload of an acceptance.
    pub(crate) fn payload(&self) -> Option<&[u8]>
        ensures { option_map (λ p. p.now) result ≡ payload_kept self.now }
    {
        match &self.evidence {
            Evidence::Own { payload, .. } => payload.as_deref(),
            Evidence::Shared { basis, accepted } => if *accepted {
                Some(basis.payload.as_slice())
            } else {
                None
            },
        }
    }
}
