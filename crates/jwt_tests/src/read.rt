//! What tests read before they ask something of it.
use jwt_policy::{Claims, Policy};
use std::alloc::Global;
use std::test::Fail;

/// The policy of a document that is read.
pub(crate) fn policy_of(alloc: Global, document: &str) -> Result<Policy, Fail> {
    Ok(
        Policy::read(alloc, document.as_bytes())
            .ok()
            .ok_or("no policy")?,
    )
}

/// The claims of a payload that is read.
pub(crate) fn claims_of(alloc: Global, payload: &str) -> Result<Claims, Fail> {
    Ok(
        Claims::read(alloc, payload.as_bytes())
            .ok()
            .ok_or("no claims")?,
    )
}
