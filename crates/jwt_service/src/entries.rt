//! How a proof and a token are held.

ghost use Rattle.jwt_service.specs.Taking.{IsProofEntry, IsTokenEntry};

use crate::call::Call;
use crate::service::{Issuer, Service};
use jwt_policy::Claims;
use jwt_possession::Possession;
use jwt_possession::once::{Entry, Lack, entry_of};

/// How the proof is held, where there is one.
pub(crate) fn proof_entry(possession: &Option<Possession>) -> Option<Entry>
    ensures { IsProofEntry possession.now result }
{
    match possession {
        Some(possession) => Some(possession.entry()),
        None => None,
    }
}

/// How the token is held, where tokens count once, or what it lacks so that it can't be.
pub(crate) fn token_entry(
    service: &Service<'_>,
    issuer: &Issuer<'_>,
    claims: &Claims,
    call: &Call<'_>,
) -> Result<Option<Entry>, Lack>
    ensures { IsTokenEntry service.now issuer.now call.now claims.now result }
{
    if !service.once {
        return Ok(None);
    }
    match entry_of(issuer.policy, claims, call.moment) {
        Ok(entry) => Ok(Some(entry)),
        Err(lack) => Err(lack),
    }
}
