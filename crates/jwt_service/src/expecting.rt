//! What a call expects of claims.

ghost use Rattle.jwt_service.specs.Expecting.{HasUnmet};

use crate::call::Call;
use jwt_access::expected::{Unmet, first_unmet};
use jwt_mac::Alg;
use jwt_policy::Claims;

/// The first that the call expects and that isn't that of its claim, by the algorithm of the signature that verified.
pub(crate) fn unmet(call: &Call<'_>, claims: &Claims, alg: Alg) -> Option<Unmet>
    ensures { HasUnmet call.now claims.now alg result }
{
    first_unmet(call.expected, claims, alg)
}
