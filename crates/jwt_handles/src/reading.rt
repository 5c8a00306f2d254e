//! A token that is read under the policy of a validator.

ghost use Rattle.std.specs.Prelude.{◌≡◌, IfOk, MatchOption, Ok, IsErr};
ghost use Rattle.jwt_jws.specs.Views.{token};
ghost use Rattle.jwt_verify.specs.Verdict.{token_of};

use jwt_jws::Signed;
use jwt_policy::Policy;
use jwt_verify::Fault;
use jwt_verify::laws::tells_tokens;
use std::alloc::{AllocError, Global};

/// The signed token that the octets are, as [`jwt_verify::read_token`] reads it under the policy;
/// `None` where they are none.
///
/// # Errors
/// Where an allocation was refused.
pub(crate) fn read_token<'a>(
    alloc: Global,
    octets: &'a [u8],
    policy: &Policy,
) -> Result<Option<Signed<'a>>, AllocError>
    ensures { IfOk result (λ o. MatchOption o
        (IsErr (token_of policy.now octets.now))
        (λ s. token_of policy.now octets.now ≡ Ok (token s))) }
{
    tells_tokens();
    match jwt_verify::read_token(alloc, octets, policy) {
        Ok(signed) => Ok(Some(signed)),
        Err(Fault::OutOfMemory) => Err(AllocError),
        Err(_) => Ok(None),
    }
}
