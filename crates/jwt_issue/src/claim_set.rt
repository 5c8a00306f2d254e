//! The claims to be signed.
ghost use Rattle.std.specs.Prelude.{◌≡◌};
ghost use Rattle.jwt_text.specs.Answers.{Answers};
ghost use Rattle.jwt_issue.specs.ClaimSets.{claim_set_of};

use jwt_policy::{ClaimFault, Claims};
use std::alloc::Global;
use std::marker::Model;

/// The octets of claims, as they are signed: an object text whose registered claims have their kinds (RFC 7519, section 4).
/// Contracts see the octets.
#[derive(Drop)]
pub struct ClaimSet {
    octets: Vec<u8>,
}

impl Model for ClaimSet {
    ghost use Rattle.std.specs.Prelude.{◌≡◌, ℕ, List, true, is_ok};
    ghost use Rattle.jwt_policy.specs.ClaimKinds.{claims_of};

    ghost Value = { List ℕ };

    ghost view = { λ c. c.octets.items };

    ghost invariant = { λ c. is_ok (claims_of c.octets.items) ≡ true };
}

impl ClaimSet {
    /// The claims that these octets are the text of. The octets are kept as they stand, and none is copied; where they are
    /// refused they are given up.
    ///
    /// # Errors
    /// Those of [`Claims::read`]: the first that holds of `ClaimsShape`, the octets are no object text; then, claim by
    /// claim, `ClaimKind` and `ClaimDate`. `OutOfMemory` comes where an allocation was refused, in place of any other answer.
    pub fn from_octets(alloc: Global, octets: Vec<u8>) -> Result<ClaimSet, ClaimFault<'static>>
        ensures { Answers ClaimFault.OutOfMemory (λ c. c) result (claim_set_of octets.items) }
    {
        match Claims::read(alloc, &octets) {
            Ok(_) => Ok(ClaimSet { octets }),
            Err(fault) => Err(fault),
        }
    }

    /// The octets, as they are signed.
    pub fn octets(&self) -> &[u8]
        ensures { result.now ≡ self.now }
    {
        &self.octets
    }
}
