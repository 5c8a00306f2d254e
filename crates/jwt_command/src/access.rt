//! The access rule of `verify`.
ghost use Rattle.std.specs.Prelude.{◌≡◌, IsErrOf, option_map};
ghost use Rattle.jwt_command.specs.Access.{rule_in_hand};

use jwt_access::{AccessFault, AccessRule};
use std::alloc::Global;

/// The rule of the document in hand; none where there is no document.
pub(crate) fn rule_in_hand(
    alloc: Global,
    document: Option<&[u8]>,
) -> Result<Option<AccessRule>, AccessFault>
    ensures { ¬ IsErrOf result AccessFault.OutOfMemory
        → result ≡ rule_in_hand (option_map (λ t. t.now) document.entry) }
{
    match document {
        Some(octets) => match AccessRule::read(alloc, octets) {
            Ok(rule) => Ok(Some(rule)),
            Err(fault) => Err(fault),
        },
        None => Ok(None),
    }
}
