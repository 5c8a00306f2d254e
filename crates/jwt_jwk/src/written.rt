//! Writing a key with its `kid`.

ghost use Rattle.std.specs.Prelude.{◌≡◌, IfOk};
ghost use Rattle.jwt_mac.specs.Verifying.{key_octets};
ghost use Rattle.jwt_jwk.specs.Jwk.{HasSizes, ReadsAsKey, jwk_text, optional_text};
ghost use Rattle.jwt_jwk.specs.Converted.{kid_of};

use crate::kid::Kid;
use crate::writing::{thumbprint, write_jwk};
use jwt_mac::KeyView;
use jwt_text::TextFault;
use std::alloc::Global;

/// The JWK of a key with this `kid`, and this `alg` where it is given.
pub(crate) fn write(
    alloc: Global,
    key: KeyView<'_>,
    kid: Kid<'_>,
    alg: Option<&str>,
) -> Result<Vec<u8>, TextFault>
    requires { HasSizes (key_octets key) }
    ensures text { IfOk result (λ v. v.items ≡ jwk_text (kid_of kid.entry (key_octets key.entry)) (optional_text alg.entry) (key_octets key.entry)) }
    ensures reads_back { IfOk result (λ v. ReadsAsKey (kid_of kid.entry (key_octets key.entry)) (optional_text alg.entry) (key_octets key.entry) v.items) }
{
    match kid {
        Kid::Absent => write_jwk(alloc, key, None, alg),
        Kid::Name(name) => write_jwk(alloc, key, Some(name), alg),
        Kid::Thumbprint => {
            let print = thumbprint(alloc, key)?;
            write_jwk(alloc, key, Some(print.as_str()), alg)
        }
    }
}
