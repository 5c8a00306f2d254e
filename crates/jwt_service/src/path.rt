//! The URI of a request beside a proof.

ghost use Rattle.std.specs.Prelude.{◌≡◌, IfOk, string_bytes};
ghost use Rattle.jwt_service.specs.Paths.{begins_with_slash, uri_of};

use crate::call::Call;
use crate::service::Proofs;
use std::alloc::{AllocError, Global};

/// The URI that a request was sent to: the service's own scheme and host, and the path as it came.
pub(crate) fn uri_of(
    alloc: Global,
    proofs: &Proofs<'_>,
    call: &Call<'_>,
) -> Result<String, AllocError>
    ensures { IfOk result (λ uri. string_bytes uri ≡ uri_of proofs.now call.now) }
{
    let mut uri = String::from_str(alloc, proofs.origin)?;
    uri.push_str(call.path)?;
    Ok(uri)
}

/// Whether the path begins with `/`: else it would be read as more of the host.
pub(crate) fn begins_with_slash(path: &str) -> bool
    ensures { result ≡ begins_with_slash path.now }
{
    match path.as_bytes().first() {
        Some(octet) => *octet == b'/',
        None => false,
    }
}
