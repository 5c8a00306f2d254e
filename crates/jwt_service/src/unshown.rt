//! How a token is bound, and whether that is shown.

ghost use Rattle.std.specs.Prelude.{◌≡◌, [], ◌∷◌, IfOk};
ghost use Rattle.jwt_text.specs.Rows.{◌⇒◌, first_row};
ghost use Rattle.jwt_possession.specs.declared.binding.BindingFault.TheVariants.{OtherCertificate};
ghost use Rattle.jwt_service.specs.Unshown.{certificate_of, lacks_certificate, ShowsThese, HasUnshown};

use crate::call::Call;
use crate::service::{Certificates, Service};
use jwt_policy::Claims;
use jwt_possession::{Binding, BindingFault, Possession, Shown, first_unshown};
use std::alloc::{AllocError, Global};

/// The client's certificate, where the service looks at it.
fn certificate_of<'a>(service: &Service<'_>, call: &Call<'a>) -> Option<&'a [u8]>
    ensures { result ≡ certificate_of service.now call.now }
{
    match service.certificates {
        Certificates::Ignored => None,
        Certificates::Bound | Certificates::Required => call.certificate,
    }
}

/// What the proof and the client's certificate show.
fn shown_by<'a>(
    service: &Service<'_>,
    call: &Call<'a>,
    possession: &'a Option<Possession>,
) -> Shown<'a>
    ensures { ShowsThese service.now call.now possession.now result }
{
    let certificate = certificate_of(service, call);
    match possession {
        Some(possession) => Shown {
            key: Some(possession.thumbprint()),
            certificate,
        },
        None => Shown {
            key: None,
            certificate,
        },
    }
}

/// Whether the token has to be bound to a certificate, and is to none.
fn lacks_certificate(service: &Service<'_>, claims: &Claims) -> bool
    ensures { result ≡ lacks_certificate service.now claims.now }
{
    match service.certificates {
        Certificates::Ignored | Certificates::Bound => false,
        Certificates::Required => Binding::of(claims).certificate.is_none(),
    }
}

/// The fault of a token that has to be bound to a certificate, and is to none.
fn unbound(service: &Service<'_>, claims: &Claims) -> Option<BindingFault>
    ensures { result ≡ first_row ((lacks_certificate service.now claims.now ⇒ OtherCertificate) ∷ []) }
{
    if lacks_certificate(service, claims) {
        Some(BindingFault::OtherCertificate)
    } else {
        None
    }
}

/// The first way in which the token is bound that isn't known, or that neither the proof nor the client's certificate shows; behind them, that it is bound to no
/// certificate, where it has to be.
pub(crate) fn unshown(
    alloc: Global,
    service: &Service<'_>,
    call: &Call<'_>,
    claims: &Claims,
    possession: &Option<Possession>,
) -> Result<Option<BindingFault>, AllocError>
    ensures { IfOk result (HasUnshown service.now call.now claims.now possession.now) }
{
    let shown = shown_by(service, call, possession);
    match first_unshown(alloc, claims, &shown) {
        Ok(None) => Ok(unbound(service, claims)),
        Ok(Some(fault)) => Ok(Some(fault)),
        Err(error) => Err(error),
    }
}
