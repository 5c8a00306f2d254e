//! Laws of the definitions: each function does nothing, and its contract holds of every service and every request.

ghost use Rattle.jwt_service.specs.Laws.{PassedIsNotRefused, AdmitsExactly, AdmitsOfOneIssuer, HandsOutTheTaken};

use jwt_access::expected::laws::one_unmet;
use jwt_possession::laws::{one_own_key, proofs_have_no_fault};
use jwt_request::laws::one_found;
use jwt_verify::laws::{one_verdict, tells_tokens};

/// No request has two answers, want of memory aside: what passes isn't refused, for whatever cause; and [`admit`](crate::admit) lets a request through by these
/// claims exactly where it may be.
pub fn one_answer()
    ensures passed { PassedIsNotRefused }
    ensures admitted { AdmitsExactly }
{
    one_found();
    one_verdict();
    one_unmet();
    tells_tokens();
    proofs_have_no_fault();
    one_own_key();
}

/// Whatever is let through is of one of the service's issuers: that one's policy accepts its token by that one's keys, and its claims name an issuer which that
/// policy allows.
pub fn of_one_issuer()
    ensures { AdmitsOfOneIssuer }
{}

/// Nothing is handed out of a token that was accepted and not taken, nor beside a proof that wasn't.
pub fn hands_out_the_taken()
    ensures { HandsOutTheTaken }
{}
