//! The report where memory was refused before anything was tried.

ghost use Rattle.std.specs.Prelude.{◌≡◌, ◌≢◌, ℕ, []};
ghost use Rattle.jwt_jws.specs.Token.{Token};
ghost use Rattle.jwt_verify.specs.Accepted.{IsTokenFault};
ghost use Rattle.jwt_verify.specs.Asks.{IsToken};
ghost use Rattle.jwt_verify.specs.Reports.{IsReport, TakesMemory};
ghost use Rattle.jwt_verify.specs.Verdict.{Terms as AnyTerms};
ghost use Rattle.jwt_verify.specs.declared.report.Fault.TheVariants.{OutOfMemory, Text};
ghost use Rattle.jwt_verify.specs.declared.report.InputFault.TheVariants.{Read};
ghost use Rattle.jwt_verify.specs.declared.report.Verdict.TheVariants.{Refused};

use jwt_policy::Policy;
use jwt_verify::laws::tells_tokens;
use jwt_verify::{Fault, Report, Verdict, read_token};
use std::alloc::Global;

/// Why octets are no token, else want of memory.
fn fault_of<'p>(alloc: Global, octets: &[u8], policy: &'p Policy) -> Fault<'p>
    ensures fault { result ≢ OutOfMemory → IsTokenFault policy.now octets.now result }
    ensures memory { result ≡ OutOfMemory → TakesMemory policy.now octets.now }
{
    match read_token(alloc, octets, policy) {
        Ok(_signed) => Fault::OutOfMemory,
        Err(fault) => fault,
    }
}

/// The report on octets in hand where memory was refused before any signature was tried: why they are no token, else `OutOfMemory`. It is
/// the one of [`judge`](jwt_verify::judge), whatever the keys, the moment and the verifiers are.
pub fn untried<'p>(alloc: Global, octets: &[u8], policy: &'p Policy) -> Report<'p>
    ensures report { (terms : AnyTerms) (ceiling : ℕ) → terms.policy ≡ policy.now
        → IsReport terms octets.now ceiling result }
    ensures read { result.verdict ≢ Refused (Text Read) }
    ensures memory { result.verdict ≡ Refused OutOfMemory → TakesMemory policy.now octets.now }
    ensures token { result.verdict ≢ Refused OutOfMemory
        → (token : Token) → ¬ IsToken policy.now octets.now token }
    ensures tries { result.tries.items ≡ [] }
    ensures states { result.states.items ≡ [] }
{
    tells_tokens();
    Report {
        verdict: Verdict::Refused(fault_of(alloc, octets, policy)),
        states: Vec::new(alloc),
        tries: Vec::new(alloc),
    }
}
