//! Reads the token that octets are, and takes in those that a source gives.

ghost use Rattle.std.specs.Prelude.{◌≡◌, ◌≢◌, ◌≤◌, ◌+◌, Err, false, length, IfOk, OnOk, IfErr, IfSome};
ghost use Rattle.jwt_text.specs.Answers.{Answers};
ghost use Rattle.jwt_text.specs.declared.limits.TheConstants.{LONGEST_TOKEN};
ghost use Rattle.jwt_jws.specs.Views.{token};
ghost use Rattle.jwt_verify.specs.Verdict.{token_of, without_line_feed};
ghost use Rattle.jwt_verify.specs.Asks.{IsToken};
ghost use Rattle.jwt_verify.specs.Accepted.{IsTokenFault};
ghost use Rattle.jwt_verify.specs.Reports.{TakesMemory};
ghost use Rattle.jwt_verify.specs.Steps.{IsTakenIn, IsSourceFault};

use crate::report::{Fault, InputFault};
use jwt_jws::laws::{form_faults, signed_tokens};
use jwt_jws::{FormFault, Signed, parse_with};
use jwt_policy::Policy;
use jwt_text::{Intake, Scratch, Source, TextFault};
use std::alloc::Global;

/// The octets without one line feed at their end, where that is to be dropped.
pub fn without_line_feed(octets: &[u8], drops: bool) -> &[u8]
    ensures value { result.now ≡ without_line_feed drops octets.now }
    ensures short { length result.now ≤ length octets.now }
{
    if drops && octets.len() > 0 && octets[octets.len() - 1] == 10 {
        &octets[..octets.len() - 1]
    } else {
        octets
    }
}

/// The signed token that the octets are, read with a scratch at hand, or why they are none.
#[tactic(auto, unfolding(crate::specs::Verdict::token_of))]
pub(crate) fn read_with<'a, 'p>(
    alloc: Global,
    octets: &'a [u8],
    policy: &'p Policy,
    scratch: &mut Scratch,
) -> Result<Signed<'a>, Fault<'p>>
    ensures value { Answers Fault.OutOfMemory token result (token_of policy.now octets.now) }
    ensures memory { result ≡ Err Fault.OutOfMemory → TakesMemory policy.now octets.now }
{
    if octets.len() > policy.limit() as usize {
        return Err(Fault::Text(InputFault::TooLong));
    }
    let token = without_line_feed(octets, policy.line_feed());
    match parse_with(alloc, token, policy.max_signatures(), scratch) {
        Ok(signed) => Ok(signed),
        Err(FormFault::OutOfMemory) => Err(Fault::OutOfMemory),
        Err(fault) => Err(Fault::Form(fault)),
    }
}

/// The signed token that the octets are, as [`judge`](crate::judge) reads it under the policy (RFC 7515, section 7).
/// Nothing is verified.
///
/// # Errors
/// Why the octets are none: `Text(TooLong)`, more octets than the policy's `limit`, or `Form`.
/// `OutOfMemory` comes where an allocation was refused, and in place of neither `Text(TooLong)`, `Form(Empty)` nor a wrong number
/// of periods, for which none is made.
pub fn read_token<'a, 'p>(
    alloc: Global,
    octets: &'a [u8],
    policy: &'p Policy,
) -> Result<Signed<'a>, Fault<'p>>
    ensures token { IfOk result (λ signed. IsToken policy.now octets.now (token signed)) }
    ensures fault { IfErr result
        (λ f. f ≢ Fault.OutOfMemory → IsTokenFault policy.now octets.now f) }
    ensures memory { result ≡ Err Fault.OutOfMemory → TakesMemory policy.now octets.now }
{
    signed_tokens();
    form_faults();
    read_with(alloc, octets, policy, &mut Scratch::new(alloc))
}

/// The octets of the source, as far as they are looked at: all, or one more than the limit.
pub(crate) fn take_in<'p, R: Source>(
    alloc: Global,
    source: &mut R,
    limit: u32,
) -> Result<Intake, Fault<'p>>
    requires least { 1 ≤ limit }
    requires greatest { limit ≤ LONGEST_TOKEN }
    ensures octets { IfSome (R.remaining source.old)
        (λ x. IsTakenIn result limit x (R.remaining source.new)) }
    ensures bound { IfOk result (λ held. length held.octets ≤ limit + 1) }
    ensures ok { OnOk result (R.failed source.new ≡ false) }
    ensures fault { IfErr result (IsSourceFault (R.failed source.old) (R.failed source.new)) }
{
    let mut intake = Intake::new(alloc, limit);
    match intake.read_from(source) {
        Ok(()) => Ok(intake),
        Err(TextFault::TooLong) => Ok(intake),
        Err(TextFault::Read) => Err(Fault::Text(InputFault::Read)),
        Err(_) => Err(Fault::OutOfMemory),
    }
}
