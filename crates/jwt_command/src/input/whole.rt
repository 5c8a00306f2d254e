//! A command's input.
ghost use Rattle.std.specs.Prelude.{◌≡◌, ◌≤◌, ◌+◌, ◌⊎◌, true, length, Err, IfOk, IfSome};
ghost use Rattle.jwt_text.specs.Intake.{TakesAtMost};
ghost use Rattle.jwt_verify.specs.Verdict.{without_line_feed};
ghost use Rattle.jwt_command.specs.Input.{ReadsInput};

use jwt_text::{GREATEST_LIMIT, Intake, Source, TextFault};
use std::alloc::Global;

/// Reads all of an input, of at most so many octets.
pub(crate) fn read_input<R: Source>(
    alloc: Global,
    limit: u32,
    r: &mut R,
) -> Result<Intake, TextFault>
    requires least { 1 ≤ limit }
    requires greatest { limit ≤ GREATEST_LIMIT }
    ensures input { IfSome (R.remaining r.old) (λ x. ReadsInput limit (R.failed r.new) x result) }
    ensures short { IfOk result (λ held. length held.octets ≤ limit) }
    ensures read { result ≡ Err TextFault.Read → R.failed r.new ≡ true }
    ensures taken { IfSome (R.remaining r.old)
        (λ x. (R.failed r.new ≡ true) ⊎ TakesAtMost (limit + 1) x (R.remaining r.new)) }
{
    let mut intake = Intake::new(alloc, limit);
    match intake.read_from(r) {
        Ok(()) => Ok(intake),
        Err(fault) => Err(fault),
    }
}

/// The octets without one line feed at their end.
pub(crate) fn without_line_feed(octets: &[u8]) -> &[u8]
    ensures value { result.now ≡ without_line_feed true octets.now }
    ensures short { length result.now ≤ length octets.now }
{
    jwt_verify::without_line_feed(octets, true)
}
