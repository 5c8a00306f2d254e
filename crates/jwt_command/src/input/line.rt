//! Taking one line of an input.
ghost use Rattle.std.specs.Prelude.{◌≡◌, ◌≤◌, ◌⊎◌, false, true, Err, IfErr, IfOk, IfSome, OnOk};
ghost use Rattle.jwt_text.specs.Intake.{TakesAtMost};
ghost use Rattle.jwt_command.specs.TakenLines.{LineFails, TakesLine, line_most};

use jwt_text::{GREATEST_LIMIT, Source};
use std::alloc::{AllocFailed, Global};

/// Why a line wasn't taken.
#[derive(Clone, Copy, Debug, PartialEq, Eq)]
pub enum LineFault {
    /// An allocation was refused. At most one octet past the limit was taken, and nothing behind the line.
    OutOfMemory,

    /// The source failed.
    Read,

    /// One octet past the limit was taken, and no line feed is among them.
    TooLong,
}

impl From<AllocFailed<u8>> for LineFault {
    ghost use Rattle.jwt_command.specs.declared.input.line.LineFault.TheVariants.{OutOfMemory};

    ghost from_gives = { λ _ fault. fault ≡ OutOfMemory };

    fn from(_error: AllocFailed<u8>) -> LineFault {
        LineFault::OutOfMemory
    }
}

/// Takes the octets before the first line feed or the end, and that line feed, which is dropped. They are read one by one, so
/// that nothing behind the line is taken. The limit is at least 1.
///
/// Refused with `OutOfMemory`, with `TooLong` where one octet past the limit was taken and no line feed is among them, and with
/// `Read` where the source failed.
pub fn line<R: Source>(alloc: Global, r: &mut R, limit: u32) -> Result<Vec<u8>, LineFault>
    requires least { 1 ≤ limit }
    requires greatest { limit ≤ GREATEST_LIMIT }
    ensures line { IfSome (R.remaining r.old)
        (λ x. IfOk result (λ v. TakesLine limit x v.items (R.remaining r.new))) }
    ensures works { OnOk result (R.failed r.new ≡ false) }
    ensures read { result ≡ Err LineFault.Read → R.failed r.new ≡ true }
    ensures fails { IfSome (R.remaining r.old)
        (λ x. IfErr result (LineFails limit (R.failed r.new) x (R.remaining r.new))) }
    ensures taken { IfSome (R.remaining r.old)
        (λ x. (R.failed r.new ≡ true) ⊎ TakesAtMost (line_most limit x) x (R.remaining r.new)) }
{
    let mut octets = Vec::new(alloc);
    'octets: for _ in 0..limit + 1 {
        let mut octet = [0u8; 1];
        match r.pull(&mut octet) {
            None => return Err(LineFault::Read),
            Some(0) => return Ok(octets),
            Some(_) => {
                if octet[0] == b'\n' {
                    return Ok(octets);
                }
                octets.push(octet[0])?;
            }
        }
    }
    Err(LineFault::TooLong)
}
