ghost use Rattle.std.specs.Prelude.{◌≡◌, ◌≤◌, ◌+◌, ◌++◌, ℕ, drop, length, take};
ghost use Rattle.jwt_request.specs.urls.Written.{IsPut};

/// Why nothing is written for the caller.
#[derive(Clone, Copy, Debug, PartialEq, Eq)]
pub enum Unwritten {
    /// There is too little room.
    TooShort,
    /// There is no such URL.
    Refused,
}

/// Puts octets at a place of `out`.
fn put_at(out: &mut [u8], at: usize, octets: &[u8])
    requires { at + length octets.now ≤ length out.old }
    ensures length { length out.new ≡ length out.old }
    ensures front { take (at + length octets.now) out.new ≡ take at out.old ++ octets.now }
    ensures behind { (n : ℕ) → at + length octets.now ≤ n → drop n out.new ≡ drop n out.old }
{
    out[at..at + octets.len()].copy_from_slice(octets);
}

/// Writes three parts at the front of `out`, one behind the other, and gives the number of their octets. `None`: there is too little room, and nothing is
/// written.
pub(crate) fn put(front: &[u8], within: &[u8], end: &[u8], out: &mut [u8]) -> Option<usize>
    ensures length { length out.new ≡ length out.old }
    ensures put { IsPut (front.now ++ within.now ++ end.now) result out.old out.new }
{
    let room = out.len();
    let first = front.len();
    if first > room || within.len() > room - first {
        return None;
    }
    let second = first + within.len();
    if end.len() > room - second {
        return None;
    }
    put_at(out, 0, front);
    put_at(out, first, within);
    put_at(out, second, end);
    Some(second + end.len())
}
