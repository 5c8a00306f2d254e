//! The names of algorithms as one text.

ghost use Rattle.std.specs.Prelude.{◌≡◌, ◌≤◌, ◌<◌, ◌+◌, ◌↔◌, ◌++◌, ◌∷◌, [], ℕ, IsTrue, length, take, drop, nat_lt, if◌then◌else◌};
ghost use Rattle.jwt_possession.specs.AlgNames.{algs_text, IsWritten};

use crate::policy::ProofPolicy;
use jwt_mac::Alg;

/// What stands behind the name at this place: a space, but for the last one.
fn gap_behind(algs: &[Alg], place: usize) -> &'static [u8]
    requires { place < length algs.now }
    ensures { result.now ≡ if nat_lt (place + 1) (length algs.now) then 32 ∷ [] else [] }
{
    if place + 1 < algs.len() { b" " } else { b"" }
}

/// Whether the text of these algorithms has at most so many octets.
fn fits(algs: &[Alg], room: usize) -> bool
    ensures { IsTrue result ↔ (length (algs_text algs.now) ≤ room) }
{
    let mut left = room;
    'names: for place in 0..algs.len() {
        let size = algs[place].text().len() + gap_behind(algs, place).len();
        if size > left {
            return false;
        }
        left -= size;
    }
    true
}

/// Puts octets at a place of `out`.
fn put_at(out: &mut [u8], at: usize, octets: &[u8])
    requires { at + length octets.now ≤ length out.old }
    ensures length { length out.new ≡ length out.old }
    ensures front { take (at + length octets.now) out.new ≡ take at out.old ++ octets.now }
    ensures behind { (n : ℕ) → at + length octets.now ≤ n → drop n out.new ≡ drop n out.old }
{
    out[at..at + octets.len()].copy_from_slice(octets);
}

/// Puts the text of these algorithms at the front of `out`, and gives the number of its octets.
fn put_names(out: &mut [u8], algs: &[Alg]) -> usize
    requires { length (algs_text algs.now) ≤ length out.old }
    ensures size { result ≡ length (algs_text algs.now) }
    ensures text { out.new ≡ algs_text algs.now ++ drop (length (algs_text algs.now)) out.old }
{
    let mut at = 0;
    'names: for place in 0..algs.len() {
        let name = algs[place].text().as_bytes();
        let gap = gap_behind(algs, place);
        put_at(out, at, name);
        at += name.len();
        put_at(out, at, gap);
        at += gap.len();
    }
    at
}

impl ProofPolicy {
    /// Writes the names of the policy's algorithms at the front of `out`, with a space between two, and gives the number of their octets: what a
    /// challenge says as `algs` (RFC 9449, section 7.1).
    ///
    /// `None`: they have more octets than `out`, in which nothing is written then.
    pub fn write_algs(&self, out: &mut [u8]) -> Option<usize>
        ensures { IsWritten (algs_text self.now.run.algs) result out.old out.new }
    {
        let algs = self.policy().algs();
        if !fits(algs, out.len()) {
            return None;
        }
        Some(put_names(out, algs))
    }
}
