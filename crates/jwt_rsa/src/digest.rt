//! A digest, held without allocation.

ghost use Rattle.std.specs.Prelude.{◌≡◌, ◌≤◌, ℕ, List, length, take};

use std::marker::Model;

// A digest, at most 64 octets. Contracts see it as the list of its octets.
#[derive(Drop)]
pub struct HashDigest {
    octets: [u8; 64],
    len: usize,
}

impl Model for HashDigest {
    ghost Value = { List ℕ };

    ghost view = { λ d. take d.len d.octets };

    ghost invariant = { λ d. d.len ≤ 64 };
}

impl HashDigest {
    /// The digest's octets, in order.
    pub fn octets(&self) -> &[u8]
        ensures is { result.now ≡ self.now }
        ensures short { length self.now ≤ 64 }
    {
        &self.octets[..self.len]
    }

    /// A digest of these octets.
    pub fn of(octets: &[u8]) -> HashDigest
        requires { length octets.now ≤ 64 }
        ensures { result ≡ octets.now }
    {
        let mut room = [0u8; 64];
        room[..octets.len()].copy_from_slice(octets);
        HashDigest {
            octets: room,
            len: octets.len(),
        }
    }
}
