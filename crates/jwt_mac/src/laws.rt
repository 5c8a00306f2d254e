//! Laws of the definitions: each function does nothing, and its contract holds of every key and message.
ghost use Rattle.std.specs.Prelude.{◌≡◌, ◌<◌, ℕ, List, length, slice_index};
ghost use Rattle.jwt_mac.specs.Algorithm.{digest_size, tag_of};
ghost use Rattle.jwt_mac.specs.declared.algorithm.Alg.{Alg};

/// A tag has as many octets as a digest of its algorithm's hash function (RFC 2104, section 2).
pub fn tags_are_digests()
    ensures { (alg : Alg) (key message : List ℕ)
        → length (tag_of alg key message) ≡ digest_size alg }
{}

/// A tag is octets: each of its numbers is below 256.
pub fn tags_are_octets()
    ensures { (alg : Alg) (key message : List ℕ) (i : ℕ)
        → slice_index (tag_of alg key message) i < 256 }
{}
