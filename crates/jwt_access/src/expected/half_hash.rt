//! The text of the left half of a hash (OpenID Connect Core 1.0, sections 3.1.3.6 and 3.3.2.11).

ghost use Rattle.std.specs.Prelude.{◌≡◌, ◌≤◌, length};
ghost use Rattle.std.specs.Str.{bytes_eq};
ghost use Rattle.jwt_text.specs.Base64url.{spelling};
ghost use Rattle.jwt_access.specs.expected.Expected.{left_half, half_hash};

use base64::engine::general_purpose::URL_SAFE_NO_PAD;
use jwt_mac::{Alg, Hash, sha256, sha384, sha512};

/// Whether the text is base64url of these octets (RFC 4648, section 5), of which there are at most 64.
fn spells(text: &str, octets: &[u8]) -> bool
    requires { length octets.now ≤ 64 }
    ensures { result ≡ bytes_eq text.now (spelling octets.now) }
{
    let mut spelled = [0u8; 86];
    match URL_SAFE_NO_PAD.encode_slice(octets, &mut spelled) {
        Ok(len) => text.as_bytes() == &spelled[..len],
        Err(_) => false,
    }
}

/// Whether the text is that of the left half of this hash.
fn is_half_of(text: &str, hash: &[u8]) -> bool
    requires { length hash.now ≤ 64 }
    ensures { result ≡ bytes_eq text.now (spelling (left_half hash.now)) }
{
    spells(text, &hash[..hash.len() / 2])
}

/// Whether the text is that of the left half of these octets' hash.
pub(crate) fn is_half_hash(text: &str, octets: &[u8], alg: Alg) -> bool
    ensures { result ≡ bytes_eq text.now (half_hash alg octets.now) }
{
    match alg.kind().hash() {
        Hash::Sha256 => is_half_of(text, &sha256([octets, b"", b""])),
        Hash::Sha384 => is_half_of(text, &sha384([octets, b"", b""])),
        Hash::Sha512 => is_half_of(text, &sha512([octets, b"", b""])),
    }
}
