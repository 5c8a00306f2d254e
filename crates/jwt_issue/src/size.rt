//! The size of a token before it is signed, in octets.
ghost use Rattle.std.specs.Prelude.{◌≡◌, ◌≤◌, ◌<◌, ℕ, List, SomeIff, length, map};
ghost use Rattle.jwt_issue.specs.Issued.{signature_text, in_compact_form, flattened_token, general_token};
ghost use Rattle.jwt_issue.specs.Views.{signer_parts};

use crate::signer::Signer;
use jwt_mac::laws::tags_are_digests;
use jwt_text::LONGEST_TOKEN;

/// The most octets of a token.
const MOST: usize = LONGEST_TOKEN as usize;

/// The octets of a signature text, over any payload.
fn signature_len(signer: &Signer<'_>) -> usize
    ensures is { (payload : List ℕ)
        → length (signature_text payload (signer_parts signer.now)) ≡ result }
    ensures few { result ≤ 86 }
{
    tags_are_digests();
    (4 * signer.alg.digest() as usize + 2) / 3
}

/// The length of a token, if it isn't too long.
fn at_most(len: usize) -> Option<usize>
    ensures { SomeIff result (len ≤ LONGEST_TOKEN) len }
{
    if len <= MOST { Some(len) } else { None }
}

/// The octets of the token in compact form, `None` where they are too many.
pub(crate) fn compact_len(signer: &Signer<'_>, payload: &[u8]) -> Option<usize>
    ensures { SomeIff result
        (length (in_compact_form payload.now (signer_parts signer.now)) ≤ LONGEST_TOKEN)
        (length (in_compact_form payload.now (signer_parts signer.now))) }
{
    if signer.protected.len() > MOST || payload.len() > MOST {
        return None;
    }
    at_most(signer.protected.len() + payload.len() + 2 + signature_len(signer))
}

/// The octets of the token in flattened JSON form, `None` where they are too many.
pub(crate) fn flattened_len(signer: &Signer<'_>, payload: &[u8]) -> Option<usize>
    ensures { SomeIff result
        (length (flattened_token payload.now (signer_parts signer.now)) ≤ LONGEST_TOKEN)
        (length (flattened_token payload.now (signer_parts signer.now))) }
{
    if signer.protected.len() > MOST || payload.len() > MOST {
        return None;
    }
    // {"payload":"","protected":"","signature":""}
    at_most(signer.protected.len() + payload.len() + 44 + signature_len(signer))
}

/// The octets of the token in general JSON form, `None` where they are too many.
pub(crate) fn general_len(signers: &[Signer<'_>], payload: &[u8]) -> Option<usize>
    requires { 0 < length signers.now }
    ensures { SomeIff result
        (length (general_token payload.now (map signer_parts signers.now)) ≤ LONGEST_TOKEN)
        (length (general_token payload.now (map signer_parts signers.now))) }
{
    if payload.len() > MOST {
        return None;
    }
    // {"payload":"","signatures":[]} with {"protected":"","signature":""} for each, and a comma between two
    let mut len = 29 + payload.len();
    for signer in signers {
        if len > MOST || signer.protected.len() > MOST {
            return None;
        }
        len += 32 + signer.protected.len() + signature_len(signer);
    }
    at_most(len)
}
