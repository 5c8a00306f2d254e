//! The member of a policy that is near to a name.
ghost use Rattle.std.specs.Prelude.{◌≡◌, IfOk, map, option_map};
ghost use Rattle.jwt_output.specs.Nearest.{at_edits, nearest_member};

use std::alloc::{AllocError, Global};
use strsim::levenshtein;

/// The first of some names to which so many edits lead.
fn at_edits(
    alloc: Global,
    count: usize,
    name: &str,
    known: &[&'static str],
) -> Result<Option<&'static str>, AllocError>
    ensures { IfOk result (λ o. option_map (λ t. t.now) o
        ≡ at_edits count name.now (map (λ t. t.now) known.now)) }
{
    for word in known {
        if levenshtein(alloc, name, word)? == count {
            return Ok(Some(*word));
        }
    }
    Ok(None)
}

/// The member that every version of the policy has to which one edit leads from a name, else one to which two do.
pub fn nearest_member(alloc: Global, name: &str) -> Result<Option<&'static str>, AllocError>
    ensures { IfOk result (λ o. option_map (λ t. t.now) o ≡ nearest_member name.now) }
{
    let known = [
        "version",
        "algs",
        "mode",
        "limit",
        "work",
        "max_signatures",
        "line_feed",
        "typ",
        "need_kid",
        "thumb_kid",
        "understood",
        "issuers",
        "audiences",
        "required",
        "leeway",
        "max_age",
    ];
    match at_edits(alloc, 1, name, &known)? {
        Some(word) => Ok(Some(word)),
        None => at_edits(alloc, 2, name, &known),
    }
}
