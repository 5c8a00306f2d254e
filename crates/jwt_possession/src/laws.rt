//! Laws of the definitions: each function does nothing, and its contract holds of all octets.

ghost use Rattle.jwt_possession.specs.Laws.{AllShown, NoProofTwice, NormalPaths, OneOwnKey, ProofsHaveNoFault, ProofsHaveOneFault, ProofsInTime};
ghost use Rattle.jwt_possession.specs.UriLaws.{NoDots, NormalExamples, NormalIsNormal, SameAsItsNormal, SameBothWays, SameByParts, SameThroughout};

use crate::once::laws::{issued_before, never_twice};
use jwt_policy::laws::claims_hold;
use jwt_text::laws::object_texts;
use jwt_verify::laws::tells_tokens;

/// No octets are a proof and have a fault, want of memory aside.
pub fn proofs_have_no_fault()
    ensures { ProofsHaveNoFault }
{
    tells_tokens();
    object_texts();
    claims_hold();
}

/// Octets that are signed by a key in their own header are so by one key, and have one set of claims.
pub fn one_own_key()
    ensures { OneOwnKey }
{
    tells_tokens();
    object_texts();
}

/// Octets have one fault at most, want of memory aside. With [`proofs_have_no_fault`] this says that what [`judge_proof`](crate::judge_proof) says of them is what
/// there is to be said, and no other answer meets its clauses.
pub fn proofs_have_one_fault()
    ensures { ProofsHaveOneFault }
{
    tells_tokens();
    object_texts();
    claims_hold();
}

/// A proof is never New twice, under whatever policies for proofs, and whatever else is taken.
pub fn no_proof_twice()
    ensures { NoProofTwice }
{
    never_twice();
}

/// At a moment at which a policy accepts a proof's claims they aren't late by their own times, and were issued no later.
pub fn proofs_in_time()
    ensures { ProofsInTime }
{
    claims_hold();
    issued_before();
}

/// A normal form is its own normal form, and each URI is one with its own. No path has a dot segment there.
pub fn normal_is_normal()
    ensures normal { NormalIsNormal }
    ensures same { SameAsItsNormal }
    ensures dots { NoDots }
{}

/// Two URIs are one exactly where scheme, host, port and path have one form each. So it doesn't matter in which order they stand, nor to which one of several
/// that are one another is compared.
pub fn same_by_parts()
    ensures parts { SameByParts }
    ensures both_ways { SameBothWays }
    ensures throughout { SameThroughout }
{}

/// The examples of RFC 3986 have the normal forms that it says.
pub fn examples_of_normal_uris()
    ensures { NormalExamples }
{}

/// A normal path is its own normal form.
pub fn normal_paths()
    ensures { NormalPaths }
{}

/// Where [`first_unshown`](crate::first_unshown) answers none, each way in which the token is bound is shown, and none is unknown.
pub fn all_shown()
    ensures { AllShown }
{}
