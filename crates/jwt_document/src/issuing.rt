//! The keys by which tokens are issued.

ghost use Rattle.std.specs.Prelude.{◌≡◌, ◌≢◌, Ok, option_map};
ghost use Rattle.jwt_keys.specs.KeySets.{key_set};
ghost use Rattle.jwt_text.specs.Answers.{Answers};
ghost use Rattle.jwt_document.specs.Issuing.{keys_that_issue, can_sign, no_key, issuing_in, issuing_of};

use crate::closed::Found;
use crate::fault::ServiceFault;
use crate::given::{secret_at, secret_set};
use crate::rows::{Cause, Within};
use crate::said::issue_in;
use jwt_keys::{KeySet, KeysFault};
use jwt_mac::Alg;
use jwt_policy::is_for;
use jwt_text::ObjectRef;
use std::alloc::Global;

/// The keys: the secret alone, else those of the set, where it can be read.
fn keys_that_issue(alloc: Global, issue: &ObjectRef<'_>) -> Result<Option<KeySet>, ServiceFault>
    ensures { Answers ServiceFault.OutOfMemory (option_map key_set) result (Ok (keys_that_issue issue.now)) }
{
    if let Some(secret) = secret_at(issue) {
        return Ok(Some(secret_set(alloc, secret)?));
    }
    let Some(set) = issue.object("set") else {
        return Ok(None);
    };
    match KeySet::of_members(alloc, &set) {
        Ok(keys) => Ok(Some(keys)),
        Err(KeysFault::OutOfMemory) => Err(ServiceFault::OutOfMemory),
        Err(_) => Ok(None),
    }
}

/// Whether the key of the number that is written signs by the algorithm.
#[tactic(auto, using(std::proofs::lemmas::Option::slice_get_past))]
fn can_sign(issue: &ObjectRef<'_>, keys: &KeySet) -> bool
    ensures { result ≡ can_sign issue.now (key_set keys.now) }
{
    let said = issue_in(issue);
    if said.key >= u64::from(keys.len()) {
        return false;
    }
    let Some(key) = keys.key(said.key as u32) else {
        return false;
    };
    match Alg::from_text(said.alg) {
        Some(alg) => key.permits("sign") && is_for(key, alg),
        None => false,
    }
}

/// That no key signs.
fn no_key(alloc: Global) -> ServiceFault
    ensures { result ≢ ServiceFault.OutOfMemory → result ≡ no_key }
{
    let fault = Found {
        cause: Cause::NoKey,
        within: Within::Issue,
        name: "key",
        element: None,
    };
    ServiceFault::member(alloc, fault)
}

/// The keys, where there is something that issues tokens, of which the one that is named has to sign.
fn issuing_in(alloc: Global, issue: &ObjectRef<'_>) -> Result<Option<KeySet>, ServiceFault>
    ensures { Answers ServiceFault.OutOfMemory (option_map key_set) result (issuing_in issue.now) }
{
    match keys_that_issue(alloc, issue) {
        Ok(Some(keys)) => {
            if can_sign(issue, &keys) {
                Ok(Some(keys))
            } else {
                Err(no_key(alloc))
            }
        }
        Ok(None) => Err(no_key(alloc)),
        Err(fault) => Err(fault),
    }
}

/// The keys by which tokens are issued; none where none are.
pub(crate) fn issuing(
    alloc: Global,
    members: &ObjectRef<'_>,
) -> Result<Option<KeySet>, ServiceFault>
    ensures { Answers ServiceFault.OutOfMemory (option_map key_set) result (issuing_of members.now) }
{
    match members.object("issue") {
        Some(issue) => issuing_in(alloc, &issue),
        None => Ok(None),
    }
}
