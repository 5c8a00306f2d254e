//! What a service asks where the policy of an issuer doesn't say it.

ghost use Rattle.std.specs.Prelude.{◌≡◌, IsErrOf, Ok, map, string_bytes};
ghost use Rattle.jwt_text.specs.Answers.{Answers};
ghost use Rattle.jwt_policy.specs.InService.{run_in_service, required_in_service, claims_in_service, service_policy_of};

use crate::document::policy;
use crate::policy::{ClaimPart, Policy, RunPart};
use crate::policy_fault::PolicyFault;
use crate::texts::is_among;
use jwt_text::ObjectRef;
use std::alloc::Global;

impl Policy {
    /// The policy of these members in a service, read as [`Policy::read`] reads those of a document. Where they don't say it, a token has one signature, its
    /// claims have an `exp` unless tokens are `lasting`, and tries have the ceiling of [`Policy::with_ceiling`].
    ///
    /// # Errors
    /// As [`Policy::read`], but for what is said of a whole text: `TooLong`, `Json`, `NameTwice`.
    #[tactic(auto, unfolding(crate::specs::InService::service_policy_of))]
    pub fn in_service(
        alloc: Global,
        members: &ObjectRef<'_>,
        lasting: bool,
    ) -> Result<Policy, PolicyFault>
        ensures { ¬ IsErrOf result PolicyFault.OutOfMemory → result ≡ service_policy_of lasting members.now }
    {
        let Policy {
            run: given,
            header,
            claims: asked,
            max_calls,
        } = policy(alloc, members)?;
        let run = run(members, given);
        let claims = claims(alloc, asked, lasting)?;
        let silent = Policy {
            run,
            header,
            claims,
            max_calls,
        };
        Ok(silent.with_ceiling())
    }
}

/// How a run goes: with one signature, where the members don't say how many.
fn run(members: &ObjectRef<'_>, run: RunPart) -> RunPart
    ensures { result ≡ run_in_service members.now run }
{
    let max_signatures = if members.has("max_signatures") {
        run.max_signatures
    } else {
        1
    };
    RunPart {
        version: run.version,
        algs: run.algs,
        mode: run.mode,
        limit: run.limit,
        work: run.work,
        max_signatures,
        line_feed: run.line_feed,
    }
}

/// The claims that must be there: `exp` too, unless tokens are lasting.
fn required(alloc: Global, names: Vec<String>, lasting: bool) -> Result<Vec<String>, PolicyFault>
    ensures { Answers PolicyFault.OutOfMemory (λ v. map string_bytes v.items) result
        (Ok (required_in_service lasting (map string_bytes names.items))) }
{
    let mut names = names;
    if lasting || is_among(&names, "exp") {
        return Ok(names);
    }
    names.push(String::from_str(alloc, "exp")?)?;
    Ok(names)
}

/// What the claims have to be.
fn claims(alloc: Global, claims: ClaimPart, lasting: bool) -> Result<ClaimPart, PolicyFault>
    ensures { ¬ IsErrOf result PolicyFault.OutOfMemory → result ≡ Ok (claims_in_service lasting claims) }
{
    let required = required(alloc, claims.required, lasting)?;
    Ok(ClaimPart {
        issuers: claims.issuers,
        audiences: claims.audiences,
        required,
        leeway: claims.leeway,
        max_age: claims.max_age,
    })
}
