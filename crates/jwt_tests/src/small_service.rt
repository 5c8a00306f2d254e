//! A small service: it reads a policy, and the keys of an issuer, once, and judges a token by them.
//!
//! The one library that it names is `fowharimu`.

ghost use Rattle.std.specs.Prelude.{◌≢◌, IfSome, map};
ghost use Rattle.fowharimu.specs.Accepted.{IsVerdict};
ghost use Rattle.fowharimu.specs.Reports.{FoundMemory, terms};
ghost use Rattle.fowharimu.specs.InputFaultVariants.{Read};
ghost use Rattle.fowharimu.specs.FaultVariants.{Text};
ghost use Rattle.fowharimu.specs.VerdictVariants.{Refused};

use fowharimu::{
    BuiltIn, KeySet, PREPARED_KEYS, Policy, Reader, Report, Source, Validator, Verdict, Verifier,
};
use jwt_support::examples::{KEYS_A2, NOW, TOKEN_A2};
use std::alloc::{AllocError, Global};
use std::test::Fail;

/// The policy of the service.
const POLICY: &str = r#"{"algs":["RS256"],"issuers":["joe"],"required":["exp"]}"#;

/// What is said of the token that a source gives, `now` being in seconds since 1970-01-01T00:00:00Z: the one verdict on its octets,
/// under a budget of the policy's `work`, unless a read failed or memory was refused.
fn report_on<'v, R: Source>(
    alloc: Global,
    validator: &'v Validator,
    source: &mut R,
    now: i64,
) -> Report<'v>
    ensures { IfSome (R.remaining source.old) (λ x. result.verdict ≢ Refused (Text Read)
        → FoundMemory result.verdict
        → IsVerdict
        (terms validator.now.policy validator.now.keys now
        (map (λ v. meaning (v.vtable, v.value)) validator.now.verifiers.items))
        x validator.now.policy.run.work result.verdict) }
{
    let mut budget = validator.policy.budget();
    validator.validate(alloc, source, now, &mut budget)
}

/// What the service says of a token.
fn answer(
    alloc: Global,
    validator: &Validator,
    token: &str,
    now: i64,
) -> Result<String, AllocError> {
    let report = report_on(alloc, validator, &mut Reader::new(token.as_bytes()), now);
    match &report.verdict {
        Verdict::Accepted { claims, .. } => {
            let issuer = claims.iss().unwrap_or("nobody");
            format!(in alloc; "accepted, by {issuer}")
        }
        Verdict::Refused(fault) => format!(in alloc; "refused, {fault}"),
    }
}

/// What the service says of the token of RFC 7515, appendix A.2, a second before it expires and then.
fn answers(alloc: Global) -> Result<(String, String), Fail> {
    let policy = Policy::read(alloc, POLICY.as_bytes())?;
    let keys = KeySet::read(alloc, KEYS_A2.as_bytes())?;
    let mut verifiers: Vec<Box<dyn Verifier>> = Vec::new(alloc);
    let verifier = BuiltIn::prepared(alloc, &keys, PREPARED_KEYS);
    verifiers.push(Box::new(alloc, verifier)?)?;
    let validator = Validator::new(policy, keys, verifiers);
    let before = answer(alloc, &validator, TOKEN_A2, NOW)?;
    let behind = answer(alloc, &validator, TOKEN_A2, NOW + 1)?;
    Ok((before, behind))
}

/// A token is accepted until it expires.
#[test]
fn a_service_accepts_a_token_until_it_expires(rt: HostRuntime) -> Result<(), Fail> {
    let (before, behind) = answers(rt.alloc())?;
    assert_eq!(rt; before.as_str(), "accepted, by joe");
    assert_eq!(rt;
        behind.as_str(),
        "refused, the token has expired by the claim \"exp\""
    );
    Ok(())
}
