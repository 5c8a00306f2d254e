//! Access rules.
use crate::asserted::holds;
use crate::read::claims_of;
use jwt_access::{AccessFault, AccessRule, Moment};
use std::alloc::Global;
use std::test::Fail;

/// The rule of a document that is read.
fn rule_of(alloc: Global, document: &str) -> Result<AccessRule, Fail> {
    Ok(
        AccessRule::read(alloc, document.as_bytes())
            .ok()
            .ok_or("no rule")?,
    )
}

/// Whether a denial and a fault are told in these words.
fn are_told(alloc: Global) -> Result<bool, Fail> {
    let claims = claims_of(alloc, "{}")?;
    let rule = rule_of(alloc, r#"{"scopes":["a"]}"#)?;
    let moment = Moment {
        now: 1_000,
        leeway: 0,
    };
    let denial = rule.denial(&claims, moment).ok_or("no denial")?;
    let denied = format!(in alloc; "{denial}")?;
    let fault = AccessRule::read(alloc, b"{\"a\":1}")
        .err()
        .ok_or("no fault")?;
    let refused = format!(in alloc; "{fault}")?;
    Ok(
        denied.as_str() == "the scope \"a\" is not granted"
            && refused.as_str() == "the member \"a\" is unknown, or of another kind",
    )
}

/// Each fault and each denial has its name and what it is about.
#[test]
fn faults_and_denials_are_printed(rt: HostRuntime) -> Result<(), Fail> {
    holds(&rt, are_told(rt.alloc())?);
    Ok(())
}

/// A rule that says something about everything.
const WHOLE: &str =
    r#"{"scopes":["read","write"],"scope_claim":"/a~1b/scp","claims":{"/realm_access/roles":["editor",7,true],"azp":["gateway"]},"absent":["nonce"],"only":{"aud":["a","b"]},"objects":["events","/a/b"],"ages":{"auth_time":300},"ascii":{"sub":255}}"#;

/// Whether a rule is read, or memory was refused.
fn is_read_or_lacks(alloc: Global) -> bool {
    match &AccessRule::read(alloc, WHOLE.as_bytes()) {
        Ok(rule) => rule.scopes().len() == 2 && rule.scope_claim() == "/a~1b/scp",
        Err(fault) => matches!(fault, AccessFault::OutOfMemory),
    }
}

/// Whether a rule is refused for a claim that it names, or memory was refused.
fn is_refused_or_lacks(alloc: Global) -> bool {
    match &AccessRule::read(alloc, br#"{"claims":{"azp":["gateway",1.5]}}"#) {
        Ok(_) => false,
        Err(AccessFault::Claim(name)) => name.text() == "azp",
        Err(fault) => matches!(fault, AccessFault::OutOfMemory),
    }
}

/// Run with each allocation refused in turn.
#[test]
fn a_refused_growth_is_no_rule(rt: HostRuntime) {
    let alloc = rt.alloc();
    holds(&rt, is_read_or_lacks(alloc));
    holds(&rt, is_refused_or_lacks(alloc));
}
