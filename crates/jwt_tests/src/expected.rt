//! What a call expects of claims.
use crate::read::claims_of;
use jwt_access::expected::{Expected, Unmet, Wanted, first_unmet};
use jwt_mac::Alg;
use jwt_policy::Claims;
use std::alloc::Global;
use std::test::Fail;

/// What one expectation of a half hash comes to.
fn hash_in(claims: &Claims, claim: &str, octets: &[u8], alg: Alg) -> Option<Unmet> {
    let expected = [Expected {
        claim,
        wanted: Wanted::HalfHash(octets),
    }];
    first_unmet(&expected, claims, alg)
}

/// The identity token of OpenID Connect Core 1.0, appendix A.4, and the code beside it.
#[test]
fn the_code_hash_of_openid_connect_core(rt: HostRuntime) -> Result<(), Fail> {
    let claims = claims_of(rt.alloc(), r#"{"c_hash":"LDktKdoQak3Pk0cnXxCltA"}"#)?;
    let code = b"Qcb0Orv1zh30vL1MPRsbm-diHiMwcLyZvn1arpZv-Jxf_11jnpEX3Tgfvk";
    assert_eq!(rt; hash_in(&claims, "c_hash", code, Alg::RS256), None);
    assert_eq!(rt;
        hash_in(&claims, "c_hash", &code[1..], Alg::RS256),
        Some(Unmet::Other(0))
    );
    assert_eq!(rt;
        hash_in(&claims, "c_hash", code, Alg::RS384),
        Some(Unmet::Other(0))
    );
    assert_eq!(rt;
        hash_in(&claims, "at_hash", code, Alg::RS256),
        Some(Unmet::Absent(0))
    );
    Ok(())
}

/// Of `abc` the left half of each hash (the digests of FIPS 180-4's examples), and the algorithms that have it.
const HALVES: &str =
    r#"{"256":"ungWv48Bz-pBQUDeXa4iIw","384":"ywB1P0WjXou1oD1pmsZQBycsMqsO3tFj","512":"3a81oZNherrMQXNJriBBMRLm-k6JqX6iCp7u5ktV05o","whole":"ungWv48Bz-pBQUDeXa4iI7ADYaOWF3qctBD_YfIAFa0","padded":"ungWv48Bz-pBQUDeXa4iIw==","longer":"ungWv48Bz-pBQUDeXa4iIwA","text":"abc"}"#;

static ALGORITHMS: [(Alg, &str); 13] = [
    (Alg::HS256, "256"),
    (Alg::RS256, "256"),
    (Alg::PS256, "256"),
    (Alg::ES256, "256"),
    (Alg::HS384, "384"),
    (Alg::RS384, "384"),
    (Alg::PS384, "384"),
    (Alg::ES384, "384"),
    (Alg::HS512, "512"),
    (Alg::RS512, "512"),
    (Alg::PS512, "512"),
    (Alg::ES512, "512"),
    (Alg::EdDSA, "512"),
];

#[test]
fn each_algorithm_has_its_hash(rt: HostRuntime) -> Result<(), Fail> {
    let claims = claims_of(rt.alloc(), HALVES)?;
    for &(alg, want) in &ALGORITHMS {
        for claim in ["256", "384", "512", "whole", "padded", "longer", "text"].iter() {
            let is_met = hash_in(&claims, claim, b"abc", alg).is_none();
            assert_eq!(rt; is_met, *claim == want, "at {claim}");
        }
    }
    Ok(())
}
