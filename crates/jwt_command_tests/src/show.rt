//! The command `show`.
use crate::runs::assert_rows;
use std::test::Fail;

static SHOWN: [&str; 4] = [
    r#"jwt show|<TOKEN_A>|unverified compact<LF>payload octets=70<LF>sig=0 alg="HS256" kid=- protected=30 unprotected=0 signature=32 input=135<LF>claims aud=- exp=1300819380 iat=- iss="joe" jti=- nbf=- sub=-|0"#,
    "jwt show||refused Empty|1",
    "jwt show|e30.A.|refused Base64 part=payload|1",
    r#"jwt show|{"payload":"e30","signatures":[{"signature":""},{"header":7,"signature":""}]}|refused UnprotectedKind sig=1|1"#,
];

/// Each row of `jwt show`.
#[test]
fn show_prints_what_stands_in_a_token(rt: HostRuntime) -> Result<(), Fail> {
    assert_rows(&rt, rt.alloc(), &SHOWN)
}
