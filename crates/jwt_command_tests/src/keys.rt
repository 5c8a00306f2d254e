//! The command `keys`.
use crate::runs::assert_rows;
use std::test::Fail;

// The key of RFC 7638, section 3.1, and that of RFC 8037, appendix A.3, stand first.
static LISTS: [&str; 4] = [
    r#"jwt keys|{"keys":[{"kty":"RSA","n":"<RSA_N>","e":"AQAB","alg":"RS256","kid":"2011-04-29"}]}|key=0 place=0 kty=RSA kid="2011-04-29" alg="RS256" size=256 thumbprint=NzbLsXh8uDCcd-6MNwXF4W_7noWXFZAfHkxZsRGC9Xs|0"#,
    r#"jwt keys|{"keys":[{"kty":"OKP","crv":"Ed25519","x":"<ED25519_X>"}]}|key=0 place=0 kty=OKP kid=- alg=- size=32 thumbprint=kPrK_qmxVWaYVA9wwBF6Iuo3vVzz7TxHCTwXBygrS4k|0"#,
    r#"jwt keys|{"keys":[{"kty":"XYZ"},{"kty":"oct","k":"AA","kid":"a\n\""},{"kty":"oct"},7,{"kty":"oct","k":"AA"},{"kty":"oct","k":""}]}|skip place=0 KtyUnknown<LF>key=0 place=1 kty=oct kid="a\n\"" alg=- size=1 thumbprint=xoNKolCCOwo3X8anKSSJQKMilUpNMW2KQv6Md8OcdL0<LF>skip place=2 MemberMissing<LF>skip place=3 NotObject<LF>key=1 place=4 kty=oct kid=- alg=- size=1 thumbprint=xoNKolCCOwo3X8anKSSJQKMilUpNMW2KQv6Md8OcdL0<LF>skip place=5 Length|0"#,
    r#"jwt keys|{"keys":7}|refused Keys NotKeySet|1"#,
];

/// Each row of `jwt keys`.
#[test]
fn keys_prints_a_line_an_entry(rt: HostRuntime) -> Result<(), Fail> {
    assert_rows(&rt, rt.alloc(), &LISTS)
}
