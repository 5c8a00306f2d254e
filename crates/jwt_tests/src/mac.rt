//! Algorithms, budgets and HMAC.
ghost use Rattle.std.specs.Prelude.{◌≡◌};

use crate::asserted::holds;
use jwt_mac::{Alg, Budget, CountDown, CountUp, Spent, cost, hmac};
use std::test::Fail;

/// The algorithm, the key, a message in three parts, and what its tag costs.
type Vector = (Alg, &'static [u8], [&'static [u8]; 3], u64);

const JEFE: [u8; 4] = *b"Jefe";

const CASE_2: [&[u8]; 3] = [b"what do ya ", b"want ", b"for nothing?"];

const LONG_KEY: [u8; 131] = [0xaa; 131];

const CASE_6: [&[u8]; 3] = [
    b"Test Using Larger Than Block-Size Key - Hash Key First",
    b"",
    b"",
];

// Exactly a block of SHA-256.
const BLOCK_KEY: [u8; 64] = [
    0x03, 0x23, 0x35, 0x4b, 0x2b, 0x0f, 0xa5, 0xbc, 0x83, 0x7e, 0x06, 0x65, 0x77, 0x7b, 0xa6, 0x8f,
    0x5a, 0xb3, 0x28, 0xe6, 0xf0, 0x54, 0xc9, 0x28, 0xa9, 0x0f, 0x84, 0xb2, 0xd2, 0x50, 0x2e, 0xbf,
    0xd3, 0xfb, 0x5a, 0x92, 0xd2, 0x06, 0x47, 0xef, 0x96, 0x8a, 0xb4, 0xc3, 0x77, 0x62, 0x3d, 0x22,
    0x3d, 0x2e, 0x21, 0x72, 0x05, 0x2e, 0x4f, 0x08, 0xc0, 0xcd, 0x9a, 0xf5, 0x67, 0xd0, 0x80, 0xa3,
];

const TOKEN: [&[u8]; 3] = [
    b"eyJ0eXAiOiJKV1QiLA0KICJhbGciOiJIUzI1NiJ9",
    b".",
    b"eyJpc3MiOiJqb2UiLA0KICJleHAiOjEzMDA4MTkzODAsDQogImh0dHA6Ly9leGFtcGxlLmNvbS9pc19yb290Ijp0cnVlfQ",
];

/// RFC 4231, cases 2 and 6 (sections 4.3 and 4.7), and RFC 7515, appendix A.1.
static VECTORS: [Vector; 7] = [
    (Alg::HS256, &JEFE, CASE_2, 188),
    (Alg::HS384, &JEFE, CASE_2, 332),
    (Alg::HS512, &JEFE, CASE_2, 348),
    (Alg::HS256, &LONG_KEY, CASE_6, 345),
    (Alg::HS384, &LONG_KEY, CASE_6, 489),
    (Alg::HS512, &LONG_KEY, CASE_6, 505),
    (Alg::HS256, &BLOCK_KEY, TOKEN, 295),
];

/// Their tags, in hex.
static TAGS: [&str; 7] = [
    "5bdcc146bf60754e6a042426089575c75a003f089d2739839dec58b964ec3843",
    "af45d2e376484031617f78d2b58a6b1b9c7ef464f5a01b47e42ec3736322445e8e2240ca5e69e2c78b3239ecfab21649",
    "164b7a7bfcf819e2e395fbe73b56e0a387bd64222e831fd610270cd7ea2505549758bf75c05a994a6d034f65f8f0e6fdcaeab1a34d4a6b4b636e070a38bce737",
    "60e431591ee0b67f0d8a26aacbf5b77f8e0bc6213728c5140546040f0ee37f54",
    "4ece084485813e9088d2c63a041bc5b44f9ef1012a2b588f3cd11f05033ac4c60c2ef6ab4030fe8296248df163f44952",
    "80b24263c7c1a3ebb71493c1dd7be8b49b46d1f41b4aeec1121b013783f8f3526b56d037e05f2598bd0fd2215d6a1e5295e64f73f63f0aec8b915a985d786598",
    "7418dfb49799e0254ffa607dd8adbbba16d4254d69d6bff05b58055853848d79",
];

/// The vector's tag comes out, for exactly its cost and one call, and nothing is left.
fn pays<B: Budget>(b: &mut B, vector: &Vector, wanted: &[u8]) -> bool
    requires { B.calls b.old ≡ 0 }
{
    let &(alg, key, parts, cost) = vector;
    if !alg.is_hmac() {
        return false;
    }
    let Ok(tag) = hmac(b, alg, key, parts) else {
        return false;
    };
    let same = tag.octets() == wanted && tag.equals(wanted);
    same && b.octets() == cost && b.left() == 0 && b.calls() == 1
}

/// The budget is too small by one octet, and stays new.
fn refuses<B: Budget>(b: &mut B, vector: &Vector) -> bool
    requires { B.calls b.old ≡ 0 }
{
    let &(alg, key, parts, cost) = vector;
    if !alg.is_hmac() {
        return false;
    }
    let spent = match hmac(b, alg, key, parts) {
        Ok(_tag) => false,
        Err(Spent) => true,
    };
    spent && b.octets() == 0 && b.left() == cost.saturating_sub(1) && b.calls() == 0
}

/// Whether both budgets pay the vector at its cost, and refuse it one octet below.
fn is_paid_by_both(vector: &Vector, tag: &[u8]) -> bool {
    let cost = vector.3;
    let less = cost.saturating_sub(1);
    pays(&mut CountUp::new(cost), vector, tag)
        && pays(&mut CountDown::new(cost), vector, tag)
        && refuses(&mut CountUp::new(less), vector)
        && refuses(&mut CountDown::new(less), vector)
}

/// The vectors of RFC 4231, each at the cost that is stated and refused one octet below it.
#[test]
fn hmac_vectors_at_their_cost_by_both_budgets(rt: HostRuntime) -> Result<(), Fail> {
    for (vector, tag) in VECTORS.iter().zip(&TAGS) {
        let tag = hex::decode(rt.alloc(), tag.as_bytes())?;
        holds(&rt, is_paid_by_both(vector, &tag));
    }
    Ok(())
}

/// An algorithm, the lengths of key and message, and the cost.
static COSTS: [(Alg, u64, u64, Option<u64>); 11] = [
    (Alg::HS256, 19, 111, Some(271)),
    (Alg::HS256, 64, 135, Some(295)),
    (Alg::HS256, 65, 135, Some(360)),
    (Alg::HS384, 128, 135, Some(439)),
    (Alg::HS512, 129, 135, Some(584)),
    (Alg::RS256, 65, 135, Some(0)),
    (Alg::EdDSA, u64::MAX, u64::MAX, Some(0)),
    (Alg::HS256, 0, u64::MAX - 160, Some(u64::MAX)),
    (Alg::HS256, 0, u64::MAX - 159, None),
    (Alg::HS256, 0, u64::MAX, None),
    (Alg::HS256, u64::MAX, 0, None),
];

/// What a tag costs, by the lengths of the key and of the signing input (RFC 2104, section 2).
#[test]
fn costs(rt: HostRuntime) {
    for &(alg, key_len, message_len, want) in &COSTS {
        assert_eq!(rt;
            cost(alg, key_len, message_len),
            want,
            "{alg:?} {key_len} {message_len}"
        );
    }
}
