//! The command `jwk`.
use crate::runs::{assert_ran, ran, ran_holding, ran_on};
use jwt_command::documents::Held;
use jwt_support::streams::{Drip, Endless};
use jwt_text::Reader;
use std::test::Fail;

const JWK: &[&str] = &["jwt", "jwk"];

const JWK_JSON: &[&str] = &["jwt", "jwk", "--json"];

/// RFC 8410, section 10.1.
const ED25519: &str =
    "-----BEGIN PUBLIC KEY-----\nMCowBQYDK2VwAyEAGb9ECWmEzf6FQbrBZ9w7lshQhqowtrbLDFw4rXAxZuE=\n-----END PUBLIC KEY-----";

/// The same octets in DER.
static ED25519_DER: [u8; 44] = [
    0x30, 0x2a, 0x30, 0x05, 0x06, 0x03, 0x2b, 0x65, 0x70, 0x03, 0x21, 0x00, 0x19, 0xbf, 0x44, 0x09,
    0x69, 0x84, 0xcd, 0xfe, 0x85, 0x41, 0xba, 0xc1, 0x67, 0xdc, 0x3b, 0x96, 0xc8, 0x50, 0x86, 0xaa,
    0x30, 0xb6, 0xb6, 0xcb, 0x0c, 0x5c, 0x38, 0xad, 0x70, 0x31, 0x66, 0xe1,
];

/// A key of P-256 by OpenSSL.
const P256: &str =
    "-----BEGIN PUBLIC KEY-----\nMFkwEwYHKoZIzj0CAQYIKoZIzj0DAQcDQgAEE8mgl1gxMFk5BqRiHqjm8cD7jn4B\n5kPcJ1SH2vAi8XhU/cBHJkz1kjn6Avd4y6JCaW0g7OWqF7AJWNvPMTsm7Q==\n-----END PUBLIC KEY-----";

/// A key of 2,048 bits with e = 3, by `openssl rsa -RSAPublicKey_out`.
const RSA: &str =
    "-----BEGIN RSA PUBLIC KEY-----\nMIIBCAKCAQEAvU/T6lUwgXJGd4Xja9mNzZ9UHBhVs1afapXMrh5w1uuMx6Omd2qm\nMJZgRMPC2KzVJDJRg/lYCIxx3H7vlpU17gxF9y8ysf2cBkHwFQl5KudCEBc6cESS\noxenT/fGAhcQCSJDwx1v5gjSn8ex0qE25bJHBfTdnK1MTUmpcoQyV9pWGJPYeEW7\nb1r1G5dV/AcVYvkrIawrGs+O1IAzeZXr+XvFwF5g70/RTZphmEo8EJLE4njoje5A\nvKu7slIMrjbc6Qvq+xodTVxb+EGvknaOfkhT/FU2t35dnMDUVpCtn959w9SAApQf\n1j2FndGlMhLL+kSGHZAP3qQJHRvWWP5ocwIBAw==\n-----END RSA PUBLIC KEY-----";

const ED25519_JWK: &str =
    r#"{"crv":"Ed25519","kty":"OKP","x":"Gb9ECWmEzf6FQbrBZ9w7lshQhqowtrbLDFw4rXAxZuE"}"#;

const ED25519_SET: &str =
    r#"{"keys":[{"crv":"Ed25519","kty":"OKP","x":"Gb9ECWmEzf6FQbrBZ9w7lshQhqowtrbLDFw4rXAxZuE"}]}"#;

/// The keys that `keys` reads of what `jwk` printed of a file: one of P-256, one of RSA, and one of Ed25519 twice.
static READ_BACK: [&str; 4] = [
    r#"key=0 place=0 kty=EC kid="a\"b" alg="ES256" size=32 thumbprint=C745GDg5J0Fla9KOZRUMxevJXSLgHD6AyVHRrdRQyaM"#,
    r#"key=1 place=1 kty=OKP kid="a\"b" alg="ES256" size=32 thumbprint=3YZxBJ12jO3n_mXt_q-j_Z-TFP1vt-NiI3OCf-fEnHQ"#,
    r#"key=2 place=2 kty=RSA kid="a\"b" alg="ES256" size=256 thumbprint=Uq7dJ_gCf2kK6ESRKC0s2-I8IPojdVc4SWKY7dREowg"#,
    r#"key=3 place=3 kty=OKP kid="a\"b" alg="ES256" size=32 thumbprint=3YZxBJ12jO3n_mXt_q-j_Z-TFP1vt-NiI3OCf-fEnHQ"#,
];

/// Each key of a file stands in the set at its place, with the name and the algorithm that were asked for.
#[test]
fn what_jwk_prints_is_read_by_keys(rt: HostRuntime) -> Result<(), Fail> {
    let alloc = rt.alloc();
    let file = format!(in alloc; "{P256}\n{ED25519}\n{RSA}\n{ED25519}\n")?;
    let words = ["jwt", "jwk", "--kid", "a\"b", "--alg", "ES256"];
    let set = ran(alloc, &words, file.as_str())?;
    let listed = ran(alloc, &["jwt", "keys"], set.out.as_str())?;
    assert_ran(&rt, alloc, &listed, &READ_BACK, 0)
}

/// Keys in DER, and DER that is refused.
#[test]
fn jwk_takes_der(rt: HostRuntime) -> Result<(), Fail> {
    let alloc = rt.alloc();
    let found = ran_on(
        alloc,
        &["jwt", "jwk", "--der"],
        &mut Reader::new(&ED25519_DER[..]),
    )?;
    assert_ran(&rt, alloc, &found, &[ED25519_SET], 0)?;
    let bare = ["jwt", "jwk", "--der", "--bare"];
    let found = ran_on(alloc, &bare, &mut Reader::new(&ED25519_DER[..]))?;
    assert_ran(&rt, alloc, &found, &[ED25519_JWK], 0)?;
    let found = ran_on(alloc, &bare, &mut Reader::new(&ED25519_DER[..43]))?;
    assert_ran(&rt, alloc, &found, &["refused Element"], 1)?;
    // Octets of DER are no PEM.
    let found = ran_on(alloc, JWK, &mut Reader::new(&ED25519_DER[..]))?;
    assert_ran(&rt, alloc, &found, &["refused Line"], 1)
}

/// A file in hand stands in the place of the input, which isn't read then.
#[test]
fn jwk_takes_a_file_in_hand(rt: HostRuntime) -> Result<(), Fail> {
    let alloc = rt.alloc();
    let words = ["jwt", "jwk", "--file", "key.pem"];
    let held = Held {
        key: Some(ED25519.as_bytes()),
        ..Held::none()
    };
    let mut r = Drip::new(b"{", 0);
    let found = ran_holding(alloc, &words, held, &mut r)?;
    assert_ran(&rt, alloc, &found, &[ED25519_SET], 0)?;
    assert!(rt; !r.failed);
    // It couldn't be read.
    let found = ran_on(alloc, &words, &mut r)?;
    assert_ran(&rt, alloc, &found, &[r#"failed Read file="key.pem""#], 3)?;
    assert!(rt; !r.failed);
    let found = ran_on(alloc, &["jwt", "jwk", "--json", "--file", "a"], &mut r)?;
    assert_ran(
        &rt,
        alloc,
        &found,
        &[r#"{"verdict":"failed","fault":"Read","file":"a"}"#],
        3,
    )
}

/// A read that fails is told as such.
#[test]
fn a_read_of_jwk_that_fails_ends_with_status_3(rt: HostRuntime) -> Result<(), Fail> {
    let alloc = rt.alloc();
    let found = ran_on(alloc, JWK, &mut Drip::new(b"-----BEGIN", 7))?;
    assert_ran(&rt, alloc, &found, &["failed Read"], 3)?;
    let found = ran_on(alloc, JWK_JSON, &mut Drip::new(b"-----BEGIN", 7))?;
    assert_ran(
        &rt,
        alloc,
        &found,
        &[r#"{"verdict":"failed","fault":"Read"}"#],
        3,
    )
}

/// The key set of a secret of the octets 0 to 31.
const SET_OF_32: &str =
    r#"{"keys":[{"alg":"HS256","k":"AAECAwQFBgcICQoLDA0ODxAREhMUFRYXGBkaGxwdHh8","kid":"WqjPPRvAP8oYbAqCwMErhzTg-Quaz-vLx_cef07yhOs","kty":"oct"}]}"#;

/// The JWK of a secret of zeros alone.
const ZEROS: &str =
    r#"{"alg":"HS256","k":"AAAAAAAAAAAAAAAAAAAAAAAAAAAAAAAAAAAAAAAAAAA","kid":"9nnxVaRYos6pwySYZALWRL64fgG5CMX9No3tAqd5urU","kty":"oct"}"#;

/// A new secret: how many octets the random source gave, its algorithm, the status, and what is printed.
static SECRETS: [(usize, &str, u8, &str); 7] = [
    (32, "HS256", 0, SET_OF_32),
    (
        48,
        "HS384",
        0,
        r#"{"keys":[{"alg":"HS384","k":"AAECAwQFBgcICQoLDA0ODxAREhMUFRYXGBkaGxwdHh8gISIjJCUmJygpKissLS4v","kid":"HeT5V2LCp6E2-0VI3-gT8sbre9L0I-DoroxqST1ZilU","kty":"oct"}]}"#,
    ),
    (
        64,
        "HS512",
        0,
        r#"{"keys":[{"alg":"HS512","k":"AAECAwQFBgcICQoLDA0ODxAREhMUFRYXGBkaGxwdHh8gISIjJCUmJygpKissLS4vMDEyMzQ1Njc4OTo7PD0-Pw","kid":"C78xEqPp1b_LswE8KyDQ_0WikUVN-jmDtHmYDwUNRpw","kty":"oct"}]}"#,
    ),
    // Fewer than are asked for, by one and all.
    (31, "HS256", 3, "failed Random"),
    (63, "HS512", 3, "failed Random"),
    (0, "HS256", 3, "failed Random"),
    (64, "HS256", 3, "failed Random"),
];

/// Nothing is read.
#[test]
fn a_new_secret_is_what_the_random_source_gave(rt: HostRuntime) -> Result<(), Fail> {
    let alloc = rt.alloc();
    let mut octets = [0_u8; 64];
    for at in 0..64_u8 {
        octets[at as usize] = at;
    }
    for &(given, alg, status, prints) in &SECRETS {
        let held = Held {
            random: octets.get(..given),
            ..Held::none()
        };
        let mut r = Drip::new(b"{", 0);
        let found = ran_holding(alloc, &["jwt", "jwk", "--new", alg], held, &mut r)?;
        assert_ran(&rt, alloc, &found, &[prints], status)?;
        assert!(rt; !r.failed);
    }
    Ok(())
}

/// Secrets of files: how many octets a file holds, their algorithm, and with what the answer begins.
static KEPT: [(usize, &str, &str); 8] = [
    (32, "HS256", SET_OF_32),
    (
        64,
        "HS256",
        r#"{"keys":[{"alg":"HS256","k":"AAECAwQFBgcICQoLDA0ODxAREhMUFRYXGBkaGxwdHh8gISIjJCUmJygpKissLS4vMDEyMzQ1Njc4OTo7PD0-Pw","kid":"C78xEqPp1b_LswE8KyDQ_0WikUVN-jmDtHmYDwUNRpw","kty":"oct"}]}"#,
    ),
    (4_096, "HS512", r#"{"keys":[{"alg":"HS512","k":"AAECAwQF"#),
    (31, "HS256", "refused KeySize"),
    (47, "HS384", "refused KeySize"),
    (63, "HS512", "refused KeySize"),
    (0, "HS256", "refused KeySize"),
    (4_097, "HS256", "refused KeySize"),
];

/// A secret of a file is that of its octets, where they are a key for the algorithm. Nothing else is read, and a file that isn't in hand can't be.
#[test]
fn a_kept_secret_is_that_of_the_file(rt: HostRuntime) -> Result<(), Fail> {
    let alloc = rt.alloc();
    let mut octets: Vec<u8> = Vec::new(alloc);
    for at in 0..4_097_u32 {
        octets.push((at % 256) as u8)?;
    }
    for &(count, alg, begins) in &KEPT {
        let held = Held {
            key: octets.as_slice().get(..count),
            ..Held::none()
        };
        let mut r = Drip::new(b"{", 0);
        let words = ["jwt", "jwk", "--secret", "key", "--alg", alg];
        let found = ran_holding(alloc, &words, held, &mut r)?;
        let status = if begins.starts_with("refused") { 1 } else { 0 };
        assert!(rt;
            found.out.as_str().starts_with(begins) && found.status == status,
            "at {count} {alg}"
        );
        assert!(rt; !r.failed);
    }
    let words = ["jwt", "jwk", "--secret", "key", "--alg", "HS256", "--json"];
    let found = ran_holding(alloc, &words, Held::none(), &mut Reader::new(&b""[..]))?;
    assert_ran(
        &rt,
        alloc,
        &found,
        &[r#"{"verdict":"failed","fault":"Read","file":"key"}"#],
        3,
    )
}

/// A secret is made of the random source's octets alone, or not at all.
#[test]
fn a_new_secret_is_bare_or_not_made(rt: HostRuntime) -> Result<(), Fail> {
    let alloc = rt.alloc();
    let held = Held {
        random: Some(&[0_u8; 32]),
        ..Held::none()
    };
    let words = ["jwt", "jwk", "--new", "HS256", "--bare"];
    let found = ran_holding(alloc, &words, held, &mut Reader::new(&b""[..]))?;
    assert_ran(&rt, alloc, &found, &[ZEROS], 0)?;
    // No random source is at hand.
    let found = ran_on(
        alloc,
        &["jwt", "jwk", "--json", "--new", "HS512"],
        &mut Endless::new(),
    )?;
    assert_ran(
        &rt,
        alloc,
        &found,
        &[r#"{"verdict":"failed","fault":"Random"}"#],
        3,
    )
}

/// Run with each allocation refused in turn; one may be that of what is printed.
#[test]
fn a_refused_growth_makes_no_secret(rt: HostRuntime) -> Result<(), Fail> {
    let held = Held {
        random: Some(&[0_u8; 32]),
        ..Held::none()
    };
    let words = ["jwt", "jwk", "--new", "HS256", "--bare"];
    let found = ran_holding(rt.alloc(), &words, held, &mut Reader::new(&b""[..]))?;
    let is_right = match found.status {
        0 => found.out.strip_suffix("\n") == Some(ZEROS),
        4 => found.out.as_str() == "failed OutOfMemory\n",
        status => status == 3 && found.out.is_empty(),
    };
    assert!(rt; is_right);
    Ok(())
}
