use crate::asserted::holds;
use jwt_request::Challenge::{
    InsufficientScope, InvalidProof, InvalidRequest, InvalidToken, Realm, Scopes, Silent, UseNonce,
};
use jwt_request::{
    Challenge, Credentials, Outcome, Reply, Scheme, Schemes, Texts, credentials_in, credentials_of,
    is_quotable, reply_to,
};
use std::alloc::Global;
use std::process::Abort;
use std::test::Fail;

const BEARER: Schemes = Schemes {
    bearer: true,
    dpop: false,
};

const DPOP: Schemes = Schemes {
    bearer: false,
    dpop: true,
};

const BOTH: Schemes = Schemes {
    bearer: true,
    dpop: true,
};

const NEITHER: Schemes = Schemes {
    bearer: false,
    dpop: false,
};

/// Stops where what a header's value gives isn't what stands behind the bar in its line, or where it gives anything by schemes that aren't taken.
fn assert_lines(
    rt: &impl Abort,
    alloc: Global,
    taken: Schemes,
    others: Schemes,
    table: &str,
) -> Result<(), Fail> {
    for line in table.lines() {
        let (value, wanted) = line.split_once('|').ok_or("no bar")?;
        let value = value.as_bytes();
        let found = format!(in alloc; "{:?}", credentials_of(taken, value))?;
        let absent = credentials_of(others, value) == Credentials::Absent;
        assert!(rt; absent && found.as_str() == wanted, "{line}");
    }
    Ok(())
}

/// Values of the header, and what each gives where tokens of the scheme Bearer are taken.
const OF_BEARER: &str = "Bearer a.b.c|Token(Bearer, 7, 12)
bearer a.b.c|Token(Bearer, 7, 12)
BEARER a.b.c|Token(Bearer, 7, 12)
Bearer  a.b.c|Token(Bearer, 8, 13)
 \tBearer a.b.c \t|Token(Bearer, 9, 14)
Bearer a.b.c=|Token(Bearer, 7, 13)
Bearer -._~+/9Zz==|Token(Bearer, 7, 18)
|Absent
Basic YW5uOmFubg==|Absent
Bearers a.b.c|Absent
Beare a.b.c|Absent
a.b.c|Absent
Bearer\ta.b.c|Absent
Bearera.b.c|Absent
Bearer|Malformed(Bearer)
Bearer |Malformed(Bearer)
Bearer a b|Malformed(Bearer)
Bearer a,b|Malformed(Bearer)
Bearer \"a.b.c\"|Malformed(Bearer)
Bearer a=.b.c|Malformed(Bearer)
Bearer ==|Malformed(Bearer)
Bearer %a|Malformed(Bearer)
Bearer \u{e9}a|Malformed(Bearer)
Bearer a.b\tc|Malformed(Bearer)
DPoP a.b.c|Absent";

#[test]
fn a_header_carries_a_token(rt: HostRuntime) -> Result<(), Fail> {
    assert_lines(&rt, rt.alloc(), BEARER, NEITHER, OF_BEARER)
}

/// Values of the header, and what each gives where tokens of the scheme DPoP are taken.
const OF_DPOP: &str = "DPoP a.b.c|Token(Dpop, 5, 10)
dpop a.b.c|Token(Dpop, 5, 10)
\tDPOP  a.b.c= |Token(Dpop, 7, 13)
DPoP|Malformed(Dpop)
DPoP a,b|Malformed(Dpop)
DPoP a.b.c, DPoP a.b.c|Malformed(Dpop)
DPoP Bearer a.b.c|Malformed(Dpop)
DPo a.b.c|Absent
DPoPs a.b.c|Absent
DPoP\ta.b.c|Absent
D-PoP a.b.c|Absent
|Absent";

#[test]
fn a_header_carries_a_token_that_is_bound_to_a_key(rt: HostRuntime) -> Result<(), Fail> {
    assert_lines(&rt, rt.alloc(), DPOP, BEARER, OF_DPOP)?;
    assert_lines(&rt, rt.alloc(), BOTH, BEARER, OF_DPOP)
}

/// Stops where other credentials are found.
fn same(rt: &impl Abort, found: Credentials, wanted: Credentials) {
    assert_eq!(rt; found, wanted);
}

#[test]
fn each_scheme_is_taken_beside_the_other(rt: HostRuntime) {
    let bearer = Credentials::Token(Scheme::Bearer, 7, 12);
    let malformed = Credentials::Malformed(Scheme::Bearer);
    same(&rt, credentials_of(BOTH, b"Bearer a.b.c"), bearer);
    same(
        &rt,
        credentials_of(DPOP, b"Bearer a.b.c"),
        Credentials::Absent,
    );
    same(&rt, credentials_of(BOTH, b"Bearer"), malformed);
    same(&rt, credentials_of(BOTH, b"Bearer \xe9a"), malformed);
    same(
        &rt,
        credentials_of(BOTH, b"Basic a.b.c"),
        Credentials::Absent,
    );
    holds(
        &rt,
        BEARER.takes(Scheme::Bearer) && !BEARER.takes(Scheme::Dpop),
    );
    holds(&rt, DPOP.takes(Scheme::Dpop) && !DPOP.takes(Scheme::Bearer));
}

#[test]
fn several_headers_are_not_read(rt: HostRuntime) {
    let token = Credentials::Token(Scheme::Bearer, 7, 12);
    holds(&rt, credentials_in(BOTH, 2, b"Bearer a.b.c").is_none());
    holds(&rt, credentials_in(BOTH, 1, b"Bearer a.b.c") == Some(token));
    holds(
        &rt,
        credentials_in(BOTH, 0, b"Bearer a.b.c") == Some(Credentials::Absent),
    );
}

/// Each outcome with its status, the challenge of the scheme that was shown, and that of another one.
static REPLIES: [(Outcome, u16, Challenge, Challenge); 11] = [
    (Outcome::Accepted, 200, Silent, Silent),
    (Outcome::Several, 400, InvalidRequest, InvalidRequest),
    (Outcome::Absent, 401, Realm, Realm),
    (Outcome::Malformed, 401, InvalidToken, Realm),
    (Outcome::Refused, 401, InvalidToken, Realm),
    (Outcome::ScopeMissing, 403, Scopes, Silent),
    (Outcome::Denied, 403, InsufficientScope, Silent),
    (Outcome::ProofRefused, 401, InvalidProof, Realm),
    (Outcome::NonceWanted, 401, UseNonce, Realm),
    (Outcome::KeysTooOld, 503, Silent, Silent),
    (Outcome::Unanswered, 500, Silent, Silent),
];

/// What is answered with these challenges, of which one is that of Bearer, and the other that of DPoP.
fn reply_of(status: u16, bearer: Challenge, dpop: Challenge) -> Reply {
    Reply {
        status,
        bearer,
        dpop,
    }
}

/// Whether an outcome has these replies, by the schemes that are taken and the one that was shown.
fn has_replies(outcome: Outcome, status: u16, error: Challenge, other: Challenge) -> bool {
    // a 401 would have a challenge, and where no scheme is taken there is none
    let failed = if status == 401 { 500 } else { status };
    let rows = [
        (BEARER, Some(Scheme::Bearer), status, error, Silent),
        (DPOP, Some(Scheme::Dpop), status, Silent, error),
        (BOTH, Some(Scheme::Bearer), status, error, other),
        (BOTH, Some(Scheme::Dpop), status, other, error),
        (BOTH, None, status, other, other),
        (BEARER, None, status, other, Silent),
        (BEARER, Some(Scheme::Dpop), status, other, Silent),
        (NEITHER, Some(Scheme::Bearer), failed, Silent, Silent),
    ];
    for (schemes, shown, status, bearer, dpop) in rows {
        if reply_to(schemes, shown, outcome) != reply_of(status, bearer, dpop) {
            return false;
        }
    }
    true
}

#[test]
fn each_outcome_has_its_reply(rt: HostRuntime) {
    for &(outcome, status, error, other) in &REPLIES {
        assert!(rt; has_replies(outcome, status, error, other), "{status}");
    }
}

#[test]
fn a_realm_is_quotable_or_refused(rt: HostRuntime) {
    for text in ["", "jwt", "a realm, with ~ and !"] {
        holds(&rt, is_quotable(text.as_bytes()));
    }
    for text in ["a\"b", "a\\b", "a\nb", "a\tb", "\u{7f}", "\u{e9}"] {
        holds(&rt, !is_quotable(text.as_bytes()));
    }
}

/// The challenges.
static CHALLENGES: [Challenge; 8] = [
    Silent,
    Realm,
    InvalidRequest,
    InvalidToken,
    InsufficientScope,
    Scopes,
    InvalidProof,
    UseNonce,
];

/// The text of each for Bearer, and for DPoP, a line each.
const TEXTS: &str = "|
Bearer realm=\"jwt\"|DPoP algs=\"ES256 PS256\"
Bearer error=\"invalid_request\"|DPoP algs=\"ES256 PS256\", error=\"invalid_request\"
Bearer error=\"invalid_token\"|DPoP algs=\"ES256 PS256\", error=\"invalid_token\"
Bearer error=\"insufficient_scope\"|DPoP algs=\"ES256 PS256\", error=\"insufficient_scope\"
Bearer error=\"insufficient_scope\", scope=\"read write\"|DPoP algs=\"ES256 PS256\", error=\"insufficient_scope\", scope=\"read write\"
Bearer error=\"invalid_dpop_proof\"|DPoP algs=\"ES256 PS256\", error=\"invalid_dpop_proof\"
Bearer error=\"use_dpop_nonce\"|DPoP algs=\"ES256 PS256\", error=\"use_dpop_nonce\"";

/// Whether nothing was written from here on.
fn is_untouched(out: &[u8], from: usize) -> bool {
    out.iter().skip(from).all(|it| *it == b'.')
}

/// Whether a challenge is written as this text, and nothing behind it.
fn is_written(challenge: Challenge, scheme: Scheme, wanted: &[u8]) -> bool {
    let texts = Texts {
        realm: b"jwt",
        scope: b"read write",
        algs: b"ES256 PS256",
    };
    let mut out = [b'.'; 96];
    let size = challenge.write(scheme, &texts, &mut out);
    size == Some(wanted.len()) && out.starts_with(wanted) && is_untouched(&out, wanted.len())
}

/// Stops where a challenge is written otherwise than its line says.
fn assert_written(rt: &impl Abort, table: &str, challenges: &[Challenge]) -> Result<(), Fail> {
    for (line, challenge) in table.lines().zip(challenges) {
        let (bearer, dpop) = line.split_once('|').ok_or("no bar")?;
        assert!(rt;
            is_written(*challenge, Scheme::Bearer, bearer.as_bytes()),
            "{line}"
        );
        assert!(rt;
            is_written(*challenge, Scheme::Dpop, dpop.as_bytes()),
            "{line}"
        );
    }
    Ok(())
}

#[test]
fn a_challenge_is_written(rt: HostRuntime) -> Result<(), Fail> {
    assert_written(&rt, TEXTS, &CHALLENGES)
}

/// Whether a challenge of 56 octets is written where there is so much room, and nothing where there is less.
fn needs_room(room: usize) -> bool {
    let texts = Texts {
        realm: b"",
        scope: b"a",
        algs: b"ES256",
    };
    let wanted = b"DPoP algs=\"ES256\", error=\"insufficient_scope\", scope=\"a\"";
    let mut out = [b'.'; 56];
    let size = match out.get_mut(..room) {
        Some(short) => Scopes.write(Scheme::Dpop, &texts, short),
        None => None,
    };
    if room >= wanted.len() {
        size.is_some() && out.starts_with(wanted)
    } else {
        size.is_none() && is_untouched(&out, 0)
    }
}

#[test]
fn a_challenge_that_has_no_room_is_not_written(rt: HostRuntime) {
    for room in [0, 1, 11, 16, 30, 52, 53, 54, 55, 56] {
        holds(&rt, needs_room(room));
    }
}
