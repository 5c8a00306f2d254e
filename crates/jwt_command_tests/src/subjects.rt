//! The document that a run of the command refuses.
use crate::runs::{refused_by, row_of};
use jwt_command::documents::Held;
use jwt_support::examples::{HS256, filled};
use std::test::Fail;

/// Runs, each with the document that it refuses, and what was read of it. Names in angle brackets are those of [`filled`].
static ROWS: [&str; 13] = [
    r#"jwt verify --now 1300819379|[]<LF>{"keys":[]}<LF>e30.e30.e30|policy|[]"#,
    r#"jwt verify --now 1300819379|{"algs":["HS256"]}<LF>[7]<LF>e30.e30.e30|keys|[7]"#,
    r#"jwt verify --now 1300819379|{"algs":["HS256"]}<LF>{"keys":[]}<LF>e30.e30.<LF>|token|e30.e30.<LF>"#,
    r#"jwt verify --now 1300819379|{"algs":["HS256"],"limit":3}<LF>{"keys":[]}<LF>e30.e30.e30|token|e30."#,
    r#"jwt verify --now 1300819379 --json|{"algs":["HS256"]}<LF>{"keys":[]}<LF>{"payload":}|token|{"payload":}"#,
    r#"jwt keys|{"keys":7}<LF>|keys|{"keys":7}<LF>"#,
    r#"jwt keys|{"keys":[]}||"#,
    "jwt issue --alg HS256|7<LF>{}|keys|7",
    r#"jwt issue --alg HS256|{"keys":[]}<LF>{"exp":"x"}||"#,
    "jwt show|e30|token|e30",
    "jwt show --limit 2|e30.e30.|token|e30",
    "jwt show --pretty|{|token|{",
    "jwt mac --k AAAA|e30||",
];

/// The document that is refused, and no other, is named, with what was read of it, from the input or from what is in hand.
#[test]
fn a_refused_document_is_the_subject(rt: HostRuntime) -> Result<(), Fail> {
    for text in &ROWS {
        let row = filled(rt.alloc(), text)?;
        let row = row_of(rt.alloc(), &row)?;
        let (kind, octets) = row.wanted.split_once('|').ok_or("no octets")?;
        let found = refused_by(rt.alloc(), &row.words, Held::none(), row.input)?;
        assert_eq!(rt; found.kind, kind, "at {text}");
        assert_eq!(rt; found.octets.as_slice(), octets.as_bytes(), "at {text}");
    }
    let held = Held {
        policy: Some(HS256.as_bytes()),
        keys: Some(br#"{"keys":[]}"#),
        access: Some(b"[]"),
        ..Held::none()
    };
    let words = [
        "jwt", "verify", "--now", "1", "--lines", "--policy", "p", "--keys", "k", "--access", "a",
    ];
    let found = refused_by(rt.alloc(), &words, held, "")?;
    assert_eq!(rt; found.kind, "access");
    assert_eq!(rt; found.octets.as_slice(), b"[]".as_slice());
    let words = ["jwt", "policy", "--policy", "p", "--keys", "k"];
    let held = Held {
        keys: Some(b"7"),
        ..held
    };
    let found = refused_by(rt.alloc(), &words, held, "")?;
    assert_eq!(rt; found.kind, "keys");
    assert_eq!(rt; found.octets.as_slice(), b"7".as_slice());
    let words = ["jwt", "policy", "--service", "s"];
    let held = Held {
        key: Some(b"[]"),
        ..Held::none()
    };
    let found = refused_by(rt.alloc(), &words, held, "")?;
    assert_eq!(rt; found.kind, "service");
    assert_eq!(rt; found.octets.as_slice(), b"[]".as_slice());
    Ok(())
}
