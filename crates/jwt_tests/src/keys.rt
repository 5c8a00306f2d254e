//! Key sets.
use crate::asserted::holds;
use jwt_keys::{KeySet, KeysFault, Skip, SkipReason};
use jwt_mac::KeyView;
use jwt_support::examples::{RSA_THUMBPRINT, key_set};
use jwt_support::texts::repeated;
use std::alloc::Global;
use std::process::Abort;
use std::test::Fail;

/// The thumbprint of the secret of one zero octet.
const OCT_THUMBPRINT: &str = "xoNKolCCOwo3X8anKSSJQKMilUpNMW2KQv6Md8OcdL0";

/// Five entries that are skipped, and a readable one.
const MIXED: &str =
    r#"{"keys":[{"kty":"XYZ"},{"kty":"oct"},{"kty":"oct","k":"AA=="},{"kty":"oct","k":""},7,{"kty":"oct","k":"AA"}]}"#;

/// Why the five are skipped.
const MIXED_SKIPS: [SkipReason; 5] = [
    SkipReason::KtyUnknown,
    SkipReason::MemberMissing,
    SkipReason::Base64,
    SkipReason::Length,
    SkipReason::NotObject,
];

/// Whether each entry that is skipped has its place and its reason.
fn are_skipped(skips: &[Skip]) -> bool {
    for (place, skip) in skips.iter().enumerate() {
        if skip.place as usize != place || Some(&skip.reason) != MIXED_SKIPS.get(place) {
            return false;
        }
    }
    skips.len() == MIXED_SKIPS.len()
}

/// Whether the one key of the set is the secret at the last place.
fn has_one_secret(keys: &KeySet) -> bool {
    match keys.iter().next() {
        Some(key) => {
            key.place() == 5 && matches!(key.view(), KeyView::Oct { k } if k == [0u8].as_slice())
        }
        None => false,
    }
}

/// Whether the entries that can't be read are skipped, and the other is key 0.
fn is_mixed(keys: &KeySet) -> bool {
    are_skipped(keys.skipped())
        && keys.len() == 1
        && !keys.is_empty()
        && keys.key(1).is_none()
        && has_one_secret(keys)
}

/// A key's number counts the readable entries, its place all of them.
#[test]
fn unreadable_entries_are_skipped_and_readable_ones_numbered(rt: HostRuntime) -> Result<(), Fail> {
    let keys = KeySet::read(rt.alloc(), MIXED.as_bytes())?;
    let mixed = is_mixed(&keys);
    holds(&rt, mixed);
    Ok(())
}

const MISSING: Option<SkipReason> = Some(SkipReason::MemberMissing);

const KIND: Option<SkipReason> = Some(SkipReason::MemberKind);

/// Entries, and why each is skipped, if it is.
static REASONS: [(&str, Option<SkipReason>); 8] = [
    ("[]", Some(SkipReason::NotObject)),
    (r#"{"kty":7}"#, KIND),
    (r#"{"kty":"OCT","k":"AA"}"#, Some(SkipReason::KtyUnknown)),
    (r#"{"kty":"OKP","crv":"Ed25519"}"#, MISSING),
    (
        r#"{"kty":"OKP","crv":"X25519","x":"AA"}"#,
        Some(SkipReason::CrvUnknown),
    ),
    (
        r#"{"kty":"EC","crv":"P-256","x":"AA","y":"AB"}"#,
        Some(SkipReason::Base64),
    ),
    (
        r#"{"kty":"OKP","crv":"Ed25519","x":"AA"}"#,
        Some(SkipReason::Length),
    ),
    (r#"{"kty":"RSA","n":"AAEB","e":"AQAB"}"#, None),
];

/// Why the entry is skipped, and whether the key set has no key.
fn reason_of(alloc: Global, entry: &str) -> Result<(Option<SkipReason>, bool), KeysFault> {
    let keys = key_set(alloc, entry)?;
    let reason = keys.skipped().first().map(|skip| skip.reason);
    Ok((reason, keys.is_empty()))
}

/// Asserts that each entry is skipped for its reason, or is a key.
fn assert_reasons(
    rt: &impl Abort,
    alloc: Global,
    rows: &[(&str, Option<SkipReason>)],
) -> Result<(), Fail> {
    for &(entry, reason) in rows {
        let found = reason_of(alloc, entry)?;
        assert!(rt; found == (reason, reason.is_some()), "{entry}");
    }
    Ok(())
}

/// An entry is skipped for the first reason that holds.
#[test]
fn the_first_reason_of_an_entry(rt: HostRuntime) -> Result<(), Fail> {
    assert_reasons(&rt, rt.alloc(), &REASONS)
}

/// Documents, and why each is refused, if it is.
static DOCUMENTS: [(&str, Option<KeysFault>); 5] = [
    ("", Some(KeysFault::Json)),
    ("[]", Some(KeysFault::NotKeySet)),
    (r#"{"keys":7}"#, Some(KeysFault::NotKeySet)),
    (r#"{"keys":[],"keys":[]}"#, Some(KeysFault::NameTwice)),
    (r#"{"keys":[],"more":7}"#, None),
];

/// Asserts that each document is refused for its fault, or is read.
fn assert_documents(
    rt: &impl Abort,
    alloc: Global,
    rows: &[(&str, Option<KeysFault>)],
) -> Result<(), Fail> {
    for &(text, fault) in rows {
        assert_eq!(rt; KeySet::read(alloc, text.as_bytes()).err(), fault, "{text}");
    }
    Ok(())
}

/// A document without a list `keys` is no key set (RFC 7517, section 5.1).
#[test]
fn a_document_that_is_no_key_set_is_refused(rt: HostRuntime) -> Result<(), Fail> {
    assert_documents(&rt, rt.alloc(), &DOCUMENTS)
}

/// A key set nests as deep as any text that is read, and no deeper.
#[test]
fn a_document_nests_127_deep(rt: HostRuntime) -> Result<(), Fail> {
    let alloc = rt.alloc();
    for (lists, fault) in [(126, None), (127, Some(KeysFault::Json))] {
        let opened = repeated(alloc, "[", "", lists)?;
        let closed = repeated(alloc, "]", "", lists)?;
        let text = format!(in alloc; r#"{{"keys":[],"x":{opened}{closed}}}"#)?;
        assert_eq!(rt;
            KeySet::read(alloc, text.as_bytes()).err(),
            fault,
            "{lists}"
        );
    }
    Ok(())
}

/// How many entries are skipped of a key set of so many that are no objects, or why it is refused.
fn skipped_of(alloc: Global, count: usize) -> Result<usize, KeysFault> {
    let Ok(entries) = repeated(alloc, "7", ",", count) else {
        return Err(KeysFault::OutOfMemory);
    };
    let keys = key_set(alloc, &entries)?;
    Ok(keys.skipped().len())
}

/// One entry more is refused.
#[test]
fn a_key_set_has_at_most_1024_entries(rt: HostRuntime) -> Result<(), Fail> {
    assert_eq!(rt; skipped_of(rt.alloc(), 1024), Ok(1024));
    assert_eq!(rt; skipped_of(rt.alloc(), 1025), Err(KeysFault::TooManyKeys));
    Ok(())
}

/// Why a secret of so many characters in base64url is skipped, if it is.
fn secret_fault(alloc: Global, characters: usize) -> Result<Option<SkipReason>, Fail> {
    let k = repeated(alloc, "A", "", characters)?;
    let entry = format!(in alloc; r#"{{"kty":"oct","k":"{k}"}}"#)?;
    let keys = key_set(alloc, &entry)?;
    Ok(keys.skipped().first().map(|skip| skip.reason))
}

/// A longer secret is skipped for its length.
#[test]
fn a_secret_has_at_most_4096_octets(rt: HostRuntime) -> Result<(), Fail> {
    assert_eq!(rt; secret_fault(rt.alloc(), 5462)?, None);
    assert_eq!(rt; secret_fault(rt.alloc(), 5463)?, Some(SkipReason::Length));
    Ok(())
}

/// Why an empty key set behind so many spaces is refused, if it is.
fn spaces_fault(alloc: Global, spaces: usize) -> Result<Option<KeysFault>, Fail> {
    let mut document = repeated(alloc, " ", "", spaces)?;
    document.push_str(r#"{"keys":[]}"#)?;
    Ok(KeySet::read(alloc, document.as_bytes()).err())
}

/// One octet more is refused before anything is read.
#[test]
fn a_document_has_at_most_4194304_octets(rt: HostRuntime) -> Result<(), Fail> {
    assert_eq!(rt; spaces_fault(rt.alloc(), 4_194_293)?, None);
    assert_eq!(rt;
        spaces_fault(rt.alloc(), 4_194_294)?,
        Some(KeysFault::TooLong)
    );
    Ok(())
}

/// Keys, and the thumbprint of each (RFC 7638).
static THUMBPRINTS: [(&str, &str); 4] = [
    // RFC 7638, section 3.1
    (
        r#"{"kty":"RSA","n":"<RSA_N>","e":"AQAB","alg":"RS256","kid":"2011-04-29"}"#,
        RSA_THUMBPRINT,
    ),
    // RFC 8037, appendix A.3
    (
        r#"{"x":"<ED25519_X>","kty":"OKP","crv":"Ed25519"}"#,
        "kPrK_qmxVWaYVA9wwBF6Iuo3vVzz7TxHCTwXBygrS4k",
    ),
    // RFC 9449, section 6.1
    (
        r#"{"kty":"EC","x":"l8tFrhx-34tV3hRICRDY9zCkDlpBhF42UQUfWVAWBFs","y":"9VE4jf_Ok_o64zbTTlcuNJajHmt6v9TDVrU0CdvGRDA","crv":"P-256"}"#,
        "0ZcOCORZNYy-DWpqq30jZyJGHTN0d2HglBV3uiguA4I",
    ),
    // the digest by another implementation of SHA-256
    (r#"{"k":"AA","kty":"oct"}"#, OCT_THUMBPRINT),
];

/// Whether the key has this thumbprint.
fn has_thumbprint(alloc: Global, entry: &str, thumbprint: &str) -> bool {
    match key_set(alloc, entry) {
        Ok(keys) => match keys.key(0) {
            Some(key) => key.thumbprint() == thumbprint.as_bytes(),
            None => false,
        },
        Err(_) => false,
    }
}

/// Asserts that each key has its thumbprint.
fn assert_thumbprints(rt: &impl Abort, alloc: Global, rows: &[(&str, &str)]) -> Result<(), Fail> {
    for &(entry, thumbprint) in rows {
        assert!(rt; has_thumbprint(alloc, entry, thumbprint), "{entry}");
    }
    Ok(())
}

/// The thumbprints that RFC 7638 and RFC 8037 print, and one of each other kind of key.
#[test]
fn thumbprints_of_the_standards(rt: HostRuntime) -> Result<(), Fail> {
    assert_thumbprints(&rt, rt.alloc(), &THUMBPRINTS)
}

/// Two secrets of one `kid` with another between them, an entry that is skipped, and the public key of RFC 7638, section 3.1, without
/// its `kid`.
const SEARCHED: &str =
    r#"{"kty":"oct","k":"AA","kid":"a"},{"kty":"oct","k":"AA","kid":"b"},7,{"kty":"oct","k":"AA","kid":"a"},{"kty":"RSA","n":"<RSA_N>","e":"AQAB","alg":"RS256"}"#;

/// A `kid`, whether a thumbprint is one too, where the search begins, and the key that is found.
static SEARCHES: [(&str, bool, u32, Option<u32>); 11] = [
    ("a", false, 0, Some(0)),
    ("a", false, 1, Some(2)),
    ("a", true, 2, Some(2)),
    ("a", false, 3, None),
    ("a", false, u32::MAX, None),
    ("b", true, 0, Some(1)),
    ("", true, 0, None),
    (RSA_THUMBPRINT, true, 0, Some(3)),
    (RSA_THUMBPRINT, false, 0, None),
    (RSA_THUMBPRINT, true, 4, None),
    (OCT_THUMBPRINT, true, 0, None),
];

/// The number of the key that is found, where it goes by the name.
fn found_number(keys: &KeySet, kid: &str, thumb: bool, from: u32) -> Option<u32> {
    match keys.named(kid, thumb, from) {
        Some((number, key)) if key.is_named(kid, thumb) => Some(number),
        _ => None,
    }
}

/// The first row that a search in the keys doesn't meet, by the index or without it.
fn unmet_search(keys: &KeySet) -> Option<(&'static str, bool, u32)> {
    for &(kid, thumb, from, number) in &SEARCHES {
        if keys.with_kid(kid, thumb, from) != number
            || keys.search_kid(kid, thumb, from) != number
            || found_number(keys, kid, thumb, from) != number
        {
            return Some((kid, thumb, from));
        }
    }
    None
}

/// Looked up by `kid`, the keys are those that a search through all of them finds, in the same order.
#[test]
fn the_index_and_the_plain_search_find_the_same_keys(rt: HostRuntime) -> Result<(), Fail> {
    let keys = key_set(rt.alloc(), SEARCHED)?;
    let unmet = unmet_search(&keys);
    assert_eq!(rt; unmet, None);
    Ok(())
}

/// Whether the key set is read, or memory was refused.
fn is_read_or_lacks(alloc: Global) -> bool {
    match KeySet::read(alloc, MIXED.as_bytes()) {
        Ok(keys) => is_mixed(&keys),
        Err(fault) => fault == KeysFault::OutOfMemory,
    }
}

/// Run with each allocation refused in turn.
#[test]
fn a_refused_growth_is_out_of_memory(rt: HostRuntime) {
    holds(&rt, is_read_or_lacks(rt.alloc()));
}
