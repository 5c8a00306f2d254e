//! The first fault of an object, by tables of its members.

ghost use Rattle.std.specs.Prelude.{◌≡◌, map, option_map};
ghost use Rattle.std.specs.List.{list_any, list_all};
ghost use Rattle.jwt_policy.specs.Texts.{is_among};
ghost use Rattle.serde_json.specs.Find.{as_str};
ghost use Rattle.jwt_document.specs.Tables.{unless, texts_ill, between, is_printable, is_origin, is_public, is_free, is_form, text_passes, is_element, element_cause, first_bad, ill_in, row_ill, is_known, unknown_in, wrong_in, fault_in, object_behind, table_fault};
ghost use Rattle.jwt_document.specs.Views.{found, ill, wrong, kind_view, row_view, table_view};

use crate::rows::{Absent, Cause, Form, Kind, Row, Within};
use jwt_mac::Alg;
use jwt_request::urls::url_of;
use jwt_text::{List, ObjectRef};

/// A fault: its cause, the member, which may be absent, and where it is about an element of a list, which one.
#[derive(Clone, Copy)]
pub(crate) struct Found<'a> {
    pub(crate) cause: Cause,
    pub(crate) within: Within,
    pub(crate) name: &'a str,
    pub(crate) element: Option<usize>,
}

/// What is wrong with a value, or with which of its elements.
#[derive(Clone, Copy)]
struct Ill {
    cause: Cause,
    element: Option<usize>,
}

/// A member that is wrong.
#[derive(Clone, Copy)]
struct Wrong<'a> {
    cause: Cause,
    name: &'a str,
    element: Option<usize>,
}

// ---- values

/// Whether the number is at least and at most so much.
fn is_between(least: u64, most: u64, value: i64) -> bool
    ensures { result ≡ between least most value }
{
    match u64::try_from(value) {
        Ok(value) => least <= value && value <= most,
        Err(_) => false,
    }
}

/// Whether each octet is printable ASCII, and neither `"` nor `\`.
fn is_printable(text: &[u8]) -> bool
    ensures { result ≡ list_all is_printable text.now }
{
    for octet in text {
        if !(32 <= *octet && *octet <= 126 && *octet != 34 && *octet != 92) {
            return false;
        }
    }
    true
}

/// Whether this is a scheme, a host and a port or none, with nothing behind them.
fn is_origin(text: &str) -> bool
    ensures { result ≡ is_origin text.now }
{
    match url_of(text.as_bytes(), true) {
        Some(url) => url.target == text.len(),
        None => false,
    }
}

/// Whether this is the name of an algorithm for public keys.
fn is_public(text: &str) -> bool
    ensures { result ≡ is_public text.now }
{
    match Alg::from_text(text) {
        Some(alg) => !alg.is_hmac(),
        None => false,
    }
}

/// Whether the claim is free for the issuer of a token of its own.
fn is_free(text: &str) -> bool
    ensures { result ≡ is_free text.now }
{
    !matches!(text, "iss" | "aud" | "iat" | "exp")
}

/// Whether the text is of this form.
fn is_form(form: Form, text: &str) -> bool
    ensures { result ≡ is_form form text.now }
{
    match form {
        Form::Any => true,
        Form::Printable => is_printable(text.as_bytes()),
        Form::Origin => is_origin(text),
        Form::PublicAlg => is_public(text),
        Form::FreeClaim => is_free(text),
    }
}

/// Whether the text is of this form, of at least and at most so many octets.
fn text_passes(form: Form, least: usize, most: usize, text: &str) -> bool
    ensures { result ≡ text_passes form least most text.now }
{
    least <= text.len() && text.len() <= most && is_form(form, text)
}

/// Whether the text is one of these.
fn is_word(words: &[&'static str], text: &str) -> bool
    ensures { result ≡ is_among (map (λ w. w.now) words.now) text.now }
{
    for word in words {
        if text == *word {
            return true;
        }
    }
    false
}

/// Whether the element of a list is of this form and not empty.
fn is_element(form: Form, text: &str) -> bool
    ensures { result ≡ is_element form text.now }
{
    1 <= text.len() && is_form(form, text)
}

/// Why the element is none of a list of texts of this form, where it is the text that is given, or no text.
fn element_cause(form: Form, element: Option<&str>) -> Option<Cause>
    ensures { result ≡ element_cause form (option_map (λ t. t.now) element.entry) }
{
    match element {
        None => Some(Cause::Kind),
        Some(text) => {
            if is_element(form, text) {
                None
            } else {
                Some(Cause::Range)
            }
        }
    }
}

/// The first element that is no text of this form, or an empty one.
#[tactic(auto, using(crate::proofs::ElementLemmas::bad_here, crate::proofs::ElementLemmas::good_here, std::proofs::lemmas::List::at_drop_all))]
fn first_bad(form: Form, list: &List<'_>) -> Option<Ill>
    ensures { option_map ill result ≡ first_bad form 0 list.now }
{
    for place in 0..list.len() {
        if let Some(cause) = element_cause(form, list.text(place)) {
            return Some(Ill {
                cause,
                element: Some(place),
            });
        }
    }
    None
}

/// Nothing where the value passes, else this cause.
fn unless(passes: bool, cause: Cause) -> Option<Ill>
    ensures { option_map ill result ≡ unless passes cause }
{
    if passes {
        None
    } else {
        Some(Ill {
            cause,
            element: None,
        })
    }
}

/// What is wrong with a list of at least and at most so many texts of this form.
fn texts_ill(form: Form, least: usize, most: usize, list: &List<'_>) -> Option<Ill>
    ensures { option_map ill result ≡ texts_ill form least most list.now }
{
    if least <= list.len() && list.len() <= most {
        first_bad(form, list)
    } else {
        unless(false, Cause::Range)
    }
}

/// What is wrong with this member, which isn't of the kind.
fn ill_in(kind: Kind, name: &str, members: &ObjectRef<'_>) -> Option<Ill>
    ensures { option_map ill result ≡ ill_in (kind_view kind) name.now members.now }
{
    match kind {
        Kind::Flag => unless(members.flag(name).is_some(), Cause::Kind),
        Kind::Given => match members.flag(name) {
            None => unless(false, Cause::Kind),
            Some(given) => unless(given, Cause::Range),
        },
        Kind::Whole(least, most) => match members.whole(name) {
            None => unless(false, Cause::Kind),
            Some(value) => unless(is_between(least, most, value), Cause::Range),
        },
        Kind::Text(form, least, most) => match members.text(name) {
            None => unless(false, Cause::Kind),
            Some(text) => unless(text_passes(form, least, most, text), Cause::Range),
        },
        Kind::Word(words) => match members.text(name) {
            None => unless(false, Cause::Kind),
            Some(text) => unless(is_word(words, text), Cause::Range),
        },
        Kind::Texts(form, least, most) => match members.list(name) {
            None => unless(false, Cause::Kind),
            Some(list) => texts_ill(form, least, most, &list),
        },
        Kind::Object => unless(members.object(name).is_some(), Cause::Kind),
        Kind::List(most) => match members.list(name) {
            None => unless(false, Cause::Kind),
            Some(list) => unless(list.len() <= most, Cause::Range),
        },
    }
}

/// What is wrong with the member of this row.
fn row_ill(row: &Row, members: &ObjectRef<'_>) -> Option<Ill>
    ensures { option_map ill result ≡ row_ill members.now (row_view row.now) }
{
    if members.has(row.name) {
        return ill_in(row.kind, row.name, members);
    }
    match row.absent {
        Absent::Refused => unless(false, Cause::Missing),
        _ => None,
    }
}

// ---- objects

/// Whether one of the rows has this name.
fn is_known(rows: &[Row], name: &str) -> bool
    ensures { result ≡ is_known (map row_view rows.now) name.now }
{
    for row in rows {
        if name == row.name {
            return true;
        }
    }
    false
}

/// The first name, in byte order, that no row has.
#[tactic(auto, using(jwt_access::proofs::NamesLemmas::length_names, crate::proofs::NamesLemmas::unknown_here, crate::proofs::NamesLemmas::unknown_later, crate::proofs::NamesLemmas::unknown_end, crate::proofs::NamesLemmas::unknown_past))]
fn first_unknown<'a>(rows: &[Row], members: &ObjectRef<'a>) -> Option<&'a str>
    ensures { option_map (λ s. s.now) result ≡ unknown_in (map row_view rows.now) members.now }
{
    for place in 0..members.member_count() {
        match members.name(place) {
            Some(name) => {
                if !is_known(rows, name) {
                    return Some(name);
                }
            }
            None => return None,
        }
    }
    None
}

/// The first row whose member is refused.
fn first_wrong(rows: &[Row], members: &ObjectRef<'_>) -> Option<Wrong<'static>>
    ensures { option_map wrong result ≡ wrong_in members.now (map row_view rows.now) }
{
    for row in rows {
        if let Some(ill) = row_ill(row, members) {
            return Some(Wrong {
                cause: ill.cause,
                name: row.name,
                element: ill.element,
            });
        }
    }
    None
}

/// The first fault of an object: an unknown name, then row by row.
fn fault_in<'a>(rows: &[Row], members: &ObjectRef<'a>) -> Option<Wrong<'a>>
    ensures { option_map wrong result ≡ fault_in (map row_view rows.now) members.now }
{
    match first_unknown(rows, members) {
        Some(name) => Some(Wrong {
            cause: Cause::Unknown,
            name,
            element: None,
        }),
        None => match first_wrong(rows, members) {
            Some(wrong) => Some(Wrong {
                cause: wrong.cause,
                name: wrong.name,
                element: wrong.element,
            }),
            None => None,
        },
    }
}

/// The object to which names lead, each in the object of the one before.
fn object_behind<'a>(outer: ObjectRef<'a>, names: &[&'static str]) -> Option<ObjectRef<'a>>
    ensures { result ≡ object_behind (map (λ name. name.now) names.now) outer.entry }
{
    let mut object = outer;
    for name in names {
        object = object.object(name)?;
    }
    Some(object)
}

/// The first fault of the object that a table is of, none where it is absent.
pub(crate) fn table_fault<'a>(
    within: Within,
    rows: &[Row],
    whole: &ObjectRef<'a>,
) -> Option<Found<'a>>
    ensures { option_map found result ≡ table_fault whole.now (table_view within rows.now) }
{
    let fault = match within.path() {
        [] => fault_in(rows, whole),
        [name, names @ ..] => fault_in(rows, &object_behind(whole.object(name)?, names)?),
    };
    match fault {
        Some(wrong) => Some(Found {
            cause: wrong.cause,
            within,
            name: wrong.name,
            element: wrong.element,
        }),
        None => None,
    }
}
