//! The members of the document of a service, object by object: a member is one row.

ghost use Rattle.std.specs.Prelude.{◌≡◌, map, option_map};
ghost use Rattle.jwt_document.specs.Service.{rows_of, entry, keys, entry_tables, service_tables, the_service, remembering, dpop, nonce, memory, issue, onward};
ghost use Rattle.jwt_document.specs.Tables.{table_fault, first_fault};
ghost use Rattle.jwt_document.specs.Views.{found, row_view};

use crate::closed::{Found, table_fault};
use crate::rows::Absent::{Listed, Nothing, Number, Refused, Said};
use crate::rows::Form::{Any, FreeClaim, Origin, Printable, PublicAlg};
use crate::rows::Kind::{Flag, Given, List, Object, Text, Texts, Whole, Word};
use crate::rows::{Row, Within};
use jwt_text::ObjectRef;

macro_rules! row {
    ($name:literal, $kind:expr, $absent:expr) => {
        Row {
            name: $name,
            kind: $kind,
            absent: $absent,
        }
    };
}

// ---- an entry of `issuers`

/// The rows of the table.
#[tactic(auto, unfolding(crate::specs::Service::entry))]
pub(crate) fn entry_rows() -> [Row; 3]
    ensures { map row_view result ≡ rows_of entry }
{
    [
        row!("policy", Object, Refused),
        row!("keys", Object, Refused),
        row!("lasting", Flag, Nothing),
    ]
}

#[tactic(auto, unfolding(crate::specs::Service::entry))]
fn in_entry<'a>(members: &ObjectRef<'a>) -> Option<Found<'a>>
    ensures { option_map found result ≡ table_fault members.now entry }
{
    let rows = entry_rows();
    table_fault(Within::Entry, &rows, members)
}

/// The rows of the table.
#[tactic(auto, unfolding(crate::specs::Service::keys))]
pub(crate) fn keys_rows() -> [Row; 11]
    ensures { map row_view result ≡ rows_of keys }
{
    [
        row!("set", Object, Nothing),
        row!("pem", Text(Any, 1, 1_048_576), Nothing),
        row!("secret", Text(Any, 1, 4_096), Nothing),
        row!("file", Text(Any, 1, 4_096), Nothing),
        row!("url", Text(Any, 1, 4_096), Nothing),
        row!("discover", Given, Nothing),
        row!("refresh_after", Whole(0, 31_536_000), Number(600)),
        row!("max_age", Whole(1, 31_536_000), Number(3_600)),
        row!("cool_down", Whole(0, 31_536_000), Number(30)),
        row!("timeout", Whole(1, 3_600), Number(5)),
        row!("http", Flag, Nothing),
    ]
}

#[tactic(auto, unfolding(crate::specs::Service::keys))]
fn in_keys<'a>(members: &ObjectRef<'a>) -> Option<Found<'a>>
    ensures { option_map found result ≡ table_fault members.now keys }
{
    let rows = keys_rows();
    table_fault(Within::Keys, &rows, members)
}

/// The first fault of the members of an entry, object by object.
pub(crate) fn entry_fault<'a>(members: &ObjectRef<'a>) -> Option<Found<'a>>
    ensures { option_map found result ≡ first_fault members.now entry_tables }
{
    if let Some(fault) = in_entry(members) {
        return Some(fault);
    }
    in_keys(members)
}

// ---- the service, object by object

/// The rows of the table.
#[tactic(auto, unfolding(crate::specs::Service::the_service))]
pub(crate) fn the_service_rows() -> [Row; 15]
    ensures { map row_view result ≡ rows_of the_service }
{
    [
        row!("version", Whole(1, 1), Number(1)),
        row!("issuers", List(64), Refused),
        row!("rules", Object, Nothing),
        row!("realm", Text(Printable, 0, 256), Said("jwt")),
        row!("describe", Flag, Nothing),
        row!("earliest", Whole(0, 4_294_967_295), Number(1_577_836_800)),
        row!("prepare", Whole(0, 1_024), Number(16)),
        row!("remember", Object, Nothing),
        row!("expects", Texts(Any, 0, 64), Listed(&[])),
        row!("once", Flag, Nothing),
        row!("dpop", Object, Nothing),
        row!("certificates", Word(&["bound", "required"]), Nothing),
        row!("memory", Object, Nothing),
        row!("issue", Object, Nothing),
        row!("onward", Object, Nothing),
    ]
}

#[tactic(auto, unfolding(crate::specs::Service::the_service))]
fn in_the_service<'a>(members: &ObjectRef<'a>) -> Option<Found<'a>>
    ensures { option_map found result ≡ table_fault members.now the_service }
{
    let rows = the_service_rows();
    table_fault(Within::Whole, &rows, members)
}

/// The rows of the table.
#[tactic(auto, unfolding(crate::specs::Service::remembering))]
pub(crate) fn remembering_rows() -> [Row; 2]
    ensures { map row_view result ≡ rows_of remembering }
{
    [
        row!("tokens", Whole(1, 1_000_000), Refused),
        row!("longest", Whole(1, 1_048_576), Number(4_096)),
    ]
}

#[tactic(auto, unfolding(crate::specs::Service::remembering))]
fn in_remembering<'a>(members: &ObjectRef<'a>) -> Option<Found<'a>>
    ensures { option_map found result ≡ table_fault members.now remembering }
{
    let rows = remembering_rows();
    table_fault(Within::Remember, &rows, members)
}

/// The rows of the table.
#[tactic(auto, unfolding(crate::specs::Service::dpop))]
pub(crate) fn dpop_rows() -> [Row; 6]
    ensures { map row_view result ≡ rows_of dpop }
{
    [
        row!("origins", Texts(Origin, 1, 64), Refused),
        row!("only", Flag, Nothing),
        row!("algs", Texts(PublicAlg, 1, 64), Listed(&["ES256", "EdDSA"])),
        row!("max_age", Whole(1, 3_600), Number(60)),
        row!("leeway", Whole(0, 300), Number(5)),
        row!("nonce", Object, Nothing),
    ]
}

#[tactic(auto, unfolding(crate::specs::Service::dpop))]
fn in_dpop<'a>(members: &ObjectRef<'a>) -> Option<Found<'a>>
    ensures { option_map found result ≡ table_fault members.now dpop }
{
    let rows = dpop_rows();
    table_fault(Within::Dpop, &rows, members)
}

/// The rows of the table.
#[tactic(auto, unfolding(crate::specs::Service::nonce))]
pub(crate) fn nonce_rows() -> [Row; 2]
    ensures { map row_view result ≡ rows_of nonce }
{
    [
        row!("secret", Text(Any, 1, 4_096), Refused),
        row!("period", Whole(1, 86_400), Number(60)),
    ]
}

#[tactic(auto, unfolding(crate::specs::Service::nonce))]
fn in_nonce<'a>(members: &ObjectRef<'a>) -> Option<Found<'a>>
    ensures { option_map found result ≡ table_fault members.now nonce }
{
    let rows = nonce_rows();
    table_fault(Within::Nonce, &rows, members)
}

/// The rows of the table.
#[tactic(auto, unfolding(crate::specs::Service::memory))]
pub(crate) fn memory_rows() -> [Row; 4]
    ensures { map row_view result ≡ rows_of memory }
{
    [
        row!("proofs", Whole(1, 100_000_000), Nothing),
        row!("tokens", Whole(1, 100_000_000), Nothing),
        row!("share", Whole(1, 1_000), Number(16)),
        row!("earlier", Flag, Nothing),
    ]
}

#[tactic(auto, unfolding(crate::specs::Service::memory))]
fn in_memory<'a>(members: &ObjectRef<'a>) -> Option<Found<'a>>
    ensures { option_map found result ≡ table_fault members.now memory }
{
    let rows = memory_rows();
    table_fault(Within::Memory, &rows, members)
}

/// The rows of the table.
#[tactic(auto, unfolding(crate::specs::Service::issue))]
pub(crate) fn issue_rows() -> [Row; 6]
    ensures { map row_view result ≡ rows_of issue }
{
    [
        row!("set", Object, Nothing),
        row!("secret", Text(Any, 1, 4_096), Nothing),
        row!("alg", Word(&["HS256", "HS384", "HS512"]), Refused),
        row!("typ", Text(Any, 1, 256), Nothing),
        row!(
            "form",
            Word(&["compact", "flattened", "general"]),
            Said("compact")
        ),
        row!("key", Whole(0, 1_023), Number(0)),
    ]
}

#[tactic(auto, unfolding(crate::specs::Service::issue))]
fn in_issue<'a>(members: &ObjectRef<'a>) -> Option<Found<'a>>
    ensures { option_map found result ≡ table_fault members.now issue }
{
    let rows = issue_rows();
    table_fault(Within::Issue, &rows, members)
}

/// The rows of the table.
#[tactic(auto, unfolding(crate::specs::Service::onward))]
pub(crate) fn onward_rows() -> [Row; 4]
    ensures { map row_view result ≡ rows_of onward }
{
    [
        row!("issuer", Text(Any, 0, 4_096), Refused),
        row!("audience", Text(Any, 0, 4_096), Refused),
        row!("lifetime", Whole(1, 86_400), Number(60)),
        row!("claims", Texts(FreeClaim, 0, 64), Listed(&["sub", "scope"])),
    ]
}

#[tactic(auto, unfolding(crate::specs::Service::onward))]
fn in_onward<'a>(members: &ObjectRef<'a>) -> Option<Found<'a>>
    ensures { option_map found result ≡ table_fault members.now onward }
{
    let rows = onward_rows();
    table_fault(Within::Onward, &rows, members)
}

/// The first fault of the members of a service, object by object.
pub(crate) fn service_fault<'a>(members: &ObjectRef<'a>) -> Option<Found<'a>>
    ensures { option_map found result ≡ first_fault members.now service_tables }
{
    if let Some(fault) = in_the_service(members) {
        return Some(fault);
    }
    if let Some(fault) = in_remembering(members) {
        return Some(fault);
    }
    if let Some(fault) = in_dpop(members) {
        return Some(fault);
    }
    if let Some(fault) = in_nonce(members) {
        return Some(fault);
    }
    if let Some(fault) = in_memory(members) {
        return Some(fault);
    }
    if let Some(fault) = in_issue(members) {
        return Some(fault);
    }
    in_onward(members)
}
