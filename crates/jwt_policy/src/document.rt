//! The document of a policy.

ghost use Rattle.std.specs.Prelude.{◌≡◌, ◌<◌, Err, IsErrOf, Some, length, option_map, ◌||◌};
ghost use Rattle.jwt_policy.specs.Texts.{is_among};
ghost use Rattle.jwt_policy.specs.Document.{policy_of, policy_in, settings_of, run_settings_of, header_settings_of, claim_settings_of, names_of_version_one, is_version_two, is_known, first_unknown};
ghost use Rattle.jwt_policy.specs.MemberKinds.{optional};

use crate::member_kinds::{Bounds, algs, flag, mode, optional, texts, typ, understood, whole};
use crate::policy::{ClaimPart, HeaderPart, Policy, RunPart};
use crate::policy_fault::PolicyFault;
use jwt_text::{LONGEST_POLICY, LONGEST_TOKEN, ObjectRef, TextFault, object};
use std::alloc::Global;

impl Policy {
    /// The policy of a document in UTF-8, of at most 65,536 octets: an object with these members, all optional but `algs`.
    ///
    /// | Member | Kind and range | Default |
    /// |---|---|---|
    /// | `version` | whole number, 1 or 2 | 1 |
    /// | `algs` | list of names of [`Alg`](jwt_mac::Alg), not empty | none |
    /// | `mode` | `any` or `all` | `any` |
    /// | `limit` | whole number, 1 to 1,048,576 octets | 8,192 |
    /// | `work` | whole number, 0 to 1,000,000,000,000 octets | 1,048,576 |
    /// | `max_signatures` | whole number, 1 to 32 | 8 |
    /// | `line_feed` | true or false | false |
    /// | `typ` | text, not empty | no demand |
    /// | `need_kid` | true or false | false |
    /// | `thumb_kid` | true or false | false |
    /// | `understood` | list of texts, none of them `b64` or a header name of RFC 7515, section 4.1 | empty |
    /// | `issuers` | list of texts | empty, no demand |
    /// | `audiences` | list of texts | empty |
    /// | `required` | list of texts | empty |
    /// | `leeway` | whole number, 0 to 86,400 seconds | 0 |
    /// | `max_age` | whole number, 1 to 4,294,967,295 seconds | no demand |
    /// | `max_calls`, in version 2 alone | whole number, 0 to 32,768 | no ceiling |
    ///
    /// Each getter of the member's name says what it means. A text that stands twice in a list changes nothing.
    ///
    /// # Errors
    /// The first that holds of `TooLong`, more octets; `Json`, no JSON text or no object; `NameTwice`, a name that stands twice in
    /// one object, at any depth; `Member` with the first name, in byte order, that isn't in this table, as `max_calls` isn't unless
    /// `version` is the whole number 2; then, member by member in the order of this table, `Member` where the kind is another, and
    /// `Range` where the value is; for `algs`, `NoAlgorithm` where it is absent or empty. `OutOfMemory` comes where an
    /// allocation was refused, in place of any other answer but `TooLong`.
    #[tactic(auto, unfolding(crate::specs::Document::policy_of))]
    pub fn read(alloc: Global, document: &[u8]) -> Result<Policy, PolicyFault>
        ensures answer { ¬ IsErrOf result PolicyFault.OutOfMemory
            → result ≡ policy_of document.now }
        ensures too_long { LONGEST_POLICY < length document.now → result ≡ Err PolicyFault.TooLong }
    {
        if document.len() > LONGEST_POLICY as usize {
            return Err(PolicyFault::TooLong);
        }
        match object(alloc, document) {
            Ok(members) => policy(alloc, &members.lend()),
            Err(TextFault::OutOfMemory) => Err(PolicyFault::OutOfMemory),
            Err(TextFault::NameTwice) => Err(PolicyFault::NameTwice),
            Err(_) => Err(PolicyFault::Json),
        }
    }
}

/// The policy that these members say.
#[tactic(auto, unfolding(crate::specs::Document::policy_in))]
pub(crate) fn policy(alloc: Global, members: &ObjectRef<'_>) -> Result<Policy, PolicyFault>
    ensures { ¬ IsErrOf result PolicyFault.OutOfMemory → result ≡ policy_in members.now }
{
    match first_unknown(members) {
        Some(name) => Err(PolicyFault::member(alloc, name)),
        None => settings(alloc, members),
    }
}

// ---- the names

/// Whether this is a name of version 1.
fn is_of_version_one(name: &str) -> bool
    ensures { result ≡ is_among names_of_version_one name.now }
{
    match name {
        "version"
        | "algs"
        | "mode"
        | "limit"
        | "work"
        | "max_signatures"
        | "line_feed"
        | "typ"
        | "need_kid"
        | "thumb_kid"
        | "understood"
        | "issuers"
        | "audiences"
        | "required"
        | "leeway"
        | "max_age" => true,
        _ => false,
    }
}

/// Whether this is a name of the document's version.
#[tactic(auto, unfolding(crate::specs::Document::is_known))]
fn is_known(two: bool, name: &str) -> bool
    ensures { result ≡ is_known two name.now }
{
    is_of_version_one(name) || (two && name == "max_calls")
}

/// Whether `version` is the whole number 2.
fn is_version_two(members: &ObjectRef<'_>) -> bool
    ensures { result ≡ is_version_two members.now }
{
    match members.whole("version") {
        Some(version) => version == 2,
        None => false,
    }
}

/// The first name, in byte order, that isn't one of the document's version. There are 17 names, so it is found among the
/// first 18.
#[tactic(auto, using(crate::proofs::NamesLemmas::length_names, crate::proofs::NamesLemmas::unknown_here, crate::proofs::NamesLemmas::unknown_later, crate::proofs::NamesLemmas::unknown_end, crate::proofs::NamesLemmas::unknown_past))]
fn first_unknown<'a>(members: &ObjectRef<'a>) -> Option<&'a str>
    ensures { option_map (λ s. s.now) result ≡ first_unknown members.now }
{
    let two = is_version_two(members);
    for place in 0..members.member_count() {
        match members.name(place) {
            Some(name) => {
                if !is_known(two, name) {
                    return Some(name);
                }
            }
            None => return None,
        }
    }
    None
}

// ---- the members in order

/// The policy of members whose names are known.
fn settings(alloc: Global, members: &ObjectRef<'_>) -> Result<Policy, PolicyFault>
    ensures { ¬ IsErrOf result PolicyFault.OutOfMemory → result ≡ settings_of members.now }
{
    let run = run_part(alloc, members)?;
    let header = header_part(alloc, members)?;
    let claims = claim_part(alloc, members)?;
    let calls = Bounds {
        low: 0,
        high: 32_768,
    };
    let max_calls = optional(alloc, members, "max_calls", calls)?;
    Ok(Policy {
        run,
        header,
        claims,
        max_calls,
    })
}

/// The members `version` to `line_feed`.
fn run_part(alloc: Global, members: &ObjectRef<'_>) -> Result<RunPart, PolicyFault>
    ensures { ¬ IsErrOf result PolicyFault.OutOfMemory → result ≡ run_settings_of members.now }
{
    let version = whole(alloc, members, "version", Bounds::new(1, 2), 1)? as u32;
    let algs = algs(alloc, members, "algs")?;
    let mode = mode(alloc, members, "mode")?;
    let limit = whole(
        alloc,
        members,
        "limit",
        Bounds::new(1, LONGEST_TOKEN as u64),
        8192,
    )? as u32;
    let work = whole(
        alloc,
        members,
        "work",
        Bounds::new(0, 1_000_000_000_000),
        1_048_576,
    )?;
    let max_signatures = whole(alloc, members, "max_signatures", Bounds::new(1, 32), 8)? as u32;
    let line_feed = flag(alloc, members, "line_feed")?;
    Ok(RunPart {
        version,
        algs,
        mode,
        limit,
        work,
        max_signatures,
        line_feed,
    })
}

/// The members `typ` to `understood`.
fn header_part(alloc: Global, members: &ObjectRef<'_>) -> Result<HeaderPart, PolicyFault>
    ensures { ¬ IsErrOf result PolicyFault.OutOfMemory → result ≡ header_settings_of members.now }
{
    let typ = typ(alloc, members, "typ")?;
    let need_kid = flag(alloc, members, "need_kid")?;
    let thumb_kid = flag(alloc, members, "thumb_kid")?;
    let understood = understood(alloc, members, "understood")?;
    Ok(HeaderPart {
        typ,
        need_kid,
        thumb_kid,
        understood,
    })
}

/// The members `issuers` to `max_age`.
fn claim_part(alloc: Global, members: &ObjectRef<'_>) -> Result<ClaimPart, PolicyFault>
    ensures { ¬ IsErrOf result PolicyFault.OutOfMemory → result ≡ claim_settings_of members.now }
{
    let issuers = texts(alloc, members, "issuers")?;
    let audiences = texts(alloc, members, "audiences")?;
    let required = texts(alloc, members, "required")?;
    let leeway = whole(alloc, members, "leeway", Bounds::new(0, 86_400), 0)? as u32;
    let max_age = optional(alloc, members, "max_age", Bounds::new(1, 4_294_967_295))?;
    Ok(ClaimPart {
        issuers,
        audiences,
        required,
        leeway,
        max_age,
    })
}
