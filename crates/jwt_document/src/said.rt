//! What a document that was read says, object by object, with what holds where a member is absent.

ghost use Rattle.std.specs.Prelude.{◌≡◌, IfOk, codes, option_and_then};
ghost use Rattle.jwt_text.specs.Members.{object_at, text_at};
ghost use Rattle.jwt_document.specs.Said.{IsWhole, IsRemember, IsNonce, IsDpop, IsMemory, IsIssue, IsOnward, IsKeys, Both, certificates_named, text_from, text_if, refresh_from, max_age_from};

use crate::entries::Source;
use crate::tables::{
    dpop_rows, issue_rows, keys_rows, memory_rows, nonce_rows, onward_rows, remembering_rows,
    the_service_rows,
};
use crate::values::{is_true, number_if, number_in, text_in, texts_in};
use jwt_text::ObjectRef;
use std::alloc::{AllocError, Global};

/// Which tokens the client's certificate is looked at for (RFC 8705, section 3).
#[derive(Clone, Copy, Debug, PartialEq, Eq)]
pub enum Certificates {
    /// Those that are bound to one.
    Bound,
    /// Each: a token that is bound to none is refused.
    Required,
}

/// What is asked of all requests.
#[derive(Drop)]
pub struct Whole<'d> {
    /// The realm of the challenge: `jwt` by default.
    pub realm: &'d str,
    /// Whether the challenge says what was wrong: by default it doesn't.
    pub describe: bool,
    /// The moment in seconds before which none is one: by default 2020 begins then.
    pub earliest: u64,
    /// How many keys are prepared: 16 by default.
    pub prepare: u64,
    /// The claims of which each call has to expect something: none by default.
    pub expects: Vec<&'d str>,
    /// Whether a token counts once: by default it doesn't.
    pub once: bool,
    /// For which tokens the client's certificate is looked at: for none by default.
    pub certificates: Option<Certificates>,
}

/// How many accepted tokens are remembered.
#[derive(Clone, Copy, Debug, PartialEq, Eq)]
pub struct Remember {
    /// How many.
    pub tokens: u64,
    /// How many octets one of them has at most: 4,096 by default.
    pub longest: u64,
}

/// The nonces of proofs.
#[derive(Clone, Copy)]
pub struct Nonce<'d> {
    /// The secret, in base64url: of 32 octets at least.
    pub secret: &'d str,
    /// For how many seconds there is one: 60 by default.
    pub period: u64,
}

/// What is asked of proofs of possession (RFC 9449).
#[derive(Drop)]
pub struct Dpop<'d> {
    /// What clients see: scheme, host and port.
    pub origins: Vec<&'d str>,
    /// Whether no bearer's token is taken: by default they are.
    pub only: bool,
    /// The algorithms of proofs: ES256 and EdDSA by default.
    pub algs: Vec<&'d str>,
    /// How many seconds old a proof may be: 60 by default.
    pub max_age: u64,
    /// By how many seconds the clocks of clients may differ: 5 by default.
    pub leeway: u64,
    /// The nonces that a proof has to have: none by default.
    pub nonce: Option<Nonce<'d>>,
}

/// The memory of what counts once.
#[derive(Clone, Copy, Debug, PartialEq, Eq)]
pub struct Memory {
    /// How many proofs it has room for.
    pub proofs: Option<u64>,
    /// How many tokens.
    pub tokens: Option<u64>,
    /// Nobody has more than one in so many of the room: 16 by default.
    pub share: u64,
    /// Whether tokens are taken that were issued before it was opened: by default they aren't.
    pub earlier: bool,
}

/// How tokens are issued.
#[derive(Clone, Copy)]
pub struct Issue<'d> {
    /// The algorithm.
    pub alg: &'d str,
    /// `typ` of the protected header, where it has one.
    pub typ: Option<&'d str>,
    /// The form: `compact` by default.
    pub form: &'d str,
    /// The number of the key that signs: 0 by default.
    pub key: u64,
}

/// The gateway's own token.
#[derive(Drop)]
pub struct Onward<'d> {
    /// Who issues it.
    pub issuer: &'d str,
    /// Whom it is for.
    pub audience: &'d str,
    /// For how many seconds it is good: 60 by default.
    pub lifetime: u64,
    /// The claims that are handed on: `sub` and `scope` by default.
    pub claims: Vec<&'d str>,
}

/// Where the keys of an issuer come from, and when.
#[derive(Clone, Copy)]
pub struct Keys<'d> {
    /// From where.
    pub source: Source,
    /// The text in PEM, the secret, the name of the file, or the URL; none where the keys are a set or found by metadata.
    pub text: Option<&'d str>,
    /// The age in seconds at which they are had again: 600 by default, and 0, never, of a file.
    pub refresh_after: u64,
    /// The age in seconds from which on they aren't used: 3,600 by default, and none of a file.
    pub max_age: Option<u64>,
    /// The least seconds between two fetches that tokens cause: 30 by default.
    pub cool_down: u64,
    /// How many seconds a fetch may take: 5 by default.
    pub timeout: u64,
    /// Whether they may come by `http`: by default they may not.
    pub http: bool,
}

/// Which tokens the client's certificate is looked at for.
fn certificates_in(members: &ObjectRef<'_>) -> Option<Certificates>
    ensures { result ≡ option_and_then certificates_named (text_at (codes "certificates") members.now) }
{
    match members.text("certificates")? {
        "bound" => Some(Certificates::Bound),
        "required" => Some(Certificates::Required),
        _ => None,
    }
}

/// What is asked of all requests.
pub(crate) fn whole_in<'d>(alloc: Global, members: &ObjectRef<'d>) -> Result<Whole<'d>, AllocError>
    ensures { IfOk result (IsWhole members.now) }
{
    let rows = the_service_rows();
    let expects = texts_in(alloc, members, &rows, "expects")?;
    Ok(Whole {
        realm: text_in(members, &rows, "realm"),
        describe: is_true(members, "describe"),
        earliest: number_in(members, &rows, "earliest"),
        prepare: number_in(members, &rows, "prepare"),
        expects,
        once: is_true(members, "once"),
        certificates: certificates_in(members),
    })
}

/// How many accepted tokens are remembered.
pub(crate) fn remember_in(members: &ObjectRef<'_>) -> Remember
    ensures { IsRemember members.now result }
{
    let rows = remembering_rows();
    Remember {
        tokens: number_in(members, &rows, "tokens"),
        longest: number_in(members, &rows, "longest"),
    }
}

/// The nonces of proofs.
fn nonce_in<'d>(members: &ObjectRef<'d>) -> Nonce<'d>
    ensures { IsNonce members.now result }
{
    let rows = nonce_rows();
    Nonce {
        secret: text_in(members, &rows, "secret"),
        period: number_in(members, &rows, "period"),
    }
}

/// The nonces of proofs, where there are some.
fn nonce_of<'d>(members: &ObjectRef<'d>) -> Option<Nonce<'d>>
    ensures { Both IsNonce (object_at (codes "nonce") members.now) result }
{
    match members.object("nonce") {
        Some(nonce) => Some(nonce_in(&nonce)),
        None => None,
    }
}

/// What is asked of proofs of possession.
pub(crate) fn dpop_in<'d>(alloc: Global, members: &ObjectRef<'d>) -> Result<Dpop<'d>, AllocError>
    ensures { IfOk result (IsDpop members.now) }
{
    let rows = dpop_rows();
    let origins = texts_in(alloc, members, &rows, "origins")?;
    let algs = texts_in(alloc, members, &rows, "algs")?;
    Ok(Dpop {
        origins,
        only: is_true(members, "only"),
        algs,
        max_age: number_in(members, &rows, "max_age"),
        leeway: number_in(members, &rows, "leeway"),
        nonce: nonce_of(members),
    })
}

/// The memory of what counts once.
pub(crate) fn memory_in(members: &ObjectRef<'_>) -> Memory
    ensures { IsMemory members.now result }
{
    let rows = memory_rows();
    Memory {
        proofs: number_if(members, "proofs"),
        tokens: number_if(members, "tokens"),
        share: number_in(members, &rows, "share"),
        earlier: is_true(members, "earlier"),
    }
}

/// How tokens are issued.
pub(crate) fn issue_in<'d>(members: &ObjectRef<'d>) -> Issue<'d>
    ensures { IsIssue members.now result }
{
    let rows = issue_rows();
    Issue {
        alg: text_in(members, &rows, "alg"),
        typ: members.text("typ"),
        form: text_in(members, &rows, "form"),
        key: number_in(members, &rows, "key"),
    }
}

/// The gateway's own token.
pub(crate) fn onward_in<'d>(
    alloc: Global,
    members: &ObjectRef<'d>,
) -> Result<Onward<'d>, AllocError>
    ensures { IfOk result (IsOnward members.now) }
{
    let rows = onward_rows();
    let claims = texts_in(alloc, members, &rows, "claims")?;
    Ok(Onward {
        issuer: text_in(members, &rows, "issuer"),
        audience: text_in(members, &rows, "audience"),
        lifetime: number_in(members, &rows, "lifetime"),
        claims,
    })
}

/// The member whose text says the keys, or where they are.
fn text_from<'d>(source: Source, members: &ObjectRef<'d>) -> Option<&'d str>
    ensures { text_if result ≡ text_from source members.now }
{
    match source {
        Source::Pem => members.text("pem"),
        Source::Secret => members.text("secret"),
        Source::File => members.text("file"),
        Source::Url => members.text("url"),
        Source::Set | Source::Discover => None,
    }
}

/// The age at which keys from there are had again.
fn refresh_from(source: Source, members: &ObjectRef<'_>) -> u64
    ensures { result ≡ refresh_from source members.now }
{
    match source {
        Source::File => number_if(members, "refresh_after").unwrap_or(0),
        _ => {
            let rows = keys_rows();
            number_in(members, &rows, "refresh_after")
        }
    }
}

/// The age from which on keys from there aren't used.
fn max_age_from(source: Source, members: &ObjectRef<'_>) -> Option<u64>
    ensures { result ≡ max_age_from source members.now }
{
    match source {
        Source::File => number_if(members, "max_age"),
        _ => {
            let rows = keys_rows();
            Some(number_in(members, &rows, "max_age"))
        }
    }
}

/// Where the keys of an issuer come from, and when.
pub(crate) fn keys_in<'d>(source: Source, members: &ObjectRef<'d>) -> Keys<'d>
    ensures { IsKeys (record { from = source; said = members.now }) result }
{
    let rows = keys_rows();
    Keys {
        source,
        text: text_from(source, members),
        refresh_after: refresh_from(source, members),
        max_age: max_age_from(source, members),
        cool_down: number_in(members, &rows, "cool_down"),
        timeout: number_in(members, &rows, "timeout"),
        http: is_true(members, "http"),
    }
}
