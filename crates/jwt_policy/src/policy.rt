//! A policy: what a service asks of the tokens that it takes.

ghost use Rattle.std.specs.Prelude.{◌≡◌, ◌≤◌, IfSome, length, map, option_map, string_bytes};
ghost use Rattle.std.specs.List.{list_any};
ghost use Rattle.jwt_policy.specs.Ceilings.{has_public_keys, ceiling_of, with_ceiling};
ghost use Rattle.jwt_text.specs.declared.limits.TheConstants.{LONGEST_TOKEN};

use crate::mode::Mode;
use jwt_mac::{Alg, Budget, CountDown};
use std::marker::Model;

/// How a run goes.
#[derive(Drop)]
pub(crate) struct RunPart {
    pub(crate) version: u32,
    pub(crate) algs: Vec<Alg>,
    pub(crate) mode: Mode,
    pub(crate) limit: u32,
    pub(crate) work: u64,
    pub(crate) max_signatures: u32,
    pub(crate) line_feed: bool,
}

impl Model for RunPart {
    ghost use Rattle.jwt_policy.specs.Ranges.{IsRunInRange};
    ghost use Rattle.jwt_policy.specs.Settings.{RunSettings};

    ghost Value = { RunSettings };

    ghost view = { λ p. record {
      version = p.version;
      algs = p.algs.items;
      mode = p.mode;
      limit = p.limit;
      work = p.work;
      max_signatures = p.max_signatures;
      line_feed = p.line_feed;
    } };

    ghost invariant = { λ p. IsRunInRange (record {
      version = p.version;
      algs = p.algs.items;
      mode = p.mode;
      limit = p.limit;
      work = p.work;
      max_signatures = p.max_signatures;
      line_feed = p.line_feed;
    }) };
}

/// What a header has to be.
#[derive(Drop)]
pub(crate) struct HeaderPart {
    pub(crate) typ: Option<String>,
    pub(crate) need_kid: bool,
    pub(crate) thumb_kid: bool,
    pub(crate) understood: Vec<String>,
}

impl Model for HeaderPart {
    ghost use Rattle.std.specs.Prelude.{map, option_map, string_bytes};
    ghost use Rattle.jwt_policy.specs.Settings.{HeaderSettings};

    ghost Value = { HeaderSettings };

    ghost view = { λ p. record {
      typ = option_map string_bytes p.typ;
      need_kid = p.need_kid;
      thumb_kid = p.thumb_kid;
      understood = map string_bytes p.understood.items;
    } };
}

/// What the claims have to be.
#[derive(Drop)]
pub(crate) struct ClaimPart {
    pub(crate) issuers: Vec<String>,
    pub(crate) audiences: Vec<String>,
    pub(crate) required: Vec<String>,
    pub(crate) leeway: u32,
    pub(crate) max_age: Option<u32>,
}

impl Model for ClaimPart {
    ghost use Rattle.std.specs.Prelude.{map, string_bytes};
    ghost use Rattle.jwt_policy.specs.Ranges.{IsClaimInRange};
    ghost use Rattle.jwt_policy.specs.Settings.{ClaimSettings};

    ghost Value = { ClaimSettings };

    ghost view = { λ p. record {
      issuers = map string_bytes p.issuers.items;
      audiences = map string_bytes p.audiences.items;
      required = map string_bytes p.required.items;
      leeway = p.leeway;
      max_age = p.max_age;
    } };

    ghost invariant = { λ p. IsClaimInRange (record {
      issuers = map string_bytes p.issuers.items;
      audiences = map string_bytes p.audiences.items;
      required = map string_bytes p.required.items;
      leeway = p.leeway;
      max_age = p.max_age;
    }) };
}

/// What a service asks of the tokens that it takes, as its document says (RFC 8725). [`Policy::read`] reads it, and each getter
/// says what its setting does, in which unit, what holds where the document doesn't say it, and what is dangerous about it.
///
/// No setting switches the check of signatures off, and none allows the algorithm `none`.
///
/// ```rust
/// let document = b"{\"algs\":[\"HS256\"],\"issuers\":[\"joe\"],\"audiences\":[\"api\"],\"required\":[\"aud\",\"exp\"]}";
/// let policy = Policy::read(alloc, document)?;
/// ```
#[derive(Drop)]
pub struct Policy {
    pub(crate) run: RunPart,
    pub(crate) header: HeaderPart,
    pub(crate) claims: ClaimPart,
    pub(crate) max_calls: Option<u32>,
}

impl Model for Policy {
    ghost use Rattle.std.specs.Prelude.{◌≤◌, IfSome};
    ghost use Rattle.jwt_policy.specs.Settings.{Settings};

    ghost Value = { Settings };

    ghost view = { λ p. record {
      run = p.run;
      header = p.header;
      claims = p.claims;
      max_calls = p.max_calls;
    } };

    ghost invariant = { λ p. IfSome p.max_calls (λ n. n ≤ 32768) };
}

/// The most tries of a run under a policy that names no `max_calls` of its own, for whoever opens documents once and judges many
/// tokens by them.
pub const MOST_CALLS: u32 = 64;

/// Whether one of the algorithms has public keys.
#[tactic(auto, using(std::proofs::lemmas::List::at_drop_more, std::proofs::lemmas::List::at_drop_all))]
fn some_has_public_keys(algs: &[Alg]) -> bool
    ensures { result ≡ list_any has_public_keys algs.now }
{
    for alg in algs {
        if !alg.is_hmac() {
            return true;
        }
    }
    false
}

/// The ceiling on the tries of a run, where this one is named, and an algorithm may be allowed that has public keys.
fn ceiling_of(named: Option<u32>, public: bool) -> Option<u32>
    ensures { result ≡ ceiling_of named public }
{
    match named {
        Some(calls) => Some(calls),
        None if public => Some(MOST_CALLS),
        None => None,
    }
}

impl Policy {
    /// This policy, with a ceiling of [`MOST_CALLS`] tries where it names none and allows an algorithm whose keys are public: each
    /// try by such a key takes tens of microseconds, and one token can ask for as many as its signatures times the keys. A
    /// `max_calls` of the policy's own stays, a greater one too.
    #[tactic(auto, using(crate::proofs::CeilingLemmas::stays))]
    pub fn with_ceiling(self) -> Policy
        ensures value { result ≡ with_ceiling self }
        ensures stays { with_ceiling result ≡ result }
    {
        let public = some_has_public_keys(self.algs());
        let Policy {
            run,
            header,
            claims,
            max_calls,
        } = self;
        Policy {
            run,
            header,
            claims,
            max_calls: ceiling_of(max_calls, public),
        }
    }

    /// The version of the document, 1 or 2. By default 1.
    pub fn version(&self) -> u32
        ensures value { result ≡ self.now.run.version }
        ensures range { (1 ≤ self.now.run.version) × (self.now.run.version ≤ 2) }
    {
        let run = &self.run;
        run.version
    }

    /// The algorithms that signatures may use (RFC 8725, section 3.1), at least one. There is no default. A key can be for several
    /// of them: a key that says no `alg` of its own is tried by each that its kind suits, so name no more than are in use.
    pub fn algs(&self) -> &[Alg]
        ensures value { result.now ≡ self.now.run.algs }
        ensures some { 1 ≤ length self.now.run.algs }
    {
        let run = &self.run;
        run.algs.as_slice()
    }

    /// Which signatures of a token must be verified. By default any one of them: the others may then be forged.
    pub fn mode(&self) -> Mode
        ensures { result ≡ self.now.run.mode }
    {
        let run = &self.run;
        run.mode
    }

    /// The greatest number of octets of a token, 1 to 1,048,576. By default 8,192.
    pub fn limit(&self) -> u32
        ensures value { result ≡ self.now.run.limit }
        ensures range { (1 ≤ self.now.run.limit) × (self.now.run.limit ≤ LONGEST_TOKEN) }
    {
        let run = &self.run;
        run.limit
    }

    /// The ceiling for the octets that HMAC may hash in a run, at most 1,000,000,000,000. By default 1,048,576. It is for the
    /// caller, who makes the budget of a run, as by [`budget`](Policy::budget); nothing else looks at it.
    pub fn work(&self) -> u64
        ensures value { result ≡ self.now.run.work }
        ensures range { self.now.run.work ≤ 1000000000000 }
    {
        let run = &self.run;
        run.work
    }

    /// A new budget for one run, with the ceiling [`work`](Policy::work): nothing is fed yet, and nothing was tried.
    pub fn budget(&self) -> CountDown
        ensures octets { ⟦<CountDown as Budget>⟧.octets result ≡ 0 }
        ensures calls { ⟦<CountDown as Budget>⟧.calls result ≡ 0 }
        ensures ceiling { ⟦<CountDown as Budget>⟧.ceiling result ≡ self.now.run.work }
    {
        CountDown::new(self.work())
    }

    /// The greatest number of signatures of a token, 1 to 32. By default 8.
    pub fn max_signatures(&self) -> u32
        ensures value { result ≡ self.now.run.max_signatures }
        ensures range { (1 ≤ self.now.run.max_signatures) × (self.now.run.max_signatures ≤ 32) }
    {
        let run = &self.run;
        run.max_signatures
    }

    /// Whether one final line feed of the input is dropped before the token is read. By default it isn't, and such a token in
    /// compact form is refused.
    pub fn line_feed(&self) -> bool
        ensures { result ≡ self.now.run.line_feed }
    {
        let run = &self.run;
        run.line_feed
    }

    /// The media type that `typ` of the protected header must be (RFC 8725, section 3.11), and that isn't empty; None where none
    /// is asked for, which is the default: a token of another purpose under the same keys is then told apart by its claims alone.
    pub fn typ(&self) -> Option<&str>
        ensures { option_map (λ s. s.now) result ≡ self.now.header.typ }
    {
        let header = &self.header;
        match &header.typ {
            Some(typ) => Some(typ.as_str()),
            None => None,
        }
    }

    /// Whether a signature must have a `kid` (RFC 7515, section 4.1.4). By default it needn't, and one without is tried with
    /// every key that suits it.
    pub fn need_kid(&self) -> bool
        ensures { result ≡ self.now.header.need_kid }
    {
        let header = &self.header;
        header.need_kid
    }

    /// Whether a key without `kid` answers to its thumbprint (RFC 7638) as to a `kid`. By default it doesn't.
    pub fn thumb_kid(&self) -> bool
        ensures { result ≡ self.now.header.thumb_kid }
    {
        let header = &self.header;
        header.thumb_kid
    }

    /// The names that `crit` may hold (RFC 7515, section 4.1.11), none of them `b64` or a name of section 4.1. By default none.
    /// Nothing here acts on such a member: a caller who names it owes what its extension asks for.
    pub fn understood(&self) -> &[String]
        ensures { map string_bytes result.now ≡ self.now.header.understood }
    {
        let header = &self.header;
        header.understood.as_slice()
    }

    /// The allowed `iss` (RFC 8725, section 3.8). Where there is none, which is the default, any issuer is allowed, and
    /// claims without `iss` too.
    pub fn issuers(&self) -> &[String]
        ensures { map string_bytes result.now ≡ self.now.claims.issuers }
    {
        let claims = &self.claims;
        claims.issuers.as_slice()
    }

    /// The recipient's own names. Where `aud` is there, it must hold one of them (RFC 7519, section 4.1.3). By default none, so
    /// every token with `aud` is refused. A token without `aud` is taken unless `required` names it.
    pub fn audiences(&self) -> &[String]
        ensures { map string_bytes result.now ≡ self.now.claims.audiences }
    {
        let claims = &self.claims;
        claims.audiences.as_slice()
    }

    /// The claims that must be there, of any kind and value. By default none: a token without `exp` then never expires.
    pub fn required(&self) -> &[String]
        ensures { map string_bytes result.now ≡ self.now.claims.required }
    {
        let claims = &self.claims;
        claims.required.as_slice()
    }

    /// The seconds by which clocks may differ, 0 to 86,400, granted to every date (RFC 7519, section 4.1.4). By default 0.
    pub fn leeway(&self) -> u32
        ensures value { result ≡ self.now.claims.leeway }
        ensures range { self.now.claims.leeway ≤ 86400 }
    {
        let claims = &self.claims;
        claims.leeway
    }

    /// The greatest age in seconds since `iat` (RFC 7519, section 4.1.6), 1 to 4,294,967,295; `iat` must then be there. None
    /// where none is asked for, which is the default: `iat` isn't compared with anything then.
    pub fn max_age(&self) -> Option<u32>
        ensures value { result ≡ self.now.claims.max_age }
        ensures range { IfSome self.now.claims.max_age (λ n. 1 ≤ n) }
    {
        let claims = &self.claims;
        claims.max_age
    }

    /// The ceiling on the tries of a run, by whatever algorithm, 0 to 32,768; None where there is none, as always in version 1.
    pub fn max_calls(&self) -> Option<u32>
        ensures value { result ≡ self.now.max_calls }
        ensures range { IfSome self.now.max_calls (λ n. n ≤ 32768) }
    {
        self.max_calls
    }
}
