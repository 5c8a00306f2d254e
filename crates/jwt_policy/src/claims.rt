//! The claims of a payload (RFC 7519, section 4).

ghost use Rattle.std.specs.Prelude.{◌≡◌, option_map, IsErrOf, codes};
ghost use Rattle.jwt_text.specs.Members.{text_at, whole_at};
ghost use Rattle.jwt_policy.specs.ClaimKinds.{claims_of, kind_fault, is_no_audience, is_no_number, is_no_date};
ghost use Rattle.jwt_policy.specs.Audiences.{audience_data, aud_at};

use crate::claim_fault::{Claim, ClaimFault};
use crate::texts::is_no_text;
use jwt_text::{List, Object, ObjectRef, Scratch, TextFault, object_with};
use std::alloc::Global;
use std::fmt;
use std::marker::Model;

/// The claims of a payload. The registered ones, where they are there, have their kinds (RFC 7519, section 4.1): `iss`, `sub`
/// and `jti` are texts, `aud` a text or a list of texts, and `exp`, `nbf` and `iat` whole numbers within 64 signed bits, in
/// seconds since 1970-01-01T00:00:00Z. Contracts see the members.
#[derive(Drop)]
pub struct Claims {
    members: Object,
}

impl Model for Claims {
    ghost use Rattle.std.specs.Prelude.{◌≡◌, None};
    ghost use Rattle.serde_json.specs.Data.{Members};
    ghost use Rattle.jwt_text.specs.Stored.{members_code};

    ghost Value = { Members };

    ghost coded = { members_code };

    ghost use Rattle.jwt_policy.specs.ClaimKinds.{kind_fault};

    ghost view = { λ c. c.members };

    ghost invariant = { λ c. kind_fault c.members ≡ None };
}

// It tells how many claims there are and none of them: what a token says of a person isn't printed by accident.
impl fmt::Debug for Claims {
    fn fmt<W: fmt::Write>(&self, f: &mut fmt::Formatter<W>) -> fmt::Result {
        f.debug_struct("Claims")
            .field("count", &self.members.lend().member_count())
            .finish()
    }
}

/// The claim `aud` (RFC 7519, section 4.1.3), lent.
#[derive(Drop)]
pub enum Audience<'a> {
    /// One recipient.
    Text(&'a str),
    /// A list of texts, which may be empty.
    Texts(List<'a>),
}

impl Claims {
    /// The claims of a payload in UTF-8: an object (RFC 7519, section 4), in which no name stands twice at any depth. Nothing is
    /// asked of claims that aren't registered.
    ///
    /// # Errors
    /// The first that holds of `ClaimsShape`, the octets are no object text; then, claim by claim, in the order `iss`, `sub`,
    /// `aud`, `exp`, `nbf`, `iat`, `jti`: `ClaimKind`, the claim is there and has another kind; `ClaimDate`, a date is a number
    /// and no whole number within 64 signed bits. `OutOfMemory` comes where an allocation was refused, in place of any other
    /// answer.
    pub fn read(alloc: Global, payload: &[u8]) -> Result<Claims, ClaimFault<'static>>
        ensures { ¬ IsErrOf result ClaimFault.OutOfMemory → result ≡ claims_of payload.now }
    {
        let mut scratch = Scratch::new(alloc);
        Claims::read_with(alloc, payload, &mut scratch)
    }

    /// The same as [`Claims::read`], with memory that was made before, and that serves for text after text.
    #[tactic(auto, unfolding(crate::specs::ClaimKinds::claims_of))]
    pub fn read_with(
        alloc: Global,
        payload: &[u8],
        scratch: &mut Scratch,
    ) -> Result<Claims, ClaimFault<'static>>
        ensures { ¬ IsErrOf result ClaimFault.OutOfMemory → result ≡ claims_of payload.now }
    {
        let members = match object_with(alloc, payload, scratch) {
            Ok(members) => members,
            Err(TextFault::OutOfMemory) => return Err(ClaimFault::OutOfMemory),
            Err(_) => return Err(ClaimFault::ClaimsShape),
        };
        match kind_fault(&members.lend()) {
            None => Ok(Claims { members }),
            Some(fault) => Err(fault),
        }
    }

    /// All members, lent.
    pub fn object(&self) -> ObjectRef<'_>
        ensures { result ≡ self.now }
    {
        self.members.lend()
    }

    /// The issuer, `None` where it is absent.
    pub fn iss(&self) -> Option<&str>
        ensures { option_map (λ s. s.now) result ≡ text_at (codes "iss") self.now }
    {
        self.members.text("iss")
    }

    /// The subject, `None` where it is absent.
    pub fn sub(&self) -> Option<&str>
        ensures { option_map (λ s. s.now) result ≡ text_at (codes "sub") self.now }
    {
        self.members.text("sub")
    }

    /// The recipients, `None` where the claim is absent.
    pub fn aud(&self) -> Option<Audience<'_>>
        ensures { option_map audience_data result ≡ aud_at self.now }
    {
        let members = self.members.lend();
        if let Some(text) = members.text("aud") {
            return Some(Audience::Text(text));
        }
        match members.list("aud") {
            Some(list) => Some(Audience::Texts(list)),
            None => None,
        }
    }

    /// The expiration time in seconds since 1970-01-01T00:00:00Z, `None` where it is absent.
    pub fn exp(&self) -> Option<i64>
        ensures { result ≡ whole_at (codes "exp") self.now }
    {
        self.members.whole("exp")
    }

    /// The time before which the token isn't accepted, in seconds since 1970-01-01T00:00:00Z, `None` where it is absent.
    pub fn nbf(&self) -> Option<i64>
        ensures { result ≡ whole_at (codes "nbf") self.now }
    {
        self.members.whole("nbf")
    }

    /// The time of issue in seconds since 1970-01-01T00:00:00Z, `None` where it is absent.
    pub fn iat(&self) -> Option<i64>
        ensures { result ≡ whole_at (codes "iat") self.now }
    {
        self.members.whole("iat")
    }

    /// The token's own id, `None` where it is absent.
    pub fn jti(&self) -> Option<&str>
        ensures { option_map (λ s. s.now) result ≡ text_at (codes "jti") self.now }
    {
        self.members.text("jti")
    }
}

/// Whether `aud` is there and neither a text nor a list of texts.
fn is_no_audience(claims: &ObjectRef<'_>) -> bool
    ensures { result ≡ is_no_audience claims.now }
{
    is_no_text(claims, "aud")
        && match claims.list("aud") {
            Some(list) => !list.are_texts(),
            None => true,
        }
}

/// Whether the date is there and no number.
fn is_no_number(claims: &ObjectRef<'_>, name: &str) -> bool
    ensures { result ≡ is_no_number name.now claims.now }
{
    claims.has(name) && !claims.number(name)
}

/// Whether the date is there and no whole number within 64 signed bits.
fn is_no_date(claims: &ObjectRef<'_>, name: &str) -> bool
    ensures { result ≡ is_no_date name.now claims.now }
{
    claims.has(name) && claims.whole(name).is_none()
}

/// The first registered claim of another kind.
#[tactic(auto, unfolding(crate::specs::ClaimKinds::kind_fault))]
fn kind_fault(claims: &ObjectRef<'_>) -> Option<ClaimFault<'static>>
    ensures { result ≡ kind_fault claims.now }
{
    if is_no_text(claims, "iss") {
        Some(ClaimFault::ClaimKind(Claim::Iss))
    } else if is_no_text(claims, "sub") {
        Some(ClaimFault::ClaimKind(Claim::Sub))
    } else if is_no_audience(claims) {
        Some(ClaimFault::ClaimKind(Claim::Aud))
    } else if is_no_number(claims, "exp") {
        Some(ClaimFault::ClaimKind(Claim::Exp))
    } else if is_no_date(claims, "exp") {
        Some(ClaimFault::ClaimDate(Claim::Exp))
    } else if is_no_number(claims, "nbf") {
        Some(ClaimFault::ClaimKind(Claim::Nbf))
    } else if is_no_date(claims, "nbf") {
        Some(ClaimFault::ClaimDate(Claim::Nbf))
    } else if is_no_number(claims, "iat") {
        Some(ClaimFault::ClaimKind(Claim::Iat))
    } else if is_no_date(claims, "iat") {
        Some(ClaimFault::ClaimDate(Claim::Iat))
    } else if is_no_text(claims, "jti") {
        Some(ClaimFault::ClaimKind(Claim::Jti))
    } else {
        None
    }
}
