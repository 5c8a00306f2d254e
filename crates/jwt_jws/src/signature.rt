//! One signature of a token.
ghost use Rattle.std.specs.Prelude.{◌≡◌, option_map};
ghost use Rattle.jwt_jws.specs.Crit.{crit_repeats};
ghost use Rattle.jwt_jws.specs.Token.{alg_text, in_header, in_unprotected, kid};

use jwt_text::{Object, Part};

/// One signature of a signed token, with its two headers. No name is in both.
#[derive(Drop)]
pub struct Signature<'a> {
    pub(crate) protected_text: Part<'a>,
    pub(crate) protected: Object,
    pub(crate) unprotected: Option<Object>,
    pub(crate) octets: Vec<u8>,
    pub(crate) repeats: bool,
    ghost settled: { repeats ≡ crit_repeats protected },
}

impl Signature<'_> {
    ghost use Rattle.jwt_jws.specs.Views.{parts};

    /// The protected text, a part of the signing input: base64url, or empty in JSON form.
    pub fn protected_text(&self) -> &[u8]
        ensures { result.now ≡ (parts self.now).protected_text }
    {
        self.protected_text.octets()
    }

    /// The protected header.
    pub fn protected(&self) -> &Object
        ensures { result.now ≡ (parts self.now).protected }
    {
        &self.protected
    }

    /// The unprotected header, `None` where there is none. In compact form there is none.
    pub fn unprotected(&self) -> Option<&Object>
        ensures { option_map (λ o. o.now) result ≡ (parts self.now).unprotected }
    {
        self.unprotected.as_ref()
    }

    /// The octets of the signature itself.
    pub fn octets(&self) -> &[u8]
        ensures { result.now ≡ (parts self.now).octets }
    {
        self.octets.as_slice()
    }

    /// The text `alg` of the protected header (RFC 7515, section 4.1.1), `None` where it is absent or no text. An `alg` that
    /// stands in the unprotected header alone isn't seen.
    pub fn alg_text(&self) -> Option<&str>
        ensures { option_map (λ s. s.now) result ≡ alg_text (parts self.now) }
    {
        self.protected.text("alg")
    }

    /// The text `kid` of either header (RFC 7515, section 4.1.4), `None` where it is absent or no text.
    pub fn kid(&self) -> Option<&str>
        ensures { option_map (λ s. s.now) result ≡ kid (parts self.now) }
    {
        if self.protected.has("kid") {
            return self.protected.text("kid");
        }
        match &self.unprotected {
            Some(unprotected) => unprotected.text("kid"),
            None => None,
        }
    }

    /// Whether one of the two headers has this name.
    pub fn in_header(&self, name: &str) -> bool
        ensures { result ≡ in_header name.now (parts self.now) }
    {
        self.protected.has(name) || self.in_unprotected(name)
    }

    /// Whether the unprotected header has this name.
    pub fn in_unprotected(&self, name: &str) -> bool
        ensures { result ≡ in_unprotected name.now (parts self.now) }
    {
        match &self.unprotected {
            Some(unprotected) => unprotected.has(name),
            None => false,
        }
    }

    /// Whether the list `crit` of the protected header has a name twice (RFC 7515, section 4.1.11). It was settled when the
    /// token was read.
    pub fn crit_repeats(&self) -> bool
        ensures { result ≡ crit_repeats (parts self.now).protected }
    {
        self.repeats
    }
}
