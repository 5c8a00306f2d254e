//! A signed token over the octets that it was read from.
ghost use Rattle.std.specs.Prelude.{◌≡◌, ◌<◌, ◌≤◌, ◌↔◌, length, map, option_map, slice_get, IsTrue};
ghost use Rattle.jwt_mac.specs.Verifying.{message_octets};
ghost use Rattle.jwt_jws.specs.Token.{message_of};
ghost use Rattle.jwt_jws.specs.declared.fault.Form.TheVariants.{Compact};

use crate::fault::Form;
use crate::signature::Signature;
use jwt_mac::Message;
use jwt_text::Part;

/// A signed token, read and not verified. It has 1 to 32 signatures.
///
/// It stands over the octets that it was read from: of a token in compact form no octet of a signing input is copied.
#[derive(Drop)]
pub struct Signed<'a> {
    pub(crate) form: Form,
    pub(crate) payload_text: Part<'a>,
    pub(crate) payload: Vec<u8>,
    pub(crate) first: Signature<'a>,
    pub(crate) more: Vec<Signature<'a>>,
    ghost few: { length more.items ≤ 31 },
}

impl<'a> Signed<'a> {
    ghost use Rattle.jwt_jws.specs.Views.{parts, signatures_left, token};

    /// The serialization.
    pub fn form(&self) -> Form
        ensures { result ≡ (token self.now).form }
    {
        self.form
    }

    /// Whether the token is in compact form.
    pub fn is_compact(&self) -> bool
        ensures { IsTrue result ↔ ((token self.now).form ≡ Compact) }
    {
        self.form == Form::Compact
    }

    /// The payload text, a part of each signing input: base64url.
    pub fn payload_text(&self) -> &[u8]
        ensures { result.now ≡ (token self.now).payload_text }
    {
        self.payload_text.octets()
    }

    /// The octets that the payload text spells.
    pub fn payload(&self) -> &[u8]
        ensures { result.now ≡ (token self.now).payload }
    {
        self.payload.as_slice()
    }

    /// The number of signatures, 1 to 32.
    pub fn count(&self) -> u32
        ensures count { result ≡ length (token self.now).signatures }
        ensures range { (0 < length (token self.now).signatures)
            × (length (token self.now).signatures ≤ 32) }
    {
        1 + self.more.len() as u32
    }

    /// Signature `i`, from 0; `None` past the last.
    pub fn signature(&self, i: u32) -> Option<&Signature<'a>>
        ensures { option_map (λ s. parts s.now) result ≡ slice_get (token self.now).signatures i }
    {
        if i == 0 {
            Some(&self.first)
        } else {
            self.later(i as usize - 1)
        }
    }

    /// The signatures, in order.
    pub fn iter(&self) -> Signatures<'_, 'a>
        ensures { signatures_left result ≡ (token self.now).signatures }
    {
        Signatures {
            signed: self,
            number: 0,
        }
    }

    /// Of those after the first, the one at this place, from 0.
    fn later(&self, place: usize) -> Option<&Signature<'a>>
        ensures { option_map (λ s. parts s.now) result
            ≡ slice_get (map parts self.now.more.items) place }
    {
        self.more.get(place)
    }

    /// The signing input of signature `i`, from 0, lent (RFC 7515, section 5.1); `None` past the last.
    pub fn message(&self, i: u32) -> Option<Message<'_>>
        ensures { option_map message_octets result
            ≡ option_map (message_of (token self.now)) (slice_get (token self.now).signatures i) }
    {
        match self.signature(i) {
            Some(signature) => Some(Message {
                protected: signature.protected_text(),
                payload: self.payload_text(),
            }),
            None => None,
        }
    }
}

/// The signatures of a token, from [`Signed::iter`].
#[derive(Clone, Copy)]
pub struct Signatures<'s, 'a> {
    signed: &'s Signed<'a>,
    number: u32,
}

impl<'s, 'a> Iterator for Signatures<'s, 'a> {
    ghost use Rattle.std.specs.Iterator.{YieldsFirstBy, item_count};
    ghost use Rattle.jwt_jws.specs.Views.{parts, signatures_left};

    type Item = &'s Signature<'a>;

    ghost next_gives = { YieldsFirstBy (λ s. parts s.now) signatures_left };

    ghost remaining = { item_count signatures_left };

    fn next(&mut self) -> Option<&'s Signature<'a>> {
        let signature = self.signed.signature(self.number)?;
        self.number += 1;
        Some(signature)
    }
}
