//! A signed message, and the key that its signature is checked by, both lent.

ghost use Rattle.std.specs.Prelude.{◌≡◌, ◌∷◌, [], map};
ghost use Rattle.jwt_mac.specs.Hmac.{all_octets};

/// The two texts of a signing input (RFC 7515, section 5.1), as they stand in the token.
#[derive(Clone, Copy)]
pub struct Message<'a> {
    /// The base64url text of the protected header, which may be empty.
    pub protected: &'a [u8],
    /// The base64url text of the payload.
    pub payload: &'a [u8],
}

impl<'a> Message<'a> {
    ghost use Rattle.jwt_mac.specs.Verifying.{message_octets, signing_input};

    /// The signing input in three pieces: the protected text, a period, the payload text. Nothing
    /// is copied.
    pub fn parts(&self) -> [&'a [u8]; 3]
        ensures pieces { map (λ part. part.now) result
            ≡ self.now.protected.now ∷ (46 ∷ []) ∷ self.now.payload.now ∷ [] }
        ensures whole { all_octets result ≡ signing_input (message_octets self.now) }
    {
        [self.protected, b".", self.payload]
    }
}

/// What a verifier says of a signature.
#[derive(Clone, Copy, Debug, PartialEq, Eq)]
pub enum Answer {
    /// The key made this signature over this message.
    Valid,
    /// It didn't.
    Invalid,
    /// The verifier lacked memory to find out.
    NoMemory,
}
