ghost use Rattle.std.specs.Prelude.{◌≡◌, ◌↔◌, ◌≤◌, ◌<◌, ◌-◌, IsTrue, length};
ghost use Rattle.jwt_request.specs.Spelled.{AreLetters, IsLetter, IsScheme, letters_of, takes};

/// A scheme of the header `Authorization` by which a request carries a token.
#[derive(Clone, Copy, Debug, PartialEq, Eq)]
pub enum Scheme {
    /// A token of whoever has it (RFC 6750).
    Bearer,
    /// A token that is bound to a key, beside a proof by that key (RFC 9449, section 7.1).
    Dpop,
}

/// The schemes that a service takes.
#[derive(Clone, Copy, Debug, PartialEq, Eq)]
pub struct Schemes {
    /// Whether it takes [`Scheme::Bearer`].
    pub bearer: bool,
    /// Whether it takes [`Scheme::Dpop`].
    pub dpop: bool,
}

impl Schemes {
    /// Whether it takes this one.
    pub fn takes(self, scheme: Scheme) -> bool
        ensures { result ≡ takes self scheme }
    {
        match scheme {
            Scheme::Bearer => self.bearer,
            Scheme::Dpop => self.dpop,
        }
    }
}

impl Scheme {
    /// The letters of its name, small ones.
    pub(crate) fn letters(self) -> &'static [u8]
        ensures letters { result.now ≡ letters_of self }
        ensures some { 4 ≤ length result.now }
        ensures few { length result.now ≤ 6 }
    {
        match self {
            Scheme::Bearer => b"bearer",
            Scheme::Dpop => b"dpop",
        }
    }

    /// Whether its letters stand there.
    pub(crate) fn is_at(self, value: &[u8], at: usize) -> bool
        requires { at ≤ length value.now }
        ensures { IsTrue result ↔ IsScheme self value.now at }
    {
        let letters = self.letters();
        value.len() - at >= letters.len() && are_letters(letters, value, at)
    }
}

/// Whether these letters stand there, each small or capital.
fn are_letters(small: &[u8], value: &[u8], at: usize) -> bool
    requires { length small.now ≤ length value.now - at }
    ensures { IsTrue result ↔ AreLetters small.now value.now at }
{
    let mut k = 0;
    while k < small.len() && is_letter(small[k], value[at + k]) {
        k += 1;
    }
    k == small.len()
}

/// Whether it is that small letter, or the capital one.
fn is_letter(small: u8, octet: u8) -> bool
    ensures { IsTrue result ↔ IsLetter small octet }
{
    octet == small || octet as u16 + 32 == small as u16
}
