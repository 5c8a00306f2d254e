//! What a claim of an accepted token has to be.

/// A claim, and the text that it has to be.
#[derive(Clone, Copy)]
pub struct Expectation<'a> {
    /// The claim's name: that of a member of the claims, or, where it begins with `/`, a JSON Pointer through objects (RFC 6901), as in
    /// an access rule.
    pub claim: &'a str,

    /// The text that it has to be, octet by octet.
    pub text: &'a str,
}
