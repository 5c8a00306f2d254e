//! Laws of the definitions: each function does nothing, and its contract holds of every reply and every value.

ghost use Rattle.jwt_request.specs.Laws.{Challenged, OneFound};

/// Whatever is answered with 401 has at least one challenge (RFC 9110, section 15.5.2).
pub fn challenged()
    ensures { Challenged }
{}

/// What is found in the value of a header `Authorization` is one thing: no scheme that is taken, or one that carries no token, or one token.
pub fn one_found()
    ensures { OneFound }
{}
