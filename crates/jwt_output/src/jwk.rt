//! The line of `jwk`.
ghost use Rattle.std.specs.Prelude.{◌≡◌, IfOk};
ghost use Rattle.jwt_output.specs.Jwk.{jwk_line};
ghost use Rattle.jwt_output.specs.Views.{reply_view};

use crate::reply::Reply;
use std::alloc::AllocError;

/// A key set or a JWK, on one line.
pub fn jwk_line(json: Vec<u8>) -> Result<Reply, AllocError>
    ensures { IfOk result (λ a. reply_view a ≡ jwk_line json.items) }
{
    let mut text = json;
    text.push(b'\n')?;
    Ok(Reply::of(text, 0))
}
