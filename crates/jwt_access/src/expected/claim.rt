//! The claim of a name, found without memory.

ghost use Rattle.std.specs.Prelude.{◌≡◌, option_and_then};
ghost use Rattle.jwt_access.specs.Pointers.{claim_at};
ghost use Rattle.jwt_access.specs.expected.Views.{found, walked};

use crate::expected::token::name_of;
use jwt_text::ObjectRef;

/// An object, and the name of a member that may stand in it.
#[derive(Drop)]
pub(crate) struct Spot<'a> {
    pub(crate) home: ObjectRef<'a>,
    pub(crate) own: &'a str,
}

/// The end of a JSON Pointer whose first `/` is left out, `None` where nothing stands there.
fn end_of<'a>(claims: ObjectRef<'a>, tokens: &'a str) -> Option<Spot<'a>>
    ensures { option_and_then found result ≡ walked tokens.entry.now claims.entry }
{
    let mut home = claims;
    let mut rest = tokens;
    'tokens: while let Some((token, more)) = rest.split_once('/') {
        let name = name_of(&home, token)?;
        home = home.object(name)?;
        rest = more;
    }
    let own = name_of(&home, rest)?;
    Some(Spot { home, own })
}

/// The spot of the claim of this name, `None` where nothing stands there.
pub(crate) fn spot_of<'a>(claims: ObjectRef<'a>, name: &'a str) -> Option<Spot<'a>>
    ensures { option_and_then found result ≡ claim_at name.entry.now claims.entry }
{
    match name.strip_prefix('/') {
        Some(tokens) => end_of(claims, tokens),
        None => Some(Spot {
            home: claims,
            own: name,
        }),
    }
}
