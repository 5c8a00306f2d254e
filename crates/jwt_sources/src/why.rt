ghost use Rattle.std.specs.Prelude.{◌≡◌};
ghost use Rattle.jwt_sources.specs.Asking.{asker_of};

use jwt_request::renewal::Asker;

/// Why a token isn't let through, as far as newer keys may help.
#[derive(Clone, Copy, Debug, PartialEq, Eq)]
pub enum Why {
    /// There are no keys, or they are too old, or they are to be renewed.
    Keys,
    /// No key of the set is the one that the token names, or fits.
    NoKey,
    /// Its signature is none by the keys.
    BadSignature,
    /// Anything else: newer keys would say the same.
    Other,
}

impl Why {
    /// Who asks for newer keys; `None`: nobody. The token was judged by the keys of the fetch of this number.
    pub fn asker(self, fetch: u64) -> Option<Asker>
        ensures { result ≡ asker_of self fetch }
    {
        match self {
            Why::Keys => Some(Asker::Token),
            Why::NoKey | Why::BadSignature => Some(Asker::Refused(fetch)),
            Why::Other => None,
        }
    }
}
