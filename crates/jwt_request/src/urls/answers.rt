ghost use Rattle.std.specs.Prelude.{◌≡◌, ◌↔◌, IsTrue};
ghost use Rattle.jwt_request.specs.urls.Answers.{IsNext, IsRedirection, most_of};

use jwt_text::LONGEST_KEY_SET;

/// What was asked for.
#[derive(Clone, Copy, Debug, PartialEq, Eq)]
pub enum Asked {
    /// A key set.
    Keys,
    /// The metadata of OpenID Connect Discovery.
    OpenId,
    /// The metadata of RFC 8414.
    OAuth,
}

/// What follows on an answer.
#[derive(Clone, Copy, Debug, PartialEq, Eq)]
pub enum Next {
    /// Its content is taken.
    Take,
    /// The URL is asked to which it redirects, if that is one that is followed.
    Follow,
    /// The metadata of RFC 8414 are asked for.
    AskOAuth,
    /// The fetch failed, since it redirects too often.
    TooOften,
    /// The fetch failed, by this status.
    Fail,
}

/// What follows on an answer by its status, where so many redirections were followed already.
pub fn next_of(asked: Asked, status: u32, followed: u32) -> Next
    ensures { IsNext asked status followed result }
{
    if status == 200 {
        Next::Take
    } else if is_redirection(status) {
        if followed < 5 {
            Next::Follow
        } else {
            Next::TooOften
        }
    } else if asked == Asked::OpenId && status == 404 {
        Next::AskOAuth
    } else {
        Next::Fail
    }
}

fn is_redirection(status: u32) -> bool
    ensures { IsTrue result ↔ IsRedirection status }
{
    status == 301 || status == 302 || status == 303 || status == 307 || status == 308
}

impl Next {
    /// How many octets of the answer are taken at most: one that has more is a failed fetch.
    pub fn most(self) -> u32
        ensures { result ≡ most_of self }
    {
        match self {
            Next::Take => LONGEST_KEY_SET,
            _ => 0,
        }
    }
}
