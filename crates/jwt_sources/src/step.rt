use jwt_request::urls::Asked;

/// What is fetched next for a source.
#[derive(Debug, Drop)]
pub struct Target {
    pub asked: Asked,
    /// The URL to which metadata or a redirection led; `None`: where the source stands.
    pub led: Option<Vec<u8>>,
    /// How many redirections were followed.
    pub followed: u32,
}

/// How far the fetch of a source is.
#[derive(Debug, Drop)]
pub enum Step {
    /// Nothing is to be fetched.
    Nothing,
    /// This is to be fetched, and isn't handed out yet.
    Due(Target),
    /// It is handed out under this ticket.
    Out(u64, Target),
}

/// What follows on an answer.
#[derive(Debug, Drop)]
pub enum Follows {
    /// Its content is to be a key set.
    Keys,
    /// Something else is to be fetched.
    Step(Target),
    /// The fetch failed.
    Failed(Failure),
}

/// Why a fetch failed.
#[derive(Clone, Copy, Debug, PartialEq, Eq)]
pub enum Failure {
    /// By its status of HTTP; or nothing came.
    Status,
    /// It redirects to another origin, or to no URL.
    Redirection,
    /// It redirects too often.
    TooOften,
    /// The metadata are none, are of another issuer, or tell no URL of keys by `https`.
    Metadata,
    /// It has more octets than a key set may have.
    TooLong,
    /// No keys came with the content: it is no key set, or none that may be used.
    NoKeys,
}

/// The keys of a source, as the caller has prepared them.
#[derive(Drop)]
pub struct Keys<K> {
    /// The ticket by whose answer they came.
    pub ticket: u64,
    pub prepared: K,
}
