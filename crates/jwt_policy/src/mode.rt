//! The signatures of a token that have to be verified: any, or all.

/// Which signatures of a token must be verified. RFC 7515, section 5.2, leaves this to the application.
#[derive(Clone, Copy, Debug, PartialEq, Eq)]
pub enum Mode {
    /// One of them: the run ends at the first that is verified.
    Any,
    /// Each of them: the run ends at the first that isn't.
    All,
}
