//! Examples that the tests of several commands share.

/// [`NOW`](jwt_support::examples::NOW), as a word.
pub(crate) const MOMENT: &str = "1300819379";

/// The words of `verify` at that moment.
pub(crate) const VERIFY: &[&str] = &["jwt", "verify", "--now", MOMENT];

/// The line of that token where it is accepted.
pub(crate) const ACCEPTED: &str = "accepted sig=0 key=0 tries=1 work=295";
