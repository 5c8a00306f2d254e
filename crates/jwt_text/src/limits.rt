//! How long a document may be, in octets.

/// The most octets of a policy, and of an access rule.
pub const LONGEST_POLICY: u32 = 65_536;

/// The most octets of a key set.
pub const LONGEST_KEY_SET: u32 = 4_194_304;

/// The most octets of a token.
pub const LONGEST_TOKEN: u32 = 1_048_576;
