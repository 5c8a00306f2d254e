//! The options of the command, as one table: an option is a row.

/// What an option takes.
#[derive(Clone, Copy)]
pub(crate) enum Takes {
    /// Nothing: it is a flag.
    Nothing,
    /// A text.
    Text,
    /// A text, and it has to be there.
    Needed,
    /// A number of octets.
    Size,
    /// The form of a token.
    Form,
    /// A moment, which may be left out where there is a clock.
    Moment,
    /// A moment, which may be left out.
    MaybeMoment,
}

/// An option `--name`.
#[derive(Clone, Copy)]
pub(crate) struct OptionRow {
    pub name: &'static str,
    /// What help calls its value; nothing of a flag.
    pub value: &'static str,
    pub takes: Takes,
    pub help: &'static str,
}

// A row of the table: its name, what help calls its value, what it takes, and its help.
macro_rules! row {
    ($name:literal, $value:literal, $takes:ident, $help:literal) => {
        OptionRow {
            name: $name,
            value: $value,
            takes: Takes::$takes,
            help: $help,
        }
    };
}

/// The options of `mac`.
pub(crate) const MAC: [OptionRow; 3] = [
    row! { "k", "TEXT", Text, "The key, octets in base64url; other users can see it, so it is for test keys" },
    row! { "key-file", "FILE", Text, "The file of the key, octets in base64url, in the place of --k" },
    row! { "limit", "N", Size, "The most octets of a token" },
];

/// The options of `keys`.
pub(crate) const KEYS: [OptionRow; 1] = [
    row! { "json", "", Nothing, "Prints one JSON object on one line" },
];

/// The options of `show`.
pub(crate) const SHOW: [OptionRow; 4] = [
    row! { "limit", "N", Size, "The most octets of a token" },
    row! { "json", "", Nothing, "Prints one JSON object on one line" },
    row! { "pretty", "", Nothing, "Prints the headers and the payload for a person, with the dates in words" },
    row! { "now", "N", MaybeMoment, "The moment, in seconds since 1970-01-01T00:00:00Z, or as a date, 2026-01-31T12:00:00Z; where it is left out, the clock's" },
];

/// The options of `verify`.
pub(crate) const VERIFY: [OptionRow; 9] = [
    row! { "now", "N", Moment, "The moment, in seconds since 1970-01-01T00:00:00Z, or as a date, 2026-01-31T12:00:00Z; where it is left out, the clock's" },
    row! { "public-keys", "", Nothing, "Verifies signatures by public keys too: RS256, RS384, RS512, PS256, PS384, PS512, ES256, ES384, ES512, EdDSA (Ed25519)" },
    row! { "policy", "FILE", Text, "The file of the policy, which standard input then lacks" },
    row! { "keys", "FILE", Text, "The file of the key set, which standard input then lacks" },
    row! { "token", "FILE", Text, "The file of the token, of which one final line feed is dropped; - is standard input, and so is --trim" },
    row! { "access", "FILE", Text, "The file of an access rule, which the claims of an accepted token have to meet" },
    row! { "expect", "NAME=TEXT", Text, "The claim NAME of an accepted token has to be this very text, as the nonce of a login" },
    row! { "lines", "", Nothing, "Answers each line of standard input as a token, before the next is waited for; needs --policy and --keys" },
    row! { "json", "", Nothing, "Prints one JSON object on one line" },
];

/// The options of `issue`.
pub(crate) const ISSUE: [OptionRow; 4] = [
    row! { "alg", "A", Needed, "The algorithm: HS256, HS384 or HS512" },
    row! { "typ", "T", Text, "The media type of the token, as its header names it" },
    row! { "form", "F", Form, "The form of the token: compact, json or flattened" },
    row! { "keys", "FILE", Text, "The file of the key set, which standard input then lacks" },
];

/// The options of `jwk`.
pub(crate) const JWK: [OptionRow; 9] = [
    row! { "file", "FILE", Text, "The file of the keys, in the place of standard input" },
    row! { "der", "", Nothing, "Reads one key in DER, in the place of PEM" },
    row! { "kid", "NAME", Text, "The kid of each key" },
    row! { "kid-thumbprint", "", Nothing, "Gives each key its thumbprint by SHA-256 as kid" },
    row! { "alg", "A", Text, "The alg of each key: RS256, RS384, RS512, PS256, PS384, PS512, ES256, ES384, ES512 or EdDSA" },
    row! { "bare", "", Nothing, "Prints the JWK alone, of one key" },
    row! { "new", "A", Text, "Makes a new secret, for HS256, HS384 or HS512; reads no key" },
    row! { "secret", "FILE", Text, "The file of a secret, its octets as they are, for the HS256, HS384 or HS512 of --alg" },
    row! { "json", "", Nothing, "Prints one JSON object on one line" },
];

/// The options of `policy`.
pub(crate) const POLICY: [OptionRow; 4] = [
    row! { "policy", "FILE", Text, "The file of the policy" },
    row! { "keys", "FILE", Text, "The file of the key set that goes with it" },
    row! { "service", "FILE", Text, "The file of a service document, in the place of --policy and --keys" },
    row! { "json", "", Nothing, "Prints one JSON object on one line" },
];
