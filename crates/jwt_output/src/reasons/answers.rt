//! What is said of a token, beside the line that the command has answered.
use crate::reasons::advice::advice;
use crate::reasons::cause::Cause;

/// What a refusal or a denial of a token means and what to do; none of any other answer.
pub fn token_sentences(cause: Cause) -> Option<&'static str> {
    Some(cause.row()?.1)
}

/// What stands around a token that is no part of it, and what to do; none where nothing does that is known.
pub fn around_token(token: &[u8]) -> Option<&'static str> {
    if token.starts_with(b"Bearer ") {
        return Some("`Bearer ` stands in front of it, which is the header's: leave it out");
    }
    if token.ends_with(b"\n") {
        return Some(
            "it ends in a line feed, which is no part of it: `--trim` or `--token FILE` drops it, and so does `\"line_feed\": true` in the policy",
        );
    }
    None
}

/// What an advice says and what to write, by its name.
pub(crate) fn advice_sentence(name: &str) -> &'static str {
    for (known, sentence) in advice() {
        if *known == name {
            return *sentence;
        }
    }
    ""
}
