//! The reason why a document is refused, in words for a person.
//!
//! [`policy_reason`], [`keys_reason`], [`access_reason`], [`service_reason`] and [`token_reason`] give the [`Reason`] why a document is refused, by the fault that
//! was found in it; where its text can't be JSON, or a name stands twice, it has the [`Position`]. No octet of a
//! key set is in one, and of a token only the recipients that [`claims_detail`] names. What they say is tested alone.
// A row of a table: between braces it is laid out as it stands.
macro_rules! row {
    ($name:literal, $text:literal) => {
        ($name, $text)
    };
}

mod advice;
mod answers;
mod cause;
mod detail;
mod members;
mod place;
mod reason;
mod reasons;
mod scan;
mod sentences;

pub(crate) use answers::advice_sentence;
pub use answers::{around_token, token_sentences};
pub use cause::Cause;
pub use detail::claims_detail;
pub use members::member_words;
pub use place::{Position, place_behind};
pub use reason::Reason;
pub use reasons::{access_reason, keys_reason, policy_reason, service_reason, token_reason};
