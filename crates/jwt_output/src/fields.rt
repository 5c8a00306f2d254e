//! Answers as lists of fields, and their two printings: a line, and a JSON object.
//!
//! [`report_answer`] is the answer of a report; [`Fields`] is any list, which is printed either way; a `Listing` is an answer of several.
mod field;
mod line;
mod list;
mod listing;
mod object;
mod verdict;

pub use field::{Field, FieldName, FieldValue};
pub use list::Fields;
pub(crate) use listing::Listing;
pub use verdict::report_answer;
pub(crate) use verdict::{put_claim, put_form};
