//! JSON for a person at a terminal.
//!
//! [`shown_json`] lays a JSON text out, a line for each item and member, and escapes each character that a terminal may obey or that can't be
//! seen, so that what it writes is still the same JSON value; [`push_quoted`] writes one text so. [`date_text`] is the date of a moment.
mod dates;
mod layout;
mod obeyed;
mod shown;
mod strings;

pub use dates::date_text;
pub use obeyed::is_obeyed;
pub use shown::shown_json;
pub use strings::push_quoted;
