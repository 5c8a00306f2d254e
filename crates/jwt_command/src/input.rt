//! Taking a command's input: all of it, line by line, or one line and nothing behind it.
pub(crate) mod buffered;
pub mod line;
pub(crate) mod whole;
