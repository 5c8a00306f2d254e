//! The two ways to print an answer: in JSON, or in lines.

/// How an answer is printed.
#[derive(Clone, Copy)]
pub enum Printing {
    /// In lines.
    Lines,

    /// As one JSON object on one line, by `--json`.
    Json,
}
