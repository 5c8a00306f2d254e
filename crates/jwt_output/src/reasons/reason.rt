//! A reason, in words and as JSON.
use crate::reasons::place::Position;
use crate::terminal::push_quoted;
use std::alloc::{AllocError, Global};

/// Why a document is refused.
#[derive(Debug, Drop)]
pub struct Reason {
    /// Where, if it is about a place.
    pub place: Option<Position>,

    /// What is wrong, in words.
    pub words: String,
}

impl Reason {
    /// The reason in one line, behind its line and its column where it is about a place.
    ///
    /// # Errors
    /// `AllocError`, where an allocation was refused.
    pub fn text(&self, alloc: Global) -> Result<String, AllocError> {
        let words = self.words.as_str();
        match self.place {
            Some(Position { line, column }) => {
                format!(in alloc; "line {line}, column {column}: {words}")
            }
            None => String::from_str(alloc, words),
        }
    }

    /// The reason as a JSON object, which names the document too.
    ///
    /// # Errors
    /// `AllocError`, where an allocation was refused.
    pub fn json(&self, alloc: Global, document: &str) -> Result<String, AllocError> {
        let mut name = String::new(alloc);
        push_quoted(&mut name, document)?;
        let mut words = String::new(alloc);
        push_quoted(&mut words, self.words.as_str())?;
        match self.place {
            Some(Position { line, column }) => {
                format!(in alloc;
                    "{{\"document\":{name},\"line\":{line},\"column\":{column},\"reason\":{words}}}"
                )
            }
            None => format!(in alloc; "{{\"document\":{name},\"reason\":{words}}}"),
        }
    }
}
