//! Texts of equal parts.
use std::alloc::{AllocError, Global};

/// So many times this text, with this one between two.
pub fn repeated(
    alloc: Global,
    text: &str,
    between: &str,
    times: usize,
) -> Result<String, AllocError> {
    let mut all = String::new(alloc);
    for place in 0..times {
        if place > 0 {
            all.push_str(between)?;
        }
        all.push_str(text)?;
    }
    Ok(all)
}

/// The text of an object that holds so many lists in one another.
pub fn nested(alloc: Global, lists: usize) -> Result<String, AllocError> {
    let opened = repeated(alloc, "[", "", lists)?;
    let closed = repeated(alloc, "]", "", lists)?;
    format!(in alloc; r#"{{"a":{opened}{closed}}}"#)
}
