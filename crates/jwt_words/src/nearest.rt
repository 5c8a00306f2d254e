//! The known name that is near to a text, for what is said of wrong words.
use std::alloc::{AllocError, Global};
use strsim::jaro;

/// The name that is nearest to a text by Jaro's measure, whichever letters are capitals; none where all are far, at 0.7 or less.
pub(crate) fn nearest(
    alloc: Global,
    text: &str,
    names: &[&'static str],
) -> Result<Option<&'static str>, AllocError> {
    let word = text.to_lowercase(alloc)?;
    let mut best = None;
    let mut least = 0.7;
    for name in names {
        let close = jaro(alloc, word.as_str(), name.to_lowercase(alloc)?.as_str())?;
        if close > least {
            least = close;
            best = Some(*name);
        }
    }
    Ok(best)
}
