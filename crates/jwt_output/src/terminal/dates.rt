//! Dates of moments.

use jiff::Timestamp;
use jiff::tz::Offset;
use std::alloc::{AllocError, Global};

/// 0000-01-01T00:00:00Z.
const FIRST_DATE: i64 = -62_167_219_200;

/// The date of a moment, in seconds since 1970-01-01T00:00:00Z, as `2011-03-22T18:43:00Z` (RFC 3339, section 5.6); none where its year isn't
/// one of 0 to 9999, or it is one of the last 26 hours of these.
///
/// # Errors
/// `AllocError`, where an allocation was refused.
pub fn date_text(alloc: Global, seconds: i64) -> Result<Option<String>, AllocError> {
    if seconds < FIRST_DATE {
        return Ok(None);
    }
    match Timestamp::from_second(seconds) {
        Ok(moment) => {
            let date = Offset::UTC.to_datetime(moment);
            Ok(Some(format!(in alloc; "{date}Z")?))
        }
        Err(_) => Ok(None),
    }
}
