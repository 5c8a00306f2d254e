//! The answers of the exported functions: `enum fow_status` of the header.

/// Done. Of a verdict: the token is accepted.
pub const FOW_OK: u32 = 0;
/// Refused, for the fault that is named.
pub const FOW_REFUSED: u32 = 1;
/// Memory was refused.
pub const FOW_OUT_OF_MEMORY: u32 = 3;
/// Nothing is held.
pub const FOW_NOT_OPEN: u32 = 4;
/// There is too little room for what is to be written.
pub const FOW_TOO_SHORT: u32 = 5;
/// There is no such thing.
pub const FOW_ABSENT: u32 = 6;
/// The accepted token may not do this.
pub const FOW_DENIED: u32 = 7;
/// The token names no issuer.
pub const FOW_UNNAMED: u32 = 8;
/// The accepted token hasn't what is expected of it.
pub const FOW_NOT_EXPECTED: u32 = 9;

/// Why a document isn't held.
#[derive(Clone, Copy, Debug, PartialEq, Eq)]
pub struct NotHeld {
    /// [`FOW_REFUSED`], or [`FOW_OUT_OF_MEMORY`].
    pub status: u32,
    /// Where it is refused, the number of its fault; else 0.
    pub fault: u32,
}
