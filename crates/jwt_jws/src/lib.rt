//! Signed tokens in their three serializations (RFC 7515, section 7): compact, general JSON and flattened JSON.
//!
//! [`parse`] answers a [`Signed`] token that stands over the octets handed in, or the first cause why they are none. It
//! verifies nothing.
#![tactic(auto)]

mod compact;
mod crit;
mod fault;
mod json;
pub mod laws;
mod parsing;
mod signature;
mod signed;
mod signing;
mod unprotected;

pub use compact::{CompactTexts, compact_texts};
pub use fault::{Form, FormFault, Place};
pub use json::opens_object;
pub use parsing::{parse, parse_with};
pub use signature::Signature;
pub use signed::{Signatures, Signed};
