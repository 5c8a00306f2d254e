//! The meaning of a policy and a key set together, and the advice on them.
//!
//! [`key_count`] tells for an algorithm how many keys can verify it, [`most`] the most that one token can cost, and [`advices`] what ought
//! to be written otherwise; [`advised_keys`] and [`private_entries`] tell of which keys. [`Findings`] has all of it.
//!
//! Nothing here reads a token, and nothing verifies a signature.
#![tactic(auto)]

mod advice;
mod costs;
mod findings;
pub mod laws;
mod notes;
mod private;
mod refused_keys;
mod rsa_keys;
mod secrets;
mod uses;

pub use advice::{Advice, EVERY, advices, advised_keys, advises, is_for_signing};
pub use costs::{Cost, most};
pub use findings::{AlgKeys, Findings, KeyFacts};
pub use notes::Note;
pub use private::private_entries;
pub use refused_keys::{is_refused_ec, is_refused_okp};
pub use rsa_keys::{is_refused_rsa, is_small_rsa};
pub use secrets::is_short;
pub use uses::{key_count, serves};
