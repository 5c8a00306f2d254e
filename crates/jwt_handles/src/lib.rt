//! What the library for C does: handles that C's callers own, and the functions on them, in octets and numbers.
//!
//! A validator is a [`handle::Handle`], which holds a [`state::State`] or nothing. Contracts see what it holds. Each function on one takes that
//! out, works on it in safe code, and puts it back. So does each on an access rule, which is a [`rule_handle::RuleHandle`] with a
//! [`rule_state::RuleState`], each on a memory of tokens that count once, which is a [`once_handle::OnceHandle`] with a
//! [`once_state::OnceState`], and each on a policy for proofs of possession, which is a [`possession_handle::PossessionHandle`] with a
//! [`possession_state::PossessionState`].
#![tactic(auto)]

mod access;
pub mod bound;
pub mod entries;
pub mod expecting;
mod faults;
pub mod grounds;
pub mod handle;
mod issuers;
mod issuing;
mod judging;
pub mod key_sources;
mod last;
pub mod nonces;
pub mod once_handle;
pub mod once_state;
pub mod onces;
pub mod opening;
pub mod possessing;
pub mod possession_handle;
pub mod possession_state;
pub mod possessions;
mod proving;
mod raw_box;
mod reading;
mod remembering;
pub mod renewal;
pub mod report;
pub mod requests;
pub mod rule_handle;
pub mod rule_state;
pub mod rules;
pub mod state;
pub mod status;
pub mod tokens;
pub mod urls;
pub mod verdicts;
mod writing;
