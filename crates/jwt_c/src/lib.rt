//! The library for C: what `include/fowharimu.h` declares.
//!
//! Each exported function calls the one of `jwt_handles` that its comment names, and has the clauses of that one, word for word: a static library
//! exports its own functions alone.
#![tactic(auto)]

pub mod expect_exports;
pub mod exports;
pub mod issuer_exports;
pub mod once_exports;
pub mod possession_exports;
pub mod renewal_exports;
pub mod request_exports;
pub mod rule_exports;
pub mod url_exports;
