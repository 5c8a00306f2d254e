//! Common parts of the crates of tests: the examples of the standards by name, texts built from them, sources and sinks that drip or
//! fail, verifiers whose answers are known, and cases of `judge`, `validate` and the program, with how they are run and told.
//!
//! Functions that tests call have no clauses: a test carries the contracts of what it calls through its own proof, and those of the
//! validator are long.
#![tactic(auto)]

pub mod cases;
pub mod examples;
pub mod reports;
pub mod streams;
pub mod texts;
pub mod verifiers;
