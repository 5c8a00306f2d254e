//! Judges a signed JSON Web Token: the verdict, what became of each signature, and each try of a key that was paid.
//!
//! [`validate`] takes a token from a source and [`judge`] takes it in hand. Both try the eligible pairs of signature and key in
//! order, each at most once, paid from the caller's [`Budget`](jwt_mac::Budget), and stop before a pair that would pass its
//! ceiling or the policy's `max_calls` (RFC 7515, section 5.2; RFC 8725, section 3).
//! [`judge_under`] judges under [`Terms`], and hands out the token that it read beside the report.
//! [`judge_token`] judges a token that [`read_token`] has read.
#![tactic(auto)]

mod conclusion;
mod judging;
pub mod laws;
mod live_signature;
mod next_key;
mod pair;
mod reading;
mod report;
mod signature_outcome;
mod terms;
mod tries;

pub use judging::{JudgedToken, judge, judge_token, judge_under, validate};
pub use reading::{read_token, without_line_feed};
pub use report::{Fault, InputFault, Report, SigState, Try, Verdict};
pub use terms::Terms;
