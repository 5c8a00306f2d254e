//! The output of the command `jwt`: lines and JSON of a verdict, of a key set, of a token that is shown, of a tag, of a JWK, of what a policy
//! means and of what is refused, and how they go out; JSON for a person at a terminal; and why a document is refused.
//!
//! A [`Reply`] is a whole answer with its status; [`give`] and [`send`] send it. [`JsonOut`] writes the JSON of one.
#![tactic(auto)]

pub mod fields;
mod json_out;
mod json_show;
mod jwk;
mod keys;
mod mac;
mod nearest;
mod pieces;
mod pretty;
pub mod reasons;
mod refusals;
mod refused_service;
mod reply;
mod sending;
mod show;
pub mod terminal;
pub mod verdicts;

pub use json_out::JsonOut;
pub use jwk::jwk_line;
pub use keys::printed_set;
pub use mac::{Digest, digest_line, refused_key};
pub use nearest::nearest_member;
pub use pieces::put_labelled;
pub use pretty::pretty_token;
pub use refusals::{
    printed_access_fault, printed_file_fault, printed_form_fault, printed_keys_fault,
    printed_policy_fault, printed_read_fault, random_failed, refused_claims, refused_issue,
    refused_jwk, refused_named,
};
pub use refused_service::printed_service_fault;
pub use reply::Reply;
pub use sending::{give, lack_memory, send};
pub use show::printed_token;
