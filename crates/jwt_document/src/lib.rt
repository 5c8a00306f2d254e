//! The document of a service: one JSON text that says what a service asks of all requests.
#![tactic(auto)]

mod closed;
mod document;
mod entries;
mod fault;
mod given;
mod issuing;
mod needs;
mod pem;
mod place;
mod rows;
mod rules;
mod said;
mod tables;
mod together;
mod values;
mod words;

pub use document::Document;
pub use entries::{Entry, Source};
pub use fault::{FaultAt, RuleName, ServiceFault};
pub use place::Place;
pub use rows::{Cause, Within};
pub use rules::NamedRule;
pub use said::{Certificates, Dpop, Issue, Keys, Memory, Nonce, Onward, Remember, Whole};
