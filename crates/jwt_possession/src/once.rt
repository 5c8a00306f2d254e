//! No token twice: a bounded memory of the tokens that were taken, by their issuer and `jti`.
//!
//! A [`Once`] is asked behind the verdict, with each token that was accepted ([`Once::take_accepted`]). It answers whether the token is new, and
//! holds it until the moment from which the token would be refused anyway. Of a pair of issuer and `jti` it holds a digest of 32 octets, and at
//! most so many.

mod accepted;
pub mod laws;
mod mark;
mod once;
mod owners;
mod table;

pub use accepted::{Entry, Lack, entry_of, issued_of, owner_in};
pub use mark::{marks_tell_apart, owner_of};
pub use once::{Once, Taken, Times};
