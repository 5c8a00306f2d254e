//! Public keys in DER: SubjectPublicKeyInfo (RFC 5280, section 4.1) and RSAPublicKey (RFC 8017, appendix A.1.1), read strictly (ITU-T X.690),
//! without allocating.

mod element;
mod fit;
mod kind;
pub mod laws;
mod point;
mod public_key;
mod refusal;
mod rsa;

pub use public_key::{read_public_key, read_rsa_public_key};
pub use refusal::Refusal;
