//! Who sends a token holds the key that it is bound to: proofs of possession (DPoP, RFC 9449) and certificates (RFC 8705).
//!
//! A [`ProofPolicy`] says what is asked of proofs. [`judge_proof`] judges one beside a [`Request`] and the access token that came with it,
//! and answers a [`Possession`], or the first [`ProofFault`] in the order of RFC 9449, section 4.3. A [`Possession`] is taken once, by
//! [`Possession::take`], or by a store that several processes share, to which [`Possession::entry`] says how it is held. [`Nonces`] are nonces by
//! time, and [`ProofPolicy::write_algs`] has the text of the policy's algorithms. [`Binding::of`] says how an access token is bound, and [`certificate_holds`] whether a client's certificate is the
//! one that it is bound to.
//!
//! ```rust
//! use crate::{Access, ProofPolicy, Request, judge_proof};
//!
//! let document = b"{\"algs\":[\"ES256\"],\"typ\":\"dpop+jwt\",\"required\":[\"jti\",\"htm\",\"htu\",\"iat\"],\"max_age\":60}";
//! let policy = ProofPolicy::read(alloc, document)?;
//! let request = Request {
//!     method: "GET",
//!     uri: "https://api.example/things",
//!     nonce: None,
//!     access: Some(Access { token, claims: &claims }),
//! };
//! let possession = judge_proof(alloc, proof, &request, &policy, now, &verifiers)?;
//! ```
//!
//! The key in a proof's header verifies that proof and nothing else: it is nobody's that is known. What it says is that whoever made the
//! proof holds it; that it is the right one is said by the access token's `cnf`.
#![tactic(auto)]

mod alg_names;
mod binding;
pub mod laws;
mod nonces;
pub mod once;
mod own_key;
mod path;
mod policy;
mod possession;
mod proof;
mod request;
mod uri;

pub use binding::{Binding, BindingFault, Shown, certificate_holds, first_unshown};
pub use nonces::{NONCE_LEN, NONCE_SECRET_LEN, Nonces};
pub use own_key::KeyFault;
pub use path::{has_agreed_path, is_normal_path};
pub use policy::{PolicyLack, ProofPolicy, ProofPolicyFault};
pub use possession::Possession;
pub use proof::{ProofFault, judge_proof};
pub use request::{Access, Request, RequestFault};
pub use uri::normal_uri;
