//! All that a service needs to take JSON Web Tokens, from one crate.
//!
//! ```rust
//! use fowharimu::{KeySet, Policy, Reader, Validator};
//!
//! let policy = Policy::read(alloc, b"{\"algs\":[\"HS256\"],\"audiences\":[\"api\"],\"required\":[\"aud\",\"exp\"]}")?;
//! let keys = KeySet::read(alloc, document)?;
//! let validator = Validator::new(policy, keys, Vec::new(alloc));
//! let report = validator.validate(alloc, &mut Reader::new(stream), now, &mut validator.policy.budget());
//! ```
//!
//! A [`Validator`] is made once and judges each token that comes; a [`Remembering`] also keeps the tokens that it accepted, and answers the
//! same of them at once. Its verifiers are for public keys: [`BuiltIn`] is one for all of [`Rsa`], [`Ecdsa`] and [`Ed25519`], which may have
//! keys prepared, and a caller's own is a [`Verifier`]. The [`Report`] has the [`Verdict`], what became of each signature, and each try of a
//! key with its cost.
//!
//! An [`AccessRule`] says what an accepted token may do, by [`AccessRule::denial`] of its claims at a [`Moment`]. What one call knows of them, as the `nonce` of a
//! login, is held against them by [`first_unmet`]. Where a token counts once, as the last step a [`Once`] is asked: [`Once::take_accepted`] answers
//! [`Taken::New`] of each token one time, and nothing else lets it through.
//!
//! Where tokens are bound to a key (DPoP, RFC 9449), [`judge_proof`] judges the proof that comes beside one, by a [`ProofPolicy`], and [`Possession::take`] takes it
//! once; [`Nonces`] are nonces by time. [`first_unshown`] says whether each way in which a token is bound, to a key or to a client's certificate (RFC 8705), was
//! [`Shown`]: ask it of each token, a bearer's too.
//!
//! All of it is one question in a service: [`admit`] says whether a [`Service`] lets a request through, a [`Call`], and by which claims; else [`Admission::reply`] is what
//! is answered to it. [`decide`] and [`Passed::settle`] are its two halves, for a store that several processes share. [`admit_by_memory`] spares the signature of a token that comes
//! again.
//!
//! Each other name here is that of one of the libraries below: `jwt_text`, `jwt_mac`, `jwt_keys`, `jwt_jws`, `jwt_policy`, `jwt_access`,
//! `jwt_verify`, `jwt_memory`, `jwt_possession`, `jwt_request` (whose `Outcome` is [`RequestOutcome`] here), `jwt_service`, `jwt_issue`, `jwt_built_in`, `jwt_rsa`, `ecdsa` and `jwt_ed25519`. Their modules `laws` stand
//! here as `access_laws`, `expected_laws`, `token_laws`, of issuing, `memory_laws`, `once_laws`, `possession_laws`, `service_laws` and `verdict_laws`.
#![tactic(auto)]

mod remembering;
mod validator;

// Judging a token.
pub use jwt_keys::{Key, KeySet, KeysFault, Skip, SkipReason};
pub use jwt_mac::{Alg, Budget, CountDown, CountUp};
pub use jwt_policy::{
    Audience, Claim, ClaimFault, ClaimName, Claims, MemberName, Mode, Policy, PolicyFault, SigFault,
};
pub use jwt_text::{List, Object, ObjectRef, Reader, Source, TextFault};
pub use jwt_verify::{Fault, InputFault, Report, SigState, Try, Verdict, judge, validate};
pub use validator::Validator;

// What an accepted token may do.
pub use jwt_access::{AccessFault, AccessRule, Denial, DeniedName, Moment, RuleMember, has_scope};

// What one call knows of an accepted token's claims: texts, as a `nonce`, and octets whose hash a claim has to be, as `at_hash`.
pub use jwt_access::expected::{Expected, Unmet, Wanted, first_unmet};

// Taking a token once.
pub use jwt_possession::once::{Entry, Lack, Once, Taken, Times, entry_of, owner_in};

// Who sends a token holds the key that it is bound to.
pub use jwt_possession::{
    Access, Binding, BindingFault, KeyFault, NONCE_LEN, NONCE_SECRET_LEN, Nonces, PolicyLack,
    Possession, ProofFault, ProofPolicy, ProofPolicyFault, Request, RequestFault, Shown,
    certificate_holds, first_unshown, has_agreed_path, judge_proof, normal_uri,
};

// One question a request.
pub use jwt_request::{Challenge, Outcome as RequestOutcome, Reply, Scheme, Schemes, Texts};
pub use jwt_service::{
    Admission, AskingFault, Books, Call, Certificates, Issuer, NamedRule, Passed, Proofs,
    ProvingFault, RecalledAdmission, RecalledDecision, Refusal, Service, admit, admit_by_memory,
    decide, decide_by_memory,
};

// Judging the same token many times.
pub use jwt_memory::{Basis, Memory, Outcome};
pub use remembering::Remembering;

// Verifiers of signatures by public keys.
pub use ecdsa::jws::Ecdsa;
pub use jwt_built_in::{BuiltIn, PREPARED_KEYS};
pub use jwt_ed25519::Ed25519;
pub use jwt_mac::{Answer, EcCurve, EdCurve, KeyView, Message, Verifier};
pub use jwt_rsa::{Pkcs1, Pss, Rsa};

// Showing a token without trusting it.
pub use jwt_jws::{Form, FormFault, Place, Signature, Signed, parse};

// Issuing tokens.
pub use jwt_issue::{
    BuildFault, Builder, ClaimSet, IssueFault, issue_compact, issue_flat, issue_json,
};

// What follows from the definitions, to be called in a proof.
pub use jwt_access::expected::laws as expected_laws;
pub use jwt_access::laws as access_laws;
pub use jwt_issue::laws as token_laws;
pub use jwt_memory::laws as memory_laws;
pub use jwt_possession::laws as possession_laws;
pub use jwt_possession::once::laws as once_laws;
pub use jwt_service::laws as service_laws;
pub use jwt_verify::laws as verdict_laws;
