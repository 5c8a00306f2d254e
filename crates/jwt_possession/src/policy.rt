//! The policy for proofs.

ghost use Rattle.std.specs.Prelude.{◌≡◌, Ok, Some, None, IfOk, IfErr};
ghost use Rattle.std.specs.List.{list_any};
ghost use Rattle.jwt_mac.specs.Algorithm.{is_hmac_alg};
ghost use Rattle.jwt_text.specs.Rows.{first_row};
ghost use Rattle.jwt_policy.specs.Document.{policy_of};
ghost use Rattle.jwt_possession.specs.ProofPolicies.{policy_rows, requires_all, IsProofPolicy, IsProofPolicyFault};

use jwt_mac::Alg;
use jwt_policy::{Policy, PolicyFault, is_among};
use std::alloc::Global;
use std::marker::Model;

/// What a policy lacks that is to be one for proofs.
#[derive(Clone, Copy, Debug, PartialEq, Eq)]
pub enum PolicyLack {
    /// Its `typ` isn't the text `dpop+jwt`.
    Typ,
    /// One of its `algs` is by a shared secret.
    SharedSecret,
    /// One of `jti`, `htm`, `htu` and `iat` isn't in `required`.
    Required,
    /// There is no `max_age`.
    MaxAge,
}

/// Why a document is no policy for proofs.
#[derive(Debug, Drop)]
pub enum ProofPolicyFault {
    /// It is no policy document.
    Document(PolicyFault),
    /// It is one, and not one for proofs.
    Lacks(PolicyLack),
}

impl PolicyLack {
    ghost use Rattle.jwt_possession.specs.FaultNames.{lack_name};

    /// The name of the lack, that of its variant.
    pub fn name(self) -> &'static str
        ensures { result.now ≡ lack_name self }
    {
        match self {
            PolicyLack::Typ => "Typ",
            PolicyLack::SharedSecret => "SharedSecret",
            PolicyLack::Required => "Required",
            PolicyLack::MaxAge => "MaxAge",
        }
    }
}

impl ProofPolicyFault {
    ghost use Rattle.jwt_possession.specs.FaultNames.{proof_policy_fault_name};

    /// The name of the fault, that of its cause.
    pub fn name(&self) -> &'static str
        ensures { result.now ≡ proof_policy_fault_name self.now }
    {
        match self {
            ProofPolicyFault::Document(fault) => fault.name(),
            ProofPolicyFault::Lacks(lack) => lack.name(),
        }
    }
}

/// A policy under which a proof means what RFC 9449 says: its `typ` is `dpop+jwt` (section 4.2), it allows no algorithm by a shared
/// secret (section 4.3, step 5), `jti`, `htm`, `htu` and `iat` are required (step 3), and `iat` has a greatest age (step 11).
/// Contracts see the settings.
#[derive(Drop)]
pub struct ProofPolicy {
    policy: Policy,
}

impl Model for ProofPolicy {
    ghost use Rattle.std.specs.Prelude.{◌≡◌, None};
    ghost use Rattle.jwt_text.specs.Rows.{first_row};
    ghost use Rattle.jwt_policy.specs.Settings.{Settings};
    ghost use Rattle.jwt_possession.specs.ProofPolicies.{policy_rows};

    ghost Value = { Settings };

    ghost view = { λ p. p.policy };

    ghost invariant = { λ p. first_row (policy_rows p.policy) ≡ None };
}

/// Whether one of these algorithms is by a shared secret.
fn has_hmac(algs: &[Alg]) -> bool
    ensures { result ≡ list_any is_hmac_alg algs.now }
{
    algs.iter().any(|alg| alg.is_hmac())
}

/// Whether the policy requires the claims that each proof has (RFC 9449, section 4.2).
fn requires_all(policy: &Policy) -> bool
    ensures { result ≡ requires_all policy.now }
{
    let names = policy.required();
    is_among(names, "jti")
        && is_among(names, "htm")
        && is_among(names, "htu")
        && is_among(names, "iat")
}

/// What the policy lacks first.
fn first_lack(policy: &Policy) -> Option<PolicyLack>
    ensures { result ≡ first_row (policy_rows policy.now) }
{
    let is_typed = match policy.typ() {
        Some(typ) => typ == "dpop+jwt",
        None => false,
    };
    if !is_typed {
        return Some(PolicyLack::Typ);
    }
    if has_hmac(policy.algs()) {
        return Some(PolicyLack::SharedSecret);
    }
    if !requires_all(policy) {
        return Some(PolicyLack::Required);
    }
    if policy.max_age().is_none() {
        return Some(PolicyLack::MaxAge);
    }
    None
}

impl ProofPolicy {
    /// The policy for proofs that this policy is.
    ///
    /// # Errors
    /// The first of its lacks, in the order of [`PolicyLack`].
    pub fn of(policy: Policy) -> Result<ProofPolicy, PolicyLack>
        ensures ok { IfOk result (λ proofs. (proofs ≡ policy)
            × (first_row (policy_rows policy) ≡ None)) }
        ensures err { IfErr result (λ lack. first_row (policy_rows policy) ≡ Some lack) }
    {
        match first_lack(&policy) {
            None => Ok(ProofPolicy { policy }),
            Some(lack) => Err(lack),
        }
    }

    /// The policy for proofs of a document of a policy, as [`Policy::read`] reads it.
    ///
    /// # Errors
    /// `Document`, why it is no policy document; else `Lacks`, as [`ProofPolicy::of`] says.
    pub fn read(alloc: Global, document: &[u8]) -> Result<ProofPolicy, ProofPolicyFault>
        ensures ok { IfOk result (λ proofs. (policy_of document.now ≡ Ok proofs)
            × (first_row (policy_rows proofs) ≡ None)) }
        ensures err { IfErr result (IsProofPolicyFault document.now) }
    {
        match Policy::read(alloc, document) {
            Ok(policy) => match ProofPolicy::of(policy) {
                Ok(proofs) => Ok(proofs),
                Err(lack) => Err(ProofPolicyFault::Lacks(lack)),
            },
            Err(fault) => Err(ProofPolicyFault::Document(fault)),
        }
    }

    /// The policy, lent: it is one for proofs.
    #[tactic(auto, using(crate::proofs::Policies::is_proof_policy))]
    pub fn policy(&self) -> &Policy
        ensures value { result.now ≡ self.now }
        ensures proofs { IsProofPolicy self.now }
    {
        &self.policy
    }
}
