//! Tokens in general JSON form.
ghost use Rattle.std.specs.Prelude.{◌≡◌, ◌≢◌, ◌+◌, ◌-◌, ◌≤◌, ◌<◌, ◌^◌, ◌++◌, ◌∷◌, [], ℕ, length, map, take, codes, None, Some, Ok, All, IsUtf8, IfOk, IfErr, OnOk, if◌then◌else◌};
ghost use Rattle.std.specs.List.{sum, join_with_byte};
ghost use Rattle.serde_json.specs.Data.{object};
ghost use Rattle.serde_json.specs.Written.{compact_text};
ghost use Rattle.jwt_text.specs.Answers.{Answers, unless};
ghost use Rattle.jwt_jws.specs.SignedToken.{IsSignedToken};
ghost use Rattle.jwt_issue.specs.Issued.{header, general_of, general_token, token_within, pair_costs, first_unfit, first_spent, signer_of, signing_cost, text_members, signature_element};
ghost use Rattle.jwt_issue.specs.Paying.{Pays, due};
ghost use Rattle.jwt_issue.specs.Signed.{general_signed};
ghost use Rattle.jwt_issue.specs.Views.{pair_parts, optional_text, signer_parts};

use crate::claim_set::ClaimSet;
use crate::fault::IssueFault;
use crate::header::spell;
use crate::laws::general_tokens_are_signed;
use crate::signer::Signer;
use crate::size::general_len;
use crate::writing::{add_signature, add_text};
use jwt_keys::Key;
use jwt_mac::{Alg, Budget};
use std::alloc::{AllocError, Global};

/// The most signatures of a token.
const MOST_SIGNATURES: usize = 32;

/// What the pairs sign with, or why the first that may not sign may not.
fn signers<'a>(
    alloc: Global,
    pairs: &[(Alg, &'a Key)],
    typ: Option<&str>,
) -> Result<Vec<Signer<'a>>, IssueFault>
    requires { length pairs.now ≤ 32 }
    ensures answer { Answers IssueFault.OutOfMemory (λ v. map signer_parts v.items) result
        (unless (first_unfit 0 (map pair_parts pairs.now))
        (Ok (map (signer_of (optional_text typ.entry)) (map pair_parts pairs.now)))) }
    ensures utf8 { OnOk result
        (All (λ pair. IsUtf8 (compact_text (object (header (optional_text typ.entry) pair))))
        (map pair_parts pairs.now)) }
{
    let mut signers = Vec::with_capacity(alloc, pairs.len())?;
    for i in 0..pairs.len() {
        let pair = &pairs[i];
        signers.push(Signer::new(alloc, i as u32, pair.0, pair.1, typ)?)?;
    }
    Ok(signers)
}

/// Adds one element of `signatures`, after a comma where it isn't the first (RFC 7515, section 7.2.1).
fn add_element(
    token: &mut Vec<u8>,
    later: bool,
    protected: &[u8],
    signature: &[u8],
) -> Result<(), AllocError>
    ensures { OnOk result
        (token.new.items
        ≡ token.old.items
        ++ ((if later then 44 ∷ [] else [])
        ++ (codes "{" ++ text_members protected.now signature.now))) }
{
    if later {
        token.push(b',')?;
    }
    token.push(b'{')?;
    add_signature(token, protected, signature)
}

/// Adds the elements of `signatures`, each signed when those before it are paid.
fn add_elements<B: Budget>(
    alloc: Global,
    budget: &mut B,
    signers: &[Signer<'_>],
    payload: &[u8],
    token: &mut Vec<u8>,
) -> Result<(), IssueFault>
    requires few { length signers.now ≤ 32 }
    requires room { B.calls budget.old + 32 < 2 ^ 32 }
    ensures text { OnOk result
        (token.new.items
        ≡ token.old.items
        ++ join_with_byte 44 (map (signature_element payload.now) (map signer_parts signers.now))) }
    ensures afforded { OnOk result
        (first_spent 0 (B.ceiling budget.old - B.octets budget.old)
        (map (signing_cost payload.now) (map signer_parts signers.now)) ≡ None) }
    ensures fault { IfErr result
        (λ e. e ≢ IssueFault.OutOfMemory
        → first_spent 0 (B.ceiling budget.old - B.octets budget.old)
        (map (signing_cost payload.now) (map signer_parts signers.now)) ≡ Some e) }
    ensures paid { Pays result
        (due (length signers.now)
        (unless (first_spent 0 (B.ceiling budget.old - B.octets budget.old)
        (map (signing_cost payload.now) (map signer_parts signers.now))) (Ok payload.now)))
        (λ n. (B.octets budget.new
        ≡ B.octets budget.old + sum
        (take n (map (signing_cost payload.now) (map signer_parts signers.now))))
        × (B.calls budget.new ≡ B.calls budget.old + n)) }
    ensures unchanged { IfErr result
        (λ e. e ≢ IssueFault.OutOfMemory → ((i : ℕ) → e ≢ IssueFault.Spent (i + 1))
        → budget.new ≡ budget.old) }
    ensures ceiling { B.ceiling budget.new ≡ B.ceiling budget.old }
{
    for i in 0..signers.len() {
        let signer = &signers[i];
        let signature = signer.sign(alloc, budget, i as u32, payload)?;
        add_element(token, i > 0, &signer.protected, &signature)?;
    }
    Ok(())
}

/// The token in general form of these signers and this payload text: its room is got first, then the HMACs are paid in order.
#[tactic(auto, unfolding(crate::specs::Issued::token_within))]
fn general_token<B: Budget>(
    alloc: Global,
    budget: &mut B,
    signers: &[Signer<'_>],
    payload: &[u8],
) -> Result<Vec<u8>, IssueFault>
    requires some { 0 < length signers.now }
    requires few { length signers.now ≤ 32 }
    requires room { B.calls budget.old + 32 < 2 ^ 32 }
    ensures answer { Answers IssueFault.OutOfMemory (λ v. v.items) result
        (token_within (B.ceiling budget.old - B.octets budget.old)
        (map (signing_cost payload.now) (map signer_parts signers.now))
        (general_token payload.now (map signer_parts signers.now))) }
    ensures paid { Pays result
        (due (length signers.now)
        (token_within (B.ceiling budget.old - B.octets budget.old)
        (map (signing_cost payload.now) (map signer_parts signers.now))
        (general_token payload.now (map signer_parts signers.now))))
        (λ n. (B.octets budget.new
        ≡ B.octets budget.old + sum
        (take n (map (signing_cost payload.now) (map signer_parts signers.now))))
        × (B.calls budget.new ≡ B.calls budget.old + n)) }
    ensures unchanged { IfErr result
        (λ e. e ≢ IssueFault.OutOfMemory → ((i : ℕ) → e ≢ IssueFault.Spent (i + 1))
        → budget.new ≡ budget.old) }
    ensures ceiling { B.ceiling budget.new ≡ B.ceiling budget.old }
{
    let len = general_len(signers, payload).ok_or(IssueFault::TooLong)?;
    let mut token = Vec::with_capacity(alloc, len)?;
    add_text(&mut token, b"{\"payload\":\"", payload)?;
    token.extend_from_slice(b"\",\"signatures\":[")?;
    add_elements(alloc, budget, signers, payload, &mut token)?;
    token.extend_from_slice(b"]}")?;
    Ok(token)
}

/// A signed token in general JSON form (RFC 7515, section 7.2.1): an object with the text `payload` and the list `signatures`,
/// whose elements have the texts `protected` and `signature`, one for each pair and in their order, with no white space. The
/// payload is the claims, octet by octet.
///
/// Each protected header has `alg`, its key's `kid` where it has one, and `typ` where it is given, as compact JSON text with the
/// names in ascending byte order; each signature is the HMAC of its own key over its own signing input (RFC 7518, section 3.2).
/// The HMACs are paid from the budget in order, each at its cost and with one call. What is issued is a signed token, of which
/// `jwt_jws::parse` reads these claims, these headers and these signatures where it takes so many. The condition: at least 32 calls
/// are left below `u32::MAX`.
///
/// # Errors
/// The first that holds of `NoKey`, there is no pair; `TooManySignatures`, there are more than 32; for each pair i `AlgNotHmac(i)`
/// and `KeyUnfit(i)`, it may not sign; `TooLong`, the token would have more than 1,048,576 octets; `Spent(i)`, the HMAC of pair i
/// costs more than the budget has left after those before it. `OutOfMemory` comes where an allocation was refused, in place of any
/// other answer. After `Spent(i)` the first i HMACs are paid, after `OutOfMemory` some first ones, and no more than without
/// that want of memory; after any other refusal, and after `Spent(0)`, the budget is as before.
#[tactic(auto, unfolding(crate::specs::Issued::general_of))]
pub fn issue_json<B: Budget>(
    alloc: Global,
    budget: &mut B,
    pairs: &[(Alg, &Key)],
    typ: Option<&str>,
    claims: &ClaimSet,
) -> Result<Vec<u8>, IssueFault>
    requires { B.calls budget.old + 32 < 2 ^ 32 }
    ensures answer { Answers IssueFault.OutOfMemory (λ v. v.items) result
        (general_of (B.ceiling budget.old - B.octets budget.old) (optional_text typ.entry) claims.now
        (map pair_parts pairs.now)) }
    ensures signed { IfOk result (λ v. (most : ℕ) → length pairs.now ≤ most
        → IsSignedToken most v.items
        (general_signed (optional_text typ.entry) claims.now (map pair_parts pairs.now))) }

    // What the budget counts.
    ensures paid { Pays result
        (due (length pairs.now)
        (general_of (B.ceiling budget.old - B.octets budget.old) (optional_text typ.entry) claims.now
        (map pair_parts pairs.now)))
        (λ n. (B.octets budget.new
        ≡ B.octets budget.old + sum
        (take n (pair_costs (optional_text typ.entry) claims.now (map pair_parts pairs.now))))
        × (B.calls budget.new ≡ B.calls budget.old + n)) }
    ensures unchanged { IfErr result
        (λ e. e ≢ IssueFault.OutOfMemory → ((i : ℕ) → e ≢ IssueFault.Spent (i + 1))
        → budget.new ≡ budget.old) }
    ensures ceiling { B.ceiling budget.new ≡ B.ceiling budget.old }
{
    if pairs.is_empty() {
        return Err(IssueFault::NoKey);
    }
    if pairs.len() > MOST_SIGNATURES {
        return Err(IssueFault::TooManySignatures);
    }
    general_tokens_are_signed();
    let signers = signers(alloc, pairs, typ)?;
    let payload = spell(alloc, claims.octets())?;
    general_token(alloc, budget, &signers, &payload)
}
