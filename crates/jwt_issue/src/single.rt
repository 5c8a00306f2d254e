//! Tokens with one signature: in compact form, and in flattened JSON form.
ghost use Rattle.std.specs.Prelude.{◌≡◌, ◌≢◌, ◌+◌, ◌-◌, ◌*◌, ◌<◌, ◌≤◌, ◌^◌, ◌∷◌, ◌++◌, [], ℕ, List, Option, IfOk, IfErr, OnOk, SomeIff, IsUtf8, codes, length};
ghost use Rattle.serde_json.specs.Data.{object};
ghost use Rattle.serde_json.specs.Written.{compact_text};
ghost use Rattle.jwt_text.specs.declared.limits.TheConstants.{LONGEST_TOKEN};
ghost use Rattle.jwt_text.specs.Answers.{Answers};
ghost use Rattle.jwt_jws.specs.SignedToken.{IsSignedToken};
ghost use Rattle.jwt_mac.specs.Verifying.{signing_input};
ghost use Rattle.jwt_text.specs.Base64url.{AreOctets, spelling};
ghost use Rattle.jwt_issue.specs.Issued.{PairParts, header, signer_of, issued_compact, flattened_of, token_within, signing_cost, pair_signing_cost, text_members};
ghost use Rattle.jwt_issue.specs.Paying.{Pays, due};
ghost use Rattle.jwt_issue.specs.Signed.{compact_signed, flattened_signed};
ghost use Rattle.jwt_issue.specs.Single.{token_of_texts, single_token, single_of, single_signed};
ghost use Rattle.jwt_issue.specs.Views.{pair_of, optional_text, signer_parts};

use crate::claim_set::ClaimSet;
use crate::fault::IssueFault;
use crate::header::spell;
use crate::laws::{compact_tokens_are_signed, flattened_tokens_are_signed};
use crate::signer::Signer;
use crate::size::{compact_len, flattened_len};
use crate::writing::{add_signature, add_text};
use jwt_keys::Key;
use jwt_mac::{Alg, Budget};
use std::alloc::{AllocError, Global};

/// A form of a token with one signature.
#[derive(Clone, Copy)]
enum Single {
    Compact,
    Flattened,
}

/// How a token with one signature is to be issued.
#[derive(Clone, Copy)]
struct SingleOptions<'a> {
    /// The form of the token.
    form: Single,

    /// The algorithm of the signature.
    alg: Alg,

    /// The key that signs.
    key: &'a Key,

    /// `typ` of the protected header, where it is given.
    typ: Option<&'a str>,
}

/// Adds the three texts, joined by periods (RFC 7515, section 7.1).
fn join(
    token: &mut Vec<u8>,
    protected: &[u8],
    payload: &[u8],
    signature: &[u8],
) -> Result<(), AllocError>
    ensures { OnOk result
        (token.new.items
        ≡ token.old.items
        ++ signing_input (record { protected = protected.now; payload = payload.now }) ++ 46 ∷ []
        ++ signature.now) }
{
    token.extend_from_slice(protected)?;
    token.push(b'.')?;
    token.extend_from_slice(payload)?;
    token.push(b'.')?;
    token.extend_from_slice(signature)
}

/// Adds the three members, with the braces (RFC 7515, section 7.2.2).
fn add_members(
    token: &mut Vec<u8>,
    payload: &[u8],
    protected: &[u8],
    signature: &[u8],
) -> Result<(), AllocError>
    ensures { OnOk result
        (token.new.items ≡ token.old.items ++ codes "{\"payload\":\"" ++ payload.now ++ codes "\","
        ++ text_members protected.now signature.now) }
{
    add_text(token, b"{\"payload\":\"", payload)?;
    token.extend_from_slice(b"\",")?;
    add_signature(token, protected, signature)
}

/// Adds the token of these texts.
fn add_token(
    form: Single,
    token: &mut Vec<u8>,
    protected: &[u8],
    payload: &[u8],
    signature: &[u8],
) -> Result<(), AllocError>
    ensures { OnOk result
        (token.new.items
        ≡ token.old.items ++ token_of_texts form protected.now payload.now signature.now) }
{
    match form {
        Single::Compact => join(token, protected, payload, signature),
        Single::Flattened => add_members(token, payload, protected, signature),
    }
}

/// The octets of the token, `None` where they are too many.
fn token_len(form: Single, signer: &Signer<'_>, payload: &[u8]) -> Option<usize>
    ensures { SomeIff result
        (length (single_token form payload.now (signer_parts signer.now)) ≤ LONGEST_TOKEN)
        (length (single_token form payload.now (signer_parts signer.now))) }
{
    match form {
        Single::Compact => compact_len(signer, payload),
        Single::Flattened => flattened_len(signer, payload),
    }
}

/// The token of this signer and payload text: its room is got first, then the HMAC is paid.
#[tactic(auto, unfolding(crate::specs::Issued::token_within))]
fn signed_token<B: Budget>(
    alloc: Global,
    budget: &mut B,
    form: Single,
    signer: &Signer<'_>,
    payload: &[u8],
) -> Result<Vec<u8>, IssueFault>
    requires { B.calls budget.old + 1 < 2 ^ 32 }
    ensures answer { Answers IssueFault.OutOfMemory (λ v. v.items) result
        (token_within (B.ceiling budget.old - B.octets budget.old)
        (signing_cost payload.now (signer_parts signer.now) ∷ [])
        (single_token form payload.now (signer_parts signer.now))) }
    ensures paid { Pays result
        (due 1 (token_within (B.ceiling budget.old - B.octets budget.old)
        (signing_cost payload.now (signer_parts signer.now) ∷ [])
        (single_token form payload.now (signer_parts signer.now))))
        (λ n. (B.octets budget.new
        ≡ B.octets budget.old + n * signing_cost payload.now (signer_parts signer.now))
        × (B.calls budget.new ≡ B.calls budget.old + n)) }
    ensures ceiling { B.ceiling budget.new ≡ B.ceiling budget.old }
    ensures unchanged { IfErr result (λ e. e ≢ IssueFault.OutOfMemory → budget.new ≡ budget.old) }
{
    let len = token_len(form, signer, payload).ok_or(IssueFault::TooLong)?;
    let mut token = Vec::with_capacity(alloc, len)?;
    let signature = signer.sign(alloc, budget, 0, payload)?;
    add_token(form, &mut token, &signer.protected, payload, &signature)?;
    Ok(token)
}

/// What is issued in either form is a signed token (RFC 7515, section 7), as the laws of the two forms say.
fn tokens_are_signed()
    ensures { (form : Single) (most : ℕ) (typ : Option (List ℕ)) (claims : List ℕ) (pair : PairParts)
        → IsUtf8 (compact_text (object (header typ pair))) → AreOctets claims
        → IsSignedToken most (single_token form (spelling claims) (signer_of typ pair))
        (single_signed form typ claims pair) }
{
    compact_tokens_are_signed();
    flattened_tokens_are_signed();
}

/// The token with one signature that these options ask for, over these claims.
#[tactic(auto, unfolding(crate::specs::Single::single_of))]
fn issue_single<B: Budget>(
    alloc: Global,
    budget: &mut B,
    options: SingleOptions<'_>,
    claims: &ClaimSet,
) -> Result<Vec<u8>, IssueFault>
    requires { B.calls budget.old + 32 < 2 ^ 32 }
    ensures answer { Answers IssueFault.OutOfMemory (λ v. v.items) result
        (single_of options.entry.form (B.ceiling budget.old - B.octets budget.old)
        (optional_text options.entry.typ) claims.now (pair_of options.entry.alg options.entry.key.now)) }
    ensures signed { IfOk result
        (λ v. (most : ℕ)
        → IsSignedToken most v.items
        (single_signed options.entry.form (optional_text options.entry.typ) claims.now
        (pair_of options.entry.alg options.entry.key.now))) }
    ensures paid { Pays result
        (due 1 (single_of options.entry.form (B.ceiling budget.old - B.octets budget.old)
        (optional_text options.entry.typ) claims.now (pair_of options.entry.alg options.entry.key.now)))
        (λ n. (B.octets budget.new
        ≡ B.octets budget.old + n * pair_signing_cost (optional_text options.entry.typ) claims.now (pair_of options.entry.alg options.entry.key.now))
        × (B.calls budget.new ≡ B.calls budget.old + n)) }
    ensures ceiling { B.ceiling budget.new ≡ B.ceiling budget.old }
    ensures unchanged { IfErr result (λ e. e ≢ IssueFault.OutOfMemory → budget.new ≡ budget.old) }
{
    tokens_are_signed();
    let signer = Signer::new(alloc, 0, options.alg, options.key, options.typ)?;
    let payload = spell(alloc, claims.octets())?;
    signed_token(alloc, budget, options.form, &signer, &payload)
}

/// A signed token in compact form (RFC 7515, section 7.1): the protected text, the payload text and the signature text, joined by
/// periods. The payload is the claims, octet by octet.
///
/// The protected header has `alg`, the key's `kid` where it has one, and `typ` where it is given, as compact JSON text with the
/// names in ascending byte order; the signature is the HMAC of the key over the signing input (RFC 7518, section 3.2). The HMAC is
/// paid from the budget, at its cost and with one call. What is issued is a signed token: `jwt_jws::parse` reads these claims,
/// this header and this signature from it. The condition: at least 32 calls are left below `u32::MAX`.
///
/// # Errors
/// The first that holds of `AlgNotHmac(0)` and `KeyUnfit(0)`, the pair may not sign; `TooLong`, the token would have more than
/// 1,048,576 octets; `Spent(0)`, the HMAC costs more than the budget has left. `OutOfMemory` comes where an allocation was
/// refused, in place of any other answer. The budget is as before after each but `OutOfMemory`, and after that it is as before,
/// or has the HMAC paid where a token was due.
#[tactic(auto, unfolding(crate::specs::Issued::issued_compact, crate::specs::Single::single_of))]
pub fn issue_compact<B: Budget>(
    alloc: Global,
    budget: &mut B,
    alg: Alg,
    key: &Key,
    typ: Option<&str>,
    claims: &ClaimSet,
) -> Result<Vec<u8>, IssueFault>
    requires { B.calls budget.old + 32 < 2 ^ 32 }
    ensures answer { Answers IssueFault.OutOfMemory (λ v. v.items) result
        (issued_compact (B.ceiling budget.old - B.octets budget.old) (optional_text typ.entry) claims.now
        (pair_of alg key.now)) }
    ensures signed { IfOk result
        (λ v. (most : ℕ)
        → IsSignedToken most v.items
        (compact_signed (optional_text typ.entry) claims.now (pair_of alg key.now))) }

    // What the budget counts.
    ensures paid { Pays result
        (due 1 (issued_compact (B.ceiling budget.old - B.octets budget.old) (optional_text typ.entry)
        claims.now (pair_of alg key.now)))
        (λ n. (B.octets budget.new
        ≡ B.octets budget.old + n * pair_signing_cost (optional_text typ.entry) claims.now (pair_of alg key.now))
        × (B.calls budget.new ≡ B.calls budget.old + n)) }
    ensures ceiling { B.ceiling budget.new ≡ B.ceiling budget.old }
    ensures unchanged { IfErr result (λ e. e ≢ IssueFault.OutOfMemory → budget.new ≡ budget.old) }
{
    let options = SingleOptions {
        form: Single::Compact,
        alg,
        key,
        typ,
    };
    issue_single(alloc, budget, options, claims)
}

/// A signed token in flattened JSON form (RFC 7515, section 7.2.2): an object with the texts `payload`, `protected` and
/// `signature`, in this order and with no white space. The payload is the claims, octet by octet.
///
/// The protected header has `alg`, the key's `kid` where it has one, and `typ` where it is given, as compact JSON text with the
/// names in ascending byte order; the signature is the HMAC of the key over the signing input (RFC 7518, section 3.2). The HMAC is
/// paid from the budget, at its cost and with one call. What is issued is a signed token: `jwt_jws::parse` reads these claims,
/// this header and this signature from it. The condition: at least 32 calls are left below `u32::MAX`.
///
/// # Errors
/// The first that holds of `AlgNotHmac(0)` and `KeyUnfit(0)`, the pair may not sign; `TooLong`, the token would have more than
/// 1,048,576 octets; `Spent(0)`, the HMAC costs more than the budget has left. `OutOfMemory` comes where an allocation was
/// refused, in place of any other answer. The budget is as before after each but `OutOfMemory`, and after that it is as before,
/// or has the HMAC paid where a token was due.
#[tactic(auto, unfolding(crate::specs::Issued::flattened_of, crate::specs::Single::single_of))]
pub fn issue_flat<B: Budget>(
    alloc: Global,
    budget: &mut B,
    alg: Alg,
    key: &Key,
    typ: Option<&str>,
    claims: &ClaimSet,
) -> Result<Vec<u8>, IssueFault>
    requires { B.calls budget.old + 32 < 2 ^ 32 }
    ensures answer { Answers IssueFault.OutOfMemory (λ v. v.items) result
        (flattened_of (B.ceiling budget.old - B.octets budget.old) (optional_text typ.entry) claims.now
        (pair_of alg key.now)) }
    ensures signed { IfOk result
        (λ v. (most : ℕ)
        → IsSignedToken most v.items
        (flattened_signed (optional_text typ.entry) claims.now (pair_of alg key.now))) }

    // What the budget counts.
    ensures paid { Pays result
        (due 1 (flattened_of (B.ceiling budget.old - B.octets budget.old) (optional_text typ.entry)
        claims.now (pair_of alg key.now)))
        (λ n. (B.octets budget.new
        ≡ B.octets budget.old + n * pair_signing_cost (optional_text typ.entry) claims.now (pair_of alg key.now))
        × (B.calls budget.new ≡ B.calls budget.old + n)) }
    ensures ceiling { B.ceiling budget.new ≡ B.ceiling budget.old }
    ensures unchanged { IfErr result (λ e. e ≢ IssueFault.OutOfMemory → budget.new ≡ budget.old) }
{
    let options = SingleOptions {
        form: Single::Flattened,
        alg,
        key,
        typ,
    };
    issue_single(alloc, budget, options, claims)
}
