//! The header `crit` (RFC 7515, section 4.1.11).

ghost use Rattle.std.specs.Prelude.{◌≡◌, ◌&&◌, not, map, string_bytes};
ghost use Rattle.jwt_jws.specs.Views.{parts};
ghost use Rattle.jwt_jws.specs.Token.{in_header};
ghost use Rattle.jwt_policy.specs.Texts.{any_text, each_text, is_among};
ghost use Rattle.jwt_policy.specs.Bars.{registered_names, is_name_list, is_crit_misshapen, is_crit_unknown};

use crate::policy::Policy;
use crate::texts::is_among;
use jwt_jws::Signature;
use jwt_text::List;

/// Whether this is a header name of RFC 7515, section 4.1.
pub(crate) fn is_registered(name: &str) -> bool
    ensures { result ≡ is_among registered_names name.now }
{
    match name {
        "alg"
        | "jku"
        | "jwk"
        | "kid"
        | "x5u"
        | "x5c"
        | "x5t"
        | "x5t#S256"
        | "typ"
        | "cty"
        | "crit" => true,
        _ => false,
    }
}

/// Whether each element is the name of a header of the signature, and none of RFC 7515, section 4.1.
#[tactic(auto, using(crate::proofs::ItemsLemmas::each_more, std::proofs::lemmas::List::at_drop_all))]
fn are_other_headers(signature: &Signature<'_>, list: &List<'_>) -> bool
    ensures { result ≡ each_text
        (λ t. in_header t (parts signature.now) && not (is_among registered_names t)) list.now }
{
    for place in 0..list.len() {
        let Some(name) = list.text(place) else {
            return false;
        };
        if !signature.in_header(name) || is_registered(name) {
            return false;
        }
    }
    true
}

/// Whether the list holds a text that isn't among these.
#[tactic(auto, using(crate::proofs::ItemsLemmas::any_more, std::proofs::lemmas::List::at_drop_all))]
fn names_other(texts: &[String], list: &List<'_>) -> bool
    ensures { result ≡ any_text (λ t. not (is_among (map string_bytes texts.now) t)) list.now }
{
    for place in 0..list.len() {
        if let Some(name) = list.text(place) {
            if !is_among(texts, name) {
                return true;
            }
        }
    }
    false
}

/// Whether the list, which is `crit` of the protected header, is one that it may be.
fn is_name_list(signature: &Signature<'_>, list: &List<'_>) -> bool
    ensures { result ≡ is_name_list (parts signature.now) list.now }
{
    list.len() > 0 && are_other_headers(signature, list) && !signature.crit_repeats()
}

/// Whether `crit` has another shape than it may have.
pub(crate) fn is_crit_misshapen(signature: &Signature<'_>) -> bool
    ensures { result ≡ is_crit_misshapen (parts signature.now) }
{
    if signature.in_unprotected("crit") {
        return true;
    }
    let protected = signature.protected();
    if !protected.has("crit") {
        return false;
    }
    match protected.list("crit") {
        Some(list) => !is_name_list(signature, &list),
        None => true,
    }
}

/// Whether the policy doesn't understand a name in `crit`.
pub(crate) fn is_crit_unknown(policy: &Policy, signature: &Signature<'_>) -> bool
    ensures { result ≡ is_crit_unknown policy.now (parts signature.now) }
{
    match signature.protected().list("crit") {
        Some(list) => names_other(policy.understood(), &list),
        None => false,
    }
}
