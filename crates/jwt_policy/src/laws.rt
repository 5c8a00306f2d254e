//! Laws of the definitions: each function does nothing, and its contract holds of every signature, key and payload.

ghost use Rattle.std.specs.Prelude.{◌≡◌, ◌↔◌, ℕ, ℤ, true, List, Some, None, Ok, Err};
ghost use Rattle.serde_json.specs.Data.{Members};
ghost use Rattle.jwt_mac.specs.Verifying.{Meaning};
ghost use Rattle.jwt_text.specs.ObjectText.{IsObjectText};
ghost use Rattle.jwt_text.specs.Rows.{IsFirstRow, NoRow};
ghost use Rattle.jwt_jws.specs.Token.{SignatureParts};
ghost use Rattle.jwt_keys.specs.Keys.{KeyParts};
ghost use Rattle.jwt_policy.specs.Settings.{Settings};
ghost use Rattle.jwt_policy.specs.Bars.{bar_rows, bar_of};
ghost use Rattle.jwt_policy.specs.Eligible.{eligible_for};
ghost use Rattle.jwt_policy.specs.ClaimKinds.{kind_rows, claims_of};
ghost use Rattle.jwt_policy.specs.Checks.{check_rows, check_of};
ghost use Rattle.jwt_policy.specs.Laws.{IsEligible, ClaimsHold};

use crate::claim_fault::ClaimFault;
use crate::sig_fault::SigFault;
use jwt_text::laws::{first_rows, object_texts};

/// The bar of a signature is the answer of the first row of its table that holds, and there is none exactly where no row holds.
#[tactic(auto, unfolding(crate::specs::Bars::bar_of))]
pub fn bar_is_first_row()
    ensures some { (p : Settings) (s : SignatureParts) (verifiers : List Meaning) (fault : SigFault)
        → (bar_of p s verifiers ≡ Some fault) ↔ IsFirstRow (bar_rows p s verifiers) fault }
    ensures none { (p : Settings) (s : SignatureParts) (verifiers : List Meaning)
        → (bar_of p s verifiers ≡ None) ↔ NoRow (bar_rows p s verifiers) }
{
    first_rows::<SigFault>();
}

/// The claims of a payload are the object that it is the text of, where no row of the table of kinds holds for it; else the fault
/// is the answer of the first row that holds, or `ClaimsShape` where the payload is no object text.
pub fn payload_claims()
    ensures read { (payload : List ℕ) (ms : Members)
        → (claims_of payload ≡ Ok ms) ↔ (IsObjectText payload ms × NoRow (kind_rows ms)) }
    ensures kind { (payload : List ℕ) (ms : Members) (fault : ClaimFault) → IsObjectText payload ms
        → (claims_of payload ≡ Err fault) ↔ IsFirstRow (kind_rows ms) fault }
    ensures shape { (payload : List ℕ) → ((ms : Members) → ¬ IsObjectText payload ms)
        → claims_of payload ≡ Err ClaimFault.ClaimsShape }
{
    object_texts();
    first_rows::<ClaimFault<'static>>();
}

/// The claim fault under a policy is the answer of the first row of its table that holds, and there is none exactly where no row
/// holds.
#[tactic(auto, unfolding(crate::specs::Checks::check_of))]
pub fn check_is_first_row()
    ensures some { (p : Settings) (ms : Members) (now : ℤ) (fault : ClaimFault)
        → (check_of p ms now ≡ Some fault) ↔ IsFirstRow (check_rows p ms now) fault }
    ensures none { (p : Settings) (ms : Members) (now : ℤ)
        → (check_of p ms now ≡ None) ↔ NoRow (check_rows p ms now) }
{
    first_rows::<ClaimFault<'static>>();
}

/// A pair is eligible exactly where it is so in words: the signature has no bar, and names an algorithm that the key suits and
/// that is HMAC or named by a verifier; what the key says of itself allows it; and the key answers to the signature's `kid`.
pub fn eligible_pairs()
    ensures { (p : Settings) (s : SignatureParts) (key : KeyParts) (verifiers : List Meaning)
        → (eligible_for p s key verifiers ≡ true) ↔ IsEligible p s key verifiers }
{
    bar_is_first_row();
}

/// Claims are refused by nothing under a policy exactly where they hold in words: the required ones are there, the issuer and an
/// audience are among the policy's, and the dates hold, over unbounded whole numbers.
pub fn claims_hold()
    ensures { (p : Settings) (ms : Members) (now : ℤ)
        → (check_of p ms now ≡ None) ↔ ClaimsHold p ms now }
{}
