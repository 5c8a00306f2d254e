//! Laws over the definitions that the contracts cite. The functions do nothing: each is its contract.
ghost use Rattle.std.specs.Prelude.{◌≡◌, ◌≤◌, ◌<◌, ◌+◌, ◌↔◌, ℕ, List, Option, IsUtf8, None, Some, length, take, map, All};
ghost use Rattle.std.specs.List.{sum};
ghost use Rattle.serde_json.specs.Data.{object};
ghost use Rattle.serde_json.specs.Written.{compact_text};
ghost use Rattle.jwt_text.specs.Base64url.{AreOctets, spelling};
ghost use Rattle.jwt_jws.specs.SignedToken.{IsSignedToken};
ghost use Rattle.jwt_issue.specs.Issued.{PairParts, header, signer_of, in_compact_form, flattened_token, general_token, first_spent};
ghost use Rattle.jwt_issue.specs.Signed.{compact_signed, flattened_signed, general_signed};

use crate::fault::IssueFault;
use jwt_mac::laws::tags_are_octets;
use jwt_text::laws::quoted_texts;

/// A signature isn't made exactly where its cost and those before it exceed what is left, and it is the first such.
pub fn spent_is_the_first_beyond()
    ensures none { (left : ℕ) (costs : List ℕ)
        → (first_spent 0 left costs ≡ None) ↔ (sum costs ≤ left) }
    ensures some { (left : ℕ) (costs : List ℕ) (i : ℕ)
        → (first_spent 0 left costs ≡ Some (IssueFault.Spent i))
        ↔ ((i < length costs) × (sum (take i costs) ≤ left) × (left < sum (take (i + 1) costs))) }
{}

/// What is issued in compact form is a signed token (RFC 7515, section 7.1), whatever the most signatures, with these claims as its
/// payload and one signature, whose header is the pair's and whose octets are the HMAC of the pair's own key and its own signing
/// input. It asks only that the header's text is UTF-8 and that the claims are octets.
pub fn compact_tokens_are_signed()
    ensures { (most : ℕ) (typ : Option (List ℕ)) (claims : List ℕ) (pair : PairParts)
        → IsUtf8 (compact_text (object (header typ pair))) → AreOctets claims
        → IsSignedToken most (in_compact_form (spelling claims) (signer_of typ pair))
        (compact_signed typ claims pair) }
{
    quoted_texts();
    tags_are_octets();
}

/// What is issued in flattened JSON form is a signed token (RFC 7515, section 7.2.2), in the same way.
pub fn flattened_tokens_are_signed()
    ensures { (most : ℕ) (typ : Option (List ℕ)) (claims : List ℕ) (pair : PairParts)
        → IsUtf8 (compact_text (object (header typ pair))) → AreOctets claims
        → IsSignedToken most (flattened_token (spelling claims) (signer_of typ pair))
        (flattened_signed typ claims pair) }
{
    quoted_texts();
    tags_are_octets();
}

/// What is issued in general JSON form for 1 pair or more is a signed token (RFC 7515, section 7.2.1) where so many signatures are
/// allowed, with these claims as its payload and a signature for each pair, in their order: its header is the pair's, and its
/// octets are the HMAC of the pair's own key and its own signing input. It asks the same of each pair.
pub fn general_tokens_are_signed()
    ensures { (most : ℕ) (typ : Option (List ℕ)) (claims : List ℕ) (pairs : List PairParts)
        → 0 < length pairs → length pairs ≤ most
        → All (λ pair. IsUtf8 (compact_text (object (header typ pair)))) pairs
        → AreOctets claims
        → IsSignedToken most (general_token (spelling claims) (map (signer_of typ) pairs))
        (general_signed typ claims pairs) }
{
    quoted_texts();
    tags_are_octets();
}
