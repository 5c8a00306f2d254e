//! The functions on what one call knows of claims that C calls.

ghost use Rattle.jwt_handles.specs.declared.status.TheConstants.{FOW_NOT_EXPECTED, FOW_NOT_OPEN, FOW_OUT_OF_MEMORY, FOW_REFUSED};
ghost use Rattle.std.specs.Prelude.{◌≡◌, ◌≢◌, IfSome, IsUtf8, None};
ghost use Rattle.jwt_verify.specs.Verdict.{token_of};
ghost use Rattle.jwt_handles.specs.Documents.{documents};
ghost use Rattle.jwt_handles.specs.Evidence.{claims_kept};
ghost use Rattle.jwt_handles.specs.Expecting.{SaysText, SaysHalfHash};

use jwt_handles::expecting::{self, HalfHash};
use jwt_handles::handle::Handle;
use jwt_handles::tokens::SignatureOf;
use std::alloc::Global;

/// [`expecting::expect_text`] by its name in C.
#[unsafe(no_mangle)]
pub extern "C" fn fow_expect_text(
    validator: &mut Handle,
    alloc: Global,
    claim: &[u8],
    text: &[u8],
    unmet: &mut u32,
) -> u32
    ensures same { validator.new.state ≡ validator.old.state }
    ensures none { validator.old.state ≡ None → result ≡ FOW_NOT_OPEN }
    ensures expected { IfSome validator.old.state (λ d. IsUtf8 claim.now → IsUtf8 text.now
        → SaysText (claims_kept d.last) claim.now text.now result unmet.new) }
    ensures claim { IfSome validator.old.state (λ d. ¬ IsUtf8 claim.now → result ≡ FOW_REFUSED) }
    ensures text { IfSome validator.old.state (λ d. ¬ IsUtf8 text.now → result ≡ FOW_REFUSED) }
    ensures said { result ≢ FOW_NOT_EXPECTED → unmet.new ≡ 0 }
{
    expecting::expect_text(validator, alloc, claim, text, unmet)
}

/// [`expecting::expect_half_hash`] by its name in C.
#[unsafe(no_mangle)]
pub extern "C" fn fow_expect_half_hash(
    validator: &mut Handle,
    alloc: Global,
    token: &[u8],
    signature: u32,
    claim: &[u8],
    octets: &[u8],
    unmet: &mut u32,
) -> u32
    ensures same { validator.new.state ≡ validator.old.state }
    ensures none { validator.old.state ≡ None → result ≡ FOW_NOT_OPEN }
    ensures expected { IfSome validator.old.state (λ d. IsUtf8 claim.now → result ≢ FOW_OUT_OF_MEMORY
        → SaysHalfHash (token_of (documents d).policy token.now) d.last signature
        claim.now octets.now result unmet.new) }
    ensures claim { IfSome validator.old.state (λ d. ¬ IsUtf8 claim.now → result ≡ FOW_REFUSED) }
    ensures said { result ≢ FOW_NOT_EXPECTED → unmet.new ≡ 0 }
{
    let expected = HalfHash {
        of: SignatureOf { token, signature },
        claim,
        octets,
    };
    expecting::expect_half_hash(validator, alloc, expected, unmet)
}
