//! The functions that C calls for the token of a request, and for what is answered to it.

ghost use Rattle.jwt_handles.specs.declared.status.TheConstants.{FOW_ABSENT, FOW_OK, FOW_REFUSED};
ghost use Rattle.std.specs.Prelude.{◌≡◌, ◌≢◌, ◌≤◌, ◌↔◌, IsTrue, nat_lt};
ghost use Rattle.std.specs.List.{All};
ghost use Rattle.jwt_request.specs.Replies.{IsReply};
ghost use Rattle.jwt_request.specs.Challenges.{IsQuotable};
ghost use Rattle.jwt_handles.specs.Requests.{IsAbsentBy, IsMalformedBy, IsOutcomeOfProof, IsOutcomeOfTaken, IsTokenBy, challenge_of, outcome_of, reply_of, scheme_of, schemes_of, text_by};
ghost use Rattle.jwt_handles.specs.Written.{Puts};

use jwt_handles::requests::{self, FowReply, NumberedChallenge};

/// [`requests::credentials`] by its name in C.
#[unsafe(no_mangle)]
pub extern "C" fn fow_credentials(
    schemes: u32,
    value: &[u8],
    scheme: &mut u32,
    from: &mut usize,
    to: &mut usize,
) -> u32
    ensures token { result ≡ FOW_OK → IsTokenBy (schemes_of schemes) value.now scheme.new from.new to.new }
    ensures absent { result ≡ FOW_ABSENT → IsAbsentBy (schemes_of schemes) value.now scheme.new }
    ensures malformed { result ≡ FOW_REFUSED → IsMalformedBy (schemes_of schemes) value.now scheme.new }
    ensures said { result ≢ FOW_OK → result ≢ FOW_ABSENT → result ≡ FOW_REFUSED }
    ensures unwritten { result ≢ FOW_OK → (from.new ≡ from.old) × (to.new ≡ to.old) }
{
    requests::credentials(schemes, value, scheme, from, to)
}

/// [`requests::reply`] by its name in C.
#[unsafe(no_mangle)]
pub extern "C" fn fow_reply_to(schemes: u32, shown: u32, outcome: u32, reply: &mut FowReply)
    ensures reply { IsReply (schemes_of schemes) (scheme_of shown) (outcome_of outcome) (reply_of reply.new) }
{
    requests::reply(schemes, shown, outcome, reply);
}

/// [`requests::proof_outcome`] by its name in C.
#[unsafe(no_mangle)]
pub extern "C" fn fow_proof_outcome(status: u32, fault: u32) -> u32
    ensures outcome { IsOutcomeOfProof status fault (outcome_of result) }
    ensures known { result ≤ 13 }
{
    requests::proof_outcome(status, fault)
}

/// [`requests::taken_outcome`] by its name in C.
#[unsafe(no_mangle)]
pub extern "C" fn fow_taken_outcome(of_proof: u32, status: u32, taken: u32) -> u32
    ensures outcome { IsOutcomeOfTaken (nat_lt 0 of_proof) status taken (outcome_of result) }
    ensures known { result ≤ 13 }
{
    requests::taken_outcome(of_proof, status, taken)
}

/// [`requests::quotable`] by its name in C.
#[unsafe(no_mangle)]
pub extern "C" fn fow_quotable(text: &[u8]) -> bool
    ensures quotable { IsTrue result ↔ All IsQuotable text.now }
{
    requests::quotable(text)
}

/// [`requests::challenge`] by its name in C.
#[unsafe(no_mangle)]
pub extern "C" fn fow_challenge(
    scheme: u32,
    number: u32,
    realm: &[u8],
    scope: &[u8],
    algs: &[u8],
    out: &mut [u8],
    written: &mut usize,
) -> u32
    ensures text { All IsQuotable realm.now → All IsQuotable scope.now → All IsQuotable algs.now
        → Puts (text_by (scheme_of scheme) (challenge_of number) realm.now scope.now algs.now) result written.new out.old out.new }
    ensures quotable { result ≢ FOW_REFUSED → All IsQuotable realm.now × All IsQuotable scope.now × All IsQuotable algs.now }
    ensures refused { result ≡ FOW_REFUSED → ¬ (All IsQuotable realm.now × All IsQuotable scope.now × All IsQuotable algs.now) }
    ensures unwritten { result ≢ FOW_OK → (out.new ≡ out.old) × (written.new ≡ written.old) }
{
    let it = NumberedChallenge {
        scheme,
        number,
        realm,
        scope,
        algs,
    };
    requests::challenge(it, out, written)
}
