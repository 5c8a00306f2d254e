//! Laws of the definitions: each function does nothing, and its contract holds of every table.

ghost use Rattle.jwt_verify.specs.Accepted.{AcceptsExactly, RefusesExactly, TellsVerdicts, TellsTokens, TellsTokenFaults, HasOneVerdict};
ghost use Rattle.jwt_verify.specs.Steps.{ReportsInWords, ReportsOnTaken, TakenTokens, TellsReports};
ghost use Rattle.jwt_verify.specs.Laws.{TriesAreBounded, LeastTries, MoreKeys, SameKeys};
ghost use Rattle.jwt_verify.specs.Verdicts.{PaidIsLongest, CallsSuffice, WorkIsBounded, CeilingSuffices, CallersBound, GreatestWork, MoreKeysAccept, SameKeysAgree, LeastTriesOfToken};

use jwt_jws::laws::{form_faults, messages_fit, signed_tokens};
use jwt_policy::laws::{
    bar_is_first_row, check_is_first_row, claims_hold, eligible_pairs, payload_claims,
};
use jwt_text::laws::object_texts;

/// The tries stand in dictionary order, so no pair twice, and each is eligible; there are no more than pairs, and their costs
/// add up to no more than the bound.
pub fn tries_are_bounded()
    ensures { TriesAreBounded }
{}

/// The work of a token's run is at most the common cost for each pair of signature and key, and the length of each key that is longer than
/// a block, once for each of its tries. The common cost is the length of the longest signing input, two blocks and a digest, these
/// the greatest among the policy's algorithms (RFC 2104, section 2).
pub fn work_is_bounded()
    ensures { WorkIsBounded }
{
    signed_tokens();
    form_faults();
    object_texts();
    eligible_pairs();
    bar_is_first_row();
    payload_claims();
    check_is_first_row();
    claims_hold();
}

/// A ceiling of that bound is never exceeded, and how much greater it is changes neither the verdict nor the tries nor the states.
pub fn ceiling_suffices()
    ensures { CeilingSuffices }
{
    signed_tokens();
    form_faults();
    object_texts();
    eligible_pairs();
    bar_is_first_row();
    payload_claims();
    check_is_first_row();
    claims_hold();
}

/// No try can be spared: two tables that agree on the validity of the paid tries of one leave the same tries, the same states
/// and the same end, and where one paid try alone has other validity, the states differ.
pub fn least_tries()
    ensures { LeastTries }
{}

/// The verdict is an acceptance exactly where the token is accepted in words: it isn't too long and is a signed token, no
/// ceiling stops the run, in mode `any` some signature is verified and in mode `all` each one is, and the claims hold. It names
/// the first verified signature, its least key and the payload's claims.
pub fn accepts_exactly()
    ensures { AcceptsExactly }
{
    signed_tokens();
    form_faults();
    object_texts();
    eligible_pairs();
    bar_is_first_row();
    payload_claims();
    check_is_first_row();
    claims_hold();
}

/// The verdict is a refusal for a fault exactly where that fault holds, in words, and none before it does: it is too long; it is
/// no signed token; a ceiling stopped the run at that pair; the signature is the first that isn't verified, in mode `any` where
/// none is; the claims are refused.
pub fn refuses_exactly()
    ensures { RefusesExactly }
{
    signed_tokens();
    form_faults();
    object_texts();
    eligible_pairs();
    bar_is_first_row();
    payload_claims();
    check_is_first_row();
    claims_hold();
}

/// The verdict that the code computes, step by step, is the verdict in words, and no other.
pub fn tells_verdicts()
    ensures { TellsVerdicts }
{
    signed_tokens();
    form_faults();
    object_texts();
    eligible_pairs();
    bar_is_first_row();
    payload_claims();
    check_is_first_row();
    claims_hold();
}

/// The token that is read, step by step, is the one that the octets are, in words, and the fault is the one that they have.
pub fn tells_tokens()
    ensures token { TellsTokens }
    ensures fault { TellsTokenFaults }
{
    signed_tokens();
    form_faults();
}

/// Exactly one verdict is that on given octets.
pub fn one_verdict()
    ensures { HasOneVerdict }
{
    signed_tokens();
    form_faults();
    object_texts();
    eligible_pairs();
    bar_is_first_row();
    payload_claims();
    check_is_first_row();
    claims_hold();
}

/// Where memory was there, a report that holds what it has to in words lists the tries and the states that the code computes, step
/// by step, and has that verdict.
pub fn tells_reports()
    ensures { TellsReports }
{
    signed_tokens();
    form_faults();
    object_texts();
    eligible_pairs();
    bar_is_first_row();
    payload_claims();
    check_is_first_row();
    claims_hold();
}

/// What the code computes, step by step, is the report in words; and what is past the octet behind the limit plays no part in it.
pub(crate) fn reports_in_words()
    ensures listed { ReportsInWords }
    ensures taken { ReportsOnTaken }
    ensures token { TakenTokens }
{
    signed_tokens();
    form_faults();
    object_texts();
    eligible_pairs();
    bar_is_first_row();
    payload_claims();
    check_is_first_row();
    claims_hold();
}

/// What is paid is the longest prefix of the tries that both ceilings allow.
pub fn paid_is_longest()
    ensures { PaidIsLongest }
{}

/// Where signatures times keys are within the policy's `max_calls`, no token is refused with `CallsExceeded`.
pub fn calls_suffice()
    ensures { CallsSuffice }
{
    signed_tokens();
    form_faults();
    object_texts();
    eligible_pairs();
    bar_is_first_row();
    payload_claims();
    check_is_first_row();
    claims_hold();
}

/// The bound in a caller's terms, without the tries: signatures times keys times the longest signing input with two blocks and a
/// digest, and signatures times the lengths of all secrets.
pub fn callers_bound()
    ensures { CallersBound }
{
    signed_tokens();
    form_faults();
    object_texts();
    eligible_pairs();
    bar_is_first_row();
    payload_claims();
    check_is_first_row();
    claims_hold();
}

/// That bound is at most 34,504,441,856 octets for every policy and key set: a token has up to 32 signatures and 1,048,576 octets, and
/// so has each signing input; a key set has up to 1,024 keys, and secrets of up to 4,096 octets.
pub fn greatest_work()
    ensures { GreatestWork }
{
    messages_fit();
    signed_tokens();
    form_faults();
    object_texts();
    eligible_pairs();
    bar_is_first_row();
    payload_claims();
    check_is_first_row();
    claims_hold();
}

/// More keys never refuse, where no ceiling stops the run with them: what is accepted with some keys is accepted with more,
/// with the same claims.
pub fn more_keys_accept()
    ensures { MoreKeysAccept }
{
    signed_tokens();
    form_faults();
    object_texts();
    eligible_pairs();
    bar_is_first_row();
    payload_claims();
    check_is_first_row();
    claims_hold();
}

/// Key sets with the same keys, in any order and with repeats, give the same verdict and the same states but for the numbers of
/// keys, where no ceiling stops a run.
pub fn same_keys_agree()
    ensures { SameKeysAgree }
{
    signed_tokens();
    form_faults();
    object_texts();
    eligible_pairs();
    bar_is_first_row();
    payload_claims();
    check_is_first_row();
    claims_hold();
}

/// No try of a token can be spared: another validity that agrees with its own on the paid tries leaves the same tries, states and
/// verdict, and where one paid try alone has other validity, the states differ.
pub fn least_tries_of_token()
    ensures { LeastTriesOfToken }
{
    signed_tokens();
    form_faults();
    object_texts();
    eligible_pairs();
    bar_is_first_row();
    payload_claims();
    check_is_first_row();
    claims_hold();
}

/// More keys never refuse: what is accepted with some keys is accepted with more, with the same claims, where the budget's ceiling
/// leaves room for all tries, and the ceiling on calls for as many as there are pairs. So a key set may be rotated by adding first and
/// removing later.
pub fn more_keys()
    ensures { MoreKeys }
{}

/// Key sets with the same keys, in any order and with repeats, give the same verdict and the same states but for the numbers of
/// keys, where the budget's ceiling leaves room for all tries, and the ceiling on calls for as many as there are pairs.
pub fn same_keys()
    ensures { SameKeys }
{}
