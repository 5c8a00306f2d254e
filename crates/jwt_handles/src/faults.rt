//! The numbers of faults and of their places: what the header's enums have.

ghost use Rattle.std.specs.Prelude.{◌≡◌};
ghost use Rattle.jwt_handles.specs.Faults.{policy_number, keys_number, input_number, form_number, sig_number, claim_fault_number, issue_number, part_number, place_signature, form_part, form_signature, issue_signature, claim_number, claim_of};

use jwt_issue::IssueFault;
use jwt_jws::{FormFault, Place};
use jwt_keys::KeysFault;
use jwt_policy::{Claim, ClaimFault, PolicyFault, SigFault};
use jwt_verify::InputFault;

/// The number of a policy's fault; 0 for want of memory.
pub(crate) fn policy_number(fault: &PolicyFault) -> u32
    ensures { result ≡ policy_number fault.now }
{
    match fault {
        PolicyFault::OutOfMemory => 0,
        PolicyFault::Json => 101,
        PolicyFault::NameTwice => 102,
        PolicyFault::Member(_) => 103,
        PolicyFault::Range(_) => 104,
        PolicyFault::NoAlgorithm => 105,
        PolicyFault::TooLong => 106,
    }
}

/// The number of a key set's fault; 0 for want of memory.
pub(crate) fn keys_number(fault: KeysFault) -> u32
    ensures { result ≡ keys_number fault }
{
    match fault {
        KeysFault::OutOfMemory => 0,
        KeysFault::Json => 201,
        KeysFault::NotKeySet => 202,
        KeysFault::NameTwice => 203,
        KeysFault::TooManyKeys => 204,
        KeysFault::TooLong => 205,
    }
}

/// The number of an input's fault.
pub(crate) fn input_number(fault: InputFault) -> u32
    ensures { result ≡ input_number fault }
{
    match fault {
        InputFault::Read => 301,
        InputFault::TooLong => 302,
    }
}

/// The number of a fault of form; 0 for want of memory.
pub(crate) fn form_number(fault: FormFault) -> u32
    ensures { result ≡ form_number fault }
{
    match fault {
        FormFault::OutOfMemory => 0,
        FormFault::Empty => 401,
        FormFault::Encrypted => 402,
        FormFault::Segments => 403,
        FormFault::Json => 404,
        FormFault::NameTwice => 405,
        FormFault::Members => 406,
        FormFault::TooManySignatures => 407,
        FormFault::Base64(_) => 408,
        FormFault::Header(_) => 409,
        FormFault::UnprotectedKind(_) => 410,
        FormFault::NamesOverlap(_) => 411,
    }
}

/// The number of a signature's fault.
pub(crate) fn sig_number(fault: SigFault) -> u32
    ensures { result ≡ sig_number fault }
{
    match fault {
        SigFault::AlgMissing => 601,
        SigFault::AlgNone => 602,
        SigFault::AlgUnknown => 603,
        SigFault::AlgNotAllowed => 604,
        SigFault::NoVerifier => 605,
        SigFault::KeyUrl => 606,
        SigFault::EncHeader => 607,
        SigFault::Unencoded => 608,
        SigFault::CritShape => 609,
        SigFault::CritUnknown => 610,
        SigFault::TypShape => 611,
        SigFault::TypMismatch => 612,
        SigFault::Nested => 613,
        SigFault::KidShape => 614,
        SigFault::KidMissing => 615,
        SigFault::NoKey => 616,
        SigFault::BadSignature => 617,
    }
}

/// The number of a fault of claims; 0 for want of memory.
pub(crate) fn claim_fault_number(fault: &ClaimFault<'_>) -> u32
    ensures { result ≡ claim_fault_number fault.now }
{
    match fault {
        ClaimFault::OutOfMemory => 0,
        ClaimFault::ClaimsShape => 701,
        ClaimFault::ClaimKind(_) => 702,
        ClaimFault::ClaimDate(_) => 703,
        ClaimFault::ClaimMissing(_) => 704,
        ClaimFault::Issuer => 705,
        ClaimFault::Audience => 706,
        ClaimFault::Expired => 707,
        ClaimFault::NotYet => 708,
        ClaimFault::IssuedLater => 709,
        ClaimFault::TooOld => 710,
    }
}

/// The number of a fault of issuing; 0 for want of memory.
pub(crate) fn issue_number(fault: IssueFault) -> u32
    ensures { result ≡ issue_number fault }
{
    match fault {
        IssueFault::OutOfMemory => 0,
        IssueFault::NoKey => 801,
        IssueFault::TooManySignatures => 802,
        IssueFault::AlgNotHmac(_) => 803,
        IssueFault::KeyUnfit(_) => 804,
        IssueFault::TooLong => 805,
        IssueFault::Spent(_) => 806,
    }
}

/// The number of a part.
fn part_number(place: Place) -> u32
    ensures { result ≡ part_number place }
{
    match place {
        Place::Payload => 1,
        Place::Protected(_) => 2,
        Place::Signature(_) => 3,
    }
}

/// The signature of a part; 0 for the payload.
fn place_signature(place: Place) -> u32
    ensures { result ≡ place_signature place }
{
    match place {
        Place::Payload => 0,
        Place::Protected(i) => i,
        Place::Signature(i) => i,
    }
}

/// The part that a fault of form speaks of; 0 where it speaks of none.
pub(crate) fn form_part(fault: FormFault) -> u32
    ensures { result ≡ form_part fault }
{
    match fault {
        FormFault::Base64(place) => part_number(place),
        _ => 0,
    }
}

/// The signature that a fault of form speaks of; 0 where it speaks of none.
pub(crate) fn form_signature(fault: FormFault) -> u32
    ensures { result ≡ form_signature fault }
{
    match fault {
        FormFault::Base64(place) => place_signature(place),
        FormFault::Header(i) => i,
        FormFault::UnprotectedKind(i) => i,
        FormFault::NamesOverlap(i) => i,
        _ => 0,
    }
}

/// The signature that a fault of issuing speaks of; 0 where it speaks of none.
pub(crate) fn issue_signature(fault: IssueFault) -> u32
    ensures { result ≡ issue_signature fault }
{
    match fault {
        IssueFault::AlgNotHmac(i) => i,
        IssueFault::KeyUnfit(i) => i,
        IssueFault::Spent(i) => i,
        _ => 0,
    }
}

/// The number of a claim.
fn claim_number(claim: Claim) -> u32
    ensures { result ≡ claim_number claim }
{
    match claim {
        Claim::Iss => 1,
        Claim::Sub => 2,
        Claim::Aud => 3,
        Claim::Exp => 4,
        Claim::Nbf => 5,
        Claim::Iat => 6,
        Claim::Jti => 7,
    }
}

/// The claim that a fault speaks of: 0 where it speaks of none, 8 where it speaks of one that is missing.
pub(crate) fn claim_of(fault: &ClaimFault<'_>) -> u32
    ensures { result ≡ claim_of fault.now }
{
    match fault {
        ClaimFault::ClaimKind(claim) => claim_number(*claim),
        ClaimFault::ClaimDate(claim) => claim_number(*claim),
        ClaimFault::ClaimMissing(_) => 8,
        _ => 0,
    }
}
