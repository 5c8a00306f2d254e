//! Reading a signed token.
ghost use Rattle.std.specs.Prelude.{◌≡◌, ◌<◌, ◌≤◌, ◌⊎◌, ℕ, List, true, false, length, map, IfOk};
ghost use Rattle.jwt_text.specs.Answers.{Answers, each};
ghost use Rattle.jwt_jws.specs.CompactForm.{IsCompact};
ghost use Rattle.jwt_jws.specs.Forms.{signed_of, signature_of, form_of, token_in, opens_object};
ghost use Rattle.jwt_jws.specs.Views.{token, parts, spelled_view, json_view, compact_view, AreLent};

use crate::compact::{CompactTexts, segments_of};
use crate::fault::{Form, FormFault, Place};
use crate::json::{SpelledJson, SpelledSignature, json_object, opens_object, spelled_json};
use crate::laws::compact_form;
use crate::signature::Signature;
use crate::signed::Signed;
use crate::signing::{SignaturePlace, SignatureTexts, make_signature, octets_of};
use crate::unprotected::Unprotected;
use jwt_text::{ObjectRef, Part, Scratch};
use std::alloc::Global;

/// The token in compact form, by its three texts, which it borrows.
#[inline(always)]
#[tactic(auto, unfolding(crate::specs::Forms::signed_of))]
fn compact_signed<'a>(
    alloc: Global,
    segments: &CompactTexts<'a>,
    scratch: &mut Scratch,
) -> Result<Signed<'a>, FormFault>
    ensures value { Answers FormFault.OutOfMemory token result
        (signed_of (compact_view segments.now)) }
    ensures lent { IfOk result AreLent }
{
    let payload = octets_of(alloc, segments.payload, Place::Payload)?;
    // The claims are read with it too: got once, it never grows.
    scratch.reserve(payload.len())?;
    let place = SignaturePlace {
        form: Form::Compact,
        number: 0,
    };
    let texts = SignatureTexts {
        protected: Part::Slice(segments.protected),
        header: &Unprotected::Absent,
        signature: segments.signature,
    };
    let signature = make_signature(alloc, place, texts, scratch)?;
    Ok(Signed {
        form: Form::Compact,
        payload_text: Part::Slice(segments.payload),
        payload,
        first: signature,
        more: Vec::new(alloc),
    })
}

/// A signature of a token in JSON form, with its own copy of the protected text.
fn owned_signature<'a>(
    alloc: Global,
    place: SignaturePlace,
    spelled: &SpelledSignature<'_>,
    scratch: &mut Scratch,
) -> Result<Signature<'a>, FormFault>
    ensures { Answers FormFault.OutOfMemory parts result
        (signature_of place.form place.number (spelled_view spelled.now)) }
{
    let texts = SignatureTexts {
        protected: Part::Owned(Vec::from_slice(alloc, spelled.protected)?),
        header: &spelled.header,
        signature: spelled.signature,
    };
    make_signature(alloc, place, texts, scratch)
}

/// The signatures after the first.
fn later_signatures<'a>(
    alloc: Global,
    form: Form,
    spelled: &[SpelledSignature<'_>],
    scratch: &mut Scratch,
) -> Result<Vec<Signature<'a>>, FormFault>
    requires { length spelled.now ≤ 31 }
    ensures value { Answers FormFault.OutOfMemory (λ v. map parts v.items) result
        (each (signature_of form) 1 (map spelled_view spelled.now)) }
    ensures count { IfOk result (λ v. length v.items ≡ length spelled.now) }
{
    let mut signatures = Vec::with_capacity(alloc, spelled.len())?;
    for (i, signature) in spelled.iter().enumerate() {
        let place = SignaturePlace {
            form,
            number: 1 + i as u32,
        };
        let made = owned_signature(alloc, place, signature, scratch)?;
        signatures.push(made)?;
    }
    Ok(signatures)
}

/// The token in JSON form, by its texts, which it copies.
#[tactic(auto, unfolding(crate::specs::Forms::signed_of))]
fn json_signed<'a>(
    alloc: Global,
    spelled: &SpelledJson<'_>,
    scratch: &mut Scratch,
) -> Result<Signed<'a>, FormFault>
    requires some { 0 < length spelled.now.signatures.items }
    requires few { length spelled.now.signatures.items ≤ 32 }
    ensures { Answers FormFault.OutOfMemory token result (signed_of (json_view spelled.now)) }
{
    let Some((first, later)) = spelled.signatures.split_first() else {
        return Err(FormFault::Members);
    };
    let payload = octets_of(alloc, spelled.payload, Place::Payload)?;
    let place = SignaturePlace {
        form: spelled.form,
        number: 0,
    };
    let first = owned_signature(alloc, place, first, scratch)?;
    let more = later_signatures(alloc, spelled.form, later, scratch)?;
    let text = Vec::from_slice(alloc, spelled.payload)?;
    Ok(Signed {
        form: spelled.form,
        payload_text: Part::Owned(text),
        payload,
        first,
        more,
    })
}

/// The token whose object this is.
fn object_signed<'a>(
    alloc: Global,
    most: u32,
    object: &ObjectRef<'_>,
    scratch: &mut Scratch,
) -> Result<Signed<'a>, FormFault>
    requires least { 0 < most }
    requires most { most ≤ 32 }
    ensures { Answers FormFault.OutOfMemory token result (token_in most object.now) }
{
    let spelled = spelled_json(alloc, most, object)?;
    json_signed(alloc, &spelled, scratch)
}

/// Reads a signed token, in compact or in JSON form (RFC 7515, section 7), with at most `max_signatures` signatures, 1 to 32.
///
/// Refused with the first cause that holds, as [`FormFault`] lists them, or with `FormFault::OutOfMemory`. In compact form no
/// octet of the signing input is copied. Nothing is verified.
pub fn parse<'a>(
    alloc: Global,
    octets: &'a [u8],
    max_signatures: u32,
) -> Result<Signed<'a>, FormFault>
    requires least { 0 < max_signatures }
    requires most { max_signatures ≤ 32 }
    ensures value { Answers FormFault.OutOfMemory token result (form_of max_signatures octets.now) }
    ensures lent { opens_object octets.now ≡ false → IfOk result AreLent }

    // Want of memory comes only of octets in JSON form or in compact form: it stands in place of no other fault.
    ensures memory { result ≡ Err FormFault.OutOfMemory → (opens_object octets.now ≡ true)
        ⊎ ((h p g : List ℕ) × IsCompact octets.now h p g) }
{
    let mut scratch = Scratch::new(alloc);
    parse_with(alloc, octets, max_signatures, &mut scratch)
}

/// The same as [`parse`], with memory that was made before, and that serves for token after token.
#[tactic(auto, unfolding(crate::specs::Forms::form_of, crate::specs::Forms::spelled_token))]
pub fn parse_with<'a>(
    alloc: Global,
    octets: &'a [u8],
    max_signatures: u32,
    scratch: &mut Scratch,
) -> Result<Signed<'a>, FormFault>
    requires least { 0 < max_signatures }
    requires most { max_signatures ≤ 32 }
    ensures value { Answers FormFault.OutOfMemory token result (form_of max_signatures octets.now) }
    ensures lent { opens_object octets.now ≡ false → IfOk result AreLent }
    ensures memory { result ≡ Err FormFault.OutOfMemory → (opens_object octets.now ≡ true)
        ⊎ ((h p g : List ℕ) × IsCompact octets.now h p g) }
{
    compact_form();
    if octets.is_empty() {
        return Err(FormFault::Empty);
    }
    if opens_object(octets) {
        let object = json_object(alloc, octets, scratch)?;
        object_signed(alloc, max_signatures, &object.lend(), scratch)
    } else {
        let segments = segments_of(octets)?;
        compact_signed(alloc, &segments, scratch)
    }
}
