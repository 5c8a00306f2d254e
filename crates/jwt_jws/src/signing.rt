//! One signature of a token, from its three members as they are spelled.
ghost use Rattle.std.specs.Prelude.{◌≡◌, Option, IfOk};
ghost use Rattle.jwt_text.specs.Answers.{Answers, or_fault};
ghost use Rattle.jwt_text.specs.Base64url.{spelled};
ghost use Rattle.jwt_text.specs.ObjectText.{object_of};
ghost use Rattle.jwt_text.specs.Parts.{part_octets};
ghost use Rattle.jwt_jws.specs.declared.fault.FormFault.TheVariants.{Base64, Header};
ghost use Rattle.jwt_jws.specs.Forms.{protected_of, unprotected_of, overlap, signature_of};
ghost use Rattle.jwt_jws.specs.Views.{header_view, parts};

use crate::crit::crit_repeats;
use crate::fault::{Form, FormFault, Place};
use crate::signature::Signature;
use crate::unprotected::Unprotected;
use jwt_text::{Object, Part, Scratch, TextFault, object_with};
use std::alloc::Global;

/// Where a signature stands: in a token of which form, and its number there, from 0.
#[derive(Clone, Copy)]
pub(crate) struct SignaturePlace {
    pub(crate) form: Form,
    pub(crate) number: u32,
}

/// The three members of a signature, as they are spelled. The signature keeps the protected text, the other two are lent.
#[derive(Drop)]
pub(crate) struct SignatureTexts<'a, 'b> {
    pub(crate) protected: Part<'a>,
    pub(crate) header: &'b Unprotected<'b>,
    pub(crate) signature: &'b [u8],
}

/// The octets that a text of the token spells.
pub(crate) fn octets_of(alloc: Global, text: &[u8], place: Place) -> Result<Vec<u8>, FormFault>
    ensures { Answers FormFault.OutOfMemory (λ v. v.items) result
        (or_fault (Base64 place) (spelled text.now)) }
{
    match jwt_text::decode(alloc, text) {
        Ok(octets) => Ok(octets),
        Err(TextFault::OutOfMemory) => Err(FormFault::OutOfMemory),
        Err(_) => Err(FormFault::Base64(place)),
    }
}

/// The same, into a buffer in place of what it holds.
fn octets_into(text: &[u8], place: Place, buffer: &mut Vec<u8>) -> Result<(), FormFault>
    ensures { Answers FormFault.OutOfMemory (λ _. buffer.new.items) result
        (or_fault (Base64 place) (spelled text.now)) }
{
    match jwt_text::decode_into(text, buffer) {
        Ok(()) => Ok(()),
        Err(TextFault::OutOfMemory) => Err(FormFault::OutOfMemory),
        Err(_) => Err(FormFault::Base64(place)),
    }
}

/// The protected header of signature `i`, by the octets of its text.
#[inline(always)]
fn header_of(
    alloc: Global,
    octets: &[u8],
    i: u32,
    scratch: &mut Scratch,
) -> Result<Object, FormFault>
    ensures { Answers FormFault.OutOfMemory (λ o. o) result
        (or_fault (Header i) (object_of octets.now)) }
{
    match object_with(alloc, octets, scratch) {
        Ok(object) => Ok(object),
        Err(TextFault::OutOfMemory) => Err(FormFault::OutOfMemory),
        Err(_) => Err(FormFault::Header(i)),
    }
}

/// The buffer is for the octets that the text spells.
#[inline(always)]
#[tactic(auto, unfolding(crate::specs::Forms::protected_of))]
fn protected_header(
    alloc: Global,
    place: SignaturePlace,
    text: &[u8],
    buffer: &mut Vec<u8>,
    scratch: &mut Scratch,
) -> Result<Object, FormFault>
    ensures { Answers FormFault.OutOfMemory (λ o. o) result
        (protected_of place.form place.number text.now) }
{
    if place.form != Form::Compact && text.is_empty() {
        return Ok(Object::empty(alloc));
    }
    octets_into(text, Place::Protected(place.number), buffer)?;
    header_of(alloc, buffer.as_slice(), place.number, scratch)
}

/// A copy of the unprotected header of signature `i`, `None` where it is absent.
#[inline(always)]
fn unprotected_header(
    alloc: Global,
    i: u32,
    header: &Unprotected<'_>,
) -> Result<Option<Object>, FormFault>
    ensures { Answers FormFault.OutOfMemory (λ o. o) result
        (unprotected_of i (header_view header.now)) }
{
    match header {
        Unprotected::Absent => Ok(None),
        Unprotected::OtherKind => Err(FormFault::UnprotectedKind(i)),
        Unprotected::Members(object) => match object.to_object(alloc) {
            Ok(copy) => Ok(Some(copy)),
            Err(_) => Err(FormFault::OutOfMemory),
        },
    }
}

/// Whether a name stands in both headers (RFC 7515, section 7.2.1).
fn names_overlap(protected: &Object, unprotected: &Option<Object>) -> bool
    ensures { result ≡ overlap protected.now unprotected.now }
{
    match unprotected {
        Some(unprotected) => unprotected.lend().shares_name(&protected.lend()),
        None => false,
    }
}

/// The signature at this place, from its three members as they are spelled. The octets of its protected header and then its own are
/// in one buffer.
#[inline(always)]
#[tactic(auto, unfolding(crate::specs::Forms::signature_of))]
pub(crate) fn make_signature<'a>(
    alloc: Global,
    place: SignaturePlace,
    texts: SignatureTexts<'a, '_>,
    scratch: &mut Scratch,
) -> Result<Signature<'a>, FormFault>
    ensures value { Answers FormFault.OutOfMemory parts result (signature_of place.form place.number
        (record {
          protected = part_octets texts.entry.protected;
          header = header_view texts.entry.header.now;
          signature = texts.entry.signature.now;
        })) }
    ensures same_text { IfOk result (λ s. s.protected_text ≡ texts.entry.protected) }
{
    let SignatureTexts {
        protected: protected_text,
        header,
        signature,
    } = texts;
    let longest = protected_text.octets().len().max(signature.len());
    let mut octets = Vec::with_capacity(alloc, longest)?;
    let protected = protected_header(alloc, place, protected_text.octets(), &mut octets, scratch)?;
    let unprotected = unprotected_header(alloc, place.number, header)?;
    if names_overlap(&protected, &unprotected) {
        return Err(FormFault::NamesOverlap(place.number));
    }
    octets_into(signature, Place::Signature(place.number), &mut octets)?;
    let repeats = crit_repeats(alloc, &protected)?;
    Ok(Signature {
        protected_text,
        protected,
        unprotected,
        octets,
        repeats,
    })
}
