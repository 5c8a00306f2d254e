//! JSON form, general and flattened: the texts of a token as they are spelled (RFC 7515, section 7.2).
ghost use Rattle.std.specs.Prelude.{◌||◌, ◌==◌, ◌≡◌, ◌<◌, ◌≤◌, codes, length, map, not, option_map, IfOk, slice_index_or};
ghost use Rattle.std.specs.List.{find};
ghost use Rattle.serde_json.specs.Data.{Data, Members};
ghost use Rattle.serde_json.specs.Find.{get_member, as_object};
ghost use Rattle.jwt_text.specs.Answers.{Answers, each, some_or};
ghost use Rattle.jwt_text.specs.Members.{text_at};
ghost use Rattle.jwt_text.specs.ObjectText.{object_of};
ghost use Rattle.jwt_jws.specs.declared.fault.FormFault.TheVariants.{Members as WrongMembers};
ghost use Rattle.jwt_jws.specs.Forms.{spelled_signature, spelled_element, flattened, general, json_of, read_as, opens_object};
ghost use Rattle.jwt_jws.specs.Views.{spelled_view, json_view, header_view};

use crate::fault::{Form, FormFault};
use crate::unprotected::Unprotected;
use jwt_text::{Object, ObjectRef, Scratch, TextFault, object_with};
use std::alloc::Global;

/// A signature as it is spelled, lent by the object that it stands in.
#[derive(Drop)]
pub(crate) struct SpelledSignature<'a> {
    pub(crate) protected: &'a [u8],
    pub(crate) header: Unprotected<'a>,
    pub(crate) signature: &'a [u8],
}

/// A token in JSON form as it is spelled, lent by its object.
#[derive(Drop)]
pub(crate) struct SpelledJson<'a> {
    pub(crate) form: Form,
    pub(crate) payload: &'a [u8],
    pub(crate) signatures: Vec<SpelledSignature<'a>>,
}

/// The octets of a member that has to be a text.
fn text_of<'a>(object: &ObjectRef<'a>, name: &str) -> Result<&'a [u8], FormFault>
    ensures { Answers FormFault.OutOfMemory (λ s. s.now) result
        (some_or WrongMembers (text_at name.now object.now)) }
{
    match object.text(name) {
        Some(text) => Ok(text.as_bytes()),
        None => Err(FormFault::Members),
    }
}

/// The member `header`: absent, an object, or of another kind.
fn header_member<'a>(object: &ObjectRef<'a>) -> Unprotected<'a>
    ensures { header_view result ≡ option_map as_object (get_member (codes "header") object.now) }
{
    if !object.has("header") {
        return Unprotected::Absent;
    }
    match object.object("header") {
        Some(members) => Unprotected::Members(members),
        None => Unprotected::OtherKind,
    }
}

/// The texts of a signature, from the object that it stands in.
#[tactic(auto, unfolding(crate::specs::Forms::spelled_signature))]
fn spelled_of<'a>(object: &ObjectRef<'a>) -> Result<SpelledSignature<'a>, FormFault>
    ensures { Answers FormFault.OutOfMemory spelled_view result (spelled_signature object.now) }
{
    let signature = text_of(object, "signature")?;
    let protected = if object.has("protected") {
        text_of(object, "protected")?
    } else {
        &[]
    };
    let header = header_member(object);
    Ok(SpelledSignature {
        protected,
        header,
        signature,
    })
}

/// The texts of the signature that an element of `signatures` is.
fn element_of<'a>(list: &jwt_text::List<'a>, i: usize) -> Result<SpelledSignature<'a>, FormFault>
    requires { i < length list.now }
    ensures { (d : Data)
        → Answers FormFault.OutOfMemory spelled_view result
        (spelled_element i (slice_index_or list.now i d)) }
{
    match list.object(i) {
        Some(object) => spelled_of(&object),
        None => Err(FormFault::Members),
    }
}

/// The texts of all signatures of the list, in order.
fn spelled_elements<'a>(
    alloc: Global,
    list: &jwt_text::List<'a>,
) -> Result<Vec<SpelledSignature<'a>>, FormFault>
    ensures { Answers FormFault.OutOfMemory (λ v. map spelled_view v.items) result
        (each spelled_element 0 list.now) }
{
    let mut spelled = Vec::new(alloc);
    for i in 0..list.len() {
        let element = element_of(list, i)?;
        spelled.push(element)?;
    }
    Ok(spelled)
}

/// The token that an object in flattened form is (RFC 7515, section 7.2.2).
#[tactic(auto, unfolding(crate::specs::Forms::flattened))]
fn flattened_of<'a>(alloc: Global, object: &ObjectRef<'a>) -> Result<SpelledJson<'a>, FormFault>
    ensures value { Answers FormFault.OutOfMemory json_view result (flattened object.now) }
    ensures one { IfOk result (λ t. length t.signatures.items ≡ 1) }
{
    let payload = text_of(object, "payload")?;
    let signature = spelled_of(object)?;
    let mut signatures = Vec::new(alloc);
    signatures.push(signature)?;
    Ok(SpelledJson {
        form: Form::Flattened,
        payload,
        signatures,
    })
}

/// The token that an object in general form is, with at most so many signatures (RFC 7515, section 7.2.1).
#[tactic(auto, unfolding(crate::specs::Forms::general))]
fn general_of<'a>(
    alloc: Global,
    most: u32,
    object: &ObjectRef<'a>,
) -> Result<SpelledJson<'a>, FormFault>
    ensures value { Answers FormFault.OutOfMemory json_view result (general most object.now) }
    ensures some { IfOk result (λ t. 0 < length t.signatures.items) }
    ensures few { IfOk result (λ t. length t.signatures.items ≤ most) }
{
    let payload = text_of(object, "payload")?;
    let Some(list) = object.list("signatures") else {
        return Err(FormFault::Members);
    };
    let signatures = spelled_elements(alloc, &list)?;
    if signatures.is_empty() {
        return Err(FormFault::Members);
    }
    if signatures.len() > most as usize {
        return Err(FormFault::TooManySignatures);
    }
    Ok(SpelledJson {
        form: Form::General,
        payload,
        signatures,
    })
}

/// The texts of a token in JSON form, with at most so many signatures.
#[tactic(auto, unfolding(crate::specs::Forms::json_of))]
pub(crate) fn spelled_json<'a>(
    alloc: Global,
    most: u32,
    object: &ObjectRef<'a>,
) -> Result<SpelledJson<'a>, FormFault>
    requires { 0 < most }
    ensures value { Answers FormFault.OutOfMemory json_view result (json_of most object.now) }
    ensures some { IfOk result (λ t. 0 < length t.signatures.items) }
    ensures few { IfOk result (λ t. length t.signatures.items ≤ most) }
{
    if object.has("ciphertext") {
        return Err(FormFault::Encrypted);
    }
    if !object.has("signature") {
        return general_of(alloc, most, object);
    }
    if object.has("signatures") {
        return Err(FormFault::Members);
    }
    flattened_of(alloc, object)
}

/// The object that a token in JSON form is the text of.
pub(crate) fn json_object(
    alloc: Global,
    octets: &[u8],
    scratch: &mut Scratch,
) -> Result<Object, FormFault>
    ensures { Answers FormFault.OutOfMemory (λ o. o) result (read_as (object_of octets.now)) }
{
    match object_with(alloc, octets, scratch) {
        Ok(object) => Ok(object),
        Err(TextFault::OutOfMemory) => Err(FormFault::OutOfMemory),
        Err(TextFault::NameTwice) => Err(FormFault::NameTwice),
        Err(_) => Err(FormFault::Json),
    }
}

/// Whether an octet is JSON white space (RFC 8259, section 2).
fn is_space(c: u8) -> bool
    ensures { result ≡ (c == 9 || c == 10 || c == 13 || c == 32) }
{
    matches!(c, 9 | 10 | 13 | 32)
}

/// The first octet that isn't JSON white space, if there is one.
fn first_no_space(octets: &[u8]) -> Option<u8>
    ensures { result ≡ find (λ c. not (c == 9 || c == 10 || c == 13 || c == 32)) octets.now }
{
    octets.iter().copied().find(|c| !is_space(*c))
}

/// Whether the first octet that isn't JSON white space is `{` (RFC 8259, section 2): such a text is read as a token in JSON form, and any
/// other as one in compact form (RFC 7515, section 7). It takes no memory.
pub fn opens_object(octets: &[u8]) -> bool
    ensures { result ≡ opens_object octets.now }
{
    match first_no_space(octets) {
        Some(c) => c == b'{',
        None => false,
    }
}
