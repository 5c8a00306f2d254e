//! Blocks.

ghost use Rattle.std.specs.Prelude.{◌≡◌, ◌≢◌, ◌≤◌, ◌<◌, ◌⊎◌, ℕ, List, ◌++◌, length, slice_index, IfOk, IfErr, IfSome, IsOkAnd, IsSomeAnd, IsErrOf, MatchOption};
ghost use Rattle.base64.specs.Engines.{standard};
ghost use Rattle.base64.specs.GeneralPurpose.{IsBytes, encode_of};
ghost use Rattle.jwt_jwk.specs.text_blocks.Pem.{IsBlock, IsBlockFault, IsPlain, begin_line, end_line, without_blanks};

use crate::text_blocks::fault::PemFault;
use crate::text_blocks::label::Label;
use base64::DecodeAllocError;
use base64::engine::general_purpose::STANDARD;
use std::alloc::{AllocError, Global};

/// The line before a block.
pub(crate) fn begin_line(label: Label) -> &'static [u8]
    ensures { result.now ≡ begin_line label }
{
    match label {
        Label::PublicKey => b"-----BEGIN PUBLIC KEY-----",
        Label::RsaPublicKey => b"-----BEGIN RSA PUBLIC KEY-----",
    }
}

/// The line behind a block.
fn end_line(label: Label) -> &'static [u8]
    ensures { result.now ≡ end_line label }
{
    match label {
        Label::PublicKey => b"-----END PUBLIC KEY-----",
        Label::RsaPublicKey => b"-----END RSA PUBLIC KEY-----",
    }
}

/// What stands behind a start, if octets start so.
fn behind<'a>(octets: &'a [u8], start: &[u8]) -> Option<&'a [u8]>
    ensures { MatchOption result ((rest : List ℕ) → octets.now ≢ start.now ++ rest)
        (λ rest. octets.now ≡ start.now ++ rest.now) }
{
    octets.strip_prefix(start)
}

/// The place of the first hyphen, or the length.
fn hyphen(text: &[u8]) -> usize
    ensures within { result ≤ length text.now }
    ensures before { (k : ℕ) → k < result → slice_index text.now k ≢ 45 }
    ensures found { result < length text.now → slice_index text.now result ≡ 45 }
{
    for (i, c) in text.iter().enumerate() {
        if *c == b'-' {
            return i;
        }
    }
    text.len()
}

/// What stands between the lines of a label, and what follows.
fn parts(label: Label, text: &[u8]) -> Option<(&[u8], &[u8])>
    ensures found { IfSome result (λ p. (text.now ≡ begin_line label ++ (p.0.now ++ (end_line label ++ p.1.now))) × IsPlain p.0.now) }
    ensures only { (body rest : List ℕ) → IsPlain body → text.now ≡ begin_line label ++ (body ++ (end_line label ++ rest))
        → IsSomeAnd result (λ p. (p.0.now ≡ body) × (p.1.now ≡ rest)) }
{
    let Some(after) = behind(text, begin_line(label)) else {
        return None;
    };
    let (body, end) = after.split_at(hyphen(after));
    let Some(rest) = behind(end, end_line(label)) else {
        return None;
    };
    Some((body, rest))
}

/// The text without its blanks.
fn squeezed(alloc: Global, body: &[u8]) -> Result<Vec<u8>, AllocError>
    ensures { IfOk result (λ v. v.items ≡ without_blanks body.now) }
{
    body.iter()
        .filter(|c| !(**c == 32 || (9 <= **c && **c <= 13)))
        .copied()
        .collect(alloc)
}

/// The octets whose base64 text this is, with blanks anywhere.
fn decoded(alloc: Global, body: &[u8]) -> Result<Vec<u8>, PemFault>
    ensures found { IfOk result (λ v. without_blanks body.now ≡ encode_of standard v.items) }
    ensures octets { IfOk result (λ v. IsBytes v.items) }
    ensures only { (octets : List ℕ) → IsBytes octets → without_blanks body.now ≡ encode_of standard octets → ¬ IsErrOf result PemFault.OutOfMemory
        → IsOkAnd result (λ v. v.items ≡ octets) }
    ensures exact { IfErr result (λ f. (f ≡ PemFault.Base64) ⊎ (f ≡ PemFault.OutOfMemory)) }
{
    let Ok(text) = squeezed(alloc, body) else {
        return Err(PemFault::OutOfMemory);
    };
    match STANDARD.decode(alloc, &text) {
        Ok(octets) => Ok(octets),
        Err(DecodeAllocError::OutOfMemory) => Err(PemFault::OutOfMemory),
        Err(DecodeAllocError::DecodeError(_)) => Err(PemFault::Base64),
    }
}

/// The octets of the block with which a text begins, and what follows it.
///
/// # Errors
/// `Line`, where the lines of the label don't stand before and behind it, then `Base64`; `OutOfMemory`.
pub fn read_block(alloc: Global, label: Label, text: &[u8]) -> Result<(Vec<u8>, &[u8]), PemFault>
    // What is read is a block of these octets.
    ensures found { IfOk result (λ r. IsBlock label r.0.items text.now r.1.now) }
    ensures octets { IfOk result (λ r. IsBytes r.0.items) }
    // A block of octets is read as these, unless memory runs out.
    ensures only { (octets rest : List ℕ) → IsBytes octets → IsBlock label octets text.now rest → ¬ IsErrOf result PemFault.OutOfMemory
        → IsOkAnd result (λ r. (r.0.items ≡ octets) × (r.1.now ≡ rest)) }
    // Which fault it is.
    ensures exact { IfErr result (IsBlockFault label text.now) }
{
    let Some((body, rest)) = parts(label, text) else {
        return Err(PemFault::Line);
    };
    match decoded(alloc, body) {
        Ok(octets) => Ok((octets, rest)),
        Err(fault) => Err(fault),
    }
}
