//! The command `mac`: the tag of a token in compact form under a key, and whether its signature is that tag.
ghost use Rattle.std.specs.Prelude.{◌≡◌, ◌≢◌, ◌≤◌, ◌+◌, ◌⊎◌, true, None, IfOk, IfSome, IsOkAnd, IsTrue, length, option_map};
ghost use Rattle.std.specs.Str.{bytes_eq};
ghost use Rattle.jwt_text.specs.Answers.{Answers, or_fault};
ghost use Rattle.jwt_text.specs.Base64url.{spelled};
ghost use Rattle.jwt_mac.specs.Algorithm.{is_hmac_alg};
ghost use Rattle.jwt_jws.specs.Views.{texts_view};
ghost use Rattle.jwt_command.specs.declared.mac.MacFault.TheVariants.{Base64};
ghost use Rattle.jwt_command.specs.Mac.{algorithm_of, behind_key, digest_by, compact_digest, mac_fault_name, key_spelled, mac_answer, mac_in_hand, mac_line, mac_most, texts_digest};
ghost use Rattle.jwt_words.specs.Words.{IsLimit};
ghost use Rattle.jwt_output.specs.Mac.{digest_line, key_refused};
ghost use Rattle.jwt_text.specs.Intake.{TakesAtMost};
ghost use Rattle.jwt_output.specs.Views.{digest_view, reply_view};

use crate::input::whole::{read_input, without_line_feed};
use jwt_jws::{CompactTexts, compact_texts};
use jwt_mac::{Alg, CountDown, Message, Tag, hmac};
use jwt_output::{Digest, Reply, digest_line, printed_read_fault, refused_key, refused_named};
use jwt_settings::Printing;
use jwt_text::{LONGEST_TOKEN, Source, TextFault};
use std::alloc::{AllocError, Global};

/// Why a token has no tag.
#[derive(Clone, Copy, Debug, PartialEq, Eq)]
pub(crate) enum MacFault {
    OutOfMemory,
    Segments,
    Base64,
    Header,
    AlgMissing,
    AlgNotAllowed,
}

/// The octets that one of the three texts spells.
fn octets_of(alloc: Global, text: &[u8]) -> Result<Vec<u8>, MacFault>
    ensures { Answers MacFault.OutOfMemory (λ v. v.items) result
        (or_fault Base64 (spelled text.now)) }
{
    match jwt_text::decode(alloc, text) {
        Ok(octets) => Ok(octets),
        Err(TextFault::OutOfMemory) => Err(MacFault::OutOfMemory),
        Err(_) => Err(MacFault::Base64),
    }
}

/// The algorithm that a header text names.
#[tactic(auto, unfolding(crate::specs::Mac::algorithm_of))]
fn algorithm(alloc: Global, header: &[u8]) -> Result<Alg, MacFault>
    ensures value { Answers MacFault.OutOfMemory (λ alg. alg) result (algorithm_of header.now) }
    ensures hmac { IfOk result (λ alg. IsTrue (is_hmac_alg alg)) }
{
    let members = match jwt_text::object(alloc, header) {
        Ok(members) => members,
        Err(TextFault::OutOfMemory) => return Err(MacFault::OutOfMemory),
        Err(_) => return Err(MacFault::Header),
    };
    let Some(name) = members.text("alg") else {
        return Err(MacFault::AlgMissing);
    };
    match Alg::from_text(name) {
        Some(alg) if alg.is_hmac() => Ok(alg),
        _ => Err(MacFault::AlgNotAllowed),
    }
}

/// Whether the octets are the tag.
fn is_tag(tag: &Tag, octets: &[u8]) -> bool
    ensures { result ≡ bytes_eq octets.now tag.now }
{
    tag.equals(octets)
}

/// The tag of the signing input. The budget is never spent: it is past the cost of what a token can hold.
fn computed(
    alg: Alg,
    key: &[u8],
    texts: &CompactTexts<'_>,
    signature: &[u8],
) -> Result<Digest, MacFault>
    requires hmac { IsTrue (is_hmac_alg alg) }
    requires key { length key.now ≤ 4096 }
    requires texts { length texts.now.protected.now + length texts.now.payload.now ≤ LONGEST_TOKEN + 1 }
    ensures { IsOkAnd result
        (λ d. digest_view d ≡ digest_by key.now (texts_view texts.now) signature.now alg) }
{
    let message = Message {
        protected: texts.protected,
        payload: texts.payload,
    };
    let mut budget = CountDown::new(u64::MAX);
    match hmac(&mut budget, alg, key, message.parts()) {
        Ok(tag) => {
            let equal = is_tag(&tag, signature);
            Ok(Digest { tag, equal })
        }
        Err(_) => Err(MacFault::OutOfMemory),
    }
}

/// The digest of a token's three texts.
#[tactic(auto, unfolding(crate::specs::Mac::texts_digest))]
fn texts_digest(alloc: Global, key: &[u8], texts: &CompactTexts<'_>) -> Result<Digest, MacFault>
    requires key { length key.now ≤ 4096 }
    requires texts { length texts.now.protected.now + length texts.now.payload.now ≤ LONGEST_TOKEN + 1 }
    ensures { Answers MacFault.OutOfMemory digest_view result
        (texts_digest key.now (texts_view texts.now)) }
{
    let header = octets_of(alloc, texts.protected)?;
    let _payload = octets_of(alloc, texts.payload)?;
    let signature = octets_of(alloc, texts.signature)?;
    let alg = algorithm(alloc, header.as_slice())?;
    computed(alg, key, texts, signature.as_slice())
}

/// The digest of a token.
#[tactic(auto, unfolding(crate::specs::Mac::compact_digest))]
fn token_digest(alloc: Global, key: &[u8], token: &[u8]) -> Result<Digest, MacFault>
    requires key { length key.now ≤ 4096 }
    requires token { length token.now ≤ LONGEST_TOKEN }
    ensures { Answers MacFault.OutOfMemory digest_view result (compact_digest key.now token.now) }
{
    match compact_texts(token) {
        Some(texts) => texts_digest(alloc, key, &texts),
        None => Err(MacFault::Segments),
    }
}

/// The name of a fault.
fn fault_name(fault: MacFault) -> &'static str
    ensures { result.now ≡ mac_fault_name fault }
{
    match fault {
        MacFault::OutOfMemory => "OutOfMemory",
        MacFault::Segments => "Segments",
        MacFault::Base64 => "Base64",
        MacFault::Header => "Header",
        MacFault::AlgMissing => "AlgMissing",
        MacFault::AlgNotAllowed => "AlgNotAllowed",
    }
}

/// The line of a token.
fn token_line(alloc: Global, key: &[u8], token: &[u8]) -> Result<Reply, AllocError>
    requires key { length key.now ≤ 4096 }
    requires token { length token.now ≤ LONGEST_TOKEN }
    ensures line { IfOk result (λ r. reply_view r ≡ mac_line (compact_digest key.now token.now)) }
    ensures done { IfOk result (λ r. r.status ≢ 3) }
{
    match token_digest(alloc, key, token) {
        Ok(digest) => digest_line(alloc, &digest),
        Err(MacFault::OutOfMemory) => Err(AllocError),
        Err(fault) => refused_named(alloc, Printing::Lines, fault_name(fault)),
    }
}

/// The octets of a key, 1 to 4,096, where the text spells such.
fn key_octets(alloc: Global, text: &[u8]) -> Result<Option<Vec<u8>>, AllocError>
    ensures value { IfOk result (λ o. option_map (λ k. k.items) o ≡ key_spelled text.now) }
    ensures short { IfOk result (λ o. IfSome o (λ k. length k.items ≤ 4096)) }
{
    match jwt_text::decode(alloc, text) {
        Ok(key) if 1 <= key.len() && key.len() <= 4096 => Ok(Some(key)),
        Ok(_) | Err(TextFault::Base64) => Ok(None),
        Err(_) => Err(AllocError),
    }
}

/// Runs `jwt mac` on an input: a token in compact form, and one line feed behind it or none. A key text that spells no 1 to
/// 4,096 octets is refused before anything is read.
pub(crate) fn mac<R: Source>(
    alloc: Global,
    key: &[u8],
    limit: u64,
    r: &mut R,
) -> Result<Reply, AllocError>
    requires { IsLimit limit }
    ensures line { IfSome (R.remaining r.old)
        (λ x. IfOk result (λ a. reply_view a ≡ mac_answer key.now limit (R.failed r.new) x)) }
    ensures stops { IfSome (R.remaining r.old) (λ x. (R.failed r.new ≡ true)
        ⊎ TakesAtMost (behind_key (key_spelled key.now) limit) x (R.remaining r.new)) }
    ensures failed { IfOk result (λ a. a.status ≡ 3 → R.failed r.new ≡ true) }
    ensures key { key_spelled key.now ≡ None → IfOk result (λ a. reply_view a ≡ key_refused) }
    ensures unread { key_spelled key.now ≡ None → r.new ≡ r.old }
{
    let Some(key) = key_octets(alloc, key)? else {
        return refused_key(alloc);
    };
    match read_input(alloc, limit as u32, r) {
        Err(TextFault::Read) => printed_read_fault(alloc, Printing::Lines),
        Err(TextFault::TooLong) => refused_named(alloc, Printing::Lines, "TooLong"),
        Err(_) => Err(AllocError),
        Ok(input) => token_line(alloc, key.as_slice(), without_line_feed(input.octets())),
    }
}

/// Runs `jwt mac --key-file` on an input, with the key's text in hand.
pub(crate) fn mac_in_hand<R: Source>(
    alloc: Global,
    key: Option<&[u8]>,
    limit: u64,
    r: &mut R,
) -> Result<Reply, AllocError>
    requires { IsLimit limit }
    ensures line { IfSome (R.remaining r.old) (λ x. IfOk result (λ a. reply_view a
        ≡ mac_in_hand (option_map (λ t. t.now) key.entry) limit (R.failed r.new) x)) }
    ensures stops { IfSome (R.remaining r.old) (λ x. (R.failed r.new ≡ true)
        ⊎ TakesAtMost (mac_most (option_map (λ t. t.now) key.entry) limit) x (R.remaining r.new)) }
    ensures failed { IfOk result (λ a. a.status ≡ 3 → R.failed r.new ≡ true) }
{
    match key {
        Some(text) => mac(alloc, without_line_feed(text), limit, r),
        None => refused_key(alloc),
    }
}
