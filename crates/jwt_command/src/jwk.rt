//! The command `jwk`: public keys in PEM or DER as JWKs, and new secrets.
ghost use Rattle.std.specs.Prelude.{◌≡◌, ◌≢◌, ◌≤◌, ◌+◌, ◌⊎◌, true, false, IfErr, IfOk, IfSome, IsOkUnless, length, option_and_then, option_map};
ghost use Rattle.jwt_text.specs.Intake.{TakesAtMost};
ghost use Rattle.jwt_mac.specs.Algorithm.{digest_size, is_hmac_alg};
ghost use Rattle.jwt_jwk.specs.Converted.{kid_of};
ghost use Rattle.jwt_jwk.specs.Jwk.{optional_text};
ghost use Rattle.jwt_words.specs.Seen.{held_view, jwk_view, kid_view, secret_view};
ghost use Rattle.jwt_jwk.specs.FaultNames.{jwk_fault_name, remedy};
ghost use Rattle.jwt_output.specs.Jwk.{jwk_line, jwk_refused};
ghost use Rattle.jwt_output.specs.Views.{reply_view};
ghost use Rattle.jwt_command.specs.Documents.{last_most};
ghost use Rattle.jwt_command.specs.Jwk.{AreKeys, AreKeysAs, IsFaultAs, IsJwkAnswer, IsPrinted, IsPrintedAs, JwkOfInput, JwkOfKeys, JwkOfOctets, kid_by, kept_secret, kept_secret_line, secret_answer, secret_json, secret_line, secret_named, fresh_secret};

use crate::input::whole::read_input;
use jwt_jwk::{
    JwkFault, Kid, jwk_of_der, jwk_of_pem, jwk_set_of_der, jwk_set_of_pem, thumbprint, write_jwk,
    write_jwk_set,
};
use jwt_mac::{Alg, KeyView};
use jwt_output::{Reply, jwk_line, printed_read_fault, random_failed, refused_jwk};
use jwt_settings::Printing;
use jwt_text::{LONGEST_KEY_SET, Source, TextFault};
use jwt_words::{Held, JwkOrder, KidChoice, SecretOrder};
use std::alloc::{AllocError, Global};

/// The `kid` that is asked for.
fn kid_by(choice: KidChoice<'_>) -> Kid<'_>
    ensures { kid_of result ≡ kid_by (kid_view choice.entry) }
{
    match choice {
        KidChoice::Absent => Kid::Absent,
        KidChoice::Name(name) => Kid::Name(name),
        KidChoice::Thumbprint => Kid::Thumbprint,
    }
}

/// What is printed of one key in DER.
fn of_der(
    alloc: Global,
    bare: bool,
    kid: Kid<'_>,
    alg: Option<&str>,
    octets: &[u8],
) -> Result<Vec<u8>, JwkFault>
    ensures ok { IfOk result (λ v. IsPrintedAs true bare (kid_of kid.entry) (optional_text alg.entry) octets.now v.items) }
    ensures only { AreKeysAs true bare octets.now → IsOkUnless result JwkFault.OutOfMemory }
    ensures exact { IfErr result (IsFaultAs true bare octets.now) }
{
    if bare {
        jwk_of_der(alloc, octets, kid, alg)
    } else {
        jwk_set_of_der(alloc, octets, kid, alg)
    }
}

/// What is printed of keys in PEM.
fn of_pem(
    alloc: Global,
    bare: bool,
    kid: Kid<'_>,
    alg: Option<&str>,
    octets: &[u8],
) -> Result<Vec<u8>, JwkFault>
    ensures ok { IfOk result (λ v. IsPrintedAs false bare (kid_of kid.entry) (optional_text alg.entry) octets.now v.items) }
    ensures only { AreKeysAs false bare octets.now → IsOkUnless result JwkFault.OutOfMemory }
    ensures exact { IfErr result (IsFaultAs false bare octets.now) }
{
    if bare {
        jwk_of_pem(alloc, octets, kid, alg)
    } else {
        jwk_set_of_pem(alloc, octets, kid, alg)
    }
}

/// What is printed of public keys.
fn of_keys(alloc: Global, order: JwkOrder<'_>, octets: &[u8]) -> Result<Vec<u8>, JwkFault>
    ensures ok { IfOk result (λ v. IsPrinted (jwk_view order.entry) octets.now v.items) }
    ensures only { AreKeys (jwk_view order.entry) octets.now → IsOkUnless result JwkFault.OutOfMemory }
    ensures exact { IfErr result (IsFaultAs (jwk_view order.entry).der (jwk_view order.entry).bare octets.now) }
{
    let kid = kid_by(order.kid);
    if order.der {
        of_der(alloc, order.bare, kid, order.alg, octets)
    } else {
        of_pem(alloc, order.bare, kid, order.alg, octets)
    }
}

/// The line of a refusal, but for want of memory.
fn refusal(alloc: Global, printing: Printing, fault: JwkFault) -> Result<Reply, AllocError>
    ensures line { IfOk result (λ a. reply_view a ≡ jwk_refused printing (jwk_fault_name fault) (remedy fault)) }
    ensures done { IfOk result (λ a. a.status ≢ 3) }
    ensures memory { IfOk result (λ _. fault ≢ JwkFault.OutOfMemory) }
{
    match fault {
        JwkFault::OutOfMemory => Err(AllocError),
        _ => refused_jwk(alloc, printing, fault.name(), fault.remedy()),
    }
}

/// The answer of public keys.
fn keys_answer(alloc: Global, order: JwkOrder<'_>, octets: &[u8]) -> Result<Reply, AllocError>
    ensures answer { IfOk result (λ a. JwkOfKeys (jwk_view order.entry) octets.now (reply_view a)) }
    ensures done { IfOk result (λ a. a.status ≢ 3) }
{
    match of_keys(alloc, order, octets) {
        Ok(json) => jwk_line(json),
        Err(fault) => refusal(alloc, order.printing, fault),
    }
}

/// The answer of octets, of which there may be too many.
fn octets_answer(alloc: Global, order: JwkOrder<'_>, octets: &[u8]) -> Result<Reply, AllocError>
    ensures answer { IfOk result (λ a. JwkOfOctets (jwk_view order.entry) octets.now (reply_view a)) }
    ensures done { IfOk result (λ a. a.status ≢ 3) }
{
    if octets.len() <= LONGEST_KEY_SET as usize {
        keys_answer(alloc, order, octets)
    } else {
        refused_jwk(alloc, order.printing, "TooLong", None)
    }
}

/// The answer of an input.
fn input_answer<R: Source>(
    alloc: Global,
    order: JwkOrder<'_>,
    r: &mut R,
) -> Result<Reply, AllocError>
    ensures answer { IfSome (R.remaining r.old) (λ x. IfOk result (λ a.
        JwkOfInput (jwk_view order.entry) (R.failed r.new) x (reply_view a))) }
    ensures taken { IfSome (R.remaining r.old)
        (λ x. (R.failed r.new ≡ true) ⊎ TakesAtMost (LONGEST_KEY_SET + 1) x (R.remaining r.new)) }
    ensures failed { IfOk result (λ a. a.status ≡ 3 → R.failed r.new ≡ true) }
{
    match read_input(alloc, LONGEST_KEY_SET, r) {
        Ok(input) => octets_answer(alloc, order, input.octets()),
        Err(TextFault::Read) => printed_read_fault(alloc, order.printing),
        Err(TextFault::TooLong) => refused_jwk(alloc, order.printing, "TooLong", None),
        Err(_) => Err(AllocError),
    }
}

/// Runs `jwt jwk`: on the file of the keys, which is in hand, or on an input, of at most 4,194,304 octets.
pub(crate) fn jwk<R: Source>(
    alloc: Global,
    order: JwkOrder<'_>,
    held: Option<&[u8]>,
    r: &mut R,
) -> Result<Reply, AllocError>
    ensures answer { IfSome (R.remaining r.old) (λ x. IfOk result (λ a.
        IsJwkAnswer (jwk_view order.entry) (option_map (λ t. t.now) held.entry) (R.failed r.new) x (reply_view a))) }
    ensures taken { IfSome (R.remaining r.old) (λ x. (R.failed r.new ≡ true)
        ⊎ TakesAtMost (last_most (LONGEST_KEY_SET + 1) (option_map (λ t. t.now) held.entry)) x (R.remaining r.new)) }
    ensures failed { IfOk result (λ a. a.status ≡ 3 → R.failed r.new ≡ true) }
{
    match held {
        Some(octets) => octets_answer(alloc, order, octets),
        None => input_answer(alloc, order, r),
    }
}

/// The JWK of a secret, or the key set of it, with this `kid`, for this algorithm alone.
fn secret_named(
    alloc: Global,
    bare: bool,
    alg: Alg,
    kid: &str,
    k: &[u8],
) -> Result<Vec<u8>, TextFault>
    requires hmac { is_hmac_alg alg ≡ true }
    requires least { digest_size alg ≤ length k.now }
    requires most { length k.now ≤ 4096 }
    ensures { IfOk result (λ v. v.items ≡ secret_named bare alg kid.now k.now) }
{
    let key = KeyView::Oct { k };
    if bare {
        write_jwk(alloc, key, Some(kid), Some(alg.text()))
    } else {
        write_jwk_set(alloc, key, Some(kid), Some(alg.text()))
    }
}

/// The same with the `kid` that is asked for, or else its thumbprint.
fn secret_json(alloc: Global, order: SecretOrder<'_>, k: &[u8]) -> Result<Vec<u8>, TextFault>
    requires hmac { is_hmac_alg order.alg ≡ true }
    requires least { digest_size order.alg ≤ length k.now }
    requires most { length k.now ≤ 4096 }
    ensures { IfOk result (λ v. v.items ≡ secret_json (secret_view order.entry) k.now) }
{
    match order.kid {
        Some(kid) => secret_named(alloc, order.bare, order.alg, kid, k),
        None => {
            let print = thumbprint(alloc, KeyView::Oct { k })?;
            secret_named(alloc, order.bare, order.alg, print.as_str(), k)
        }
    }
}

/// The line of a secret.
fn secret_line(alloc: Global, order: SecretOrder<'_>, k: &[u8]) -> Result<Reply, AllocError>
    requires hmac { is_hmac_alg order.alg ≡ true }
    requires least { digest_size order.alg ≤ length k.now }
    requires most { length k.now ≤ 4096 }
    ensures { IfOk result (λ a. reply_view a
        ≡ jwk_line (secret_json (secret_view order.entry) k.now)) }
{
    match secret_json(alloc, order, k) {
        Ok(json) => jwk_line(json),
        Err(_) => Err(AllocError),
    }
}

/// The octets of a secret, where there are just as many as a digest of its algorithm has.
fn secret_in(alg: Alg, random: Option<&[u8]>) -> Option<&[u8]>
    ensures is { option_map (λ t. t.now) result ≡ fresh_secret alg (option_map (λ t. t.now) random.entry) }
    ensures size { IfSome result (λ k. length k.now ≡ digest_size alg) }
{
    let octets = random?;
    if octets.len() == alg.digest() as usize {
        Some(octets)
    } else {
        None
    }
}

/// The octets of a file, where they are a key for its algorithm: as many as a digest has, or more, and at most 4,096.
fn kept_secret(alg: Alg, octets: Option<&[u8]>) -> Option<&[u8]>
    ensures is { option_map (λ t. t.now) result
        ≡ option_and_then (kept_secret (digest_size alg)) (option_map (λ t. t.now) octets.entry) }
    ensures least { IfSome result (λ k. digest_size alg ≤ length k.now) }
    ensures most { IfSome result (λ k. length k.now ≤ 4096) }
{
    let octets = octets?;
    if alg.digest() as usize <= octets.len() && octets.len() <= 4_096 {
        Some(octets)
    } else {
        None
    }
}

/// The line of the secret of a file.
fn kept_secret_line(
    alloc: Global,
    order: SecretOrder<'_>,
    octets: Option<&[u8]>,
) -> Result<Reply, AllocError>
    requires { is_hmac_alg order.alg ≡ true }
    ensures { IfOk result (λ a. reply_view a ≡ kept_secret_line (secret_view order.entry)
        (option_and_then (kept_secret (digest_size order.entry.alg)) (option_map (λ t. t.now) octets.entry))) }
{
    match kept_secret(order.alg, octets) {
        Some(k) => secret_line(alloc, order, k),
        None => refused_jwk(alloc, order.printing, "KeySize", None),
    }
}

/// The line of a new secret, of octets of the system's random source: it takes exactly as many as a digest of its algorithm has.
fn new_secret_line(
    alloc: Global,
    order: SecretOrder<'_>,
    random: Option<&[u8]>,
) -> Result<Reply, AllocError>
    requires { is_hmac_alg order.alg ≡ true }
    ensures { IfOk result (λ a. reply_view a ≡ secret_line (secret_view order.entry)
        (fresh_secret order.entry.alg (option_map (λ t. t.now) random.entry))) }
{
    match secret_in(order.alg, random) {
        Some(k) => secret_line(alloc, order, k),
        None => random_failed(alloc, order.printing),
    }
}

/// Runs `jwt jwk --secret` with the octets of a file, or `jwt jwk --new` with octets of the system's random source.
pub(crate) fn secret(
    alloc: Global,
    order: SecretOrder<'_>,
    held: Held<'_>,
) -> Result<Reply, AllocError>
    requires { is_hmac_alg order.alg ≡ true }
    ensures { IfOk result (λ a. reply_view a
        ≡ secret_answer (secret_view order.entry).files.key (secret_view order.entry) (held_view held.entry)) }
{
    match order.files.key {
        Some(_) => kept_secret_line(alloc, order, held.key),
        None => new_secret_line(alloc, order, held.random),
    }
}
