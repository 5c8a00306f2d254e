//! The words of `jwk`.
ghost use Rattle.std.specs.Prelude.{◌≡◌, IfSome, codes, option_map, true};
ghost use Rattle.clap.specs.Words.{first_of, found_of, rows_of};
ghost use Rattle.jwt_mac.specs.Algorithm.{is_hmac_alg};
ghost use Rattle.jwt_words.specs.Seen.{files_view, jwk_view, kid_view, secret_view};
ghost use Rattle.jwt_words.specs.Words.{asks_of_public_keys, is_public_alg, jwk_order, kept_secret_order, key_file_in, kid_chosen, kid_in, public_alg_chosen, secret_alg, secret_alg_in, secret_for, secret_order};

use crate::chosen::{chosen_printing, is_named, is_set};
use crate::command::Files;
use crate::nearest::nearest;
use crate::wrong::unknown_value;
use clap::ArgMatches;
use jwt_mac::Alg;
use jwt_settings::Printing;
use std::alloc::{AllocError, Global};

/// The `kid` that each key gets.
#[derive(Clone, Copy)]
pub enum KidChoice<'a> {
    /// None.
    Absent,

    /// This name.
    Name(&'a str),

    /// The key's thumbprint.
    Thumbprint,
}

/// What `jwk` asks for: the JWKs of public keys, in a key set.
#[derive(Clone, Copy)]
pub struct JwkOrder<'a> {
    /// How a refusal is printed.
    pub printing: Printing,

    /// Whether the key is in DER, and else in PEM.
    pub der: bool,

    /// Whether the JWK of one key is printed alone.
    pub bare: bool,
    pub kid: KidChoice<'a>,

    /// The `alg` that each key gets, an algorithm by public keys.
    pub alg: Option<&'a str>,

    /// The file of the keys, where one is named.
    pub files: Files<'a>,
}

/// What `jwk --new` and `jwk --secret` ask for: a new secret, or that of a file, in a key set.
#[derive(Clone, Copy)]
pub struct SecretOrder<'a> {
    /// How a failure is printed.
    pub printing: Printing,

    /// Whether its JWK is printed alone.
    pub bare: bool,

    /// Its algorithm: HS256, HS384 or HS512.
    pub alg: Alg,

    /// Its `kid`; its thumbprint where there is none.
    pub kid: Option<&'a str>,

    /// The file of the secret, where one is named.
    pub files: Files<'a>,
}

/// The `kid` by its name, or as the thumbprint: one of the two, or none.
fn kid_chosen<'a>(name: Option<&'a str>, thumbprint: bool) -> Option<KidChoice<'a>>
    ensures { option_map kid_view result ≡ kid_chosen (option_map (λ t. t.now) name.entry) thumbprint }
{
    match (name, thumbprint) {
        (None, false) => Some(KidChoice::Absent),
        (None, true) => Some(KidChoice::Thumbprint),
        (Some(name), false) => Some(KidChoice::Name(name)),
        (Some(_), true) => None,
    }
}

/// The value that an option has, where it has one.
pub(crate) fn value<'a>(options: &ArgMatches<'a>, name: &str) -> Option<&'a str>
    ensures { option_map (λ t. t.now) result ≡ first_of name.now (rows_of (found_of options.now)) }
{
    options.get_str(name)
}

/// The `--kid` that is asked for.
fn chosen_kid<'a>(options: &ArgMatches<'a>) -> Option<KidChoice<'a>>
    ensures { option_map kid_view result ≡ kid_in (rows_of (found_of options.now)) }
{
    let name = value(options, "kid");
    let thumbprint = is_set(options, "kid-thumbprint");
    kid_chosen(name, thumbprint)
}

/// Whether it is an algorithm by public keys.
fn is_public_alg(alg: Option<Alg>) -> bool
    ensures { result ≡ is_public_alg alg }
{
    match alg {
        Some(alg) => !alg.is_hmac(),
        None => false,
    }
}

/// The `alg` of each key, if any; none where it is no algorithm by public keys.
fn public_alg_chosen<'a>(name: Option<&'a str>) -> Option<Option<&'a str>>
    ensures { option_map (λ a. option_map (λ t. t.now) a) result
        ≡ public_alg_chosen (option_map (λ t. t.now) name.entry) }
{
    match name {
        Some(name) => {
            if is_public_alg(Alg::from_text(name)) {
                Some(Some(name))
            } else {
                None
            }
        }
        None => Some(None),
    }
}

/// The algorithm of public keys that is asked for.
fn chosen_public_alg<'a>(options: &ArgMatches<'a>) -> Option<Option<&'a str>>
    ensures { option_map (λ a. option_map (λ t. t.now) a) result
        ≡ public_alg_chosen (first_of (codes "alg") (rows_of (found_of options.now))) }
{
    let name = value(options, "alg");
    public_alg_chosen(name)
}

/// The file of the keys alone.
pub(crate) fn key_file_in<'a>(name: Option<&'a str>) -> Files<'a>
    ensures { files_view result ≡ key_file_in (option_map (λ t. t.now) name.entry) }
{
    Files {
        key: name,
        ..Files::none()
    }
}

/// What `jwk` asks for without `--new`.
pub(crate) fn chosen_jwk<'a>(options: &ArgMatches<'a>) -> Option<JwkOrder<'a>>
    ensures { option_map jwk_view result ≡ jwk_order (rows_of (found_of options.now)) }
{
    let alg = chosen_public_alg(options)?;
    let kid = chosen_kid(options)?;
    let printing = chosen_printing(options);
    let der = is_set(options, "der");
    let bare = is_set(options, "bare");
    let name = value(options, "file");
    let files = key_file_in(name);
    Some(JwkOrder {
        printing,
        der,
        bare,
        kid,
        alg,
        files,
    })
}

/// An algorithm that has secrets.
fn secret_alg(alg: Alg) -> Option<Alg>
    ensures alg { result ≡ secret_alg alg }
    ensures hmac { IfSome result (λ a. is_hmac_alg a ≡ true) }
{
    if alg.is_hmac() { Some(alg) } else { None }
}

/// The HMAC algorithm that an option names.
fn chosen_secret_alg(options: &ArgMatches<'_>, name: &str) -> Option<Alg>
    ensures alg { result ≡ secret_alg_in name.now (rows_of (found_of options.now)) }
    ensures hmac { IfSome result (λ a. is_hmac_alg a ≡ true) }
{
    let text = value(options, name)?;
    let alg = Alg::from_text(text)?;
    secret_alg(alg)
}

/// Whether an option is used that a secret has no use for.
fn asks_of_public_keys(options: &ArgMatches<'_>) -> bool
    ensures { result ≡ asks_of_public_keys (rows_of (found_of options.now)) }
{
    is_named(options, "file") || is_set(options, "der") || is_set(options, "kid-thumbprint")
}

/// A secret for this algorithm, of a file or a new one.
fn secret_for<'a>(options: &ArgMatches<'a>, file: Option<&'a str>, alg: Alg) -> SecretOrder<'a>
    ensures { secret_view result
        ≡ secret_for (rows_of (found_of options.now)) (option_map (λ t. t.now) file.entry) alg }
{
    let printing = chosen_printing(options);
    let bare = is_set(options, "bare");
    let kid = value(options, "kid");
    let files = key_file_in(file);
    SecretOrder {
        printing,
        bare,
        alg,
        kid,
        files,
    }
}

/// What `jwk --new` asks for.
pub(crate) fn chosen_secret<'a>(options: &ArgMatches<'a>) -> Option<SecretOrder<'a>>
    ensures order { option_map secret_view result ≡ secret_order (rows_of (found_of options.now)) }
    ensures hmac { IfSome result (λ o. is_hmac_alg o.alg ≡ true) }
{
    if asks_of_public_keys(options) || is_named(options, "kid") || is_named(options, "alg") {
        return None;
    }
    let alg = chosen_secret_alg(options, "new")?;
    let order = secret_for(options, None, alg);
    Some(order)
}

/// What `jwk --secret` asks for.
pub(crate) fn chosen_kept_secret<'a>(options: &ArgMatches<'a>) -> Option<SecretOrder<'a>>
    ensures order { option_map secret_view result ≡ kept_secret_order (rows_of (found_of options.now)) }
    ensures hmac { IfSome result (λ o. is_hmac_alg o.alg ≡ true) }
{
    if asks_of_public_keys(options) || is_named(options, "new") {
        return None;
    }
    let alg = chosen_secret_alg(options, "alg")?;
    let file = value(options, "secret");
    let order = secret_for(options, file, alg);
    Some(order)
}

/// What is said of an option that a secret has no use for, as `clap` words it.
fn wrong_beside_secret(
    alloc: Global,
    options: &ArgMatches<'_>,
    secret: &str,
    other: &str,
) -> Result<String, AllocError> {
    let beside = if is_named(options, "file") {
        "--file <FILE>"
    } else if is_set(options, "der") {
        "--der"
    } else if is_named(options, "kid") && secret == "--new <A>" {
        "--kid <NAME>"
    } else if is_set(options, "kid-thumbprint") {
        "--kid-thumbprint"
    } else {
        other
    };
    format!(in alloc;
        "error: the argument '{secret}' cannot be used with '{beside}'\n\nFor more information, try '--help'.\n"
    )
}

/// What is said of wrong words with `--secret`.
fn wrong_kept_secret(alloc: Global, options: &ArgMatches<'_>) -> Result<String, AllocError> {
    if asks_of_public_keys(options) || is_named(options, "new") {
        return wrong_beside_secret(alloc, options, "--secret <FILE>", "--new <A>");
    }
    let alg = options.get_str("alg").unwrap_or("");
    let near = nearest(alloc, alg, &["HS256", "HS384", "HS512"])?;
    unknown_value(alloc, "--alg <A>", alg, "HS256, HS384, HS512", near)
}

/// What is said of wrong words with `--new`.
fn wrong_secret(alloc: Global, options: &ArgMatches<'_>) -> Result<String, AllocError> {
    if asks_of_public_keys(options) || is_named(options, "kid") || is_named(options, "alg") {
        return wrong_beside_secret(alloc, options, "--new <A>", "--alg <A>");
    }
    let alg = options.get_str("new").unwrap_or("");
    let near = nearest(alloc, alg, &["HS256", "HS384", "HS512"])?;
    unknown_value(alloc, "--new <A>", alg, "HS256, HS384, HS512", near)
}

/// What is said of an `--alg` that isn't one by public keys.
fn wrong_alg(alloc: Global, alg: &str) -> Result<String, AllocError> {
    let known = [
        "RS256", "RS384", "RS512", "PS256", "PS384", "PS512", "ES256", "ES384", "ES512", "EdDSA",
    ];
    let near = nearest(alloc, alg, &known)?;
    let names = "RS256, RS384, RS512, PS256, PS384, PS512, ES256, ES384, ES512, EdDSA";
    unknown_value(alloc, "--alg <A>", alg, names, near)
}

/// What is said where `clap` accepts the words of `jwk` and they ask for nothing.
pub(crate) fn wrong_jwk(alloc: Global, options: &ArgMatches<'_>) -> Result<String, AllocError> {
    if is_named(options, "secret") {
        return wrong_kept_secret(alloc, options);
    }
    if is_named(options, "new") {
        return wrong_secret(alloc, options);
    }
    match options.get_str("alg") {
        Some(alg) if !is_public_alg(Alg::from_text(alg)) => wrong_alg(alloc, alg),
        _ => format!(in alloc;
            "error: the argument '--kid <NAME>' cannot be used with '--kid-thumbprint'\n\nFor more information, try '--help'.\n"
        ),
    }
}
