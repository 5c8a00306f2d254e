//! The words of `policy`.
ghost use Rattle.std.specs.Prelude.{◌≡◌, option_map};
ghost use Rattle.clap.specs.Words.{found_of, rows_of};
ghost use Rattle.jwt_words.specs.Seen.{files_view, policy_view};
ghost use Rattle.jwt_words.specs.Words.{documents_in, meant_in, policy_order};

use crate::chosen::{chosen_printing, is_named};
use crate::command::Files;
use crate::jwk::{key_file_in, value};
use clap::ArgMatches;
use jwt_settings::Printing;
use std::alloc::{AllocError, Global};

/// What `policy` asks for: what a policy means, with the keys of a key set or without, or a service document.
#[derive(Clone, Copy)]
pub struct PolicyOrder<'a> {
    /// How the answer is printed.
    pub printing: Printing,

    /// The file of the policy, and that of the key set, where one is named; or as that of a key the one of the service document.
    pub files: Files<'a>,
}

/// The files of a policy and of a key set.
pub(crate) fn documents_in<'a>(policy: Option<&'a str>, keys: Option<&'a str>) -> Files<'a>
    ensures { files_view result
        ≡ documents_in (option_map (λ t. t.now) policy.entry) (option_map (λ t. t.now) keys.entry) }
{
    Files {
        policy,
        keys,
        ..Files::none()
    }
}

/// The file of a policy, with that of a key set or without, or the file of a service document: one of the two.
fn meant_in<'a>(
    policy: Option<&'a str>,
    keys: Option<&'a str>,
    service: Option<&'a str>,
) -> Option<Files<'a>>
    ensures { option_map files_view result ≡ meant_in (option_map (λ t. t.now) policy.entry)
        (option_map (λ t. t.now) keys.entry) (option_map (λ t. t.now) service.entry) }
{
    match (policy, keys, service) {
        (Some(_), _, None) => Some(documents_in(policy, keys)),
        (None, None, Some(_)) => Some(key_file_in(service)),
        _ => None,
    }
}

/// What `policy` asks for.
pub(crate) fn chosen_policy<'a>(options: &ArgMatches<'a>) -> Option<PolicyOrder<'a>>
    ensures { option_map policy_view result ≡ policy_order (rows_of (found_of options.now)) }
{
    let printing = chosen_printing(options);
    let policy = value(options, "policy");
    let keys = value(options, "keys");
    let service = value(options, "service");
    let files = meant_in(policy, keys, service)?;
    Some(PolicyOrder { printing, files })
}

/// The text of a service document beside a policy or keys, or of neither a policy nor a service document, as `clap` words it.
pub(crate) fn wrong_policy(alloc: Global, options: &ArgMatches<'_>) -> Result<String, AllocError> {
    let wrong = if !is_named(options, "service") {
        "one of the following arguments has to be provided:\n  --policy <FILE>\n  --service <FILE>"
    } else if is_named(options, "policy") {
        "the argument '--service <FILE>' cannot be used with '--policy <FILE>'"
    } else {
        "the argument '--service <FILE>' cannot be used with '--keys <FILE>'"
    };
    format!(in alloc; "error: {wrong}\n\nFor more information, try '--help'.\n")
}
