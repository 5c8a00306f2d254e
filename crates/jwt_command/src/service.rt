//! What `policy` says of a service document.
ghost use Rattle.std.specs.Prelude.{◌≡◌, IfOk, map};
ghost use Rattle.jwt_advice.specs.Findings.{findings_view};
ghost use Rattle.jwt_document.specs.Meanings.{meaning as document_meaning};
ghost use Rattle.jwt_command.specs.Services.{IsServiceAnswer, found_from, found_of};
ghost use Rattle.jwt_output.specs.Views.{reply_view};
ghost use Rattle.jwt_output.specs.verdicts.Meant.{service_status};

use crate::documents::TakenDocument;
use crate::private::private_in;
use crate::subject::{Advised, Replied, refused_service};
use jwt_advice::Findings;
use jwt_document::{Document, Entry};
use jwt_mac::Verifier;
use jwt_output::verdicts::printed_service;
use jwt_settings::Printing;
use std::alloc::{AllocError, Global};

/// What is found of the issuer of this number, with its keys, where the document has them.
fn found_of(
    alloc: Global,
    verifiers: &[Box<dyn Verifier>],
    document: &Document,
    number: usize,
    issuer: &Entry,
) -> Result<Findings, AllocError>
    ensures { IfOk result (λ f. findings_view f
        ≡ found_of (map meaning verifiers.now) document.now number issuer.now) }
{
    match document.keys(number) {
        Some(keys) => {
            let places = private_in(alloc, document, number)?;
            Findings::with_keys(alloc, issuer.policy(), keys, verifiers, places.as_slice())
        }
        None => Findings::alone(alloc, issuer.policy()),
    }
}

/// What is found of each issuer.
fn found_in(
    alloc: Global,
    verifiers: &[Box<dyn Verifier>],
    document: &Document,
) -> Result<Vec<Findings>, AllocError>
    ensures { IfOk result (λ v. map findings_view v.items
        ≡ found_from (map meaning verifiers.now) document.now 0 (document_meaning document.now).issuers) }
{
    let mut found = Vec::new(alloc);
    let issuers = document.issuers();
    for number in 0..issuers.len() {
        let one = found_of(alloc, verifiers, document, number, &issuers[number])?;
        found.push(one)?;
    }
    Ok(found)
}

/// What a document asks that was read, and what is advised of its issuers.
fn asked<'a>(
    alloc: Global,
    printing: Printing,
    verifiers: &[Box<dyn Verifier>],
    document: &Document,
) -> Result<Replied<'a>, AllocError>
    ensures { IfOk result (λ a. a.reply.status ≡ service_status
        (found_from (map meaning verifiers.now) document.now 0 (document_meaning document.now).issuers)) }
{
    let found = found_in(alloc, verifiers, document)?;
    let reply = printed_service(alloc, printing, document, found.as_slice())?;
    Ok(Replied::advised(reply, Advised::ByIssuer(found)))
}

/// What a service document asks, in JSON or in lines, and what is advised of its issuers with these verifiers for public keys.
pub(crate) fn service<'a>(
    alloc: Global,
    printing: Printing,
    verifiers: &[Box<dyn Verifier>],
    octets: &'a [u8],
) -> Result<Replied<'a>, AllocError>
    ensures { IfOk result (λ a. IsServiceAnswer (map meaning verifiers.now) octets.now
        (reply_view a.reply)) }
{
    match Document::read(alloc, octets) {
        Ok(document) => asked(alloc, printing, verifiers, &document),
        Err(fault) => { refused_service(alloc, printing, fault, TakenDocument::Held(octets)) }
    }
}
