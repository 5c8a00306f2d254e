//! The command `show`: what stands in a token, with nothing of it verified, in lines, in JSON or for a person.
ghost use Rattle.std.specs.Prelude.{◌≡◌, ◌≢◌, ◌+◌, ◌⊎◌, true, IfOk, IfSome};
ghost use Rattle.jwt_jws.specs.Forms.{form_of};
ghost use Rattle.jwt_text.specs.Intake.{TakesAtMost};
ghost use Rattle.jwt_command.specs.Show.{IsShown, form_status};
ghost use Rattle.jwt_words.specs.Words.{IsLimit};
ghost use Rattle.jwt_output.specs.Views.{reply_view};

use crate::documents::{TakenDocument, read_document};
use crate::input::whole::without_line_feed;
use crate::subject::{Replied, Subject, TokenReply};
use jwt_jws::{FormFault, Signed, parse};
use jwt_output::{
    Reply, pretty_token, printed_form_fault, printed_read_fault, printed_token, refused_named,
};
use jwt_settings::Printing;
use jwt_text::Source;
use jwt_words::PrettyOrder;
use std::alloc::{AllocError, Global};

/// A token of these octets, in JSON or in lines, or for a person.
fn printed(
    alloc: Global,
    printing: Printing,
    pretty: Option<PrettyOrder>,
    octets: &[u8],
    signed: &Signed<'_>,
) -> Result<Reply, AllocError>
    ensures { IfOk result (λ a. a.status ≡ 0) }
{
    match pretty {
        Some(order) => pretty_token(alloc, order.now, octets, signed),
        None => printed_token(alloc, printing, octets, signed),
    }
}

/// What stands in a token of these octets, of at most 32 signatures, or why they are none.
fn shown(
    alloc: Global,
    printing: Printing,
    pretty: Option<PrettyOrder>,
    octets: &[u8],
) -> Result<TokenReply, AllocError>
    ensures status { IfOk result (λ a. a.reply.status ≡ form_status (form_of 32 octets.now)) }
    ensures done { IfOk result (λ a. a.reply.status ≢ 3) }
{
    match parse(alloc, octets, 32) {
        Ok(signed) => Ok(TokenReply {
            reply: printed(alloc, printing, pretty, octets, &signed)?,
            fault: None,
        }),
        Err(FormFault::OutOfMemory) => Err(AllocError),
        Err(fault) => Ok(TokenReply {
            reply: printed_form_fault(alloc, printing, fault)?,
            fault: Some(fault),
        }),
    }
}

/// Runs `jwt show`, in JSON or in lines, or for a person, on an input: a token in any form, of at most 32 signatures, and one line feed behind
/// it or none.
pub(crate) fn show<'a, R: Source>(
    alloc: Global,
    printing: Printing,
    pretty: Option<PrettyOrder>,
    limit: u64,
    r: &mut R,
) -> Result<Replied<'a>, AllocError>
    requires { IsLimit limit }
    ensures answer { IfSome (R.remaining r.old)
        (λ x. IfOk result (λ a. IsShown printing limit (R.failed r.new) x (reply_view a.reply))) }
    ensures taken { IfSome (R.remaining r.old)
        (λ x. (R.failed r.new ≡ true) ⊎ TakesAtMost (limit + 1) x (R.remaining r.new)) }
    ensures failed { IfOk result (λ a. a.reply.status ≡ 3 → R.failed r.new ≡ true) }
{
    let Some(input) = read_document(alloc, limit as u32, r)? else {
        return Ok(Replied::bare(printed_read_fault(alloc, printing)?));
    };
    if input.is_too_long() {
        let reply = refused_named(alloc, printing, "TooLong")?;
        return Ok(Replied::on(reply, Subject::Token(None, TakenDocument::Input(input))));
    }
    let told = shown(alloc, printing, pretty, without_line_feed(input.octets()))?;
    Ok(told.on(TakenDocument::Input(input)))
}
