//! The document that a command refuses.
ghost use Rattle.std.specs.Prelude.{◌≡◌, ◌≢◌, IfErr, IfOk};
ghost use Rattle.jwt_output.specs.Printed.{Prints, out_of_memory};
ghost use Rattle.jwt_output.specs.Refused.{printed_access_fault, printed_keys_fault, printed_policy_fault};
ghost use Rattle.jwt_output.specs.Views.{reply_view};

use crate::documents::TakenDocument;
use jwt_access::AccessFault;
use jwt_advice::{Findings, Note};
use jwt_document::ServiceFault;
use jwt_jws::FormFault;
use jwt_keys::KeysFault;
use jwt_output::reasons::Cause;
use jwt_output::{
    Reply, give, lack_memory, printed_access_fault, printed_keys_fault, printed_policy_fault,
    printed_service_fault, send,
};
use jwt_policy::PolicyFault;
use jwt_settings::Printing;
use jwt_text::Sink;
use std::alloc::{AllocError, Global};

/// A document that is refused, why it is, and what the command read of it, so that whoever has more to say of it needn't read it again. No
/// fault is want of memory.
#[derive(Drop)]
pub enum Subject<'a> {
    /// The policy.
    Policy(PolicyFault, TakenDocument<'a>),

    /// The key set.
    Keys(KeysFault, TakenDocument<'a>),

    /// The access rule.
    Access(AccessFault, TakenDocument<'a>),

    /// The service document.
    Service(ServiceFault, TakenDocument<'a>),

    /// The token, which is refused or denied, with the fault of its form, if that is why.
    Token(Option<FormFault>, TakenDocument<'a>),
}

/// What a run advises.
#[derive(Drop)]
pub enum Advised {
    /// Nothing, and nobody has asked.
    Nothing,

    /// What `policy` advises of a policy, and of `keys` the advice for which no policy is needed.
    Notes(Vec<Note>),

    /// What is found of each issuer of a service, in the order of its document.
    ByIssuer(Vec<Findings>),
}

/// What a run of the command came to.
#[derive(Drop)]
pub struct Ran<'a> {
    /// The status.
    pub status: u8,

    /// What the answer refuses or denies something for; nothing of `verify --lines`, which has an answer for each line.
    pub cause: Cause,

    /// The document that was refused; none where none was, or where the command reads none of these.
    pub subject: Option<Subject<'a>>,

    /// What `policy` and `keys` advise.
    pub advised: Advised,
}

impl Ran<'_> {
    /// No answer refuses a document.
    pub(crate) fn bare<'a>(status: u8) -> Ran<'a>
        ensures status { result.status ≡ status }
    {
        Ran {
            status,
            cause: Cause::None,
            subject: None,
            advised: Advised::Nothing,
        }
    }
}

/// An answer, and the document that is refused by it, if one is.
#[derive(Drop)]
pub(crate) struct Replied<'a> {
    pub(crate) reply: Reply,
    pub(crate) subject: Option<Subject<'a>>,
    pub(crate) advised: Advised,
}

impl<'a> Replied<'a> {
    /// No document is refused by it.
    pub(crate) fn bare(reply: Reply) -> Replied<'a>
        ensures reply { result.reply ≡ reply }
    {
        Replied::advised(reply, Advised::Nothing)
    }

    /// No document is refused by it, and this is advised.
    pub(crate) fn advised(reply: Reply, advised: Advised) -> Replied<'a>
        ensures reply { result.reply ≡ reply }
    {
        Replied {
            reply,
            subject: None,
            advised,
        }
    }

    /// This document is refused by it, where its status is 1.
    pub(crate) fn on(reply: Reply, subject: Subject<'a>) -> Replied<'a>
        ensures reply { result.reply ≡ reply }
    {
        let subject = if reply.status == 1 {
            Some(subject)
        } else {
            None
        };
        Replied {
            reply,
            subject,
            advised: Advised::Nothing,
        }
    }
}

/// A policy is refused.
pub(crate) fn refused_policy<'a>(
    alloc: Global,
    printing: Printing,
    fault: PolicyFault,
    document: TakenDocument<'a>,
) -> Result<Replied<'a>, AllocError>
    ensures line { IfOk result (λ a. reply_view a.reply ≡ printed_policy_fault printing fault) }
    ensures done { IfOk result (λ a. a.reply.status ≡ 1) }
{
    let reply = printed_policy_fault(alloc, printing, &fault)?;
    Ok(Replied::on(reply, Subject::Policy(fault, document)))
}

/// A key set is refused.
pub(crate) fn refused_keys<'a>(
    alloc: Global,
    printing: Printing,
    fault: KeysFault,
    document: TakenDocument<'a>,
) -> Result<Replied<'a>, AllocError>
    ensures line { IfOk result (λ a. reply_view a.reply ≡ printed_keys_fault printing fault) }
    ensures done { IfOk result (λ a. a.reply.status ≡ 1) }
{
    let reply = printed_keys_fault(alloc, printing, &fault)?;
    Ok(Replied::on(reply, Subject::Keys(fault, document)))
}

/// The access rule in hand is refused.
pub(crate) fn refused_rule<'a>(
    alloc: Global,
    printing: Printing,
    fault: AccessFault,
    access: Option<&'a [u8]>,
) -> Result<Replied<'a>, AllocError>
    ensures line { IfOk result (λ a. reply_view a.reply ≡ printed_access_fault printing fault) }
    ensures done { IfOk result (λ a. a.reply.status ≡ 1) }
{
    let reply = printed_access_fault(alloc, printing, &fault)?;
    let document = TakenDocument::Held(access.unwrap_or(&[]));
    Ok(Replied::on(reply, Subject::Access(fault, document)))
}

/// A service document is refused. Where memory was refused there is no answer.
pub(crate) fn refused_service<'a>(
    alloc: Global,
    printing: Printing,
    fault: ServiceFault,
    document: TakenDocument<'a>,
) -> Result<Replied<'a>, AllocError>
    ensures done { IfOk result (λ a. a.reply.status ≡ 1) }
    ensures memory { IfOk result (λ _. fault ≢ ServiceFault.OutOfMemory) }
{
    let reply = printed_service_fault(alloc, printing, &fault)?;
    Ok(Replied::on(reply, Subject::Service(fault, document)))
}

/// The answer to a token, and the fault of its form, if it is refused for that.
#[derive(Drop)]
pub(crate) struct TokenReply {
    pub(crate) reply: Reply,
    pub(crate) fault: Option<FormFault>,
}

impl TokenReply {
    /// With the token itself.
    pub(crate) fn on<'a>(self, token: TakenDocument<'a>) -> Replied<'a>
        ensures reply { result.reply ≡ self.reply }
    {
        let TokenReply { reply, fault } = self;
        Replied::on(reply, Subject::Token(fault, token))
    }
}

/// Sends an answer, where memory was there.
pub(crate) fn give_replied<'a, W: Sink>(
    w: &mut W,
    answer: Result<Replied<'a>, AllocError>,
) -> Ran<'a>
    ensures ok { IfOk answer.entry (λ a. Prints (reply_view a.reply)
        (W.contents w.old) (W.contents w.new) (W.failed w.new) result.status) }
    ensures err { IfErr answer.entry (λ _. Prints out_of_memory
        (W.contents w.old) (W.contents w.new) (W.failed w.new) result.status) }
{
    match answer {
        Ok(
            Replied {
                reply,
                subject,
                advised,
            },
        ) => {
            let cause = reply.cause;
            Ran {
                status: give(w, Ok(reply)),
                cause,
                subject,
                advised,
            }
        }
        Err(_) => Ran::bare(lack_memory(w)),
    }
}

/// Sends an answer by which no document is refused, where memory was there.
pub(crate) fn give_alone<'a, W: Sink>(w: &mut W, answer: Result<Reply, AllocError>) -> Ran<'a>
    ensures ok { IfOk answer (λ a. Prints (reply_view a)
        (W.contents w.old) (W.contents w.new) (W.failed w.new) result.status) }
    ensures err { IfErr answer (λ _. Prints out_of_memory
        (W.contents w.old) (W.contents w.new) (W.failed w.new) result.status) }
{
    Ran::bare(give(w, answer))
}

/// Prints that an allocation was refused.
pub(crate) fn give_no_memory<'a, W: Sink>(w: &mut W) -> Ran<'a>
    ensures printed { Prints out_of_memory
        (W.contents w.old) (W.contents w.new) (W.failed w.new) result.status }
{
    Ran::bare(lack_memory(w))
}

/// Prints what is said of wrong words.
pub(crate) fn give_wrong<'a, W: Sink>(w: &mut W, text: &str) -> Ran<'a>
    ensures printed { Prints (record { text = text.now; status = 2 })
        (W.contents w.old) (W.contents w.new) (W.failed w.new) result.status }
{
    Ran::bare(send(w, text.as_bytes(), 2))
}
