//! What is said on standard error. What becomes of it changes nothing.
use jwt_advice::Note;
use jwt_command::documents::Held;
use jwt_command::subject::{Advised, Ran, Subject};
use jwt_command::{Command, WordsFault};
use jwt_jws::FormFault;
use jwt_output::reasons::{
    Cause, Reason, access_reason, around_token, claims_detail, keys_reason, policy_reason,
    service_reason, token_reason, token_sentences,
};
use jwt_output::terminal::push_quoted;
use jwt_output::verdicts::explained_note;
use jwt_policy::PolicyFault;
use jwt_settings::{Moment, Printing};
use std::alloc::AllocError;
use std::io::IsTerminal;
use std::str;

/// A document by its name in JSON, and in words.
type Document = (&'static str, &'static str);

const POLICY: Document = ("policy", "policy");

const KEYS: Document = ("keys", "key set");

const ACCESS: Document = ("access", "access rule");

const SERVICE: Document = ("service", "service document");

const TOKEN: Document = ("token", "token");

/// Says why a document is refused, in words or as a JSON object. Where memory is refused nothing is said.
fn say_reason(
    rt: &HostRuntime,
    printing: Printing,
    document: Document,
    reason: Result<Reason, AllocError>,
) {
    let Ok(reason) = reason else {
        return;
    };
    match printing {
        Printing::Json => if let Ok(text) = reason.json(rt.alloc(), document.0) {
            let _ = eprintln!(rt; "{text}");
        },
        Printing::Lines => if let Ok(text) = reason.text(rt.alloc()) {
            let name = document.1;
            let _ = eprintln!(rt; "jwt: the {name} is refused: {text}");
        },
    }
}

/// Says what became of the token, and what to do; of a token that is read also by what stands around it, or by what its claims have to do with
/// the fault. Without a token it says what it means that none is issued.
pub fn say_sentences(
    rt: &HostRuntime,
    printing: Printing,
    token: Option<&[u8]>,
    detail: Option<&str>,
    cause: Cause,
) {
    let around = match (token, detail) {
        (Some(token), None) => around_token(token),
        _ => None,
    };
    let Some(sentences) = token_sentences(cause) else {
        return;
    };
    let words = around.unwrap_or(sentences);
    let detail = detail.unwrap_or("");
    match printing {
        Printing::Json => {
            let mut quoted = String::new(rt.alloc());
            let Ok(words) = format!(in rt.alloc(); "{words}{detail}") else {
                return;
            };
            if push_quoted(&mut quoted, words.as_str()).is_ok() {
                let _ = eprintln!(rt; "{{\"document\":\"token\",\"reason\":{quoted}}}");
            }
        }
        Printing::Lines => {
            let verdict = match cause {
                Cause::Denied(_) => "denied",
                _ => "refused",
            };
            let _ = eprintln!(rt; "jwt: the token is {verdict}: {words}{detail}");
        }
    }
}

/// Says why a token is refused or denied: where its form can't be read, the place of that, and else what the answer means.
fn say_of_token(
    rt: &HostRuntime,
    printing: Printing,
    fault: Option<FormFault>,
    token: &[u8],
    now: Option<Moment>,
    cause: Cause,
) {
    if let Ok(Some(reason)) = token_reason(rt.alloc(), fault, token) {
        return say_reason(rt, printing, TOKEN, Ok(reason));
    }
    let detail = match now {
        Some(now) => claims_detail(rt.alloc(), cause, token, now).unwrap_or(None),
        None => None,
    };
    let detail = match &detail {
        Some(text) => Some(text.as_str()),
        None => None,
    };
    say_sentences(rt, printing, Some(token), detail, cause)
}

/// Says why a document is refused, or the token denied, at the moment of a verdict, by what the answer refuses or denies it for.
pub fn say_why_refused(
    rt: &HostRuntime,
    printing: Printing,
    subject: &Subject<'_>,
    now: Option<Moment>,
    cause: Cause,
) {
    let alloc = rt.alloc();
    match subject {
        Subject::Policy(fault, document) => {
            let reason = policy_reason(alloc, fault, document.octets());
            say_reason(rt, printing, POLICY, reason);
        }
        Subject::Keys(fault, document) => {
            let reason = keys_reason(alloc, *fault, document.octets());
            say_reason(rt, printing, KEYS, reason);
        }
        Subject::Access(fault, document) => {
            let reason = access_reason(alloc, fault, document.octets());
            say_reason(rt, printing, ACCESS, reason);
        }
        Subject::Service(fault, document) => {
            let reason = service_reason(alloc, fault, document.octets());
            say_reason(rt, printing, SERVICE, reason);
        }
        Subject::Token(fault, token) => {
            say_of_token(rt, printing, *fault, token.octets(), now, cause)
        }
    }
}

/// Says in words which line the policy was, where no file of it is named and another document is in one.
pub fn say_which_line(rt: &HostRuntime, printing: Printing, held: Held<'_>, subject: &Subject<'_>) {
    let line_is_policy = held.policy.is_none() && (held.keys.is_some() || held.token.is_some());
    match (printing, subject) {
        (Printing::Lines, Subject::Policy(PolicyFault::Json, _)) if line_is_policy => {
            let _ = eprintln!(rt;
                "jwt: the policy was the first line of standard input, since no --policy FILE names it"
            );
        }
        _ => {}
    }
}

/// The moment of the verdict that the words ask for, if they ask for one.
pub fn moment_of(asked: &Result<Command<'_>, WordsFault>) -> Option<Moment> {
    match asked {
        Ok(Command::Verify { now, .. }) => Some(*now),
        _ => None,
    }
}

/// Whether the words ask for a token of some claims.
pub fn issues(asked: &Result<Command<'_>, WordsFault>) -> bool {
    match asked {
        Ok(Command::Issue { .. }) => true,
        _ => false,
    }
}

/// Whether the words ask for the JWK of a key in DER.
pub fn reads_der(asked: &Result<Command<'_>, WordsFault>) -> bool {
    match asked {
        Ok(Command::Jwk(order)) => order.der,
        _ => false,
    }
}

/// Says of a key in DER that is refused with a remedy how what that prints is read.
pub fn say_how_to_go_on(rt: &HostRuntime, cause: Cause) {
    if let Cause::Remedied = cause {
        let _ = eprintln!(rt; "jwt: what the remedy prints is PEM, which is read without --der");
    }
}

/// Says what is waited for, where `verify` waits for a policy at a terminal.
pub fn say_what_is_waited_for(rt: &HostRuntime, asked: &Result<Command<'_>, WordsFault>) {
    if let Ok(Command::Verify { files, .. }) = asked {
        if files.policy.is_none() && rt.stdin().is_terminal() {
            let _ = eprintln!(rt;
                "jwt: waits for a line with the policy, then for the documents that no option names: a line with the key set, and the token up to the end of input"
            );
        }
    }
}

/// Says again that words are wrong, where standard output is no terminal that has said it, as in `T=$(jwt ..)`. Help isn't said again.
pub fn say_wrong(rt: &HostRuntime, asked: &Result<Command<'_>, WordsFault>) {
    if let Err(WordsFault::Wrong(text)) = asked {
        if text.starts_with("error:") && !rt.stdout().is_terminal() {
            let _ = eprint!(rt; "{text}");
        }
    }
}

/// Says of wrong words which command another tool's word stands for.
pub fn say_hint(rt: &HostRuntime, words: &[&str]) {
    let hint = match words.get(1).copied() {
        Some("-V") => "'jwt --version' prints the version",
        Some("decode") | Some("inspect") => {
            "'jwt show' shows a token, and 'jwt verify' validates it"
        }
        Some("encode") | Some("sign") => "'jwt issue' signs claims by a secret",
        Some("validate") | Some("check") => "'jwt verify' validates a token",
        Some("generate") | Some("keygen") => "'jwt jwk --new HS256' makes a secret",
        _ => return,
    };
    let _ = eprintln!(rt; "jwt: {hint}");
}

/// Says of each advice what it says and what to write.
pub fn say_advice(rt: &HostRuntime, printing: Printing, ran: &Ran<'_>) {
    match &ran.advised {
        Advised::Nothing => {}
        Advised::Notes(notes) => say_notes(rt, printing, None, notes.as_slice()),
        Advised::ByIssuer(found) => {
            for number in 0..found.len() {
                say_notes(rt, printing, Some(number), found[number].notes.as_slice());
            }
        }
    }
}

/// The same of these, of a service of the issuer of this number.
fn say_notes(rt: &HostRuntime, printing: Printing, issuer: Option<usize>, notes: &[Note]) {
    for note in notes {
        if let Ok(reply) = explained_note(rt.alloc(), printing, issuer, *note) {
            let text = str::from_utf8(reply.text.as_slice()).unwrap_or("");
            match printing {
                Printing::Json => {
                    let _ = eprint!(rt; "{text}");
                }
                Printing::Lines => {
                    let _ = eprint!(rt; "jwt: advice{text}");
                }
            }
        }
    }
}
