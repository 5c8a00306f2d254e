//! Answers rows of signatures by public keys, as vectors have them: a message that is no signing input.
//!
//! A row is a line of eight words: the algorithm, the kind of the key, its two members, the message, the signature (octets in hex, "-" for none),
//! the key set of the key alone (JSON without blanks), and "p" where keys are to be prepared too. A line of eight letters is printed of each:
//! what the function over a message says, and with the key prepared; what the verifier says of the message as a signing input, where it has a
//! period, and with the key prepared; what the verifier of all says so by the key of the key set, and with its keys prepared; whether the key is
//! taken, of one on an elliptic curve; whether the key set has it. Where the algorithm is "digest", the message's digest stands in its place, and only the first two are asked.
#![tactic(auto)]

use ecdsa::jws::{
    Ecdsa, verifies_es256, verifies_es256_by, verifies_es384, verifies_es384_by, verifies_es512,
    verifies_es512_by,
};
use ecdsa::{
    PreparedKeys, is_p256_key, is_p384_key, is_p521_key, prepare_p256, prepare_p384, prepare_p521,
    verifies_p256, verifies_p256_by, verifies_p384, verifies_p384_by,
};
use jwt_built_in::BuiltIn;
use jwt_ed25519::{Ed25519, is_key, prepare, verifies, verifies_by};
use jwt_keys::KeySet;
use jwt_mac::{Alg, Answer, EcCurve, EdCurve, KeyView, Message, Verifier};
use jwt_rsa::{PreparedRsa, Rsa};
use std::alloc::Global;
use std::io;
use std::io::{BufRead, BufReader, BufWriter, Write};

/// The letters of a row.
#[derive(Clone, Copy)]
struct Letters {
    direct: char,
    direct_prepared: char,
    verifier: char,
    verifier_prepared: char,
    whole: char,
    whole_prepared: char,
    taken: char,
    known: char,
}

/// The octets that a word writes.
fn octets(alloc: Global, word: &str) -> io::Result<Vec<u8>> {
    if word == "-" {
        return Ok(Vec::new(alloc));
    }
    match hex::decode(alloc, word.as_bytes()) {
        Ok(octets) => Ok(octets),
        Err(_) => Err(io::Error::from(io::ErrorKind::InvalidData)),
    }
}

/// A letter of yes and no.
fn letter(is: bool) -> char {
    if is { 'V' } else { 'i' }
}

/// A letter of an answer.
fn of_answer(answer: Answer) -> char {
    match answer {
        Answer::Valid => 'V',
        Answer::Invalid => 'i',
        Answer::NoMemory => 'm',
    }
}

/// A message in three parts.
fn thirds(message: &[u8]) -> [&[u8]; 3] {
    let first = message.len() / 3;
    let second = first + (message.len() - first) / 2;
    [
        &message[..first],
        &message[first..second],
        &message[second..],
    ]
}

/// A message as a signing input, where it has a period.
fn as_input(message: &[u8]) -> Option<Message<'_>> {
    let at = message.iter().position(|octet| *octet == 46)?;
    Some(Message {
        protected: &message[..at],
        payload: &message[at + 1..],
    })
}

/// What the function over a message says.
fn direct(alg: Alg, key: &KeyView, message: &[u8], signature: &[u8]) -> char {
    let parts = thirds(message);
    match key {
        KeyView::Rsa { n, e } => letter(jwt_rsa::verifies(alg, n, e, parts, signature)),
        KeyView::Ec { x, y, .. } => match alg {
            Alg::ES256 => letter(verifies_es256(x, y, parts, signature)),
            Alg::ES384 => letter(verifies_es384(x, y, parts, signature)),
            Alg::ES512 => letter(verifies_es512(x, y, parts, signature)),
            _ => '?',
        },
        KeyView::Okp { x, .. } => match alg {
            Alg::EdDSA => letter(verifies(x, parts, signature)),
            _ => '?',
        },
        KeyView::Oct { .. } => '?',
    }
}

/// What the function over a message says with the key prepared.
fn direct_prepared(
    alloc: Global,
    alg: Alg,
    key: &KeyView,
    message: &[u8],
    signature: &[u8],
) -> char {
    let parts = thirds(message);
    match key {
        KeyView::Ec { x, y, .. } => match alg {
            Alg::ES256 => {
                let mut keys: PreparedKeys<4> = PreparedKeys::new(alloc);
                let _ = prepare_p256(alloc, &mut keys, x, y);
                letter(verifies_es256_by(&keys, x, y, parts, signature))
            }
            Alg::ES384 => {
                let mut keys: PreparedKeys<6> = PreparedKeys::new(alloc);
                let _ = prepare_p384(alloc, &mut keys, x, y);
                letter(verifies_es384_by(&keys, x, y, parts, signature))
            }
            Alg::ES512 => {
                let mut keys: PreparedKeys<9> = PreparedKeys::new(alloc);
                let _ = prepare_p521(alloc, &mut keys, x, y);
                letter(verifies_es512_by(&keys, x, y, parts, signature))
            }
            _ => '?',
        },
        KeyView::Okp { x, .. } => match alg {
            Alg::EdDSA => {
                let mut keys = jwt_ed25519::PreparedKeys::new(alloc);
                let _ = prepare(alloc, &mut keys, x);
                letter(verifies_by(&keys, x, parts, signature))
            }
            _ => '?',
        },
        _ => '-',
    }
}

/// What the function over a digest says, without and with the key prepared.
fn by_digest(alloc: Global, key: &KeyView, digest: &[u8], signature: &[u8]) -> (char, char) {
    let KeyView::Ec { curve, x, y } = key else {
        return ('?', '?');
    };
    match *curve {
        EcCurve::P256 if digest.len() == 32 => {
            let mut keys: PreparedKeys<4> = PreparedKeys::new(alloc);
            let _ = prepare_p256(alloc, &mut keys, x, y);
            (
                letter(verifies_p256(digest, x, y, signature)),
                letter(verifies_p256_by(&keys, digest, x, y, signature)),
            )
        }
        EcCurve::P384 if digest.len() == 48 => {
            let mut keys: PreparedKeys<6> = PreparedKeys::new(alloc);
            let _ = prepare_p384(alloc, &mut keys, x, y);
            (
                letter(verifies_p384(digest, x, y, signature)),
                letter(verifies_p384_by(&keys, digest, x, y, signature)),
            )
        }
        _ => ('?', '?'),
    }
}

/// What the verifier of the key's kind says.
fn by_verifier(alg: Alg, key: &KeyView, message: Message, signature: &[u8]) -> char {
    match key {
        KeyView::Rsa { .. } => of_answer(Rsa.verify(alg, key, message, signature)),
        KeyView::Ec { .. } => of_answer(Ecdsa.verify(alg, key, message, signature)),
        KeyView::Okp { .. } => of_answer(Ed25519.verify(alg, key, message, signature)),
        KeyView::Oct { .. } => '?',
    }
}

/// What it says with the key prepared.
fn by_prepared(alloc: Global, alg: Alg, key: &KeyView, message: Message, signature: &[u8]) -> char {
    match key {
        KeyView::Rsa { .. } => {
            let mut verifier = PreparedRsa::new(alloc, 1);
            verifier.prepare(key);
            of_answer(verifier.verify(alg, key, message, signature))
        }
        KeyView::Ec { .. } => {
            let mut verifier = ecdsa::jws::PreparedEcdsa::new(alloc, 1);
            verifier.prepare(alloc, key);
            of_answer(verifier.verify(alg, key, message, signature))
        }
        KeyView::Okp { .. } => {
            let mut verifier = jwt_ed25519::PreparedEd25519::new(alloc, 1);
            verifier.prepare(alloc, key);
            of_answer(verifier.verify(alg, key, message, signature))
        }
        _ => '-',
    }
}

/// Whether a key on an elliptic curve is taken: a point of its curve, or one of Ed25519 that isn't of small order.
fn is_taken(key: &KeyView) -> bool {
    match key {
        KeyView::Rsa { .. } => false,
        KeyView::Ec { curve, x, y } => match *curve {
            EcCurve::P256 => is_p256_key(x, y),
            EcCurve::P384 => is_p384_key(x, y),
            EcCurve::P521 => is_p521_key(x, y),
        },
        KeyView::Okp { x, .. } => is_key(x),
        KeyView::Oct { .. } => false,
    }
}

/// The letters of a key, a message and a signature.
fn all_letters(
    alloc: Global,
    alg: Alg,
    key: &KeyView,
    message: &[u8],
    signature: &[u8],
    set: Option<&KeySet>,
    prepares: bool,
) -> Letters {
    let mut found = Letters {
        direct: direct(alg, key, message, signature),
        direct_prepared: '-',
        verifier: '-',
        verifier_prepared: '-',
        whole: '-',
        whole_prepared: '-',
        taken: if is_taken(key) { 'Y' } else { 'n' },
        known: 'n',
    };
    if prepares {
        found.direct_prepared = direct_prepared(alloc, alg, key, message, signature);
    }
    let input = as_input(message);
    if let Some(input) = input {
        found.verifier = by_verifier(alg, key, input, signature);
        if prepares {
            found.verifier_prepared = by_prepared(alloc, alg, key, input, signature);
        }
    }
    let Some(set) = set else {
        return found;
    };
    let Some(entry) = set.key(0) else {
        return found;
    };
    found.known = 'Y';
    if let Some(input) = input {
        found.whole = of_answer(BuiltIn::plain().verify(alg, &entry.view(), input, signature));
        if prepares {
            let verifier = BuiltIn::prepared(alloc, set, 16);
            found.whole_prepared = of_answer(verifier.verify(alg, &entry.view(), input, signature));
        }
    }
    found
}

/// A key of these members, of a kind that is known.
fn view<'a>(kind: &str, a: &'a [u8], b: &'a [u8]) -> Option<KeyView<'a>> {
    match kind {
        "RSA" => Some(KeyView::Rsa { n: a, e: b }),
        "P-256" => Some(KeyView::Ec {
            curve: EcCurve::P256,
            x: a,
            y: b,
        }),
        "P-384" => Some(KeyView::Ec {
            curve: EcCurve::P384,
            x: a,
            y: b,
        }),
        "P-521" => Some(KeyView::Ec {
            curve: EcCurve::P521,
            x: a,
            y: b,
        }),
        "Ed25519" => Some(KeyView::Okp {
            curve: EdCurve::Ed25519,
            x: a,
        }),
        "Ed448" => Some(KeyView::Okp {
            curve: EdCurve::Ed448,
            x: a,
        }),
        _ => None,
    }
}

/// What is wrong with a row that can't be read.
fn unreadable() -> io::Error {
    io::Error::from(io::ErrorKind::InvalidData)
}

/// The letters of a row.
fn answered(alloc: Global, line: &str) -> io::Result<Letters> {
    let words: Vec<&str> = line.split(' ').collect(alloc)?;
    if words.len() != 8 {
        return Err(unreadable());
    }
    let a = octets(alloc, words[2])?;
    let b = octets(alloc, words[3])?;
    let message = octets(alloc, words[4])?;
    let signature = octets(alloc, words[5])?;
    let Some(key) = view(words[1], a.as_slice(), b.as_slice()) else {
        return Err(unreadable());
    };
    if words[0] == "digest" {
        let (direct, direct_prepared) = by_digest(
            alloc,
            &key,
            message.as_slice(),
            signature.as_slice(),
        );
        return Ok(Letters {
            direct,
            direct_prepared,
            verifier: '-',
            verifier_prepared: '-',
            whole: '-',
            whole_prepared: '-',
            taken: if is_taken(&key) { 'Y' } else { 'n' },
            known: '-',
        });
    }
    let Some(alg) = Alg::from_text(words[0]) else {
        return Err(unreadable());
    };
    let set = KeySet::read(alloc, words[6].as_bytes()).ok();
    Ok(all_letters(
        alloc,
        alg,
        &key,
        message.as_slice(),
        signature.as_slice(),
        set.as_ref(),
        words[7] == "p",
    ))
}

/// Answers each row of standard input.
fn main(rt: HostRuntime) -> io::Result<()> {
    let alloc = rt.alloc();
    let mut out = BufWriter::new(alloc, io::writer(&rt))?;
    for line in BufReader::new(alloc, rt.reader())?.lines(alloc) {
        let line = line?;
        let row = answered(alloc, line.as_str())?;
        writeln!(
            out,
            "{}{}{}{}{}{}{}{}",
            row.direct,
            row.direct_prepared,
            row.verifier,
            row.verifier_prepared,
            row.whole,
            row.whole_prepared,
            row.taken,
            row.known
        )?;
    }
    out.flush()
}
