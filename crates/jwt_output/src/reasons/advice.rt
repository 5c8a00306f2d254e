//! What each advice says and what to write, drawn from docs/COMMAND.md by gate/faults.py.

static ADVICE: [(&str, &str); 21] = [
    row! { "NoExp", "a token without `exp` never expires. Write `exp` in `required`." },
    row! { "NoIssuers", "any issuer is allowed. Write the issuers in `issuers`." },
    row! { "NoAudiences", "every token with `aud` is refused. Write your own names in `audiences`, and `aud` in `required`; where tokens have no `aud`, nothing." },
    row! { "NoTyp", "a token of another purpose under the same keys is told apart by its claims alone. Write the type in `typ`, as `at+jwt` (RFC 8725, section 3.11)." },
    row! { "MixedAlgs", "HMAC and public-key algorithms in one policy. Write a policy for each, with its own keys (RFC 8725, section 3.1)." },
    row! { "UncheckedSignatures", "in mode `any` one signature is verified, and the others may be forged. Write `\"max_signatures\": 1`, or `\"mode\": \"all\"`." },
    row! { "AlgWithoutKey", "no key can verify one of `algs`. Write the key, or `algs` without it." },
    row! { "NoKid", "an algorithm has two keys, and a signature without `kid` is tried with each. Write `\"need_kid\": true`, with a `kid` for each key." },
    row! { "LowWork", "a good token may cost more bytes than `work`, and is refused then. Write a greater `work`, or fewer keys for a `kid`." },
    row! { "LowCalls", "a good token may cause more tries than `max_calls`, and is refused then. Write a greater `max_calls`, or fewer keys for a `kid`." },
    row! { "ManyCalls", "a stranger's token can cause more than 32 tries. Write `max_signatures` of 1, `need_kid`, a `kid` for each key, or `max_calls` in version 2." },
    row! { "UnusedKey", "no algorithm of the policy can ever use the key. Write a key set without it, or its algorithm in `algs`." },
    row! { "KidTwice", "two keys have one `kid`. Write a `kid` for each key." },
    row! { "UniformSecret", "all bytes of a secret are alike. Write a secret by `jwt jwk --new HS256`." },
    row! { "PrintableSecret", "a secret has printable characters alone, as a password has (RFC 8725, section 3.5). Write a secret by `jwt jwk --new HS256`." },
    row! { "ShortSecret", "a secret has fewer than 32 bytes, and no HMAC algorithm takes it (RFC 7518, section 3.2). Write a secret by `jwt jwk --new HS256`." },
    row! { "SmallRsa", "the modulus of an RSA key has fewer than 256 bytes, and so fewer than the 2,048 bits of RFC 7518, section 3.3. Write a key of 2,048 bits and e = 65,537." },
    row! { "RefusedRsa", "the verifiers accept no signature by the RSA key: its modulus is even or hasn't 2,048 to 8,192 bits, or its exponent is even, less than 3 or wider than eight bytes. Write a key of 2,048 bits and e = 65,537." },
    row! { "RefusedEc", "the verifiers accept no signature by the EC key: it is no point of its curve. Write the key as its owner has it." },
    row! { "RefusedOkp", "the verifiers accept no signature by the key: Ed448, or a key of Ed25519 that doesn't decode or is of small order. Write a key of Ed25519." },
    row! { "PrivateMember", "an entry has a member of private keys: whoever reads the file can sign. Write the public key alone, by `openssl pkey -pubout` and `jwt jwk`." },
];

/// The advice by its name, with its sentence.
pub(crate) fn advice() -> &'static [(&'static str, &'static str)] {
    &ADVICE
}
