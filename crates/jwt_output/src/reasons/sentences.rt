//! What the refusals and the denials of a token mean and what to do, drawn from gate/faults.txt by gate/faults.py.

static REFUSALS: [(&str, &str); 42] = [
    row! { "Read", "the source failed. The input couldn't be read: a closed connection, a folder in place of a file." },
    row! { "TooLong", "more bytes than the policy's `limit`. The policy's `limit` is 8,192 bytes unless it says otherwise: raise it to what your issuer sends, and no further." },
    row! { "Empty", "there are no bytes. No token came: the header, the cookie or the file is empty." },
    row! { "Encrypted", "an encrypted token (RFC 7516). This is a JWE, which can't be validated here. Ask the issuer for signed tokens." },
    row! { "Segments", "compact form with another number of periods than two and four. Not a JWT: an opaque token, or one that was cut. A signed one has two periods." },
    row! { "Json", "it begins as an object, and is no JSON text. A token in JSON form that was cut or edited." },
    row! { "NameTwice", "a name is doubled in an object of the JSON form. Refuse it: two readers could see two different tokens." },
    row! { "Members", "a member is missing, of another kind, or not to be there. A token in JSON form has `payload` and either `signatures` or `protected`, `header` and `signature`." },
    row! { "TooManySignatures", "more signatures than the policy allows. Raise `max_signatures`, if your issuer signs with several keys." },
    row! { "Base64", "a text is no base64url. A line feed at the end (`printf %s` in place of `echo`, or `\"line_feed\": true`), `Bearer ` in front, quotes around it, padding, or a token that was cut." },
    row! { "Header", "the protected header of this signature is no object text. Not a JWT, or one that was damaged." },
    row! { "UnprotectedKind", "the member `header` of this signature is no object. Ask the issuer: `header` has to be an object." },
    row! { "NamesOverlap", "a name is in both headers of this signature. Ask the issuer: a header parameter may stand in one of the two headers alone (RFC 7515, section 4)." },
    row! { "WorkExceeded", "the bytes of HMAC would exceed the policy's `work`. Raise `work`, or use fewer keys for each algorithm; give keys a `kid`." },
    row! { "CallsExceeded", "there were as many tries as the policy's `max_calls`, or 64 where it names none. Raise `max_calls`, or give keys a `kid` and set `need_kid`, so that few keys are tried." },
    row! { "AlgMissing", "the protected header has no text `alg`. Not a signed JWT." },
    row! { "AlgNone", "`alg` is `none`. An unsigned token. It is never accepted." },
    row! { "AlgUnknown", "`alg` is unknown. An algorithm that isn't implemented here, as ES256K, or a name in the wrong case." },
    row! { "AlgNotAllowed", "`alg` isn't among the policy's `algs`. If your issuer really signs so, add it to `algs`. Don't allow HMAC beside public keys." },
    row! { "NoVerifier", "no verifier names `alg`. On the command line add `--public-keys`. In Rattle hand in a verifier." },
    row! { "KeyUrl", "the header has `jku` or `x5u`. Never followed. Configure the issuer's keys yourself." },
    row! { "EncHeader", "the header has `enc`. An encrypted token; it can't be validated here." },
    row! { "Unencoded", "the header has `b64` (RFC 7797). Unencoded payloads aren't supported." },
    row! { "CritShape", "`crit` has another shape than RFC 7515, section 4.1.11, gives it. Ask the issuer: the header breaks RFC 7515." },
    row! { "CritUnknown", "a name in `crit` isn't among the policy's `understood`. If you handle that header parameter yourself, add it to `understood`." },
    row! { "TypShape", "`typ` or `cty` is no text. Ask the issuer: the header breaks RFC 7515." },
    row! { "TypMismatch", "`typ` isn't the policy's. A token of another kind, as an ID token where an access token is wanted; or `typ` of the policy isn't what your issuer writes (`jwt show`)." },
    row! { "Nested", "`cty` says that the payload is a token again. A token in a token. Nested tokens aren't supported." },
    row! { "KidShape", "`kid` is no text. Ask the issuer: `kid` has to be a text." },
    row! { "KidMissing", "the policy has `need_kid`, and there is no `kid`. Drop `need_kid`, if your issuer names no key." },
    row! { "NoKey", "no key of the set is eligible. The key set lacks the key: fetch it anew, the issuer may have rotated. Else compare `kid`, `alg`, `use` and `key_ops` (`jwt keys`); a secret needs as many bytes as its digest has." },
    row! { "BadSignature", "no eligible key verified it. The token was changed, or is signed by another key of the same `kid`: another issuer, another environment, another secret." },
    row! { "ClaimsShape", "the payload is no object text. The payload isn't a JWT claims set." },
    row! { "ClaimKind", "this registered claim has another kind. Ask the issuer: RFC 7519, section 4.1, gives the kind of this claim." },
    row! { "ClaimDate", "this date is no whole number of 64 bits. Dates are whole seconds here: a fraction or milliseconds are refused." },
    row! { "ClaimMissing", "a claim that the policy asks for is absent. Take it out of `required`, if your issuer never writes it." },
    row! { "Issuer", "`iss` isn't among the policy's `issuers`. Another issuer, or another spelling: compare byte by byte, a slash at the end counts." },
    row! { "Audience", "`aud` names no audience of the policy. The token is for another service. Name your own in `audiences`; without `audiences` each token that has an `aud` is refused." },
    row! { "Expired", "the moment is at or after `exp` and the leeway. Get a new token. If it is always so, compare the clocks; `leeway` allows for some seconds." },
    row! { "NotYet", "the moment and the leeway are before `nbf`. Compare the clocks; `leeway` allows for some seconds." },
    row! { "IssuedLater", "`iat` is later than the moment and the leeway. Compare the clocks; `leeway` allows for some seconds." },
    row! { "TooOld", "the moment is later than `iat`, the policy's `max_age` and the leeway. Get a new token, or raise `max_age`." },
];

/// The refusals by their names, each with its sentences.
pub(crate) fn refusals() -> &'static [(&'static str, &'static str)] {
    &REFUSALS
}

static DENIALS: [(&str, &str); 10] = [
    row! { "ScopeMissing", "this scope isn't granted. Answer 403. The client has to ask the issuer for this scope." },
    row! { "ClaimMissing", "this claim is absent. Answer 403. `jwt show` says which claims the token has." },
    row! { "ClaimNotAllowed", "this claim has no value that is allowed. Answer 403. `jwt show` says what the claim says." },
    row! { "ClaimPresent", "this claim is there, and isn't to be. Answer 403. This token is of another kind: `jwt show` says which claims it has." },
    row! { "ClaimHasOther", "this claim has a value that isn't allowed. Answer 403. Somebody else may use this token too: `jwt show` says whom the claim names." },
    row! { "ClaimNotObject", "this claim is no object. Answer 403. `jwt show` says what the claim says." },
    row! { "ClaimNotDate", "this claim is no date: no whole number. Answer 403. A date is a whole number of seconds since 1970-01-01T00:00:00Z, no text and no fraction." },
    row! { "ClaimLater", "this claim is a date later than the moment and the leeway. Answer 403. Compare the clocks, and raise `leeway` in the policy where they differ by seconds." },
    row! { "ClaimTooOld", "this claim is a date that is too long ago. Answer 403. The user has to log in once more, or the rule allows too few seconds." },
    row! { "ClaimNotAscii", "this claim is no text of ASCII, or has too many bytes. Answer 403. Tell the issuer: no identifier is to be that long, or to have other characters." },
];

/// The denials by their names, each with its sentences.
pub(crate) fn denials() -> &'static [(&'static str, &'static str)] {
    &DENIALS
}
