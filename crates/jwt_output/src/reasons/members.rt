//! The members of a policy, in words.

/// What a member of a policy is, in words, behind its name; none of a name that no policy has.
pub fn member_words(name: &str) -> Option<&'static str> {
    match name {
        "version" => Some("is the whole number 1 or 2"),
        "algs" => Some("is a list of names of algorithms, with at least one"),
        "mode" => Some("is \"any\" or \"all\""),
        "limit" => Some("is a whole number from 1 to 1,048,576 octets"),
        "work" => Some("is a whole number from 0 to 1,000,000,000,000 octets"),
        "max_signatures" => Some("is a whole number from 1 to 32"),
        "line_feed" => Some("is true or false"),
        "typ" => Some("is a text that isn't empty"),
        "need_kid" => Some("is true or false"),
        "thumb_kid" => Some("is true or false"),
        "understood" => Some(
            "is a list of texts, none of them b64 or a header name of RFC 7515, section 4.1",
        ),
        "issuers" => Some("is a list of texts"),
        "audiences" => Some("is a list of texts"),
        "required" => Some("is a list of texts"),
        "leeway" => Some("is a whole number from 0 to 86,400 seconds"),
        "max_age" => Some("is a whole number from 1 to 4,294,967,295 seconds"),
        "max_calls" => Some("is a whole number from 0 to 32,768, in version 2 alone"),
        _ => None,
    }
}
