//! Media types, as `typ` and `cty` name them (RFC 7515, sections 4.1.9 and 4.1.10).

ghost use Rattle.std.specs.Prelude.{◌≡◌, ◌++◌, ◌==◌};
ghost use Rattle.std.specs.List.{list_any};
ghost use Rattle.std.specs.Str.{str_eq_ignore_ascii_case};
ghost use Rattle.jwt_policy.specs.Texts.{same_media_type};

/// Whether the octets hold a `/`.
fn has_slash(octets: &[u8]) -> bool
    ensures { result ≡ list_any (λ c. c == 47) octets.now }
{
    octets.iter().any(|c| *c == b'/')
}

/// Whether two texts are equal, ASCII case ignored.
fn same_but_case(a: &[u8], b: &[u8]) -> bool
    ensures { result ≡ str_eq_ignore_ascii_case a.now b.now }
{
    a.eq_ignore_ascii_case(b)
}

/// Whether these octets are this beginning and this rest, ASCII case ignored.
#[tactic(auto, using(crate::proofs::MediaLemmas::splits, crate::proofs::MediaLemmas::shorter))]
fn is_joined(octets: &[u8], beginning: &[u8], rest: &[u8]) -> bool
    ensures { result ≡ str_eq_ignore_ascii_case octets.now (beginning.now ++ rest.now) }
{
    if octets.len() < beginning.len() {
        return false;
    }
    let (front, back) = octets.split_at(beginning.len());
    same_but_case(front, beginning) && same_but_case(back, rest)
}

/// Whether two texts are equal as media types: ASCII case is ignored, and `application/` stands before a text that holds no
/// `/`. The whole texts are compared, parameters too. It takes no memory.
#[tactic(auto, unfolding(crate::specs::Texts::same_media_type), using(crate::proofs::MediaLemmas::case_symmetric))]
pub(crate) fn same_media_type(a: &str, b: &str) -> bool
    ensures { result ≡ same_media_type a.now b.now }
{
    let (a, b) = (a.as_bytes(), b.as_bytes());
    match (has_slash(a), has_slash(b)) {
        (true, false) => is_joined(a, b"application/", b),
        (false, true) => is_joined(b, b"application/", a),
        _ => same_but_case(a, b),
    }
}
