//! Texts, and lists of texts.

ghost use Rattle.std.specs.Prelude.{◌≡◌, map, string_bytes};
ghost use Rattle.jwt_text.specs.Members.{is_no_text};
ghost use Rattle.jwt_policy.specs.Texts.{is_among};

use jwt_text::ObjectRef;

/// Whether a text is among these, compared octet by octet. It takes no memory.
#[tactic(auto, using(std::proofs::lemmas::List::at_drop_more, std::proofs::lemmas::List::at_drop_all))]
pub fn is_among(texts: &[String], text: &str) -> bool
    ensures { result ≡ is_among (map string_bytes texts.now) text.now }
{
    for each in texts {
        if text == each.as_str() {
            return true;
        }
    }
    false
}

/// Whether the member is there and no text.
pub(crate) fn is_no_text(object: &ObjectRef<'_>, name: &str) -> bool
    ensures { result ≡ is_no_text name.now object.now }
{
    object.has(name) && object.text(name).is_none()
}
