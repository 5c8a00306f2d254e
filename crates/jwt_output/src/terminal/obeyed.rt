//! Characters that a terminal may obey.

use ucd_category::GeneralCategory;

/// Whether characters of this general category can't be seen: Cc, Cf, Zl and Zp.
fn is_unseen(category: GeneralCategory) -> bool {
    match category {
        GeneralCategory::Control => true,
        GeneralCategory::Format => true,
        GeneralCategory::LineSeparator => true,
        GeneralCategory::ParagraphSeparator => true,
        _ => false,
    }
}

/// Whether a terminal may obey the character, or it can't be seen: a control character, a format character as those of bidirectional text,
/// zero-width ones and tags, and a line or paragraph separator (Unicode's general category Cc, Cf, Zl or Zp).
pub fn is_obeyed(c: char) -> bool {
    c < ' ' || is_unseen(GeneralCategory::for_char(c))
}
