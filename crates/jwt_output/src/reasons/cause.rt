//! What an answer refuses or denies something for.
use crate::reasons::sentences::{denials, refusals};

/// What an answer refuses or denies something for, as far as there is more to say of it.
#[derive(Clone, Copy, Debug, Drop)]
pub enum Cause {
    /// Nothing, or nothing of which there is.
    None,
    /// The fault of a token, by its place among the sentences on refusals.
    Refused(usize),
    /// What the claims of a token lack, by its place among those on denials.
    Denied(usize),
    /// A key for which there is a remedy.
    Remedied,
}

/// The place of a name.
fn place_of(rows: &[(&str, &str)], name: &str) -> Option<usize> {
    for place in 0..rows.len() {
        if rows[place].0 == name {
            return Some(place);
        }
    }
    None
}

impl Cause {
    /// That of a verdict, with the name of a fault or a denial.
    pub fn of(verdict: &str, name: &str) -> Cause {
        match verdict {
            "refused" => match place_of(refusals(), name) {
                Some(place) => Cause::Refused(place),
                None => Cause::None,
            },
            "denied" => match place_of(denials(), name) {
                Some(place) => Cause::Denied(place),
                None => Cause::None,
            },
            _ => Cause::None,
        }
    }

    /// The name and the sentences of the fault or the denial of a token.
    pub(crate) fn row(self) -> Option<(&'static str, &'static str)> {
        match self {
            Cause::Refused(place) => refusals().get(place).copied(),
            Cause::Denied(place) => denials().get(place).copied(),
            Cause::None | Cause::Remedied => None,
        }
    }
}
