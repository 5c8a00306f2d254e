//! Places in a text.

/// A place in a text: its line, and its column in octets, each from 1.
#[derive(Clone, Copy, Debug, PartialEq, Eq)]
pub struct Position {
    /// The line.
    pub line: u64,

    /// The column, in octets.
    pub column: u64,
}

/// The place behind these octets.
pub fn place_behind(octets: &[u8]) -> Position {
    let mut place = Position { line: 1, column: 1 };
    for octet in octets {
        if *octet == b'\n' {
            place = Position {
                line: place.line + 1,
                column: 1,
            };
        } else {
            place = Position {
                line: place.line,
                column: place.column + 1,
            };
        }
    }
    place
}
