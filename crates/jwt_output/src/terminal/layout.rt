//! The layout of a JSON value: where its tokens stand.

use json::Token;
use std::alloc::AllocError;

/// What was written last.
#[derive(Clone, Copy)]
pub(crate) enum LastToken {
    Nothing,
    Bracket,
    Name,
    Value,
}

/// What was written last, and how deep the next token is.
#[derive(Clone, Copy)]
pub(crate) struct ShownPlace {
    pub(crate) last: LastToken,
    pub(crate) depth: usize,
}

/// Whether the token begins a value or a member: each but a closing bracket.
pub(crate) fn begins(token: Token<'_>) -> bool {
    !matches!(token, Token::EndObject | Token::EndArray)
}

/// How deep the token is: a closing bracket stands one level out.
pub(crate) fn depth_at(depth: usize, token: Token<'_>) -> usize {
    if begins(token) {
        depth
    } else {
        depth.saturating_sub(1)
    }
}

/// The place after a token at that depth.
fn after(token: Token<'_>, depth: usize) -> ShownPlace {
    match token {
        Token::BeginObject | Token::BeginArray => ShownPlace {
            last: LastToken::Bracket,
            depth: depth.saturating_add(1),
        },
        Token::Key(_) => ShownPlace {
            last: LastToken::Name,
            depth,
        },
        _ => ShownPlace {
            last: LastToken::Value,
            depth,
        },
    }
}

impl ShownPlace {
    /// Before the first token.
    pub(crate) fn first() -> ShownPlace {
        ShownPlace {
            last: LastToken::Nothing,
            depth: 0,
        }
    }

    /// After the token.
    pub(crate) fn step(self, token: Token<'_>) -> ShownPlace {
        after(token, depth_at(self.depth, token))
    }
}

/// Spaces, two for each level.
fn push_spaces(out: &mut String, depth: usize) -> Result<(), AllocError> {
    for _ in 0..depth {
        out.push_str("  ")?;
    }
    Ok(())
}

/// A line feed, and the spaces of the next line.
fn push_line(out: &mut String, depth: usize) -> Result<(), AllocError> {
    out.push('\n')?;
    push_spaces(out, depth)
}

/// What stands before a token, behind its comma.
pub(crate) fn push_gap(
    out: &mut String,
    last: LastToken,
    opens: bool,
    depth: usize,
) -> Result<(), AllocError> {
    match last {
        LastToken::Nothing => Ok(()),
        LastToken::Name => out.push(' '),
        LastToken::Bracket if !opens => Ok(()),
        _ => push_line(out, depth),
    }
}

/// The comma between two values.
pub(crate) fn push_comma(
    out: &mut String,
    last: LastToken,
    token: Token<'_>,
) -> Result<(), AllocError> {
    match last {
        LastToken::Value if begins(token) => out.push(','),
        _ => Ok(()),
    }
}
