//! The tokens of one line of a source.

use crate::reason::AsmWhy;

/// The kind of a token. A default stands here, as in `Token`, for `ArrayVec::new`.
#[derive(Clone, Copy, Default)]
pub enum TokenKind {
    /// Letters, digits, `_` and `.`, not a digit first; or `$` and one or more digits.
    #[default]
    Name,
    /// Decimal digits, or `0x` and hexadecimal digits of either case, with an optional `-` before.
    Number,
    /// Bytes between double quotes, the quotes included. A backslash takes the next byte with it.
    Text,
    /// One of `,` `:` `(` `)`.
    Mark,
}

/// A token of a line: the bytes `from..to` of it.
#[derive(Clone, Copy, Default)]
pub struct Token {
    /// What the token is.
    pub kind: TokenKind,
    /// The index of its first byte in the line.
    pub from: u32,
    /// The index after its last byte, above `from`.
    pub to: u32,
}

/// What stands at the head of a text.
#[derive(Clone, Copy)]
pub enum Start {
    /// A blank or a tab.
    Blank,
    /// `#`, which ends the tokens of its line.
    Comment,
    /// A token of this kind and of so many bytes.
    Begins(TokenKind, usize),
    /// What begins no token.
    Refused(AsmWhy),
}
