//! Why a line of a source is refused.

use thiserror::Error;

/// The reason for which a line of a source is refused. Of several that hold for a line the first stands.
#[derive(Clone, Copy, Debug, Error)]
pub enum AsmWhy {
    /// A name is no statement, or no register where one is expected, or a byte begins no token.
    #[error("unknown name or byte")]
    Unknown,
    /// Operands have the wrong number or kind, a text is not closed or has a backslash before a byte that it does not
    /// escape, or the line has more than 64 tokens.
    #[error("wrong operands")]
    Operand,
    /// A number lies outside its field, a label is too long, an address moves back or lies outside the unmapped
    /// segments, the image is too large, or a branch or jump cannot reach its target.
    #[error("out of range")]
    Range,
    /// A label stands a second time.
    #[error("label stands twice")]
    Twice,
    /// A label is named that stands nowhere.
    #[error("no such label")]
    NoLabel,
    /// A statement, a word or the entry is at no multiple of 4, or an alignment is out of range.
    #[error("out of alignment")]
    Align,
}
