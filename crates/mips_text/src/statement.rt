//! The statements of a source.

/// A statement, as its name tells it.
#[derive(Clone, Copy)]
pub enum Statement {
    /// An instruction, by its row's number.
    Instruction(u8),
    /// `li rt,number`: a lui and an ori.
    Li,
    /// `la rt,label`: a lui and an ori.
    La,
    /// `move rd,rs`: or rd,rs,zero.
    Move,
    /// The word 0.
    Nop,
    /// `b target`: beq zero,zero,target.
    Branch,
    /// `.org ADDRESS`.
    Org,
    /// `.word` and a list of numbers.
    Word,
    /// `.byte` and a list of numbers.
    Byte,
    /// `.space N`.
    Space,
    /// `.align N`.
    Align,
    /// `.ascii TEXT`.
    Ascii,
}
