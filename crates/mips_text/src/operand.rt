//! The operands of instructions as a text shows them, and the tokens that stand for them.

/// A field of an instruction. In the further statements `Imm` stands for the one number, target, label or text.
#[derive(Clone, Copy)]
pub enum Field {
    Rs,
    Rt,
    Rd,
    Sa,
    Imm,
}

/// An operand as a text shows it.
#[derive(Clone, Copy)]
pub enum Operand {
    /// A general register in this field.
    Register(Field),
    /// The register of coprocessor 0 in rd.
    Cp0Register,
    /// A number of so many bits without a sign, printed in decimal.
    Decimal(Field, u8),
    /// A number of so many bits without a sign, printed in hexadecimal.
    Hexadecimal(Field, u8),
    /// The number in imm, 16 bits in two's complement, printed in decimal.
    Signed,
    /// `off(rs)`: the offset in imm, as a `Signed`, and the base.
    Based,
    /// Where a branch goes, by its distance in imm.
    BranchTarget,
    /// Where a jump goes, by its number of 26 bits in imm.
    JumpTarget,
}

/// The numbers that may stand at a place, by their bits.
#[derive(Clone, Copy)]
pub enum Range {
    /// So many bits without a sign.
    Unsigned(u8),
    /// So many bits with a sign.
    WithSign(u8),
    /// So many bits, with a sign or without.
    EitherSign(u8),
}

/// A token that a statement expects, and the field that it gives. A default stands here for `ArrayVec::new`.
#[derive(Clone, Copy, Default)]
pub enum Expected {
    /// A Name, which is a general register.
    ARegister(Field),
    /// A Name, which is a register of coprocessor 0.
    ACp0Register(Field),
    /// A Number of this range.
    ANumber(Field, Range),
    /// A Number of any size, which is an alignment.
    AnAlignment,
    /// A Name, which is a label, or a Number, which is an address.
    #[default]
    ATarget,
    /// A Name, which is a label.
    ALabel,
    /// A Text.
    AText,
    /// This mark.
    AMark(u8),
}
