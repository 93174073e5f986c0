//! An instruction: a row of the table with the fields of its operands.

/// A row with the fields of its operands. A field that the row's form does not use is 0.
#[derive(Clone, Copy)]
pub struct Inst {
    /// The row's number in the table, below 129.
    pub row: u8,
    /// Bits 25:21, a general register: the first source, the base of an address, or what a jump goes to.
    pub rs: u8,
    /// Bits 20:16: a general register, the second source or the target of an immediate row, a load or a store;
    /// for `cache` the operation's code; for the loads and stores of coprocessors 1 and 2 the coprocessor's register.
    pub rt: u8,
    /// Bits 15:11: a general register, the destination; for the moves from and to coprocessor 0 its register.
    pub rd: u8,
    /// Bits 10:6: the amount of a shift.
    pub sa: u8,
    /// The one number of the form, as it stands in the word and before any extension: bits 15:0 for an immediate,
    /// an offset in bytes or a branch's distance in words (a signed one in two's complement); bits 25:0 for a jump's
    /// target in words or a coprocessor's operation; bits 25:6 for the code of `syscall` and `break`; bits 15:6 for
    /// the code of a trap on registers.
    pub imm: u32,
}
