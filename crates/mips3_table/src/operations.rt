//! What the rows do: one operation is one equation, whatever the form of its operands.
//!
//! Where an operation has two operands, the first is the register rs, and the form gives the second: rt, the form's
//! number (sign-extended, or zero-extended in the form of unsigned immediates), or zero where a branch has one register
//! alone. What it gives goes to rd where the form has one, else to rt. So `addi` and `add` have the same operation, and
//! so have `tgei` and `tge`, and `blez` is a branch on a comparison with zero.
//! Source: MIPS R4000 Microprocessor User's Manual, 2nd edition (Heinrich), appendix A, the page of each instruction.

/// How many bits of the operands count, and how many the result has: a word is sign-extended to the register.
#[derive(Clone, Copy)]
pub enum Width {
    /// The low 32 bits.
    Word,
    /// All 64 bits.
    Double,
}

/// What happens where a sum or a difference of two's complement does not fit its width.
#[derive(Clone, Copy)]
pub enum Overflow {
    /// The overflow exception, and no result.
    Traps,
    /// The low bits of the result.
    Wraps,
}

/// A comparison of the first operand with the second, of all 64 bits; signed but where it says else.
#[derive(Clone, Copy)]
pub enum Comparison {
    Equal,
    NotEqual,
    Less,
    LessUnsigned,
    GreaterOrEqual,
    GreaterOrEqualUnsigned,
    LessOrEqual,
    Greater,
}

/// The instruction behind a branch.
#[derive(Clone, Copy)]
pub enum DelaySlot {
    /// It is executed, whether the branch is taken or not.
    AlwaysExecuted,
    /// It is executed where the branch is taken: a branch likely.
    NullifiedUnlessTaken,
}

/// Where a jump or a branch, taken or not, puts the address behind its delay slot.
#[derive(Clone, Copy)]
pub enum Link {
    /// Nowhere.
    Unlinked,
    /// Register 31.
    IntoRegister31,
    /// The register rd.
    IntoDestination,
}

/// Where the amount of a shift stands.
#[derive(Clone, Copy)]
pub enum Amount {
    /// The field sa.
    InField,
    /// The field sa, and 32 more.
    InFieldPlus32,
    /// The low 5 bits of rs, or 6 where the shift is of 64 bits.
    InRegister,
}

/// Whether a number is taken in two's complement.
#[derive(Clone, Copy)]
pub enum Signedness {
    Signed,
    Unsigned,
}

/// How many bytes of memory a load or a store moves.
#[derive(Clone, Copy)]
pub enum Size {
    Byte,
    Half,
    /// Four or eight.
    Wide(Width),
}

/// A coprocessor that is not there.
#[derive(Clone, Copy)]
pub enum Coprocessor {
    One,
    Two,
}

/// What a row does with its operands.
#[derive(Clone, Copy)]
pub enum Operation {
    /// Goes to the target of the form's number, or to the address in rs where the form has none.
    Jump(Link),
    /// Goes to the target of the form's number where the comparison holds of rs and of rt, or zero.
    Branch(Comparison, DelaySlot, Link),
    /// The sum of the operands.
    Add(Width, Overflow),
    /// The first operand less the second.
    Subtract(Width, Overflow),
    /// The bits that both operands have.
    And,
    /// The bits that one of them has.
    Or,
    /// The bits that exactly one of them has.
    ExclusiveOr,
    /// The bits that neither has.
    NotOr,
    /// 1 where the comparison holds of the operands, else 0.
    SetWhere(Comparison),
    /// The form's number in the upper half of a word.
    LoadUpper,
    /// rt shifted to the left.
    ShiftLeft(Width, Amount),
    /// rt shifted to the right, with zeros before it.
    ShiftRightLogical(Width, Amount),
    /// rt shifted to the right, with copies of its sign before it.
    ShiftRightArithmetic(Width, Amount),
    /// The product of rs and rt, its upper half into HI and its lower into LO.
    Multiply(Width, Signedness),
    /// rs divided by rt: the remainder into HI, the quotient into LO.
    Divide(Width, Signedness),
    /// HI into rd.
    MoveFromHi,
    /// LO into rd.
    MoveFromLo,
    /// rs into HI.
    MoveToHi,
    /// rs into LO.
    MoveToLo,
    /// The trap exception where the comparison holds of the operands.
    TrapWhere(Comparison),
    /// The system call exception.
    SystemCall,
    /// The breakpoint exception.
    Breakpoint,
    /// Waits for the loads and stores before it.
    Synchronize,
    /// So many bytes of memory into rt, sign-extended or zero-extended. A doubleword is the whole register, and counts as
    /// signed.
    Load(Size, Signedness),
    /// The bytes from the address up to the end of its word or doubleword into the high bytes of rt.
    LoadLeft(Width),
    /// The bytes from the beginning of the word or doubleword up to the address into the low bytes of rt.
    LoadRight(Width),
    /// A load that sets the link.
    LoadLinked(Width),
    /// The low bytes of rt into memory.
    Store(Size),
    /// The high bytes of rt to the bytes from the address up to the end of its word or doubleword.
    StoreLeft(Width),
    /// The low bytes of rt to the bytes from the beginning of the word or doubleword up to the address.
    StoreRight(Width),
    /// A store where the link is set, and into rt whether it was.
    StoreConditional(Width),
    /// The operation on the caches whose code stands in rt's place.
    OperateCache,
    /// The exception of a coprocessor that is not usable.
    UseCoprocessor(Coprocessor),
    /// A register of coprocessor 0 into rt.
    MoveFromCp0(Width),
    /// rt into a register of coprocessor 0.
    MoveToCp0(Width),
    /// The entry of the TLB that Index names into the registers.
    ReadTlb,
    /// The registers into the entry of the TLB that Index names.
    WriteIndexedTlb,
    /// The registers into the entry of the TLB that Random names.
    WriteRandomTlb,
    /// Into Index the entry of the TLB that matches EntryHi.
    ProbeTlb,
    /// Back from an exception.
    ReturnFromException,
}
