//! What an instruction asks for, once its operands are read.

/// The effect of an instruction on the registers and pc, or what it asks of memory, of coprocessor 0 or of the exceptions.
#[derive(Clone, Copy)]
pub enum Effect {
    /// Nothing.
    Nothing,
    /// A value into a register; one into register 0 is lost.
    Set {
        reg: u8,
        value: u64,
    },
    /// Values into HI and LO.
    HiLo {
        hi: u64,
        lo: u64,
    },
    /// A jump or a branch: whether it is taken, whether the delay slot is passed over where it is not, where it goes, and
    /// the register and the value of its link. The link is set whether it is taken or not; its register is 0 where there
    /// is none.
    Jump {
        taken: bool,
        likely: bool,
        target: u32,
        link: u8,
        value: u64,
    },
    /// An access: its address, the lowest address and the number of the bytes that it touches, and the register that it
    /// loads or stores.
    Touch {
        kind: Touch,
        va: u32,
        first: u32,
        size: u8,
        reg: u8,
    },
    /// What the row does is left to coprocessor 0.
    System {
        row: u8,
    },
    /// An exception by its code, with the coprocessor that it concerns, or 0.
    Raise {
        code: u8,
        unit: u8,
    },
}

/// The kinds of access.
#[derive(Clone, Copy)]
pub enum Touch {
    /// A load.
    Load,
    /// A store.
    Store,
    /// A load that sets the link.
    Link,
    /// A store where the link is set.
    Cond,
    /// A cache operation. It is aimed at the byte at its address.
    Cache,
}
