//! One input to the machine.

/// What comes to the machine.
#[derive(Clone, Copy)]
pub enum What {
    /// A byte joins the bytes that wait at the console.
    Key(u8),
    /// An interrupt line, 4, 5 or 6, takes a level.
    Irq { line: u8, level: bool },
    /// The disk makes no beats from this tick on.
    Hold,
    /// The disk makes beats again.
    Go,
}

/// What comes to the machine, and the tick at which it comes.
#[derive(Clone, Copy)]
pub struct Input {
    pub tick: u32,
    pub what: What,
}
