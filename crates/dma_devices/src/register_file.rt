//! The device registers, by their offsets.

ghost use Rattle.std.specs.Prelude.{◌≡◌};

/// What a read of a register gives.
#[derive(Clone, Copy)]
pub enum OnRead {
    Zero,
    /// The first waiting byte of the console, which it takes; ffffffff where none waits.
    WaitingByte,
    ConsoleStatus,
    Sector,
    Address,
    DiskStatus,
    /// The image's entry.
    Entry,
}

/// What a write of a register does.
#[derive(Clone, Copy)]
pub enum OnWrite {
    Ignored,
    /// The low byte joins the console's output.
    Print,
    Sector,
    Address,
    /// The disk is given a command.
    Command,
    /// The disk's done and error are cleared.
    ClearFlags,
    /// The run ends with this tick.
    Halt,
}

/// A register, by what a read of it gives and a write does.
#[derive(Clone, Copy)]
pub struct Register {
    pub on_read: OnRead,
    pub on_write: OnWrite,
}

/// What a write of a register comes to.
#[derive(Clone, Copy)]
pub enum Wrote {
    Plain,
    /// The run ends with this tick, with this halt code.
    Halt(u32),
}

impl Register {
    ghost use Rattle.dma_devices.specs.RegisterTable as law;

    // A register, by what a read of it gives and a write does.
    fn new(on_read: OnRead, on_write: OnWrite) -> Register
        ensures { result ≡ record { on_read = on_read; on_write = on_write } }
    {
        Register { on_read, on_write }
    }

    /// The register at an offset.
    pub fn at(offset: u32) -> Option<Register>
        ensures { result ≡ law.register_at offset }
    {
        let register = match offset {
            0x00 => Register::new(OnRead::Zero, OnWrite::Print),
            0x04 => Register::new(OnRead::WaitingByte, OnWrite::Ignored),
            0x08 => Register::new(OnRead::ConsoleStatus, OnWrite::Ignored),
            0x10 => Register::new(OnRead::Sector, OnWrite::Sector),
            0x14 => Register::new(OnRead::Address, OnWrite::Address),
            0x18 => Register::new(OnRead::Zero, OnWrite::Command),
            0x1c => Register::new(OnRead::DiskStatus, OnWrite::ClearFlags),
            0x20 => Register::new(OnRead::Zero, OnWrite::Halt),
            0x24 => Register::new(OnRead::Entry, OnWrite::Ignored),
            _ => return None,
        };
        Some(register)
    }
}
