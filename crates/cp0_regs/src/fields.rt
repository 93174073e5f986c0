//! The fields of the registers, by the manual's names.

ghost use Rattle.std.specs.Prelude.{◌≡◌, ◌<◌, ◌≤◌};
ghost use Rattle.cp0_regs.specs.Fields as law;

use crate::registers::{CAUSE, CONFIG, CONTEXT, ENTRY_HI, STATUS};

/// Bits `high..low` of a register.
#[derive(Clone, Copy)]
pub struct Field {
    pub register: u8,
    pub high: u32,
    pub low: u32,
}

impl Field {
    /// The bits of the field.
    #[tactic(auto, using(crate::proofs::FieldBits::low_below_high))]
    pub fn bits(self) -> u32
        requires order { self.low ≤ self.high }
        requires in_word { self.high < 32 }
        ensures bits { result ≡ law.bits_of self }
    {
        ((1u64 << (self.high + 1)) - (1u64 << self.low)) as u32
    }
}

/// Context: the page of the last fault of the TLB.
pub const BAD_VPN2: Field = Field {
    register: CONTEXT,
    high: 22,
    low: 4,
};

/// EntryHi: the pair of pages.
pub const VPN2: Field = Field {
    register: ENTRY_HI,
    high: 31,
    low: 13,
};

/// EntryHi: the number of the address space.
pub const ASID: Field = Field {
    register: ENTRY_HI,
    high: 7,
    low: 0,
};

/// Status: interrupts are enabled.
pub const IE: Field = Field {
    register: STATUS,
    high: 0,
    low: 0,
};

/// Status: an exception was taken.
pub const EXL: Field = Field {
    register: STATUS,
    high: 1,
    low: 1,
};

/// Status: an error was taken, a reset among them.
pub const ERL: Field = Field {
    register: STATUS,
    high: 2,
    low: 2,
};

/// Status: the mode.
pub const KSU: Field = Field {
    register: STATUS,
    high: 4,
    low: 3,
};

/// Status: the lines that may interrupt.
pub const IM: Field = Field {
    register: STATUS,
    high: 15,
    low: 8,
};

/// Status: exceptions lead into the PROM.
pub const BEV: Field = Field {
    register: STATUS,
    high: 22,
    low: 22,
};

/// Status: coprocessor 0 is usable in every mode.
pub const CU0: Field = Field {
    register: STATUS,
    high: 28,
    low: 28,
};

/// Cause: the code of the exception.
pub const EXC_CODE: Field = Field {
    register: CAUSE,
    high: 6,
    low: 2,
};

/// Cause: the lines that ask for an interrupt.
pub const IP: Field = Field {
    register: CAUSE,
    high: 15,
    low: 8,
};

/// Cause: the devices' lines, IP2 to IP6.
pub const DEVICE_LINES: Field = Field {
    register: CAUSE,
    high: 14,
    low: 10,
};

/// Cause: the timer's line, IP7.
pub const TIMER_LINE: Field = Field {
    register: CAUSE,
    high: 15,
    low: 15,
};

/// Cause: the unit of an unusable coprocessor.
pub const CE: Field = Field {
    register: CAUSE,
    high: 29,
    low: 28,
};

/// Cause: the exception came in a delay slot.
pub const BD: Field = Field {
    register: CAUSE,
    high: 31,
    low: 31,
};

/// Config: the attribute of kseg0.
pub const K0: Field = Field {
    register: CONFIG,
    high: 2,
    low: 0,
};
