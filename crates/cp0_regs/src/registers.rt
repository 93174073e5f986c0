//! The registers that CP0 has, by number, and the bits of them that MTC0 writes.

ghost use Rattle.std.specs.Prelude.{◌≡◌};
ghost use Rattle.cp0_regs.specs.Registers as law;

pub const INDEX: u8 = 0;

pub const RANDOM: u8 = 1;

pub const ENTRY_LO0: u8 = 2;

pub const ENTRY_LO1: u8 = 3;

pub const CONTEXT: u8 = 4;

pub const PAGE_MASK: u8 = 5;

pub const WIRED: u8 = 6;

pub const BAD_VADDR: u8 = 8;

pub const COUNT: u8 = 9;

pub const ENTRY_HI: u8 = 10;

pub const COMPARE: u8 = 11;

pub const STATUS: u8 = 12;

pub const CAUSE: u8 = 13;

pub const EPC: u8 = 14;

pub const PRID: u8 = 15;

pub const CONFIG: u8 = 16;

pub const LL_ADDR: u8 = 17;

pub const TAG_LO: u8 = 28;

pub const TAG_HI: u8 = 29;

pub const ERROR_EPC: u8 = 30;

/// The numbers of the registers in the order in which they are shown, four in a line.
pub fn shown_numbers() -> [u8; 20]
    ensures order { result ≡ law.numbers }
{
    [
        INDEX, RANDOM, ENTRY_LO0, ENTRY_LO1, CONTEXT, PAGE_MASK, WIRED, BAD_VADDR, COUNT, ENTRY_HI,
        COMPARE, STATUS, CAUSE, EPC, PRID, CONFIG, LL_ADDR, TAG_LO, TAG_HI, ERROR_EPC,
    ]
}

/// The bits of a register that MTC0 writes.
#[tactic(auto, unfolding(crate::specs::Registers::written_bits))]
pub(crate) fn written_bits(number: u8) -> u32
    ensures bits { result ≡ law.written_bits number }
{
    match number {
        INDEX => 0x8000_003f,
        ENTRY_LO0 | ENTRY_LO1 => 0x3fff_ffff,
        CONTEXT => 0xff80_0000,
        PAGE_MASK => 0x01ff_e000,
        WIRED => 0x3f,
        ENTRY_HI => 0xffff_e0ff,
        STATUS => 0x1044_ff1f,
        CAUSE => 0x300,
        CONFIG => 0x7,
        COUNT | COMPARE | EPC | LL_ADDR | TAG_LO | ERROR_EPC => u32::MAX,
        _ => 0,
    }
}
