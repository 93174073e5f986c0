//! The forms of operands: which fields of a word are operands, and how a text shows them.

ghost use Rattle.std.specs.Prelude.{◌≡◌, ◌≤◌, ◌<◌, ◌+◌};
ghost use Rattle.mips3_table.specs.Operands as law;

/// The form of a row's operands. Each says its text, as an assembler writes it, and the fields that hold it.
/// A register stands in the 5 bits of its place: rs 25:21, rt 20:16, rd 15:11.
#[derive(Clone, Copy)]
pub enum Form {
    /// `target`: bits 25:0, in words, within the 256 MB of the delay slot.
    Target,
    /// `rs,rt,target`: bits 15:0, signed, in words from the delay slot.
    CompareBranch,
    /// `rs,target`: bits 15:0, signed, in words from the delay slot.
    ZeroBranch,
    /// `rt,rs,imm`: bits 15:0, signed.
    SignedImmediate,
    /// `rt,rs,imm`: bits 15:0, unsigned.
    UnsignedImmediate,
    /// `rt,imm`: bits 15:0, unsigned.
    UpperImmediate,
    /// `rt,off(rs)`: bits 15:0, a signed number of bytes.
    Memory,
    /// `code,off(rs)`: the operation's code in rt's place, and bits 15:0, a signed number of bytes.
    CacheOperation,
    /// `number`: bits 25:0, an operation of a coprocessor.
    CoprocessorNumber,
    /// `number,off(rs)`: a coprocessor's register in rt's place, and bits 15:0, a signed number of bytes.
    CoprocessorMemory,
    /// `rd,rt,sa`: the amount in bits 10:6.
    Shift,
    /// `rd,rt,rs`.
    ShiftByRegister,
    /// `rs`.
    Source,
    /// `rd,rs`.
    JumpAndLinkRegister,
    /// `code`: bits 25:6.
    Code,
    /// No operands.
    NoOperands,
    /// `rd`.
    Destination,
    /// `rs,rt`.
    TwoSources,
    /// `rd,rs,rt`.
    ThreeRegisters,
    /// `rs,rt,code`: bits 15:6.
    TrapRegisters,
    /// `rs,imm`: bits 15:0, signed.
    TrapImmediate,
    /// `rt,cp0`: a register of coprocessor 0 in rd's place.
    Cp0Move,
}

/// The width in bits of each field of a form, 0 where the form does not use it. rs, rt, rd and sa have their places in
/// every word; the form's number has its lowest bit at `number_at`.
#[derive(Clone, Copy)]
pub struct Widths {
    pub rs: u8,
    pub rt: u8,
    pub rd: u8,
    pub sa: u8,
    pub number: u8,
    pub number_at: u8,
}

/// The lowest bit of each field of 5 bits.
pub const RS_AT: u8 = 21;

pub const RT_AT: u8 = 16;

pub const RD_AT: u8 = 11;

pub const SA_AT: u8 = 6;

// No fields, and a number of so many bits.
fn number_alone(number: u8, number_at: u8) -> Widths
    ensures { result ≡ law.widths 0 0 0 0 number number_at }
{
    Widths {
        rs: 0,
        rt: 0,
        rd: 0,
        sa: 0,
        number,
        number_at,
    }
}

// The registers that have a field, each of 5 bits or of none, and no number.
fn registers(rs: u8, rt: u8, rd: u8) -> Widths
    ensures { result ≡ law.widths rs rt rd 0 0 0 }
{
    Widths {
        rs,
        rt,
        rd,
        ..number_alone(0, 0)
    }
}

// The same beside a number in the low half of a word.
fn with_half(rs: u8, rt: u8) -> Widths
    ensures { result ≡ law.widths rs rt 0 0 16 0 }
{
    Widths {
        rs,
        rt,
        ..number_alone(16, 0)
    }
}

/// The widths of a form's fields.
pub fn widths_of(form: Form) -> Widths
    ensures value { result ≡ law.widths_of form }
    ensures in_word { law.AreSmall result }
{
    match form {
        Form::Target | Form::CoprocessorNumber => number_alone(26, 0),
        Form::Code => number_alone(20, 6),
        Form::NoOperands => registers(0, 0, 0),
        Form::CompareBranch
        | Form::SignedImmediate
        | Form::UnsignedImmediate
        | Form::Memory
        | Form::CacheOperation
        | Form::CoprocessorMemory => with_half(5, 5),
        Form::ZeroBranch | Form::TrapImmediate => with_half(5, 0),
        Form::UpperImmediate => with_half(0, 5),
        Form::TrapRegisters => Widths {
            rs: 5,
            rt: 5,
            ..number_alone(10, 6)
        },
        Form::Shift => Widths {
            sa: 5,
            ..registers(0, 5, 5)
        },
        Form::ShiftByRegister | Form::ThreeRegisters => registers(5, 5, 5),
        Form::Source => registers(5, 0, 0),
        Form::JumpAndLinkRegister => registers(5, 0, 5),
        Form::Destination => registers(0, 0, 5),
        Form::TwoSources => registers(5, 5, 0),
        Form::Cp0Move => registers(0, 5, 5),
    }
}
