//! The fields of a form of operands, taken from a word and put at their places in one.

ghost use Rattle.std.specs.Prelude.{◌≡◌, ◌<◌, ◌≤◌, ◌*◌, ◌^◌};
ghost use Rattle.mips3_table.specs.Operands as law;
ghost use Rattle.mips3_table.specs.Instructions.{FitsWidths};
ghost use Rattle.mips3_code.specs.Coding.{fields_by, placed_by};

use mips3_table::{Form, Inst, RD_AT, RS_AT, RT_AT, SA_AT, widths_of};

/// The instruction of a row, with the fields of its form as they stand in the word.
pub fn fields_in(form: Form, row: u8, word: u32) -> Inst
    ensures { result ≡ fields_by (law.widths_of form) row word }
{
    let widths = widths_of(form);
    Inst {
        row,
        rs: register(word, RS_AT, widths.rs),
        rt: register(word, RT_AT, widths.rt),
        rd: register(word, RD_AT, widths.rd),
        sa: register(word, SA_AT, widths.sa),
        imm: bits_of(word, widths.number_at, widths.number),
    }
}

/// The bits of a word that hold the fields of an instruction of this form.
#[tactic(auto, using(crate::proofs::Placing::placed_below))]
pub fn fields_of(form: Form, inst: &Inst) -> u32
    requires { FitsWidths (law.widths_of form) inst.now }
    ensures value { result ≡ placed_by (law.widths_of form) inst.now }
    ensures below { result < 2 ^ 26 }
{
    let number_at = widths_of(form).number_at;
    let registers = placed(inst.rs, RS_AT) + placed(inst.rt, RT_AT) + placed(inst.rd, RD_AT);
    registers + placed(inst.sa, SA_AT) + placed_number(inst.imm, number_at)
}

/// What stands in so many bits of a word, from this one up.
fn bits_of(word: u32, low: u8, width: u8) -> u32
    requires low { low < 32 }
    requires width { width < 32 }
    ensures value { result ≡ law.bits_of word low width }
    ensures small { result < 2 ^ width }
{
    (word >> low) % (1 << width)
}

/// What stands in at most 5 bits of a word, from this one up.
fn register(word: u32, low: u8, width: u8) -> u8
    requires low { low < 32 }
    requires width { width ≤ 5 }
    ensures { result ≡ law.bits_of word low width }
{
    bits_of(word, low, width) as u8
}

/// A field of 5 bits at its place in a word.
#[tactic(auto, using(crate::proofs::Placing::shifted_field))]
fn placed(field: u8, low: u8) -> u32
    requires small { field < 32 }
    requires within { low ≤ 21 }
    ensures { result ≡ field * 2 ^ low }
{
    u32::from(field) << low
}

/// A form's number at its place in a word.
fn placed_number(number: u32, low: u8) -> u32
    requires low { low < 32 }
    requires within { number * 2 ^ low < 2 ^ 32 }
    ensures { result ≡ number * 2 ^ low }
{
    number << low
}
