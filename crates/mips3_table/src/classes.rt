//! The classes of rows: which bits of a word number its row.

ghost use Rattle.std.specs.Prelude.{◌≡◌};
ghost use Rattle.mips3_table.specs.Matching.{class_of as class_of_word};

/// A class of rows. The rows of one class are told apart by one field of the word, whose value is the row's number
/// in the class (MIPS R4000 Microprocessor User's Manual, 2nd edition, figure A-2, "R4000 Opcode Bit Encoding",
/// has a table for each).
#[derive(Clone, Copy)]
pub enum Class {
    /// The number is the opcode, bits 31:26.
    Opcode,
    /// Opcode 0 (SPECIAL): the number is the function, bits 5:0.
    Special,
    /// Opcode 1 (REGIMM): the number stands in rt's place, bits 20:16.
    Regimm,
    /// Opcode 16 (COP0): the number stands in rs's place, bits 25:21.
    Cop0Move,
    /// Opcode 16 (COP0) with bit 25 set: the number is the function, bits 5:0.
    Cop0Function,
}

/// The class in which a word has its row, if it has one.
#[tactic(auto, unfolding(crate::specs::Matching::class_of))]
pub fn class_of(word: u32) -> Class
    ensures { result ≡ class_of_word word }
{
    match word >> 26 {
        0 => Class::Special,
        1 => Class::Regimm,
        16 if word >> 25 == 32 => Class::Cop0Move,
        16 => Class::Cop0Function,
        _ => Class::Opcode,
    }
}
