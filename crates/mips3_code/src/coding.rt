//! The table read both ways: a word as an instruction, and an instruction as a word.

ghost use Rattle.std.specs.Prelude.{◌≡◌, ◌<◌, ◌≤◌, ◌↔◌, IsNone, IfSome};
ghost use Rattle.mips3_table.specs.Matching.{match_in, row_of};
ghost use Rattle.mips3_table.specs.Instructions.{IsInst};
ghost use Rattle.mips3_code.specs.Coding.{HasNoUnused, decoded, encoded, with_fields};

use crate::fields::{fields_in, fields_of};
use mips3_table::{
    Class, Form, Inst, class_of, cop0_function_rows, cop0_move_rows, opcode_rows, regimm_rows,
    special_rows,
};

macro_rules! instruction_of_match {
    (($word:expr), $mask:literal, $($number:literal $name:literal $match:literal $width:literal $form:ident $operation:expr,)*) => {
        match $word & $mask {
            $($match => Some(fields_in(Form::$form, $number, $word)),)*
            _ => None,
        }
    };
}

macro_rules! word_of_row {
    (($inst:expr), $mask:literal, $($number:literal $name:literal $match:literal $width:literal $form:ident $operation:expr,)*) => {
        match $inst.row {
            $($number => $match + fields_of(Form::$form, $inst),)*
            _ => unreachable!(),
        }
    };
}

/// The instruction of a word: its row, with the fields of the row's operands. A reserved word has none.
pub fn decode(word: u32) -> Option<Inst>
    ensures value { result ≡ decoded word }
    ensures reserved { IsNone result ↔ IsNone (row_of word) }
    ensures in_range { IfSome result IsInst }
    ensures encoded { IfSome result (λ inst. HasNoUnused word inst.row → encoded inst ≡ word) }
{
    instruction_of(word)
}

/// The word of an instruction. Its unused bits are zero.
pub fn encode(inst: &Inst) -> u32
    requires { IsInst inst.now }
    ensures value { result ≡ encoded inst.now }
    ensures decoded { decoded result ≡ Some inst.now }
    ensures unused { HasNoUnused result inst.now.row }
{
    word_of(inst)
}

#[tactic(auto, using(mips3_table::proofs::ByClass::row_of_in), unfolding(crate::specs::Coding::decoded))]
fn instruction_of(word: u32) -> Option<Inst>
    ensures { result ≡ decoded word }
{
    match class_of(word) {
        Class::Opcode => decode_opcode(word),
        Class::Special => decode_special(word),
        Class::Regimm => decode_regimm(word),
        Class::Cop0Move => decode_cop0_move(word),
        Class::Cop0Function => decode_cop0_function(word),
    }
}

fn word_of(inst: &Inst) -> u32
    requires { IsInst inst.now }
    ensures { result ≡ encoded inst.now }
{
    match inst.row {
        0..=53 => encode_opcode(inst),
        54..=105 => encode_special(inst),
        106..=119 => encode_regimm(inst),
        120..=123 => encode_cop0_move(inst),
        _ => encode_cop0_function(inst),
    }
}

#[tactic(auto, unfolding(mips3_table::specs::Rows::row_at, mips3_table::specs::Rows::rows, mips3_table::specs::Matching::match_in))]
fn decode_opcode(word: u32) -> Option<Inst>
    ensures { result ≡ with_fields word (match_in Class.Opcode word) }
{
    opcode_rows!(instruction_of_match, word)
}

#[tactic(auto, unfolding(mips3_table::specs::Rows::row_at, mips3_table::specs::Rows::rows, mips3_table::specs::Matching::match_in))]
fn decode_special(word: u32) -> Option<Inst>
    ensures { result ≡ with_fields word (match_in Class.Special word) }
{
    special_rows!(instruction_of_match, word)
}

#[tactic(auto, unfolding(mips3_table::specs::Rows::row_at, mips3_table::specs::Rows::rows, mips3_table::specs::Matching::match_in))]
fn decode_regimm(word: u32) -> Option<Inst>
    ensures { result ≡ with_fields word (match_in Class.Regimm word) }
{
    regimm_rows!(instruction_of_match, word)
}

#[tactic(auto, unfolding(mips3_table::specs::Rows::row_at, mips3_table::specs::Rows::rows, mips3_table::specs::Matching::match_in))]
fn decode_cop0_move(word: u32) -> Option<Inst>
    ensures { result ≡ with_fields word (match_in Class.Cop0Move word) }
{
    cop0_move_rows!(instruction_of_match, word)
}

#[tactic(auto, unfolding(mips3_table::specs::Rows::row_at, mips3_table::specs::Rows::rows, mips3_table::specs::Matching::match_in))]
fn decode_cop0_function(word: u32) -> Option<Inst>
    ensures { result ≡ with_fields word (match_in Class.Cop0Function word) }
{
    cop0_function_rows!(instruction_of_match, word)
}

#[tactic(auto, unfolding(mips3_table::specs::Rows::row_at, mips3_table::specs::Rows::rows, crate::specs::Coding::encoded))]
fn encode_opcode(inst: &Inst) -> u32
    requires fields { IsInst inst.now }
    requires to { inst.now.row < 54 }
    ensures { result ≡ encoded inst.now }
{
    opcode_rows!(word_of_row, inst)
}

#[tactic(auto, unfolding(mips3_table::specs::Rows::row_at, mips3_table::specs::Rows::rows, crate::specs::Coding::encoded))]
fn encode_special(inst: &Inst) -> u32
    requires fields { IsInst inst.now }
    requires from { 54 ≤ inst.now.row }
    requires to { inst.now.row < 106 }
    ensures { result ≡ encoded inst.now }
{
    special_rows!(word_of_row, inst)
}

#[tactic(auto, unfolding(mips3_table::specs::Rows::row_at, mips3_table::specs::Rows::rows, crate::specs::Coding::encoded))]
fn encode_regimm(inst: &Inst) -> u32
    requires fields { IsInst inst.now }
    requires from { 106 ≤ inst.now.row }
    requires to { inst.now.row < 120 }
    ensures { result ≡ encoded inst.now }
{
    regimm_rows!(word_of_row, inst)
}

#[tactic(auto, unfolding(mips3_table::specs::Rows::row_at, mips3_table::specs::Rows::rows, crate::specs::Coding::encoded))]
fn encode_cop0_move(inst: &Inst) -> u32
    requires fields { IsInst inst.now }
    requires from { 120 ≤ inst.now.row }
    requires to { inst.now.row < 124 }
    ensures { result ≡ encoded inst.now }
{
    cop0_move_rows!(word_of_row, inst)
}

#[tactic(auto, unfolding(mips3_table::specs::Rows::row_at, mips3_table::specs::Rows::rows, crate::specs::Coding::encoded))]
fn encode_cop0_function(inst: &Inst) -> u32
    requires fields { IsInst inst.now }
    requires from { 124 ≤ inst.now.row }
    ensures { result ≡ encoded inst.now }
{
    cop0_function_rows!(word_of_row, inst)
}
