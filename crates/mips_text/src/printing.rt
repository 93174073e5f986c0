//! The printed text of an instruction.

ghost use Rattle.std.specs.Prelude.{◌≡◌, ◌<◌, ◌≤◌, ◌+◌, ◌*◌, ◌++◌, [], map, length};
ghost use Rattle.arrayvec.specs.ArrayVec.{array_vec_len};
ghost use Rattle.mips3_table.specs.Instructions.{IsInst};
ghost use Rattle.mips3_table.specs.Rows.{row_at};
ghost use Rattle.mips3_code.specs.Coding.{decoded, encoded};
ghost use Rattle.mips_text.specs.Printed.{AllFit, OperandFits, after_name, by_form, field_of as field_law, operand_text, text_of, with_commas, word_text};
ghost use Rattle.mips_text.specs.ReadBack.{ReadsAs, word_kept};

use crate::forms::operands_of;
use crate::operand::{Field, Operand};
use crate::writing::{put_based, put_cp0_register, put_hexadecimal, put_register, put_signed};
use mips3_code::{branch_target, decode, encode, jump_target};
use mips3_table::{Inst, form_of, name_of};
use r4_words::{Line, put_dec, put_text};

/// Prints an instruction at an address: the row's name, one blank, and the operands with commas between them; `nop`
/// for the word 0. Targets are printed as addresses, and so depend on `at`.
#[tactic(auto, using(crate::proofs::ReadBack::printed_is_read))]
pub fn print_inst(inst: &Inst, at: u32, out: &mut Line)
    requires inst { IsInst inst.now }
    requires empty { out.old.items ≡ [] }
    ensures text { out.new.items ≡ text_of inst.now at }
    ensures read_back { ReadsAs out.new.items at (encoded inst.now) }
{
    put_statement(inst, at, out);
}

/// Prints a word at an address: as its instruction, or as `.word` and its number where the word is reserved.
#[tactic(auto, using(crate::proofs::ReadReserved::reserved_is_read, std::proofs::lemmas::Grind::common_steps))]
pub fn print_word(word: u32, at: u32, out: &mut Line)
    requires empty { out.old.items ≡ [] }
    ensures text { out.new.items ≡ word_text word at }
    ensures read_back { ReadsAs out.new.items at (word_kept word (decoded word)) }
{
    match decode(word) {
        Some(inst) => print_inst(&inst, at, out),
        None => {
            put_text(b".word ", out);
            put_hexadecimal(word, out);
        }
    }
}

/// Appends the text of an instruction.
#[tactic(auto, unfolding(crate::specs::Printed::text_of))]
fn put_statement(inst: &Inst, at: u32, out: &mut Line)
    requires inst { IsInst inst.now }
    requires room { array_vec_len out.old ≤ 0 }
    ensures { out.new.items ≡ out.old.items ++ text_of inst.now at }
{
    if encode(inst) == 0 {
        put_text(b"nop", out);
    } else {
        put_row(inst, at, out);
    }
}

/// Appends the name of an instruction's row and its operands.
#[tactic(auto, using(crate::proofs::FormOperands::row_operands))]
fn put_row(inst: &Inst, at: u32, out: &mut Line)
    requires inst { IsInst inst.now }
    requires room { array_vec_len out.old ≤ 0 }
    ensures { let row = row_at inst.now.row in out.new.items ≡ out.old.items ++ by_form row.name row.form inst.now at }
{
    put_name(inst.row, out);
    put_operands(operands_of(form_of(inst.row)), inst, at, out);
}

/// Appends the name of a row.
#[tactic(auto, using(crate::proofs::RowNames::length_name))]
fn put_name(row: u8, out: &mut Line)
    requires row { row < 129 }
    requires room { array_vec_len out.old ≤ 0 }
    ensures items { out.new.items ≡ out.old.items ++ (row_at row).name }
    ensures len { array_vec_len out.new ≤ 8 }
{
    put_text(name_of(row).as_bytes(), out);
}

/// Appends what an operand says.
#[tactic(auto, using(std::proofs::lemmas::Grind::common_steps))]
fn put_operand(operand: Operand, inst: &Inst, at: u32, out: &mut Line)
    requires fits { OperandFits inst.now operand }
    requires room { array_vec_len out.old ≤ 72 }
    ensures items { out.new.items ≡ out.old.items ++ operand_text inst.now at operand }
    ensures len { array_vec_len out.new ≤ array_vec_len out.old + 27 }
{
    match operand {
        Operand::Register(field) => put_register(field_of(field, inst) as u8, out),
        Operand::Cp0Register => put_cp0_register(inst.rd, out),
        Operand::Decimal(field, _) => put_dec(u64::from(field_of(field, inst)), out),
        Operand::Hexadecimal(field, _) => put_hexadecimal(field_of(field, inst), out),
        Operand::Signed => put_signed(inst.imm, out),
        Operand::Based => put_based(inst.imm, inst.rs, out),
        Operand::BranchTarget => put_hexadecimal(branch_target(at, inst.imm), out),
        Operand::JumpTarget => put_hexadecimal(jump_target(at, inst.imm), out),
    }
}

/// Appends operands with commas between them.
#[tactic(auto, using(std::proofs::lemmas::Grind::common_steps))]
fn put_with_commas(operands: &[Operand], inst: &Inst, at: u32, out: &mut Line)
    requires fit { AllFit inst.now operands.now }
    requires room { array_vec_len out.old + 28 * length operands.now ≤ 100 }
    ensures { out.new.items ≡ out.old.items ++ with_commas (map (operand_text inst.now at) operands.now) }
{
    let [operand, more @ ..] = operands else {
        return;
    };
    put_operand(*operand, inst, at, out);
    if !more.is_empty() {
        put_text(b",", out);
        put_with_commas(more, inst, at, out);
    }
}

/// Appends operands after a name.
#[tactic(auto, using(std::proofs::lemmas::Grind::common_steps))]
fn put_operands(operands: &[Operand], inst: &Inst, at: u32, out: &mut Line)
    requires fit { AllFit inst.now operands.now }
    requires few { length operands.now ≤ 3 }
    requires room { array_vec_len out.old ≤ 8 }
    ensures { out.new.items ≡ out.old.items ++ after_name (map (operand_text inst.now at) operands.now) }
{
    if !operands.is_empty() {
        put_text(b" ", out);
        put_with_commas(operands, inst, at, out);
    }
}

/// What a field of an instruction has.
fn field_of(field: Field, inst: &Inst) -> u32
    ensures { result ≡ field_law field inst.now }
{
    match field {
        Field::Rs => u32::from(inst.rs),
        Field::Rt => u32::from(inst.rt),
        Field::Rd => u32::from(inst.rd),
        Field::Sa => u32::from(inst.sa),
        Field::Imm => inst.imm,
    }
}
