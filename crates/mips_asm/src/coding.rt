//! The bytes of statements.

ghost use Rattle.std.specs.Prelude.{◌≡◌, ℕ, List, ◌<◌, ◌+◌, ◌%◌, ◌^◌, ◌++◌, ◌/◌, [], OnOk, unwrap_or};
ghost use Rattle.flat_ram.specs.Bytes.{bytes_of, zeros_of};
ghost use Rattle.mips3_table.specs.Instructions.{IsInst};
ghost use Rattle.mips_text.specs.Coded as law;
ghost use Rattle.mips_text.specs.Coded.{label_at};
ghost use Rattle.mips_text.specs.Line as line;
ghost use Rattle.mips_asm.specs.Shown.{IsAppended, IsCoded, IsSound, NeedsNoLabel, word_shown};

use crate::labels::Labels;
use crate::layout::padding;
use crate::named_rows::{lui_row, ori_row};
use crate::operands::bare;
use mips_text::{AsmWhy, Item, Target};
use mips3_code::{branch_distance, encode, jump_number};
use mips3_table::Inst;
use std::alloc::AllocError;

/// Why the bytes of a statement were not appended.
pub enum Stop {
    /// The statement has none, for this reason.
    Lacks(AsmWhy),
    /// Want of memory.
    Memory,
}

impl From<AllocError> for Stop {
    ghost use Rattle.mips_asm.specs.declared.coding.Stop.TheVariants.{Memory};

    ghost from_gives = { λ _ e. e ≡ Memory };

    fn from(_error: AllocError) -> Stop {
        Stop::Memory
    }
}

/// Appends a word, its high byte first.
fn put_word(word: u32, bytes: &mut Vec<u8>) -> Result<(), AllocError>
    ensures { OnOk result (bytes.new.items ≡ bytes.old.items ++ bytes_of word) }
{
    bytes.extend_from_slice(&word.to_be_bytes())
}

/// Appends zeros.
#[tactic(auto, unfolding(flat_ram::specs::Bytes::zeros_of))]
fn put_zeros(count: usize, bytes: &mut Vec<u8>) -> Result<(), AllocError>
    ensures { OnOk result (bytes.new.items ≡ bytes.old.items ++ zeros_of count) }
{
    for _step in 0..count {
        bytes.push(0)?;
    }
    Ok(())
}

/// The word of a branch at an address to a target that it reaches.
fn branch_word(inst: &Inst, at: u32, target: u32) -> Option<u32>
    requires { (number : ℕ) → number < 2 ^ 16 → IsInst (record inst.now { imm = number }) }
    ensures { word_shown result ≡ law.branch_to inst.now at target }
{
    match branch_distance(at, target) {
        Some(imm) => Some(encode(&Inst { imm, ..*inst })),
        None => None,
    }
}

/// The word of a jump at an address to a target that it reaches.
fn jump_word(inst: &Inst, at: u32, target: u32) -> Option<u32>
    requires { (number : ℕ) → number < 2 ^ 26 → IsInst (record inst.now { imm = number }) }
    ensures { word_shown result ≡ law.jump_to inst.now at target }
{
    match jump_number(at, target) {
        Some(imm) => Some(encode(&Inst { imm, ..*inst })),
        None => None,
    }
}

/// The instruction that loads the upper half of a register with that of a number.
fn upper_loading(register: u8, number: u32) -> Inst
    requires { register < 32 }
    ensures value { result ≡ record (line.bare line.lui_row) { rt = register; imm = number / 2 ^ 16 % 2 ^ 16 } }
    ensures is_inst { IsInst result }
{
    Inst {
        rt: register,
        imm: number >> 16,
        ..bare(lui_row())
    }
}

/// The instruction that loads the lower half.
fn lower_loading(register: u8, number: u32) -> Inst
    requires { register < 32 }
    ensures value { result ≡ record (line.bare line.ori_row) { rs = register; rt = register; imm = number % 2 ^ 16 } }
    ensures is_inst { IsInst result }
{
    Inst {
        rs: register,
        rt: register,
        imm: number % 0x1_0000,
        ..bare(ori_row())
    }
}

/// Appends the two instructions that load a register with a number.
#[tactic(auto, unfolding(mips_text::specs::Coded::loading))]
fn put_loading(register: u8, number: u32, bytes: &mut Vec<u8>) -> Result<(), AllocError>
    requires { register < 32 }
    ensures { OnOk result (bytes.new.items ≡ bytes.old.items ++ law.loading register number) }
{
    put_word(encode(&upper_loading(register, number)), bytes)?;
    put_word(encode(&lower_loading(register, number)), bytes)
}

/// Appends words.
fn put_words(words: &[u32], bytes: &mut Vec<u8>) -> Result<(), AllocError>
    ensures { OnOk result (bytes.new.items ≡ bytes.old.items ++ law.bytes_of_words words.now) }
{
    for word in words {
        put_word(*word, bytes)?;
    }
    Ok(())
}

/// The address of a target.
fn address_of(labels: &Labels, target: &Target) -> Option<u32>
    ensures { result ≡ law.address_of labels.now target.now }
{
    match target {
        Target::Address(address) => Some(*address),
        Target::Label(name) => labels.address_of(name.text()),
    }
}

/// Appends the word of an instruction that reaches its target, if there is one.
fn put_reached(word: Option<u32>, bytes: &mut Vec<u8>) -> Result<(), Stop>
    ensures { IsCoded (word_shown word) result bytes.old.items bytes.new.items }
{
    let Some(word) = word else {
        return Err(Stop::Lacks(AsmWhy::Range));
    };
    put_word(word, bytes)?;
    Ok(())
}

/// Appends a branch.
fn put_branch(
    labels: &Labels,
    at: u32,
    inst: &Inst,
    target: &Target,
    bytes: &mut Vec<u8>,
) -> Result<(), Stop>
    requires { (number : ℕ) → number < 2 ^ 16 → IsInst (record inst.now { imm = number }) }
    ensures { IsCoded (law.where_known (law.address_of labels.now target.now) (law.branch_to inst.now at)) result
        bytes.old.items bytes.new.items }
{
    let Some(address) = address_of(labels, target) else {
        return Err(Stop::Lacks(AsmWhy::NoLabel));
    };
    put_reached(branch_word(inst, at, address), bytes)
}

/// Appends a jump.
fn put_jump(
    labels: &Labels,
    at: u32,
    inst: &Inst,
    target: &Target,
    bytes: &mut Vec<u8>,
) -> Result<(), Stop>
    requires { (number : ℕ) → number < 2 ^ 26 → IsInst (record inst.now { imm = number }) }
    ensures { IsCoded (law.where_known (law.address_of labels.now target.now) (law.jump_to inst.now at)) result
        bytes.old.items bytes.new.items }
{
    let Some(address) = address_of(labels, target) else {
        return Err(Stop::Lacks(AsmWhy::NoLabel));
    };
    put_reached(jump_word(inst, at, address), bytes)
}

/// Appends the instructions that load a register with the address of a label.
fn put_label_loading(
    labels: &Labels,
    register: u8,
    name: &[u8],
    bytes: &mut Vec<u8>,
) -> Result<(), Stop>
    requires { register < 32 }
    ensures { IsCoded (law.where_known (label_at labels.now name.now) (λ number. law.Given (law.loading register number)))
        result bytes.old.items bytes.new.items }
{
    let Some(number) = labels.address_of(name) else {
        return Err(Stop::Lacks(AsmWhy::NoLabel));
    };
    put_loading(register, number, bytes)?;
    Ok(())
}

/// Appends what needs no label.
#[tactic(auto, unfolding(mips_text::specs::Coded::coded_at))]
fn put_plain(at: u64, item: &Item, bytes: &mut Vec<u8>) -> Result<(), AllocError>
    requires sound { IsSound item.now }
    requires plain { NeedsNoLabel item.now }
    ensures { (labels : List (List ℕ × ℕ)) →
        OnOk result (IsAppended (law.coded_at labels at item.now) bytes.old.items bytes.new.items) }
{
    match item {
        Item::Plain(inst) => put_word(encode(inst), bytes),
        Item::LoadNumber(register, number) => put_loading(*register, *number, bytes),
        Item::Words(words) => put_words(words.list(), bytes),
        Item::Bytes(list) => list.push_to(bytes),
        Item::Zeros(count) => put_zeros(*count as usize, bytes),
        Item::Origin(origin) => put_zeros(u64::from(*origin).saturating_sub(at) as usize, bytes),
        Item::Aligned(Some(power)) => put_zeros(padding(*power, at) as usize, bytes),
        Item::Aligned(None) => put_zeros(0, bytes),
        Item::BranchTo(..) | Item::JumpTo(..) | Item::LoadLabel(..) => unreachable!(),
    }
}

/// The address of 32 bits that an address past them is.
fn low_word(at: u64) -> u32
    ensures { result ≡ at % 2 ^ 32 }
{
    (at % 0x1_0000_0000) as u32
}

/// Appends the bytes of a statement at an address.
#[tactic(auto, unfolding(mips_text::specs::Coded::coded_at))]
pub fn put_item(labels: &Labels, at: u64, item: &Item, bytes: &mut Vec<u8>) -> Result<(), Stop>
    requires { IsSound item.now }
    ensures { IsCoded (law.coded_at labels.now at item.now) result bytes.old.items bytes.new.items }
{
    match item {
        Item::BranchTo(inst, target) => put_branch(labels, low_word(at), inst, target, bytes),
        Item::JumpTo(inst, target) => put_jump(labels, low_word(at), inst, target, bytes),
        Item::LoadLabel(register, name) => put_label_loading(labels, *register, name.text(), bytes),
        _ => {
            put_plain(at, item, bytes)?;
            Ok(())
        }
    }
}
