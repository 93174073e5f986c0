//! The operands of an instruction, as the form of its row gives them.

ghost use Rattle.std.specs.Prelude.{◌≡◌, ◌<◌, ◌%◌, ◌^◌, IsTrue};
ghost use Rattle.r4_words.specs.Words.{sext16 as sext16_of, sext32 as sext32_of};
ghost use Rattle.mips3_exec.specs.Operands as law;
ghost use Rattle.mips3_exec.specs.Ranges.{HasFields, amount_fits};

use mips3_alu::Regs;
use mips3_code::{branch_target, jump_target};
use mips3_table::{Amount, Form, Inst, Link, Width};
use r4_words::{sext16, sext32};

// A number of 16 bits in two's complement.
fn sign_extended(imm: u32) -> u64
    requires { imm < 2 ^ 16 }
    ensures { result ≡ sext32_of (sext16_of imm) }
{
    sext32(sext16(imm as u16))
}

// The low 32 bits.
pub fn low_word(value: u64) -> u32
    ensures { result ≡ value % 2 ^ 32 }
{
    (value % 0x1_0000_0000) as u32
}

// The form's number.
fn number(form: Form, inst: &Inst) -> u64
    requires { HasFields form inst.now }
    ensures { result ≡ law.number_of form inst.now }
{
    match form {
        Form::SignedImmediate | Form::TrapImmediate | Form::Memory | Form::CacheOperation => {
            sign_extended(inst.imm)
        }
        _ => u64::from(inst.imm),
    }
}

/// The second operand: the number of an immediate form, zero for a branch on one register, and else register rt.
pub fn second(form: Form, inst: &Inst, regs: &Regs) -> u64
    requires { HasFields form inst.now }
    ensures { result ≡ law.second_of form inst.now regs.now }
{
    match form {
        Form::SignedImmediate | Form::TrapImmediate => sign_extended(inst.imm),
        Form::UnsignedImmediate => u64::from(inst.imm),
        Form::ZeroBranch => 0,
        _ => regs.read(inst.rt),
    }
}

/// By how many bits a shift moves its operand.
pub fn amount(by: Amount, width: Width, inst: &Inst, regs: &Regs) -> u32
    requires rs { inst.now.rs < 32 }
    requires sa { inst.now.sa < 32 }
    requires within { IsTrue (amount_fits by width) }
    ensures value { result ≡ law.amount_of by width inst.now regs.now }
    ensures small { result < law.bits width }
{
    match by {
        Amount::InField => u32::from(inst.sa),
        Amount::InFieldPlus32 => u32::from(inst.sa) + 32,
        Amount::InRegister => match width {
            Width::Word => (regs.read(inst.rs) % 32) as u32,
            Width::Double => (regs.read(inst.rs) % 64) as u32,
        },
    }
}

/// The register that gets the result.
pub fn destination(form: Form, inst: &Inst) -> u8
    ensures { result ≡ law.destination_of form inst.now }
{
    match form {
        Form::Shift
        | Form::ShiftByRegister
        | Form::JumpAndLinkRegister
        | Form::Destination
        | Form::ThreeRegisters
        | Form::Cp0Move => inst.rd,
        _ => inst.rt,
    }
}

/// The address of a load, a store or a cache operation.
pub fn address(form: Form, inst: &Inst, regs: &Regs) -> u32
    requires { HasFields form inst.now }
    ensures { result ≡ law.address_of form inst.now regs.now }
{
    low_word(regs.read(inst.rs).wrapping_add(number(form, inst)))
}

/// Where a jump or a branch at pc goes.
pub fn target(form: Form, inst: &Inst, regs: &Regs, pc: u32) -> u32
    requires { HasFields form inst.now }
    ensures { result ≡ law.target_of form inst.now regs.now pc }
{
    match form {
        Form::Target => jump_target(pc, inst.imm),
        Form::CompareBranch | Form::ZeroBranch => branch_target(pc, inst.imm),
        _ => low_word(regs.read(inst.rs)),
    }
}

/// The register that gets the link, or 0.
pub fn link_register(link: Link, inst: &Inst) -> u8
    ensures { result ≡ law.link_register link inst.now }
{
    match link {
        Link::Unlinked => 0,
        Link::IntoRegister31 => 31,
        Link::IntoDestination => inst.rd,
    }
}

/// The link of a jump or a branch at pc, or 0.
#[tactic(auto, unfolding(mips3_alu::specs::Arithmetic::reduced))]
pub fn link_value(link: Link, pc: u32) -> u64
    ensures { result ≡ law.link_value link pc }
{
    match link {
        Link::Unlinked => 0,
        Link::IntoRegister31 | Link::IntoDestination => sext32(pc.wrapping_add(8)),
    }
}
