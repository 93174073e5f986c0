//! The arithmetic of the integer instructions: the verb of mips3_alu. `alu FUNCTION A B` is the function without the
//! `alu_` before its name at two registers, of which the second is the amount of a shift.

use crate::arguments::{register_at, word_at};
use mips3_alu::*;
use std::alloc::AllocError;

// What a function gives.
#[derive(Drop)]
enum Computed {
    Register(u64),
    Overflow,
    Both(Halves),
}

/// Appends the answer of a verb, and says whether it is this one.
pub fn put_answer(verb: &str, arguments: &str, out: &mut String) -> Result<bool, AllocError> {
    if verb != "alu" {
        return Ok(false);
    }
    match result_of(arguments) {
        Some(Computed::Register(register)) => write!(out, "{register:016x}")?,
        Some(Computed::Overflow) => out.push_str("overflow")?,
        Some(Computed::Both(halves)) => write!(out, "hi {:016x} lo {:016x}", halves.hi, halves.lo)?,
        None => out.push_str("?")?,
    }
    Ok(true)
}

fn result_of(arguments: &str) -> Option<Computed> {
    let name = word_at(arguments, 0);
    let (a, b) = (register_at(arguments, 1)?, register_at(arguments, 2)?);
    let other = plain(name, a, b)
        .or(shifted(name, a, b))
        .map(Computed::Register);
    other
        .or(checked(name, a, b))
        .or(both(name, a, b).map(Computed::Both))
}

// The functions that always give one register.
fn plain(name: &str, a: u64, b: u64) -> Option<u64> {
    let register = match name {
        "addu" => alu_addu(a, b),
        "subu" => alu_subu(a, b),
        "daddu" => alu_daddu(a, b),
        "dsubu" => alu_dsubu(a, b),
        "and" => alu_and(a, b),
        "or" => alu_or(a, b),
        "xor" => alu_xor(a, b),
        "nor" => alu_nor(a, b),
        "slt" => alu_slt(a, b),
        "sltu" => alu_sltu(a, b),
        _ => return None,
    };
    Some(register)
}

// The shifts, where the amount is one.
fn shifted(name: &str, value: u64, amount: u64) -> Option<u64> {
    let amount = u32::try_from(amount).ok()?;
    match name {
        "sll" if amount < 32 => Some(alu_sll(value, amount)),
        "srl" if amount < 32 => Some(alu_srl(value, amount)),
        "sra" if amount < 32 => Some(alu_sra(value, amount)),
        "dsll" if amount < 64 => Some(alu_dsll(value, amount)),
        "dsrl" if amount < 64 => Some(alu_dsrl(value, amount)),
        "dsra" if amount < 64 => Some(alu_dsra(value, amount)),
        _ => None,
    }
}

// The functions that may overflow.
fn checked(name: &str, a: u64, b: u64) -> Option<Computed> {
    let register = match name {
        "add" => alu_add(a, b),
        "sub" => alu_sub(a, b),
        "dadd" => alu_dadd(a, b),
        "dsub" => alu_dsub(a, b),
        _ => return None,
    };
    Some(register.map_or(Computed::Overflow, Computed::Register))
}

// The functions that give HI and LO.
fn both(name: &str, a: u64, b: u64) -> Option<Halves> {
    let halves = match name {
        "mult" => alu_mult(a, b),
        "multu" => alu_multu(a, b),
        "dmult" => alu_dmult(a, b),
        "dmultu" => alu_dmultu(a, b),
        "div" => alu_div(a, b),
        "divu" => alu_divu(a, b),
        "ddiv" => alu_ddiv(a, b),
        "ddivu" => alu_ddivu(a, b),
        _ => return None,
    };
    Some(halves)
}
