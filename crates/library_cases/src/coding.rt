//! Words as instructions, and targets: the verbs of mips3_code.

ghost use Rattle.std.specs.Prelude.{◌<◌};

use crate::arguments::{put_hexadecimal, word_number_at};
use crate::listings;
use crate::scene::Scene;
use mips3_code::{branch_distance, branch_target, decode, encode, jump_number, jump_target};
use mips3_table::{Inst, name_of};
use std::alloc::{AllocError, Global};

/// Appends the answer of a verb.
pub fn put_answer(
    alloc: Global,
    scene: &mut Scene,
    verb: &str,
    arguments: &str,
    out: &mut String,
) -> Result<(), AllocError> {
    let first = word_number_at(arguments, 0);
    let second = word_number_at(arguments, 1);
    match verb {
        "decode" => put_decoded(first, out),
        "encode" => put_encoded(first, out),
        "branch_target" => put_hexadecimal(branch_goes(first, second), "?", out),
        "jump_target" => put_hexadecimal(jump_goes(first, second), "?", out),
        "branch_distance" => put_hexadecimal(branch_reach(first, second), "none", out),
        "jump_number" => put_hexadecimal(jump_reach(first, second), "none", out),
        _ => listings::put_answer(alloc, scene, verb, arguments, out),
    }
}

fn put_inst(inst: &Inst, out: &mut String) -> Result<(), AllocError>
    requires { inst.now.row < 129 }
{
    let name = name_of(inst.row);
    write!(
        out,
        "{name} {} {} {} {} ",
        inst.rs, inst.rt, inst.rd, inst.sa
    )?;
    write!(out, "{:#x}", inst.imm)
}

// Appends the instruction of a word: its name, rs, rt, rd, sa and the number.
fn put_decoded(word: Option<u32>, out: &mut String) -> Result<(), AllocError> {
    match word {
        Some(word) => match decode(word) {
            Some(inst) => put_inst(&inst, out),
            None => out.push_str("none"),
        },
        None => out.push_str("?"),
    }
}

// Appends the word of the instruction of a word.
fn put_encoded(word: Option<u32>, out: &mut String) -> Result<(), AllocError> {
    match word {
        Some(word) => match decode(word) {
            Some(inst) => write!(out, "{:#010x}", encode(&inst)),
            None => out.push_str("none"),
        },
        None => out.push_str("?"),
    }
}

fn branch_goes(at: Option<u32>, distance: Option<u32>) -> Option<u64> {
    match distance? {
        distance if distance < 0x1_0000 => Some(u64::from(branch_target(at?, distance))),
        _ => None,
    }
}

fn jump_goes(at: Option<u32>, number: Option<u32>) -> Option<u64> {
    match number? {
        number if number < 0x400_0000 => Some(u64::from(jump_target(at?, number))),
        _ => None,
    }
}

fn branch_reach(at: Option<u32>, target: Option<u32>) -> Option<u64> {
    Some(u64::from(branch_distance(at?, target?)?))
}

fn jump_reach(at: Option<u32>, target: Option<u32>) -> Option<u64> {
    Some(u64::from(jump_number(at?, target?)?))
}
