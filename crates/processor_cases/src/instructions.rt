//! What instructions do: the verbs of mips3_exec. `effect WORD NAME=VALUE ..` is the effect of the word's instruction where
//! the registers of these names, hi, lo and pc have these values, and the others are zero. `loaded` is the register after
//! a load that read the bytes of the name `bytes`, and `stored` the bytes that a store writes. Words and values are
//! hexadecimal. An answer begins with the text of the instruction.

ghost use Rattle.std.specs.Prelude.{◌<◌, ◌^◌, IfSome, IsTrue};
ghost use Rattle.mips3_table.specs.Instructions.{IsInst};

use crate::arguments::word_at;
use mips_text::{print_inst, register_of};
use mips3_alu::Regs;
use mips3_code::decode;
use mips3_exec::{Effect, Touch, effect, is_aligned, loaded, stored};
use mips3_table::{Inst, name_of};
use r4_words::Line;
use std::alloc::AllocError;

// The names of the registers, by number.
const NAMES: &str = "zero at v0 v1 a0 a1 a2 a3 t0 t1 t2 t3 t4 t5 t6 t7 \
                     s0 s1 s2 s3 s4 s5 s6 s7 t8 t9 k0 k1 gp sp s8 ra";

// What an instruction finds.
#[derive(Clone, Copy)]
struct Scene {
    regs: Regs,
    pc: u32,
    bytes: u64,
}

/// Appends the answer of a verb, and says whether it is one of these.
pub fn put_answer(verb: &str, arguments: &str, out: &mut String) -> Result<bool, AllocError> {
    if verb != "effect" && verb != "loaded" && verb != "stored" {
        return Ok(false);
    }
    match (instruction_of(arguments), scene_of(arguments)) {
        (Some(inst), Some(scene)) => put_case(verb, &inst, &scene, out)?,
        _ => out.push_str("?")?,
    }
    Ok(true)
}

// The instruction of a case's word.
fn instruction_of(arguments: &str) -> Option<Inst>
    ensures { IfSome result IsInst }
{
    let word = u32::from_str_radix(word_at(arguments, 0), 16).ok()?;
    decode(word)
}

// The values of a case, behind its word.
fn scene_of(arguments: &str) -> Option<Scene> {
    let mut scene = Scene {
        regs: Regs {
            r: [0; 32],
            hi: 0,
            lo: 0,
        },
        pc: 0,
        bytes: 0,
    };
    for word in arguments.split(' ').skip(1) {
        let (name, digits) = word.split_once('=')?;
        let value = u64::from_str_radix(digits, 16).ok()?;
        set(&mut scene, name, value)?;
    }
    Some(scene)
}

// Sets the value of a name.
fn set(scene: &mut Scene, name: &str, value: u64) -> Option<()> {
    match name {
        "hi" => scene.regs.hi = value,
        "lo" => scene.regs.lo = value,
        "pc" => scene.pc = u32::try_from(value).ok()?,
        "bytes" => scene.bytes = value,
        _ => scene.regs.write(register_of(name.as_bytes())?, value),
    }
    Some(())
}

// Appends the text of an instruction, and what came.
fn put_case(verb: &str, inst: &Inst, scene: &Scene, out: &mut String) -> Result<(), AllocError>
    requires { IsInst inst.now }
{
    put_instruction(inst, scene.pc, out)?;
    out.push_str(": ")?;
    match verb {
        "effect" => put_effect(inst, scene, out),
        "loaded" => put_loaded(inst, scene, out),
        _ => put_stored(inst, scene, out),
    }
}

// Appends the text of an instruction at an address.
fn put_instruction(inst: &Inst, at: u32, out: &mut String) -> Result<(), AllocError>
    requires { IsInst inst.now }
{
    let mut line = Line::new();
    print_inst(inst, at, &mut line);
    out.push_str(std::str::from_utf8(line.as_slice()).unwrap_or("?"))
}

/// Appends the text of a word's instruction at an address.
pub fn put_text(word: u32, at: u32, out: &mut String) -> Result<(), AllocError> {
    match decode(word) {
        Some(inst) => put_instruction(&inst, at, out),
        None => out.push_str("reserved"),
    }
}

/// The name of a register.
pub fn register_name(register: u8) -> &'static str {
    NAMES.split(' ').nth(usize::from(register)).unwrap_or("?")
}

// Appends an effect.
fn put_effect(inst: &Inst, scene: &Scene, out: &mut String) -> Result<(), AllocError>
    requires { IsInst inst.now }
{
    match effect(inst, &scene.regs, scene.pc) {
        Effect::Nothing => out.push_str("nothing"),
        Effect::Set { reg, value } => write!(out, "{} <- {value:016x}", register_name(reg)),
        Effect::HiLo { hi, lo } => write!(out, "hi <- {hi:016x}, lo <- {lo:016x}"),
        Effect::Jump {
            taken,
            likely,
            target,
            link,
            value,
        } => {
            put_target(taken, likely, target, out)?;
            put_link(link, value, out)
        }
        Effect::Touch {
            kind,
            va,
            first,
            size,
            reg,
        } => {
            put_kind(kind, reg, out)?;
            write!(out, " at {va:08x}: {size} from {first:08x}")?;
            out.push_str(if is_aligned(first, size) {
                ""
            } else {
                ", misaligned"
            })
        }
        Effect::System { row } => write!(out, "left to {}", name_of(row)),
        Effect::Raise { code, unit } => write!(out, "exception {code}, unit {unit}"),
    }
}

// Appends whether a jump or a branch is taken, whether it is likely, and where it goes.
fn put_target(taken: bool, likely: bool, target: u32, out: &mut String) -> Result<(), AllocError> {
    out.push_str(if likely { "likely, " } else { "" })?;
    out.push_str(if taken { "goes to " } else { "does not go to " })?;
    write!(out, "{target:08x}")
}

// Appends a link, where there is one.
fn put_link(link: u8, value: u64, out: &mut String) -> Result<(), AllocError> {
    if link == 0 && value == 0 {
        return Ok(());
    }
    write!(out, ", {} <- {value:016x}", register_name(link))
}

// Appends the kind of an access, and its register or its code.
fn put_kind(kind: Touch, reg: u8, out: &mut String) -> Result<(), AllocError> {
    match kind {
        Touch::Load => write!(out, "load {}", register_name(reg)),
        Touch::Link => write!(out, "load and link {}", register_name(reg)),
        Touch::Store => write!(out, "store {}", register_name(reg)),
        Touch::Cond => write!(out, "store if linked {}", register_name(reg)),
        Touch::Cache => write!(out, "cache {reg}"),
    }
}

// Whether a number has at most so many bytes.
fn fits(number: u64, size: u8) -> bool
    ensures { IsTrue result → number < 256 ^ size }
{
    match size {
        1 => number < 0x100,
        2 => number < 0x1_0000,
        3 => number < 0x100_0000,
        4 => number < 0x1_0000_0000,
        5 => number < 0x100_0000_0000,
        6 => number < 0x1_0000_0000_0000,
        7 => number < 0x100_0000_0000_0000,
        8 => true,
        _ => false,
    }
}

// Appends the register after a load.
fn put_loaded(inst: &Inst, scene: &Scene, out: &mut String) -> Result<(), AllocError>
    requires { IsInst inst.now }
{
    match effect(inst, &scene.regs, scene.pc) {
        Effect::Touch {
            kind: Touch::Load | Touch::Link,
            va,
            size,
            reg,
            ..
        } if fits(scene.bytes, size) => {
            let value = loaded(inst, scene.regs.read(reg), va, scene.bytes);
            write!(out, "{} <- {value:016x}", register_name(reg))
        }
        _ => out.push_str("?"),
    }
}

// Appends the bytes of a store.
fn put_stored(inst: &Inst, scene: &Scene, out: &mut String) -> Result<(), AllocError>
    requires { IsInst inst.now }
{
    match effect(inst, &scene.regs, scene.pc) {
        Effect::Touch {
            kind: Touch::Store | Touch::Cond,
            va,
            first,
            size,
            reg,
        } => {
            let bytes = stored(inst, scene.regs.read(reg), va);
            let digits = usize::from(size) * 2;
            write!(out, "{first:08x} <- {bytes:0digits$x}")
        }
        _ => out.push_str("?"),
    }
}
