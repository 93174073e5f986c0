//! The registers of CP0, exceptions and the link: the verb of cp0_regs, cp0_exceptions and ll_sc.
//!
//! `cp0 OPERATION; OPERATION; ..` plays operations from the reset of a machine whose Config is 00028243, and tells what the
//! last of them answered, and each register that it changed, as `cNUMBER VALUE`. The operations are:
//!
//! - `write cN VALUE` (MTC0), `read cN`, `lines LEVELS`, `tick COUNT`, and `tick_wired`, a tick that wrote Wired;
//! - `raise CODE UNIT ADDRESS REFILL PC SLOT`, where ADDRESS is `-` or an address, REFILL and SLOT are 0 or 1; and `eret`;
//! - `modes`, what the processor reads off the registers;
//! - `link ADDRESS`, `unlink` and `linked`.

ghost use Rattle.std.specs.Prelude.{◌≡◌, ◌<◌, IfSome, true};
ghost use Rattle.cp0_exceptions.specs.Causes.{IsRaised};

use crate::arguments::word_at;
use cp0_exceptions::{Raised, leave, raise};
use cp0_regs::{Cp0, Mode};
use ll_sc::Link;
use std::alloc::AllocError;

const CONFIG: u32 = 0x0002_8243;

// The processor's part that the operations change.
#[derive(Drop)]
struct Scene {
    cp0: Cp0,
    link: Link,
}

// What an operation answers.
#[derive(Drop)]
enum Answered {
    Nothing,
    Word(u32),
    Pc(u32),
    Modes,
    Linked(bool),
    Unknown,
}

/// Appends the answer of a verb, and says whether it is this one.
pub fn put_answer(verb: &str, arguments: &str, out: &mut String) -> Result<bool, AllocError> {
    if verb != "cp0" {
        return Ok(false);
    }
    let mut scene = Scene {
        cp0: Cp0::new(CONFIG),
        link: Link { set: false },
    };
    let mut before = words_of(&scene.cp0);
    let mut answered = Answered::Unknown;
    for operation in arguments.split(';') {
        before = words_of(&scene.cp0);
        answered = played(&mut scene, operation.trim()).unwrap_or(Answered::Unknown);
    }
    put_answered(&answered, &scene.cp0, out)?;
    put_changes(&before, &words_of(&scene.cp0), out)?;
    Ok(true)
}

// The registers by number.
fn words_of(cp0: &Cp0) -> [u32; 32] {
    let mut words = [0; 32];
    for number in 0..32u8 {
        words[number as usize] = cp0.read(number);
    }
    words
}

fn put_answered(answered: &Answered, cp0: &Cp0, out: &mut String) -> Result<(), AllocError> {
    match answered {
        Answered::Nothing => out.push_str("-"),
        Answered::Word(word) => write!(out, "{word:08x}"),
        Answered::Pc(pc) => write!(out, "pc {pc:08x}"),
        Answered::Modes => put_modes(cp0, out),
        Answered::Linked(linked) => write!(out, "{linked}"),
        Answered::Unknown => out.push_str("?"),
    }
}

fn put_modes(cp0: &Cp0, out: &mut String) -> Result<(), AllocError> {
    out.push_str(match cp0.mode() {
        Mode::Kernel => "kernel",
        Mode::Supervisor => "supervisor",
        Mode::User => "user",
    })?;
    out.push_str(if cp0.is_kernel() { "" } else { " restricted" })?;
    out.push_str(if cp0.has_coprocessor_0() {
        " usable"
    } else {
        " unusable"
    })?;
    out.push_str(if cp0.is_error_level() { " error" } else { "" })?;
    out.push_str(if cp0.is_quiet() { " quiet" } else { "" })?;
    out.push_str(if cp0.takes_interrupt() {
        " interrupted"
    } else {
        ""
    })?;
    write!(out, " asid {:02x} k0 {}", cp0.asid(), cp0.k0())?;
    write!(out, " random {} mask {:08x}", cp0.random(), cp0.page_mask())
}

// Appends each register that changed.
fn put_changes(before: &[u32; 32], after: &[u32; 32], out: &mut String) -> Result<(), AllocError> {
    for (number, (old, new)) in before.iter().zip(after.iter()).enumerate() {
        if old != new {
            write!(out, " c{number} {new:08x}")?;
        }
    }
    Ok(())
}

// Plays an operation, if it is one.
fn played(scene: &mut Scene, operation: &str) -> Option<Answered> {
    match word_at(operation, 0) {
        "write" => written(&mut scene.cp0, operation),
        "read" => Some(Answered::Word(scene.cp0.read(number_at(operation, 1)?))),
        "lines" => lined(&mut scene.cp0, operation),
        "tick" => ticked(&mut scene.cp0, operation),
        "raise" => raised(&mut scene.cp0, operation),
        "modes" => Some(Answered::Modes),
        other => played_alone(scene, other, operation),
    }
}

// Plays an operation that has no number, or of the link.
fn played_alone(scene: &mut Scene, verb: &str, operation: &str) -> Option<Answered> {
    match verb {
        "tick_wired" => {
            scene.cp0.count(true);
            Some(Answered::Nothing)
        }
        "eret" => Some(Answered::Pc(leave(&mut scene.cp0))),
        "link" => linked(scene, operation),
        "unlink" => {
            scene.link.clear();
            Some(Answered::Linked(scene.link.may_store()))
        }
        "linked" => Some(Answered::Linked(scene.link.may_store())),
        _ => None,
    }
}

// The number of a register, `c0` to `c31`.
fn number_at(operation: &str, index: usize) -> Option<u8>
    ensures { IfSome result (λ number. number < 32) }
{
    let number = word_at(operation, index)
        .strip_prefix("c")?
        .parse::<u8>()
        .ok()?;
    if number < 32 { Some(number) } else { None }
}

fn word_number_at(operation: &str, index: usize) -> Option<u32> {
    u32::from_str_radix(word_at(operation, index), 16).ok()
}

fn written(cp0: &mut Cp0, operation: &str) -> Option<Answered> {
    let number = number_at(operation, 1)?;
    let value = word_number_at(operation, 2)?;
    cp0.write(number, value);
    Some(Answered::Nothing)
}

fn lined(cp0: &mut Cp0, operation: &str) -> Option<Answered> {
    match word_number_at(operation, 1)? {
        levels if levels < 32 => {
            cp0.lines(levels as u8);
            Some(Answered::Nothing)
        }
        _ => None,
    }
}

fn ticked(cp0: &mut Cp0, operation: &str) -> Option<Answered> {
    let count = word_at(operation, 1).parse::<u32>().ok()?;
    for _ in 0..count {
        cp0.count(false);
    }
    Some(Answered::Nothing)
}

// The exception of these parts, if a cause has them.
fn raised_of(code: u8, unit: u8, bad: Option<u32>, refill: bool) -> Option<Raised>
    ensures { IfSome result (λ what. IsRaised what) }
{
    let what = Raised {
        code,
        unit,
        bad,
        refill,
    };
    let fits = match code {
        0 | 6..=13 => bad.is_none() && !refill,
        1 | 4 | 5 | 14 | 31 => bad.is_some() && !refill,
        2 | 3 => bad.is_some(),
        _ => false,
    };
    if fits && unit < 4 { Some(what) } else { None }
}

fn raised(cp0: &mut Cp0, operation: &str) -> Option<Answered> {
    let code = word_at(operation, 1).parse::<u8>().ok()?;
    let unit = word_at(operation, 2).parse::<u8>().ok()?;
    let bad = word_number_at(operation, 3);
    let refill = word_at(operation, 4) == "1";
    let pc = word_number_at(operation, 5)?;
    let slot = word_at(operation, 6) == "1";
    let what = raised_of(code, unit, bad, refill)?;
    Some(Answered::Pc(raise(cp0, &what, pc, slot)))
}

fn linked(scene: &mut Scene, operation: &str) -> Option<Answered> {
    let pa = u64::from_str_radix(word_at(operation, 1), 16).ok()?;
    if pa >= 0x10_0000_0000 {
        return None;
    }
    scene.link.mark(&mut scene.cp0, pa);
    Some(Answered::Linked(scene.link.may_store()))
}
