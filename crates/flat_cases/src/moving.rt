//! The verbs that move the flat machine on.
//!
//! - `tick COUNT` makes so many ticks, also past a halt, and tells the answer of the last.
//! - `run COUNT` makes up to so many ticks, and tells how the run ended.
//! - `pause fetch VA` and `pause data VA` make a pause.
//!
//! An answer is `ran`, `trapped CODE` or `halted CODE`; that of a pause is `paused`.

use crate::arguments::{count_at, number_at, word_at};
use flat_machine::Flat;
use mips3_exec::Tick;
use std::alloc::AllocError;

/// Appends the answer of a verb, and says whether it is one of these.
pub fn put_answer(
    flat: &mut Option<Flat>,
    verb: &str,
    arguments: &str,
    out: &mut String,
) -> Result<bool, AllocError> {
    if !matches!(verb, "tick" | "run" | "pause") {
        return Ok(false);
    }
    match flat {
        Some(flat) => put_moved(flat, verb, arguments, out)?,
        None => out.push_str("?")?,
    }
    Ok(true)
}

fn put_moved(
    flat: &mut Flat,
    verb: &str,
    arguments: &str,
    out: &mut String,
) -> Result<(), AllocError> {
    if verb == "pause" {
        return put_paused(flat, arguments, out);
    }
    let Some(count) = count_at(arguments, 0) else {
        return out.push_str("?");
    };
    let end = if verb == "tick" {
        ticked(flat, count)
    } else {
        run(flat, count)
    };
    put_end(end, out)
}

// The answer of the last of so many ticks.
fn ticked(flat: &mut Flat, count: u32) -> Option<Tick> {
    let mut end = None;
    for _ in 0..count.min(1000) {
        if flat.cpu.ticks >= 1000000 {
            return None;
        }
        end = Some(flat.tick());
    }
    end
}

// How a run ends.
fn run(flat: &mut Flat, count: u32) -> Option<Tick> {
    if flat.cpu.ticks >= 1000000 {
        return None;
    }
    Some(flat.run(count.min(1000000)))
}

/// Appends the answer of a tick, or of a run.
pub fn put_end(end: Option<Tick>, out: &mut String) -> Result<(), AllocError> {
    match end {
        Some(Tick::Ran) => out.push_str("ran"),
        Some(Tick::Trapped(code)) => write!(out, "trapped {code}"),
        Some(Tick::Halted(code)) => write!(out, "halted {code:08x}"),
        None => out.push_str("?"),
    }
}

fn put_paused(flat: &mut Flat, arguments: &str, out: &mut String) -> Result<(), AllocError> {
    let (fetch, va) = match (word_at(arguments, 0), number_at(arguments, 1)) {
        ("fetch", Some(va)) => (true, va),
        ("data", Some(va)) => (false, va),
        _ => return out.push_str("?"),
    };
    if flat.cpu.ticks >= 1000000 || flat.cpu.halt.is_some() {
        return out.push_str("?");
    }
    flat.pause(fetch, va);
    out.push_str("paused")
}
