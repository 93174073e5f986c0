//! The verbs that move the machine with caches of the last `beside` on, tick by tick.
//!
//! - `step COUNT` makes so many ticks of it, also past a halt, and tells the answer of the last, as `tick` does of the flat machine.
//! - `events` tells the events of its last tick, as lines of the trace with a semicolon between two, or `none`.

use crate::arguments::count_at;
use crate::moving::put_end;
use access_trace::{Event, is_event, print_event};
use flat_bridge::Bench;
use mips3_exec::Tick;
use r4_words::Line;
use std::alloc::AllocError;

/// Appends the answer of a verb, and says whether it is one of these.
pub fn put_answer(
    bench: &mut Option<Bench>,
    verb: &str,
    arguments: &str,
    out: &mut String,
) -> Result<bool, AllocError> {
    match (verb, bench) {
        ("step", Some(bench)) => put_end(stepped(bench, arguments), out)?,
        ("events", Some(bench)) => put_events(bench, out)?,
        ("step" | "events", None) => out.push_str("?")?,
        _ => return Ok(false),
    }
    Ok(true)
}

// The answer of the last of so many ticks.
fn stepped(bench: &mut Bench, arguments: &str) -> Option<Tick> {
    let count = count_at(arguments, 0)?;
    let mut end = None;
    for _ in 0..count.min(1000) {
        if bench.ticks() >= 1000000 {
            return None;
        }
        end = Some(bench.tick());
    }
    end
}

fn put_events(bench: &Bench, out: &mut String) -> Result<(), AllocError> {
    let events = bench.events();
    let mut is_first = true;
    for event in events.list() {
        out.push_str(if is_first { "" } else { ";" })?;
        is_first = false;
        put_event(event, out)?;
    }
    out.push_str(if is_first { "none" } else { "" })
}

fn put_event(event: &Event, out: &mut String) -> Result<(), AllocError> {
    let mut line = Line::new();
    if is_event(event) {
        print_event(event, &mut line);
    }
    out.push_str(std::str::from_utf8(line.as_slice()).unwrap_or("?"))
}
