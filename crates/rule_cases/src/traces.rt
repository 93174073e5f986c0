//! A whole trace.
//!
//! - `trace "LINES"` is `events` with the ticks of the events that are read of a trace, or `bad` with the number of its first
//!   bad line.
//! - `reader "LINES"` is the same, read event by event: each tick, and `end` or `bad` with the number of the bad line, asked
//!   twice.

use crate::arguments::text_of;
use access_trace::{BadLine, Event, TraceFault, TraceReader, read_trace};
use std::alloc::{AllocError, Global};

/// Appends the answer of a verb, and says whether it is one of these.
pub fn put_answer(
    alloc: Global,
    verb: &str,
    arguments: &str,
    out: &mut String,
) -> Result<bool, AllocError> {
    match verb {
        "trace" => put_trace(alloc, text_of(alloc, arguments)?.as_slice(), out)?,
        "reader" => put_reader(text_of(alloc, arguments)?.as_slice(), out)?,
        _ => return Ok(false),
    }
    Ok(true)
}

// Appends the events of a trace.
fn put_trace(alloc: Global, text: &[u8], out: &mut String) -> Result<(), AllocError> {
    if text.len() > 4294967294 {
        return out.push_str("?");
    }
    match read_trace(alloc, text) {
        Ok(events) => put_ticks(events.as_slice(), out),
        Err(TraceFault::BadLine { line }) => write!(out, "bad {line}"),
        Err(TraceFault::Memory) => out.push_str("memory"),
    }
}

fn put_ticks(events: &[Event], out: &mut String) -> Result<(), AllocError> {
    out.push_str("events")?;
    for event in events {
        write!(out, " {}", event.tick)?;
    }
    Ok(())
}

// Appends what a reader gives, and its last answer a second time.
fn put_reader(text: &[u8], out: &mut String) -> Result<(), AllocError> {
    if text.len() > 4294967294 {
        return out.push_str("?");
    }
    let mut reader = TraceReader::new(text);
    while let Ok(Some(event)) = reader.next_event() {
        write!(out, "{} ", event.tick)?;
    }
    put_last(reader.next_event(), out)?;
    out.push_str(" ")?;
    put_last(reader.next_event(), out)
}

fn put_last(answer: Result<Option<Event>, BadLine>, out: &mut String) -> Result<(), AllocError> {
    match answer {
        Ok(Some(event)) => write!(out, "{}", event.tick),
        Ok(None) => out.push_str("end"),
        Err(bad) => write!(out, "bad {}", bad.line),
    }
}
