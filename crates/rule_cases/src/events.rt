//! An event and its line.
//!
//! - `event "LINE"` is the event that is read of a line, or `none`: its kind, tick, attribute, quiet state, virtual and
//!   physical address, size and value, with the addresses and the value in hexadecimal.
//! - `line KIND TICK ATTRIBUTE QUIET VA PA SIZE VALUE` is the line that is written of such an event, or `outside` where the
//!   event is none of the grammar.

use crate::arguments::{number_at, text_of, word_at};
use access_trace::{Event, EventKind, is_event, print_event, read_event};
use r4_words::Line;
use std::alloc::{AllocError, Global};

/// Appends the answer of a verb, and says whether it is one of these.
pub fn put_answer(
    alloc: Global,
    verb: &str,
    arguments: &str,
    out: &mut String,
) -> Result<bool, AllocError> {
    match verb {
        "event" => put_event(text_of(alloc, arguments)?.as_slice(), out)?,
        "line" => put_line(arguments, out)?,
        _ => return Ok(false),
    }
    Ok(true)
}

fn name_of(kind: EventKind) -> &'static str {
    match kind {
        EventKind::Fetch => "fetch",
        EventKind::Load => "load",
        EventKind::Store => "store",
        EventKind::BeatIn => "beat-in",
        EventKind::BeatOut => "beat-out",
        EventKind::Cache => "cache",
    }
}

fn kind_of(name: &str) -> Option<EventKind> {
    match name {
        "fetch" => Some(EventKind::Fetch),
        "load" => Some(EventKind::Load),
        "store" => Some(EventKind::Store),
        "beat-in" => Some(EventKind::BeatIn),
        "beat-out" => Some(EventKind::BeatOut),
        "cache" => Some(EventKind::Cache),
        _ => None,
    }
}

// Appends the event of a line.
fn put_event(line: &[u8], out: &mut String) -> Result<(), AllocError> {
    let Some(event) = read_event(line) else {
        return out.push_str("none");
    };
    let attribute = if event.cached { "cached" } else { "uncached" };
    let quiet = if event.quiet { "quiet" } else { "busy" };
    write!(
        out,
        "{} {} {attribute} {quiet} ",
        name_of(event.kind),
        event.tick
    )?;
    write!(
        out,
        "{:x} {:x} {} {:x}",
        event.va, event.pa, event.size, event.value
    )
}

fn event_at(arguments: &str) -> Option<Event> {
    Some(Event {
        kind: kind_of(word_at(arguments, 0))?,
        tick: word_at(arguments, 1).parse::<u32>().ok()?,
        cached: word_at(arguments, 2) == "cached",
        quiet: word_at(arguments, 3) == "quiet",
        va: u32::try_from(number_at(arguments, 4)?).ok()?,
        pa: number_at(arguments, 5)?,
        size: word_at(arguments, 6).parse::<u8>().ok()?,
        value: number_at(arguments, 7)?,
    })
}

// Appends the line of an event.
fn put_line(arguments: &str, out: &mut String) -> Result<(), AllocError> {
    let Some(event) = event_at(arguments) else {
        return out.push_str("?");
    };
    if !is_event(&event) {
        return out.push_str("outside");
    }
    let mut line = Line::new();
    print_event(&event, &mut line);
    out.push_str(std::str::from_utf8(line.as_slice()).unwrap_or("?"))
}
