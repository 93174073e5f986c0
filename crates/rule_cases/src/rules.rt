//! The rules of cache discipline and the verdict.
//!
//! - `rules SHAPE; EVENT; EVENT ..` is what the ledger of a machine of that shape answers to each event in turn: the rule that is
//!   broken, or `-`. An event is `load VA PA`, `store VA PA` or `fetch VA PA` through the caches, `load-past PA`, `store-past PA`
//!   or `fetch-past PA` past them, `beat-in PA`, `beat-out PA`, or `cache CODE VA PA TAGLO`; CODE is decimal, the other numbers
//!   are hexadecimal, and a TAGLO that is left out is 0.
//! - `touches SHAPE COUNT; EVENT` is how often the ledger's tables were touched when the event was held against the rules so many times.
//! - `judge SHAPE "LINES"` is the verdict on a trace, with the line of the event that it names.

ghost use Rattle.std.specs.Prelude.{◌≡◌, ◌<◌, ◌≤◌, ◌+◌, false, IfSome};
ghost use Rattle.access_trace.specs.Grammar.{IsEvent};

use crate::arguments::{number_at, text_of, word_at};
use access_trace::{Breach, Event, EventKind, Verdict, is_event, print_event, read_trace};
use r4_shape::{Shape, read_shape};
use r4_words::Line;
use rule_ledger::PcLedger;
use std::alloc::{AllocError, Global};
use trace_check::Judge;

/// Appends the answer of a verb, and says whether it is one of these.
pub fn put_answer(
    alloc: Global,
    verb: &str,
    arguments: &str,
    out: &mut String,
) -> Result<bool, AllocError> {
    match verb {
        "rules" => put_rules(alloc, arguments, out)?,
        "touches" => put_touches(alloc, arguments, out)?,
        "judge" => put_judged(alloc, arguments, out)?,
        _ => return Ok(false),
    }
    Ok(true)
}

// The shape of a name, of a machine without a secondary cache.
fn shape_of(name: &str) -> Option<Shape>
    ensures { IfSome result (λ shape. shape.sc ≡ false) }
{
    let shape = read_shape(name)?;
    if shape.sc() { None } else { Some(shape) }
}

fn name_of(breach: Breach) -> &'static str {
    match breach {
        Breach::Forge => "forge",
        Breach::Peek => "peek",
        Breach::Unquiet => "unquiet",
        Breach::Old => "old",
        Breach::Owed => "owed",
        Breach::Lost => "lost",
    }
}

// An access of one byte, or of a word for a fetch, through the caches.
fn cached(kind: EventKind, words: &str) -> Option<Event> {
    Some(Event {
        kind,
        cached: true,
        quiet: true,
        va: u32::try_from(number_at(words, 1)?).ok()?,
        pa: number_at(words, 2)?,
        size: size_of(kind),
        ..Event::default()
    })
}

// The same past them.
fn past(kind: EventKind, words: &str) -> Option<Event> {
    let pa = number_at(words, 1)?;
    Some(Event {
        kind,
        quiet: true,
        va: (pa % 4096) as u32,
        pa,
        size: size_of(kind),
        ..Event::default()
    })
}

fn size_of(kind: EventKind) -> u8 {
    match kind {
        EventKind::Fetch => 4,
        _ => 1,
    }
}

fn beat(kind: EventKind, words: &str) -> Option<Event> {
    Some(Event {
        kind,
        pa: number_at(words, 1)?,
        size: 32,
        ..Event::default()
    })
}

fn operation(words: &str) -> Option<Event> {
    Some(Event {
        kind: EventKind::Cache,
        cached: true,
        quiet: true,
        va: u32::try_from(number_at(words, 2)?).ok()?,
        pa: number_at(words, 3)?,
        size: word_at(words, 1).parse::<u8>().ok()?,
        value: number_at(words, 4).unwrap_or(0),
        ..Event::default()
    })
}

fn named(words: &str) -> Option<Event> {
    match word_at(words, 0) {
        "load" => cached(EventKind::Load, words),
        "store" => cached(EventKind::Store, words),
        "fetch" => cached(EventKind::Fetch, words),
        "load-past" => past(EventKind::Load, words),
        "store-past" => past(EventKind::Store, words),
        "fetch-past" => past(EventKind::Fetch, words),
        "beat-in" => beat(EventKind::BeatIn, words),
        "beat-out" => beat(EventKind::BeatOut, words),
        "cache" => operation(words),
        _ => None,
    }
}

// The event of the grammar that the words name.
fn event_of(words: &str) -> Option<Event>
    ensures { IfSome result IsEvent }
{
    let event = named(words)?;
    if is_event(&event) { Some(event) } else { None }
}

// Appends what the ledger answers to an event.
fn put_step(ledger: &mut PcLedger, words: &str, out: &mut String) -> Result<(), AllocError>
    requires { ledger.old.steps < 1000000 }
    ensures { ledger.new.steps ≤ ledger.old.steps + 1 }
{
    let Some(event) = event_of(words) else {
        return out.push_str("?");
    };
    match ledger.step(&event) {
        Some(breach) => out.push_str(name_of(breach)),
        None => out.push_str("-"),
    }
}

// Appends what the ledger answers to each event of a case.
fn put_steps(mut ledger: PcLedger, events: &str, out: &mut String) -> Result<(), AllocError>
    requires { ledger.steps ≡ 0 }
{
    let mut left = 1000_u32;
    for words in events.split(';') {
        if left == 0 {
            return Ok(());
        }
        if left < 1000 {
            out.push_str(" ")?;
        }
        left -= 1;
        put_step(&mut ledger, words.trim(), out)?;
    }
    Ok(())
}

fn put_rules(alloc: Global, arguments: &str, out: &mut String) -> Result<(), AllocError> {
    let (name, events) = arguments.split_once(';').unwrap_or((arguments, ""));
    let Some(shape) = shape_of(name) else {
        return out.push_str("?");
    };
    put_steps(PcLedger::new(alloc, shape)?, events, out)
}

// Holds an event against the rules so many times.
fn repeat(ledger: &mut PcLedger, event: &Event, times: u32)
    requires steps { ledger.old.steps ≡ 0 }
    requires grammar { IsEvent event.now }
{
    for _time in 0..times {
        let _breach = ledger.step(event);
    }
}

fn put_touches(alloc: Global, arguments: &str, out: &mut String) -> Result<(), AllocError> {
    let (words, event) = arguments.split_once(';').unwrap_or((arguments, ""));
    let Some(shape) = shape_of(word_at(words, 0)) else {
        return out.push_str("?");
    };
    let Some(event) = event_of(event.trim()) else {
        return out.push_str("?");
    };
    let Ok(times) = word_at(words, 1).parse::<u32>() else {
        return out.push_str("?");
    };
    let mut ledger = PcLedger::new(alloc, shape)?;
    repeat(&mut ledger, &event, times);
    write!(out, "{}", ledger.touches())
}

// Shows a judge the events of a trace.
fn show(judge: &mut Judge, events: &[Event])
    requires { judge.old.events ≡ 0 }
{
    for event in events {
        if is_event(event) {
            let _verdict = judge.judge(event);
        }
    }
}

fn put_verdict(judge: &Judge, out: &mut String) -> Result<(), AllocError> {
    match judge.verdict() {
        Verdict::Yes => out.push_str("yes")?,
        Verdict::No { event, breach } => write!(out, "no {event} {}", name_of(breach))?,
    }
    match judge.first() {
        Some(event) => put_line(&event, out),
        None => Ok(()),
    }
}

fn put_line(event: &Event, out: &mut String) -> Result<(), AllocError> {
    let mut line = Line::new();
    if is_event(event) {
        print_event(event, &mut line);
    }
    write!(
        out,
        " {}",
        std::str::from_utf8(line.as_slice()).unwrap_or("?")
    )
}

fn put_judged(alloc: Global, arguments: &str, out: &mut String) -> Result<(), AllocError> {
    let text = text_of(alloc, arguments)?;
    let Some(shape) = shape_of(word_at(arguments, 0)) else {
        return out.push_str("?");
    };
    if text.len() > 4294967294 {
        return out.push_str("?");
    }
    let Ok(events) = read_trace(alloc, text.as_slice()) else {
        return out.push_str("bad");
    };
    let mut judge = Judge::new(alloc, shape)?;
    show(&mut judge, events.as_slice());
    put_verdict(&judge, out)
}
