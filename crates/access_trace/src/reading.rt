//! The event of a line.

ghost use Rattle.std.specs.Prelude.{◌≡◌, ◌<◌, ◌^◌, ℕ, IsTrue, IfSome, IfNone};
ghost use Rattle.r4_words.specs.Texts.{hex_of, dec_of};
ghost use Rattle.access_trace.specs.Grammar.{IsEvent};
ghost use Rattle.access_trace.specs.Texts.{letter_of, attribute_of, quiet_of, read_line, IsLineOf};
ghost use Rattle.access_trace.specs.Fields.{AreNumbersOf, AreFieldsOf};
ghost use Rattle.access_trace.specs.declared.event.EventKind.{EventKind};
ghost use Rattle.access_trace.specs.declared.event.Event.{Event};

use crate::event::{Event, EventKind};
use crate::fields::{Fields, fields_of_line};
use crate::grammar::is_event;
use crate::marks::{attribute, is_one, quiet};
use r4_words::{read_dec, read_hex};

// The kind of a letter.
fn kind_of(text: &[u8]) -> Option<EventKind>
    ensures some { IfSome result (λ kind. text.now ≡ letter_of kind) }
    ensures back { (kind : EventKind) → text.now ≡ letter_of kind → result ≡ Some kind }
{
    match text {
        [b'F'] => Some(EventKind::Fetch),
        [b'L'] => Some(EventKind::Load),
        [b'S'] => Some(EventKind::Store),
        [b'I'] => Some(EventKind::BeatIn),
        [b'O'] => Some(EventKind::BeatOut),
        [b'C'] => Some(EventKind::Cache),
        _ => None,
    }
}

// A number of 32 bits in eight hexadecimal digits.
fn read_address(text: &[u8]) -> Option<u32>
    ensures some { IfSome result (λ n. text.now ≡ hex_of 8 n) }
    ensures back { (n : ℕ) → n < 2 ^ 32 → text.now ≡ hex_of 8 n → result ≡ Some n }
{
    match read_hex(text, 8) {
        Some(number) => Some(number as u32),
        None => None,
    }
}

// A decimal number of 8 bits.
fn read_size(text: &[u8]) -> Option<u8>
    ensures some { IfSome result (λ n. text.now ≡ dec_of n) }
    ensures back { (n : ℕ) → n < 256 → text.now ≡ dec_of n → result ≡ Some n }
{
    match read_dec(text) {
        Some(number) => u8::try_from(number).ok(),
        None => None,
    }
}

// The event whose numbers and letters stand in these fields.
fn named(fields: &Fields<'_>) -> Option<Event>
    ensures some { IfSome result (λ event. AreNumbersOf event fields.now) }
    ensures back { (event : Event) → IsEvent event → AreFieldsOf event fields.now → result ≡ Some event }
{
    Some(Event {
        tick: read_dec(fields.tick)?,
        kind: kind_of(fields.kind)?,
        cached: is_one(fields.attribute, b'c'),
        quiet: is_one(fields.quiet, b'q'),
        va: read_address(fields.va)?,
        pa: read_hex(fields.pa, 9)?,
        size: read_size(fields.size)?,
        value: read_hex(fields.value, 16)?,
    })
}

// Whether an event is one of the grammar, and these are its marks.
fn is_marked(event: &Event, fields: &Fields<'_>) -> bool
    ensures grammar { IsTrue result → IsEvent event.now }
    ensures attribute { IsTrue result → fields.now.attribute.now ≡ attribute_of event.now }
    ensures quiet { IsTrue result → fields.now.quiet.now ≡ quiet_of event.now }
    ensures back { IsEvent event.now → fields.now.attribute.now ≡ attribute_of event.now
        → fields.now.quiet.now ≡ quiet_of event.now → IsTrue result }
{
    is_event(event)
        && is_one(fields.attribute, attribute(event))
        && is_one(fields.quiet, quiet(event))
}

// The event of the grammar whose fields these are.
fn event_of(fields: &Fields<'_>) -> Option<Event>
    ensures grammar { IfSome result (λ event. IsEvent event) }
    ensures some { IfSome result (λ event. AreFieldsOf event fields.now) }
    ensures back { (event : Event) → IsEvent event → AreFieldsOf event fields.now → result ≡ Some event }
{
    match named(fields) {
        Some(event) if is_marked(&event, fields) => Some(event),
        _ => None,
    }
}

// The event of a line, by its fields.
fn event_of_line(line: &[u8]) -> Option<Event>
    ensures { result ≡ read_line line.now }
{
    match fields_of_line(line) {
        Some(fields) => event_of(&fields),
        None => None,
    }
}

/// The event of a line, without the newline that ends it. None where the line is outside the grammar.
pub fn read_event(line: &[u8]) -> Option<Event>
    ensures value { result ≡ read_line line.now }
    ensures some { IfSome result (λ event. IsLineOf event line.now) }
    ensures none { IfNone result ((event : Event) → ¬ IsLineOf event line.now) }
    ensures read_back { (event : Event) → IsLineOf event line.now → result ≡ Some event }
{
    event_of_line(line)
}
