//! The test for the events of the grammar.

ghost use Rattle.std.specs.Prelude.{◌≡◌};
ghost use Rattle.access_trace.specs.Grammar as law;

use crate::event::{Event, EventKind};

/// Whether an event is a beat of the disk.
pub fn is_beat(kind: EventKind) -> bool
    ensures { result ≡ law.is_beat kind }
{
    matches!(kind, EventKind::BeatIn | EventKind::BeatOut)
}

// The numbers have the widths of their fields. But for the physical address their types see to that.
fn fits_its_fields(event: &Event) -> bool
    ensures { result ≡ law.fits_its_fields event.now }
{
    let (_tick, _va, _value) = (event.tick, event.va, event.value);
    event.pa < 0x10_0000_0000
}

// The fields are those of the event's kind.
fn has_fields(event: &Event) -> bool
    ensures { result ≡ law.has_fields event.now.kind event.now }
{
    match event.kind {
        EventKind::Fetch => event.size == 4,
        EventKind::Load | EventKind::Store => 1 <= event.size && event.size <= 8,
        EventKind::BeatIn | EventKind::BeatOut => {
            !event.cached && !event.quiet && event.va == 0 && event.size == 32 && event.value == 0
        }
        EventKind::Cache => event.size < 32 && event.value < 0x1_0000_0000,
    }
}

// The physical address has the place in its page that the virtual one has, but for a beat.
fn keeps_its_page(event: &Event) -> bool
    ensures { result ≡ law.keeps_its_page event.now }
{
    is_beat(event.kind) || event.pa % 4096 == u64::from(event.va % 4096)
}

// An address of RAM where one is named.
fn is_in_ram(event: &Event) -> bool
    ensures { result ≡ law.is_in_ram event.now }
{
    let in_ram = event.pa < 8_388_608;
    match event.kind {
        EventKind::Fetch | EventKind::Load | EventKind::Store => !event.cached || in_ram,
        EventKind::BeatIn | EventKind::BeatOut => in_ram,
        EventKind::Cache => true,
    }
}

// A beat begins at a multiple of 32.
fn is_whole_beat(event: &Event) -> bool
    ensures { result ≡ law.is_whole_beat event.now }
{
    !is_beat(event.kind) || event.pa % 32 == 0
}

// A fetch is of an aligned word.
fn is_whole_word(event: &Event) -> bool
    ensures { result ≡ law.is_whole_word event.now }
{
    match event.kind {
        EventKind::Fetch => event.pa % 4 == 0,
        _ => true,
    }
}

// A load or a store lies in one aligned doubleword.
fn is_in_doubleword(event: &Event) -> bool
    ensures { result ≡ law.is_in_doubleword event.now }
{
    match event.kind {
        EventKind::Load | EventKind::Store => event.pa % 8 + u64::from(event.size) <= 8,
        _ => true,
    }
}

/// Whether an event is one of the grammar.
pub fn is_event(event: &Event) -> bool
    ensures { result ≡ law.is_event event.now }
{
    fits_its_fields(event)
        && has_fields(event)
        && keeps_its_page(event)
        && is_in_ram(event)
        && is_whole_beat(event)
        && is_whole_word(event)
        && is_in_doubleword(event)
}
