//! The fields of a line that are one letter or mark.

ghost use Rattle.std.specs.Prelude.{◌≡◌, ◌∷◌, [], bytes_eq};
ghost use Rattle.access_trace.specs.Texts as texts;

use crate::event::{Event, EventKind};
use crate::grammar::is_beat;

/// The letter of a kind.
pub fn letter(kind: EventKind) -> u8
    ensures { result ∷ [] ≡ texts.letter_of kind }
{
    match kind {
        EventKind::Fetch => b'F',
        EventKind::Load => b'L',
        EventKind::Store => b'S',
        EventKind::BeatIn => b'I',
        EventKind::BeatOut => b'O',
        EventKind::Cache => b'C',
    }
}

/// The attribute: `c` for cached, `u` for uncached, `-` for a beat.
pub fn attribute(event: &Event) -> u8
    ensures { result ∷ [] ≡ texts.attribute_of event.now }
{
    if is_beat(event.kind) {
        b'-'
    } else if event.cached {
        b'c'
    } else {
        b'u'
    }
}

/// Whether the state was quiet: `q` for quiet, `n` for not quiet, `-` for a beat.
pub fn quiet(event: &Event) -> u8
    ensures { result ∷ [] ≡ texts.quiet_of event.now }
{
    if is_beat(event.kind) {
        b'-'
    } else if event.quiet {
        b'q'
    } else {
        b'n'
    }
}

/// Whether a text is this one byte.
pub fn is_one(text: &[u8], code: u8) -> bool
    ensures { result ≡ bytes_eq text.now (code ∷ []) }
{
    text == [code].as_slice()
}
