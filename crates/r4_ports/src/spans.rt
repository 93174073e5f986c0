//! Texts in one buffer, each at a span of it. All is appended within reserved room, so it takes no memory.
ghost use Rattle.std.specs.Prelude.{◌≡◌, ◌≤◌, ◌+◌, ◌++◌, length, vec_capacity};
ghost use Rattle.r4_ports.specs.Spans.{text_at, span_after, Within};

/// Where a text stands in a buffer.
#[derive(Clone, Copy)]
pub struct Span {
    pub start: usize,
    pub end: usize,
}

/// Appends bytes within the room that is reserved.
pub fn append(buffer: &mut Vec<u8>, bytes: &[u8])
    requires { length buffer.old.items + length bytes.now ≤ vec_capacity buffer.old }
    ensures items { buffer.new.items ≡ buffer.old.items ++ bytes.now }
    ensures capacity { vec_capacity buffer.old ≤ vec_capacity buffer.new }
{
    match buffer.extend_from_slice(bytes) {
        Ok(()) => {}
        Err(_) => unreachable!(),
    }
}

/// Appends a text within the room that is reserved, and answers its span.
pub fn append_text(buffer: &mut Vec<u8>, text: &[u8]) -> Span
    requires { length buffer.old.items + length text.now ≤ vec_capacity buffer.old }
    ensures items { buffer.new.items ≡ buffer.old.items ++ text.now }
    ensures span { result ≡ span_after buffer.old.items text.now }
    ensures capacity { vec_capacity buffer.old ≤ vec_capacity buffer.new }
{
    let start = buffer.len();
    append(buffer, text);
    Span {
        start,
        end: buffer.len(),
    }
}

/// The text at a span.
pub fn text_at(buffer: &[u8], span: Span) -> &[u8]
    requires { Within (length buffer.now) span }
    ensures { result.now ≡ text_at buffer.now span }
{
    &buffer[span.start..span.end]
}
