//! Writing a text to a sink: in pieces of at most 128 bytes, up to the first write that fails.
//!
//! A writer carries a `Pending` beside its sink: the bytes that do not fill a piece yet, and whether a write has failed.
//! Each of its parts writes nothing once one has, so a writer is straight-line code, and each part promises `Writes` of
//! its own text. The laws of `proofs/Writing.antt` join the parts' texts to the whole text, and `finish` hands over what
//! is pending, flushes the sink, and makes the writer's answer: so Ok says that the whole text has gone out.
ghost use Rattle.std.specs.Prelude.{◌≡◌, ◌≤◌, length, OnOk, OnErr, [], true, false};
ghost use Rattle.arrayvec.specs.ArrayVec.{array_vec_len};
ghost use Rattle.r4_ports.specs.Told.{Appended, AppendedPrefix, HasCause};
ghost use Rattle.r4_ports.specs.Writing.{IsFresh, Writes, stand};

use crate::{Sink, SinkFault};
use r4_words::{Line, put_text};

/// The most bytes that one write takes.
pub const PIECE: usize = 128;

/// The bytes that do not fill a piece yet, and whether a write has failed.
#[derive(Drop)]
pub struct Pending {
    pub piece: Line,
    pub failed: bool,
}

impl Pending {
    /// Nothing is pending, and no write has failed.
    pub fn new() -> Pending
        ensures piece { result.piece.items ≡ [] }
        ensures failed { result.failed ≡ false }
    {
        Pending {
            piece: Line::new(),
            failed: false,
        }
    }
}

// Hands what is pending to the sink, unless it is nothing or a write failed before.
fn hand_over<K: Sink>(out: &mut K, pending: &mut Pending)
    ensures writes { Writes (stand K.written K.faults out.old pending.old)
        (stand K.written K.faults out.new pending.new) [] }
    ensures empty { pending.new.piece.items ≡ [] }
{
    if !pending.failed && !pending.piece.is_empty() {
        pending.failed = out.write(&pending.piece).is_err();
    }
    pending.piece = Line::new();
}

// Flushes the sink, unless a write failed before.
fn flush<K: Sink>(out: &mut K, pending: &mut Pending)
    ensures writes { Writes (stand K.written K.faults out.old pending.old)
        (stand K.written K.faults out.new pending.new) [] }
    ensures flushed { pending.new.failed ≡ false → K.is_flushed out.new ≡ true }
    ensures piece { pending.new.piece ≡ pending.old.piece }
{
    if !pending.failed {
        pending.failed = out.flush().is_err();
    }
}

// Writes a piece, unless a write failed before.
fn write_piece<K: Sink>(piece: &[u8], out: &mut K, pending: &mut Pending)
    requires { length piece.now ≤ 128 }
    ensures { Writes (stand K.written K.faults out.old pending.old)
        (stand K.written K.faults out.new pending.new) piece.now }
{
    let room = PIECE - pending.piece.len();
    if piece.len() <= room {
        put_text(piece, &mut pending.piece);
        return;
    }
    let (front, rest) = piece.split_at(room);
    put_text(front, &mut pending.piece);
    hand_over(out, pending);
    put_text(rest, &mut pending.piece);
}

/// Writes a line, unless a write failed before.
pub fn write_line<K: Sink>(line: &Line, out: &mut K, pending: &mut Pending)
    ensures { Writes (stand K.written K.faults out.old pending.old)
        (stand K.written K.faults out.new pending.new) line.now.items }
{
    write_piece(line.as_slice(), out, pending);
}

/// Writes a text of any length, unless a write failed before.
pub fn write_text<K: Sink>(text: &[u8], out: &mut K, pending: &mut Pending)
    ensures { Writes (stand K.written K.faults out.old pending.old)
        (stand K.written K.faults out.new pending.new) text.now }
{
    for piece in text.chunks(PIECE) {
        write_piece(piece, out, pending);
    }
}

/// Hands over what is pending, flushes the sink, and gives a writer's answer: after Ok all that the sink took has gone out.
pub fn finish<K: Sink>(out: &mut K, pending: &mut Pending) -> Result<(), SinkFault>
    ensures writes { Writes (stand K.written K.faults out.old pending.old)
        (stand K.written K.faults out.new pending.new) [] }
    ensures empty { pending.new.piece.items ≡ [] }
    ensures flushed { OnOk result (K.is_flushed out.new ≡ true) }
    ensures ok { OnOk result (pending.new.failed ≡ false) }
    ensures err { OnErr result (pending.new.failed ≡ true) }
{
    hand_over(out, pending);
    flush(out, pending);
    if pending.failed {
        Err(SinkFault::Failed)
    } else {
        Ok(())
    }
}

/// Writes a text of any length, and hands it over whole. After Ok it has gone out.
pub fn write_all<K: Sink>(text: &[u8], out: &mut K) -> Result<(), SinkFault>
    ensures ok { OnOk result (Appended (K.written out.old) (K.written out.new) text.now) }
    ensures flushed { OnOk result (K.is_flushed out.new ≡ true) }
    ensures err { OnErr result (AppendedPrefix (K.written out.old) (K.written out.new) text.now) }
    ensures cause { HasCause (K.faults out.old) (K.faults out.new) result }
{
    let mut pending = Pending::new();
    write_text(text, out, &mut pending);
    finish(out, &mut pending)
}
