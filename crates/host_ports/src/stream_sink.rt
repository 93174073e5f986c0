//! A stream as a sink, behind a buffer.

ghost use Rattle.std.specs.Prelude.{◌≡◌, ◌==◌, ◌≤◌, ◌<◌, ◌+◌, ◌-◌, ◌^◌, ℕ, true, min, take, length, [], None, IsErr, OnOk, OnErr};
ghost use Rattle.std.specs.Io.KnownBytes.{append_known, Appends, Keeps};
ghost use Rattle.arrayvec.specs.ArrayVec.{array_vec_len};
ghost use Rattle.r4_ports.specs.Told.{HasCause, Appended, AppendedPrefix};

use crate::streams::write_whole;
use arrayvec::ArrayVec;
use r4_ports::{Sink, SinkFault};
use std::io::Write;

// The most bytes that wait to be written.
const BUFFER: usize = 16384;

/// A sink over a writer. What it takes waits in a buffer, which is written whole where the next piece does not fit, and at a
/// flush; what waits when the sink is let go is lost. It tells nothing of what was written. Its count rises at each call that
/// fails, and after the first one nothing more goes out and each call fails.
#[derive(Drop)]
pub struct StdSink<W: Write + Drop> {
    out: W,
    waiting: ArrayVec<u8, BUFFER>,
    faults: u64,
}

impl<W: Write + Drop> StdSink<W> {
    /// A sink over this writer, in which nothing waits and of which no call has failed.
    pub fn new(out: W) -> StdSink<W>
        ensures out { result.out ≡ out }
        ensures waiting { result.waiting.items ≡ [] }
        ensures faults { result.faults ≡ 0 }
    {
        StdSink {
            out,
            waiting: ArrayVec::new(),
            faults: 0,
        }
    }

    // Counts a failure.
    fn fail(&mut self) -> SinkFault
        ensures state { self.new ≡ record self.old { faults = min (self.old.faults + 1) (2 ^ 64 - 1) } }
    {
        self.faults = self.faults.saturating_add(1);
        SinkFault::Failed
    }

    // Writes what waits, unless a call failed before: all of it, or a first part where the writer fails.
    fn write_waiting(&mut self) -> Result<(), SinkFault>
        ensures bytes { OnOk result
            (Appends (W.contents self.old.out) (W.contents self.new.out) self.old.waiting.items) }
        ensures empty { OnOk result (self.new.waiting.items ≡ []) }
        ensures part { OnErr result ((count : ℕ)
            × Appends (W.contents self.old.out) (W.contents self.new.out) (take count self.old.waiting.items)) }
        ensures stopped { 0 < self.old.faults → IsErr result × (self.new.out ≡ self.old.out) }
        ensures counted { OnErr result (self.new.faults ≡ min (self.old.faults + 1) (2 ^ 64 - 1)) }
        ensures else_stays { OnOk result (self.new.faults ≡ self.old.faults) }
        ensures cause { HasCause self.old.faults self.new.faults result }
    {
        if self.faults == 0 && write_whole(&mut self.out, &self.waiting).is_ok() {
            self.waiting.clear();
            return Ok(());
        }
        Err(self.fail())
    }

    // Takes a piece, behind those that wait: these are written first where it does not fit. All bytes, those of the writer
    // and those that wait, grow by the piece.
    fn take_piece(&mut self, piece: &[u8]) -> Result<(), SinkFault>
        requires { length piece.now ≤ 128 }
        ensures bytes { OnOk result (Appends (append_known (W.contents self.old.out) self.old.waiting.items)
            (append_known (W.contents self.new.out) self.new.waiting.items) piece.now) }
        ensures part { OnErr result ((count : ℕ)
            × Appends (W.contents self.old.out) (W.contents self.new.out) (take count self.old.waiting.items)) }
        ensures stopped { 0 < self.old.faults → IsErr result × (self.new.out ≡ self.old.out) }
        ensures counted { OnErr result (self.new.faults ≡ min (self.old.faults + 1) (2 ^ 64 - 1)) }
        ensures else_stays { OnOk result (self.new.faults ≡ self.old.faults) }
        ensures cause { HasCause self.old.faults self.new.faults result }
    {
        if self.faults > 0 || piece.len() > self.waiting.remaining_capacity() {
            self.write_waiting()?;
        }
        match self.waiting.try_extend_from_slice(piece) {
            Ok(()) => Ok(()),
            Err(_) => unreachable!(),
        }
    }

    // Writes what waits, and flushes the writer, which then has all bytes.
    fn flush_all(&mut self) -> Result<(), SinkFault>
        ensures bytes { OnOk result
            (Keeps (append_known (W.contents self.old.out) self.old.waiting.items) (W.contents self.new.out)) }
        ensures empty { OnOk result (self.new.waiting.items ≡ []) }
        ensures part { OnErr result ((count : ℕ)
            × Appends (W.contents self.old.out) (W.contents self.new.out) (take count self.old.waiting.items)) }
        ensures stopped { 0 < self.old.faults → IsErr result × (self.new.out ≡ self.old.out) }
        ensures counted { OnErr result (self.new.faults ≡ min (self.old.faults + 1) (2 ^ 64 - 1)) }
        ensures else_stays { OnOk result (self.new.faults ≡ self.old.faults) }
        ensures cause { HasCause self.old.faults self.new.faults result }
    {
        self.write_waiting()?;
        if self.out.flush().is_ok() {
            return Ok(());
        }
        Err(self.fail())
    }
}

impl<W: Write + Drop> Sink for StdSink<W> {
    ghost written = { λ sink. None };

    ghost is_flushed = { λ sink. length sink.waiting.items == 0 };

    ghost faults = { λ sink. sink.faults };

    // The clauses but the last are the trait's, where nothing is told; the last is that of `take_piece`.
    fn write(&mut self, piece: &[u8]) -> Result<(), SinkFault>
        requires { length piece.now ≤ 128 }
        ensures ok { OnOk result (Appended None None piece.now) }
        ensures err { OnErr result (AppendedPrefix None None piece.now) }
        ensures cause { HasCause self.old.faults self.new.faults result }
        ensures bytes { OnOk result (Appends (append_known (W.contents self.old.out) self.old.waiting.items)
            (append_known (W.contents self.new.out) self.new.waiting.items) piece.now) }
    {
        self.take_piece(piece)
    }

    // The clauses but the last are the trait's; the last is that of `flush_all`.
    fn flush(&mut self) -> Result<(), SinkFault>
        ensures flushed { OnOk result ((length self.new.waiting.items == 0) ≡ true) }
        ensures cause { HasCause self.old.faults self.new.faults result }
        ensures bytes { OnOk result
            (Keeps (append_known (W.contents self.old.out) self.old.waiting.items) (W.contents self.new.out)) }
    {
        self.flush_all()
    }
}

#[cfg(test)]
mod tests;
