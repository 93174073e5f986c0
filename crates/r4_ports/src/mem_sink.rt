//! A sink in memory, whose calls fail by a list.
ghost use Rattle.std.specs.Prelude.{◌≡◌, ◌≤◌, ◌↔◌, true, [], length, IfOk, OnOk, OnErr, IsErr, IsTrue, Some};
ghost use Rattle.r4_ports.specs.Told.{HasCause, Appended, AppendedPrefix};
ghost use Rattle.r4_ports.specs.SinkState.{sink_state, write_fails, flush_fails, after_write, after_flush};

use crate::spans::append;
use crate::{Sink, SinkFault};
use r4_words::Memory;
use std::alloc::Global;
use std::marker::Model;

/// A sink that keeps up to so many bytes, and tells them. It numbers its calls, writes and flushes, from 0. A write whose
/// number is listed fails and writes the first half of its piece; a piece beyond the room fails after filling it. A flush
/// whose number is listed fails, and loses nothing of what is told.
#[derive(Drop)]
pub struct MemSink {
    bytes: Vec<u8>,
    room: usize,
    is_flushed: bool,
    failing: Vec<u64>,
    calls: u64,
    faults: u64,
}

impl Model for MemSink {
    ghost use Rattle.std.specs.Prelude.{◌≤◌, vec_capacity, length};
    ghost use Rattle.r4_ports.specs.SinkState.{SinkState, sink_state};

    ghost Value = { SinkState };

    ghost view = { λ s. sink_state s.bytes.items s.room s.is_flushed s.failing.items s.calls s.faults };

    ghost invariant = { λ s. (s.room ≤ vec_capacity s.bytes) × (length s.bytes.items ≤ s.room) };
}

impl MemSink {
    /// An empty sink with room for so many bytes, whose calls with the numbers of `failing` fail.
    pub fn new(alloc: Global, room: usize, failing: Vec<u64>) -> Result<MemSink, Memory>
        ensures { IfOk result (λ s. s ≡ sink_state [] room true failing.items 0 0) }
    {
        Ok(MemSink {
            bytes: Vec::with_capacity(alloc, room)?,
            room,
            is_flushed: true,
            failing,
            calls: 0,
            faults: 0,
        })
    }

    /// What was written.
    pub fn bytes(&self) -> &[u8]
        ensures { result.now ≡ self.now.written }
    {
        &self.bytes
    }

    /// Whether all that was written has gone out.
    pub fn is_flushed(&self) -> bool
        ensures { result ≡ self.now.is_flushed }
    {
        self.is_flushed
    }

    /// How many writes and flushes have failed.
    pub fn fault_count(&self) -> u64
        ensures { result ≡ self.now.faults }
    {
        self.faults
    }
}

impl Sink for MemSink {
    ghost written = { λ s. Some s.written };

    ghost is_flushed = { λ s. s.is_flushed };

    ghost faults = { λ s. s.faults };

    fn write(&mut self, piece: &[u8]) -> Result<(), SinkFault>
        ensures ok { OnOk result (Appended (Some self.old.written) (Some self.new.written) piece.now) }
        ensures err { OnErr result (AppendedPrefix (Some self.old.written) (Some self.new.written) piece.now) }
        ensures cause { HasCause self.old.faults self.new.faults result }
        ensures fails { IsErr result ↔ IsTrue (write_fails self.old piece.now) }
        ensures state { self.new ≡ after_write self.old piece.now }
    {
        let is_listed = self.failing.contains(&self.calls);
        let free = self.room - self.bytes.len();
        let wanted = if is_listed {
            piece.len() / 2
        } else {
            piece.len()
        };
        append(&mut self.bytes, &piece[..wanted.min(free)]);
        self.is_flushed = false;
        self.calls = self.calls.saturating_add(1);
        if is_listed || piece.len() > free {
            self.faults = self.faults.saturating_add(1);
            return Err(SinkFault::Failed);
        }
        Ok(())
    }

    fn flush(&mut self) -> Result<(), SinkFault>
        ensures flushed { OnOk result (self.new.is_flushed ≡ true) }
        ensures written { Some self.new.written ≡ Some self.old.written }
        ensures cause { HasCause self.old.faults self.new.faults result }
        ensures fails { IsErr result ↔ IsTrue (flush_fails self.old) }
        ensures state { self.new ≡ after_flush self.old }
    {
        let is_listed = self.failing.contains(&self.calls);
        self.is_flushed = !is_listed;
        self.calls = self.calls.saturating_add(1);
        if is_listed {
            self.faults = self.faults.saturating_add(1);
            return Err(SinkFault::Failed);
        }
        Ok(())
    }
}
