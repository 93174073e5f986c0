//! A sink that never fails.
ghost use Rattle.std.specs.Prelude.{◌≡◌, [], IfOk, IfSome, OnOk, IsOk, true};
ghost use Rattle.r4_ports.specs.Told.{Appended};
ghost use Rattle.r4_ports.specs.SureState.{sure_sink, after_sure_write};

use crate::spans::append;
use crate::{Sink, SinkFault};
use r4_words::Memory;
use std::alloc::Global;
use std::marker::Model;

/// A sink that never fails, whose count is 0, and that keeps nothing back. It tells what was written while that fits in its room.
#[derive(Drop)]
pub struct SureSink {
    bytes: Vec<u8>,
    room: usize,
    is_whole: bool,
}

impl Model for SureSink {
    ghost use Rattle.std.specs.Prelude.{◌≤◌, length, vec_capacity};
    ghost use Rattle.r4_ports.specs.SureState.{SureSinkState, sure_sink};

    ghost Value = { SureSinkState };

    ghost view = { λ s. sure_sink s.bytes.items s.room s.is_whole };

    ghost invariant = { λ s. (s.room ≤ vec_capacity s.bytes) × (length s.bytes.items ≤ s.room) };
}

impl SureSink {
    /// An empty sink with room for so many bytes.
    pub fn new(alloc: Global, room: usize) -> Result<SureSink, Memory>
        ensures { IfOk result (λ s. s ≡ sure_sink [] room true) }
    {
        Ok(SureSink {
            bytes: Vec::with_capacity(alloc, room)?,
            room,
            is_whole: true,
        })
    }

    /// What was written, where that is told.
    pub fn bytes(&self) -> &[u8]
        ensures { IfSome self.now.written (λ written. result.now ≡ written) }
    {
        &self.bytes
    }
}

impl Sink for SureSink {
    ghost written = { λ s. s.written };

    ghost is_flushed = { λ s. true };

    ghost faults = { λ s. 0 };

    fn write(&mut self, piece: &[u8]) -> Result<(), SinkFault>
        ensures never_fails { IsOk result }
        ensures ok { OnOk result (Appended self.old.written self.new.written piece.now) }
        ensures state { self.new ≡ after_sure_write self.old piece.now }
    {
        if self.is_whole && piece.len() <= self.room - self.bytes.len() {
            append(&mut self.bytes, piece);
        } else {
            self.is_whole = false;
        }
        Ok(())
    }

    fn flush(&mut self) -> Result<(), SinkFault>
        ensures never_fails { IsOk result }
        ensures state { self.new ≡ self.old }
    {
        Ok(())
    }
}
