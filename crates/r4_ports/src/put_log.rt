//! The puts to a shelf in memory: their names and bytes in one buffer, all of whose memory is taken when it is made.
ghost use Rattle.std.specs.Prelude.{◌≡◌, ◌≤◌, ◌<◌, ◌+◌, [], ◌∷◌, ◌++◌, length, map, IfOk, nat_le, vec_capacity};
ghost use Rattle.std.specs.Option.{option_copied};
ghost use Rattle.r4_ports.specs.PutLog.{put_size, after_put_of, latest, put_at, AllPutsWithin};

use crate::spans::{Span, append_text, text_at};
use r4_words::Memory;
use std::alloc::Global;
use std::marker::Model;

/// Where a put's name and bytes stand in the buffer.
#[derive(Clone, Copy)]
pub struct PutRecord {
    pub name: Span,
    pub bytes: Span,
}

/// Puts in their order, and the room that is left for more.
#[derive(Drop)]
pub struct PutLog {
    buffer: Vec<u8>,
    records: Vec<PutRecord>,
    left: usize,
}

impl Model for PutLog {
    ghost use Rattle.std.specs.Prelude.{◌≤◌, ◌+◌, ◌/◌, length, vec_capacity};
    ghost use Rattle.r4_ports.specs.PutLog.{PutLogState, put_log, AllPutsWithin};

    ghost Value = { PutLogState };

    ghost view = { λ s. put_log s.buffer.items s.records.items s.left };

    ghost invariant = { λ s.
        (length s.buffer.items + s.left ≤ vec_capacity s.buffer)
        × (length s.records.items + s.left / 16 ≤ vec_capacity s.records)
        × AllPutsWithin (length s.buffer.items) s.records.items };
}

impl PutLog {
    /// No puts, and so much room.
    pub fn new(alloc: Global, room: usize) -> Result<PutLog, Memory>
        ensures { IfOk result (λ log. log ≡ record { puts = []; left = room }) }
    {
        Ok(PutLog {
            buffer: Vec::with_capacity(alloc, room)?,
            records: Vec::with_capacity(alloc, room / 16)?,
            left: room,
        })
    }

    /// Whether there is room for this put.
    pub fn fits(&self, name: &str, bytes: &[u8]) -> bool
        ensures { result ≡ nat_le (put_size name.now bytes.now) self.now.left }
    {
        name.len() as u128 + bytes.len() as u128 + 16 <= self.left as u128
    }

    /// One put more, for which there is room.
    pub fn push(&mut self, name: &str, bytes: &[u8])
        requires { put_size name.now bytes.now ≤ self.old.left }
        ensures { self.new ≡ after_put_of self.old name.now bytes.now }
    {
        let left = self.left;
        self.left = left - (name.len() + bytes.len() + 16);
        record_put(&mut self.buffer, &mut self.records, name, bytes);
    }

    /// The bytes that the last put to this name gave it, or those that it had before.
    pub fn latest<'a>(&'a self, name: &str, before: Option<&'a [u8]>) -> Option<&'a [u8]>
        ensures { option_copied result ≡ latest (option_copied before.entry) self.now.puts name.now }
    {
        latest_in(&self.buffer, &self.records, name, before)
    }
}

// Appends a put's name and bytes to the buffer, and its record to the records, within their room.
fn record_put(buffer: &mut Vec<u8>, records: &mut Vec<PutRecord>, name: &str, bytes: &[u8])
    requires buffer_room { length buffer.old.items + (length name.now + length bytes.now) ≤ vec_capacity buffer.old }
    requires record_room { length records.old.items < vec_capacity records.old }
    requires within { AllPutsWithin (length buffer.old.items) records.old.items }
    ensures puts { map (put_at buffer.new.items) records.new.items
        ≡ map (put_at buffer.old.items) records.old.items ++ (name.now, bytes.now) ∷ [] }
    ensures within { AllPutsWithin (length buffer.new.items) records.new.items }
    ensures buffer_length { length buffer.new.items
        ≡ length buffer.old.items + (length name.now + length bytes.now) }
    ensures record_count { length records.new.items ≡ length records.old.items + 1 }
    ensures buffer_capacity { vec_capacity buffer.old ≤ vec_capacity buffer.new }
    ensures record_capacity { vec_capacity records.old ≤ vec_capacity records.new }
{
    let name = append_text(buffer, name.as_bytes());
    let bytes = append_text(buffer, bytes);
    match records.push(PutRecord { name, bytes }) {
        Ok(()) => {}
        Err(_) => unreachable!(),
    }
}

// The bytes that the last recorded put to this name gave it, or those that it had before.
fn latest_in<'a>(
    buffer: &'a [u8],
    records: &[PutRecord],
    name: &str,
    before: Option<&'a [u8]>,
) -> Option<&'a [u8]>
    requires { AllPutsWithin (length buffer.now) records.now }
    ensures { option_copied result
        ≡ latest (option_copied before.entry) (map (put_at buffer.now) records.now) name.now }
{
    let mut found = before;
    for put in records {
        if name.as_bytes() == text_at(buffer, put.name) {
            found = Some(text_at(buffer, put.bytes));
        }
    }
    found
}
