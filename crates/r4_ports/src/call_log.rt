//! The calls made of a shelf in memory, told while they fit in memory that is all taken when the log is made.
ghost use Rattle.std.specs.Prelude.{◌≡◌, ◌≤◌, ◌<◌, ◌+◌, [], ◌∷◌, ◌++◌, length, map, slice_get, Some, IfOk, vec_capacity};
ghost use Rattle.std.specs.Option.{option_map};
ghost use Rattle.r4_ports.specs.Told.{Appended};
ghost use Rattle.r4_ports.specs.CallLog.{asked_after, call_at, told_call, AllCallsWithin};

use crate::CallKind;
use crate::spans::{Span, append_text, text_at};
use r4_words::Memory;
use std::alloc::Global;
use std::marker::Model;

/// The bytes that the calls take at most: their names, with 8 bytes more per call.
const ROOM: usize = 4096;

/// A call: what it asked for, and where its name stands in the buffer.
#[derive(Clone, Copy)]
pub struct CallRecord {
    pub kind: CallKind,
    pub name: Span,
}

/// Calls in their order, until one does not fit.
#[derive(Drop)]
pub struct CallLog {
    buffer: Vec<u8>,
    records: Vec<CallRecord>,
    is_told: bool,
}

impl Model for CallLog {
    ghost use Rattle.std.specs.Prelude.{List, Option};
    ghost use Rattle.r4_ports.specs.Told.{Call};

    ghost Value = { Option (List Call) };

    ghost use Rattle.std.specs.Prelude.{◌≡◌, ◌≤◌, ◌+◌, ◌*◌, length, map, vec_capacity};
    ghost use Rattle.r4_ports.specs.CallLog.{call_log, call_at, calls_size, AllCallsWithin};

    ghost view = { λ s. call_log s.buffer.items s.records.items s.is_told };

    ghost invariant = { λ s.
        (4096 ≤ vec_capacity s.buffer) × (512 ≤ vec_capacity s.records)
        × (length s.buffer.items + 8 * length s.records.items ≤ 4096)
        × (calls_size (map (call_at s.buffer.items) s.records.items)
        ≡ length s.buffer.items + 8 * length s.records.items)
        × AllCallsWithin (length s.buffer.items) s.records.items };
}

impl CallLog {
    /// No calls.
    pub fn new(alloc: Global) -> Result<CallLog, Memory>
        ensures { IfOk result (λ log. log ≡ Some []) }
    {
        Ok(CallLog {
            buffer: Vec::with_capacity(alloc, ROOM)?,
            records: Vec::with_capacity(alloc, ROOM / 8)?,
            is_told: true,
        })
    }

    /// One call more, told where it fits.
    pub fn push(&mut self, kind: CallKind, name: &str)
        ensures state { self.new ≡ asked_after self.old (record { kind = kind; name = name.now }) }
        ensures appended { Appended self.old self.new (record { kind = kind; name = name.now } ∷ []) }
    {
        let free = ROOM - self.buffer.len() - 8 * self.records.len();
        if self.is_told && free >= 8 && name.len() <= free - 8 {
            record_call(&mut self.buffer, &mut self.records, kind, name);
        } else {
            self.is_told = false;
        }
    }

    /// What the call of this number asked for, and its name's bytes, where it is told and was made.
    pub fn get(&self, number: usize) -> Option<(CallKind, &[u8])>
        ensures { option_map (λ call. record { kind = call.0; name = call.1.now }) result
            ≡ told_call self.now number }
    {
        if self.is_told {
            call_in(&self.buffer, &self.records, number)
        } else {
            None
        }
    }
}

// The recorded call of this number.
fn call_in<'a>(
    buffer: &'a [u8],
    records: &[CallRecord],
    number: usize,
) -> Option<(CallKind, &'a [u8])>
    requires { AllCallsWithin (length buffer.now) records.now }
    ensures { option_map (λ call. record { kind = call.0; name = call.1.now }) result
        ≡ slice_get (map (call_at buffer.now) records.now) number }
{
    match records.get(number) {
        Some(call) => Some((call.kind, text_at(buffer, call.name))),
        None => None,
    }
}

// Appends a call's name to the buffer, and its record to the records, within their room.
fn record_call(buffer: &mut Vec<u8>, records: &mut Vec<CallRecord>, kind: CallKind, name: &str)
    requires buffer_room { length buffer.old.items + length name.now ≤ vec_capacity buffer.old }
    requires record_room { length records.old.items < vec_capacity records.old }
    requires within { AllCallsWithin (length buffer.old.items) records.old.items }
    ensures calls { map (call_at buffer.new.items) records.new.items
        ≡ map (call_at buffer.old.items) records.old.items ++ record { kind = kind; name = name.now } ∷ [] }
    ensures within { AllCallsWithin (length buffer.new.items) records.new.items }
    ensures buffer_length { length buffer.new.items ≡ length buffer.old.items + length name.now }
    ensures record_count { length records.new.items ≡ length records.old.items + 1 }
    ensures buffer_capacity { vec_capacity buffer.old ≤ vec_capacity buffer.new }
    ensures record_capacity { vec_capacity records.old ≤ vec_capacity records.new }
{
    let name = append_text(buffer, name.as_bytes());
    match records.push(CallRecord { kind, name }) {
        Ok(()) => {}
        Err(_) => unreachable!(),
    }
}
