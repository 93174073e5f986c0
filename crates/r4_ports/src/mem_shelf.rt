//! A shelf in memory, whose calls fail by a list.
ghost use Rattle.std.specs.Prelude.{◌≡◌, ◌≤◌, ◌↔◌, Some, None, IfOk, OnOk, OnErr, IsErr, IsErrOf, IsTrue, take, ◌∷◌, []};
ghost use Rattle.std.specs.Option.{option_copied, option_map};
ghost use Rattle.std.specs.FinMap.{get};
ghost use Rattle.r4_ports.specs.Told.{file_of, fetch_of, put_of, Fetched, PutInto, Appended, HasCause, Rose};
ghost use Rattle.r4_ports.specs.Numbered.{is_listed};
ghost use Rattle.r4_ports.specs.declared.FetchFault.TheVariants.{Failed};
ghost use Rattle.r4_ports.specs.FileList.{files_of};
ghost use Rattle.r4_ports.specs.ShelfState.{new_shelf, held_by, fetch_fails, put_fails, after_call, after_fetch, after_keeping, after_put};
ghost use Rattle.r4_ports.specs.CallLog.{told_call};
ghost use Rattle.r4_ports.specs.PutLog.{put_size};

use crate::call_log::CallLog;
use crate::file_list::{find_file, first_bytes};
use crate::put_log::PutLog;
use crate::{CallKind, FetchFault, PutFault, Shelf};
use r4_words::Memory;
use std::alloc::Global;
use std::marker::Model;

/// A shelf that holds files in memory, and tells them until a put fails. It numbers its calls from 0, and tells them
/// while their names, with 8 bytes more per call, fit in 4096 bytes. A call whose number is listed fails. So does a
/// fetch of a name that is missing, and a put whose name and bytes, with 16 bytes more, do not fit in what is left of
/// the room. Puts take no memory: all of it is taken by `new`.
#[derive(Drop)]
pub struct MemShelf {
    files: Vec<(String, Vec<u8>)>,
    puts: PutLog,
    is_told: bool,
    asked: CallLog,
    failing: Vec<u64>,
    calls: u64,
    fetch_faults: u64,
    put_faults: u64,
}

impl Model for MemShelf {
    ghost use Rattle.r4_ports.specs.ShelfState.{ShelfState};
    ghost use Rattle.r4_ports.specs.ShelfCode.{shelf_code};

    ghost Value = { ShelfState };

    ghost coded = { shelf_code };

    ghost use Rattle.r4_ports.specs.FileList.{files_of};
    ghost use Rattle.r4_ports.specs.ShelfState.{shelf_state};

    ghost view = { λ s. shelf_state (files_of s.files.items) s.puts s.is_told s.asked s.failing.items s.calls s.fetch_faults s.put_faults };
}

impl MemShelf {
    /// A shelf with these files, of which the first with a name counts, and so much room for puts. The calls with the
    /// numbers of `failing` fail.
    pub fn new(
        alloc: Global,
        files: Vec<(String, Vec<u8>)>,
        room: usize,
        failing: Vec<u64>,
    ) -> Result<MemShelf, Memory>
        ensures { IfOk result (λ s. s ≡ new_shelf (files_of files.items) room failing.items) }
    {
        Ok(MemShelf {
            files,
            puts: PutLog::new(alloc, room)?,
            is_told: true,
            asked: CallLog::new(alloc)?,
            failing,
            calls: 0,
            fetch_faults: 0,
            put_faults: 0,
        })
    }

    /// The bytes under a name, where there are any.
    pub fn file(&self, name: &str) -> Option<&[u8]>
        ensures { option_copied result ≡ get self.now.files name.now }
    {
        self.puts.latest(name, find_file(&self.files, name))
    }

    /// What the call of this number asked for, and its name's bytes, where it is told and was made.
    pub fn call(&self, number: usize) -> Option<(CallKind, &[u8])>
        ensures { option_map (λ call. record { kind = call.0; name = call.1.now }) result
            ≡ told_call self.now.asked number }
    {
        self.asked.get(number)
    }

    /// How many fetches have failed.
    pub fn fetch_fault_count(&self) -> u64
        ensures { result ≡ self.now.fetch_faults }
    {
        self.fetch_faults
    }

    /// How many puts have failed.
    pub fn put_fault_count(&self) -> u64
        ensures { result ≡ self.now.put_faults }
    {
        self.put_faults
    }

    // The bytes under a name; a name that is missing has none.
    fn bytes_of(&self, name: &str) -> &[u8]
        ensures { result.now ≡ file_of self.now.files name.now }
    {
        match self.file(name) {
            Some(bytes) => bytes,
            None => &[],
        }
    }

    // Whether the number of the next call is listed.
    fn is_listed(&self) -> bool
        ensures { result ≡ is_listed self.now.failing self.now.calls }
    {
        self.failing.contains(&self.calls)
    }

    // Whether the next call, a fetch of this name, fails.
    fn fetch_fails(&self, name: &str) -> bool
        ensures { result ≡ fetch_fails self.now name.now }
    {
        self.is_listed() || self.file(name).is_none()
    }

    // Whether the next call, such a put, fails.
    fn put_fails(&self, name: &str, bytes: &[u8]) -> bool
        ensures { result ≡ put_fails self.now name.now bytes.now }
    {
        self.is_listed() || !self.puts.fits(name, bytes)
    }

    // Sets a file to these bytes, for which there is room.
    fn keep(&mut self, name: &str, bytes: &[u8])
        requires { put_size name.now bytes.now ≤ self.old.left }
        ensures state { self.new ≡ after_keeping self.old name.now bytes.now }
        ensures put { PutInto (held_by self.old) (held_by self.new) name.now bytes.now }
    {
        self.puts.push(name, bytes);
    }

    // Counts a call, and lists it while it fits.
    fn count_call(&mut self, kind: CallKind, name: &str)
        ensures state { self.new ≡ after_call self.old (record { kind = kind; name = name.now }) }
        ensures asked { Appended self.old.asked self.new.asked (record { kind = kind; name = name.now } ∷ []) }
    {
        self.calls = self.calls.saturating_add(1);
        self.asked.push(kind, name);
    }
}

impl Shelf for MemShelf {
    ghost held = { held_by };

    ghost asked = { λ s. s.asked };

    ghost fetch_faults = { λ s. s.fetch_faults };

    ghost put_faults = { λ s. s.put_faults };

    fn fetch(&mut self, alloc: Global, name: &str, cap: usize) -> Result<Vec<u8>, FetchFault>
        ensures file { IfOk result (λ v. v.items ≡ take cap (file_of self.old.files name.now)) }
        ensures bytes { IfOk result (λ v. Fetched (held_by self.old) name.now cap v.items) }
        ensures fails { IsErrOf result Failed ↔ IsTrue (fetch_fails self.old name.now) }
        ensures state { self.new ≡ after_fetch self.old name.now }
        ensures asked { Appended self.old.asked self.new.asked (fetch_of name.now ∷ []) }
        ensures never_falls { self.old.fetch_faults ≤ self.new.fetch_faults }
        ensures cause { IsErrOf result Failed → Rose self.old.fetch_faults self.new.fetch_faults }
    {
        let fails = self.fetch_fails(name);
        self.count_call(CallKind::Fetch, name);
        if fails {
            self.fetch_faults = self.fetch_faults.saturating_add(1);
            return Err(FetchFault::Failed);
        }
        Ok(first_bytes(alloc, self.bytes_of(name), cap)?)
    }

    fn put(&mut self, name: &str, bytes: &[u8]) -> Result<(), PutFault>
        ensures fails { IsErr result ↔ IsTrue (put_fails self.old name.now bytes.now) }
        ensures state { self.new ≡ after_put self.old name.now bytes.now }
        ensures ok { OnOk result (PutInto (held_by self.old) (held_by self.new) name.now bytes.now) }
        ensures err { OnErr result (held_by self.new ≡ None) }
        ensures asked { Appended self.old.asked self.new.asked (put_of name.now ∷ []) }
        ensures cause { HasCause self.old.put_faults self.new.put_faults result }
    {
        let fails = self.put_fails(name, bytes);
        self.count_call(CallKind::Put, name);
        if fails {
            self.is_told = false;
            self.put_faults = self.put_faults.saturating_add(1);
            return Err(PutFault::Failed);
        }
        self.keep(name, bytes);
        Ok(())
    }
}
