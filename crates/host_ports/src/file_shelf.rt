//! The real files as a shelf.

ghost use Rattle.std.specs.Prelude.{◌≡◌, ◌≤◌, ◌+◌, ◌-◌, ◌^◌, min, length, None, IfOk, OnOk, OnErr, IsErrOf};
ghost use Rattle.r4_ports.specs.Told.{HasCause};
ghost use Rattle.r4_ports.specs.declared.FetchFault.TheVariants.{Failed};

use crate::placing::place;
use crate::streams::read_up_to;
use r4_ports::{FetchFault, PutFault, Shelf};
use std::alloc::Global;
use std::fs;
use std::rt::Files;

/// Files by their paths. It tells nothing of their content. Each of its counts never falls, and a call answers `Failed` only
/// where its count rose.
#[derive(Drop)]
pub struct FileShelf<'a, R: Files> {
    rt: &'a R,
    alloc: Global,
    fetch_faults: u64,
    put_faults: u64,
}

impl<'a, R: Files> FileShelf<'a, R> {
    /// The files that a runtime reaches, of which no call has failed. A put takes memory for a name.
    pub fn new(rt: &'a R, alloc: Global) -> FileShelf<'a, R>
        ensures fetch_faults { result.fetch_faults ≡ 0 }
        ensures put_faults { result.put_faults ≡ 0 }
    {
        FileShelf {
            rt,
            alloc,
            fetch_faults: 0,
            put_faults: 0,
        }
    }
}

// The first `cap` bytes of a file, or all where it has fewer.
fn read_file<R: Files>(rt: &R, alloc: Global, name: &str, cap: usize) -> Result<Vec<u8>, FetchFault>
    ensures at_most { IfOk result (λ v. length v.items ≤ cap) }
{
    match fs::open(rt, name) {
        Ok(mut file) => read_up_to(&mut file, alloc, cap),
        Err(_) => Err(FetchFault::Failed),
    }
}

impl<R: Files> FileShelf<'_, R> {
    // The first `cap` bytes of a file, with its count.
    fn fetch_counted(
        &mut self,
        alloc: Global,
        name: &str,
        cap: usize,
    ) -> Result<Vec<u8>, FetchFault>
        ensures at_most { IfOk result (λ v. length v.items ≤ cap) }
        ensures counted { IsErrOf result Failed → self.new.fetch_faults ≡ min (self.old.fetch_faults + 1) (2 ^ 64 - 1) }
        ensures else_stays { ¬ IsErrOf result Failed → self.new.fetch_faults ≡ self.old.fetch_faults }
        ensures never_falls { self.old.fetch_faults ≤ self.new.fetch_faults }
        ensures put_faults { self.new.put_faults ≡ self.old.put_faults }
    {
        let fetched = read_file(self.rt, alloc, name, cap);
        if matches!(fetched, Err(FetchFault::Failed)) {
            self.fetch_faults = self.fetch_faults.saturating_add(1);
        }
        fetched
    }

    // Sets a file to these bytes, with its count.
    fn put_counted(&mut self, name: &str, bytes: &[u8]) -> Result<(), PutFault>
        ensures counted { OnErr result (self.new.put_faults ≡ min (self.old.put_faults + 1) (2 ^ 64 - 1)) }
        ensures else_stays { OnOk result (self.new.put_faults ≡ self.old.put_faults) }
        ensures cause { HasCause self.old.put_faults self.new.put_faults result }
        ensures fetch_faults { self.new.fetch_faults ≡ self.old.fetch_faults }
    {
        if place(self.rt, self.alloc, name, bytes).is_ok() {
            return Ok(());
        }
        self.put_faults = self.put_faults.saturating_add(1);
        Err(PutFault::Failed)
    }
}

impl<R: Files> Shelf for FileShelf<'_, R> {
    ghost held = { λ shelf. None };

    ghost asked = { λ shelf. None };

    ghost fetch_faults = { λ shelf. shelf.fetch_faults };

    ghost put_faults = { λ shelf. shelf.put_faults };

    fn fetch(&mut self, alloc: Global, name: &str, cap: usize) -> Result<Vec<u8>, FetchFault> {
        self.fetch_counted(alloc, name, cap)
    }

    fn put(&mut self, name: &str, bytes: &[u8]) -> Result<(), PutFault> {
        self.put_counted(name, bytes)
    }
}

#[cfg(test)]
mod tests;
