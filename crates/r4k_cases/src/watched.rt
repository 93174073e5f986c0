//! A shelf that keeps what it is asked for.

ghost use Rattle.std.specs.Prelude.{None};

use r4_ports::{FetchFault, PutFault, Shelf, SureShelf};
use std::alloc::Global;

/// A shelf that never fails, but for memory. It keeps a line for each fetch: the name, and how many bytes are asked for.
#[derive(Drop)]
pub struct WatchedShelf {
    pub inside: SureShelf,
    pub asked: String,
}

impl Shelf for WatchedShelf {
    ghost held = { λ _. None };

    ghost asked = { λ _. None };

    ghost fetch_faults = { λ _. 0 };

    ghost put_faults = { λ _. 0 };

    fn fetch(&mut self, alloc: Global, name: &str, cap: usize) -> Result<Vec<u8>, FetchFault> {
        writeln!(self.asked, "| up to {cap} bytes of {name}")?;
        self.inside.fetch(alloc, name, cap)
    }

    fn put(&mut self, name: &str, bytes: &[u8]) -> Result<(), PutFault> {
        self.inside.put(name, bytes)
    }
}
