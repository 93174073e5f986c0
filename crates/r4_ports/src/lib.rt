//! The outside of the workstation: a shelf of named files, and a sink of bytes.
//!
//! The program meets files and output through two traits alone. Each says what it tells of its content, and counts
//! its faults: a call fails only where its count rose, so a failure of the program can be laid to the outside.
//! Reading order: the faults and the traits here; `pieces`, texts in pieces of at most 128 bytes; then four
//! implementations in memory. `sure_shelf` and `sure_sink` never fail; `mem_shelf` and `mem_sink` fail by a list,
//! for tests of every failure. `file_list`, `spans`, `call_log` and `put_log` are their parts. The adapters to real files
//! and streams stand in the program, not here.
//!
//! What is told is an option in the contracts (`specs/Told.antt`): a real file tells nothing, and every clause on
//! content speaks only of what is told. Names are the bytes of their text.
#![tactic(auto)]

ghost use Rattle.std.specs.Prelude.{◌≡◌, ◌≤◌, List, ℕ, Bool, true, length, [], ◌∷◌, IfOk, OnOk, OnErr, IsErrOf, Option, None};
ghost use Rattle.r4_ports.specs.Told.{Files, Call, fetch_of, put_of, Rose, HasCause, Appended, AppendedPrefix, Fetched, PutInto};

mod call_log;
mod file_list;
pub mod mem_shelf;
pub mod mem_sink;
pub mod pieces;
mod put_log;
mod spans;
pub mod sure_shelf;
pub mod sure_sink;

pub use mem_shelf::MemShelf;
pub use mem_sink::MemSink;
pub use pieces::{Pending, finish, write_all, write_line, write_text};
use r4_words::Memory;
use std::alloc::Global;
pub use sure_shelf::SureShelf;
pub use sure_sink::SureSink;
use thiserror::Error;

/// Why a fetch gave no bytes.
#[derive(Clone, Copy, Debug, Error)]
pub enum FetchFault {
    /// The file could not be read.
    #[error("the file could not be read")]
    Failed,
    /// There was no memory for the answer.
    #[error("there is no memory for the file")]
    Memory,
}

impl From<Memory> for FetchFault {
    ghost use Rattle.r4_ports.specs.declared.FetchFault.TheVariants.{Memory};

    ghost from_gives = { λ _ e. e ≡ Memory };

    fn from(_: Memory) -> Self {
        FetchFault::Memory
    }
}

/// Why a put did not keep its bytes.
#[derive(Clone, Copy, Debug, Error)]
pub enum PutFault {
    /// The file could not be written.
    #[error("the file could not be written")]
    Failed,
}

/// Why a sink did not take the whole piece, or did not hand on what it took.
#[derive(Clone, Copy, Debug, Error)]
pub enum SinkFault {
    /// The output could not be written.
    #[error("the output could not be written")]
    Failed,
}

/// What a call of a shelf asks for.
#[derive(Clone, Copy)]
pub enum CallKind {
    /// The bytes of a file.
    Fetch,
    /// That a file is set to bytes.
    Put,
}

/// A shelf of named files.
pub trait Shelf {
    ghost use Rattle.r4_ports.specs.declared.FetchFault.TheVariants.{Failed};

    /// The files that it holds, where it tells them.
    ghost held: { Self → Option Files };

    /// The calls made of it so far, in their order, where it tells them.
    ghost asked: { Self → Option (List Call) };

    /// How many fetches have failed.
    ghost fetch_faults: { Self → ℕ };

    /// How many puts have failed.
    ghost put_faults: { Self → ℕ };

    /// The first `cap` bytes of the named file, or all where it has fewer, and never more than `cap`. A name that a
    /// told shelf lacks has no bytes. It fails only where `fetch_faults` rises; a call that finds no memory answers
    /// `Memory`.
    fn fetch(&mut self, alloc: Global, name: &str, cap: usize) -> Result<Vec<u8>, FetchFault>
        ensures bytes { IfOk result (λ v. Fetched (held self.old) name.now cap v.items) }
        ensures at_most { IfOk result (λ v. length v.items ≤ cap) }
        ensures held { held self.new ≡ held self.old }
        ensures asked { Appended (asked self.old) (asked self.new) (fetch_of name.now ∷ []) }
        ensures never_falls { fetch_faults self.old ≤ fetch_faults self.new }
        ensures cause { IsErrOf result Failed → Rose (fetch_faults self.old) (fetch_faults self.new) }
        ensures put_faults { put_faults self.new ≡ put_faults self.old };

    /// Sets the named file to these bytes, and no other file. It fails only where `put_faults` rises, and the files
    /// are not told afterwards.
    fn put(&mut self, name: &str, bytes: &[u8]) -> Result<(), PutFault>
        ensures ok { OnOk result (PutInto (held self.old) (held self.new) name.now bytes.now) }
        ensures err { OnErr result (held self.new ≡ None) }
        ensures asked { Appended (asked self.old) (asked self.new) (put_of name.now ∷ []) }
        ensures cause { HasCause (put_faults self.old) (put_faults self.new) result }
        ensures fetch_faults { fetch_faults self.new ≡ fetch_faults self.old };
}

/// A sink of bytes, which are written to it in pieces. It may keep pieces back until it is flushed.
pub trait Sink {
    /// All that was written so far, where it tells it.
    ghost written: { Self → Option (List ℕ) };

    /// Whether all that it took has gone out.
    ghost is_flushed: { Self → Bool };

    /// How many writes and flushes have failed.
    ghost faults: { Self → ℕ };

    /// Appends a piece of 1 to 128 bytes. It fails only where `faults` rises, and a prefix of the piece was
    /// appended then.
    fn write(&mut self, piece: &[u8]) -> Result<(), SinkFault>
        requires not_empty { 1 ≤ length piece.now }
        requires small { length piece.now ≤ 128 }
        ensures ok { OnOk result (Appended (written self.old) (written self.new) piece.now) }
        ensures err { OnErr result (AppendedPrefix (written self.old) (written self.new) piece.now) }
        ensures cause { HasCause (faults self.old) (faults self.new) result };

    /// Hands all that the sink took to the outside. It fails only where `faults` rises.
    fn flush(&mut self) -> Result<(), SinkFault>
        ensures flushed { OnOk result (is_flushed self.new ≡ true) }
        ensures written { written self.new ≡ written self.old }
        ensures cause { HasCause (faults self.old) (faults self.new) result };
}
