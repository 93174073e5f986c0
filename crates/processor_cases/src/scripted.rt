//! The memory system of a case: it gives the replies that the case names, whatever the address, and keeps what it was asked.

ghost use Rattle.std.specs.Prelude.{◌≡◌, ◌≤◌, ◌<◌, ◌%◌, ◌^◌};
ghost use Rattle.mips3_exec.specs.Talk.{IsReadReply, IsStoreReply};
ghost use Rattle.processor_cases.specs.Scripted as law;

use mips3_exec::{Access, MemorySystem, Reply, Request};

/// How a memory system answers.
#[derive(Clone, Copy)]
pub enum Manner {
    /// With the bytes that a fetch or a load wants, or by storing.
    Serves,
    /// With a bus error.
    Refuses,
    /// With a coherency exception.
    Surprises,
    /// A store with the end of the run, by this halt code; a fetch or a load with its bytes.
    Ends(u32),
}

/// A memory system with replies by a script.
#[derive(Clone, Copy)]
pub struct Scripted {
    /// The word that a fetch gives.
    pub word: u32,
    pub fetching: Manner,
    /// The bytes that a load gives, the low ones of this number.
    pub bytes: u64,
    pub touching: Manner,
    /// The levels of IP2 to IP6, in bits 0 to 4.
    pub levels: u8,
    /// The last fetch, and the last access to data.
    pub fetched: Option<Access>,
    pub touched: Option<Request>,
}

// The low bytes of a number, 1 to 8 of them.
fn low_bytes(number: u64, size: u8) -> u64
    requires some { 1 ≤ size }
    requires most { size ≤ 8 }
    ensures value { result ≡ number % 256 ^ size }
    ensures fits { result < 256 ^ size }
{
    match size {
        1 => number % 0x100,
        2 => number % 0x1_0000,
        3 => number % 0x100_0000,
        4 => number % 0x1_0000_0000,
        5 => number % 0x100_0000_0000,
        6 => number % 0x1_0000_0000_0000,
        7 => number % 0x100_0000_0000_0000,
        _ => number,
    }
}

impl Scripted {
    // The reply to a fetch.
    fn fetch(&self) -> Reply
        ensures reply { result ≡ law.read_in self.now.fetching self.now.word }
        ensures answer { IsReadReply (2 ^ 32) result }
    {
        match self.fetching {
            Manner::Serves | Manner::Ends(_) => Reply::Value(u64::from(self.word)),
            Manner::Refuses => Reply::BusError,
            Manner::Surprises => Reply::Coherency,
        }
    }

    // The reply to a load.
    fn load(&self, size: u8) -> Reply
        requires some { 1 ≤ size }
        requires most { size ≤ 8 }
        ensures reply { result ≡ law.read_in self.now.touching (self.now.bytes % 256 ^ size) }
        ensures answer { IsReadReply (256 ^ size) result }
    {
        match self.touching {
            Manner::Serves | Manner::Ends(_) => Reply::Value(low_bytes(self.bytes, size)),
            Manner::Refuses => Reply::BusError,
            Manner::Surprises => Reply::Coherency,
        }
    }

    // The reply to a store.
    fn store(&self) -> Reply
        ensures reply { result ≡ law.stored_in self.now.touching }
        ensures answer { IsStoreReply result }
    {
        match self.touching {
            Manner::Serves => Reply::Stored,
            Manner::Refuses => Reply::BusError,
            Manner::Surprises => Reply::Coherency,
            Manner::Ends(code) => Reply::Halt(code),
        }
    }
}

impl MemorySystem for Scripted {
    ghost use Rattle.processor_cases.specs.Scripted.{scripted_ask};

    ghost ask_gives = { scripted_ask };

    #[tactic(auto, unfolding(crate::specs::Scripted::scripted_ask))]
    fn ask(&mut self, request: Request) -> Reply {
        match request {
            Request::Inputs { .. } | Request::Beat => Reply::Done,
            Request::Levels => Reply::Levels(self.levels % 32),
            Request::Fetch { access } => {
                self.fetched = Some(access);
                self.fetch()
            }
            Request::Load { size, .. } => {
                self.touched = Some(request);
                self.load(size)
            }
            Request::Store { .. } => {
                self.touched = Some(request);
                self.store()
            }
            Request::Cache { tag, .. } => {
                self.touched = Some(request);
                Reply::Tag(tag)
            }
        }
    }
}
