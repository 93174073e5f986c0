//! What the processor asks of a memory system, and what it replies.

/// A reference to memory: through the caches or past them, from a quiet state or not, and where.
#[derive(Clone, Copy)]
pub struct Access {
    /// Whether it goes through the caches.
    pub cached: bool,
    /// Whether EXL and ERL were 0 and BEV 1 as the step began.
    pub quiet: bool,
    /// The virtual address of its lowest byte.
    pub va: u32,
    /// The physical address of its lowest byte, of 36 bits.
    pub pa: u64,
}

/// What the processor asks.
#[derive(Clone, Copy)]
pub enum Request {
    /// Apply the inputs that were recorded for this tick.
    Inputs {
        tick: u32,
    },
    /// Make a beat of the disk, where one is due.
    Beat,
    /// The levels of the interrupt lines IP2 to IP6.
    Levels,
    /// The instruction word at an address.
    Fetch {
        access: Access,
    },
    /// The bytes from an address on, 1 to 8 of them.
    Load {
        access: Access,
        size: u8,
    },
    /// Set the bytes from an address on, 1 to 8 of them, to a value.
    Store {
        access: Access,
        size: u8,
        value: u64,
    },
    /// The cache operation of this code, with the value of TagLo before it.
    Cache {
        access: Access,
        code: u8,
        tag: u32,
    },
}

/// What a memory system replies.
#[derive(Clone, Copy)]
pub enum Reply {
    /// It was done, and there is nothing to tell.
    Done,
    /// A beat moved 32 bytes: out of RAM to the disk, or into RAM.
    Moved { out: bool, pa: u64 },
    /// The levels of IP2 to IP6, in bits 0 to 4.
    Levels(u8),
    /// The bytes that were read, the first one highest.
    Value(u64),
    /// The bytes were stored.
    Stored,
    /// The store ends the run with this tick, with this halt code.
    Halt(u32),
    /// The value of TagLo after a cache operation.
    Tag(u32),
    /// A bus error.
    BusError,
    /// A coherency exception.
    Coherency,
}

/// How a step ended.
#[derive(Clone, Copy)]
pub enum StepEnd {
    /// The instruction was carried out.
    Went,
    /// The instruction was carried out, and wrote Wired.
    WroteWired,
    /// An exception or an interrupt was taken, with this code of Cause.
    Trapped(u8),
}

/// A memory system, by what it does at a request.
pub trait MemorySystem {
    ghost use Rattle.std.specs.Prelude.{◌≡◌};
    ghost use Rattle.mips3_exec.specs.Talk.{Outcome, IsAsked, IsAnswer};
    ghost use Rattle.mips3_exec.specs.declared.talk.Request.{Request};

    /// What it is after a request, and its reply.
    ghost ask_gives: { Self → Request → Outcome Self };

    /// Answers a request, one that a processor makes.
    fn ask(&mut self, request: Request) -> Reply
        requires asked { IsAsked request }
        ensures memory { self.new ≡ (ask_gives self.old request).memory }
        ensures reply { result ≡ (ask_gives self.old request).reply }
        ensures answer { IsAnswer request result };
}
