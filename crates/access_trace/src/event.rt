//! An event of the trace, and the verdict on a list of events.

/// What an event is.
#[derive(Clone, Copy, Default)]
pub enum EventKind {
    /// An instruction is fetched.
    #[default]
    Fetch,
    /// A load reads memory.
    Load,
    /// A store writes memory.
    Store,
    /// A beat of the disk moves 32 bytes from the device into RAM.
    BeatIn,
    /// A beat of the disk moves 32 bytes from RAM to the device.
    BeatOut,
    /// A CACHE instruction is carried out.
    Cache,
}

/// One event: a beat of the disk, or what an instruction asks of memory or of the caches.
#[derive(Clone, Copy, Default)]
pub struct Event {
    /// The number of the tick.
    pub tick: u32,
    pub kind: EventKind,
    /// Whether the access goes through the caches; false for a beat.
    pub cached: bool,
    /// Whether EXL and ERL were 0 and BEV was 1 as the step began; false for a beat.
    pub quiet: bool,
    /// The virtual address of the lowest byte touched, for CACHE the effective address; 0 for a beat.
    pub va: u32,
    /// The physical address of the lowest byte touched, for CACHE the one to which it translates.
    pub pa: u64,
    /// How many bytes are touched; for CACHE the code of the operation.
    pub size: u8,
    /// The bytes read or written, the first one highest; for CACHE the value of TagLo before it; 0 for a beat.
    pub value: u64,
}

/// A rule of cache discipline that an event breaks.
#[derive(Clone, Copy)]
pub enum Breach {
    /// A CACHE operation makes a line, or changes what a line stands for, with no regard to memory.
    Forge,
    /// A CACHE operation shows the tag of a line.
    Peek,
    /// An access may raise a coherency exception in a state that is not quiet.
    Unquiet,
    /// An access may meet a line that is older than the newest bytes.
    Old,
    /// The newest bytes may still stand in another line, and are owed to memory.
    Owed,
    /// A line that may hold the newest bytes is thrown away.
    Lost,
}

/// Whether a list of events keeps the rules of cache discipline.
#[derive(Clone, Copy)]
pub enum Verdict {
    /// No event breaks a rule.
    Yes,
    /// The first event that breaks a rule, by its number from 0, and the rule.
    No { event: u64, breach: Breach },
}
