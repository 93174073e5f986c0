//! The flat machine: the same processor over memory without caches. What the checker of cache discipline promises is said against
//! it: a run with the verdict yes is a run of this machine, paused where the handler of coherency exceptions ran.
//!
//! - `flat_memory`: RAM as one list of bytes, the PROM and the devices, as a memory system.
//! - `flat_state`: `Flat`, the machine: its state at reset, its tick, its run, its pause, and what it shows.
//! - `pausing`: a tick without a step, and the processor as the handler leaves it.
//!
//! The definitions stand in specs/: FlatMemory.antt tells what an access reaches, on one page; FlatMachine.antt has reset and tick,
//! Pause.antt the pause, Reads.antt what a run reads, and FlatRun.antt the run with its pauses.
#![tactic(auto)]

mod flat_memory;
mod flat_state;
mod pausing;

pub use flat_memory::FlatMemory;
pub use flat_state::Flat;
