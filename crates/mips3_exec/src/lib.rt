//! What each integer instruction does, and the step of the processor over any memory system.
//!
//! `effect` gives the effect of an instruction on these registers at this pc: what goes to a register or to HI and LO, where
//! it jumps, which bytes of memory it wants, what is left to coprocessor 0, or which exception it raises. `loaded` is what a
//! load makes of the bytes that were read, and `stored` the bytes that a store writes; `is_aligned` tells of an access whether it
//! is an address error. The definitions have one equation for each operation of the instruction table (`specs/Effects.antt`),
//! and the bytes of loads and stores once for both (`specs/Accesses.antt`).
//!
//! A tick is defined without any memory, as a talk: the processor ends it, or asks one request and goes on with the reply
//! (`specs/Talk.antt`). The code of a step is generic over a memory system that answers such requests, and `make_tick` is
//! proved to hold the talk with it.
//!
//! Reading order: the effects, the operands of an instruction, the bytes that an operation moves, what loads and stores make
//! of them, and the effect of each operation; then the talk, the processor's state, the routes of addresses to memory, the
//! references to memory, the instructions of coprocessor 0, the step, the tick, and the run (`specs/Run.antt`).
#![tactic(auto)]

mod accesses;
mod effects;
mod executing;
mod merging;
mod operands;
mod processor;
mod references;
mod routes;
mod stepping;
mod system_control;
mod talk;
mod ticking;

pub use accesses::is_aligned;
pub use effects::{Effect, Touch};
pub use executing::effect;
pub use merging::{loaded, stored};
pub use processor::Cpu;
pub use talk::{Access, MemorySystem, Reply, Request, StepEnd};
pub use ticking::{Tick, make_run, make_tick};
