//! The PROM: its words, its source, and what its handler of virtual coherency exceptions does.
//!
//! The boot enters the image whose address the device register ENTRY has. A TLB refill goes on at 80000000. Any other exception
//! goes on at 80000180, but for the two of virtual coherency: of these the handler takes the line out of the caches, to memory,
//! and goes back to the instruction, which begins anew.
//!
//! The theory in `proofs/` follows the handler's ten words, tick by tick, over any memory system that serves them, and ties each tick
//! to a pause (`mips3_exec/specs/Pausing.antt`). It asks of a PROM that it has the handler (`specs/HandlerOf.antt`), and not that
//! it is this one. Reading order: `Instructions`, what each word does; `AnyTick` and `Serving`, a tick at one of them; `Due`, what the
//! handler will leave; `Handler`, `Sequence` and `CacheTick`, the ticks in their order; `Opened`, the tick that takes the exception;
//! `Coherency`, `SameRoute` and `Near`, where the address leads that the exception shows.
#![tactic(auto)]

mod source;
mod words;

pub use source::prom_source;
pub use words::prom;
