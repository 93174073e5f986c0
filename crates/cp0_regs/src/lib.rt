//! The registers of the system control coprocessor (CP0), and how they change without exceptions.
//!
//! - `fields`: the fields of the registers, by the manual's names.
//! - `registers`: the table's numbers, and the bits of a register that MTC0 writes.
//! - `page_masks`: the run of pairs of ones that PageMask takes of a value.
//! - `cp0`: the 32 registers as one value, their reads and writes, the devices' lines, and the end of a tick.
//! - `mode`: what the processor reads off them: its mode, whether an interrupt is taken, and the rest.
//!
//! Clauses see `Cp0` as the list of its 32 words. Its type keeps that no register has a bit that it cannot have, so
//! that one that is not listed is zero, that Random is the index of a pair, and that PageMask is the mask of a page.
//! The table of the registers stands in specs/Registers.antt.
#![tactic(auto)]

mod cp0;
pub mod fields;
mod mode;
mod page_masks;
pub mod registers;

pub use cp0::Cp0;
pub use fields::Field;
pub use mode::Mode;
