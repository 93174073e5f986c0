//! The physical memory of the machine: RAM as a flat list of bytes, the PROM's words, and the address map.
//!
//! - `map`: what stands at a physical address, with the sizes and bases of the parts.
//! - `memory`: the 8 MB of RAM, of which clauses see the list of its bytes, and the words of the PROM.
//! - `big_endian`: words and halves that stand in bytes, the high byte first.
//! - `unmapped`: the virtual addresses of kseg0 and kseg1, and the physical addresses that they show.
//!
//! The definitions stand in specs/; proofs/Replaced.antt has the laws of a list of
//! bytes of which some were replaced, for the crates above.
#![tactic(auto)]

pub mod big_endian;
pub mod map;
pub mod memory;
pub mod unmapped;

pub use big_endian::{half_at, number_at, word_at};
pub use map::{DEVICE_BASE, DEVICE_SIZE, PROM_BASE, PROM_SIZE, RAM_SIZE, Spot, where_is};
pub use memory::{Prom, Ram, put_bytes, put_number, put_zeros};
pub use unmapped::{is_unmapped, physical};
