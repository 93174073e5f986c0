//! The arithmetic of the integer instructions, and the registers that it works on.
//!
//! Each function is the equation of one instruction, over registers of 64 bits. Its clause names the equation, which
//! stands in `specs/Arithmetic.antt` over whole numbers and integers, one for words and doublewords. An instruction
//! with an immediate or with a shift amount in a register has the function of the one without.
//!
//! - `registers`: the general registers with HI and LO.
//! - `sums`: sums and differences, those that overflow and those that wrap.
//! - `bits`: the operations on bits, and comparisons.
//! - `shifts`, `products`, `quotients`.
#![tactic(auto)]

pub mod bits;
mod numbers;
pub mod products;
pub mod quotients;
pub mod registers;
pub mod shifts;
pub mod sums;

pub use bits::{alu_and, alu_nor, alu_or, alu_slt, alu_sltu, alu_xor};
pub use products::{alu_dmult, alu_dmultu, alu_mult, alu_multu};
pub use quotients::{alu_ddiv, alu_ddivu, alu_div, alu_divu};
pub use registers::{Halves, Regs};
pub use shifts::{alu_dsll, alu_dsra, alu_dsrl, alu_sll, alu_sra, alu_srl};
pub use sums::{alu_add, alu_addu, alu_dadd, alu_daddu, alu_dsub, alu_dsubu, alu_sub, alu_subu};
