//! The instruction of a word and the word of an instruction, both read from the one table of `mips3_table`.
//!
//! `decode` gives the row of a word with the fields of the row's operands, or None for a reserved word. `encode` gives
//! the word of an instruction whose fields are in range. Each undoes the other: an instruction is what its word is
//! decoded to, and a word whose unused bits are zero is what its instruction is encoded to.
//!
//! `branch_target` and `jump_target` are where branches and jumps go by their numbers, and `branch_distance` and
//! `jump_number` the numbers by which they reach a target.
//!
//! Reading order: the fields of a form, taken from a word and put into one; the table read both ways; then the targets.
#![tactic(auto)]

mod coding;
mod fields;
mod targets;

pub use coding::{decode, encode};
pub use targets::{branch_distance, branch_target, jump_number, jump_target};
