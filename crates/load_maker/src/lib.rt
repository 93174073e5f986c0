//! A large valid input from a number: a program that loads, changes, stores, writes back and loads again the words of two mapped
//! pages, as a sequence of numbers says.
//!
//! - `instructions`: the words of the instructions that the program has.
//! - `program`: the sequence, the words of the program, and their bytes.
//! - `summary`: the line that is told of its run.
//!
//! The definitions stand in specs/Instructions.antt, specs/Program.antt, which is to be laid beside the text of docs/LOADS.md, and
//! specs/Summary.antt.
#![tactic(auto)]

mod instructions;
mod program;
mod summary;

pub use program::{PROGRAM_BASE, make_words, word_bytes};
pub use summary::{Summary, write_summary};
