//! The script of a run: what comes to the machine from outside, each input with the tick at which it comes.
//!
//! A script is a text of lines such as `5 key 0d`, `7 irq 4 1`, `9 hold` and `12 go`. It is read to its inputs, or to its first
//! bad line with the first reason for which that line is bad. The definitions speak of all lines at once: specs/Grammar.antt
//! (lines and words, the rows, what a line says, which lines are bad, what a text says) and specs/Inputs.antt (what is kept
//! of a list of inputs). proofs/Examples.antt computes whole texts by the definitions alone.
//!
//! - `inputs`: one input: a byte for the console, a level of an interrupt line, the disk held or let go.
//! - `script`: the inputs of a run in order. Its type keeps that their ticks never fall and that their lines are 4 to 6.
//! - `faults`: why a text is no script.
//! - `parts`, `rows`, `lines`, `taking`, `reading`: the text cut into lines and words, the words after the first, a line as it
//!   is read, a line taken into a script, and the whole text.
#![tactic(auto)]

mod faults;
mod inputs;
mod lines;
mod parts;
mod reading;
mod rows;
mod script;
mod taking;

pub use faults::{ScriptFault, ScriptWhy};
pub use inputs::{Input, What};
pub use reading::read_script;
pub use script::Script;
