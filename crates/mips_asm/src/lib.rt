//! The assembler of a whole source: an image's base, entry and bytes, or its first bad line with the reason.
//!
//! A line is cut into tokens by `mips_text`, compared with those that its statement expects, and read to what it says
//! or to the first reason for which it says nothing. The base of the image is found, with lines that cannot be read
//! counting as lines without bytes; a first pass gives each line its address and the labels theirs, and a second pass
//! gives each line its bytes. The definitions speak of all lines at once and not of passes: specs/Layout.antt (the lines,
//! the base, the address of each line, its labels, its reasons) and specs/Assembly.antt (its bytes, the first line that
//! has a fault, what a source is assembled to); a line and its statement are defined in mips_text. proofs/Examples.antt
//! computes whole sources by the definitions alone.
//!
//! Reading order: the statements and the tokens that they expect, the rows that are named, what operands stand for, the
//! reading of a line, the lines of a source, labels, addresses, bytes, the passes, printed text as a source.
#![tactic(auto)]

mod built;
mod coding;
mod expected;
mod labels;
mod layout;
mod matching;
mod named_rows;
mod operands;
mod passes;
mod printed;
mod ranges;
mod reading;
mod sources;
mod statements;

pub use built::{AsmFault, Built};
pub use passes::assemble;
pub use printed::printed_text_assembles;
