//! The assembler's text of one line: its tokens, what they stand for, and the printed text of an instruction.
//!
//! `tokens` cuts a line into names, numbers, texts and marks. `register_of`, `cp0_register_of`, `number_of`, `text_size`
//! and `push_text` say what a token stands for. `operands_of` lists the operands of a form, which give both the texts
//! that are printed and the tokens that a statement is read from. `print_inst` prints an instruction of `mips3_table` as
//! a statement, and `print_word` any word: what is printed is read back as the word, by the definitions of a line and of
//! its bytes that the assembler has.
//!
//! `Operand`, `Expected`, `Statement`, `Item` and `Line` are the types in which those definitions speak, and the code of
//! this crate and of the assembler with them.
//!
//! Reading order: the reasons of a refusal, the kinds of tokens, a line cut into tokens; the names of registers, what
//! names, numbers and texts stand for; operands, statements and what a line says; the text of each kind of operand, the
//! text of an instruction.
#![tactic(auto)]

mod forms;
mod item;
mod lexing;
mod names;
mod operand;
mod printing;
mod reading;
mod reason;
mod statement;
mod texts;
mod token;
mod writing;

pub use forms::operands_of;
pub use item::{Bytes, Item, Line, Name, Target, Words};
pub use lexing::tokens;
pub use operand::{Expected, Field, Operand, Range};
pub use printing::{print_inst, print_word};
pub use reading::{cp0_register_of, number_of, register_of};
pub use reason::AsmWhy;
pub use statement::Statement;
pub use texts::{push_text, text_size};
pub use token::{Token, TokenKind};
