//! Words and texts: what every crate of the repository needs of machine words and of numbers as text.
//!
//! - `fields`: sign extension of a half and of a word, and the bit fields of a word.
//! - `reading`: what a digit stands for, the number of a decimal text, and of a hexadecimal text of a fixed width.
//! - `writing`: a line of bounded room, and numbers appended to it as text.
//!
//! Reading and writing are each other's inverse: the clauses of `read_dec` and `read_hex` say that a text is
//! read exactly where it is what `put_dec` or `put_hex` writes of the number.
//! The definitions stand in specs/Words.antt and specs/Texts.antt.
#![tactic(auto)]

mod fields;
mod reading;
mod writing;

pub use fields::{field, sext16, sext32};
pub use reading::{read_dec, read_hex, value_of_digit};
use std::alloc::AllocError;
pub use writing::{Line, put_dec, put_hex, put_text};

/// The error of want of memory.
pub type Memory = AllocError;
