//! The instruction table of MIPS III: its 129 integer instructions, each written once.
//!
//! A row of the table has a name, the bits by which a word is known to be of it (mask and match), the form of
//! its operands, what it does with them, and a mark for the rows of 64 bits. The definitions are the table in `specs/`, to be laid beside
//! the opcode tables of the MIPS R4000 Microprocessor User's Manual (2nd edition, Heinrich, appendix A). The code
//! has the same rows once more, as lists for macros, one list a class; what is read from a list is proved to be
//! the table's. Floating point and coprocessor 2 have the rows that make them unusable here, and no others.
//!
//! Reading order: the classes of rows, the forms of operands, the operations, an instruction's fields, the rows, and what
//! is read from them.
#![tactic(auto)]

mod classes;
mod instruction;
mod operand_forms;
mod operations;
mod rows;
mod table;

pub use classes::{Class, class_of};
pub use instruction::Inst;
pub use operand_forms::{Form, RD_AT, RS_AT, RT_AT, SA_AT, Widths, widths_of};
pub use operations::{
    Amount, Comparison, Coprocessor, DelaySlot, Link, Operation, Overflow, Signedness, Size, Width,
};
pub use table::{
    RowRecord, at_most_one_row, form_of, is_64_bit, name_of, names_differ, operation_of, reads,
    record_of, row_named, row_of,
};
