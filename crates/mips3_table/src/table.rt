//! What is read from the table: the row of a word and of a name, and what the table says of a row.

ghost use Rattle.std.specs.Prelude.{◌≡◌, ◌<◌, ◌≤◌, ◌↔◌, ℕ, IsNone, IfSome, length, bytes_eq};
ghost use Rattle.mips3_table.specs.Rows.{rows, row_at};
ghost use Rattle.mips3_table.specs.Matching as law;
ghost use Rattle.mips3_table.specs.Matching.{AtMostOneRow, Describes, IsNamed, IsRowOf, NamesDiffer, match_in, row_of as row_of_word};

use crate::classes::{Class, class_of};
use crate::operand_forms::Form;
use crate::operations::Amount::{InField, InFieldPlus32, InRegister};
use crate::operations::Comparison::{
    Equal, Greater, GreaterOrEqual, GreaterOrEqualUnsigned, Less, LessOrEqual, LessUnsigned,
    NotEqual,
};
use crate::operations::Coprocessor::{One, Two};
use crate::operations::DelaySlot::{AlwaysExecuted, NullifiedUnlessTaken};
use crate::operations::Link::{IntoDestination, IntoRegister31, Unlinked};
use crate::operations::Operation;
use crate::operations::Operation::{
    Add, And, Branch, Breakpoint, Divide, ExclusiveOr, Jump, Load, LoadLeft, LoadLinked, LoadRight,
    LoadUpper, MoveFromCp0, MoveFromHi, MoveFromLo, MoveToCp0, MoveToHi, MoveToLo, Multiply, NotOr,
    OperateCache, Or, ProbeTlb, ReadTlb, ReturnFromException, SetWhere, ShiftLeft,
    ShiftRightArithmetic, ShiftRightLogical, Store, StoreConditional, StoreLeft, StoreRight,
    Subtract, Synchronize, SystemCall, TrapWhere, UseCoprocessor, WriteIndexedTlb, WriteRandomTlb,
};
use crate::operations::Overflow::{Traps, Wraps};
use crate::operations::Signedness::{Signed, Unsigned};
use crate::operations::Size::{Byte, Half, Wide};
use crate::operations::Width::{Double, Word};
use crate::{cop0_function_rows, cop0_move_rows, opcode_rows, regimm_rows, special_rows};

/// What the table says of a row, but for the words that match it.
#[derive(Clone, Copy)]
pub struct RowRecord {
    /// The name, as an assembler writes it.
    pub name: &'static str,
    /// The form of the operands.
    pub form: Form,
    /// What is done with them.
    pub operation: Operation,
    /// Whether it is one of the 64-bit rows.
    pub is_64_bit: bool,
}

macro_rules! number_of_match {
    (($word:expr), $mask:literal, $($number:literal $name:literal $match:literal $width:literal $form:ident $operation:expr,)*) => {
        match $word & $mask {
            $($match => Some($number),)*
            _ => None,
        }
    };
}

macro_rules! record_of_row {
    (($row:expr), $mask:literal, $($number:literal $name:literal $match:literal $width:literal $form:ident $operation:expr,)*) => {
        match $row {
            $($number => RowRecord {
                name: $name,
                form: Form::$form,
                operation: $operation,
                is_64_bit: $width == 64,
            },)*
            _ => unreachable!(),
        }
    };
}

/// At most one row of the table matches a word, and the table has 129 rows.
#[tactic(auto, using(crate::proofs::Apart::at_most_one_row, crate::proofs::Apart::rows_count))]
pub fn at_most_one_row()
    ensures one { AtMostOneRow }
    ensures count { length rows ≡ 129 }
{}

/// No two rows of the table have the same name.
#[tactic(auto, using(crate::proofs::Names::same_name))]
pub fn names_differ()
    ensures { NamesDiffer }
{}

/// The number of the row that the word matches. A word that matches none is reserved.
pub fn row_of(word: u32) -> Option<u8>
    ensures value { result ≡ row_of_word word }
    ensures row { (number : ℕ) → (result ≡ Some number) ↔ IsRowOf word number }
    ensures reserved { IsNone result ↔ ((number : ℕ) → ¬ IsRowOf word number) }
    ensures in_table { IfSome result (λ number. number < 129) }
{
    matched_row(word)
}

#[tactic(auto, using(crate::proofs::ByClass::row_of_in))]
fn matched_row(word: u32) -> Option<u8>
    ensures { result ≡ row_of_word word }
{
    match class_of(word) {
        Class::Opcode => opcode_row(word),
        Class::Special => special_row(word),
        Class::Regimm => regimm_row(word),
        Class::Cop0Move => cop0_move_row(word),
        Class::Cop0Function => cop0_function_row(word),
    }
}

#[tactic(auto, unfolding(crate::specs::Matching::match_in))]
fn opcode_row(word: u32) -> Option<u8>
    ensures { result ≡ match_in Class.Opcode word }
{
    opcode_rows!(number_of_match, word)
}

#[tactic(auto, unfolding(crate::specs::Matching::match_in))]
fn special_row(word: u32) -> Option<u8>
    ensures { result ≡ match_in Class.Special word }
{
    special_rows!(number_of_match, word)
}

#[tactic(auto, unfolding(crate::specs::Matching::match_in))]
fn regimm_row(word: u32) -> Option<u8>
    ensures { result ≡ match_in Class.Regimm word }
{
    regimm_rows!(number_of_match, word)
}

#[tactic(auto, unfolding(crate::specs::Matching::match_in))]
fn cop0_move_row(word: u32) -> Option<u8>
    ensures { result ≡ match_in Class.Cop0Move word }
{
    cop0_move_rows!(number_of_match, word)
}

#[tactic(auto, unfolding(crate::specs::Matching::match_in))]
fn cop0_function_row(word: u32) -> Option<u8>
    ensures { result ≡ match_in Class.Cop0Function word }
{
    cop0_function_rows!(number_of_match, word)
}

/// What the table says of a row.
pub fn record_of(row: u8) -> RowRecord
    requires { row < 129 }
    ensures { Describes (row_at row) result }
{
    match row {
        0..=53 => opcode_record(row),
        54..=105 => special_record(row),
        106..=119 => regimm_record(row),
        120..=123 => cop0_move_record(row),
        _ => cop0_function_record(row),
    }
}

#[tactic(auto, unfolding(crate::specs::Rows::row_at, crate::specs::Rows::rows))]
fn opcode_record(row: u8) -> RowRecord
    requires { row < 54 }
    ensures { Describes (row_at row) result }
{
    opcode_rows!(record_of_row, row)
}

#[tactic(auto, unfolding(crate::specs::Rows::row_at, crate::specs::Rows::rows))]
fn special_record(row: u8) -> RowRecord
    requires from { 54 ≤ row }
    requires to { row < 106 }
    ensures { Describes (row_at row) result }
{
    special_rows!(record_of_row, row)
}

#[tactic(auto, unfolding(crate::specs::Rows::row_at, crate::specs::Rows::rows))]
fn regimm_record(row: u8) -> RowRecord
    requires from { 106 ≤ row }
    requires to { row < 120 }
    ensures { Describes (row_at row) result }
{
    regimm_rows!(record_of_row, row)
}

#[tactic(auto, unfolding(crate::specs::Rows::row_at, crate::specs::Rows::rows))]
fn cop0_move_record(row: u8) -> RowRecord
    requires from { 120 ≤ row }
    requires to { row < 124 }
    ensures { Describes (row_at row) result }
{
    cop0_move_rows!(record_of_row, row)
}

#[tactic(auto, unfolding(crate::specs::Rows::row_at, crate::specs::Rows::rows))]
fn cop0_function_record(row: u8) -> RowRecord
    requires from { 124 ≤ row }
    requires to { row < 129 }
    ensures { Describes (row_at row) result }
{
    cop0_function_rows!(record_of_row, row)
}

/// The name of a row, as an assembler writes it.
pub fn name_of(row: u8) -> &'static str
    requires { row < 129 }
    ensures { result.now ≡ (row_at row).name }
{
    record_of(row).name
}

/// The form of a row's operands.
pub fn form_of(row: u8) -> Form
    requires { row < 129 }
    ensures { result ≡ (row_at row).form }
{
    record_of(row).form
}

/// What a row does with its operands.
pub fn operation_of(row: u8) -> Operation
    requires { row < 129 }
    ensures { result ≡ (row_at row).operation }
{
    record_of(row).operation
}

/// Whether a row is one of the 64-bit rows.
pub fn is_64_bit(row: u8) -> bool
    requires { row < 129 }
    ensures { result ≡ (row_at row).is_64_bit }
{
    record_of(row).is_64_bit
}

/// Whether a text is this name.
pub fn reads(text: &[u8], name: &str) -> bool
    ensures { result ≡ bytes_eq text.now name.now }
{
    text == name.as_bytes()
}

/// The number of the row that has this name.
pub fn row_named(name: &[u8]) -> Option<u8>
    ensures value { result ≡ law.row_named name.now }
    ensures row { (number : ℕ) → (result ≡ Some number) ↔ IsNamed name.now number }
    ensures in_table { IfSome result (λ number. number < 129) }
{
    first_named(name)
}

fn first_named(name: &[u8]) -> Option<u8>
    ensures { result ≡ law.row_named name.now }
{
    for row in 0..129 {
        let of_row = name_of(row);
        let is_it = reads(name, of_row);
        if is_it {
            return Some(row);
        }
    }
    None
}
