//! The instruction table: the verbs of mips3_table.

ghost use Rattle.std.specs.Prelude.{◌<◌};

use crate::arguments::{put_decimal, quoted, word_number_at};
use crate::coding;
use crate::operation_names::put_operation;
use crate::scene::Scene;
use mips3_table::{
    Class, Form, class_of, form_of, is_64_bit, name_of, operation_of, row_named, row_of,
};
use std::alloc::{AllocError, Global};

/// Appends the answer of a verb.
pub fn put_answer(
    alloc: Global,
    scene: &mut Scene,
    verb: &str,
    arguments: &str,
    out: &mut String,
) -> Result<(), AllocError> {
    match verb {
        "row_of" => put_row(word_number_at(arguments, 0), out),
        "row_named" => put_decimal(named_row(arguments), "none", out),
        "class_of" => out.push_str(class_name(arguments)),
        "form_of" => out.push_str(form_of_name(arguments)),
        "operation_of" => put_operation_of(arguments, out),
        _ => coding::put_answer(alloc, scene, verb, arguments, out),
    }
}

fn named_row(arguments: &str) -> Option<u64> {
    Some(u64::from(row_named(quoted(arguments).as_bytes())?))
}

// Appends the number of a word's row, its name, and whether it is one of the 64-bit rows.
fn put_row(word: Option<u32>, out: &mut String) -> Result<(), AllocError> {
    match word {
        Some(word) => match row_of(word) {
            Some(row) => write!(out, "{row} {} {}", name_of(row), width_of(row)),
            None => out.push_str("none"),
        },
        None => out.push_str("?"),
    }
}

fn width_of(row: u8) -> u8
    requires { row < 129 }
{
    if is_64_bit(row) { 64 } else { 32 }
}

fn class_name(arguments: &str) -> &'static str {
    match word_number_at(arguments, 0) {
        Some(word) => match class_of(word) {
            Class::Opcode => "Opcode",
            Class::Special => "Special",
            Class::Regimm => "Regimm",
            Class::Cop0Move => "Cop0Move",
            Class::Cop0Function => "Cop0Function",
        },
        None => "?",
    }
}

fn put_operation_of(arguments: &str, out: &mut String) -> Result<(), AllocError> {
    match row_named(quoted(arguments).as_bytes()) {
        Some(row) => put_operation(operation_of(row), out),
        None => out.push_str("none"),
    }
}

fn form_of_name(arguments: &str) -> &'static str {
    match row_named(quoted(arguments).as_bytes()) {
        Some(row) => form_name(form_of(row)),
        None => "none",
    }
}

fn form_name(form: Form) -> &'static str {
    match form {
        Form::Target => "Target",
        Form::CompareBranch => "CompareBranch",
        Form::ZeroBranch => "ZeroBranch",
        Form::SignedImmediate => "SignedImmediate",
        Form::UnsignedImmediate => "UnsignedImmediate",
        Form::UpperImmediate => "UpperImmediate",
        Form::Memory => "Memory",
        Form::CacheOperation => "CacheOperation",
        Form::CoprocessorNumber => "CoprocessorNumber",
        Form::CoprocessorMemory => "CoprocessorMemory",
        Form::Shift => "Shift",
        Form::ShiftByRegister => "ShiftByRegister",
        Form::Source => "Source",
        Form::JumpAndLinkRegister => "JumpAndLinkRegister",
        Form::Code => "Code",
        Form::NoOperands => "NoOperands",
        Form::Destination => "Destination",
        Form::TwoSources => "TwoSources",
        Form::ThreeRegisters => "ThreeRegisters",
        Form::TrapRegisters => "TrapRegisters",
        Form::TrapImmediate => "TrapImmediate",
        Form::Cp0Move => "Cp0Move",
    }
}
