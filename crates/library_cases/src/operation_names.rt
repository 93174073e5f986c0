//! Operations as text: the name of the operation, and of each of its parts.

use mips3_table::{
    Amount, Comparison, Coprocessor, DelaySlot, Link, Operation, Overflow, Signedness, Size, Width,
};
use std::alloc::AllocError;

/// Appends an operation: its name and its parts, with blanks between them.
pub fn put_operation(operation: Operation, out: &mut String) -> Result<(), AllocError> {
    out.push_str(name_of_operation(operation))?;
    put_part(first_part(operation), out)?;
    put_part(second_part(operation), out)?;
    put_part(third_part(operation), out)
}

fn put_part(part: &str, out: &mut String) -> Result<(), AllocError> {
    if part.is_empty() {
        return Ok(());
    }
    write!(out, " {part}")
}

fn name_of_operation(operation: Operation) -> &'static str {
    match operation {
        Operation::Jump(_) => "Jump",
        Operation::Branch(_, _, _) => "Branch",
        Operation::Add(_, _) => "Add",
        Operation::Subtract(_, _) => "Subtract",
        Operation::And => "And",
        Operation::Or => "Or",
        Operation::ExclusiveOr => "ExclusiveOr",
        Operation::NotOr => "NotOr",
        Operation::SetWhere(_) => "SetWhere",
        Operation::LoadUpper => "LoadUpper",
        Operation::ShiftLeft(_, _) => "ShiftLeft",
        Operation::ShiftRightLogical(_, _) => "ShiftRightLogical",
        Operation::ShiftRightArithmetic(_, _) => "ShiftRightArithmetic",
        Operation::Multiply(_, _) => "Multiply",
        Operation::Divide(_, _) => "Divide",
        Operation::MoveFromHi => "MoveFromHi",
        Operation::MoveFromLo => "MoveFromLo",
        Operation::MoveToHi => "MoveToHi",
        Operation::MoveToLo => "MoveToLo",
        Operation::TrapWhere(_) => "TrapWhere",
        _ => name_of_other(operation),
    }
}

// The name of an operation on memory or of the system.
fn name_of_other(operation: Operation) -> &'static str {
    match operation {
        Operation::SystemCall => "SystemCall",
        Operation::Breakpoint => "Breakpoint",
        Operation::Synchronize => "Synchronize",
        Operation::Load(_, _) => "Load",
        Operation::LoadLeft(_) => "LoadLeft",
        Operation::LoadRight(_) => "LoadRight",
        Operation::LoadLinked(_) => "LoadLinked",
        Operation::Store(_) => "Store",
        Operation::StoreLeft(_) => "StoreLeft",
        Operation::StoreRight(_) => "StoreRight",
        Operation::StoreConditional(_) => "StoreConditional",
        Operation::OperateCache => "OperateCache",
        Operation::UseCoprocessor(_) => "UseCoprocessor",
        Operation::MoveFromCp0(_) => "MoveFromCp0",
        Operation::MoveToCp0(_) => "MoveToCp0",
        Operation::ReadTlb => "ReadTlb",
        Operation::WriteIndexedTlb => "WriteIndexedTlb",
        Operation::WriteRandomTlb => "WriteRandomTlb",
        Operation::ProbeTlb => "ProbeTlb",
        Operation::ReturnFromException => "ReturnFromException",
        _ => "?",
    }
}

// The name of an operation's first part; an empty one where there is none.
fn first_part(operation: Operation) -> &'static str {
    match operation {
        Operation::Jump(link) => link_name(link),
        Operation::Branch(comparison, _, _)
        | Operation::SetWhere(comparison)
        | Operation::TrapWhere(comparison) => comparison_name(comparison),
        Operation::Load(size, _) | Operation::Store(size) => size_name(size),
        Operation::UseCoprocessor(coprocessor) => coprocessor_name(coprocessor),
        Operation::Add(width, _)
        | Operation::Subtract(width, _)
        | Operation::ShiftLeft(width, _)
        | Operation::ShiftRightLogical(width, _)
        | Operation::ShiftRightArithmetic(width, _)
        | Operation::Multiply(width, _)
        | Operation::Divide(width, _)
        | Operation::LoadLeft(width)
        | Operation::LoadRight(width)
        | Operation::LoadLinked(width)
        | Operation::StoreLeft(width)
        | Operation::StoreRight(width)
        | Operation::StoreConditional(width)
        | Operation::MoveFromCp0(width)
        | Operation::MoveToCp0(width) => width_name(width),
        _ => "",
    }
}

// The name of its second part; an empty one where there is none.
fn second_part(operation: Operation) -> &'static str {
    match operation {
        Operation::Branch(_, slot, _) => slot_name(slot),
        Operation::Add(_, overflow) | Operation::Subtract(_, overflow) => overflow_name(overflow),
        Operation::ShiftLeft(_, amount)
        | Operation::ShiftRightLogical(_, amount)
        | Operation::ShiftRightArithmetic(_, amount) => amount_name(amount),
        Operation::Multiply(_, signedness)
        | Operation::Divide(_, signedness)
        | Operation::Load(_, signedness) => signedness_name(signedness),
        _ => "",
    }
}

// The name of its third part; an empty one where there is none.
fn third_part(operation: Operation) -> &'static str {
    match operation {
        Operation::Branch(_, _, link) => link_name(link),
        _ => "",
    }
}

fn width_name(width: Width) -> &'static str {
    match width {
        Width::Word => "Word",
        Width::Double => "Double",
    }
}

fn overflow_name(overflow: Overflow) -> &'static str {
    match overflow {
        Overflow::Traps => "Traps",
        Overflow::Wraps => "Wraps",
    }
}

fn comparison_name(comparison: Comparison) -> &'static str {
    match comparison {
        Comparison::Equal => "Equal",
        Comparison::NotEqual => "NotEqual",
        Comparison::Less => "Less",
        Comparison::LessUnsigned => "LessUnsigned",
        Comparison::GreaterOrEqual => "GreaterOrEqual",
        Comparison::GreaterOrEqualUnsigned => "GreaterOrEqualUnsigned",
        Comparison::LessOrEqual => "LessOrEqual",
        Comparison::Greater => "Greater",
    }
}

fn slot_name(slot: DelaySlot) -> &'static str {
    match slot {
        DelaySlot::AlwaysExecuted => "AlwaysExecuted",
        DelaySlot::NullifiedUnlessTaken => "NullifiedUnlessTaken",
    }
}

fn link_name(link: Link) -> &'static str {
    match link {
        Link::Unlinked => "Unlinked",
        Link::IntoRegister31 => "IntoRegister31",
        Link::IntoDestination => "IntoDestination",
    }
}

fn amount_name(amount: Amount) -> &'static str {
    match amount {
        Amount::InField => "InField",
        Amount::InFieldPlus32 => "InFieldPlus32",
        Amount::InRegister => "InRegister",
    }
}

fn signedness_name(signedness: Signedness) -> &'static str {
    match signedness {
        Signedness::Signed => "Signed",
        Signedness::Unsigned => "Unsigned",
    }
}

fn size_name(size: Size) -> &'static str {
    match size {
        Size::Byte => "Byte",
        Size::Half => "Half",
        Size::Wide(width) => width_name(width),
    }
}

fn coprocessor_name(coprocessor: Coprocessor) -> &'static str {
    match coprocessor {
        Coprocessor::One => "One",
        Coprocessor::Two => "Two",
    }
}
