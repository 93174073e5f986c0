//! The effect of each operation.

ghost use Rattle.std.specs.Prelude.{◌≡◌, ◌<◌, ◌*◌, ◌^◌, ℕ, pos, IsTrue};
ghost use Rattle.mips3_alu.specs.Arithmetic as arithmetic;
ghost use Rattle.mips3_exec.specs.Operands as operands;
ghost use Rattle.mips3_exec.specs.Operands.{bits};
ghost use Rattle.mips3_exec.specs.Effects as law;
ghost use Rattle.mips3_exec.specs.Effects.{operation_of};
ghost use Rattle.mips3_table.specs.Instructions.{IsInst};
ghost use Rattle.mips3_exec.specs.Ranges.{AlignsByBytes, HasFields, HasRegisters, LeavesSystem, RaisesItsOwn, TouchesFew, TouchesMoved, amount_fits, is_computed, shifts_within};

use crate::accesses::moved;
use crate::effects::{Effect, Touch};
use crate::operands::{address, amount, destination, link_register, link_value, second, target};
use cp0_exceptions::codes::{BREAKPOINT, COPROCESSOR_UNUSABLE, OVERFLOW, SYSTEM_CALL, TRAP};
use mips3_alu::{
    Halves, Regs, alu_add, alu_addu, alu_and, alu_dadd, alu_daddu, alu_ddiv, alu_ddivu, alu_div,
    alu_divu, alu_dmult, alu_dmultu, alu_dsll, alu_dsra, alu_dsrl, alu_dsub, alu_dsubu, alu_mult,
    alu_multu, alu_nor, alu_or, alu_sll, alu_slt, alu_sltu, alu_sra, alu_srl, alu_sub, alu_subu,
    alu_xor,
};
use mips3_table::Operation::{
    Add, And, Branch, Breakpoint, Divide, ExclusiveOr, Jump, Load, LoadLeft, LoadLinked, LoadRight,
    LoadUpper, MoveFromCp0, MoveFromHi, MoveFromLo, MoveToCp0, MoveToHi, MoveToLo, Multiply, NotOr,
    OperateCache, Or, ProbeTlb, ReadTlb, ReturnFromException, SetWhere, ShiftLeft,
    ShiftRightArithmetic, ShiftRightLogical, Store, StoreConditional, StoreLeft, StoreRight,
    Subtract, Synchronize, SystemCall, TrapWhere, UseCoprocessor, WriteIndexedTlb, WriteRandomTlb,
};
use mips3_table::{
    Amount, Comparison, Coprocessor, DelaySlot, Form, Inst, Link, Operation, Overflow, Signedness,
    Width, record_of,
};
use r4_words::sext32;

// Whether a comparison holds of two values.
fn holds(comparison: Comparison, a: u64, b: u64) -> bool
    ensures { result ≡ law.holds comparison a b }
{
    match comparison {
        Comparison::Equal => a == b,
        Comparison::NotEqual => a != b,
        Comparison::Less => alu_slt(a, b) == 1,
        Comparison::LessUnsigned => alu_sltu(a, b) == 1,
        Comparison::GreaterOrEqual => alu_slt(a, b) == 0,
        Comparison::GreaterOrEqualUnsigned => alu_sltu(a, b) == 0,
        Comparison::LessOrEqual => alu_slt(b, a) == 0,
        Comparison::Greater => alu_slt(b, a) == 1,
    }
}

// The sum, or None where a trapping one does not fit.
fn sum(overflow: Overflow, width: Width, a: u64, b: u64) -> Option<u64>
    ensures { result ≡ law.sum_by overflow (bits width) a b }
{
    match (overflow, width) {
        (Overflow::Traps, Width::Word) => alu_add(a, b),
        (Overflow::Traps, Width::Double) => alu_dadd(a, b),
        (Overflow::Wraps, Width::Word) => Some(alu_addu(a, b)),
        (Overflow::Wraps, Width::Double) => Some(alu_daddu(a, b)),
    }
}

// The difference, or None where a trapping one does not fit.
fn difference(overflow: Overflow, width: Width, a: u64, b: u64) -> Option<u64>
    ensures { result ≡ law.difference_by overflow (bits width) a b }
{
    match (overflow, width) {
        (Overflow::Traps, Width::Word) => alu_sub(a, b),
        (Overflow::Traps, Width::Double) => alu_dsub(a, b),
        (Overflow::Wraps, Width::Word) => Some(alu_subu(a, b)),
        (Overflow::Wraps, Width::Double) => Some(alu_dsubu(a, b)),
    }
}

// The product, in two halves.
fn product(signedness: Signedness, width: Width, a: u64, b: u64) -> Halves
    ensures { result ≡ law.product_by signedness (bits width) a b }
{
    match (signedness, width) {
        (Signedness::Signed, Width::Word) => alu_mult(a, b),
        (Signedness::Signed, Width::Double) => alu_dmult(a, b),
        (Signedness::Unsigned, Width::Word) => alu_multu(a, b),
        (Signedness::Unsigned, Width::Double) => alu_dmultu(a, b),
    }
}

// The remainder and the quotient.
fn division(signedness: Signedness, width: Width, a: u64, b: u64) -> Halves
    ensures { result ≡ law.division_by signedness (bits width) a b }
{
    match (signedness, width) {
        (Signedness::Signed, Width::Word) => alu_div(a, b),
        (Signedness::Signed, Width::Double) => alu_ddiv(a, b),
        (Signedness::Unsigned, Width::Word) => alu_divu(a, b),
        (Signedness::Unsigned, Width::Double) => alu_ddivu(a, b),
    }
}

// rt shifted to the left.
fn left_shift(width: Width, by: Amount, inst: &Inst, regs: &Regs) -> u64
    requires rs { inst.now.rs < 32 }
    requires rt { inst.now.rt < 32 }
    requires sa { inst.now.sa < 32 }
    requires within { IsTrue (amount_fits by width) }
    ensures { result ≡ arithmetic.shifted_left (bits width) (operands.shifted_of inst.now regs.now)
        (operands.amount_of by width inst.now regs.now) }
{
    let value = regs.read(inst.rt);
    let amount = amount(by, width, inst, regs);
    match width {
        Width::Word => alu_sll(value, amount),
        Width::Double => alu_dsll(value, amount),
    }
}

// rt shifted to the right, with zeros before it.
fn logical_shift(width: Width, by: Amount, inst: &Inst, regs: &Regs) -> u64
    requires rs { inst.now.rs < 32 }
    requires rt { inst.now.rt < 32 }
    requires sa { inst.now.sa < 32 }
    requires within { IsTrue (amount_fits by width) }
    ensures { result ≡ arithmetic.shifted_right_logical (bits width) (operands.shifted_of inst.now regs.now)
        (operands.amount_of by width inst.now regs.now) }
{
    let value = regs.read(inst.rt);
    let amount = amount(by, width, inst, regs);
    match width {
        Width::Word => alu_srl(value, amount),
        Width::Double => alu_dsrl(value, amount),
    }
}

// rt shifted to the right, with copies of its sign before it.
fn arithmetic_shift(width: Width, by: Amount, inst: &Inst, regs: &Regs) -> u64
    requires rs { inst.now.rs < 32 }
    requires rt { inst.now.rt < 32 }
    requires sa { inst.now.sa < 32 }
    requires within { IsTrue (amount_fits by width) }
    ensures { result ≡ arithmetic.shifted_right_arithmetic (bits width) (operands.shifted_of inst.now regs.now)
        (operands.amount_of by width inst.now regs.now) }
{
    let value = regs.read(inst.rt);
    let amount = amount(by, width, inst, regs);
    match width {
        Width::Word => alu_sra(value, amount),
        Width::Double => alu_dsra(value, amount),
    }
}

// An exception that concerns no coprocessor.
fn exception(code: u8) -> Effect
    ensures { result ≡ law.exception code }
{
    Effect::Raise { code, unit: 0 }
}

// A value into a register, or the overflow exception where there is none.
fn set_if_some(reg: u8, value: Option<u64>) -> Effect
    ensures { result ≡ law.set_or_overflow reg value }
{
    match value {
        Some(value) => Effect::Set { reg, value },
        None => exception(OVERFLOW),
    }
}

// Values into HI and LO.
fn set_hi_and_lo(hi: u64, lo: u64) -> Effect
    ensures { result ≡ Effect.HiLo hi lo }
{
    Effect::HiLo { hi, lo }
}

// Both halves into HI and LO.
fn both(halves: Halves) -> Effect
    ensures { result ≡ law.to_hi_and_lo halves }
{
    set_hi_and_lo(halves.hi, halves.lo)
}

// The trap exception under a condition.
fn trap_where(condition: bool) -> Effect
    ensures { result ≡ law.trap_where condition }
{
    if condition {
        exception(TRAP)
    } else {
        Effect::Nothing
    }
}

// Whether the delay slot is passed over where the branch is not taken.
fn is_likely(slot: DelaySlot) -> bool
    ensures { result ≡ law.is_likely slot }
{
    matches!(slot, DelaySlot::NullifiedUnlessTaken)
}

// The exception of a coprocessor that is not usable.
fn unusable(coprocessor: Coprocessor) -> Effect
    ensures { result ≡ law.unusable coprocessor }
{
    let unit = match coprocessor {
        Coprocessor::One => 1,
        Coprocessor::Two => 2,
    };
    Effect::Raise {
        code: COPROCESSOR_UNUSABLE,
        unit,
    }
}

// A number in the upper half of a word, sign-extended.
#[tactic(auto, unfolding(mips3_alu::specs::Arithmetic::reduced))]
fn upper_half(number: u32) -> u64
    ensures { result ≡ arithmetic.reduced 32 (pos (number * 2 ^ 16)) }
{
    sext32(number << 16)
}

// Whether a comparison holds of the operands.
fn holds_of_operands(comparison: Comparison, form: Form, inst: &Inst, regs: &Regs) -> bool
    requires { HasFields form inst.now }
    ensures { result ≡ law.holds comparison (operands.first_of inst.now regs.now) (operands.second_of form inst.now regs.now) }
{
    holds(comparison, regs.read(inst.rs), second(form, inst, regs))
}

// A value into a register.
fn set(reg: u8, value: u64) -> Effect
    ensures { result ≡ Effect.Set reg value }
{
    Effect::Set { reg, value }
}

// A jump or a branch.
fn jump(
    taken: bool,
    likely: bool,
    link: Link,
    form: Form,
    inst: &Inst,
    regs: &Regs,
    pc: u32,
) -> Effect
    requires { HasFields form inst.now }
    ensures { result ≡ law.jump form inst.now regs.now pc taken likely link }
{
    Effect::Jump {
        taken,
        likely,
        target: target(form, inst, regs, pc),
        link: link_register(link, inst),
        value: link_value(link, pc),
    }
}

// An access to the bytes that an operation moves.
fn access(kind: Touch, operation: Operation, form: Form, inst: &Inst, regs: &Regs) -> Effect
    requires { HasFields form inst.now }
    ensures { result ≡ law.access form inst.now regs.now kind operation }
{
    let va = address(form, inst, regs);
    let reach = moved(operation, va);
    Effect::Touch {
        kind,
        va,
        first: reach.first,
        size: reach.size,
        reg: inst.rt,
    }
}

// The effect of an operation that sets a register, or HI and LO.
#[tactic(auto, unfolding(crate::specs::Effects::carried_out))]
fn computed(operation: Operation, form: Form, inst: &Inst, regs: &Regs) -> Effect
    requires fields { HasFields form inst.now }
    requires within { IsTrue (shifts_within operation) }
    requires computes { IsTrue (is_computed operation) }
    ensures { (pc : ℕ) → result ≡ law.carried_out form inst.now regs.now pc operation }
{
    let first = regs.read(inst.rs);
    let second = second(form, inst, regs);
    let reg = destination(form, inst);
    match operation {
        Add(width, overflow) => set_if_some(reg, sum(overflow, width, first, second)),
        Subtract(width, overflow) => set_if_some(reg, difference(overflow, width, first, second)),
        And => set(reg, alu_and(first, second)),
        Or => set(reg, alu_or(first, second)),
        ExclusiveOr => set(reg, alu_xor(first, second)),
        NotOr => set(reg, alu_nor(first, second)),
        SetWhere(comparison) => set(reg, u64::from(holds(comparison, first, second))),
        LoadUpper => set(reg, upper_half(inst.imm)),
        ShiftLeft(width, by) => set(reg, left_shift(width, by, inst, regs)),
        ShiftRightLogical(width, by) => set(reg, logical_shift(width, by, inst, regs)),
        ShiftRightArithmetic(width, by) => set(reg, arithmetic_shift(width, by, inst, regs)),
        Multiply(width, signedness) => both(product(signedness, width, first, second)),
        Divide(width, signedness) => both(division(signedness, width, first, second)),
        MoveFromHi => set(reg, regs.hi),
        MoveFromLo => set(reg, regs.lo),
        MoveToHi => set_hi_and_lo(first, regs.lo),
        MoveToLo => set_hi_and_lo(regs.hi, first),
        _ => unreachable!(),
    }
}

// The effect of an operation on the operands of a form.
#[tactic(auto, unfolding(crate::specs::Effects::carried_out))]
fn carried_out(operation: Operation, form: Form, inst: &Inst, regs: &Regs, pc: u32) -> Effect
    requires fields { HasFields form inst.now }
    requires within { IsTrue (shifts_within operation) }
    ensures { result ≡ law.carried_out form inst.now regs.now pc operation }
{
    match operation {
        Jump(link) => jump(true, false, link, form, inst, regs, pc),
        Branch(comparison, slot, link) => {
            let taken = holds_of_operands(comparison, form, inst, regs);
            jump(taken, is_likely(slot), link, form, inst, regs, pc)
        }
        TrapWhere(comparison) => trap_where(holds_of_operands(comparison, form, inst, regs)),
        SystemCall => exception(SYSTEM_CALL),
        Breakpoint => exception(BREAKPOINT),
        Synchronize => Effect::Nothing,
        Load(..) | LoadLeft(_) | LoadRight(_) => access(Touch::Load, operation, form, inst, regs),
        LoadLinked(_) => access(Touch::Link, operation, form, inst, regs),
        Store(_) | StoreLeft(_) | StoreRight(_) => {
            access(Touch::Store, operation, form, inst, regs)
        }
        StoreConditional(_) => access(Touch::Cond, operation, form, inst, regs),
        OperateCache => access(Touch::Cache, operation, form, inst, regs),
        UseCoprocessor(coprocessor) => unusable(coprocessor),
        MoveFromCp0(_)
        | MoveToCp0(_)
        | ReadTlb
        | WriteIndexedTlb
        | WriteRandomTlb
        | ProbeTlb
        | ReturnFromException => Effect::System { row: inst.row },
        _ => computed(operation, form, inst, regs),
    }
}

/// The effect of an instruction at pc on these registers.
#[tactic(auto, unfolding(crate::specs::Effects::effect_of), using(crate::proofs::TableFacts::row_facts))]
pub fn effect(inst: &Inst, regs: &Regs, pc: u32) -> Effect
    requires { IsInst inst.now }
    ensures effect { result ≡ law.effect_of inst.now regs.now pc }
    ensures registers { HasRegisters result }
    ensures system { LeavesSystem (operation_of inst.now) inst.now.row result }
    ensures raised { RaisesItsOwn result }
    ensures access { TouchesMoved (operation_of inst.now) result }
    ensures few { TouchesFew (operation_of inst.now) result }
    ensures aligned { AlignsByBytes (operation_of inst.now) result }
{
    let row = record_of(inst.row);
    carried_out(row.operation, row.form, inst, regs, pc)
}
