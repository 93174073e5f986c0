//! The operands of each form.

ghost use Rattle.std.specs.Prelude.{◌≡◌};
ghost use Rattle.mips_text.specs.Forms as forms;

use crate::operand::{Field, Operand};
use mips3_table::Form;

const RS: Operand = Operand::Register(Field::Rs);

const RT: Operand = Operand::Register(Field::Rt);

const RD: Operand = Operand::Register(Field::Rd);

/// The operands of a form, in the order of the text.
pub fn operands_of(form: Form) -> &'static [Operand]
    ensures { result.now ≡ forms.operands_of form }
{
    match form {
        Form::Target => &[Operand::JumpTarget],
        Form::CompareBranch => &[RS, RT, Operand::BranchTarget],
        Form::ZeroBranch => &[RS, Operand::BranchTarget],
        Form::SignedImmediate => &[RT, RS, Operand::Signed],
        Form::UnsignedImmediate => &[RT, RS, Operand::Hexadecimal(Field::Imm, 16)],
        Form::UpperImmediate => &[RT, Operand::Hexadecimal(Field::Imm, 16)],
        Form::Memory => &[RT, Operand::Based],
        Form::CacheOperation => &[Operand::Hexadecimal(Field::Rt, 5), Operand::Based],
        Form::CoprocessorNumber => &[Operand::Hexadecimal(Field::Imm, 26)],
        Form::CoprocessorMemory => &[Operand::Decimal(Field::Rt, 5), Operand::Based],
        Form::Shift => &[RD, RT, Operand::Decimal(Field::Sa, 5)],
        Form::ShiftByRegister => &[RD, RT, RS],
        Form::Source => &[RS],
        Form::JumpAndLinkRegister => &[RD, RS],
        Form::Code => &[Operand::Hexadecimal(Field::Imm, 20)],
        Form::NoOperands => &[],
        Form::Destination => &[RD],
        Form::TwoSources => &[RS, RT],
        Form::ThreeRegisters => &[RD, RS, RT],
        Form::TrapRegisters => &[RS, RT, Operand::Hexadecimal(Field::Imm, 10)],
        Form::TrapImmediate => &[RS, Operand::Signed],
        Form::Cp0Move => &[RT, Operand::Cp0Register],
    }
}
