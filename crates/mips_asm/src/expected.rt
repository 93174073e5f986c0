//! The tokens that a statement expects.

ghost use Rattle.std.specs.Prelude.{◌≡◌, ◌<◌, ◌≤◌, ◌+◌, ◌*◌, ◌++◌, length};
ghost use Rattle.std.specs.List.{All};
ghost use Rattle.arrayvec.specs.ArrayVec.{array_vec_len};
ghost use Rattle.mips_text.specs.Forms as forms;
ghost use Rattle.mips_text.specs.Line as law;
ghost use Rattle.mips_asm.specs.StatementsOf.{IsNarrowAt, IsStatement};

use arrayvec::ArrayVec;
use mips_text::{Expected, Field, Operand, Range, Statement, operands_of};
use mips3_table::form_of;

/// The tokens that a statement expects.
pub type ExpectedTokens = ArrayVec<Expected, 64>;

const COMMA: Expected = Expected::AMark(b',');

const OPEN: Expected = Expected::AMark(b'(');

const CLOSE: Expected = Expected::AMark(b')');

const RS: Expected = Expected::ARegister(Field::Rs);

const RT: Expected = Expected::ARegister(Field::Rt);

const RD: Expected = Expected::ARegister(Field::Rd);

const OFFSET: Expected = Expected::ANumber(Field::Imm, Range::WithSign(16));

const ADDRESS: Expected = Expected::ANumber(Field::Imm, Range::Unsigned(32));

const WORD: Expected = Expected::ANumber(Field::Imm, Range::EitherSign(32));

/// Appends tokens.
fn put(tokens: &[Expected], out: &mut ExpectedTokens)
    requires { array_vec_len out.old + length tokens.now ≤ 64 }
    ensures { out.new.items ≡ out.old.items ++ tokens.now }
{
    match out.try_extend_from_slice(tokens) {
        Ok(()) => {}
        Err(_) => unreachable!(),
    }
}

/// Appends the tokens of an operand.
fn put_operand(operand: Operand, out: &mut ExpectedTokens)
    requires { array_vec_len out.old ≤ 60 }
    ensures items { out.new.items ≡ out.old.items ++ forms.expected_of operand }
    ensures len { array_vec_len out.new ≤ array_vec_len out.old + 4 }
{
    match operand {
        Operand::Register(field) => put(&[Expected::ARegister(field)], out),
        Operand::Cp0Register => put(&[Expected::ACp0Register(Field::Rd)], out),
        Operand::Decimal(field, width) | Operand::Hexadecimal(field, width) => {
            put(&[Expected::ANumber(field, Range::Unsigned(width))], out)
        }
        Operand::Signed => put(&[OFFSET], out),
        Operand::Based => put(&[OFFSET, OPEN, RS, CLOSE], out),
        Operand::BranchTarget | Operand::JumpTarget => put(&[Expected::ATarget], out),
    }
}

/// Appends the tokens of operands, with commas between them.
#[tactic(auto, using(std::proofs::lemmas::Grind::common_steps))]
fn put_operands(operands: &[Operand], out: &mut ExpectedTokens)
    requires { array_vec_len out.old + 5 * length operands.now ≤ 64 }
    ensures { out.new.items ≡ out.old.items ++ forms.separated operands.now }
{
    let [operand, more @ ..] = operands else {
        return;
    };
    put_operand(*operand, out);
    if !more.is_empty() {
        put(&[COMMA], out);
        put_operands(more, out);
    }
}

/// Appends a number and so many further ones with commas before them.
#[tactic(auto, using(crate::proofs::NumberList::number_by_number))]
fn put_numbers(range: Range, more: usize, out: &mut ExpectedTokens)
    requires { array_vec_len out.old + 2 * more + 1 ≤ 64 }
    ensures { out.new.items ≡ out.old.items ++ law.numbers_expected more range }
{
    put(&[Expected::ANumber(Field::Imm, range)], out);
    if more > 0 {
        put(&[COMMA], out);
        put_numbers(range, more - 1, out);
    }
}

/// What a statement expects, where so many tokens stand.
#[tactic(auto, using(mips_text::proofs::FormOperands::few_operands, crate::proofs::NumberList::narrow_tokens))]
pub fn expected_of(statement: Statement, count: usize) -> ExpectedTokens
    requires few { count < 64 }
    requires row { IsStatement statement }
    ensures value { result.items ≡ law.tokens_expected (forms.shape_of statement) count }
    ensures narrow { All IsNarrowAt result.items }
{
    let mut out = ExpectedTokens::new();
    match statement {
        Statement::Instruction(row) => put_operands(operands_of(form_of(row)), &mut out),
        Statement::Li => put(&[RT, COMMA, WORD], &mut out),
        Statement::La => put(&[RT, COMMA, Expected::ALabel], &mut out),
        Statement::Move => put(&[RD, COMMA, RS], &mut out),
        Statement::Branch => put(&[Expected::ATarget], &mut out),
        Statement::Org | Statement::Space => put(&[ADDRESS], &mut out),
        Statement::Align => put(&[Expected::AnAlignment], &mut out),
        Statement::Ascii => put(&[Expected::AText], &mut out),
        Statement::Nop => {}
        Statement::Word => put_numbers(Range::EitherSign(32), count / 2, &mut out),
        Statement::Byte => put_numbers(Range::EitherSign(8), count / 2, &mut out),
    }
    out
}
