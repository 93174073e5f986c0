//! What the operands of a statement stand for.

ghost use Rattle.std.specs.Prelude.{◌≡◌, ◌<◌, ◌≤◌, ◌+◌, [], ◌∷◌, length, option_map, IfSome};
ghost use Rattle.std.specs.List.{All};
ghost use Rattle.arrayvec.specs.ArrayVec.{array_vec_len};
ghost use Rattle.mips3_table.specs.Instructions.{FitsWidths, widths_at};
ghost use Rattle.mips3_table.specs.Rows.{row_at};
ghost use Rattle.mips_text.specs.Forms as forms;
ghost use Rattle.mips_text.specs.Tokens.{IsWithin};
ghost use Rattle.mips_text.specs.Values.{number_of as number_law};
ghost use Rattle.mips_text.specs.Line as law;
ghost use Rattle.mips_asm.specs.Shown.{IsSound, IsSoundBy};
ghost use Rattle.mips_asm.specs.Reaches.{reach_of as reach_law};
ghost use Rattle.mips_asm.specs.StatementsOf.{ArePut, IsNarrow, IsNarrowAt, IsOfField, IsStatement};

use crate::matching::text_of;
use crate::named_rows::{beq_row, or_row};
use crate::ranges::bits_in;
use arrayvec::ArrayVec;
use mips_text::{
    Bytes, Expected, Field, Item, Name, Operand, Range, Statement, Target, Token, TokenKind, Words,
    cp0_register_of, number_of, operands_of, register_of,
};
use mips3_table::{Inst, form_of};

/// The range of an address.
const ADDRESS: Range = Range::Unsigned(32);

/// An instruction with another value in a field.
fn with_field(field: Field, inst: Inst, value: u32) -> Inst
    requires { IsOfField field value }
    ensures { result ≡ law.with_field field inst value }
{
    match field {
        Field::Rs => Inst {
            rs: value as u8,
            ..inst
        },
        Field::Rt => Inst {
            rt: value as u8,
            ..inst
        },
        Field::Rd => Inst {
            rd: value as u8,
            ..inst
        },
        Field::Sa => Inst {
            sa: value as u8,
            ..inst
        },
        Field::Imm => Inst { imm: value, ..inst },
    }
}

/// An instruction with a register in a field.
fn with_register(field: Field, inst: Inst, register: Option<u8>) -> Option<Inst>
    requires { IfSome register (λ number. number < 32) }
    ensures { result ≡ option_map (law.with_field field inst) register }
{
    Some(with_field(field, inst, u32::from(register?)))
}

/// An instruction with the field that a token gives.
#[tactic(auto, using(crate::proofs::OperandFields::bits_of_field))]
fn with_operand(one: &Expected, text: &[u8], inst: Inst) -> Option<Inst>
    requires { IsNarrowAt one.now }
    ensures { result ≡ law.with_operand one.now text.now inst }
{
    match one {
        Expected::ARegister(field) => with_register(*field, inst, register_of(text)),
        Expected::ACp0Register(field) => with_register(*field, inst, cp0_register_of(text)),
        Expected::ANumber(field, range) => match bits_in(*range, text) {
            Some(bits) => Some(with_field(*field, inst, bits)),
            None => None,
        },
        Expected::AnAlignment
        | Expected::ATarget
        | Expected::ALabel
        | Expected::AText
        | Expected::AMark(_) => Some(inst),
    }
}

/// An instruction with the fields that tokens give.
fn with_operands(line: &[u8], expected: &[Expected], list: &[Token], inst: Inst) -> Option<Inst>
    requires within { All (IsWithin (length line.now)) list.now }
    requires narrow { All IsNarrowAt expected.now }
    ensures { result ≡ law.with_operands line.now expected.now list.now inst }
{
    let [one, expected @ ..] = expected else {
        return Some(inst);
    };
    let [token, list @ ..] = list else {
        return None;
    };
    let next = with_operand(one, text_of(line, token), inst)?;
    with_operands(line, expected, list, next)
}

/// The instruction of a row with every field 0.
pub fn bare(row: u8) -> Inst
    ensures { result ≡ law.bare row }
{
    Inst {
        row,
        rs: 0,
        rt: 0,
        rd: 0,
        sa: 0,
        imm: 0,
    }
}

/// The text of the token at an index.
fn text_at<'a>(line: &'a [u8], list: &[Token], at: usize) -> Option<Name<'a>>
    requires { All (IsWithin (length line.now)) list.now }
    ensures { result ≡ law.text_at line.now list.now at }
{
    if at < list.len() {
        Some(Name::new(text_of(line, &list[at])))
    } else {
        None
    }
}

/// The register that the token at an index names.
fn register_at(line: &[u8], list: &[Token], at: usize) -> Option<u8>
    requires { All (IsWithin (length line.now)) list.now }
    ensures value { result ≡ law.register_at line.now list.now at }
    ensures small { IfSome result (λ register. register < 32) }
{
    register_of(text_at(line, list, at)?.text())
}

/// The number of a range that the token at an index is, as bits.
fn number_at(range: Range, line: &[u8], list: &[Token], at: usize) -> Option<u32>
    requires narrow { IsNarrow range }
    requires within { All (IsWithin (length line.now)) list.now }
    ensures { result ≡ law.number_at range line.now list.now at }
{
    bits_in(range, text_at(line, list, at)?.text())
}

/// What a token names as a target.
fn target_of<'a>(kind: TokenKind, text: &'a [u8]) -> Option<Target<'a>>
    ensures { result ≡ law.target_of kind text.now }
{
    if matches!(kind, TokenKind::Name) {
        return Some(Target::Label(Name::new(text)));
    }
    Some(Target::Address(bits_in(Range::Unsigned(32), text)?))
}

/// The target that tokens give, if one is expected.
fn target_in<'a>(line: &'a [u8], expected: &[Expected], list: &[Token]) -> Option<Target<'a>>
    requires { All (IsWithin (length line.now)) list.now }
    ensures { result ≡ law.target_in line.now expected.now list.now }
{
    let [one, expected @ ..] = expected else {
        return None;
    };
    let [token, list @ ..] = list else {
        return None;
    };
    if matches!(one, Expected::ATarget) {
        return target_of(token.kind, text_of(line, token));
    }
    target_in(line, expected, list)
}

/// Appends the numbers of 32 bits among these tokens, and says whether each Number is one.
#[tactic(auto, using(crate::proofs::OperandFields::put_first))]
fn put_words(line: &[u8], list: &[Token], out: &mut ArrayVec<u32, 64>) -> bool
    requires room { array_vec_len out.old + length list.now ≤ 64 }
    requires within { All (IsWithin (length line.now)) list.now }
    ensures { ArePut (law.numbers_of (Range.EitherSign 32) line.now list.now) result out.old.items out.new.items }
{
    let [token, list @ ..] = list else {
        return true;
    };
    if !matches!(token.kind, TokenKind::Number) {
        return put_words(line, list, out);
    }
    match bits_in(Range::EitherSign(32), text_of(line, token)) {
        Some(word) => {
            out.push(word);
            put_words(line, list, out)
        }
        None => false,
    }
}

/// Appends the numbers of 8 bits among these tokens, and says whether each Number is one.
#[tactic(auto, using(crate::proofs::OperandFields::put_first))]
fn put_bytes(line: &[u8], list: &[Token], out: &mut ArrayVec<u8, 64>) -> bool
    requires room { array_vec_len out.old + length list.now ≤ 64 }
    requires within { All (IsWithin (length line.now)) list.now }
    ensures { ArePut (law.numbers_of (Range.EitherSign 8) line.now list.now) result out.old.items out.new.items }
{
    let [token, list @ ..] = list else {
        return true;
    };
    if !matches!(token.kind, TokenKind::Number) {
        return put_bytes(line, list, out);
    }
    match bits_in(Range::EitherSign(8), text_of(line, token)) {
        Some(byte) => {
            out.push(byte as u8);
            put_bytes(line, list, out)
        }
        None => false,
    }
}

/// The words of a list of numbers.
fn words_of(line: &[u8], operands: &[Token]) -> Option<Words>
    requires few { length operands.now < 64 }
    requires within { All (IsWithin (length line.now)) operands.now }
    ensures { result ≡ law.numbers_of (Range.EitherSign 32) line.now operands.now }
{
    let mut words = ArrayVec::new();
    if put_words(line, operands, &mut words) {
        Some(Words::new(words))
    } else {
        None
    }
}

/// The bytes of a list of numbers.
fn bytes_of<'a>(line: &[u8], operands: &[Token]) -> Option<Bytes<'a>>
    requires few { length operands.now < 64 }
    requires within { All (IsWithin (length line.now)) operands.now }
    ensures { result ≡ law.numbers_of (Range.EitherSign 8) line.now operands.now }
{
    let mut bytes = ArrayVec::new();
    if put_bytes(line, operands, &mut bytes) {
        Some(Bytes::of_numbers(bytes))
    } else {
        None
    }
}

/// The alignment of a number's text.
#[tactic(auto, using(crate::proofs::Bounds::far_alignment))]
fn alignment_of(text: &[u8]) -> Option<u8>
    ensures value { result ≡ law.alignment_of (number_law text.now) }
    ensures small { IfSome result (λ power. power ≤ 12) }
{
    match number_of(text) {
        Some(number) if 0 <= number && number <= 12 => Some(number as u8),
        _ => None,
    }
}

/// What goes to the target among an instruction's operands, if there is one.
#[derive(Clone, Copy)]
enum Reach {
    Nowhere,
    ByBranch,
    ByJump,
}

/// How an instruction with these operands goes to a target.
fn reach_of(operands: &[Operand]) -> Reach
    ensures { result ≡ reach_law operands.now }
{
    let [operand, more @ ..] = operands else {
        return Reach::Nowhere;
    };
    match operand {
        Operand::BranchTarget => Reach::ByBranch,
        Operand::JumpTarget => Reach::ByJump,
        _ => reach_of(more),
    }
}

/// An instruction, which goes to the target where one of its operands is a target.
#[tactic(auto, using(crate::proofs::Reaches::item_by_reach))]
fn item_by<'a>(operands: &[Operand], inst: Inst, target: Option<Target<'a>>) -> Option<Item<'a>>
    requires { IsSoundBy operands.now inst }
    ensures value { result ≡ law.item_by operands.now inst target.entry }
    ensures sound { IfSome result IsSound }
{
    match reach_of(operands) {
        Reach::Nowhere => Some(Item::Plain(inst)),
        Reach::ByBranch => Some(Item::BranchTo(inst, target?)),
        Reach::ByJump => Some(Item::JumpTo(inst, target?)),
    }
}

/// The instruction of a row with its operands.
#[tactic(auto, using(crate::proofs::OperandFields::sound_of_row))]
fn item_of_row<'a>(
    line: &'a [u8],
    row: u8,
    expected: &[Expected],
    operands: &[Token],
) -> Option<Item<'a>>
    requires row { row < 129 }
    requires within { All (IsWithin (length line.now)) operands.now }
    requires expected { expected.now ≡ forms.separated (forms.operands_of (row_at row).form) }
    requires narrow { All IsNarrowAt expected.now }
    ensures value { result ≡ law.item_of_row line.now row operands.now }
    ensures sound { IfSome result IsSound }
{
    let target = target_in(line, expected, operands);
    match with_operands(line, expected, operands, bare(row)) {
        Some(inst) => item_by(operands_of(form_of(row)), inst, target),
        None => None,
    }
}

/// A register loaded with a number.
#[tactic(auto, unfolding(mips_text::specs::Line::item_of))]
fn number_loading<'a>(line: &'a [u8], operands: &[Token]) -> Option<Item<'a>>
    requires { All (IsWithin (length line.now)) operands.now }
    ensures value { result ≡ law.item_of line.now Statement.Li operands.now }
    ensures sound { IfSome result IsSound }
{
    let register = register_at(line, operands, 0)?;
    let number = number_at(Range::EitherSign(32), line, operands, 2)?;
    Some(Item::LoadNumber(register, number))
}

/// A register loaded with the address of a label.
#[tactic(auto, unfolding(mips_text::specs::Line::item_of))]
fn label_loading<'a>(line: &'a [u8], operands: &[Token]) -> Option<Item<'a>>
    requires { All (IsWithin (length line.now)) operands.now }
    ensures value { result ≡ law.item_of line.now Statement.La operands.now }
    ensures sound { IfSome result IsSound }
{
    let register = register_at(line, operands, 0)?;
    let name = text_at(line, operands, 2)?;
    Some(Item::LoadLabel(register, name))
}

/// The word 0.
fn word_of_nop() -> Words
    ensures { result ≡ 0 ∷ [] }
{
    let mut words = ArrayVec::new();
    words.push(0);
    Words::new(words)
}

/// What a statement puts, by its operands and the tokens that it expects.
#[tactic(auto, using(crate::proofs::OperandFields::sound_of_move), unfolding(mips_text::specs::Line::item_of))]
pub fn item_of<'a>(
    line: &'a [u8],
    statement: Statement,
    expected: &[Expected],
    operands: &[Token],
) -> Option<Item<'a>>
    requires few { length operands.now < 64 }
    requires row { IsStatement statement }
    requires within { All (IsWithin (length line.now)) operands.now }
    requires expected { expected.now ≡ law.tokens_expected (forms.shape_of statement) (length operands.now) }
    requires narrow { All IsNarrowAt expected.now }
    ensures value { result ≡ law.item_of line.now statement operands.now }
    ensures sound { IfSome result IsSound }
{
    match statement {
        Statement::Instruction(row) => item_of_row(line, row, expected, operands),
        Statement::Li => number_loading(line, operands),
        Statement::La => label_loading(line, operands),
        Statement::Move => Some(Item::Plain(with_operands(
            line,
            expected,
            operands,
            bare(or_row()),
        )?)),
        Statement::Nop => Some(Item::Words(word_of_nop())),
        Statement::Branch => item_by(
            &[Operand::BranchTarget],
            bare(beq_row()),
            target_in(line, &[Expected::ATarget], operands),
        ),
        Statement::Org => Some(Item::Origin(number_at(ADDRESS, line, operands, 0)?)),
        Statement::Word => Some(Item::Words(words_of(line, operands)?)),
        Statement::Byte => Some(Item::Bytes(bytes_of(line, operands)?)),
        Statement::Space => Some(Item::Zeros(number_at(ADDRESS, line, operands, 0)?)),
        Statement::Align => {
            let name = text_at(line, operands, 0)?;
            Some(Item::Aligned(alignment_of(name.text())))
        }
        Statement::Ascii => {
            let name = text_at(line, operands, 0)?;
            Some(Item::Bytes(Bytes::of_text(name.text())?))
        }
    }
}
