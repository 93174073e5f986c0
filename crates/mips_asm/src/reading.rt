//! The reading of a line.

ghost use Rattle.std.specs.Prelude.{◌≡◌, ◌<◌, ◌≤◌, ◌&&◌, length, Some, None, IfOk, IfSome};
ghost use Rattle.std.specs.List.{All};
ghost use Rattle.std.specs.Result.{result_err};
ghost use Rattle.mips_text.specs.Forms as forms;
ghost use Rattle.mips_text.specs.Tokens.{IsWithin};
ghost use Rattle.mips_text.specs.Line as law;
ghost use Rattle.mips_asm.specs.Shown.{IsSound, IsSoundLine};
ghost use Rattle.mips_asm.specs.StatementsOf.{IsNarrowAt, IsStatement};

use crate::expected::{ExpectedTokens, expected_of};
use crate::matching::{all_agree, all_in_range, some_unknown, text_of};
use crate::operands::item_of;
use crate::statements::statement_named;
use arrayvec::ArrayVec;
use mips_text::{AsmWhy, Item, Line, Name, Statement, Token, TokenKind, tokens};

/// The tokens of a line.
pub type Tokens = ArrayVec<Token, 64>;

/// The tokens that a statement expects, or the first reason for which these are not such.
#[tactic(auto, unfolding(mips_text::specs::Line::operands_fault))]
fn matched(line: &[u8], statement: Statement, operands: &[Token]) -> Result<ExpectedTokens, AsmWhy>
    requires few { length operands.now < 64 }
    requires row { IsStatement statement }
    requires within { All (IsWithin (length line.now)) operands.now }
    ensures fault { result_err result ≡ law.operands_fault line.now (forms.shape_of statement) operands.now }
    ensures expected { IfOk result (λ expected. expected.items ≡ law.tokens_expected (forms.shape_of statement) (length operands.now)) }
    ensures narrow { IfOk result (λ expected. All IsNarrowAt expected.items) }
{
    let expected = expected_of(statement, operands.len());
    if some_unknown(line, &expected, operands) {
        return Err(AsmWhy::Unknown);
    }
    if !all_agree(line, &expected, operands) {
        return Err(AsmWhy::Operand);
    }
    if all_in_range(line, &expected, operands) {
        Ok(expected)
    } else {
        Err(AsmWhy::Range)
    }
}

/// Whether a label has more than 64 characters.
fn is_too_long(label: &Option<Name>) -> bool
    ensures { result ≡ law.is_too_long label.now }
{
    match label {
        Some(name) => name.text().len() > 64,
        None => false,
    }
}

/// A line that has no other fault than, maybe, too long a label.
fn with_label<'a>(label: Option<Name<'a>>, item: Option<Item<'a>>) -> Result<Line<'a>, AsmWhy>
    requires { IfSome item IsSound }
    ensures reading { result ≡ law.with_label label.entry item.entry }
    ensures sound { IfOk result IsSoundLine }
{
    if is_too_long(&label) {
        return Err(AsmWhy::Range);
    }
    Ok(Line { label, item })
}

/// A statement with its operands.
fn read_operands<'a>(
    line: &'a [u8],
    label: Option<Name<'a>>,
    statement: Statement,
    operands: &[Token],
) -> Result<Line<'a>, AsmWhy>
    requires few { length operands.now < 64 }
    requires row { IsStatement statement }
    requires within { All (IsWithin (length line.now)) operands.now }
    ensures reading { result ≡ law.statement_by_name line.now label.entry (Some statement) operands.now }
    ensures sound { IfOk result IsSoundLine }
{
    let expected = matched(line, statement, operands)?;
    let item = item_of(line, statement, &expected, operands);
    if item.is_none() {
        return Err(AsmWhy::Operand);
    }
    with_label(label, item)
}

/// A statement, which begins with its name.
#[tactic(auto, unfolding(mips_text::specs::Line::read_statement))]
fn read_statement<'a>(
    line: &'a [u8],
    label: Option<Name<'a>>,
    list: &[Token],
) -> Result<Line<'a>, AsmWhy>
    requires few { length list.now ≤ 64 }
    requires within { All (IsWithin (length line.now)) list.now }
    ensures reading { result ≡ law.read_statement line.now label.entry list.now }
    ensures sound { IfOk result IsSoundLine }
{
    let [name, operands @ ..] = list else {
        return with_label(label, None);
    };
    if !matches!(name.kind, TokenKind::Name) {
        return Err(AsmWhy::Operand);
    }
    match statement_named(text_of(line, name)) {
        Some(statement) => read_operands(line, label, statement, operands),
        None => Err(AsmWhy::Unknown),
    }
}

/// Whether two tokens are a name and `:`.
fn is_label(line: &[u8], name: &Token, colon: &Token) -> bool
    requires { IsWithin (length line.now) colon.now }
    ensures { result ≡ law.is_name name.now.kind && law.is_colon colon.now.kind (forms.token_text line.now colon.now) }
{
    if !matches!(name.kind, TokenKind::Name) || !matches!(colon.kind, TokenKind::Mark) {
        return false;
    }
    text_of(line, colon)[0] == b':'
}

/// A line of these tokens.
fn read_tokens<'a>(line: &'a [u8], list: &[Token]) -> Result<Line<'a>, AsmWhy>
    requires few { length list.now ≤ 64 }
    requires within { All (IsWithin (length line.now)) list.now }
    ensures reading { result ≡ law.read_cut line.now None (law.parts_of line.now list.now) }
    ensures sound { IfOk result IsSoundLine }
{
    let [name, colon, rest @ ..] = list else {
        return read_statement(line, None, list);
    };
    if is_label(line, name, colon) {
        read_statement(line, Some(Name::new(text_of(line, name))), rest)
    } else {
        read_statement(line, None, list)
    }
}

/// What a line says, or the first reason for which it says nothing. Its tokens are put into a list in the place of others.
#[tactic(auto, unfolding(mips_text::specs::Line::read_line))]
pub fn read_line<'a>(line: &'a [u8], list: &mut Tokens) -> Result<Line<'a>, AsmWhy>
    requires { length line.now ≤ 4294967294 }
    ensures reading { result ≡ law.read_line line.now }
    ensures sound { IfOk result IsSoundLine }
{
    list.clear();
    if let Some(why) = tokens(line, list) {
        return Err(why);
    }
    read_tokens(line, list)
}
