//! The tokens of a line, compared with those that a statement expects.

ghost use Rattle.std.specs.Prelude.{◌≡◌, ◌≤◌, ℕ, true, length, slice_index, IsNone};
ghost use Rattle.std.specs.List.{All};
ghost use Rattle.mips_text.specs.Forms as forms;
ghost use Rattle.mips_text.specs.Tokens.{IsWithin};
ghost use Rattle.mips_text.specs.Line as law;
ghost use Rattle.mips_asm.specs.StatementsOf.{IsNarrowAt};

use crate::ranges::is_in_range;
use mips_text::{Expected, Range, Token, TokenKind, cp0_register_of, register_of, text_size};

/// The text of a token in its line.
pub fn text_of<'a>(line: &'a [u8], token: &Token) -> &'a [u8]
    requires { IsWithin (length line.now) token.now }
    ensures { result.now ≡ forms.token_text line.now token.now }
{
    &line[token.from as usize..token.to as usize]
}

fn is_name(kind: TokenKind) -> bool
    ensures { result ≡ law.is_name kind }
{
    matches!(kind, TokenKind::Name)
}

fn first_of(text: &[u8]) -> u8
    ensures { result ≡ slice_index text.now 0 }
{
    if text.is_empty() { 0 } else { text[0] }
}

/// Whether a Name stands where a register is expected, and names none.
fn names_no_register(one: &Expected, kind: TokenKind, text: &[u8]) -> bool
    ensures { result ≡ forms.names_no_register one.now kind text.now }
{
    if !matches!(kind, TokenKind::Name) {
        return false;
    }
    match one {
        Expected::ARegister(_) => register_of(text).is_none(),
        Expected::ACp0Register(_) => cp0_register_of(text).is_none(),
        _ => false,
    }
}

/// Whether a token is a text that has no other escapes than those that there are.
fn is_text(kind: TokenKind, text: &[u8]) -> bool
    ensures { result ≡ forms.has_kind Expected.AText kind text.now }
{
    if !matches!(kind, TokenKind::Text) {
        return false;
    }
    text_size(text).is_some()
}

/// Whether a token is this mark.
fn is_mark(code: u8, kind: TokenKind, text: &[u8]) -> bool
    ensures { result ≡ forms.has_kind (Expected.AMark code) kind text.now }
{
    if !matches!(kind, TokenKind::Mark) {
        return false;
    }
    first_of(text) == code
}

/// Whether a token is of the kind that is expected.
fn has_kind(one: &Expected, kind: TokenKind, text: &[u8]) -> bool
    ensures { result ≡ forms.has_kind one.now kind text.now }
{
    match one {
        Expected::ARegister(_) | Expected::ACp0Register(_) | Expected::ALabel => {
            matches!(kind, TokenKind::Name)
        }
        Expected::ANumber(..) | Expected::AnAlignment => matches!(kind, TokenKind::Number),
        Expected::ATarget => matches!(kind, TokenKind::Name | TokenKind::Number),
        Expected::AText => is_text(kind, text),
        Expected::AMark(code) => is_mark(*code, kind, text),
    }
}

/// Whether a Number lies in its range.
fn has_range(one: &Expected, kind: TokenKind, text: &[u8]) -> bool
    requires { IsNarrowAt one.now }
    ensures { result ≡ forms.has_range one.now kind text.now }
{
    if !matches!(kind, TokenKind::Number) {
        return true;
    }
    match one {
        Expected::ANumber(_, range) => is_in_range(*range, text),
        Expected::ATarget => is_in_range(Range::Unsigned(32), text),
        _ => true,
    }
}

/// Whether somewhere a Name stands at a register's place and is none.
pub fn some_unknown(line: &[u8], expected: &[Expected], tokens: &[Token]) -> bool
    requires { All (IsWithin (length line.now)) tokens.now }
    ensures { result ≡ law.some_unknown line.now expected.now tokens.now }
{
    let [one, expected @ ..] = expected else {
        return false;
    };
    let [token, tokens @ ..] = tokens else {
        return false;
    };
    if names_no_register(one, token.kind, text_of(line, token)) {
        return true;
    }
    some_unknown(line, expected, tokens)
}

/// Whether there are as many tokens as are expected, each of its kind.
pub fn all_agree(line: &[u8], expected: &[Expected], tokens: &[Token]) -> bool
    requires { All (IsWithin (length line.now)) tokens.now }
    ensures { result ≡ law.all_agree line.now expected.now tokens.now }
{
    let [one, expected @ ..] = expected else {
        return tokens.is_empty();
    };
    let [token, tokens @ ..] = tokens else {
        return false;
    };
    if !has_kind(one, token.kind, text_of(line, token)) {
        return false;
    }
    all_agree(line, expected, tokens)
}

/// Whether each number lies in its range.
pub fn all_in_range(line: &[u8], expected: &[Expected], tokens: &[Token]) -> bool
    requires within { All (IsWithin (length line.now)) tokens.now }
    requires narrow { All IsNarrowAt expected.now }
    ensures { result ≡ law.all_in_range line.now expected.now tokens.now }
{
    let [one, expected @ ..] = expected else {
        return true;
    };
    let [token, tokens @ ..] = tokens else {
        return true;
    };
    if !has_range(one, token.kind, text_of(line, token)) {
        return false;
    }
    all_in_range(line, expected, tokens)
}
