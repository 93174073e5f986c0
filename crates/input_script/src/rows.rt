//! The words of a line after the first: the row that they match, and what it lets come.

ghost use Rattle.std.specs.Prelude.{◌≡◌, ◌≤◌, [], ◌∷◌, length, IfOk, bytes_eq};
ghost use Rattle.std.specs.List.{list_all};
ghost use Rattle.std.specs.Char.{is_ascii_hexdigit};
ghost use Rattle.input_script.specs.Grammar as law;
ghost use Rattle.input_script.specs.Shown.{IsSound, digits_in, deed_shown, row_result, matched};

use crate::faults::ScriptWhy;
use crate::inputs::What;
use crate::parts::first_part;

/// What a line lets come.
#[derive(Clone, Copy)]
pub enum Deed<'a> {
    /// The bytes of these pairs of hexadecimal digits.
    Keys(&'a [u8]),
    /// One input of another kind.
    One(What),
}

/// Whether a word is this name.
fn is_name(word: &[u8], name: &[u8]) -> bool
    ensures { result ≡ bytes_eq word.now name.now }
{
    word == name
}

/// Whether each byte is a hexadecimal digit, in either case.
fn are_digits(word: &[u8]) -> bool
    ensures { result ≡ list_all is_ascii_hexdigit word.now }
{
    word.iter().all(|code| code.is_ascii_hexdigit())
}

/// Whether a word is 1 or more pairs of hexadecimal digits.
fn is_pairs(word: &[u8]) -> bool
    ensures { result ≡ law.is_pairs word.now }
{
    !word.is_empty() && word.len() % 2 == 0 && are_digits(word)
}

/// The interrupt line that a word names.
fn line_named(word: &[u8]) -> Option<u8>
    ensures { result ≡ law.line_named word.now }
{
    match word {
        b"4" => Some(4),
        b"5" => Some(5),
        b"6" => Some(6),
        _ => None,
    }
}

/// The level that a word names.
fn level_named(word: &[u8]) -> Option<bool>
    ensures { result ≡ law.level_named word.now }
{
    match word {
        b"0" => Some(false),
        b"1" => Some(true),
        _ => None,
    }
}

/// A level of an interrupt line.
fn irq(line: &[u8], level: &[u8]) -> Result<Deed<'static>, ScriptWhy>
    ensures deed { deed_shown result ≡ matched (law.irq_of (law.line_named line.now) (law.level_named level.now)) }
    ensures sound { IfOk result IsSound }
    ensures short { IfOk result (λ deed. digits_in deed ≡ 0) }
{
    match (line_named(line), level_named(level)) {
        (Some(line), Some(level)) => Ok(Deed::One(What::Irq { line, level })),
        _ => Err(ScriptWhy::Number),
    }
}

/// What a row of one word lets come.
fn read_one(name: &[u8]) -> Result<Deed<'static>, ScriptWhy>
    ensures deed { deed_shown result ≡ row_result (law.row_of (name.now ∷ [])) }
    ensures sound { IfOk result IsSound }
    ensures short { IfOk result (λ deed. digits_in deed ≡ 0) }
{
    match name {
        b"hold" => Ok(Deed::One(What::Hold)),
        b"go" => Ok(Deed::One(What::Go)),
        _ => Err(ScriptWhy::Line),
    }
}

/// What a row of two words lets come.
fn read_two<'a>(name: &[u8], digits: &'a [u8]) -> Result<Deed<'a>, ScriptWhy>
    ensures deed { deed_shown result ≡ row_result (law.row_of (name.now ∷ digits.now ∷ [])) }
    ensures sound { IfOk result IsSound }
    ensures short { IfOk result (λ deed. digits_in deed ≤ length digits.now) }
{
    if is_name(name, b"key") && is_pairs(digits) {
        Ok(Deed::Keys(digits))
    } else {
        Err(ScriptWhy::Line)
    }
}

/// What a row of three words lets come.
fn read_three(name: &[u8], line: &[u8], level: &[u8]) -> Result<Deed<'static>, ScriptWhy>
    ensures deed { deed_shown result ≡ row_result (law.row_of (name.now ∷ line.now ∷ level.now ∷ [])) }
    ensures sound { IfOk result IsSound }
    ensures short { IfOk result (λ deed. digits_in deed ≡ 0) }
{
    if is_name(name, b"irq") {
        irq(line, level)
    } else {
        Err(ScriptWhy::Line)
    }
}

/// What these words let come, or the first reason for which their line is bad, by them alone.
#[tactic(auto, using(crate::proofs::RowList::row_of_four))]
pub fn read_row(words: &[u8]) -> Result<Deed<'_>, ScriptWhy>
    ensures deed { deed_shown result ≡ row_result (law.row_of (law.words_of words.now)) }
    ensures sound { IfOk result IsSound }
    ensures short { IfOk result (λ deed. digits_in deed ≤ length words.now) }
{
    let first = first_part(words, b' ');
    let Some(more) = first.rest else {
        return read_one(first.part);
    };
    let second = first_part(more, b' ');
    let Some(more) = second.rest else {
        return read_two(first.part, second.part);
    };
    let third = first_part(more, b' ');
    match third.rest {
        None => read_three(first.part, second.part, third.part),
        Some(_) => Err(ScriptWhy::Line),
    }
}
