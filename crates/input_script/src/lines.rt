//! A line of a script, as it is read.

ghost use Rattle.std.specs.Prelude.{◌≡◌, ◌≤◌, length, IfOk, IfSome};
ghost use Rattle.std.specs.Str.Lines.{strip_carriage_return};
ghost use Rattle.input_script.specs.Grammar as law;
ghost use Rattle.input_script.specs.Shown.{IsSound, digits_in, digits_said, reading_shown, said_shown};

use crate::faults::ScriptWhy;
use crate::parts::first_part;
use crate::rows::{Deed, read_row};
use r4_words::read_dec;

/// What a line lets come, and when.
#[derive(Clone, Copy)]
pub struct Said<'a> {
    pub tick: u32,
    pub deed: Deed<'a>,
}

/// A line without one carriage return at its end.
fn stripped(line: &[u8]) -> &[u8]
    ensures value { result.now ≡ strip_carriage_return line.now }
    ensures short { length result.now ≤ length line.now }
{
    match line {
        [front @ .., b'\r'] => front,
        _ => line,
    }
}

/// Whether a line is skipped.
fn is_skipped(line: &[u8]) -> bool
    ensures { result ≡ law.is_skipped line.now }
{
    match line {
        [] => true,
        [code, ..] => *code == b'#',
    }
}

/// Reads a line that is not skipped.
fn read_words(line: &[u8]) -> Result<Said<'_>, ScriptWhy>
    ensures said { said_shown result ≡ law.read_words (law.words_of line.now) }
    ensures sound { IfOk result (λ said. IsSound said.deed) }
    ensures short { IfOk result (λ said. digits_in said.deed ≤ length line.now) }
{
    let first = first_part(line, b' ');
    let words = first.rest.ok_or(ScriptWhy::Line)?;
    let deed = read_row(words)?;
    let tick = read_dec(first.part).ok_or(ScriptWhy::Number)?;
    Ok(Said { tick, deed })
}

/// Reads a line: what it lets come, nothing where it is skipped, or the first reason for which it is bad by itself.
#[tactic(auto, unfolding(crate::specs::Grammar::read_line))]
pub fn read_line(line: &[u8]) -> Result<Option<Said<'_>>, ScriptWhy>
    ensures reading { reading_shown result ≡ law.read_line line.now }
    ensures sound { IfOk result (λ said. IfSome said (λ one. IsSound one.deed)) }
    ensures short { IfOk result (λ said. digits_said said ≤ length line.now) }
{
    let line = stripped(line);
    if is_skipped(line) {
        Ok(None)
    } else {
        Ok(Some(read_words(line)?))
    }
}
