//! The bytes that a text in quotes stands for.

ghost use Rattle.std.specs.Prelude.{◌≡◌, ◌<◌, ◌≤◌, ◌-◌, ◌++◌, ◌↔◌, length, drop, take, false, Some, None, IfSome, IfNone, IsSome, OnErr, OnOk, option_map, vec_len};
ghost use Rattle.mips_text.specs.Values as values;

use crate::lexing::{byte_at, rest_from};
use r4_words::Memory;

/// A byte that a text stands for, and how many bytes of the text say so.
#[derive(Clone, Copy)]
struct Piece {
    byte: u8,
    used: usize,
}

/// The byte after a backslash, as what it stands for: `\n`, `\0`, `\\` and `\"`.
fn escaped(code: u8) -> Option<u8>
    ensures { result ≡ values.escaped code }
{
    match code {
        b'n' => Some(b'\n'),
        b'0' => Some(0),
        b'\\' | b'"' => Some(code),
        _ => None,
    }
}

/// What stands between the quotes.
fn inside(text: &[u8]) -> &[u8]
    ensures { result.now ≡ values.inside text.now }
{
    let rest = rest_from(text, 1);
    let end = rest.len().saturating_sub(1);
    &rest[..end]
}

/// The first byte that the inside of a text stands for, None where a backslash stands before a byte that it does not
/// escape.
fn piece_of(text: &[u8]) -> Option<Piece>
    requires { 0 < length text.now }
    ensures some { IfSome result (λ piece. values.BeginsWith text.now piece.byte piece.used) }
    ensures none { IfNone result (values.unescaped false text.now ≡ None) }
{
    if text[0] != b'\\' {
        return Some(Piece {
            byte: text[0],
            used: 1,
        });
    }
    let byte = escaped(byte_at(text, 1))?;
    Some(Piece { byte, used: 2 })
}

/// How many bytes a Text token's text stands for. None where a backslash stands before a byte that it does not escape.
#[tactic(auto, unfolding(crate::specs::Values::bytes_of_text))]
pub fn text_size(text: &[u8]) -> Option<usize>
    ensures value { result ≡ option_map length (values.bytes_of_text text.now) }
    ensures some { IsSome result ↔ IsSome (values.bytes_of_text text.now) }
{
    size_of(inside(text))
}

fn size_of(inside: &[u8]) -> Option<usize>
    ensures { result ≡ option_map length (values.unescaped false inside.now) }
{
    let mut at = 0;
    let mut size = 0;
    while at < inside.len() {
        match piece_of(rest_from(inside, at)) {
            Some(piece) => {
                size += 1;
                at += piece.used;
            }
            None => return None,
        }
    }
    Some(size)
}

/// Appends the bytes that a Text token's text stands for, where `text_size` has an answer. Where memory is wanting, the
/// bytes stay as they were.
#[tactic(auto, unfolding(crate::specs::Values::bytes_of_text))]
pub fn push_text(text: &[u8], out: &mut Vec<u8>) -> Result<(), Memory>
    requires { IsSome (values.bytes_of_text text.now) }
    ensures ok { OnOk result (IfSome (values.bytes_of_text text.now) (λ bytes. out.new.items ≡ out.old.items ++ bytes)) }
    ensures err { OnErr result (out.new.items ≡ out.old.items) }
{
    let before = out.len();
    match push_inside(inside(text), out) {
        Ok(()) => Ok(()),
        Err(error) => {
            out.truncate(before);
            Err(error)
        }
    }
}

/// Appends the bytes that the inside of a text stands for, or where memory is wanting some of them.
fn push_inside(inside: &[u8], out: &mut Vec<u8>) -> Result<(), Memory>
    requires { IsSome (values.unescaped false inside.now) }
    ensures ok { OnOk result (IfSome (values.unescaped false inside.now) (λ bytes. out.new.items ≡ out.old.items ++ bytes)) }
    ensures front { take (vec_len out.old) out.new.items ≡ out.old.items }
{
    let mut at = 0;
    while at < inside.len() {
        match piece_of(rest_from(inside, at)) {
            Some(piece) => {
                out.push(piece.byte)?;
                at += piece.used;
            }
            None => unreachable!(),
        }
    }
    Ok(())
}
