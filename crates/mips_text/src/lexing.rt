//! A line cut into its tokens.

ghost use Rattle.std.specs.Prelude.{◌≡◌, ◌<◌, ◌≤◌, ◌+◌, ◌-◌, ◌∷◌, [], ◌++◌, length, drop, slice_index, true, false, IfSome, All};
ghost use Rattle.std.specs.List.{prefix_len};
ghost use Rattle.r4_words.specs.Texts.{is_digit};
ghost use Rattle.mips_text.specs.Tokens as spec;

use crate::reason::AsmWhy;
use crate::token::{Start, Token, TokenKind};
use arrayvec::ArrayVec;

/// The byte at an index, 0 past the end.
pub fn byte_at(text: &[u8], at: usize) -> u8
    ensures { result ≡ slice_index text.now at }
{
    if at < text.len() { text[at] } else { 0 }
}

/// What follows an index.
pub fn rest_from(text: &[u8], at: usize) -> &[u8]
    ensures value { result.now ≡ drop at text.now }
    ensures len { length result.now ≡ length text.now - at }
{
    if at < text.len() { &text[at..] } else { &[] }
}

fn is_name_byte(code: u8) -> bool
    ensures { result ≡ spec.is_name_byte code }
{
    matches!(code, b'A'..=b'Z' | b'a'..=b'z' | b'0'..=b'9' | b'_' | b'.')
}

/// How many decimal digits a text begins with.
#[tactic(auto, using(crate::proofs::Cutting::run_within))]
fn digits(text: &[u8]) -> usize
    ensures value { result ≡ prefix_len is_digit text.now }
    ensures within { result ≤ length text.now }
{
    text.iter()
        .take_while(|code| matches!(**code, b'0'..=b'9'))
        .count()
}

#[tactic(auto, using(crate::proofs::Cutting::run_within))]
fn hex_digits(text: &[u8]) -> usize
    ensures value { result ≡ prefix_len spec.is_hex_digit text.now }
    ensures within { result ≤ length text.now }
{
    text.iter()
        .take_while(|code| matches!(**code, b'0'..=b'9' | b'A'..=b'F' | b'a'..=b'f'))
        .count()
}

#[tactic(auto, using(crate::proofs::Cutting::run_within))]
fn name_bytes(text: &[u8]) -> usize
    ensures value { result ≡ prefix_len spec.is_name_byte text.now }
    ensures within { result ≤ length text.now }
{
    text.iter().take_while(|code| is_name_byte(**code)).count()
}

/// Whether a text begins as a hexadecimal number does.
pub fn is_hexadecimal(text: &[u8]) -> bool
    ensures { result ≡ spec.is_hexadecimal text.now }
{
    matches!(text, [b'0', b'x', b'0'..=b'9' | b'A'..=b'F' | b'a'..=b'f', ..])
}

/// How many bytes a number has, without a sign, that a text begins with.
fn number_length(text: &[u8]) -> usize
    requires { length text.now ≤ 4294967294 }
    ensures value { result ≡ spec.number_length text.now }
    ensures within { result ≤ length text.now + 2 }
{
    if is_hexadecimal(text) {
        2 + hex_digits(rest_from(text, 2))
    } else {
        digits(text)
    }
}

/// How many bytes a text in quotes has after its opening quote, up to and with its closing one.
#[tactic(auto, using(crate::proofs::Cutting::more_at_one_more, crate::proofs::Cutting::quoted_within))]
fn quoted_length(text: &[u8]) -> Option<usize>
    ensures value { result ≡ spec.quoted_length false text.now }
    ensures within { IfSome result (λ n. n ≤ length text.now) }
{
    let mut taken = false;
    for (at, code) in text.iter().enumerate() {
        if taken {
            taken = false;
        } else if *code == b'"' {
            return Some(at + 1);
        } else {
            taken = *code == b'\\';
        }
    }
    None
}

/// What stands at the head of a text.
fn start_of(text: &[u8]) -> Start
    requires some { 0 < length text.now }
    requires short { length text.now ≤ 4294967294 }
    ensures value { result ≡ spec.start_of text.now }
    ensures spans { spec.Spans result (length text.now) }
{
    head_of(text)
}

#[tactic(auto, unfolding(crate::specs::Tokens::start_of))]
fn head_of(text: &[u8]) -> Start
    requires some { 0 < length text.now }
    requires short { length text.now ≤ 4294967294 }
    ensures { result ≡ spec.start_of text.now }
{
    let next = byte_at(text, 1);
    let next_is_digit = matches!(next, b'0'..=b'9');
    match text[0] {
        b' ' | b'\t' => Start::Blank,
        b'#' => Start::Comment,
        b',' | b':' | b'(' | b')' => Start::Begins(TokenKind::Mark, 1),
        b'"' => match quoted_length(rest_from(text, 1)) {
            Some(size) => Start::Begins(TokenKind::Text, size + 1),
            None => Start::Refused(AsmWhy::Operand),
        },
        b'0'..=b'9' => Start::Begins(TokenKind::Number, number_length(text)),
        b'A'..=b'Z' | b'a'..=b'z' | b'_' | b'.' => Start::Begins(TokenKind::Name, name_bytes(text)),
        b'-' if next_is_digit => {
            Start::Begins(TokenKind::Number, 1 + number_length(rest_from(text, 1)))
        }
        b'$' if next_is_digit => Start::Begins(TokenKind::Name, 1 + digits(rest_from(text, 1))),
        _ => Start::Refused(AsmWhy::Unknown),
    }
}

/// A line without the carriage return at its end.
fn without_return(line: &[u8]) -> &[u8]
    ensures value { result.now ≡ spec.without_return line.now }
    ensures len { length result.now ≤ length line.now }
{
    let end = line.len().saturating_sub(1);
    if byte_at(line, end) == b'\r' {
        &line[..end]
    } else {
        line
    }
}

/// The tokens of a line without a carriage return at its end.
fn cut(line: &[u8], out: &mut ArrayVec<Token, 64>) -> Option<AsmWhy>
    requires empty { out.old.items ≡ [] }
    requires short { length line.now ≤ 4294967294 }
    ensures { spec.Ends line.now out.new.items result }
{
    let mut at = 0;
    while at < line.len() {
        match start_of(rest_from(line, at)) {
            Start::Blank => at += 1,
            Start::Comment => return None,
            Start::Refused(why) => return Some(why),
            Start::Begins(kind, size) => {
                if out.is_full() {
                    return Some(AsmWhy::Operand);
                }
                out.push(Token {
                    kind,
                    from: at as u32,
                    to: (at + size) as u32,
                });
                at += size;
            }
        }
    }
    None
}

/// Cuts a line into tokens, and says why it is refused, if it is. `line` has no newline; a carriage return at its end
/// is dropped. The tokens up to a `#` outside a text are put in `out`, or those up to the refusal:
/// Unknown exactly at a byte that begins no token, Operand exactly at a text that is not closed or at a 65th token.
pub fn tokens(line: &[u8], out: &mut ArrayVec<Token, 64>) -> Option<AsmWhy>
    requires empty { out.old.items ≡ [] }
    requires short { length line.now ≤ 4294967294 }
    ensures tokens { out.new.items ≡ (spec.tokens_of line.now).tokens }
    ensures refusal { result ≡ (spec.tokens_of line.now).refusal }
    ensures in_order { spec.InOrder 0 out.new.items (length line.now) }
    ensures within { All (spec.IsWithin (length line.now)) out.new.items }
{
    cut(without_return(line), out)
}
