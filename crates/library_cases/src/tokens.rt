//! The text of one line: the verbs of mips_text.

use crate::arguments::{
    bytes_of, put_bytes, put_decimal, put_text, quoted, text_of, word_at, word_number_at,
};
use crate::scene::Scene;
use crate::sources;
use arrayvec::ArrayVec;
use mips_text::{
    AsmWhy, Token, TokenKind, cp0_register_of, number_of, print_inst, print_word, push_text,
    register_of, text_size, tokens,
};
use mips3_code::decode;
use r4_words::Line;
use std::alloc::{AllocError, Global};

/// Appends the answer of a verb.
pub fn put_answer(
    alloc: Global,
    scene: &mut Scene,
    verb: &str,
    arguments: &str,
    out: &mut String,
) -> Result<(), AllocError> {
    match verb {
        "print" => put_printed(arguments, out),
        "print_inst" => put_printed_inst(arguments, out),
        "register_of" => put_decimal(general_register(arguments), "none", out),
        "cp0_register_of" => put_decimal(cp0_register(arguments), "none", out),
        "number_of" => put_number(arguments, out),
        "tokens" => put_tokens(alloc, arguments, out),
        "token_count" => put_count(alloc, arguments, out),
        "push_text" => put_pushed(alloc, arguments, out),
        _ => sources::put_answer(alloc, verb, arguments, out),
    }
}

fn general_register(arguments: &str) -> Option<u64> {
    Some(u64::from(register_of(quoted(arguments).as_bytes())?))
}

fn cp0_register(arguments: &str) -> Option<u64> {
    Some(u64::from(cp0_register_of(quoted(arguments).as_bytes())?))
}

/// The name of the reason for which a line is refused.
pub fn why_name(why: AsmWhy) -> &'static str {
    match why {
        AsmWhy::Unknown => "Unknown",
        AsmWhy::Operand => "Operand",
        AsmWhy::Range => "Range",
        AsmWhy::Twice => "Twice",
        AsmWhy::NoLabel => "NoLabel",
        AsmWhy::Align => "Align",
    }
}

// Appends the text of a word at an address.
fn put_printed(arguments: &str, out: &mut String) -> Result<(), AllocError> {
    let mut line = Line::new();
    match (word_number_at(arguments, 0), word_number_at(arguments, 1)) {
        (Some(word), Some(at)) => print_word(word, at, &mut line),
        _ => return out.push_str("?"),
    }
    put_text(line.as_slice(), out)
}

// Appends the text of the instruction of a word at an address.
fn put_printed_inst(arguments: &str, out: &mut String) -> Result<(), AllocError> {
    let mut line = Line::new();
    match (word_number_at(arguments, 0), word_number_at(arguments, 1)) {
        (Some(word), Some(at)) => match decode(word) {
            Some(inst) => print_inst(&inst, at, &mut line),
            None => return out.push_str("none"),
        },
        _ => return out.push_str("?"),
    }
    put_text(line.as_slice(), out)
}

fn put_number(arguments: &str, out: &mut String) -> Result<(), AllocError> {
    match number_of(quoted(arguments).as_bytes()) {
        Some(number) => write!(out, "{number}"),
        None => out.push_str("none"),
    }
}

fn kind_name(kind: TokenKind) -> &'static str {
    match kind {
        TokenKind::Name => "Name",
        TokenKind::Number => "Number",
        TokenKind::Text => "Text",
        TokenKind::Mark => "Mark",
    }
}

fn put_token(line: &[u8], token: &Token, out: &mut String) -> Result<(), AllocError> {
    write!(out, "[{} ", kind_name(token.kind))?;
    let bytes = line.get(token.from as usize..token.to as usize);
    put_text(bytes.unwrap_or(&[]), out)?;
    out.push_str("]")
}

// Appends the tokens of a line with blanks between them, and why it is refused after them.
fn put_tokens(alloc: Global, arguments: &str, out: &mut String) -> Result<(), AllocError> {
    let line = text_of(alloc, quoted(arguments))?;
    put_tokens_of(&line, out)
}

fn put_tokens_of(line: &[u8], out: &mut String) -> Result<(), AllocError> {
    if line.len() > 0xffff_fffe {
        return out.push_str("?");
    }
    let mut cut = ArrayVec::new();
    let refusal = tokens(line, &mut cut);
    put_list(line, &cut, refusal, out)
}

fn put_list(
    line: &[u8],
    cut: &[Token],
    refusal: Option<AsmWhy>,
    out: &mut String,
) -> Result<(), AllocError> {
    for (index, token) in cut.iter().enumerate() {
        out.push_str(if index > 0 { " " } else { "" })?;
        put_token(line, token, out)?;
    }
    match refusal {
        Some(why) if cut.is_empty() => out.push_str(why_name(why)),
        Some(why) => write!(out, " {}", why_name(why)),
        None if cut.is_empty() => out.push_str("none"),
        None => Ok(()),
    }
}

// Appends how many tokens a line has, and why it is refused after them.
fn put_count(alloc: Global, arguments: &str, out: &mut String) -> Result<(), AllocError> {
    let line = text_of(alloc, quoted(arguments))?;
    put_count_of(&line, out)
}

fn put_count_of(line: &[u8], out: &mut String) -> Result<(), AllocError> {
    if line.len() > 0xffff_fffe {
        return out.push_str("?");
    }
    let mut cut = ArrayVec::new();
    match tokens(line, &mut cut) {
        Some(why) => write!(out, "{} {}", cut.len(), why_name(why)),
        None => write!(out, "{}", cut.len()),
    }
}

// Appends how many bytes a text in quotes stands for, and those of the first argument with them behind.
fn put_pushed(alloc: Global, arguments: &str, out: &mut String) -> Result<(), AllocError> {
    let mut bytes = bytes_of(alloc, word_at(arguments, 0))?;
    push_sized(quoted(arguments).as_bytes(), &mut bytes, out)?;
    put_bytes(&bytes, out)
}

fn push_sized(text: &[u8], bytes: &mut Vec<u8>, out: &mut String) -> Result<(), AllocError> {
    match text_size(text) {
        Some(size) => {
            push_text(text, bytes)?;
            write!(out, "{size} ")
        }
        None => out.push_str("none "),
    }
}
