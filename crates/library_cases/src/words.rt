//! Words and numbers as texts: the verbs of r4_words.

use crate::arguments::{
    number_at, number_of, put_decimal, put_hexadecimal, quoted, word_number_at,
};
use crate::memory;
use crate::scene::Scene;
use r4_words::{
    Line, field, put_dec, put_hex, put_text, read_dec, read_hex, sext16, sext32, value_of_digit,
};
use std::alloc::{AllocError, Global};

/// Appends the answer of a verb.
pub fn put_answer(
    alloc: Global,
    scene: &mut Scene,
    verb: &str,
    arguments: &str,
    out: &mut String,
) -> Result<(), AllocError> {
    match verb {
        "sext16" => put_hexadecimal(extended_half(arguments), "?", out),
        "sext32" => put_hexadecimal(extended_word(arguments), "?", out),
        "field" => put_hexadecimal(field_of(arguments), "?", out),
        "value_of_digit" => put_decimal(digit_value(arguments), "?", out),
        "read_dec" => put_decimal(read_decimal(arguments), "none", out),
        "read_hex" => put_hexadecimal(read_hexadecimal(arguments), "none", out),
        "line" => put_line(arguments, out),
        _ => memory::put_answer(alloc, scene, verb, arguments, out),
    }
}

fn extended_half(arguments: &str) -> Option<u64> {
    let half = number_at(arguments, 0)?;
    if half > 0xffff {
        return None;
    }
    Some(u64::from(sext16(half as u16)))
}

fn extended_word(arguments: &str) -> Option<u64> {
    Some(sext32(word_number_at(arguments, 0)?))
}

fn field_of(arguments: &str) -> Option<u64> {
    let word = word_number_at(arguments, 0)?;
    let high = word_number_at(arguments, 1)?;
    let low = word_number_at(arguments, 2)?;
    if low > high || high >= 32 {
        return None;
    }
    Some(u64::from(field(word, high, low)))
}

// What the one digit in quotes stands for.
fn digit_value(arguments: &str) -> Option<u64> {
    let code = quoted(arguments).as_bytes().first()?;
    Some(u64::from(value_of_digit(*code)))
}

fn read_decimal(arguments: &str) -> Option<u64> {
    Some(u64::from(read_dec(quoted(arguments).as_bytes())?))
}

// How many digits, and the text in quotes.
fn read_hexadecimal(arguments: &str) -> Option<u64> {
    let digits = number_at(arguments, 0)?;
    if digits > 16 {
        return None;
    }
    read_hex(quoted(arguments).as_bytes(), digits as usize)
}

// Appends a line of words with blanks between them: `NUMBER/DIGITS` in hexadecimal, a number in decimal, and a text.
fn put_line(arguments: &str, out: &mut String) -> Result<(), AllocError> {
    let mut line = Line::new();
    for (index, word) in arguments.split(' ').enumerate() {
        if index > 0 {
            put_short(" ", &mut line);
        }
        put_piece(word, &mut line);
    }
    out.push_str(std::str::from_utf8(line.as_slice()).unwrap_or("?"))
}

fn put_piece(word: &str, line: &mut Line) {
    if line.len() > 108 {
        return;
    }
    match number_of(word) {
        Some(number) => put_dec(number, line),
        None => match word.split_once('/') {
            Some((number, digits)) => put_digits(number_of(number), number_of(digits), line),
            None => put_short(word, line),
        },
    }
}

fn put_digits(number: Option<u64>, digits: Option<u64>, line: &mut Line) {
    let number = number.unwrap_or(0);
    let digits = digits.unwrap_or(0);
    if digits <= 16 && line.len() <= 112 {
        put_hex(number, digits as u32, line);
    }
}

// Puts a text for which the line has room.
fn put_short(text: &str, line: &mut Line) {
    if text.len() <= 128 - line.len() {
        put_text(text.as_bytes(), line);
    }
}
