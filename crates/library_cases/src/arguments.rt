//! The arguments of a case: words with blanks between them, and a text in quotes, which comes last. In a text a bar stands
//! for the end of a line, and a percent sign and two hexadecimal digits for a byte.

use std::alloc::{AllocError, Global};

/// The word at an index, and an empty one where there is none.
pub fn word_at(arguments: &str, index: usize) -> &str {
    arguments.split(' ').nth(index).unwrap_or("")
}

/// The number of a word: decimal, or hexadecimal after `0x`.
pub fn number_of(word: &str) -> Option<u64> {
    match word.strip_prefix("0x") {
        Some(digits) => u64::from_str_radix(digits, 16).ok(),
        None => word.parse::<u64>().ok(),
    }
}

/// The number at an index.
pub fn number_at(arguments: &str, index: usize) -> Option<u64> {
    number_of(word_at(arguments, index))
}

/// The number of 32 bits at an index.
pub fn word_number_at(arguments: &str, index: usize) -> Option<u32> {
    u32::try_from(number_at(arguments, index)?).ok()
}

/// The text between the quotes.
pub fn quoted(arguments: &str) -> &str {
    let (_before, text) = arguments.split_once('"').unwrap_or(("", ""));
    text.strip_suffix('"').unwrap_or(text)
}

/// The bytes of a word of hexadecimal digits, two a byte.
pub fn bytes_of(alloc: Global, word: &str) -> Result<Vec<u8>, AllocError> {
    let mut bytes = Vec::new(alloc);
    for pair in word.as_bytes().chunks(2) {
        bytes.push(byte_of(pair))?;
    }
    Ok(bytes)
}

// The byte of two digits, 0 for another text.
fn byte_of(pair: &[u8]) -> u8 {
    let digits = std::str::from_utf8(pair).unwrap_or("");
    u8::from_str_radix(digits, 16).unwrap_or(0)
}

/// The bytes of a text.
pub fn text_of(alloc: Global, text: &str) -> Result<Vec<u8>, AllocError> {
    let mut bytes = Vec::new(alloc);
    for (index, part) in text.split('%').enumerate() {
        match part.as_bytes() {
            [high, low, rest @ ..] if index > 0 => {
                bytes.push(byte_of(&[*high, *low]))?;
                add_plain(rest, &mut bytes)?;
            }
            plain => add_plain(plain, &mut bytes)?,
        }
    }
    Ok(bytes)
}

// Appends the bytes of a text without percent signs.
fn add_plain(text: &[u8], bytes: &mut Vec<u8>) -> Result<(), AllocError> {
    for byte in text {
        bytes.push(if *byte == b'|' { b'\n' } else { *byte })?;
    }
    Ok(())
}

/// Appends bytes as a text.
pub fn put_text(bytes: &[u8], out: &mut String) -> Result<(), AllocError> {
    for byte in bytes {
        match byte {
            b'\n' => out.push_str("|")?,
            b'|' | b'%' | 0..=0x1f | 0x7f..=0xff => write!(out, "%{byte:02x}")?,
            _ => out.push(char::from(*byte))?,
        }
    }
    Ok(())
}

/// Appends bytes in hexadecimal.
pub fn put_bytes(bytes: &[u8], out: &mut String) -> Result<(), AllocError> {
    for byte in bytes {
        write!(out, "{byte:02x}")?;
    }
    Ok(())
}

/// Appends a number in hexadecimal, or what stands for none.
pub fn put_hexadecimal(
    number: Option<u64>,
    none: &str,
    out: &mut String,
) -> Result<(), AllocError> {
    match number {
        Some(number) => write!(out, "{number:#x}"),
        None => out.push_str(none),
    }
}

/// Appends a number in decimal, or what stands for none.
pub fn put_decimal(number: Option<u64>, none: &str, out: &mut String) -> Result<(), AllocError> {
    match number {
        Some(number) => write!(out, "{number}"),
        None => out.push_str(none),
    }
}
