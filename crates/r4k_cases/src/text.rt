//! Numbers and bytes of a script.

use crate::fault::Fault;
use r4_words::read_hex;
use std::alloc::{AllocError, Global};

/// A decimal number.
pub fn number_of(text: &str) -> Result<usize, Fault> {
    match text.parse::<usize>() {
        Ok(number) => Ok(number),
        Err(_) => Err(Fault::Unread),
    }
}

// Appends a number.
fn add_number(numbers: &mut Vec<u64>, number: u64) -> Result<(), AllocError> {
    Ok(numbers.push(number)?)
}

// Appends a byte.
fn add_byte(bytes: &mut Vec<u8>, byte: u8) -> Result<(), AllocError> {
    Ok(bytes.push(byte)?)
}

/// The decimal numbers of a text, with blanks between them; `-` is none.
pub fn numbers_of(alloc: Global, text: &str) -> Result<Vec<u64>, Fault> {
    let mut numbers = Vec::new(alloc);
    if text != "-" {
        for word in text.split(' ') {
            add_number(&mut numbers, number_of(word)? as u64)?;
        }
    }
    Ok(numbers)
}

/// The byte of two hexadecimal digits.
pub fn byte_of(pair: &[u8]) -> Result<u8, Fault> {
    match read_hex(pair, 2) {
        Some(byte) => Ok((byte % 256) as u8),
        None => Err(Fault::Unread),
    }
}

/// The number of eight hexadecimal digits.
pub fn word_of(text: &str) -> Result<u32, Fault> {
    match read_hex(text.as_bytes(), 8) {
        Some(word) => Ok((word % 0x100000000) as u32),
        None => Err(Fault::Unread),
    }
}

// Appends the bytes of a word of hexadecimal pairs.
fn add_word(bytes: &mut Vec<u8>, word: &str) -> Result<(), Fault> {
    for pair in word.as_bytes().chunks(2) {
        add_byte(bytes, byte_of(pair)?)?;
    }
    Ok(())
}

/// Appends the bytes of hexadecimal words, with blanks between them.
pub fn add_words(bytes: &mut Vec<u8>, text: &str) -> Result<(), Fault> {
    for word in text.split(' ') {
        add_word(bytes, word)?;
    }
    Ok(())
}

/// The bytes of hexadecimal words, with blanks between them.
pub fn bytes_of(alloc: Global, text: &str) -> Result<Vec<u8>, Fault> {
    let mut bytes = Vec::new(alloc);
    add_words(&mut bytes, text)?;
    Ok(bytes)
}

/// Appends the bytes of a text, in which a bar stands for the end of a line.
pub fn add_lines(bytes: &mut Vec<u8>, text: &str) -> Result<(), Fault> {
    for byte in text.as_bytes() {
        add_byte(bytes, if *byte == b'|' { b'\n' } else { *byte })?;
    }
    Ok(())
}

/// The bytes of such a text.
pub fn lines_of(alloc: Global, text: &str) -> Result<Vec<u8>, Fault> {
    let mut bytes = Vec::new(alloc);
    add_lines(&mut bytes, text)?;
    Ok(bytes)
}

/// So many words, each the product of its place and a factor, without what passes 32 bits.
pub fn multiples_of(alloc: Global, count: usize, factor: u32) -> Result<Vec<u8>, Fault> {
    let mut bytes = Vec::new(alloc);
    let mut word = 0u32;
    for _ in 0..count {
        bytes.extend_from_slice(&word.to_be_bytes())?;
        word = word.wrapping_add(factor);
    }
    Ok(bytes)
}

// Appends the headers of an image at an address, which is its entry too, with so many bytes.
fn add_headers(bytes: &mut Vec<u8>, base: u32, size: u32) -> Result<(), Fault> {
    let base = base.to_be_bytes();
    add_words(
        bytes,
        "7f454c46 01020100 00000000 00000000 00020008 00000001",
    )?;
    bytes.extend_from_slice(&base)?;
    add_words(
        bytes,
        "00000034 00000000 00000000 00340020 00010000 00000000 00000001 00000054",
    )?;
    bytes.extend_from_slice(&base)?;
    bytes.extend_from_slice(&base)?;
    bytes.extend_from_slice(&size.to_be_bytes())?;
    bytes.extend_from_slice(&size.to_be_bytes())?;
    add_words(bytes, "00000007 00000004")
}

/// The image of hexadecimal words: it is loaded at its base, and entered there.
pub fn image_of(alloc: Global, base: u32, words: &str) -> Result<Vec<u8>, Fault> {
    let inside = bytes_of(alloc, words)?;
    let mut image = Vec::new(alloc);
    add_headers(&mut image, base, (inside.len() % 0x100000000) as u32)?;
    image.extend_from_slice(&inside)?;
    Ok(image)
}
