//! The arguments of a case: words with blanks between them, and a text in quotes, which comes last. In a text `|` stands
//! for a newline, `^` for a carriage return and `~` for a tab.

use std::alloc::{AllocError, Global};

/// The word at an index, and an empty one where there is none.
pub fn word_at(arguments: &str, index: usize) -> &str {
    arguments.split(' ').nth(index).unwrap_or("")
}

/// The hexadecimal number at an index.
pub fn number_at(arguments: &str, index: usize) -> Option<u64> {
    u64::from_str_radix(word_at(arguments, index), 16).ok()
}

/// The bytes of the text between the quotes.
pub fn text_of(alloc: Global, arguments: &str) -> Result<Vec<u8>, AllocError> {
    let (_before, text) = arguments.split_once('"').unwrap_or(("", ""));
    let mut bytes = Vec::new(alloc);
    for byte in text.strip_suffix('"').unwrap_or(text).bytes() {
        bytes.push(match byte {
            b'|' => b'\n',
            b'^' => b'\r',
            b'~' => b'\t',
            _ => byte,
        })?;
    }
    Ok(bytes)
}
