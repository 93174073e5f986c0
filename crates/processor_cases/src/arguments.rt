//! The arguments of a case: words with blanks between them.

/// The word at an index, and an empty one where there is none.
pub fn word_at(arguments: &str, index: usize) -> &str {
    arguments.split(' ').nth(index).unwrap_or("")
}

/// The register at an index: a hexadecimal number.
pub fn register_at(arguments: &str, index: usize) -> Option<u64> {
    u64::from_str_radix(word_at(arguments, index), 16).ok()
}
