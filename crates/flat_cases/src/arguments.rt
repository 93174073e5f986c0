//! The arguments of a case: words with blanks between them.

/// The word at an index, and an empty one where there is none.
pub fn word_at(arguments: &str, index: usize) -> &str {
    arguments.split(' ').nth(index).unwrap_or("")
}

/// The decimal number at an index.
pub fn count_at(arguments: &str, index: usize) -> Option<u32> {
    word_at(arguments, index).parse::<u32>().ok()
}

/// The hexadecimal number of 32 bits at an index.
pub fn number_at(arguments: &str, index: usize) -> Option<u32> {
    u32::from_str_radix(word_at(arguments, index), 16).ok()
}

/// What stands after the first word.
pub fn rest_of(arguments: &str) -> &str {
    match arguments.split_once(' ') {
        Some((_, rest)) => rest,
        None => "",
    }
}
