//! The PROM: the verbs of prom_code. Its words are written with their offsets, those that are zero left out.

use crate::sources::{assembled_of, put_fault};
use mips_asm::Built;
use prom_code::{prom, prom_source};
use std::alloc::{AllocError, Global};

/// Appends the answer of a verb, a question mark where there is no such verb.
pub fn put_answer(alloc: Global, verb: &str, out: &mut String) -> Result<(), AllocError> {
    match verb {
        "prom" => put_words(&prom().words, out),
        "prom_source" => put_source(alloc, out),
        _ => out.push_str("?"),
    }
}

// Appends how many words there are, and which at which offset.
fn put_words(words: &[u32], out: &mut String) -> Result<(), AllocError> {
    write!(out, "{}", words.len())?;
    let mut at = 0_u32;
    for word in words {
        put_word(at, *word, out)?;
        at = at.wrapping_add(4);
    }
    Ok(())
}

fn put_word(at: u32, word: u32, out: &mut String) -> Result<(), AllocError> {
    if word == 0 {
        return Ok(());
    }
    write!(out, " {at:03x}:{word:08x}")
}

// Appends the base, the entry and the words that the source of the PROM assembles to, or its first bad line and the reason.
fn put_source(alloc: Global, out: &mut String) -> Result<(), AllocError> {
    match assembled_of(alloc, prom_source().as_bytes()) {
        Ok(built) => put_built(alloc, &built, out),
        Err(fault) => put_fault(fault, out),
    }
}

fn put_built(alloc: Global, built: &Built, out: &mut String) -> Result<(), AllocError> {
    write!(out, "{:08x} {:08x} ", built.base, built.entry)?;
    let words = words_of(alloc, &built.bytes)?;
    put_words(&words, out)
}

// The words of bytes, the high byte first.
fn words_of(alloc: Global, bytes: &[u8]) -> Result<Vec<u32>, AllocError> {
    let mut words = Vec::new(alloc);
    for word in bytes.chunks(4) {
        words.push(word_of(word))?;
    }
    Ok(words)
}

fn word_of(bytes: &[u8]) -> u32 {
    match bytes {
        [first, second, third, fourth] => { u32::from_be_bytes([*first, *second, *third, *fourth]) }
        _ => 0,
    }
}
