//! Whole sources: the verbs of mips_asm. A source is a text in quotes.

use crate::arguments::{put_bytes, quoted, text_of};
use crate::lines;
use crate::tokens::why_name;
use mips_asm::{AsmFault, Built, assemble};
use std::alloc::{AllocError, Global};

/// Appends the answer of a verb.
pub fn put_answer(
    alloc: Global,
    verb: &str,
    arguments: &str,
    out: &mut String,
) -> Result<(), AllocError> {
    match verb {
        "assemble" => put_assembled(alloc, arguments, out),
        "assembled_size" => put_size(alloc, arguments, out),
        _ => lines::put_answer(alloc, verb, arguments, out),
    }
}

fn assembled(alloc: Global, arguments: &str) -> Result<Built, AsmFault> {
    match text_of(alloc, quoted(arguments)) {
        Ok(source) => assembled_of(alloc, &source),
        Err(_) => Err(AsmFault::Memory),
    }
}

/// The image that a source assembles to.
pub fn assembled_of(alloc: Global, source: &[u8]) -> Result<Built, AsmFault> {
    if source.len() > 0xffff_fffe {
        return Err(AsmFault::Memory);
    }
    assemble(alloc, source)
}

// Appends the base, the entry and the words of an image, or the first bad line and its reason.
fn put_assembled(alloc: Global, arguments: &str, out: &mut String) -> Result<(), AllocError> {
    match assembled(alloc, arguments) {
        Ok(built) => put_built(&built, out),
        Err(fault) => put_fault(fault, out),
    }
}

fn put_built(built: &Built, out: &mut String) -> Result<(), AllocError> {
    write!(out, "{:08x} {:08x}", built.base, built.entry)?;
    put_words(&built.bytes, out)
}

fn put_words(bytes: &[u8], out: &mut String) -> Result<(), AllocError> {
    for word in bytes.chunks(4) {
        out.push_str(" ")?;
        put_bytes(word, out)?;
    }
    Ok(())
}

// Appends how many bytes an image has.
fn put_size(alloc: Global, arguments: &str, out: &mut String) -> Result<(), AllocError> {
    match assembled(alloc, arguments) {
        Ok(built) => write!(out, "{}", built.bytes.len()),
        Err(fault) => put_fault(fault, out),
    }
}

/// Appends the first bad line and its reason.
pub fn put_fault(fault: AsmFault, out: &mut String) -> Result<(), AllocError> {
    match fault {
        AsmFault::Bad { line, why } => write!(out, "line {line} {}", why_name(why)),
        AsmFault::Memory => out.push_str("memory"),
    }
}
