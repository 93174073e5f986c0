//! What a command line came to, as lines behind a bar.

use crate::scene::Scene;
use crate::seen::Seen;
use r4_ports::{CallKind, MemShelf, SureSink};
use r4k_top::{Status, status_number, write_status};
use std::alloc::{AllocError, Global};

// The text of bytes that are ASCII.
fn ascii(bytes: &[u8]) -> &str {
    std::str::from_utf8(bytes).unwrap_or("?")
}

/// Prints the line of a status, with its number behind it.
pub fn put_status(alloc: Global, status: &Status, out: &mut String) -> Result<(), AllocError> {
    let mut line = SureSink::new(alloc, 64)?;
    let _ = write_status(status, &mut line);
    writeln!(
        out,
        "| {} = {}",
        ascii(line.bytes().trim_ascii()),
        status_number(status)
    )
}

// Prints words of four bytes in hexadecimal, on one line.
fn put_row(bytes: &[u8], out: &mut String) -> Result<(), AllocError> {
    out.push_str("|")?;
    for word in bytes.chunks(4) {
        out.push_str(" ")?;
        for byte in word {
            write!(out, "{byte:02x}")?;
        }
    }
    out.push_str("\n")
}

// Prints a file, in rows of eight words; a star stands for the rows that are as the one above them.
fn put_file(name: &str, bytes: &[u8], out: &mut String) -> Result<(), AllocError> {
    writeln!(out, "| file {name} has {} bytes", bytes.len())?;
    let mut above: &[u8] = &[];
    let mut is_starred = false;
    for row in bytes.chunks(32) {
        if row != above {
            put_row(row, out)?;
        } else if !is_starred {
            out.push_str("| *\n")?;
        }
        is_starred = row == above;
        above = row;
    }
    Ok(())
}

// Prints a call of the shelf.
fn put_call(kind: CallKind, name: &[u8], out: &mut String) -> Result<(), AllocError> {
    match kind {
        CallKind::Fetch => writeln!(out, "| fetch {}", ascii(name)),
        CallKind::Put => writeln!(out, "| put {}", ascii(name)),
    }
}

// Prints the calls of the shelf in their order.
fn put_calls(shelf: &MemShelf, out: &mut String) -> Result<(), AllocError> {
    for number in 0..8 {
        if let Some((kind, name)) = shelf.call(number) {
            put_call(kind, name, out)?;
        }
    }
    Ok(())
}

// Prints a count of failed calls, where some failed.
fn put_count(count: u64, kind: &str, out: &mut String) -> Result<(), AllocError> {
    if count != 0 {
        writeln!(out, "| failed {kind} {count}")?;
    }
    Ok(())
}

// Prints how many fetches, puts and calls of the sink failed, and whether what was written has not gone out.
fn put_counts(seen: &Seen, out: &mut String) -> Result<(), AllocError> {
    put_count(seen.shelf.fetch_fault_count(), "fetches", out)?;
    put_count(seen.shelf.put_fault_count(), "puts", out)?;
    put_count(seen.sink.fault_count(), "writes", out)?;
    if !seen.sink.is_flushed() {
        out.push_str("| not flushed\n")?;
    }
    Ok(())
}

// Prints a file of the scene, where the shelf now holds other bytes under its name.
fn put_changed(
    shelf: &MemShelf,
    name: &str,
    before: &[u8],
    out: &mut String,
) -> Result<(), AllocError> {
    match shelf.file(name) {
        Some(bytes) if bytes == before => Ok(()),
        Some(bytes) => put_file(name, bytes, out),
        None => writeln!(out, "| file {name} is gone"),
    }
}

// Prints a file that a put named, where the scene has none of that name and the shelf now does.
fn put_new(
    shelf: &MemShelf,
    scene: &Scene,
    name: &str,
    out: &mut String,
) -> Result<(), AllocError> {
    match (scene.file(name), shelf.file(name)) {
        (None, Some(bytes)) => put_file(name, bytes, out),
        _ => Ok(()),
    }
}

// Prints the files that are changed, and then those that are new.
fn put_files(shelf: &MemShelf, scene: &Scene, out: &mut String) -> Result<(), AllocError> {
    for file in scene.files() {
        put_changed(shelf, file.name.as_str(), &file.bytes, out)?;
    }
    for number in 0..8 {
        if let Some((CallKind::Put, name)) = shelf.call(number) {
            put_new(shelf, scene, ascii(name), out)?;
        }
    }
    Ok(())
}

// Prints a line that was written; a tilde in place of the angle says that it was not ended.
fn put_line(line: &[u8], out: &mut String) -> Result<(), AllocError> {
    match line.strip_suffix(b"\n") {
        Some(line) => writeln!(out, "| > {}", ascii(line)),
        None => writeln!(out, "| ~ {}", ascii(line)),
    }
}

// Whether a line begins as one of these texts, which have commas between them.
fn begins_so(line: &[u8], begins: &str) -> bool {
    for begin in begins.split(',') {
        if line.starts_with(begin.as_bytes()) {
            return true;
        }
    }
    false
}

/// Prints the lines that were written, those that begin as one of these texts, which have commas between them.
pub fn put_text(text: &[u8], begins: &str, out: &mut String) -> Result<(), AllocError> {
    for line in text.split_inclusive(|byte| *byte == b'\n') {
        if begins_so(line, begins) {
            put_line(line, out)?;
        }
    }
    Ok(())
}

/// Prints how much of a text was written, where it is a first part of it.
pub fn put_part(part: &[u8], whole: &[u8], out: &mut String) -> Result<(), AllocError> {
    if whole.starts_with(part) {
        writeln!(out, "| the first {} of {} bytes", part.len(), whole.len())
    } else {
        writeln!(out, "| {} bytes of another text", part.len())
    }
}

/// Prints all but the text: the answer, the calls of the shelf, the files that are changed or new, and the failed calls.
pub fn put_outside(
    alloc: Global,
    scene: &Scene,
    seen: &Seen,
    out: &mut String,
) -> Result<(), AllocError> {
    put_status(alloc, &seen.status, out)?;
    put_calls(&seen.shelf, out)?;
    put_files(&seen.shelf, scene, out)?;
    put_counts(seen, out)
}
