//! Images: the verbs of elf_image, over a file that lasts from one `file` to the next. Arguments `OFFSET:WORD` replace
//! words of it for the case alone.

use crate::arguments::{
    bytes_of, number_at, number_of, put_bytes, put_decimal, word_at, word_number_at,
};
use crate::rows;
use crate::scene::Scene;
use elf_image::{Image, ImageRule, load, read_image, write_image};
use flat_ram::Ram;
use std::alloc::{AllocError, Global};

/// Appends the answer of a verb.
pub fn put_answer(
    alloc: Global,
    scene: &mut Scene,
    verb: &str,
    arguments: &str,
    out: &mut String,
) -> Result<(), AllocError> {
    match verb {
        "file" => put_file(alloc, &mut scene.file, arguments, out),
        "image_cut" => put_cut(&scene.file, arguments, out),
        "image" => put_changed(alloc, &scene.file, arguments, out),
        "image_load" => put_loaded(alloc, scene, arguments, out),
        "image_header" => put_header(&scene.file, out),
        "image_segment" => put_segment(&scene.file, arguments, out),
        "write_image" => put_written(alloc, arguments, out),
        _ => rows::put_answer(alloc, scene, verb, arguments, out),
    }
}

// Puts the words of a file in the old ones' place, and appends how many bytes they are.
fn put_file(
    alloc: Global,
    file: &mut Vec<u8>,
    words: &str,
    out: &mut String,
) -> Result<(), AllocError> {
    *file = words_of(alloc, words)?;
    put_decimal(Some(file.len() as u64), "?", out)
}

// Loads the file with other words at some offsets.
fn put_loaded(
    alloc: Global,
    scene: &mut Scene,
    changes: &str,
    out: &mut String,
) -> Result<(), AllocError> {
    let file = changed(alloc, &scene.file, changes)?;
    load_file(&file, &mut scene.ram);
    put_outcome(&file, out)
}

// The bytes of words in hexadecimal.
fn words_of(alloc: Global, words: &str) -> Result<Vec<u8>, AllocError> {
    let mut bytes = Vec::new(alloc);
    for word in words.split(' ') {
        add_word(alloc, word, &mut bytes)?;
    }
    Ok(bytes)
}

fn add_word(alloc: Global, word: &str, bytes: &mut Vec<u8>) -> Result<(), AllocError> {
    let of_word = bytes_of(alloc, word)?;
    bytes.extend_from_slice(&of_word)
}

// The file with other words at some offsets.
fn changed(alloc: Global, file: &[u8], changes: &str) -> Result<Vec<u8>, AllocError> {
    let mut bytes = Vec::from_slice(alloc, file)?;
    for change in changes.split(' ') {
        let (offset, word) = change.split_once(':').unwrap_or(("", ""));
        put_word(&mut bytes, number_of(offset), number_of(word));
    }
    Ok(bytes)
}

fn put_word(bytes: &mut [u8], offset: Option<u64>, word: Option<u64>) {
    if let (Some(at), Some(word)) = (offset, word) {
        let size = bytes.len() as u64;
        if at <= size && size - at >= 4 {
            let at = at as usize;
            bytes[at..at + 4].copy_from_slice(&((word % 0x1_0000_0000) as u32).to_be_bytes());
        }
    }
}

fn rule_name(rule: ImageRule) -> &'static str {
    match rule {
        ImageRule::Short => "Short",
        ImageRule::Magic => "Magic",
        ImageRule::Class => "Class",
        ImageRule::Machine => "Machine",
        ImageRule::Kind => "Kind",
        ImageRule::Table => "Table",
        ImageRule::Range => "Range",
        ImageRule::Entry => "Entry",
    }
}

// Appends the first rule that a file breaks and its offset, or that it is an image.
fn put_outcome(file: &[u8], out: &mut String) -> Result<(), AllocError> {
    if file.len() > 0xffff_fffe {
        return out.push_str("?");
    }
    match read_image(file) {
        Ok(_) => out.push_str("image"),
        Err(fault) => write!(out, "{} {}", rule_name(fault.rule), fault.offset),
    }
}

fn put_cut(file: &[u8], arguments: &str, out: &mut String) -> Result<(), AllocError> {
    match number_at(arguments, 0) {
        Some(count) if count <= file.len() as u64 => put_outcome(&file[..count as usize], out),
        _ => out.push_str("?"),
    }
}

fn put_changed(
    alloc: Global,
    file: &[u8],
    changes: &str,
    out: &mut String,
) -> Result<(), AllocError> {
    let bytes = changed(alloc, file, changes)?;
    put_outcome(&bytes, out)
}

fn load_file(file: &[u8], ram: &mut Ram) {
    if let Some(image) = image_of(file) {
        load(&image, ram);
    }
}

/// The image in a file.
pub fn image_of(file: &[u8]) -> Option<Image<'_>> {
    if file.len() > 0xffff_fffe {
        return None;
    }
    read_image(file).ok()
}

// Appends the entry, the offset of the table of program headers and their number, and how many bytes the file has.
fn put_header(file: &[u8], out: &mut String) -> Result<(), AllocError> {
    match image_of(file) {
        Some(image) => {
            let size = image.bytes().len();
            write!(
                out,
                "{:#x} {} {} {size}",
                image.entry(),
                image.table(),
                image.count()
            )
        }
        None => out.push_str("?"),
    }
}

// Appends the address of a segment and the bytes that the file has of it.
fn put_segment(file: &[u8], arguments: &str, out: &mut String) -> Result<(), AllocError> {
    match (image_of(file), word_number_at(arguments, 0)) {
        (Some(image), Some(index)) if index < image.count() => {
            write!(out, "{:#x} ", image.segment(index).address)?;
            put_bytes(image.file_bytes(index), out)
        }
        _ => out.push_str("?"),
    }
}

// Appends the bytes of the image of some bytes, with a base and an entry.
fn put_written(alloc: Global, arguments: &str, out: &mut String) -> Result<(), AllocError> {
    match (word_number_at(arguments, 0), word_number_at(arguments, 1)) {
        (Some(base), Some(entry)) => put_image_of(alloc, base, entry, word_at(arguments, 2), out),
        _ => out.push_str("?"),
    }
}

fn put_image_of(
    alloc: Global,
    base: u32,
    entry: u32,
    word: &str,
    out: &mut String,
) -> Result<(), AllocError> {
    let bytes = bytes_of(alloc, word)?;
    put_image(alloc, base, entry, &bytes, out)
}

fn put_image(
    alloc: Global,
    base: u32,
    entry: u32,
    bytes: &[u8],
    out: &mut String,
) -> Result<(), AllocError> {
    if bytes.len() > 0x80_0000 {
        return out.push_str("?");
    }
    let image = write_image(alloc, base, entry, bytes)?;
    put_bytes(&image, out)
}
