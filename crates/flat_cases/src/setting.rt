//! What a machine is made of, and the machine.
//!
//! - `prom AT WORD ..` sets words of the PROM from an offset of bytes on; AT and each WORD are hexadecimal.
//! - `script LINES` is the script of the machines from then on, with a bar for each newline, or `-` for an empty one.
//! - `disk COUNT BYTE` is their disk: so many sectors, up to 8, of that byte.
//! - `flat SHAPE SOURCE` makes the flat machine of a shape with the image of a source, in which a semicolon stands for a newline.

ghost use Rattle.std.specs.Prelude.{◌≤◌, length, IfSome};

use crate::arguments::{count_at, number_at, rest_of, word_at};
use elf_image::{read_image, write_image};
use flat_machine::Flat;
use flat_ram::Prom;
use input_script::{Script, read_script};
use mips_asm::assemble;
use r4_shape::{Shape, read_shape};
use std::alloc::{AllocError, Global};

/// What the next machine is made of.
#[derive(Drop)]
pub struct Setting {
    prom: Prom,
    script: Vec<u8>,
    sectors: u32,
    filler: u8,
}

impl Setting {
    /// Zeros in the PROM, no script and no disk.
    pub fn new(alloc: Global) -> Setting {
        Setting {
            prom: Prom { words: [0; 1024] },
            script: Vec::new(alloc),
            sectors: 0,
            filler: 0,
        }
    }

    /// The words of the PROM.
    pub fn prom(&self) -> &Prom {
        &self.prom
    }

    /// The script.
    pub fn script(&self, alloc: Global) -> Option<Script> {
        if self.script.len() > 16777216 {
            return None;
        }
        read_script(alloc, &self.script).ok()
    }

    /// The disk.
    pub fn disk(&self, alloc: Global) -> Option<Vec<u8>>
        ensures { IfSome result (λ disk. length disk.items ≤ 33554432) }
    {
        let size = self.sectors.min(8) as usize * 512;
        let disk = vec![in alloc; self.filler; size].ok()?;
        Some(disk)
    }
}

/// Appends the answer of a verb that sets something, and says whether it is one.
pub fn put_answer(
    alloc: Global,
    setting: &mut Setting,
    verb: &str,
    arguments: &str,
    out: &mut String,
) -> Result<bool, AllocError> {
    match verb {
        "prom" => put_words(&mut setting.prom, arguments, out)?,
        "script" => {
            let lines = if arguments == "-" { "" } else { arguments };
            setting.script = text_of(alloc, lines, b'|')?;
            out.push_str("set")?;
        }
        "disk" => put_disk(setting, arguments, out)?,
        _ => return Ok(false),
    }
    Ok(true)
}

// Sets words of the PROM, and tells how many.
fn put_words(prom: &mut Prom, arguments: &str, out: &mut String) -> Result<(), AllocError> {
    let Some(at) = number_at(arguments, 0) else {
        return out.push_str("?");
    };
    let mut place = (at / 4) as usize;
    let mut count = 0u64;
    for text in rest_of(arguments).split(' ') {
        if let Ok(word) = u32::from_str_radix(text, 16) {
            if place < 1024 {
                prom.words[place] = word;
                place += 1;
                count = count.saturating_add(1);
            }
        }
    }
    write!(out, "{count} words")
}

fn put_disk(setting: &mut Setting, arguments: &str, out: &mut String) -> Result<(), AllocError> {
    let (Some(sectors), Some(filler)) = (count_at(arguments, 0), number_at(arguments, 1)) else {
        return out.push_str("?");
    };
    setting.sectors = sectors.min(8);
    setting.filler = (filler % 256) as u8;
    out.push_str("set")
}

// The bytes of a text, with newlines in the place of a mark.
fn text_of(alloc: Global, text: &str, mark: u8) -> Result<Vec<u8>, AllocError> {
    let mut bytes = Vec::new(alloc);
    for byte in text.as_bytes() {
        bytes.push(if *byte == mark { b'\n' } else { *byte })?;
    }
    Ok(bytes)
}

/// Appends the answer of the verb that makes a machine, and says whether it is this one.
pub fn put_made(
    alloc: Global,
    setting: &Setting,
    flat: &mut Option<Flat>,
    verb: &str,
    arguments: &str,
    out: &mut String,
) -> Result<bool, AllocError> {
    if verb != "flat" {
        return Ok(false);
    }
    *flat = made_of(alloc, setting, arguments);
    out.push_str(if flat.is_some() { "made" } else { "?" })?;
    Ok(true)
}

// The machine of a case.
fn made_of(alloc: Global, setting: &Setting, arguments: &str) -> Option<Flat> {
    let shape = read_shape(word_at(arguments, 0))?;
    let file = image_of(alloc, rest_of(arguments))?;
    flat_of(alloc, setting, shape, &file)
}

/// The flat machine of a shape with a file's image.
pub fn flat_of(alloc: Global, setting: &Setting, shape: Shape, file: &[u8]) -> Option<Flat> {
    if file.len() > 16777216 {
        return None;
    }
    let image = read_image(file).ok()?;
    let script = setting.script(alloc)?;
    let disk = setting.disk(alloc)?;
    Flat::new(alloc, shape, &setting.prom, &image, disk, script).ok()
}

/// The image of a source, as a file.
pub fn image_of(alloc: Global, source: &str) -> Option<Vec<u8>> {
    let lines = text_of(alloc, source, b';').ok()?;
    if lines.len() > 16777216 {
        return None;
    }
    let built = assemble(alloc, &lines).ok()?;
    write_image(alloc, built.base, built.entry, &built.bytes).ok()
}
