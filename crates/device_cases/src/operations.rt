//! The operations of a case, and what each one tells:
//!
//! - `apply TICK`: nothing; the inputs up to that tick come;
//! - `read OFFSET` and `write OFFSET WORD`: the word, `plain` or `halt WORD`, or `none` where there is no register;
//! - `beat`: `in ADDRESS`, `out ADDRESS` or `none`; `beats COUNT`: how many of so many were made;
//! - `levels`: IP6 to IP2; `status`: the registers SECT, ADDR and DSTAT;
//! - `fill ADDRESS COUNT BYTE`: nothing; RAM has this byte so many times;
//! - `ram ADDRESS COUNT` and `disk OFFSET COUNT`: the bytes there; `same ADDRESS OFFSET COUNT`: how many bytes of RAM from an
//!   address on are those of the disk from an offset on;
//! - `console`: the bytes that were printed; `print COUNT BYTE`: nothing; so many writes of OUT; `printed`: how many were printed.

use crate::arguments::{hex_at, number_at, word_at};
use crate::scenes::Scene;
use dma_devices::{Beat, Wrote};
use flat_ram::{RAM_SIZE, Ram};
use std::alloc::AllocError;

// What an operation answers.
#[derive(Drop)]
enum Answered {
    Nothing,
    Word(Option<u32>),
    Wrote(Option<Wrote>),
    Beat(Option<Beat>),
    Count(usize),
    Levels(u8),
    Status,
    Ram { from: u32, count: u32 },
    Disk { from: u32, count: u32 },
    Console,
    Unknown,
}

/// Plays an operation, and appends what it answers.
pub fn put_played(scene: &mut Scene, operation: &str, out: &mut String) -> Result<(), AllocError> {
    let answered = played(scene, operation).unwrap_or(Answered::Unknown);
    put_answered(scene, &answered, out)
}

// Plays an operation, if it is one.
fn played(scene: &mut Scene, operation: &str) -> Option<Answered> {
    let answered = match word_at(operation, 0) {
        "apply" => {
            scene.devices.apply(number_at(operation, 1)?);
            Answered::Nothing
        }
        "read" => Answered::Word(scene.devices.read(hex_at(operation, 1)?)),
        "write" => Answered::Wrote(
            scene
                .devices
                .write(hex_at(operation, 1)?, hex_at(operation, 2)?),
        ),
        "beat" => Answered::Beat(scene.devices.beat(&mut scene.ram)),
        "beats" => Answered::Count(beats_made(scene, number_at(operation, 1)?)),
        "levels" => Answered::Levels(scene.devices.levels()),
        "status" => Answered::Status,
        "fill" => filled(&mut scene.ram, operation)?,
        "print" => printed(scene, operation)?,
        _ => return told(scene, operation),
    };
    Some(answered)
}

// What an operation tells that changes nothing.
fn told(scene: &Scene, operation: &str) -> Option<Answered> {
    let answered = match word_at(operation, 0) {
        "ram" => Answered::Ram {
            from: hex_at(operation, 1)?,
            count: number_at(operation, 2)?,
        },
        "disk" => Answered::Disk {
            from: hex_at(operation, 1)?,
            count: number_at(operation, 2)?,
        },
        "same" => Answered::Count(same_bytes(scene, operation)?),
        "console" => Answered::Console,
        "printed" => Answered::Count(scene.devices.console().len()),
        _ => return None,
    };
    Some(answered)
}

// How many of so many beats that are due are made.
fn beats_made(scene: &mut Scene, count: u32) -> usize {
    let mut made = 0usize;
    for _turn in 0..count {
        if scene.devices.beat(&mut scene.ram).is_some() {
            made = made.saturating_add(1);
        }
    }
    made
}

// Fills a part of RAM.
fn filled(ram: &mut Ram, operation: &str) -> Option<Answered> {
    let from = u64::from(hex_at(operation, 1)?);
    let count = u64::from(number_at(operation, 2)?);
    let byte = hex_at(operation, 3)?;
    for at in from..from + count {
        if at < RAM_SIZE {
            ram.set(at, (byte % 256) as u8);
        }
    }
    Some(Answered::Nothing)
}

// Prints a byte so many times.
fn printed(scene: &mut Scene, operation: &str) -> Option<Answered> {
    let count = number_at(operation, 1)?;
    let byte = hex_at(operation, 2)?;
    for _turn in 0..count {
        scene.devices.write(0, byte);
    }
    Some(Answered::Nothing)
}

// So many bytes of RAM from an address on.
fn ram_bytes(ram: &Ram, from: u32, count: u32) -> &[u8] {
    let from = u64::from(from);
    let count = u64::from(count);
    if from + count > RAM_SIZE {
        return &[];
    }
    ram.bytes(from, count)
}

// So many bytes from a place on.
fn part(bytes: &[u8], from: u32, count: u32) -> &[u8] {
    let from = from as usize;
    let end = from + count as usize;
    if end > bytes.len() {
        return &[];
    }
    &bytes[from..end]
}

// How many bytes of RAM are those of the disk.
fn same_bytes(scene: &Scene, operation: &str) -> Option<usize> {
    let count = number_at(operation, 3)?;
    let ram = ram_bytes(&scene.ram, hex_at(operation, 1)?, count);
    let disk = part(scene.devices.disk(), hex_at(operation, 2)?, count);
    let mut same = 0usize;
    for (one, other) in ram.iter().zip(disk.iter()) {
        if one == other {
            same = same.saturating_add(1);
        }
    }
    Some(same)
}

fn put_bytes(bytes: &[u8], out: &mut String) -> Result<(), AllocError> {
    if bytes.is_empty() {
        out.push_str("-")?;
    }
    for byte in bytes {
        write!(out, "{byte:02x}")?;
    }
    Ok(())
}

fn put_beat(beat: &Beat, out: &mut String) -> Result<(), AllocError> {
    let way = if beat.out { "out" } else { "in" };
    let pa = beat.pa;
    write!(out, "{way} {pa:x}")
}

fn put_status(scene: &Scene, out: &mut String) -> Result<(), AllocError> {
    let sector = scene.devices.sector();
    let address = scene.devices.address();
    let status = scene.devices.status();
    write!(out, "{sector:x} {address:x} {status:x}")
}

fn put_answered(scene: &Scene, answered: &Answered, out: &mut String) -> Result<(), AllocError> {
    match answered {
        Answered::Nothing => out.push_str("-"),
        Answered::Word(Some(word)) => write!(out, "{word:08x}"),
        Answered::Wrote(Some(Wrote::Plain)) => out.push_str("plain"),
        Answered::Wrote(Some(Wrote::Halt(code))) => write!(out, "halt {code:08x}"),
        Answered::Beat(Some(beat)) => put_beat(beat, out),
        Answered::Word(None) | Answered::Wrote(None) | Answered::Beat(None) => out.push_str("none"),
        Answered::Count(count) => write!(out, "{count}"),
        Answered::Levels(levels) => write!(out, "{levels:05b}"),
        Answered::Status => put_status(scene, out),
        Answered::Ram { from, count } => put_bytes(ram_bytes(&scene.ram, *from, *count), out),
        Answered::Disk { from, count } => put_bytes(part(scene.devices.disk(), *from, *count), out),
        Answered::Console => put_bytes(scene.devices.console(), out),
        Answered::Unknown => out.push_str("?"),
    }
}
