//! The devices: the verb of dma_devices.
//!
//! `devices SIZE ENTRY SCRIPT; OPERATION; ..` plays operations on the devices at reset and RAM, and tells what each one answers.
//! SIZE is the number of the disk's bytes, of which each piece of 32 has its number, modulo 256, as its first byte, and
//! 1 to 31 as the others; ENTRY is the image's entry. SCRIPT is `-`, or the lines of a script with a bar between them.
//! RAM is zero. `operations` has the operations.

ghost use Rattle.std.specs.Prelude.{◌≤◌, length, IfSome};

use crate::arguments::{hex_at, number_at, word_at};
use crate::operations::put_played;
use crate::scripts::text_of;
use dma_devices::RecordedDevices;
use flat_ram::Ram;
use input_script::{Script, read_script};
use std::alloc::{AllocError, Global};

/// The devices and RAM.
#[derive(Drop)]
pub struct Scene {
    pub devices: RecordedDevices,
    pub ram: Ram,
}

/// Appends the answer of a verb, and says whether it is this one.
pub fn put_answer(
    alloc: Global,
    verb: &str,
    arguments: &str,
    out: &mut String,
) -> Result<bool, AllocError> {
    if verb != "devices" {
        return Ok(false);
    }
    match scene_of(alloc, arguments) {
        Some(mut scene) => put_all(&mut scene, arguments, out)?,
        None => out.push_str("?")?,
    }
    Ok(true)
}

// Plays the operations of a case, and appends what they answer.
fn put_all(scene: &mut Scene, arguments: &str, out: &mut String) -> Result<(), AllocError> {
    let mut is_first = true;
    for operation in arguments.split(';').skip(1) {
        if !is_first {
            out.push_str("; ")?;
        }
        is_first = false;
        put_played(scene, operation.trim(), out)?;
    }
    Ok(())
}

// The devices of a case, and RAM.
fn scene_of(alloc: Global, arguments: &str) -> Option<Scene> {
    let setting = arguments.split(';').next()?;
    let script = script_of(alloc, word_after(setting))?;
    let entry = hex_at(setting, 1)?;
    let disk = disk_of(alloc, number_at(setting, 0)?)?;
    let devices = RecordedDevices::new(alloc, disk, script, entry).ok()?;
    let ram = Ram::new(alloc).ok()?;
    Some(Scene { devices, ram })
}

// What stands after the first two words.
fn word_after(setting: &str) -> &str {
    match setting.splitn(3, ' ').nth(2) {
        Some(rest) => rest,
        None => "",
    }
}

// The bytes of the disk.
fn disk_of(alloc: Global, size: u32) -> Option<Vec<u8>>
    ensures { IfSome result (λ disk. length disk.items ≤ 33554432) }
{
    if size > 33554432 {
        return None;
    }
    let mut disk = Vec::new(alloc);
    for at in 0..size {
        let byte = if at % 32 == 0 { at / 32 % 256 } else { at % 32 };
        disk.push(byte as u8).ok()?;
    }
    if disk.len() > 33554432 {
        return None;
    }
    Some(disk)
}

// The script of a case.
fn script_of(alloc: Global, text: &str) -> Option<Script> {
    if text == "-" {
        return Some(Script::empty(alloc));
    }
    let bytes = text_of(alloc, text).ok()?;
    if bytes.len() > 1000 {
        return None;
    }
    read_script(alloc, &bytes).ok()
}
