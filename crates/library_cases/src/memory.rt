//! Memory: the verbs of flat_ram. A RAM lasts from one `ram_new` to the next, and the verbs that write answer with what
//! stands there afterwards.

ghost use Rattle.std.specs.Prelude.{◌+◌, ◌≤◌, IfSome};
ghost use Rattle.flat_ram.specs.Map.{ram_size};

use crate::arguments::{
    bytes_of, number_at, put_bytes, put_decimal, put_hexadecimal, word_at, word_number_at,
};
use crate::images;
use crate::scene::Scene;
use flat_ram::{
    RAM_SIZE, Ram, Spot, half_at, is_unmapped, physical, where_is, word_at as word_of_bytes,
};
use std::alloc::{AllocError, Global};

/// Appends the answer of a verb.
pub fn put_answer(
    alloc: Global,
    scene: &mut Scene,
    verb: &str,
    arguments: &str,
    out: &mut String,
) -> Result<(), AllocError> {
    match verb {
        "where_is" => out.push_str(spot_name(number_at(arguments, 0))),
        "is_unmapped" => out.push_str(unmapped_name(word_number_at(arguments, 0))),
        "physical" => put_hexadecimal(shown_address(arguments), "?", out),
        "half_at" => put_half(alloc, arguments, out),
        "word_at" => put_word(alloc, arguments, out),
        "ram_new" => put_new(alloc, &mut scene.ram, out),
        _ => put_ram_answer(alloc, scene, verb, arguments, out),
    }
}

// Puts a new RAM in the old one's place.
fn put_new(alloc: Global, ram: &mut Ram, out: &mut String) -> Result<(), AllocError> {
    *ram = Ram::new(alloc)?;
    put_decimal(Some(ram.size()), "?", out)
}

fn spot_name(pa: Option<u64>) -> &'static str {
    match pa {
        Some(pa) => match where_is(pa) {
            Spot::Ram => "Ram",
            Spot::Prom => "Prom",
            Spot::Device => "Device",
            Spot::Empty => "Empty",
        },
        None => "?",
    }
}

fn unmapped_name(va: Option<u32>) -> &'static str {
    match va {
        Some(va) if is_unmapped(va) => "yes",
        Some(_) => "no",
        None => "?",
    }
}

fn shown_address(arguments: &str) -> Option<u64> {
    Some(physical(word_number_at(arguments, 0)?))
}

// The half at a place of some bytes.
fn put_half(alloc: Global, arguments: &str, out: &mut String) -> Result<(), AllocError> {
    let bytes = bytes_of(alloc, word_at(arguments, 1))?;
    put_hexadecimal(half_in(&bytes, number_at(arguments, 0)), "?", out)
}

fn half_in(bytes: &[u8], at: Option<u64>) -> Option<u64> {
    match at? {
        at if at <= bytes.len() as u64 && bytes.len() as u64 - at >= 2 => {
            Some(u64::from(half_at(bytes, at as usize)))
        }
        _ => None,
    }
}

// The word at a place of some bytes.
fn put_word(alloc: Global, arguments: &str, out: &mut String) -> Result<(), AllocError> {
    let bytes = bytes_of(alloc, word_at(arguments, 1))?;
    put_hexadecimal(word_in(&bytes, number_at(arguments, 0)), "?", out)
}

fn word_in(bytes: &[u8], at: Option<u64>) -> Option<u64> {
    match at? {
        at if at <= bytes.len() as u64 && bytes.len() as u64 - at >= 4 => {
            Some(u64::from(word_of_bytes(bytes, at as usize)))
        }
        _ => None,
    }
}

fn put_ram_answer(
    alloc: Global,
    scene: &mut Scene,
    verb: &str,
    arguments: &str,
    out: &mut String,
) -> Result<(), AllocError> {
    let ram = &mut scene.ram;
    match verb {
        "ram_get" => put_hexadecimal(got(ram, arguments), "?", out),
        "ram_word" => put_hexadecimal(word_of(ram, arguments), "?", out),
        "ram_bytes" => put_ram_bytes(ram, arguments, out),
        "ram_set" => {
            set(ram, arguments);
            put_hexadecimal(got(ram, arguments), "?", out)
        }
        "ram_set_word" => {
            set_word(ram, arguments);
            put_hexadecimal(word_of(ram, arguments), "?", out)
        }
        "ram_set_padded" => put_padded(alloc, ram, arguments, out),
        _ => images::put_answer(alloc, scene, verb, arguments, out),
    }
}

// The address at the first place, if so many bytes from it on lie in RAM.
fn place_of(arguments: &str, count: u64) -> Option<u64>
    ensures { IfSome result (λ pa. pa + count ≤ ram_size) }
{
    let pa = number_at(arguments, 0)?;
    if count <= RAM_SIZE && pa <= RAM_SIZE - count {
        Some(pa)
    } else {
        None
    }
}

fn got(ram: &Ram, arguments: &str) -> Option<u64> {
    Some(u64::from(ram.get(place_of(arguments, 1)?)))
}

fn word_of(ram: &Ram, arguments: &str) -> Option<u64> {
    Some(u64::from(ram.word(place_of(arguments, 4)?)))
}

fn put_ram_bytes(ram: &Ram, arguments: &str, out: &mut String) -> Result<(), AllocError> {
    let count = number_at(arguments, 1).unwrap_or(0);
    match place_of(arguments, count) {
        Some(pa) => put_bytes(ram.bytes(pa, count), out),
        None => out.push_str("?"),
    }
}

fn set(ram: &mut Ram, arguments: &str) {
    if let Some(pa) = place_of(arguments, 1) {
        let byte = number_at(arguments, 1).unwrap_or(0);
        ram.set(pa, (byte % 256) as u8);
    }
}

fn set_word(ram: &mut Ram, arguments: &str) {
    if let Some(pa) = place_of(arguments, 4) {
        ram.set_word(pa, word_number_at(arguments, 1).unwrap_or(0));
    }
}

// An address, how many bytes are replaced, and the bytes before the zeros.
fn put_padded(
    alloc: Global,
    ram: &mut Ram,
    arguments: &str,
    out: &mut String,
) -> Result<(), AllocError> {
    let bytes = bytes_of(alloc, word_at(arguments, 2))?;
    set_padded(ram, &bytes, arguments);
    put_ram_bytes(ram, arguments, out)
}

fn set_padded(ram: &mut Ram, bytes: &[u8], arguments: &str) {
    let count = number_at(arguments, 1).unwrap_or(0);
    match place_of(arguments, count) {
        Some(pa) if bytes.len() as u64 <= count => ram.set_padded(pa, bytes, count),
        _ => {}
    }
}
