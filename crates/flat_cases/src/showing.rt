//! The verbs that show a machine.
//!
//! `show NAME ..` tells each of these of the flat machine: `ticks`, `halt`, `pc`, `npc`, `slot`, `link`, `console`, `disk` (SECT, ADDR and
//! DSTAT), a general register `rNUMBER`, a register of CP0 `cNUMBER`, a byte of the disk `dNUMBER`, or a byte of RAM `mADDRESS`, the last
//! with a hexadecimal address. `cached NAME ..` tells them, but for RAM, of the machine with caches.

use flat_bridge::Bench;
use flat_machine::Flat;
use flat_ram::Ram;
use run_report::View;
use std::alloc::AllocError;

/// Appends the answer of a verb, and says whether it is one of these.
pub fn put_answer(
    flat: &Option<Flat>,
    bench: &Option<Bench>,
    verb: &str,
    arguments: &str,
    out: &mut String,
) -> Result<bool, AllocError> {
    match verb {
        "show" => put_flat(flat, arguments, out)?,
        "cached" => put_cached(bench, arguments, out)?,
        _ => return Ok(false),
    }
    Ok(true)
}

fn put_flat(flat: &Option<Flat>, names: &str, out: &mut String) -> Result<(), AllocError> {
    match flat {
        Some(flat) => put_all(&flat.view(), Some(&flat.memory.ram), names, out),
        None => out.push_str("?"),
    }
}

fn put_cached(bench: &Option<Bench>, names: &str, out: &mut String) -> Result<(), AllocError> {
    match bench {
        Some(bench) => put_all(&bench.view(), None, names, out),
        None => out.push_str("?"),
    }
}

fn put_all(
    view: &View<'_>,
    ram: Option<&Ram>,
    names: &str,
    out: &mut String,
) -> Result<(), AllocError> {
    let mut is_first = true;
    for name in names.split(' ') {
        if !is_first {
            out.push_str(" ")?;
        }
        is_first = false;
        out.push_str(name)?;
        out.push_str(" ")?;
        put_one(view, ram, name, out)?;
    }
    Ok(())
}

fn put_one(
    view: &View<'_>,
    ram: Option<&Ram>,
    name: &str,
    out: &mut String,
) -> Result<(), AllocError> {
    if let Some(number) = numbered(name, 'r') {
        return put_register(view, number, out);
    }
    if let Some(number) = numbered(name, 'c') {
        return put_word(view, number, out);
    }
    if let Some(number) = numbered(name, 'd') {
        return put_disk_byte(view.disk, number, out);
    }
    match (ram, addressed(name)) {
        (Some(ram), Some(address)) => put_byte(ram, address, out),
        _ => put_named(view, name, out),
    }
}

// The number after a mark.
fn numbered(name: &str, mark: char) -> Option<u32> {
    name.strip_prefix(mark)?.parse::<u32>().ok()
}

// The address of a byte of RAM.
fn addressed(name: &str) -> Option<u32> {
    u32::from_str_radix(name.strip_prefix('m')?, 16).ok()
}

fn put_register(view: &View<'_>, number: u32, out: &mut String) -> Result<(), AllocError> {
    if number >= 32 {
        return out.push_str("?");
    }
    let value = view.regs.read(number as u8);
    write!(out, "{value:016x}")
}

fn put_word(view: &View<'_>, number: u32, out: &mut String) -> Result<(), AllocError> {
    if number >= 32 {
        return out.push_str("?");
    }
    let word = view.cp0.read(number as u8);
    write!(out, "{word:08x}")
}

fn put_byte(ram: &Ram, address: u32, out: &mut String) -> Result<(), AllocError> {
    if address >= 8388608 {
        return out.push_str("?");
    }
    let byte = ram.get(u64::from(address));
    write!(out, "{byte:02x}")
}

fn put_disk_byte(disk: &[u8], number: u32, out: &mut String) -> Result<(), AllocError> {
    match disk.get(number as usize) {
        Some(byte) => write!(out, "{byte:02x}"),
        None => out.push_str("?"),
    }
}

fn put_named(view: &View<'_>, name: &str, out: &mut String) -> Result<(), AllocError> {
    match name {
        "ticks" => write!(out, "{}", view.ticks),
        "halt" => put_halt(view.halt, out),
        "pc" => write!(out, "{:08x}", view.pc),
        "npc" => write!(out, "{:08x}", view.npc),
        "slot" => write!(out, "{}", u8::from(view.slot)),
        "link" => write!(out, "{}", u8::from(view.link)),
        "console" => put_bytes(view.console, out),
        "disk" => write!(
            out,
            "{:08x} {:08x} {}",
            view.sector, view.address, view.status
        ),
        _ => out.push_str("?"),
    }
}

fn put_halt(halt: Option<u32>, out: &mut String) -> Result<(), AllocError> {
    match halt {
        Some(code) => write!(out, "{code:08x}"),
        None => out.push_str("none"),
    }
}

fn put_bytes(bytes: &[u8], out: &mut String) -> Result<(), AllocError> {
    if bytes.is_empty() {
        return out.push_str("none");
    }
    for byte in bytes {
        write!(out, "{byte:02x}")?;
    }
    Ok(())
}
