//! The base of a source, and the two passes over its lines.

ghost use Rattle.std.specs.Prelude.{◌≡◌, ℕ, ◌<◌, ◌≤◌, ◌+◌, [], ◌^◌, length, unwrap_or, Some, None, IfOk, IfErr, OnOk};
ghost use Rattle.flat_ram.specs.Map.{ram_size};
ghost use Rattle.mips_text.specs.Line.{read_line as read_law};
ghost use Rattle.mips_asm.specs.Layout as layout;
ghost use Rattle.mips_asm.specs.Layout.{labels_of, layout_fault, placed, placed_at, readings_of};
ghost use Rattle.mips_asm.specs.Assembly.{HasNoFault, IsFaultless, IsRefusedBy, bytes_of_lines, coded_line, coding_fault, entry_of, source_base, source_bytes, source_labels};
ghost use Rattle.mips_asm.specs.Shown.{IsCoded, IsSoundLine};
ghost use Rattle.mips_asm.specs.PassesOf.{IsFaultOf, IsStopped, address_after, labels_after};

use crate::built::{AsmFault, Built};
use crate::coding::{Stop, put_item};
use crate::labels::Labels;
use crate::layout::{USUAL_BASE, fault_at, puts_first_byte, size_of};
use crate::reading::{Tokens, read_line};
use crate::sources::split_line;
use mips_text::{Item, Line};
use std::alloc::Global;

/// The base that a statement decides, if it does.
fn decided_base(item: &Item) -> Option<u32>
    ensures { (later : ℕ) → unwrap_or result later ≡ layout.base_by_item (Some item.now) later }
{
    if let Item::Origin(address) = item {
        return Some(*address);
    }
    if puts_first_byte(item) {
        Some(USUAL_BASE)
    } else {
        None
    }
}

/// The base that a line decides, if it does. One that cannot be read decides nothing.
fn base_of_line(line: &[u8], list: &mut Tokens) -> Option<u32>
    requires { length line.now ≤ 4294967294 }
    ensures { (later : ℕ) → unwrap_or result later ≡ layout.base_by (read_law line.now) later }
{
    match read_line(line, list) {
        Ok(
            Line {
                item: Some(item),
                ..
            },
        ) => decided_base(&item),
        _ => None,
    }
}

/// The base of a source.
#[tactic(auto, using(crate::proofs::Bases::base_of_more))]
pub fn base_of(source: &[u8]) -> u32
    requires { length source.now ≤ 4294967294 }
    ensures { result ≡ layout.base_of (readings_of source.now) }
{
    let mut list = Tokens::new();
    let mut rest = source;
    while !rest.is_empty() {
        let split = split_line(rest);
        if let Some(base) = base_of_line(split.line, &mut list) {
            return base;
        }
        rest = split.rest;
    }
    USUAL_BASE
}

/// Gives a line its place, and says the address after it.
#[tactic(auto, unfolding(crate::specs::Layout::size_of))]
fn lay_line(
    alloc: Global,
    base: u32,
    address: u64,
    line: &Line,
    labels: &mut Labels,
) -> Result<u64, Stop>
    requires after { base ≤ address }
    requires near { address ≤ base + ram_size }
    requires sound { IsSoundLine line.now }
    ensures stands { OnOk result (layout.fault_at base address labels.old line.now ≡ None) }
    ensures next { IfOk result (λ next. next ≡ address + layout.size_of address line.now.item) }
    ensures labels { OnOk result (labels.new ≡ labels_after labels.old address line.now) }
    ensures stops { IfErr result (IsStopped (layout.fault_at base address labels.old line.now)) }
    ensures after { IfOk result (λ next. base ≤ next) }
    ensures near { IfOk result (λ next. next ≤ base + ram_size) }
{
    if let Some(why) = fault_at(base, address, labels, line) {
        return Err(Stop::Lacks(why));
    }
    if let Some(name) = &line.label {
        labels.add(alloc, name.text(), (address % 0x100000000) as u32)?;
    }
    Ok(address + size_of(address, &line.item))
}

/// The labels of a source, by its first pass.
pub fn first_pass(alloc: Global, base: u32, source: &[u8]) -> Result<Labels, AsmFault>
    requires { length source.now ≤ 4294967294 }
    ensures labels { IfOk result (λ labels. labels ≡ labels_of (placed base (readings_of source.now))) }
    ensures sound { OnOk result (HasNoFault (layout_fault base (placed base (readings_of source.now)))) }
    ensures size { OnOk result (address_after base (readings_of source.now) ≤ base + ram_size) }
    ensures fault { IfErr result (IsFaultOf (layout_fault base (placed base (readings_of source.now)))) }
{
    let mut labels = Labels::new(alloc);
    let mut list = Tokens::new();
    let mut address = u64::from(base);
    let mut number = 1;
    let mut rest = source;
    while !rest.is_empty() {
        let split = split_line(rest);
        let line = match read_line(split.line, &mut list) {
            Ok(line) => line,
            Err(why) => return Err(AsmFault::Bad { line: number, why }),
        };
        match lay_line(alloc, base, address, &line, &mut labels) {
            Ok(next) => address = next,
            Err(Stop::Lacks(why)) => return Err(AsmFault::Bad { line: number, why }),
            Err(Stop::Memory) => return Err(AsmFault::Memory),
        }
        number += 1;
        rest = split.rest;
    }
    Ok(labels)
}

/// Appends the bytes of a line at an address.
fn fill_line(
    labels: &Labels,
    at: u64,
    line: &[u8],
    list: &mut Tokens,
    bytes: &mut Vec<u8>,
) -> Result<(), Stop>
    requires { length line.now ≤ 4294967294 }
    ensures bytes { let line = placed_at at (read_law line.now) in
        IsCoded (coded_line labels.now line) result bytes.old.items bytes.new.items }

    // As many bytes as the first pass has counted.
    ensures size { let size = layout.size_read at (read_law line.now) in
        OnOk result (length bytes.new.items ≡ length bytes.old.items + size) }
{
    match read_line(line, list) {
        Ok(
            Line {
                item: Some(item),
                ..
            },
        ) => put_item(labels, at, &item, bytes),
        _ => Ok(()),
    }
}

/// Appends the bytes of a source, by its second pass.
fn fill(base: u32, labels: &Labels, source: &[u8], bytes: &mut Vec<u8>) -> Result<(), AsmFault>
    requires empty { bytes.old.items ≡ [] }
    requires short { length source.now ≤ 4294967294 }
    ensures bytes { OnOk result (bytes.new.items ≡ bytes_of_lines labels.now (placed base (readings_of source.now))) }
    ensures sound { OnOk result (HasNoFault (coding_fault labels.now (placed base (readings_of source.now)))) }
    ensures size { OnOk result (base + length bytes.new.items ≡ address_after base (readings_of source.now)) }
    ensures fault { IfErr result (IsFaultOf (coding_fault labels.now (placed base (readings_of source.now)))) }
{
    let mut list = Tokens::new();
    let mut number = 1;
    let mut rest = source;
    while !rest.is_empty() {
        let split = split_line(rest);
        let at = u64::from(base) + bytes.len() as u64;
        match fill_line(labels, at, split.line, &mut list, bytes) {
            Ok(()) => {}
            Err(Stop::Lacks(why)) => return Err(AsmFault::Bad { line: number, why }),
            Err(Stop::Memory) => return Err(AsmFault::Memory),
        }
        number += 1;
        rest = split.rest;
    }
    Ok(())
}

/// The image of a source, or its first bad line. A source has at most 4294967294 bytes.
pub fn assemble(alloc: Global, source: &[u8]) -> Result<Built, AsmFault>
    requires { length source.now ≤ 4294967294 }

    // The image of a source none of whose lines has a fault.
    ensures base { IfOk result (λ built. built.base ≡ source_base source.now) }
    ensures entry { IfOk result (λ built. built.entry ≡ entry_of built.base (source_labels source.now)) }
    ensures bytes { IfOk result (λ built. built.bytes.items ≡ source_bytes source.now) }
    ensures size { IfOk result (λ built. length built.bytes.items ≤ ram_size) }
    ensures faultless { OnOk result (IsFaultless source.now) }

    // The first line that has a fault.
    ensures first_fault { IfErr result (IsRefusedBy source.now) }
{
    let base = base_of(source);
    let labels = first_pass(alloc, base, source)?;
    let mut bytes = Vec::new(alloc);
    fill(base, &labels, source, &mut bytes)?;
    let entry = labels.address_of(b"start").unwrap_or(base);
    Ok(Built { base, entry, bytes })
}
