//! The addresses of lines, and the reasons for which a line can not stand at its address.

ghost use Rattle.std.specs.Prelude.{◌≡◌, ◌+◌, ◌≤◌, IsNone, IfSome, false};
ghost use Rattle.flat_ram.specs.Map.{ram_size};
ghost use Rattle.mips_asm.specs.Layout as law;
ghost use Rattle.mips_text.specs.Coded as coded;
ghost use Rattle.mips_asm.specs.Shown.{IsSound, IsSoundLine};

use crate::labels::Labels;
use flat_ram::{RAM_SIZE, is_unmapped};
use mips_text::{AsmWhy, Item, Line, Name};

/// The base of a source whose first byte stands before any `.org`.
pub const USUAL_BASE: u32 = 0x80010000;

/// Whether a statement puts a byte before the base is known.
pub fn puts_first_byte(item: &Item) -> bool
    ensures { result ≡ law.puts_first_byte item.now }
{
    match item {
        Item::Bytes(bytes) => !bytes.is_empty(),
        Item::Zeros(count) => *count > 0,
        Item::Aligned(_) | Item::Origin(_) => false,
        _ => true,
    }
}

/// How many zeros lead from an address to a multiple of a power of two.
pub fn padding(power: u8, address: u64) -> u64
    requires { power ≤ 12 }
    ensures { result ≡ coded.padding power address }
{
    let unit = 1u64 << power;
    (unit - address % unit) % unit
}

/// How many bytes a statement puts at an address.
#[tactic(auto, unfolding(crate::specs::Layout::size_at))]
pub fn size_at(address: u64, item: &Item) -> u64
    requires { IsSound item.now }
    ensures { result ≡ law.size_at address item.now }
{
    match item {
        Item::Plain(_) | Item::BranchTo(..) | Item::JumpTo(..) => 4,
        Item::LoadNumber(..) | Item::LoadLabel(..) => 8,
        Item::Words(words) => 4 * words.len() as u64,
        Item::Bytes(bytes) => bytes.len() as u64,
        Item::Zeros(count) => u64::from(*count),
        Item::Origin(origin) => u64::from(*origin).saturating_sub(address),
        Item::Aligned(Some(power)) => padding(*power, address),
        Item::Aligned(None) => 0,
    }
}

/// Whether an `.org` moves back, or the base that it gives is no unmapped address.
fn moves_wrongly(base: u32, address: u64, item: &Item) -> bool
    ensures { result ≡ law.moves_wrongly base address (Some item.now) }
{
    match item {
        Item::Origin(origin) => u64::from(*origin) < address || !is_unmapped(base),
        _ => false,
    }
}

/// Whether a statement can not stand at an address.
fn is_misplaced(address: u64, item: &Item) -> bool
    ensures { result ≡ law.is_misplaced address item.now }
{
    match item {
        Item::Aligned(None) => true,
        Item::Aligned(Some(_)) | Item::Bytes(_) | Item::Zeros(_) | Item::Origin(_) => false,
        _ => address % 4 != 0,
    }
}

/// How many bytes a line puts at an address.
pub fn size_of(address: u64, item: &Option<Item>) -> u64
    requires { IfSome item.now IsSound }
    ensures { result ≡ law.size_of address item.now }
{
    match item {
        Some(item) => size_at(address, item),
        None => 0,
    }
}

/// Whether a line moves wrongly, or ends more bytes after the base than RAM has.
fn breaks_range(base: u32, address: u64, line: &Line) -> bool
    requires after { base ≤ address }
    requires near { address ≤ base + ram_size }
    requires sound { IsSoundLine line.now }
    ensures { result ≡ law.breaks_range base address line.now }
{
    let size = size_of(address, &line.item);
    let wrong = match &line.item {
        Some(item) => moves_wrongly(base, address, item),
        None => false,
    };
    wrong || size > RAM_SIZE || address + size - u64::from(base) > RAM_SIZE
}

/// Whether a label stands a second time.
fn stands_twice(labels: &Labels, label: &Option<Name>) -> bool
    ensures { result ≡ law.stands_twice labels.now label.now }
{
    match label {
        Some(name) => labels.address_of(name.text()).is_some(),
        None => false,
    }
}

/// Whether a label is that of the first instruction.
fn is_start(label: &Option<Name>) -> bool
    ensures { result ≡ law.is_start label.now }
{
    match label {
        Some(name) => name.text() == b"start".as_slice(),
        None => false,
    }
}

/// Whether a statement or the entry is at no multiple of 4, or there is no such alignment.
fn breaks_alignment(address: u64, line: &Line) -> bool
    ensures { result ≡ law.breaks_alignment address line.now }
{
    let misplaced = match &line.item {
        Some(item) => is_misplaced(address, item),
        None => false,
    };
    let entry = is_start(&line.label);
    misplaced || entry && address % 4 != 0
}

/// The first reason for which a line can not stand at an address, after lines with these labels.
#[tactic(auto, unfolding(crate::specs::Layout::fault_at))]
pub fn fault_at(base: u32, address: u64, labels: &Labels, line: &Line) -> Option<AsmWhy>
    requires after { base ≤ address }
    requires near { address ≤ base + ram_size }
    requires sound { IsSoundLine line.now }
    ensures value { result ≡ law.fault_at base address labels.now line.now }
    ensures fits { IsNone result → address + law.size_of address line.now.item ≤ base + ram_size }
    ensures fresh { IsNone result → law.stands_twice labels.now line.now.label ≡ false }
{
    if breaks_range(base, address, line) {
        return Some(AsmWhy::Range);
    }
    if stands_twice(labels, &line.label) {
        return Some(AsmWhy::Twice);
    }
    if breaks_alignment(address, line) {
        return Some(AsmWhy::Align);
    }
    None
}
