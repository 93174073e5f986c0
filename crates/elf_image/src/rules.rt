// The rules that a file must meet, in the order in which they count.
ghost use Rattle.std.specs.Prelude.{◌≡◌, ◌+◌, ◌*◌, ◌≤◌, ◌<◌, ◌^◌, length, OnOk, IfSome};
ghost use Rattle.std.specs.List.{find};
ghost use Rattle.elf_image.specs.Header as header;
ghost use Rattle.elf_image.specs.Rules as law;

use crate::segments::{Segment, segment_at};
use flat_ram::{RAM_SIZE, half_at, is_unmapped, physical, word_at};

/// A rule of images.
#[derive(Clone, Copy)]
pub enum ImageRule {
    Short,
    Magic,
    Class,
    Machine,
    Kind,
    Table,
    Range,
    Entry,
}

/// A broken rule, and the offset in the file at which it is broken.
#[derive(Clone, Copy)]
pub struct ImageFault {
    pub rule: ImageRule,
    pub offset: u32,
}

fn require(holds: bool, rule: ImageRule, offset: u32) -> Result<(), ImageFault>
    ensures { law.IsCheckOf (law.unless holds (law.broken rule offset)) result }
{
    if holds {
        Ok(())
    } else {
        Err(ImageFault { rule, offset })
    }
}

/// Checks that there is a whole ELF header.
#[tactic(auto, unfolding(crate::specs::Rules::short_fault))]
pub fn check_length(bytes: &[u8]) -> Result<(), ImageFault>
    requires { length bytes.now < 2 ^ 32 }
    ensures check { law.IsCheckOf (law.short_fault bytes.now) result }
    ensures long { OnOk result (52 ≤ length bytes.now) }
{
    if bytes.len() < 52 {
        return Err(ImageFault {
            rule: ImageRule::Short,
            offset: bytes.len() as u32,
        });
    }
    Ok(())
}

/// Checks the magic number.
#[tactic(auto, unfolding(crate::specs::Rules::magic_fault))]
pub fn check_magic(bytes: &[u8]) -> Result<(), ImageFault>
    ensures { law.IsCheckOf (law.magic_fault bytes.now) result }
{
    require(bytes.starts_with(b"\x7fELF"), ImageRule::Magic, 0)
}

/// Checks the class and the order of bytes.
#[tactic(auto, unfolding(crate::specs::Rules::class_fault))]
pub fn check_class(bytes: &[u8]) -> Result<(), ImageFault>
    requires { 52 ≤ length bytes.now }
    ensures { law.IsCheckOf (law.class_fault bytes.now) result }
{
    require(bytes[4] == 1, ImageRule::Class, 4)?;
    require(bytes[5] == 2, ImageRule::Class, 5)
}

/// Checks the machine.
#[tactic(auto, unfolding(crate::specs::Rules::machine_fault))]
pub fn check_machine(bytes: &[u8]) -> Result<(), ImageFault>
    requires { 52 ≤ length bytes.now }
    ensures { law.IsCheckOf (law.machine_fault bytes.now) result }
{
    require(half_at(bytes, 18) == 8, ImageRule::Machine, 18)
}

/// Checks the kind of file.
#[tactic(auto, unfolding(crate::specs::Rules::kind_fault))]
pub fn check_kind(bytes: &[u8]) -> Result<(), ImageFault>
    requires { 52 ≤ length bytes.now }
    ensures { law.IsCheckOf (law.kind_fault bytes.now) result }
{
    require(half_at(bytes, 16) == 2, ImageRule::Kind, 16)
}

/// Checks the table of program headers.
#[tactic(auto, unfolding(crate::specs::Rules::table_fault))]
pub fn check_table(bytes: &[u8]) -> Result<(), ImageFault>
    requires { 52 ≤ length bytes.now }
    ensures check { law.IsCheckOf (law.table_fault bytes.now) result }
    ensures table { OnOk result (header.table_of bytes.now + 32 * header.count_of bytes.now ≤ length bytes.now) }
{
    let count = half_at(bytes, 44);
    let size = half_at(bytes, 42);
    let end = u64::from(word_at(bytes, 28)) + 32 * u64::from(count);
    require(count == 0 || size == 32, ImageRule::Table, 42)?;
    require(end <= bytes.len() as u64, ImageRule::Table, 28)
}

fn has_place(va: u32, count: u32) -> bool
    ensures { result ≡ law.has_place va count }
{
    let unmapped = is_unmapped(va);
    let end = physical(va) + u64::from(count);
    unmapped && end <= RAM_SIZE
}

fn is_in_range(size: usize, segment: &Segment) -> bool
    ensures { result ≡ law.is_in_range size segment.now }
{
    let file_end = u64::from(segment.offset) + u64::from(segment.file_size);
    let placed = has_place(segment.address, segment.memory_size);
    segment.file_size <= segment.memory_size && file_end <= size as u64 && placed
}

/// Whether a segment's bytes are stored.
pub fn is_stored(segment: &Segment) -> bool
    ensures { result ≡ law.is_stored segment.now }
{
    let is_empty = segment.file_size == 0 && segment.memory_size == 0;
    segment.kind == 1 && !is_empty
}

#[tactic(auto, unfolding(crate::specs::Rules::breaks_range))]
fn breaks_range(bytes: &[u8], at: usize) -> bool
    requires { at + 32 ≤ length bytes.now }
    ensures { result ≡ law.breaks_range bytes.now at }
{
    let segment = segment_at(bytes, at);
    is_stored(&segment) && !is_in_range(bytes.len(), &segment)
}

// The offset of the first of so many program headers, from an offset on, that breaks the rule of ranges.
fn first_bad_header(bytes: &[u8], table: usize, count: usize) -> Option<usize>
    requires { table + 32 * count ≤ length bytes.now }
    ensures value { result ≡ find (law.breaks_range bytes.now) (header.headers_from table count) }
    ensures within { IfSome result (λ at. at ≤ length bytes.now) }
{
    for index in 0..count {
        let at = table + 32 * index;
        if breaks_range(bytes, at) {
            return Some(at);
        }
    }
    None
}

/// Checks the segments that are stored.
#[tactic(auto, unfolding(crate::specs::Rules::range_fault))]
pub fn check_segments(bytes: &[u8]) -> Result<(), ImageFault>
    requires whole { 52 ≤ length bytes.now }
    requires table { header.table_of bytes.now + 32 * header.count_of bytes.now ≤ length bytes.now }
    requires small { length bytes.now < 2 ^ 32 }
    ensures { law.IsCheckOf (law.range_fault bytes.now) result }
{
    match first_bad_header(
        bytes,
        word_at(bytes, 28) as usize,
        half_at(bytes, 44) as usize,
    ) {
        Some(at) => Err(ImageFault {
            rule: ImageRule::Range,
            offset: at as u32,
        }),
        None => Ok(()),
    }
}

/// Checks the entry.
#[tactic(auto, unfolding(crate::specs::Rules::entry_fault))]
pub fn check_entry(bytes: &[u8]) -> Result<(), ImageFault>
    requires { 52 ≤ length bytes.now }
    ensures { law.IsCheckOf (law.entry_fault bytes.now) result }
{
    let entry = word_at(bytes, 24);
    let unmapped = is_unmapped(entry);
    require(unmapped && entry % 4 == 0, ImageRule::Entry, 24)
}
