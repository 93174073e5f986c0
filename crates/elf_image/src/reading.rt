// The image, from a file's bytes.
ghost use Rattle.std.specs.Prelude.{◌≡◌, ◌+◌, ◌*◌, ◌<◌, ◌≤◌, ◌^◌, length, false, IfOk, OnOk, IfErr};
ghost use Rattle.elf_image.specs.Header as header;
ghost use Rattle.elf_image.specs.Rules as law;
ghost use Rattle.elf_image.specs.Loading as loading;

use crate::fields::part;
use crate::rules;
use crate::rules::{ImageFault, is_stored};
use crate::segments::{Segment, segment_at};
use flat_ram::{half_at, word_at};
use std::marker::Model;

/// An image that the machine can be started from: a file that meets all rules. Clauses see it as the file's bytes.
#[derive(Drop)]
pub struct Image<'a> {
    bytes: &'a [u8],
    entry: u32,
    table: u32,
    count: u32,
}

impl<'a> Model for Image<'a> {
    ghost use Rattle.std.specs.Prelude.{◌≡◌, List, ℕ, None};
    ghost use Rattle.elf_image.specs.Rules.{image_fault};
    ghost use Rattle.elf_image.specs.Header.{entry_of, table_of, count_of};

    ghost Value = { List ℕ };

    ghost view = { λ image. image.bytes.now };

    ghost invariant = { λ image. (image_fault image.bytes.now ≡ None)
        × (image.entry ≡ entry_of image.bytes.now)
        × (image.table ≡ table_of image.bytes.now)
        × (image.count ≡ count_of image.bytes.now) };
}

impl<'a> Image<'a> {
    /// The bytes of the file.
    pub fn bytes(&self) -> &'a [u8]
        ensures value { result.now ≡ self.now }
        ensures rules { law.image_fault self.now ≡ None }
    {
        self.bytes
    }

    /// The address at which the image is entered.
    pub fn entry(&self) -> u32
        ensures { result ≡ header.entry_of self.now }
    {
        self.entry
    }

    /// The offset of the table of program headers in the file.
    pub fn table(&self) -> u32
        ensures { result ≡ header.table_of self.now }
    {
        self.table
    }

    /// The number of program headers.
    pub fn count(&self) -> u32
        ensures { result ≡ header.count_of self.now }
    {
        self.count
    }

    /// The segment that a program header names.
    #[tactic(auto, using(crate::proofs::Accepted::accepted_table))]
    pub fn segment(&self, index: u32) -> Segment
        requires { index < header.count_of self.now }
        ensures { result ≡ header.segment_at self.now (header.table_of self.now + 32 * index) }
    {
        segment_at(self.bytes, self.table as usize + 32 * index as usize)
    }

    /// The bytes that the file has of the segment that a program header names: none where it is not stored. From the
    /// segment's address on they end below 2 ^ 32, so no address of them wraps.
    pub fn file_bytes(&self, index: u32) -> &'a [u8]
        requires { index < header.count_of self.now }
        ensures bytes { result.now ≡ loading.file_bytes_of self.now
            (header.segment_at self.now (header.table_of self.now + 32 * index)) }
        ensures ends { (header.segment_at self.now (header.table_of self.now + 32 * index)).address + length result.now
            ≤ 2 ^ 32 }
    {
        file_bytes(self.bytes, self.table as usize + 32 * index as usize)
    }
}

fn file_bytes(bytes: &[u8], at: usize) -> &[u8]
    requires whole { at + 32 ≤ length bytes.now }
    requires range { law.breaks_range bytes.now at ≡ false }
    ensures bytes { result.now ≡ loading.file_bytes_of bytes.now (header.segment_at bytes.now at) }
    ensures ends { (header.segment_at bytes.now at).address + length result.now ≤ 2 ^ 32 }
{
    let segment = segment_at(bytes, at);
    if !is_stored(&segment) {
        return &[];
    }
    part(bytes, segment.offset as usize, segment.file_size as usize)
}

#[tactic(auto, using(crate::proofs::Accepted::rule_by_rule))]
fn check(bytes: &[u8]) -> Result<(), ImageFault>
    requires { length bytes.now ≤ 4294967294 }
    ensures { law.IsCheckOf (law.image_fault bytes.now) result }
{
    rules::check_length(bytes)?;
    rules::check_magic(bytes)?;
    rules::check_class(bytes)?;
    rules::check_machine(bytes)?;
    rules::check_kind(bytes)?;
    rules::check_table(bytes)?;
    rules::check_segments(bytes)?;
    rules::check_entry(bytes)
}

/// The image of a file's bytes, where they meet all rules, and else the first broken rule.
#[tactic(auto, using(crate::proofs::Accepted::accepted_length))]
pub fn read_image<'a>(bytes: &'a [u8]) -> Result<Image<'a>, ImageFault>
    requires { length bytes.now ≤ 4294967294 }
    ensures image { IfOk result (λ image. image ≡ bytes.now) }
    ensures accepted { OnOk result (law.image_fault bytes.now ≡ None) }
    ensures fault { IfErr result (λ fault. law.image_fault bytes.now ≡ Some fault) }
{
    check(bytes)?;
    Ok(Image {
        bytes,
        entry: word_at(bytes, 24),
        table: word_at(bytes, 28),
        count: u32::from(half_at(bytes, 44)),
    })
}
