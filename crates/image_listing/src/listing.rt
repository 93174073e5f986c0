//! The listing of an image, written to a sink line by line.

ghost use Rattle.std.specs.Prelude.{◌≡◌, ◌<◌, ◌≤◌, ◌+◌, ◌*◌, ◌^◌, true, length, OnOk, OnErr};
ghost use Rattle.r4_ports.specs.Told.{Appended, AppendedPrefix, HasCause};
ghost use Rattle.r4_ports.specs.Writing.{Writes, stand};
ghost use Rattle.elf_image.specs.Header.{count_of, segment_at, table_of};
ghost use Rattle.image_listing.specs.Listing as law;
ghost use Rattle.image_listing.specs.Listing.{listing_of};

use crate::lines::word_line;
use elf_image::Image;
use flat_ram::word_at;
use r4_ports::{Pending, Sink, SinkFault, finish, write_line};

// The lines of bytes that begin at an address.
fn write_words<K: Sink>(address: u32, bytes: &[u8], out: &mut K, pending: &mut Pending)
    requires { address + length bytes.now ≤ 2 ^ 32 }
    ensures writes { Writes (stand K.written K.faults out.old pending.old)
        (stand K.written K.faults out.new pending.new)
        (law.word_lines address bytes.now) }
{
    for index in 0..bytes.len() / 4 {
        let line = word_line(address + 4 * index as u32, word_at(bytes, 4 * index));
        write_line(&line, out, pending);
    }
}

// The lines of the segment that a header names, unless a write failed before.
#[tactic(auto, using(r4_ports::proofs::Writing::writes_stopped))]
fn write_segment<K: Sink>(image: &Image<'_>, index: u32, out: &mut K, pending: &mut Pending)
    requires { index < count_of image.now }
    ensures writes { Writes (stand K.written K.faults out.old pending.old)
        (stand K.written K.faults out.new pending.new)
        (law.segment_lines image.now (segment_at image.now (table_of image.now + 32 * index))) }
{
    if !pending.failed {
        write_words(
            image.segment(index).address,
            image.file_bytes(index),
            out,
            pending,
        );
    }
}

// The lines of all segments.
fn write_segments<K: Sink>(image: &Image<'_>, out: &mut K, pending: &mut Pending)
    ensures writes { Writes (stand K.written K.faults out.old pending.old)
        (stand K.written K.faults out.new pending.new)
        (listing_of image.now) }
{
    for index in 0..image.count() {
        write_segment(image, index, out, pending);
    }
}

/// Writes the listing of an image: for each stored segment, in the order of the headers, a line for each whole word that
/// the file has of it, with the word's address, the word and its text. After Ok the listing has gone out. Where a write
/// fails, a prefix of it was written, and the segments that follow are not looked at.
pub fn write_listing<K: Sink>(image: &Image<'_>, out: &mut K) -> Result<(), SinkFault>
    ensures ok { OnOk result (Appended (K.written out.old) (K.written out.new) (listing_of image.now)) }
    ensures flushed { OnOk result (K.is_flushed out.new ≡ true) }
    ensures err { OnErr result (AppendedPrefix (K.written out.old) (K.written out.new) (listing_of image.now)) }
    ensures cause { HasCause (K.faults out.old) (K.faults out.new) result }
{
    let mut pending = Pending::new();
    write_segments(image, out, &mut pending);
    finish(out, &mut pending)
}
