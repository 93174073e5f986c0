// The RAM after an image was loaded.
ghost use Rattle.std.specs.Prelude.{◌≡◌, ◌+◌, ◌*◌, ◌≤◌, length, true, false, None};
ghost use Rattle.std.specs.List.{find};
ghost use Rattle.flat_ram.specs.Bytes.{put_bytes};
ghost use Rattle.flat_ram.specs.Unmapped as unmapped;
ghost use Rattle.elf_image.specs.Header as header;
ghost use Rattle.elf_image.specs.Rules as rules;
ghost use Rattle.elf_image.specs.Loading as law;

use crate::fields::part;
use crate::reading::Image;
use crate::rules::is_stored;
use crate::segments::{Segment, segment_at};
use flat_ram::{Ram, physical};

fn store_in_range(bytes: &[u8], segment: &Segment, ram: &mut Ram)
    requires { rules.is_in_range (length bytes.now) segment.now ≡ true }
    ensures { ram.new ≡ put_bytes ram.old (unmapped.physical segment.now.address)
        (law.memory_of bytes.now segment.now) }
{
    let file = part(bytes, segment.offset as usize, segment.file_size as usize);
    ram.set_padded(
        physical(segment.address),
        file,
        u64::from(segment.memory_size),
    );
}

fn store(bytes: &[u8], at: usize, ram: &mut Ram)
    requires whole { at + 32 ≤ length bytes.now }
    requires range { rules.breaks_range bytes.now at ≡ false }
    ensures { ram.new ≡ law.stored bytes.now ram.old (header.segment_at bytes.now at) }
{
    let segment = segment_at(bytes, at);
    if is_stored(&segment) {
        store_in_range(bytes, &segment, ram);
    }
}

fn store_all(bytes: &[u8], table: usize, count: usize, ram: &mut Ram)
    requires whole { table + 32 * count ≤ length bytes.now }
    requires range { find (rules.breaks_range bytes.now) (header.headers_from table count) ≡ None }
    ensures { ram.new ≡ law.stored_all bytes.now ram.old (header.headers_from table count) }
{
    for index in 0..count {
        store(bytes, table + 32 * index, ram);
    }
}

/// Stores the image's segments at their places in RAM, in the order of their headers, each followed by zeros up to its
/// size in memory. All other bytes stay.
#[tactic(auto, unfolding(crate::specs::Loading::loaded), using(crate::proofs::Accepted::accepted_headers))]
pub fn load(image: &Image<'_>, ram: &mut Ram)
    ensures { ram.new ≡ law.loaded image.now ram.old }
{
    store_all(
        image.bytes(),
        image.table() as usize,
        image.count() as usize,
        ram,
    );
}
