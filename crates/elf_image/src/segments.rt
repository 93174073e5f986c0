// The program headers, which name the segments of an image.
ghost use Rattle.std.specs.Prelude.{◌≡◌, ◌+◌, ◌≤◌, length};
ghost use Rattle.elf_image.specs.Header as header;

use flat_ram::word_at;

/// A segment, as its program header names it: `p_type`, `p_offset`, `p_vaddr`, `p_filesz` and `p_memsz`.
#[derive(Clone, Copy)]
pub struct Segment {
    pub kind: u32,
    pub offset: u32,
    pub address: u32,
    pub file_size: u32,
    pub memory_size: u32,
}

/// The segment whose program header stands at an offset.
pub fn segment_at(bytes: &[u8], at: usize) -> Segment
    requires { at + 32 ≤ length bytes.now }
    ensures { result ≡ header.segment_at bytes.now at }
{
    Segment {
        kind: word_at(bytes, at),
        offset: word_at(bytes, at + 4),
        address: word_at(bytes, at + 8),
        file_size: word_at(bytes, at + 16),
        memory_size: word_at(bytes, at + 20),
    }
}
