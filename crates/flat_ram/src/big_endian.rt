// Halves and words that stand in bytes, the high byte first.
ghost use Rattle.std.specs.Prelude.{◌≡◌, ◌+◌, ◌≤◌, ◌<◌, ◌^◌, length};
ghost use Rattle.flat_ram.specs.Bytes as law;

use byteorder::{BigEndian, ByteOrder};

/// The half in two bytes.
pub fn half_at(bytes: &[u8], at: usize) -> u16
    requires { at + 2 ≤ length bytes.now }
    ensures { result ≡ law.half_at bytes.now at }
{
    BigEndian::read_u16(&bytes[at..])
}

/// The word in four bytes.
pub fn word_at(bytes: &[u8], at: usize) -> u32
    requires { at + 4 ≤ length bytes.now }
    ensures { result ≡ law.word_at bytes.now at }
{
    BigEndian::read_u32(&bytes[at..])
}

// The number in so many bytes, byte by byte.
#[tactic(auto, using(crate::proofs::Numbers::byte_by_byte))]
fn number_by_bytes(bytes: &[u8], at: usize, count: usize) -> u64
    requires most { count ≤ 8 }
    requires room { at + count ≤ length bytes.now }
    ensures value { result ≡ law.number_at bytes.now at count }
    ensures fits { result < 256 ^ count }
{
    let mut number = 0u64;
    for place in 0..count {
        number = number * 256 + u64::from(bytes[at + place]);
    }
    number
}

/// The number in up to eight bytes.
#[tactic(auto, using(crate::proofs::Numbers::number_is))]
pub fn number_at(bytes: &[u8], at: usize, count: usize) -> u64
    requires most { count ≤ 8 }
    requires room { at + count ≤ length bytes.now }
    ensures value { result ≡ law.number_at bytes.now at count }
    ensures fits { result < 256 ^ count }
{
    match count {
        4 => u64::from(BigEndian::read_u32(&bytes[at..])),
        8 => BigEndian::read_u64(&bytes[at..]),
        _ => number_by_bytes(bytes, at, count),
    }
}
