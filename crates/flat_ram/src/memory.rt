// The RAM, seen as the list of its bytes, and the PROM's words.
ghost use Rattle.std.specs.Prelude.{◌≡◌, ◌+◌, ◌*◌, ◌/◌, ◌%◌, ◌^◌, ◌<◌, ◌≤◌, ◌-◌, ◌++◌, List, ℕ, length, slice_index, slice_set, IfOk};
ghost use Rattle.std.specs.Int.{bytes_high_first};
ghost use Rattle.flat_ram.specs.Bytes as law;
ghost use Rattle.flat_ram.specs.Map.{ram_size};

use crate::big_endian;
use crate::map::RAM_SIZE;
use std::alloc::{AllocError, Global};
use std::marker::Model;

/// The words of the PROM, the first one at the reset vector.
#[derive(Clone, Copy)]
pub struct Prom {
    pub words: [u32; 1024],
}

// The low bytes of a number, up to eight of them.
#[tactic(auto, using(crate::proofs::Numbers::power_is, crate::proofs::Numbers::power_some, crate::proofs::Numbers::all_eight))]
fn low_bytes(count: u8, number: u64) -> u64
    requires most { count ≤ 8 }
    ensures value { result ≡ number % 256 ^ count }
    ensures fits { result < 256 ^ count }
{
    if count < 8 {
        number % (1 << (8 * u32::from(count)))
    } else {
        number
    }
}

impl Prom {
    /// The number that stands in up to eight bytes from a place on, the high byte first; they lie in one doubleword.
    #[tactic(auto, using(crate::proofs::Numbers::shift_is))]
    pub fn number(&self, at: usize, size: u8) -> u64
        requires some { 1 ≤ size }
        requires within { at % 8 + size ≤ 8 }
        requires place { at < 4096 }
        ensures value { result ≡ law.number_in_words self.now.words at size }
        ensures fits { result < 256 ^ size }
    {
        let double = u64::from(self.words[at / 8 * 2]) * 0x1_0000_0000
            + u64::from(self.words[at / 8 * 2 + 1]);
        let after = 8 - (at % 8) as u32 - u32::from(size);
        low_bytes(size, double >> (8 * after))
    }
}

/// The RAM: `RAM_SIZE` bytes.
#[derive(Drop)]
pub struct Ram {
    bytes: Vec<u8>,
}

impl Model for Ram {
    ghost use Rattle.std.specs.Prelude.{◌≡◌, List, ℕ, length};
    ghost use Rattle.flat_ram.specs.Map.{ram_size};

    ghost Value = { List ℕ };

    ghost view = { λ ram. ram.bytes.items };

    ghost invariant = { λ ram. length ram.bytes.items ≡ ram_size };
}

#[tactic(auto, unfolding(crate::specs::Bytes::zeros_of))]
fn zeros(alloc: Global, count: usize) -> Result<Vec<u8>, AllocError>
    ensures items { IfOk result (λ v. v.items ≡ law.zeros_of count) }
    ensures len { IfOk result (λ v. length v.items ≡ count) }
{
    Ok(vec![in alloc; 0; count]?)
}

/// Replaces the bytes from a place on by these.
pub fn put_bytes(all: &mut [u8], at: usize, bytes: &[u8])
    requires { at + length bytes.now ≤ length all.old }
    ensures { all.new ≡ law.put_bytes all.old at bytes.now }
{
    all[at..at + bytes.len()].copy_from_slice(bytes);
}

/// Replaces up to eight bytes from a place on by the low bytes of a number, the high one first.
#[tactic(auto, using(crate::proofs::Numbers::low_bytes, crate::proofs::Numbers::length_bytes))]
pub fn put_number(all: &mut [u8], at: usize, count: usize, number: u64)
    requires most { count ≤ 8 }
    requires room { at + count ≤ length all.old }
    ensures { all.new ≡ law.put_bytes all.old at (bytes_high_first count number) }
{
    put_bytes(all, at, &number.to_be_bytes()[8 - count..]);
}

/// Replaces so many bytes from a place on by zeros.
#[tactic(auto, unfolding(crate::specs::Bytes::zeros_of))]
pub fn put_zeros(all: &mut [u8], at: usize, count: usize)
    requires { at + count ≤ length all.old }
    ensures { all.new ≡ law.put_bytes all.old at (law.zeros_of count) }
{
    all[at..at + count].fill(0);
}

fn put_padded(all: &mut [u8], at: usize, bytes: &[u8], count: usize)
    requires room { at + count ≤ length all.old }
    requires order { length bytes.now ≤ count }
    ensures { all.new ≡ law.put_bytes all.old at (bytes.now ++ law.zeros_of (count - length bytes.now)) }
{
    let end = at + bytes.len();
    put_bytes(all, at, bytes);
    put_zeros(all, end, at + count - end);
}

impl Ram {
    /// RAM whose bytes are all zero.
    pub fn new(alloc: Global) -> Result<Ram, AllocError>
        ensures { IfOk result (λ ram. ram ≡ law.zeros_of ram_size) }
    {
        Ok(Ram {
            bytes: zeros(alloc, RAM_SIZE as usize)?,
        })
    }

    /// The number of bytes, which is always the same.
    pub fn size(&self) -> u64
        ensures value { result ≡ ram_size }
        ensures whole { length self.now ≡ ram_size }
    {
        self.bytes.len() as u64
    }

    /// The byte at an address.
    pub fn get(&self, pa: u64) -> u8
        requires { pa < ram_size }
        ensures { result ≡ slice_index self.now pa }
    {
        self.bytes[pa as usize]
    }

    /// Replaces the byte at an address.
    pub fn set(&mut self, pa: u64, byte: u8)
        requires { pa < ram_size }
        ensures { self.new ≡ slice_set self.old pa byte }
    {
        self.bytes[pa as usize] = byte;
    }

    /// So many bytes from an address on.
    pub fn bytes(&self, pa: u64, count: u64) -> &[u8]
        requires { pa + count ≤ ram_size }
        ensures value { result.now ≡ law.bytes_at self.now pa count }
        ensures len { length result.now ≡ count }
    {
        &self.bytes[pa as usize..(pa + count) as usize]
    }

    /// The word at an address, the high byte first.
    pub fn word(&self, pa: u64) -> u32
        requires { pa + 4 ≤ ram_size }
        ensures { result ≡ law.word_at self.now pa }
    {
        big_endian::word_at(&self.bytes, pa as usize)
    }

    /// Replaces the word at an address.
    pub fn set_word(&mut self, pa: u64, word: u32)
        requires { pa + 4 ≤ ram_size }
        ensures { self.new ≡ law.put_bytes self.old pa (law.bytes_of word) }
    {
        put_bytes(&mut self.bytes, pa as usize, &word.to_be_bytes());
    }

    /// The number that stands in up to eight bytes from an address on, the high byte first.
    pub fn number(&self, pa: u64, size: u8) -> u64
        requires most { size ≤ 8 }
        requires room { pa + size ≤ ram_size }
        ensures value { result ≡ law.number_at self.now pa size }
        ensures fits { result < 256 ^ size }
    {
        big_endian::number_at(&self.bytes, pa as usize, size as usize)
    }

    /// Replaces up to eight bytes from an address on by the low bytes of a number, the high one first.
    pub fn set_number(&mut self, pa: u64, size: u8, number: u64)
        requires most { size ≤ 8 }
        requires room { pa + size ≤ ram_size }
        ensures { self.new ≡ law.put_bytes self.old pa (bytes_high_first size number) }
    {
        put_number(&mut self.bytes, pa as usize, size as usize, number);
    }

    /// Replaces the bytes from an address on by these.
    pub fn set_bytes(&mut self, pa: u64, bytes: &[u8])
        requires { pa + length bytes.now ≤ ram_size }
        ensures { self.new ≡ law.put_bytes self.old pa bytes.now }
    {
        put_bytes(&mut self.bytes, pa as usize, bytes);
    }

    /// Replaces so many bytes from an address on: by the bytes given, and then by zeros.
    pub fn set_padded(&mut self, pa: u64, bytes: &[u8], count: u64)
        requires room { pa + count ≤ ram_size }
        requires order { length bytes.now ≤ count }
        ensures { self.new ≡ law.put_bytes self.old pa (bytes.now ++ law.zeros_of (count - length bytes.now)) }
    {
        put_padded(&mut self.bytes, pa as usize, bytes, count as usize);
    }
}
