//! The bytes of the disk.

ghost use Rattle.std.specs.Prelude.{◌≡◌, ◌+◌, ◌≤◌, length};
ghost use Rattle.flat_ram.specs.Bytes as law;

use flat_ram::put_bytes;
use std::marker::Model;

/// The bytes of the disk, of which clauses see the list.
#[derive(Drop)]
pub struct Disk {
    bytes: Vec<u8>,
}

impl Model for Disk {
    ghost use Rattle.std.specs.Prelude.{List, ℕ};

    ghost Value = { List ℕ };

    ghost view = { λ disk. disk.bytes.items };
}

impl Disk {
    /// The disk of these bytes.
    pub fn new(bytes: Vec<u8>) -> Disk
        ensures bytes { result ≡ bytes.items }
    {
        Disk { bytes }
    }

    /// The number of bytes.
    pub fn size(&self) -> usize
        ensures size { result ≡ length self.now }
    {
        self.bytes.len()
    }

    /// All bytes.
    pub fn all(&self) -> &[u8]
        ensures bytes { result.now ≡ self.now }
    {
        &self.bytes
    }

    /// So many bytes from an offset on.
    pub fn bytes(&self, at: usize, count: usize) -> &[u8]
        requires { at + count ≤ length self.now }
        ensures value { result.now ≡ law.bytes_at self.now at count }
        ensures len { length result.now ≡ count }
    {
        &self.bytes[at..at + count]
    }

    /// Replaces the bytes from an offset on.
    pub fn put(&mut self, at: usize, bytes: &[u8])
        requires { at + length bytes.now ≤ length self.old }
        ensures bytes { self.new ≡ law.put_bytes self.old at bytes.now }
        ensures size { length self.new ≡ length self.old }
    {
        put_bytes(&mut self.bytes, at, bytes);
    }
}
