//! What a command of the disk stands for: the beats that move a sector between the disk and RAM.

ghost use Rattle.std.specs.Prelude.{◌≡◌, ◌+◌, ◌≤◌, length};
ghost use Rattle.flat_ram.specs.Map.{ram_size};

use crate::disk_bytes::Disk;
use flat_ram::Ram;

/// The bytes of a sector.
pub const SECTOR_SIZE: usize = 512;

/// The bytes that a beat moves.
pub const BEAT_SIZE: usize = 32;

/// A command in progress.
#[derive(Clone, Copy)]
pub struct Command {
    /// Whether it moves bytes out of RAM.
    pub out: bool,
    /// The registers SECT and ADDR as it was given.
    pub sector: u32,
    pub address: u32,
    /// How many of its beats are made.
    pub made: u32,
}

/// A beat of a command.
#[derive(Clone, Copy)]
pub struct Transfer {
    /// Whether it moves bytes out of RAM.
    pub out: bool,
    /// Where its bytes stand on the disk.
    pub offset: usize,
    /// Where they stand in RAM.
    pub pa: u64,
}

/// A beat that was made.
#[derive(Clone, Copy)]
pub struct Beat {
    /// Whether it moved bytes out of RAM to the disk.
    pub out: bool,
    /// The address of the bytes in RAM.
    pub pa: u64,
}

impl Command {
    ghost use Rattle.dma_devices.specs.DiskCommands as law;

    /// The next beat.
    pub fn next(&self, size: usize) -> Transfer
        requires progress { law.IsInProgress size self.now }
        requires small { size ≤ law.largest_disk }
        ensures transfer { result ≡ law.transfer_at self.now self.now.made }
        ensures on_disk { result.offset + law.beat_size ≤ size }
        ensures in_ram { result.pa + law.beat_size ≤ ram_size }
    {
        Transfer {
            out: self.out,
            offset: self.sector as usize * SECTOR_SIZE + BEAT_SIZE * self.made as usize,
            pa: u64::from(self.address) + 32 * u64::from(self.made),
        }
    }
}

impl Transfer {
    ghost use Rattle.dma_devices.specs.DiskCommands as law;

    /// Moves the bytes.
    pub fn carry_out(&self, disk: &mut Disk, ram: &mut Ram)
        requires on_disk { self.now.offset + law.beat_size ≤ length disk.old }
        requires in_ram { self.now.pa + law.beat_size ≤ ram_size }
        ensures disk { disk.new ≡ law.disk_after self.now disk.old ram.old }
        ensures ram { ram.new ≡ law.ram_after self.now disk.old ram.old }
        ensures size { length disk.new ≡ length disk.old }
    {
        if self.out {
            disk.put(self.offset, ram.bytes(self.pa, BEAT_SIZE as u64));
        } else {
            ram.set_bytes(self.pa, disk.bytes(self.offset, BEAT_SIZE));
        }
    }
}
