//! The console.

ghost use Rattle.std.specs.Prelude.{◌≡◌, ◌<◌, ◌≤◌, IfOk};
ghost use Rattle.dma_devices.specs.ConsoleBytes as law;

use r4_words::Memory;
use std::alloc::Global;
use std::marker::Model;

/// How many bytes of output are kept.
const OUTPUT_ROOM: usize = 1048576;

/// The bytes that came to the console and wait to be read, and the bytes that it has printed.
#[derive(Drop)]
pub struct Console {
    /// All bytes that came.
    keys: Vec<u8>,
    /// How many of them were read.
    taken: usize,
    /// How many more may come.
    room: u32,
    printed: Vec<u8>,
}

impl Model for Console {
    ghost use Rattle.std.specs.Prelude.{◌≤◌, ◌+◌, length, drop, vec_capacity};
    ghost use Rattle.dma_devices.specs.ConsoleBytes.{ConsoleState, output_room};

    ghost Value = { ConsoleState };

    ghost view = { λ c. record { waiting = drop c.taken c.keys.items; room = c.room; printed = c.printed.items } };

    ghost invariant = { λ c. (c.taken ≤ length c.keys.items)
        × (length c.keys.items + c.room ≤ vec_capacity c.keys)
        × (output_room ≤ vec_capacity c.printed)
        × (length c.printed.items ≤ output_room) };
}

impl Console {
    /// A console with room for so many bytes of input, and for all output that it will keep.
    pub fn new(alloc: Global, keys: u32) -> Result<Console, Memory>
        ensures reset { IfOk result (λ console. console ≡ law.new_console keys) }
    {
        Ok(Console {
            keys: Vec::with_capacity(alloc, keys as usize)?,
            taken: 0,
            room: keys,
            printed: Vec::with_capacity(alloc, OUTPUT_ROOM)?,
        })
    }

    /// A byte comes.
    pub fn receive(&mut self, byte: u8)
        requires room { 0 < self.old.room }
        ensures console { self.new ≡ law.with_key self.old byte }
    {
        match self.keys.push(byte) {
            Ok(()) => {}
            Err(_) => unreachable!(),
        }
        self.room -= 1;
    }

    /// Whether a byte waits.
    pub fn has_waiting(&self) -> bool
        ensures waiting { result ≡ law.has_waiting self.now }
    {
        self.taken < self.keys.len()
    }

    /// Takes the first waiting byte, or ffffffff where none waits.
    pub fn take(&mut self) -> u32
        ensures console { self.new ≡ law.after_taking self.old }
        ensures word { result ≡ law.first_waiting self.old.waiting }
    {
        if self.taken < self.keys.len() {
            let byte = self.keys[self.taken];
            self.taken += 1;
            u32::from(byte)
        } else {
            0xffff_ffff
        }
    }

    /// Whether the output is full.
    pub fn is_full(&self) -> bool
        ensures full { result ≡ law.is_full self.now }
    {
        self.printed.len() >= OUTPUT_ROOM
    }

    /// Prints a byte. One that finds the output full is lost.
    pub fn print(&mut self, byte: u8)
        ensures console { self.new ≡ law.with_printed self.old byte }
    {
        if self.printed.len() < OUTPUT_ROOM {
            match self.printed.push(byte) {
                Ok(()) => {}
                Err(_) => unreachable!(),
            }
        }
    }

    /// The status: bit 0 says that a byte waits, bit 1 that the output is full.
    pub fn status(&self) -> u32
        ensures status { result ≡ law.console_status self.now }
    {
        u32::from(self.has_waiting()) + 2 * u32::from(self.is_full())
    }

    /// What was printed.
    pub fn printed(&self) -> &[u8]
        ensures printed { result.now ≡ self.now.printed }
    {
        &self.printed
    }
}
