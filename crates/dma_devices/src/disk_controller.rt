//! The disk with its registers, and the command in progress.

ghost use Rattle.std.specs.Prelude.{◌≡◌, ◌+◌, ◌*◌, ◌%◌, ◌<◌, ◌≤◌, length, is_some, IfSome};
ghost use Rattle.flat_ram.specs.Map.{ram_size};
ghost use Rattle.dma_devices.specs.DiskCommands as law;

use crate::disk_bytes::Disk;
use crate::transfers::{Beat, Command, SECTOR_SIZE};
use flat_ram::{RAM_SIZE, Ram};
use std::marker::Model;

/// The disk: its bytes, its registers, and the command in progress.
#[derive(Drop)]
pub struct DiskController {
    disk: Disk,
    sector: u32,
    address: u32,
    done: bool,
    error: bool,
    held: bool,
    command: Option<Command>,
}

impl Model for DiskController {
    ghost use Rattle.std.specs.Prelude.{length};
    ghost use Rattle.dma_devices.specs.DiskCommands.{DiskState, IsDisk};

    ghost Value = { DiskState };

    ghost view = { λ d. record {
      bytes = d.disk;
      sector = d.sector;
      address = d.address;
      done = d.done;
      error = d.error;
      held = d.held;
      command = d.command;
    } };

    ghost invariant = { λ d. IsDisk (length d.disk) d.address d.command };
}

impl DiskController {
    /// The disk of these bytes at reset.
    pub fn new(bytes: Vec<u8>) -> DiskController
        requires { length bytes.items ≤ law.largest_disk }
        ensures reset { result ≡ law.new_disk bytes.items }
    {
        DiskController {
            disk: Disk::new(bytes),
            sector: 0,
            address: 0,
            done: false,
            error: false,
            held: false,
            command: None,
        }
    }

    /// The bytes of the disk.
    pub fn bytes(&self) -> &[u8]
        ensures bytes { result.now ≡ self.now.bytes }
    {
        self.disk.all()
    }

    /// The register SECT.
    pub fn sector(&self) -> u32
        ensures sector { result ≡ self.now.sector }
    {
        self.sector
    }

    /// The register ADDR.
    pub fn address(&self) -> u32
        ensures address { result ≡ self.now.address }
    {
        self.address
    }

    /// Whether the last command is done.
    pub fn is_done(&self) -> bool
        ensures done { result ≡ self.now.done }
    {
        self.done
    }

    /// The register DSTAT: bit 0 says that a command is in progress, bit 1 done, bit 2 error.
    pub fn status(&self) -> u32
        ensures status { result ≡ law.disk_status self.now }
    {
        u32::from(self.command.is_some()) + 2 * u32::from(self.done) + 4 * u32::from(self.error)
    }

    /// Sets SECT.
    pub fn set_sector(&mut self, value: u32)
        ensures disk { self.new ≡ law.with_sector self.old value }
    {
        self.sector = value;
    }

    /// Sets ADDR, but for its low 5 bits.
    pub fn set_address(&mut self, value: u32)
        ensures disk { self.new ≡ law.with_address self.old value }
    {
        self.address = value - value % 32;
    }

    /// Clears done and error.
    pub fn clear_flags(&mut self)
        ensures disk { self.new ≡ law.with_flags_cleared self.old }
    {
        self.done = false;
        self.error = false;
    }

    /// Holds the disk, or lets it go.
    pub fn hold(&mut self, held: bool)
        ensures disk { self.new ≡ law.with_hold self.old held }
    {
        self.held = held;
    }

    // Starts a command.
    fn start(&mut self, out: bool)
        ensures disk { self.new ≡ law.started self.old out }
    {
        let on_disk = (self.sector as usize) < self.disk.size() / SECTOR_SIZE;
        if on_disk && u64::from(self.address) + SECTOR_SIZE as u64 <= RAM_SIZE {
            self.command = Some(Command {
                out,
                sector: self.sector,
                address: self.address,
                made: 0,
            });
            self.done = false;
            self.error = false;
        } else {
            self.done = true;
            self.error = true;
        }
    }

    /// Takes a write of CMD: 1 is a command from the disk to RAM, 2 one from RAM to the disk.
    pub fn take_command(&mut self, value: u32)
        ensures disk { self.new ≡ law.after_command self.old value }
    {
        if self.command.is_none() {
            match value {
                1 => self.start(false),
                2 => self.start(true),
                _ => {}
            }
        }
    }

    // Goes on after the next beat of a command was made.
    #[tactic(auto, using(crate::proofs::CommandBeats::length_transfers))]
    fn go_on(&mut self, command: Command)
        requires progress { law.IsInProgress (length self.old.bytes) command }
        ensures disk { self.new ≡ law.gone_on self.old command }
    {
        if command.made + 1 < 16 {
            self.command = Some(Command {
                made: command.made + 1,
                ..command
            });
        } else {
            self.command = None;
            self.done = true;
        }
    }

    // Makes the next beat of a command.
    #[tactic(auto, using(crate::proofs::CommandBeats::next_transfer))]
    fn make_beat(&mut self, command: Command, ram: &mut Ram) -> Beat
        requires progress { law.IsInProgress (length self.old.bytes) command }
        ensures disk { self.new ≡ (law.next_beat self.old ram.old (Some command)).disk }
        ensures ram { ram.new ≡ (law.next_beat self.old ram.old (Some command)).ram }
        ensures beat { (law.next_beat self.old ram.old (Some command)).beat ≡ Some result }
        ensures place { (result.pa % law.beat_size ≡ 0) × (result.pa + law.beat_size ≤ ram_size) }
    {
        let transfer = command.next(self.disk.size());
        transfer.carry_out(&mut self.disk, ram);
        self.go_on(command);
        Beat {
            out: transfer.out,
            pa: transfer.pa,
        }
    }

    /// Makes the next beat of the command in progress, where there is one and the disk is not held.
    #[tactic(auto, unfolding(crate::specs::DiskCommands::beat_of))]
    pub fn beat(&mut self, ram: &mut Ram) -> Option<Beat>
        ensures disk { self.new ≡ (law.beat_of self.old ram.old).disk }
        ensures ram { ram.new ≡ (law.beat_of self.old ram.old).ram }
        ensures beat { result ≡ (law.beat_of self.old ram.old).beat }
        ensures made { is_some result ≡ law.can_beat self.old }
        ensures place { IfSome result (λ beat. (beat.pa % law.beat_size ≡ 0) × (beat.pa + law.beat_size ≤ ram_size)) }
    {
        if self.held {
            return None;
        }
        match self.command {
            None => None,
            Some(command) => Some(self.make_beat(command, ram)),
        }
    }
}
