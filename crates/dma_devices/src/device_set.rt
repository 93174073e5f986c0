//! All devices together.

ghost use Rattle.std.specs.Prelude.{◌≡◌, ◌+◌, ◌%◌, ◌<◌, ◌≤◌, length, is_some, IfOk, IfSome};
ghost use Rattle.flat_ram.specs.Map.{ram_size};
ghost use Rattle.input_script.specs.Inputs.{NamesALine};
ghost use Rattle.dma_devices.specs.DeviceSet as law;
ghost use Rattle.dma_devices.specs.DiskCommands as disk_law;
ghost use Rattle.dma_devices.specs.RegisterTable.{register_at};

use crate::console_port::Console;
use crate::disk_controller::DiskController;
use crate::interrupt_lines::InterruptLines;
use crate::register_file::{OnRead, OnWrite, Register, Wrote};
use crate::transfers::Beat;
use flat_ram::Ram;
use input_script::What;
use r4_words::Memory;
use std::alloc::Global;
use std::marker::Model;

/// The devices: the console, the disk, the interrupt lines of the script, and the image's entry.
#[derive(Drop)]
pub struct Devices {
    console: Console,
    disk: DiskController,
    lines: InterruptLines,
    entry: u32,
}

impl Model for Devices {
    ghost use Rattle.dma_devices.specs.DeviceSet.{DeviceState};

    ghost Value = { DeviceState };

    ghost view = { λ d. record { console = d.console; disk = d.disk; lines = d.lines; entry = d.entry } };
}

impl Devices {
    /// The devices at reset: a disk of these bytes, room for so many bytes of console input, and the image's entry.
    pub fn new(alloc: Global, disk: Vec<u8>, keys: u32, entry: u32) -> Result<Devices, Memory>
        requires { length disk.items ≤ disk_law.largest_disk }
        ensures reset { IfOk result (λ devices. devices ≡ law.devices_at_reset disk.items keys entry) }
    {
        Ok(Devices {
            console: Console::new(alloc, keys)?,
            disk: DiskController::new(disk),
            lines: InterruptLines::down(),
            entry,
        })
    }

    /// Takes an input.
    pub fn input(&mut self, what: &What)
        requires room { law.HasRoomFor self.old what.now }
        requires line { NamesALine what.now }
        ensures devices { self.new ≡ law.after_input self.old what.now }
    {
        match what {
            What::Key(byte) => self.console.receive(*byte),
            What::Irq { line, level } => self.lines.set(*line, *level),
            What::Hold => self.disk.hold(true),
            What::Go => self.disk.hold(false),
        }
    }

    /// Makes a beat of the disk, where one is due.
    pub fn beat(&mut self, ram: &mut Ram) -> Option<Beat>
        ensures devices { self.new ≡ (law.due_beat self.old ram.old).devices }
        ensures ram { ram.new ≡ (law.due_beat self.old ram.old).ram }
        ensures beat { result ≡ (law.due_beat self.old ram.old).beat }
        ensures made { is_some result ≡ disk_law.can_beat self.old.disk }
        ensures place { IfSome result (λ beat. (beat.pa % disk_law.beat_size ≡ 0) × (beat.pa + disk_law.beat_size ≤ ram_size)) }
    {
        self.disk.beat(ram)
    }

    // The word that a read gives.
    fn read_register(&mut self, on_read: OnRead) -> u32
        ensures devices { self.new ≡ law.after_read self.old on_read }
        ensures word { result ≡ law.word_read self.old on_read }
    {
        match on_read {
            OnRead::Zero => 0,
            OnRead::WaitingByte => self.console.take(),
            OnRead::ConsoleStatus => self.console.status(),
            OnRead::Sector => self.disk.sector(),
            OnRead::Address => self.disk.address(),
            OnRead::DiskStatus => self.disk.status(),
            OnRead::Entry => self.entry,
        }
    }

    /// Reads the register at an offset. What is no register has no word.
    #[tactic(auto, unfolding(crate::specs::DeviceSet::read_at))]
    pub fn read(&mut self, at: u32) -> Option<u32>
        ensures devices { self.new ≡ (law.read_at self.old at).devices }
        ensures word { result ≡ (law.read_at self.old at).word }
        ensures register { is_some result ≡ is_some (register_at at) }
        ensures room { self.new.console.room ≡ self.old.console.room }
    {
        let register = Register::at(at)?;
        Some(self.read_register(register.on_read))
    }

    // Does what a write of a word does.
    fn write_register(&mut self, on_write: OnWrite, value: u32) -> Wrote
        ensures devices { self.new ≡ law.after_write self.old on_write value }
        ensures wrote { result ≡ law.write_comes_to on_write value }
    {
        match on_write {
            OnWrite::Ignored => {}
            OnWrite::Print => self.console.print((value % 256) as u8),
            OnWrite::Sector => self.disk.set_sector(value),
            OnWrite::Address => self.disk.set_address(value),
            OnWrite::Command => self.disk.take_command(value),
            OnWrite::ClearFlags => self.disk.clear_flags(),
            OnWrite::Halt => return Wrote::Halt(value),
        }
        Wrote::Plain
    }

    /// Writes a word to the register at an offset. What is no register takes none.
    #[tactic(auto, unfolding(crate::specs::DeviceSet::write_at))]
    pub fn write(&mut self, at: u32, value: u32) -> Option<Wrote>
        ensures devices { self.new ≡ (law.write_at self.old at value).devices }
        ensures wrote { result ≡ (law.write_at self.old at value).wrote }
        ensures register { is_some result ≡ is_some (register_at at) }
        ensures room { self.new.console.room ≡ self.old.console.room }
    {
        let register = Register::at(at)?;
        Some(self.write_register(register.on_write, value))
    }

    /// The levels of the interrupt lines, IP2 in bit 0 to IP6 in bit 4.
    pub fn levels(&self) -> u8
        ensures levels { result ≡ law.levels_of self.now }
        ensures five { result < 32 }
    {
        u8::from(self.console.has_waiting())
            + 2 * u8::from(self.disk.is_done())
            + 4 * u8::from(self.lines.line4)
            + 8 * u8::from(self.lines.line5)
            + 16 * u8::from(self.lines.line6)
    }

    /// The register SECT.
    pub fn sector(&self) -> u32
        ensures sector { result ≡ self.now.disk.sector }
    {
        self.disk.sector()
    }

    /// The register ADDR.
    pub fn address(&self) -> u32
        ensures address { result ≡ self.now.disk.address }
    {
        self.disk.address()
    }

    /// The register DSTAT.
    pub fn status(&self) -> u32
        ensures status { result ≡ disk_law.disk_status self.now.disk }
    {
        self.disk.status()
    }

    /// The console's output.
    pub fn console(&self) -> &[u8]
        ensures console { result.now ≡ self.now.console.printed }
    {
        self.console.printed()
    }

    /// The bytes of the disk.
    pub fn disk(&self) -> &[u8]
        ensures disk { result.now ≡ self.now.disk.bytes }
    {
        self.disk.bytes()
    }
}
