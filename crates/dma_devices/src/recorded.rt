//! The devices with the inputs that are recorded for them and still to come.

ghost use Rattle.std.specs.Prelude.{◌≡◌, ◌+◌, ◌%◌, ◌<◌, ◌≤◌, length, is_some, IfOk, IfSome};
ghost use Rattle.std.specs.List.{prefix_len};
ghost use Rattle.flat_ram.specs.Map.{ram_size};
ghost use Rattle.dma_devices.specs.DeviceSet as devices_law;
ghost use Rattle.dma_devices.specs.DiskCommands as disk_law;
ghost use Rattle.dma_devices.specs.RecordedInputs as law;
ghost use Rattle.dma_devices.specs.RegisterTable.{register_at};

use crate::device_set::Devices;
use crate::register_file::Wrote;
use crate::transfers::Beat;
use flat_ram::Ram;
use input_script::{Input, Script};
use r4_words::Memory;
use std::alloc::Global;
use std::marker::Model;

/// The devices, and the inputs of the script that are still to come.
#[derive(Drop)]
pub struct RecordedDevices {
    devices: Devices,
    script: Script,
    /// How many inputs of the script came.
    next: usize,
}

impl Model for RecordedDevices {
    ghost use Rattle.std.specs.Prelude.{◌≤◌, length, drop};
    ghost use Rattle.dma_devices.specs.RecordedInputs.{RecordedState, CanCome};

    ghost Value = { RecordedState };

    ghost view = { λ r. record { devices = r.devices; pending = drop r.next r.script } };

    ghost invariant = { λ r. (r.next ≤ length r.script) × CanCome r.devices.console.room (drop r.next r.script) };
}

// Takes the inputs up to the first one of a later tick, and says how many they are.
fn apply_due(devices: &mut Devices, pending: &[Input], tick: u32) -> usize
    requires { law.CanCome devices.old.console.room pending.now }
    ensures devices { devices.new ≡ law.after_inputs devices.old (law.due tick pending.now) }
    ensures count { result ≡ prefix_len (law.is_due tick) pending.now }
    ensures rest { law.CanCome devices.new.console.room (law.still_pending tick pending.now) }
{
    for (count, input) in pending.iter().enumerate() {
        if input.tick > tick {
            return count;
        }
        devices.input(&input.what);
    }
    pending.len()
}

impl RecordedDevices {
    /// The devices at reset with a disk of these bytes and the image's entry, and a whole script to come.
    pub fn new(
        alloc: Global,
        disk: Vec<u8>,
        script: Script,
        entry: u32,
    ) -> Result<RecordedDevices, Memory>
        requires { length disk.items ≤ disk_law.largest_disk }
        ensures reset { IfOk result (λ recorded. recorded ≡ law.recorded_at_reset disk.items script entry) }
    {
        let devices = Devices::new(alloc, disk, script.keys(), entry)?;
        Ok(RecordedDevices {
            devices,
            script,
            next: 0,
        })
    }

    /// Takes the inputs of a tick, and any before it, in script order.
    #[tactic(auto, unfolding(crate::specs::RecordedInputs::applied))]
    pub fn apply(&mut self, tick: u32)
        ensures recorded { self.new ≡ law.applied self.old tick }
    {
        let count = apply_due(&mut self.devices, &self.script.inputs()[self.next..], tick);
        self.next += count;
    }

    /// Makes a beat of the disk, where one is due.
    pub fn beat(&mut self, ram: &mut Ram) -> Option<Beat>
        ensures recorded { self.new ≡ record self.old { devices = (devices_law.due_beat self.old.devices ram.old).devices } }
        ensures ram { ram.new ≡ (devices_law.due_beat self.old.devices ram.old).ram }
        ensures beat { result ≡ (devices_law.due_beat self.old.devices ram.old).beat }
        ensures made { is_some result ≡ disk_law.can_beat self.old.devices.disk }
        ensures place { IfSome result (λ beat. (beat.pa % disk_law.beat_size ≡ 0) × (beat.pa + disk_law.beat_size ≤ ram_size)) }
    {
        self.devices.beat(ram)
    }

    /// Reads the register at an offset. What is no register has no word.
    pub fn read(&mut self, at: u32) -> Option<u32>
        ensures recorded { self.new ≡ record self.old { devices = (devices_law.read_at self.old.devices at).devices } }
        ensures word { result ≡ (devices_law.read_at self.old.devices at).word }
        ensures register { is_some result ≡ is_some (register_at at) }
    {
        self.devices.read(at)
    }

    /// Writes a word to the register at an offset. What is no register takes none.
    pub fn write(&mut self, at: u32, value: u32) -> Option<Wrote>
        ensures recorded { self.new ≡ record self.old { devices = (devices_law.write_at self.old.devices at value).devices } }
        ensures wrote { result ≡ (devices_law.write_at self.old.devices at value).wrote }
        ensures register { is_some result ≡ is_some (register_at at) }
    {
        self.devices.write(at, value)
    }

    /// The levels of the interrupt lines, IP2 in bit 0 to IP6 in bit 4.
    pub fn levels(&self) -> u8
        ensures levels { result ≡ devices_law.levels_of self.now.devices }
        ensures five { result < 32 }
    {
        self.devices.levels()
    }

    /// The register SECT.
    pub fn sector(&self) -> u32
        ensures sector { result ≡ self.now.devices.disk.sector }
    {
        self.devices.sector()
    }

    /// The register ADDR.
    pub fn address(&self) -> u32
        ensures address { result ≡ self.now.devices.disk.address }
    {
        self.devices.address()
    }

    /// The register DSTAT.
    pub fn status(&self) -> u32
        ensures status { result ≡ disk_law.disk_status self.now.devices.disk }
    {
        self.devices.status()
    }

    /// The console's output.
    pub fn console(&self) -> &[u8]
        ensures console { result.now ≡ self.now.devices.console.printed }
    {
        self.devices.console()
    }

    /// The bytes of the disk.
    pub fn disk(&self) -> &[u8]
        ensures disk { result.now ≡ self.now.devices.disk.bytes }
    {
        self.devices.disk()
    }
}
