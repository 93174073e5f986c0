//! Memory without caches: RAM as one list of bytes, the PROM, and the devices.

ghost use Rattle.std.specs.Prelude.{◌≡◌, ◌≤◌, ◌<◌, ◌+◌, ◌%◌, ◌^◌};
ghost use Rattle.flat_ram.specs.Map.{ram_size, spot_of};
ghost use Rattle.flat_machine.specs.FlatMemory as law;
ghost use Rattle.flat_machine.specs.Ranges.{IsPlaceIn};
ghost use Rattle.mips3_exec.specs.Talk.{IsAsked, IsAnswer, IsBeatReply, IsReadReply, IsStoreReply};

use dma_devices::{Beat, RecordedDevices, Wrote};
use flat_ram::{DEVICE_BASE, PROM_BASE, Prom, Ram, Spot, where_is};
use mips3_exec::{Access, MemorySystem, Reply, Request};

/// RAM, the PROM, and the devices with their recorded inputs.
#[derive(Drop)]
pub struct FlatMemory {
    pub ram: Ram,
    pub prom: Prom,
    pub devices: RecordedDevices,
}

// What stands at the address of an access: for a cached one there is RAM and nothing else.
fn reached_by(access: Access) -> Spot
    ensures spot { result ≡ law.reached_by access }
    ensures place { IsPlaceIn result access.pa }
{
    match where_is(access.pa) {
        Spot::Ram => Spot::Ram,
        _ if access.cached => Spot::Empty,
        spot => spot,
    }
}

// Whether so many bytes at an address are an aligned word.
fn is_word(pa: u64, size: u8) -> bool
    ensures word { result ≡ law.is_word pa size }
{
    size == 4 && pa % 4 == 0
}

// The reply to a beat that was due.
fn beat_reply(beat: Option<Beat>) -> Reply
    ensures reply { result ≡ law.beat_reply beat }
    ensures answer { IsBeatReply result }
{
    match beat {
        Some(beat) => Reply::Moved {
            out: beat.out,
            pa: beat.pa,
        },
        None => Reply::Done,
    }
}

// The reply to a read of a register.
fn word_reply(word: Option<u32>) -> Reply
    ensures reply { result ≡ law.word_reply word }
    ensures answer { IsReadReply (2 ^ 32) result }
{
    match word {
        Some(word) => Reply::Value(u64::from(word)),
        None => Reply::BusError,
    }
}

// The reply to a write of a register.
fn wrote_reply(wrote: Option<Wrote>) -> Reply
    ensures reply { result ≡ law.wrote_reply wrote }
    ensures answer { IsStoreReply result }
{
    match wrote {
        Some(Wrote::Plain) => Reply::Stored,
        Some(Wrote::Halt(code)) => Reply::Halt(code),
        None => Reply::BusError,
    }
}

impl FlatMemory {
    ghost use Rattle.dma_devices.specs.DeviceSet.{due_beat, read_at, write_at};
    ghost use Rattle.flat_machine.specs.FlatMemory as law;

    // The word at an address, for a fetch.
    fn fetch(&self, pa: u64, spot: Spot) -> Reply
        requires place { IsPlaceIn spot pa }
        requires aligned { pa % 4 ≡ 0 }
        ensures reply { result ≡ law.fetched_from self.now pa spot }
        ensures answer { IsReadReply (2 ^ 32) result }
    {
        match spot {
            Spot::Ram => Reply::Value(self.ram.number(pa, 4)),
            Spot::Prom => Reply::Value(u64::from(self.prom.words[(pa - PROM_BASE) as usize / 4])),
            Spot::Device | Spot::Empty => Reply::BusError,
        }
    }

    // Reads a device register.
    fn read_register(&mut self, offset: u64) -> Reply
        requires { offset < 4096 }
        ensures memory { self.new ≡ (law.register_read self.old (read_at self.old.devices.devices offset)).memory }
        ensures reply { result ≡ (law.register_read self.old (read_at self.old.devices.devices offset)).reply }
        ensures answer { IsReadReply (2 ^ 32) result }
    {
        word_reply(self.devices.read(offset as u32))
    }

    // So many bytes at an address.
    fn load(&mut self, pa: u64, size: u8, spot: Spot) -> Reply
        requires place { IsPlaceIn spot pa }
        requires some { 1 ≤ size }
        requires within { pa % 8 + size ≤ 8 }
        ensures memory { self.new ≡ (law.loaded_from self.old pa size spot).memory }
        ensures reply { result ≡ (law.loaded_from self.old pa size spot).reply }
        ensures answer { IsReadReply (256 ^ size) result }
    {
        match spot {
            Spot::Ram => Reply::Value(self.ram.number(pa, size)),
            Spot::Prom => Reply::Value(self.prom.number((pa - PROM_BASE) as usize, size)),
            Spot::Device if is_word(pa, size) => self.read_register(pa - DEVICE_BASE),
            Spot::Device | Spot::Empty => Reply::BusError,
        }
    }

    // Writes a device register.
    fn write_register(&mut self, offset: u64, value: u32) -> Reply
        requires { offset < 4096 }
        ensures memory { self.new ≡ (law.register_written self.old (write_at self.old.devices.devices offset value)).memory }
        ensures reply { result ≡ (law.register_written self.old (write_at self.old.devices.devices offset value)).reply }
        ensures answer { IsStoreReply result }
    {
        wrote_reply(self.devices.write(offset as u32, value))
    }

    // Sets so many bytes at an address.
    fn store(&mut self, pa: u64, size: u8, value: u64, spot: Spot) -> Reply
        requires place { IsPlaceIn spot pa }
        requires some { 1 ≤ size }
        requires within { pa % 8 + size ≤ 8 }
        ensures memory { self.new ≡ (law.stored_to self.old pa size value spot).memory }
        ensures reply { result ≡ (law.stored_to self.old pa size value spot).reply }
        ensures answer { IsStoreReply result }
    {
        match spot {
            Spot::Ram => {
                self.ram.set_number(pa, size, value);
                Reply::Stored
            }
            Spot::Device if is_word(pa, size) => {
                self.write_register(pa - DEVICE_BASE, (value % 4294967296) as u32)
            }
            Spot::Device | Spot::Prom | Spot::Empty => Reply::BusError,
        }
    }

    // Makes a beat of the disk, where one is due.
    fn beat(&mut self) -> Reply
        ensures memory { self.new ≡ (law.beat_made self.old (due_beat self.old.devices.devices self.old.ram)).memory }
        ensures reply { result ≡ (law.beat_made self.old (due_beat self.old.devices.devices self.old.ram)).reply }
        ensures answer { IsBeatReply result }
    {
        beat_reply(self.devices.beat(&mut self.ram))
    }
}

impl MemorySystem for FlatMemory {
    ghost use Rattle.flat_machine.specs.FlatMemory.{flat_ask};

    ghost ask_gives = { flat_ask };

    #[tactic(auto, unfolding(crate::specs::FlatMemory::flat_ask))]
    fn ask(&mut self, request: Request) -> Reply {
        match request {
            Request::Inputs { tick } => {
                self.devices.apply(tick);
                Reply::Done
            }
            Request::Beat => self.beat(),
            Request::Levels => Reply::Levels(self.devices.levels()),
            Request::Fetch { access } => self.fetch(access.pa, reached_by(access)),
            Request::Load { access, size } => self.load(access.pa, size, reached_by(access)),
            Request::Store {
                access,
                size,
                value,
            } => self.store(access.pa, size, value, reached_by(access)),
            Request::Cache { tag, .. } => Reply::Tag(tag),
        }
    }
}
