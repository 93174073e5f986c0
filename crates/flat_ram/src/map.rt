// The physical address map.
ghost use Rattle.std.specs.Prelude.{◌≡◌};
ghost use Rattle.flat_ram.specs.Map.{spot_of};

/// The bytes of RAM, which begins at address 0.
pub const RAM_SIZE: u64 = 0x0080_0000;
/// The first physical address of the devices.
pub const DEVICE_BASE: u64 = 0x1f00_0000;
/// The bytes of the devices' range.
pub const DEVICE_SIZE: u64 = 0x1000;
/// The first physical address of the PROM.
pub const PROM_BASE: u64 = 0x1fc0_0000;
/// The bytes of the PROM.
pub const PROM_SIZE: u64 = 0x1000;

/// What stands at a physical address.
#[derive(Clone, Copy)]
pub enum Spot {
    Ram,
    Prom,
    Device,
    Empty,
}

/// What stands at a physical address.
pub fn where_is(pa: u64) -> Spot
    ensures { result ≡ spot_of pa }
{
    if pa < RAM_SIZE {
        Spot::Ram
    } else if pa >= DEVICE_BASE && pa < DEVICE_BASE + DEVICE_SIZE {
        Spot::Device
    } else if pa >= PROM_BASE && pa < PROM_BASE + PROM_SIZE {
        Spot::Prom
    } else {
        Spot::Empty
    }
}
