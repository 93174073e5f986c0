// The virtual addresses that the TLB does not map.
ghost use Rattle.std.specs.Prelude.{◌≡◌, ◌<◌, ◌^◌};
ghost use Rattle.flat_ram.specs.Unmapped as law;

/// Whether a virtual address lies in kseg0 or kseg1.
pub fn is_unmapped(va: u32) -> bool
    ensures { result ≡ law.is_unmapped va }
{
    va >= 0x8000_0000 && va < 0xc000_0000
}

/// The physical address of a virtual address in kseg0 or kseg1.
pub fn physical(va: u32) -> u64
    ensures value { result ≡ law.physical va }
    ensures low { result < 2 ^ 29 }
{
    u64::from(va % 0x2000_0000)
}
