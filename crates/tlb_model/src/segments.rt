//! The segments of the virtual addresses.

ghost use Rattle.std.specs.Prelude.{◌≡◌, ◌<◌};
ghost use Rattle.tlb_model.specs.Segments as law;
ghost use Rattle.tlb_model.specs.Segments.{IsSegment};

use cp0_regs::Mode;

/// What becomes of an address in a mode.
#[derive(Clone, Copy)]
pub enum Seg {
    /// The TLB maps it.
    Mapped,
    /// It is unmapped: this physical address, through the caches or past them.
    Direct { pa: u64, cached: bool },
    /// The mode does not have it.
    Denied,
}

// An address that shows the low 512 MB of the physical ones.
fn unmapped(va: u32, cached: bool) -> Seg
    ensures segment { result ≡ law.unmapped va cached }
    ensures place { IsSegment va result }
{
    Seg::Direct {
        pa: u64::from(va % 0x2000_0000),
        cached,
    }
}

/// The segment of an address in a mode. Under ERL the addresses of users are unmapped; `k0` is the attribute of kseg0.
#[tactic(auto, unfolding(crate::specs::Segments::segment_of))]
pub fn segment(va: u32, mode: Mode, error_level: bool, k0: u8) -> Seg
    ensures segment { result ≡ law.segment_of va mode error_level k0 }
    ensures place { IsSegment va result }
{
    if va < 0x8000_0000 {
        return if error_level {
            Seg::Direct {
                pa: u64::from(va),
                cached: false,
            }
        } else {
            Seg::Mapped
        };
    }
    match mode {
        Mode::Kernel if va < 0xa000_0000 => unmapped(va, k0 != 2),
        Mode::Kernel if va < 0xc000_0000 => unmapped(va, false),
        Mode::Kernel => Seg::Mapped,
        Mode::Supervisor if va >= 0xc000_0000 && va < 0xe000_0000 => Seg::Mapped,
        _ => Seg::Denied,
    }
}
