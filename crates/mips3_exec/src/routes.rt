//! How the processor reaches memory: from a virtual address to a physical one.

ghost use Rattle.std.specs.Prelude.{◌≡◌};
ghost use Rattle.mips3_exec.specs.Routes as law;
ghost use Rattle.mips3_exec.specs.Routes.{IsRoute};

use crate::processor::Cpu;
use crate::talk::Access;
use cp0_exceptions::Raised;
use cp0_exceptions::codes::{ADDRESS_LOAD, ADDRESS_STORE, MODIFIED, TLB_LOAD, TLB_STORE};
use tlb_model::{Found, Seg, segment};

/// Where an address leads: to a physical one, or to an exception.
#[derive(Clone, Copy)]
pub enum Route {
    /// To this physical address, through the caches or past them.
    To { pa: u64, cached: bool },
    /// To this exception.
    Fault(Raised),
}

/// An exception that names no address.
pub fn plain(code: u8) -> Raised
    ensures raised { result ≡ law.plain code }
{
    Raised {
        code,
        unit: 0,
        bad: None,
        refill: false,
    }
}

/// An exception of an address.
pub fn at_address(code: u8, bad: u32) -> Raised
    ensures raised { result ≡ law.at_address code bad }
{
    Raised {
        code,
        unit: 0,
        bad: Some(bad),
        refill: false,
    }
}

/// The address error, of something read or written.
pub fn address_error(write: bool, bad: u32) -> Raised
    ensures raised { result ≡ law.address_error write bad }
{
    let code = if write { ADDRESS_STORE } else { ADDRESS_LOAD };
    at_address(code, bad)
}

// Where a mapped address leads.
#[inline(never)]
fn mapped_route(cpu: &Cpu, write: bool, va: u32, bad: u32) -> Route
    ensures route { result ≡ law.route_in cpu.now write va bad Seg.Mapped }
    ensures place { IsRoute va result }
{
    let code = if write { TLB_STORE } else { TLB_LOAD };
    match cpu.tlb.translate(va, cpu.cp0.asid(), write) {
        Found::Page { pa, cached } => Route::To { pa, cached },
        Found::Refill => Route::Fault(Raised {
            refill: true,
            ..at_address(code, bad)
        }),
        Found::Invalid => Route::Fault(at_address(code, bad)),
        Found::Modified => Route::Fault(at_address(MODIFIED, bad)),
    }
}

/// Where an address leads, in the mode of the moment. An exception shows the address `bad`.
#[inline(always)]
#[tactic(auto, unfolding(crate::specs::Routes::route_of))]
pub fn route_of(cpu: &Cpu, write: bool, va: u32, bad: u32) -> Route
    ensures route { result ≡ law.route_of cpu.now write va bad }
    ensures place { IsRoute va result }
{
    let mode = cpu.cp0.mode();
    let error_level = cpu.cp0.is_error_level();
    match segment(va, mode, error_level, cpu.cp0.k0()) {
        Seg::Mapped => mapped_route(cpu, write, va, bad),
        Seg::Direct { pa, cached } => Route::To { pa, cached },
        Seg::Denied => Route::Fault(address_error(write, bad)),
    }
}

/// The reference to memory that is made then.
pub fn access_of(cpu: &Cpu, va: u32, pa: u64, cached: bool) -> Access
    ensures access { result ≡ law.access_of cpu.now va pa cached }
{
    Access {
        cached,
        quiet: cpu.cp0.is_quiet(),
        va,
        pa,
    }
}
