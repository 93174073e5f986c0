//! The link between a load linked and a store conditional.
//!
//! A load linked sets the link bit and shows its physical address in LLAddr. ERET clears the bit. A store conditional
//! stores only where the bit is set, and leaves it as it was.
#![tactic(auto)]

ghost use Rattle.std.specs.Prelude.{◌≡◌, ◌<◌, ◌^◌};
ghost use Rattle.cp0_regs.specs.Fixed.{KeepsFixed};
ghost use Rattle.ll_sc.specs.Linking as law;

use cp0_regs::Cp0;
use cp0_regs::registers::LL_ADDR;

/// The link bit.
#[derive(Clone, Copy, PartialEq, Eq, Default)]
pub struct Link {
    pub set: bool,
}

impl Link {
    /// Links to a physical address.
    #[tactic(auto, using(cp0_regs::proofs::Possible::ll_addr_possible))]
    pub fn mark(&mut self, cp0: &mut Cp0, pa: u64)
        requires physical { pa < 2 ^ 36 }
        ensures linked { self.new ≡ law.linked }
        ensures address { cp0.new ≡ law.with_linked_address cp0.old pa }
        ensures fixed { KeepsFixed cp0.old cp0.new }
    {
        self.set = true;
        cp0.set(LL_ADDR, (pa / 16) as u32);
    }

    /// Breaks the link.
    pub fn clear(&mut self)
        ensures unlinked { self.new ≡ law.unlinked }
    {
        self.set = false;
    }

    /// Whether a store conditional stores.
    pub fn may_store(&self) -> bool
        ensures link { result ≡ self.now.set }
    {
        self.set
    }
}
