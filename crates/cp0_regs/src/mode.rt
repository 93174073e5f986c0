//! What the processor reads off the registers.

ghost use Rattle.std.specs.Prelude.{◌≡◌, ◌<◌, ◌≤◌};
ghost use Rattle.cp0_regs.specs.Fields as fields;
ghost use Rattle.cp0_regs.specs.Modes as law;
ghost use Rattle.cp0_regs.specs.PageMasks.{IsMask};
ghost use Rattle.cp0_regs.specs.Registers as registers;
ghost use Rattle.cp0_regs.specs.State.{word, value_of};

use crate::cp0::Cp0;
use crate::fields::{ASID, BEV, CU0, ERL, EXL, IE, IM, IP, K0, KSU};
use crate::registers::{PAGE_MASK, RANDOM};

/// A mode of the processor.
#[derive(Clone, Copy, PartialEq, Eq)]
pub enum Mode {
    Kernel,
    Supervisor,
    User,
}

impl Cp0 {
    /// The mode.
    #[tactic(auto, unfolding(crate::specs::Modes::mode_of))]
    pub fn mode(&self) -> Mode
        ensures mode { result ≡ law.mode_of self.now }
    {
        let user_mode = self.field(KSU);
        if self.is_kernel() {
            Mode::Kernel
        } else if user_mode == 1 {
            Mode::Supervisor
        } else {
            Mode::User
        }
    }

    /// Whether the processor is in kernel mode.
    pub fn is_kernel(&self) -> bool
        ensures kernel { result ≡ law.is_kernel self.now }
    {
        let user_mode = self.field(KSU);
        let exception_level = self.field(EXL);
        let error_level = self.field(ERL);
        user_mode == 0 || exception_level == 1 || error_level == 1
    }

    /// Whether ERL is set.
    pub fn is_error_level(&self) -> bool
        ensures error_level { result ≡ law.is_set self.now fields.erl }
    {
        self.field(ERL) == 1
    }

    /// Whether coprocessor 0 is usable.
    pub fn has_coprocessor_0(&self) -> bool
        ensures usable { result ≡ law.has_coprocessor_0 self.now }
    {
        let usable = self.field(CU0);
        self.is_kernel() || usable == 1
    }

    /// Whether EXL and ERL are 0 and BEV is 1.
    pub fn is_quiet(&self) -> bool
        ensures quiet { result ≡ law.is_quiet self.now }
    {
        let exception_level = self.field(EXL);
        let error_level = self.field(ERL);
        let boot_vectors = self.field(BEV);
        exception_level == 0 && error_level == 0 && boot_vectors == 1
    }

    // Whether some line asks for an interrupt, and may interrupt.
    #[tactic(auto, using(crate::proofs::Pending::common_bit))]
    fn has_pending(&self) -> bool
        ensures pending { result ≡ law.has_pending self.now }
    {
        self.field(IP) & self.field(IM) != 0
    }

    /// Whether an interrupt is taken.
    #[tactic(auto, unfolding(crate::specs::Modes::takes_interrupt))]
    pub fn takes_interrupt(&self) -> bool
        ensures taken { result ≡ law.takes_interrupt self.now }
    {
        let enabled = self.field(IE);
        let exception_level = self.field(EXL);
        let error_level = self.field(ERL);
        enabled == 1 && exception_level == 0 && error_level == 0 && self.has_pending()
    }

    /// Random.
    pub fn random(&self) -> u32
        ensures value { result ≡ word self.now registers.random }
        ensures pair { result ≤ 47 }
    {
        self.read(RANDOM)
    }

    /// PageMask.
    pub fn page_mask(&self) -> u32
        ensures value { result ≡ word self.now registers.page_mask }
        ensures mask { IsMask result }
    {
        self.read(PAGE_MASK)
    }

    /// The number of the address space.
    pub fn asid(&self) -> u8
        ensures value { result ≡ value_of self.now fields.asid }
    {
        self.field(ASID) as u8
    }

    /// The attribute of kseg0.
    pub fn k0(&self) -> u8
        ensures value { result ≡ value_of self.now fields.k0 }
        ensures attribute { result < 8 }
    {
        self.field(K0) as u8
    }
}
