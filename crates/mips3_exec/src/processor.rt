//! The processor's state.

ghost use Rattle.std.specs.Prelude.{◌≡◌, ◌+◌, ◌<◌};
ghost use Rattle.cp0_exceptions.specs.Causes.{IsRaised};
ghost use Rattle.mips3_exec.specs.Fixed.{HasFixed};
ghost use Rattle.mips3_exec.specs.Processor as law;

use cp0_exceptions::{Raised, leave, raise};
use cp0_regs::Cp0;
use ll_sc::Link;
use mips3_alu::Regs;
use tlb_model::Tlb;

/// The state of the processor: its registers, what its pipeline owes to a branch, CP0, the TLB, and how far
/// the run has come.
#[derive(Drop)]
pub struct Cpu {
    pub regs: Regs,
    /// The address of the instruction that is carried out next.
    pub pc: u32,
    /// The address of the one after it.
    pub npc: u32,
    /// Whether the instruction at `pc` stands in the delay slot of a branch or jump.
    pub slot: bool,
    /// The link of load linked and store conditional.
    pub link: Link,
    pub cp0: Cp0,
    pub tlb: Tlb,
    /// How many ticks were made.
    pub ticks: u32,
    /// The halt code, once the run has ended.
    pub halt: Option<u32>,
}

impl Cpu {
    /// The processor at reset, with this value of Config.
    #[tactic(auto, using(crate::proofs::Fixed::reset_fixed), unfolding(crate::specs::Processor::reset_cpu))]
    pub fn new(config: u32) -> Cpu
        ensures reset { result ≡ law.reset_cpu config }
        ensures ticks { result.ticks ≡ 0 }
        ensures fixed { HasFixed config result }
    {
        Cpu {
            regs: Regs {
                r: [0; 32],
                hi: 0,
                lo: 0,
            },
            pc: 0xbfc00000,
            npc: 0xbfc00004,
            slot: false,
            link: Link { set: false },
            cp0: Cp0::new(config),
            tlb: Tlb::new(),
            ticks: 0,
            halt: None,
        }
    }

    /// Goes on to the next instruction.
    pub fn advance(&mut self)
        ensures advanced { self.new ≡ law.advanced self.old }
    {
        self.pc = self.npc;
        self.npc = self.npc.wrapping_add(4);
        self.slot = false;
    }

    /// Sets a general register, and goes on to the next instruction.
    pub fn set(&mut self, at: u8, value: u64)
        requires { at < 32 }
        ensures set { self.new ≡ law.with_result self.old at value }
    {
        self.regs.write(at, value);
        self.advance();
    }

    /// Goes on behind a jump or a branch: to its delay slot, or past the one of a branch likely that is not taken.
    pub fn branch(&mut self, taken: bool, likely: bool, target: u32)
        ensures branched { self.new ≡ law.branched self.old taken likely target }
    {
        if taken {
            self.pc = self.npc;
            self.npc = target;
            self.slot = true;
        } else if likely {
            self.pc = self.npc.wrapping_add(4);
            self.npc = self.npc.wrapping_add(8);
            self.slot = false;
        } else {
            self.pc = self.npc;
            self.npc = self.npc.wrapping_add(4);
            self.slot = true;
        }
    }

    // Goes on from an address.
    fn go_to(&mut self, pc: u32)
        ensures gone { self.new ≡ law.gone_to self.old pc }
    {
        self.pc = pc;
        self.npc = pc.wrapping_add(4);
        self.slot = false;
    }

    /// Takes an exception or an interrupt.
    pub fn take(&mut self, what: &Raised)
        requires { IsRaised what.now }
        ensures taken { self.new ≡ law.taken self.old what.now }
    {
        let vector = raise(&mut self.cp0, what, self.pc, self.slot);
        self.go_to(vector);
    }

    /// Returns from an exception.
    pub fn go_back(&mut self)
        ensures back { self.new ≡ law.gone_back self.old }
    {
        let pc = leave(&mut self.cp0);
        self.link.clear();
        self.go_to(pc);
    }

    /// The end of a tick: its count in CP0, by whether it wrote Wired, and its number.
    pub fn count(&mut self, wrote_wired: bool)
        requires { self.old.ticks < 4294967295 }
        ensures counted { self.new ≡ law.counted self.old wrote_wired }
    {
        self.cp0.count(wrote_wired);
        self.ticks += 1;
    }
}
