//! The general registers, HI and LO.

ghost use Rattle.std.specs.Prelude.{◌≡◌, ◌<◌};
ghost use Rattle.mips3_alu.specs.Registers as law;

/// The 32 general registers, of 64 bits each, with HI and LO. Register 0 reads as zero.
#[derive(Clone, Copy)]
pub struct Regs {
    /// The general registers by number.
    pub r: [u64; 32],
    /// The high half of a product, or a remainder.
    pub hi: u64,
    /// The low half of a product, or a quotient.
    pub lo: u64,
}

/// What goes to HI and LO.
#[derive(Clone, Copy)]
pub struct Halves {
    /// The high half of a product, or a remainder.
    pub hi: u64,
    /// The low half of a product, or a quotient.
    pub lo: u64,
}

impl Regs {
    /// The register of a number.
    pub fn read(&self, at: u8) -> u64
        requires { at < 32 }
        ensures value { result ≡ law.register self.now at }
    {
        self.r[at as usize]
    }

    /// Sets a register. A write to register 0 is lost.
    pub fn write(&mut self, at: u8, value: u64)
        requires { at < 32 }
        ensures written { self.new ≡ law.with_register self.old at value }
        ensures zero { law.register self.new 0 ≡ law.register self.old 0 }
    {
        if at != 0 {
            self.r[at as usize] = value;
        }
    }
}
