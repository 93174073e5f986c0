//! What a mark of a table says of a cell.

ghost use Rattle.std.specs.Prelude.{◌≡◌, true, false};
ghost use Rattle.rule_ledger.specs.MarkFlags.{data_mark, instruction_mark};

/// What may be so of the copy of a granule at a colour in the data cache.
#[derive(Clone, Copy)]
pub struct DataMark {
    pub held: bool,
    pub dirty: bool,
    pub old: bool,
}

impl DataMark {
    /// What the flags of a mark say.
    #[inline]
    pub fn from_bits(bits: u8) -> DataMark
        ensures { result ≡ data_mark bits }
    {
        DataMark {
            held: bits % 2 == 1,
            dirty: bits / 2 % 2 == 1,
            old: bits / 4 % 2 == 1,
        }
    }

    /// Whether a write of memory past the caches leaves the mark as it is: no bytes are owed, and a copy that is held is old.
    #[inline]
    pub fn is_left(self) -> bool
        ensures clean { result ≡ true → self.dirty ≡ false }
        ensures old { result ≡ true → self.held ≡ true → self.old ≡ true }
    {
        !self.dirty && (self.old || !self.held)
    }

    /// The mark with these flags.
    #[inline]
    pub fn bits(self) -> u8
        ensures { data_mark result ≡ self }
    {
        u8::from(self.held) + 2 * u8::from(self.dirty) + 4 * u8::from(self.old)
    }
}

/// The same in the instruction cache.
#[derive(Clone, Copy)]
pub struct InstructionMark {
    pub held: bool,
    pub old: bool,
}

impl InstructionMark {
    /// What the flags of a mark say.
    #[inline]
    pub fn from_bits(bits: u8) -> InstructionMark
        ensures { result ≡ instruction_mark bits }
    {
        InstructionMark {
            held: bits / 8 % 2 == 1,
            old: bits / 16 % 2 == 1,
        }
    }

    /// Whether a write of memory past the caches leaves the mark as it is.
    #[inline]
    pub fn is_left(self) -> bool
        ensures old { result ≡ true → self.held ≡ true → self.old ≡ true }
    {
        self.old || !self.held
    }

    /// The mark with these flags.
    #[inline]
    pub fn bits(self) -> u8
        ensures { instruction_mark result ≡ self }
    {
        8 * u8::from(self.held) + 16 * u8::from(self.old)
    }
}
