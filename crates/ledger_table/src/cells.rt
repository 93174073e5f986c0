//! Numbers of which each reading and writing is counted.

ghost use Rattle.std.specs.Prelude.{◌≡◌, ◌<◌, length, slice_index, slice_set, replicate, IfOk};
ghost use Rattle.ledger_table.specs.Table.{touched, untouched};

use r4_words::Memory;
use std::alloc::Global;
use std::marker::Model;

/// A list of numbers of 64 bits, with the count of the touches: of the readings and writings of one of them.
#[derive(Drop)]
pub struct Cells {
    numbers: Vec<u64>,
    touches: u64,
}

impl Model for Cells {
    ghost use Rattle.ledger_table.specs.Table.{Counted};

    ghost Value = { Counted };

    ghost view = { λ c. record { numbers = c.numbers.items; touches = c.touches } };
}

#[tactic(auto, unfolding(crate::specs::Table::untouched))]
fn zeros(alloc: Global, len: usize) -> Result<Vec<u64>, Memory>
    ensures { IfOk result (λ v. v.items ≡ replicate len 0) }
{
    Ok(vec![in alloc; 0; len]?)
}

impl Cells {
    /// So many numbers 0, and a count of 0.
    #[tactic(auto, unfolding(crate::specs::Table::untouched))]
    pub fn new(alloc: Global, len: usize) -> Result<Cells, Memory>
        ensures { IfOk result (λ cells. cells ≡ untouched len) }
    {
        Ok(Cells {
            numbers: zeros(alloc, len)?,
            touches: 0,
        })
    }

    /// How often a number was read or written.
    #[inline]
    pub fn touches(&self) -> u64
        ensures { result ≡ self.now.touches }
    {
        self.touches
    }

    // Counts a touch.
    #[inline]
    fn touch(&mut self)
        ensures { self.new ≡ record self.old { touches = touched self.old.touches } }
    {
        self.touches = self.touches.saturating_add(1);
    }

    /// A number.
    #[inline]
    pub fn get(&mut self, at: usize) -> u64
        requires { at < length self.old.numbers }
        ensures value { result ≡ slice_index self.old.numbers at }
        ensures counted { self.new ≡ record self.old { touches = touched self.old.touches } }
    {
        self.touch();
        self.numbers[at]
    }

    /// Replaces a number, and no other.
    #[inline]
    pub fn set(&mut self, at: usize, value: u64)
        requires { at < length self.old.numbers }
        ensures { self.new ≡ record {
          numbers = slice_set self.old.numbers at value;
          touches = touched self.old.touches;
        } }
    {
        self.touch();
        self.numbers[at] = value;
    }
}
