//! What ERET does.

ghost use Rattle.std.specs.Prelude.{◌≡◌};
ghost use Rattle.cp0_regs.specs.Fixed.{KeepsFixed};
ghost use Rattle.cp0_exceptions.specs.Leaving as law;

use cp0_regs::Cp0;
use cp0_regs::fields::{ERL, EXL};
use cp0_regs::registers::{EPC, ERROR_EPC};

/// Leaves an error, or else an exception: what becomes of CP0, and the pc to which it goes back.
#[tactic(auto, using(cp0_regs::proofs::Possible::free_levels, crate::proofs::Fixed::left_keeps), unfolding(crate::specs::Leaving::left, crate::specs::Leaving::return_of))]
pub fn leave(cp0: &mut Cp0) -> u32
    ensures left { cp0.new ≡ law.left cp0.old }
    ensures back { result ≡ law.return_of cp0.old }
    ensures fixed { KeepsFixed cp0.old cp0.new }
{
    if cp0.field(ERL) == 1 {
        let back = cp0.read(ERROR_EPC);
        cp0.set_field(ERL, 0);
        back
    } else {
        let back = cp0.read(EPC);
        cp0.set_field(EXL, 0);
        back
    }
}
