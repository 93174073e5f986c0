//! Why a line of a script is not carried out.

use std::alloc::AllocError;

/// Why a line is not carried out.
#[derive(Clone, Copy)]
pub enum Fault {
    /// It is no line of a script.
    Unread,
    /// There was not enough memory.
    Memory,
}

impl From<AllocError> for Fault {
    ghost use Rattle.std.specs.Prelude.{◌≡◌};
    ghost use Rattle.r4k_cases.specs.declared.fault.Fault.TheVariants.{Memory};

    ghost from_gives = { λ _ e. e ≡ Memory };

    fn from(_: AllocError) -> Self {
        Fault::Memory
    }
}
