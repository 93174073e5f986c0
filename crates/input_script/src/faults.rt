//! Why a text is no script.

use std::alloc::AllocError;
use thiserror::Error;

/// The reason for which a line of a script is bad. Of several that hold for a line the first stands.
#[derive(Clone, Copy, Debug, Error)]
pub enum ScriptWhy {
    /// The words after the first match no row.
    #[error("no such line")]
    Line,
    /// The tick, the interrupt line or its level is no such number.
    #[error("no such number")]
    Number,
    /// The tick is below that of an earlier line.
    #[error("out of order")]
    Order,
}

/// Why a text has no script.
#[derive(Clone, Copy, Debug, Error)]
pub enum ScriptFault {
    /// The first bad line, counted from 1, and the first reason that holds for it.
    #[error("line {line}: {why}")]
    Bad { line: u32, why: ScriptWhy },
    /// Want of memory.
    #[error("out of memory")]
    Memory,
}

impl From<AllocError> for ScriptFault {
    ghost use Rattle.std.specs.Prelude.{◌≡◌};
    ghost use Rattle.input_script.specs.declared.faults.ScriptFault.TheVariants.{Memory};

    ghost from_gives = { λ _ e. e ≡ Memory };

    fn from(_error: AllocError) -> ScriptFault {
        ScriptFault::Memory
    }
}
