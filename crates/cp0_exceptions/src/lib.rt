//! Exceptions: what raising one makes of CP0 and where it leads, and the way back by ERET.
//!
//! - `codes`: the codes of the causes, by name.
//! - `raising`: `raise`, which takes an exception.
//! - `leaving`: `leave`, which is ERET.
//!
//! Which cause changes what is one table, in specs/Causes.antt. What the general registers, pc, the delay slot's flag and
//! the link become is not said here: `raise` and `leave` answer the next pc.
#![tactic(auto)]

pub mod codes;
mod leaving;
mod raising;

pub use leaving::leave;
pub use raising::{Raised, raise};
