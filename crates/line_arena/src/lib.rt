//! The bytes of lines, in slots that several holders share.
//!
//! A copy of a line costs no byte where it takes the slot of the line that it is a copy of. The first writer takes a slot of its own.
//!
//! - `holders`: the arena, which keeps the slot of each holder.
//! - `slots`: what is asked of the holders' slots, and the bytes of one.
#![tactic(auto)]

mod holders;
mod slots;

pub use holders::Arena;
