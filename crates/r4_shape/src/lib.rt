//! The shapes of the caches: their names as words of a command, their numbers, what the Config register shows of them, and where
//! an address lies in them.
//!
//! - `numbers`: a shape, which is one of those that have a name, and the parts of an address on it.
//! - `reading`: the shape of a name.
#![tactic(auto)]

mod numbers;
mod reading;

pub use numbers::Shape;
pub use reading::read_shape;
