//! The codes of the CACHE instruction: a code is a verb and the cache that it is said to.
//!
//! The numbers stand in specs/Codes.antt.
#![tactic(auto)]

mod codes;

pub use codes::{Cache, CacheCode, Verb};
