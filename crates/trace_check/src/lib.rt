//! The verdict on a trace: whether one of its events breaks a rule of cache discipline, and which is the first.
//!
//! - `found`: the first event that breaks a rule.
//! - `judging`: the judge, to whom events are shown one by one.
//! - `reading`: a trace that is judged while it is read.
//!
//! The definitions stand in specs/Books.antt, specs/Verdicts.antt and specs/JudgedTraces.antt; proofs/Lists.antt has what the verdict
//! on a list has to do with its parts.
#![tactic(auto)]

mod found;
mod judging;
mod reading;

pub use found::Found;
pub use judging::Judge;
pub use reading::judge_text;
