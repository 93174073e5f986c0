//! A machine with the judge of its events, and its run that is written while it is made.
//!
//! - `judged_machine`: the machine with its judge, tick by tick and over a run.
//! - `judging`: the events of a tick, shown to a judge.
//! - `writing`: a run of which each event is written as it comes; the report and the verdict.
//!
//! The definitions stand in specs/JudgedMachines.antt; what is written stands in specs/RunTexts.antt.
#![tactic(auto)]

mod judged_machine;
mod judging;
mod writing;

pub use judged_machine::JudgedMachine;
pub use writing::{write_checked, write_traced};
