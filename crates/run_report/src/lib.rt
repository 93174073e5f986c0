//! The report of a machine's state, the trace and the verdict, written to a sink line by line.
//!
//! `view` is what a machine shows; `lines` are the lines of the report, each a text of bounded room; `reporting` writes
//! them, and `verdicts` the lines of a trace and of a verdict. The `put` functions join their texts to what is pending, so
//! that several make one text, and `write_report` and `write_verdict` hand a text over whole. The format is docs/REPORT.md's,
//! and its definition stands in specs/Report.antt and specs/Verdict.antt.
#![tactic(auto)]

mod lines;
mod reporting;
mod verdicts;
mod view;

pub use reporting::{put_report, write_report};
pub use verdicts::{put_end, put_event, put_verdict, write_verdict};
pub use view::View;
