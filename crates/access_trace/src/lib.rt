//! The trace: what was asked of memory and of the caches, one event a line.
//!
//! - `event`: an event, the breach of a rule of cache discipline, and the verdict on a list of events.
//! - `grammar`: the test for the events that a trace may hold.
//! - `marks`, `pairs`, `printing`: an event as a line of text, written into a line of bounded room; its digits come two at a time,
//!   from two tables.
//! - `splitting`, `fields`, `reading`: the event of a line. Writing and reading are each other's inverse: a line is read as
//!   an event exactly where it is what is written of that event.
//! - `lines`, `traces`: the events of a whole trace, as a list or one after another, or its first bad line.
//!
//! The definitions stand in specs/Grammar.antt (the events of the grammar), specs/Texts.antt (the line of an event and the
//! event of a line) and specs/Traces.antt (the lines of a text, and its events or its first bad line). Of events that were
//! written, proofs/WrittenTrace.antt says that a text of them is read as these events, whatever follows it, and
//! proofs/Facts.antt what the grammar says of an event.
#![tactic(auto)]

mod event;
mod fields;
mod grammar;
mod lines;
mod marks;
mod pairs;
mod printing;
mod reading;
mod splitting;
mod traces;

pub use event::{Breach, Event, EventKind, Verdict};
pub use grammar::is_event;
pub use printing::{append_event, print_event};
pub use reading::read_event;
pub use traces::{BadLine, TraceFault, TraceReader, read_trace};
