//! The system's files and streams as a shelf and a sink.
//!
//! Both tell nothing of content. Each counts its failures: a count never falls, and a call fails only where it rose. No clause
//! says that a call fails only where the system did; tests hold that.
//! Reading order: `streams` has the loops over readers and writers that may give and take few bytes at once; `stream_sink`
//! is a writer as a sink, behind a buffer; `placing` is the way in which a file is put; `file_shelf` is the files as a shelf.
#![tactic(auto)]

pub mod file_shelf;
mod placing;
pub mod stream_sink;
pub mod streams;

pub use file_shelf::FileShelf;
pub use stream_sink::StdSink;
