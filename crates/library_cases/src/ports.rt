//! Ports in memory: the verbs of r4_ports. A shelf lasts from one `shelf` to the next, and a sink from one `sink` to the
//! next; a verb that calls them answers with what the call answered and with what stands after it. A file is written
//! `NAME:TEXT`. Calls go through the traits, since a generic function is proved from its bounds alone.

use crate::arguments::{number_at, number_of, put_text, text_of, word_at};
use crate::scene::Scene;
use crate::tokens;
use r4_ports::{
    CallKind, FetchFault, MemShelf, MemSink, Pending, PutFault, Shelf, Sink, SinkFault, SureShelf,
    SureSink, finish, write_all, write_text,
};
use std::alloc::{AllocError, Global};
use std::fmt::Display;

/// A shelf and a sink, whose calls fail by a list.
#[derive(Drop)]
pub struct Ports {
    shelf: MemShelf,
    sink: MemSink,
}

impl Ports {
    /// A shelf without files, and a sink without room.
    pub fn new(alloc: Global) -> Result<Ports, AllocError> {
        Ok(Ports {
            shelf: shelf_of(alloc, "")?,
            sink: sink_of(alloc, "")?,
        })
    }
}

/// Appends the answer of a verb.
pub fn put_answer(
    alloc: Global,
    scene: &mut Scene,
    verb: &str,
    arguments: &str,
    out: &mut String,
) -> Result<(), AllocError> {
    match verb {
        "shelf" => put_shelf(alloc, &mut scene.ports, arguments, out),
        "sink" => put_sink(alloc, &mut scene.ports, arguments, out),
        "message" => put_message(arguments, out),
        _ => put_shelf_answer(alloc, scene, verb, arguments, out),
    }
}

// Puts a new shelf in the old one's place.
fn put_shelf(
    alloc: Global,
    ports: &mut Ports,
    arguments: &str,
    out: &mut String,
) -> Result<(), AllocError> {
    ports.shelf = shelf_of(alloc, arguments)?;
    out.push_str("ready")
}

// Puts a new sink in the old one's place.
fn put_sink(
    alloc: Global,
    ports: &mut Ports,
    arguments: &str,
    out: &mut String,
) -> Result<(), AllocError> {
    ports.sink = sink_of(alloc, arguments)?;
    out.push_str("ready")
}

fn put_shelf_answer(
    alloc: Global,
    scene: &mut Scene,
    verb: &str,
    arguments: &str,
    out: &mut String,
) -> Result<(), AllocError> {
    let shelf = &mut scene.ports.shelf;
    match verb {
        "fetch" => put_fetch(alloc, shelf, arguments, out),
        "fetches" => {
            fetch_often(alloc, shelf, arguments);
            write!(out, "{} failed", shelf.fetch_fault_count())
        }
        "put" => put_put(shelf, arguments, out),
        "held" => put_held(shelf, arguments, out),
        "call" => put_call(shelf, arguments, out),
        _ => put_sink_answer(alloc, scene, verb, arguments, out),
    }
}

// Fetches a file, and appends how many fetches have failed.
fn put_fetch(
    alloc: Global,
    shelf: &mut MemShelf,
    arguments: &str,
    out: &mut String,
) -> Result<(), AllocError> {
    put_fetched(alloc, shelf, arguments, out)?;
    write!(out, ", {} failed", shelf.fetch_fault_count())
}

// Puts a file, and appends how many puts have failed.
fn put_put(shelf: &mut MemShelf, arguments: &str, out: &mut String) -> Result<(), AllocError> {
    let is_done = puts(shelf, arguments);
    write!(
        out,
        "{}, {} failed",
        outcome(is_done),
        shelf.put_fault_count()
    )
}

fn put_sink_answer(
    alloc: Global,
    scene: &mut Scene,
    verb: &str,
    arguments: &str,
    out: &mut String,
) -> Result<(), AllocError> {
    let sink = &mut scene.ports.sink;
    match verb {
        "write" => {
            let is_done = writes(arguments, sink);
            put_written(is_done, sink, out)
        }
        "write_parts" => {
            let is_done = writes_parts(arguments, sink);
            put_written(is_done, sink, out)
        }
        _ => put_sure_answer(alloc, scene, verb, arguments, out),
    }
}

// Appends whether a text was written, what stands in the sink, and how many writes have failed.
fn put_written(is_done: bool, sink: &MemSink, out: &mut String) -> Result<(), AllocError> {
    write!(out, "{}, ", outcome(is_done))?;
    put_quoted(sink.bytes(), out)?;
    write!(out, ", {} failed", sink.fault_count())
}

// The same calls, of ports that never fail.
fn put_sure_answer(
    alloc: Global,
    scene: &mut Scene,
    verb: &str,
    arguments: &str,
    out: &mut String,
) -> Result<(), AllocError> {
    match verb {
        "sure_fetch" => put_sure_fetched(alloc, arguments, out),
        "sure_put" => put_sure_put(alloc, arguments, out),
        "sure_write" => put_sure_written(alloc, arguments, out),
        _ => tokens::put_answer(alloc, scene, verb, arguments, out),
    }
}

fn put_sure_fetched(alloc: Global, arguments: &str, out: &mut String) -> Result<(), AllocError> {
    let mut shelf = SureShelf::new(files_of(alloc, arguments, 2)?);
    put_fetched(alloc, &mut shelf, arguments, out)
}

fn put_sure_put(alloc: Global, arguments: &str, out: &mut String) -> Result<(), AllocError> {
    let mut shelf = SureShelf::new(files_of(alloc, arguments, 1)?);
    out.push_str(outcome(puts(&mut shelf, word_at(arguments, 0))))
}

// A name with bytes.
fn named(alloc: Global, name: &str, bytes: Vec<u8>) -> Result<(String, Vec<u8>), AllocError> {
    let name = String::from_str(alloc, name)?;
    Ok((name, bytes))
}

// The file of a word.
fn file_of(alloc: Global, word: &str) -> Result<(String, Vec<u8>), AllocError> {
    let (name, text) = word.split_once(':').unwrap_or((word, ""));
    named(alloc, name, text_of(alloc, text)?)
}

// The files of the words from an index on.
fn files_of(
    alloc: Global,
    arguments: &str,
    first: usize,
) -> Result<Vec<(String, Vec<u8>)>, AllocError> {
    let mut files = Vec::new(alloc);
    for word in arguments.split(' ').skip(first) {
        files.push(file_of(alloc, word)?)?;
    }
    Ok(files)
}

// The numbers of a word, with commas between them; `-` is none.
fn numbers_of(alloc: Global, word: &str) -> Result<Vec<u64>, AllocError> {
    let mut numbers = Vec::new(alloc);
    for part in word.split(',') {
        if let Some(number) = number_of(part) {
            numbers.push(number)?;
        }
    }
    Ok(numbers)
}

fn size_at(arguments: &str, index: usize) -> usize {
    number_at(arguments, index).unwrap_or(0) as usize
}

// The shelf of a room, of the numbers of the calls that fail, and of files.
fn shelf_of(alloc: Global, arguments: &str) -> Result<MemShelf, AllocError> {
    let files = files_of(alloc, arguments, 2)?;
    let failing = numbers_of(alloc, word_at(arguments, 1))?;
    MemShelf::new(alloc, files, size_at(arguments, 0), failing)
}

// The sink of a room and of the numbers of the calls that fail.
fn sink_of(alloc: Global, arguments: &str) -> Result<MemSink, AllocError> {
    let failing = numbers_of(alloc, word_at(arguments, 1))?;
    MemSink::new(alloc, size_at(arguments, 0), failing)
}

// What a call answered that gives nothing.
fn outcome(is_done: bool) -> &'static str {
    if is_done { "done" } else { "Failed" }
}

fn put_quoted(bytes: &[u8], out: &mut String) -> Result<(), AllocError> {
    out.push_str("\"")?;
    put_text(bytes, out)?;
    out.push_str("\"")
}

// Fetches the named file up to a cap, and appends its bytes.
fn put_fetched<S: Shelf>(
    alloc: Global,
    shelf: &mut S,
    arguments: &str,
    out: &mut String,
) -> Result<(), AllocError> {
    match shelf.fetch(alloc, word_at(arguments, 0), size_at(arguments, 1)) {
        Ok(bytes) => put_quoted(&bytes, out),
        Err(FetchFault::Failed) => out.push_str("Failed"),
        Err(FetchFault::Memory) => out.push_str("Memory"),
    }
}

// Fetches the named file up to a cap so many times.
fn fetch_often<S: Shelf>(alloc: Global, shelf: &mut S, arguments: &str) {
    for _ in 0..size_at(arguments, 2) {
        let _ = shelf.fetch(alloc, word_at(arguments, 0), size_at(arguments, 1));
    }
}

// Sets the file of a word, and says whether that was done.
fn puts<S: Shelf>(shelf: &mut S, word: &str) -> bool {
    let (name, text) = word.split_once(':').unwrap_or((word, ""));
    shelf.put(name, text.as_bytes()).is_ok()
}

fn put_held(shelf: &MemShelf, name: &str, out: &mut String) -> Result<(), AllocError> {
    match shelf.file(name) {
        Some(bytes) => put_quoted(bytes, out),
        None => out.push_str("none"),
    }
}

fn kind_name(kind: CallKind) -> &'static str {
    match kind {
        CallKind::Fetch => "Fetch",
        CallKind::Put => "Put",
    }
}

// Appends what the call of a number asked for, and its name.
fn put_call(shelf: &MemShelf, arguments: &str, out: &mut String) -> Result<(), AllocError> {
    match shelf.call(size_at(arguments, 0)) {
        Some((kind, name)) => {
            write!(out, "{} ", kind_name(kind))?;
            put_text(name, out)
        }
        None => out.push_str("none"),
    }
}

// Writes a text, and says whether that was done.
fn writes<K: Sink>(text: &str, out: &mut K) -> bool {
    write_all(text.as_bytes(), out).is_ok()
}

// Writes the texts of words behind one another, and says whether that was done.
fn writes_parts<K: Sink>(words: &str, out: &mut K) -> bool {
    let mut pending = Pending::new();
    for word in words.split(' ') {
        write_text(word.as_bytes(), out, &mut pending);
    }
    finish(out, &mut pending).is_ok()
}

// Writes texts one by one to a sink of a room, and appends what each write answered, and what was written where that is
// told: while it fits in the room.
fn put_sure_written(alloc: Global, arguments: &str, out: &mut String) -> Result<(), AllocError> {
    let room = size_at(arguments, 0);
    let mut sink = SureSink::new(alloc, room)?;
    let size = put_texts(arguments, &mut sink, out)?;
    if size > room {
        return out.push_str("untold");
    }
    put_quoted(sink.bytes(), out)
}

// Writes the words from the second on, appends what each write answered, and says how many bytes they are.
fn put_texts(arguments: &str, sink: &mut SureSink, out: &mut String) -> Result<usize, AllocError> {
    let mut size = 0usize;
    for text in arguments.split(' ').skip(1) {
        write!(out, "{}, ", outcome(writes(text, sink)))?;
        size = size.saturating_add(text.len());
    }
    Ok(size)
}

// Appends the sentence of a fault.
fn put_message(fault: &str, out: &mut String) -> Result<(), AllocError> {
    match fault {
        "FetchFault::Failed" => put_shown(&FetchFault::Failed, out),
        "FetchFault::Memory" => put_shown(&FetchFault::Memory, out),
        "PutFault::Failed" => put_shown(&PutFault::Failed, out),
        "SinkFault::Failed" => put_shown(&SinkFault::Failed, out),
        _ => out.push_str("?"),
    }
}

fn put_shown<T: Display>(shown: &T, out: &mut String) -> Result<(), AllocError> {
    write!(out, "{shown}")
}
