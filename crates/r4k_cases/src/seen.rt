//! A command line, carried out over the outside of a scene.

use crate::scene::Scene;
use crate::watched::WatchedShelf;
use r4_ports::{MemShelf, MemSink, SureSink};
use r4k_top::{Status, workstation};
use std::alloc::{AllocError, Global};

/// What a command line came to, and the outside that it left.
#[derive(Drop)]
pub struct Seen {
    pub status: Status,
    pub shelf: MemShelf,
    pub sink: MemSink,
}

// The words of a command line, with bars between them; an empty line has none.
fn words_of(alloc: Global, line: &str) -> Result<Vec<String>, AllocError> {
    let mut words = Vec::new(alloc);
    if !line.is_empty() {
        for word in line.split('|') {
            words.push(String::from_str(alloc, word)?)?;
        }
    }
    Ok(words)
}

/// Carries out a command line over the outside of a scene.
pub fn perform(alloc: Global, scene: &Scene, line: &str) -> Result<Seen, AllocError> {
    let words = words_of(alloc, line)?;
    let mut shelf = scene.shelf(alloc)?;
    let mut sink = scene.sink(alloc)?;
    let status = workstation(alloc, &words, &mut shelf, &mut sink);
    Ok(Seen {
        status,
        shelf,
        sink,
    })
}

/// Carries out a command line over ports that never fail.
pub fn perform_sure(
    alloc: Global,
    scene: &Scene,
    line: &str,
    sink: &mut SureSink,
) -> Result<Status, AllocError> {
    let words = words_of(alloc, line)?;
    let mut shelf = scene.sure_shelf(alloc)?;
    Ok(workstation(alloc, &words, &mut shelf, sink))
}

/// Carries out a command line over a shelf that keeps what it is asked for.
pub fn perform_watched(
    alloc: Global,
    scene: &Scene,
    line: &str,
) -> Result<WatchedShelf, AllocError> {
    let words = words_of(alloc, line)?;
    let mut sink = scene.sink(alloc)?;
    let mut shelf = WatchedShelf {
        inside: scene.sure_shelf(alloc)?,
        asked: String::new(alloc),
    };
    let _ = workstation(alloc, &words, &mut shelf, &mut sink);
    Ok(shelf)
}
