//! The outside of a case: the files, and how the outside fails.

use crate::fault::Fault;
use crate::text::{
    add_lines, byte_of, bytes_of, image_of, lines_of, multiples_of, number_of, numbers_of, word_of,
};
use r4_ports::{MemShelf, MemSink, SureShelf};
use std::alloc::{AllocError, Global};

/// A file: its name and its bytes.
#[derive(Drop)]
pub struct File {
    pub name: String,
    pub bytes: Vec<u8>,
}

/// The files; the numbers of the shelf's calls and of the sink's, writes and flushes, that fail; the room of the sink and of the shelf.
#[derive(Drop)]
pub struct Scene {
    files: Vec<File>,
    calls: Vec<u64>,
    writes: Vec<u64>,
    room: usize,
    shelf_room: usize,
}

// The word before the first blank, and the rest.
fn cut_word(text: &str) -> (&str, &str) {
    text.split_once(' ').unwrap_or((text, ""))
}

// The image that a text says: its base, and then its words.
fn image_said(alloc: Global, text: &str) -> Result<Vec<u8>, Fault> {
    let (base, words) = cut_word(text);
    image_of(alloc, word_of(base)?, words)
}

// The words that a text says: how many, and the factor by which each is its place.
fn words_said(alloc: Global, text: &str) -> Result<Vec<u8>, Fault> {
    let (count, factor) = cut_word(text);
    multiples_of(alloc, number_of(count)?, word_of(factor)?)
}

// Cuts bytes to a length, or fills them up to it.
fn resize(bytes: &mut Vec<u8>, text: &str) -> Result<(), Fault> {
    let (length, byte) = cut_word(text);
    bytes.resize(number_of(length)?, byte_of(byte.as_bytes())?)?;
    Ok(())
}

impl Scene {
    /// No files, an outside that does not fail, a sink with ample room, and a shelf with room for small files.
    pub fn new(alloc: Global) -> Scene {
        Scene {
            files: Vec::new(alloc),
            calls: Vec::new(alloc),
            writes: Vec::new(alloc),
            room: 8192,
            shelf_room: 4096,
        }
    }

    /// The files.
    pub fn files(&self) -> &[File] {
        &self.files
    }

    /// The bytes of a file, where it is there.
    pub fn file(&self, name: &str) -> Option<&[u8]> {
        for file in &self.files {
            if file.name.as_str() == name {
                return Some(file.bytes.as_slice());
            }
        }
        None
    }

    /// Sets a file to these bytes.
    pub fn set_file(
        &mut self,
        alloc: Global,
        name: &str,
        bytes: Vec<u8>,
    ) -> Result<(), AllocError> {
        for file in self.files.iter_mut() {
            if file.name.as_str() == name {
                file.bytes = bytes;
                return Ok(());
            }
        }
        let name = String::from_str(alloc, name)?;
        Ok(self.files.push(File { name, bytes })?)
    }

    /// A copy of the bytes of a file.
    pub fn copy_of(&self, alloc: Global, name: &str) -> Result<Vec<u8>, Fault> {
        match self.file(name) {
            Some(bytes) => Ok(Vec::from_slice(alloc, bytes)?),
            None => Err(Fault::Unread),
        }
    }

    // Cuts a file to a length, or fills it up to it.
    fn resize_file(&mut self, alloc: Global, name: &str, text: &str) -> Result<(), Fault> {
        let mut bytes = self.copy_of(alloc, name)?;
        resize(&mut bytes, text)?;
        Ok(self.set_file(alloc, name, bytes)?)
    }

    // Appends lines to a text.
    fn add_lines(&mut self, alloc: Global, name: &str, text: &str) -> Result<(), Fault> {
        let mut bytes = self.copy_of(alloc, name)?;
        add_lines(&mut bytes, "|")?;
        add_lines(&mut bytes, text)?;
        Ok(self.set_file(alloc, name, bytes)?)
    }

    // Changes a file, or how the outside fails, as a line of a script says.
    fn set_named(
        &mut self,
        alloc: Global,
        verb: &str,
        name: &str,
        rest: &str,
    ) -> Result<(), Fault> {
        let bytes = match verb {
            "file" => bytes_of(alloc, rest)?,
            "image" => image_said(alloc, rest)?,
            "text" => lines_of(alloc, rest)?,
            "words" => words_said(alloc, rest)?,
            _ => return Err(Fault::Unread),
        };
        Ok(self.set_file(alloc, name, bytes)?)
    }

    /// Changes the scene as a line of a script says.
    pub fn set(&mut self, alloc: Global, verb: &str, rest: &str) -> Result<(), Fault> {
        let (name, said) = cut_word(rest);
        match verb {
            "failing-calls" => self.calls = numbers_of(alloc, rest)?,
            "failing-writes" => self.writes = numbers_of(alloc, rest)?,
            "room" => self.room = number_of(rest)?,
            "shelf-room" => self.shelf_room = number_of(rest)?,
            "more" => self.add_lines(alloc, name, said)?,
            "length" => self.resize_file(alloc, name, said)?,
            _ => self.set_named(alloc, verb, name, said)?,
        }
        Ok(())
    }

    // The files, as a shelf takes them.
    fn shelved(&self, alloc: Global) -> Result<Vec<(String, Vec<u8>)>, AllocError> {
        let mut files = Vec::new(alloc);
        for file in &self.files {
            let bytes = Vec::from_slice(alloc, &file.bytes)?;
            files.push((String::from_str(alloc, file.name.as_str())?, bytes))?;
        }
        Ok(files)
    }

    /// The shelf of the scene.
    pub fn shelf(&self, alloc: Global) -> Result<MemShelf, AllocError> {
        let failing = Vec::from_slice(alloc, &self.calls)?;
        Ok(MemShelf::new(alloc, self.shelved(alloc)?, self.shelf_room, failing)?)
    }

    /// A shelf with the same files that never fails.
    pub fn sure_shelf(&self, alloc: Global) -> Result<SureShelf, AllocError> {
        Ok(SureShelf::new(self.shelved(alloc)?))
    }

    /// The sink of the scene.
    pub fn sink(&self, alloc: Global) -> Result<MemSink, AllocError> {
        let failing = Vec::from_slice(alloc, &self.writes)?;
        Ok(MemSink::new(alloc, self.room, failing)?)
    }
}
