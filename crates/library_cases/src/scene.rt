//! What lasts from a case to the next.

use crate::ports::Ports;
use flat_ram::Ram;
use std::alloc::{AllocError, Global};

/// A file, a RAM, and ports in memory.
#[derive(Drop)]
pub struct Scene {
    pub file: Vec<u8>,
    pub ram: Ram,
    pub ports: Ports,
}

impl Scene {
    /// An empty file, RAM whose bytes are all zero, and ports without files and room.
    pub fn new(alloc: Global) -> Result<Scene, AllocError> {
        Ok(Scene {
            file: Vec::new(alloc),
            ram: Ram::new(alloc)?,
            ports: Ports::new(alloc)?,
        })
    }
}
